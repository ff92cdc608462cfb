// Which commands there are, and what each carries.
#![tactic(auto)]

ghost use Rattle.std.specs.Prelude.{◌≡◌, cond, ◌&&◌, eqb, leb};
ghost use Rattle.mdp_command.specs.Command.{is_command, is_work, most_body_parts};
ghost use Rattle.mdp_command.specs.WorkingSender.{sender_number};
ghost use Rattle.mdp_rules.specs.WorkingCarried.{named, addressed, bodied, Carrying, carried_by};

use mdp_command::{MOST_PARTS, Sender};
use refusal::Refusal;

// A client's first command and its last. These stay numbers, as those of a worker: the calls take and
// tell them so.
const ASKS_FIRST: u8 = 1;

const ASKS_LAST: u8 = 3;

// A worker's commands: READY, then REQUEST, PARTIAL and FINAL, then HEARTBEAT and DISCONNECT.
const READY: u8 = 1;

const REQUEST: u8 = 2;

const FINAL: u8 = 4;

const HEARTBEAT: u8 = 5;

const DISCONNECT: u8 = 6;

// What a command carries behind its mark and its number.
#[derive(Clone, Copy, Debug, PartialEq, Eq)]
pub enum Carried {
    NameAndBody,
    Name,
    AddressAndBody,
    Nothing,
}

impl Carried {
    // What a command of this sender with this number carries; 33 where there is no such command.
    #[tactic(auto, unfolding(mdp_command::specs::Command::is_command, mdp_command::specs::Command::has_name, mdp_command::specs::Command::has_address, mdp_command::specs::Command::has_body))]
    pub fn of(sender: Sender, code: u8) -> Result<Carried, Refusal>
        ensures { Carrying (sender_number sender) code result }
    {
        match (sender, code) {
            (Sender::Client, ASKS_FIRST..=ASKS_LAST) => Ok(Carried::NameAndBody),
            (Sender::Worker, READY) => Ok(Carried::Name),
            (Sender::Worker, REQUEST..=FINAL) => Ok(Carried::AddressAndBody),
            (Sender::Worker, HEARTBEAT..=DISCONNECT) => Ok(Carried::Nothing),
            _ => Err(Refusal::CommandWrong),
        }
    }

    pub fn has_name(self) -> bool
        ensures { result ≡ named self }
    {
        matches!(self, Carried::NameAndBody | Carried::Name)
    }

    pub fn has_address(self) -> bool
        ensures { result ≡ addressed self }
    {
        matches!(self, Carried::AddressAndBody)
    }

    pub fn has_body(self) -> bool
        ensures { result ≡ bodied self }
    {
        matches!(self, Carried::NameAndBody | Carried::AddressAndBody)
    }

    // 34: one or more body parts where the command has a body, and none where it has not.
    pub fn body_fits(self, parts: usize) -> bool
        ensures { result ≡ cond (bodied self) (leb 1 parts && leb parts most_body_parts) (eqb parts 0) }
    {
        body_fits(self.has_body(), parts)
    }
}

// What a command carries, one by one.
#[derive(Clone, Copy, Debug, PartialEq, Eq)]
pub struct Contents {
    pub name: bool,
    pub address: bool,
    pub body: bool,
}

// Whether this sender has a command with this number.
pub fn is_command(sender: u8, code: u8) -> bool
    ensures { result ≡ is_command sender code }
{
    match Sender::try_from(sender) {
        Ok(sender) => Carried::of(sender, code).is_ok(),
        Err(_) => false,
    }
}

// Whether a worker's command is REQUEST, PARTIAL or FINAL.
fn is_work(code: u8) -> bool
    ensures { result ≡ is_work code }
{
    REQUEST <= code && code <= FINAL
}

// What a command of this sender with this number carries, of any two numbers: also of those that no command has.
#[tactic(auto, unfolding(crate::specs::WorkingCarried::carried_by, mdp_command::specs::Command::has_name, mdp_command::specs::Command::has_address, mdp_command::specs::Command::has_body))]
pub fn carries(sender: u8, code: u8) -> Contents
    ensures { result ≡ carried_by sender code }
{
    let asks = sender == u8::from(Sender::Client);
    let works = sender == u8::from(Sender::Worker);
    Contents {
        name: asks || code == READY,
        address: works && is_work(code),
        body: asks || is_work(code),
    }
}

// 34: one or more body parts where there is to be a body, and none where there is not.
pub fn body_fits(body: bool, parts: usize) -> bool
    ensures { result ≡ cond body (leb 1 parts && leb parts most_body_parts) (eqb parts 0) }
{
    if body {
        1 <= parts && parts <= MOST_PARTS
    } else {
        parts == 0
    }
}
