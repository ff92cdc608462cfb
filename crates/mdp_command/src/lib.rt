// A Majordomo command: its senders and their marks, what a writer is given, where its parts lie, and the numbers that more than one crate uses.
#![tactic(auto)]

ghost use Rattle.std.specs.Prelude.{◌≡◌};
ghost use Rattle.mdp_command.specs.CommandBytes.{mark_of};
ghost use Rattle.mdp_command.specs.WorkingSender.{sender_number, Sends};

use frame_message::Stretch;
use refusal::Refusal;

// What a command begins with, and so who its sender is: one constant each, compared on reading and copied on writing.
pub const CLIENT_MARK: [u8; 6] = *b"MDPC02";

pub const WORKER_MARK: [u8; 6] = *b"MDPW02";

// The most bytes of a command, and the most parts of its body.
pub const MOST_BYTES: usize = 32768;

pub const MOST_PARTS: usize = 16;

// Bytes of the mark's part and the number's: every command begins with these two.
pub const START: usize = 9;

// Who sends a command: a name and the number that the calls have for it.
#[derive(Clone, Copy, Debug, PartialEq, Eq)]
pub enum Sender {
    Client = 1,
    Worker = 2,
}

impl Sender {
    // What the sender's commands begin with.
    pub fn mark(self) -> [u8; 6]
        ensures { result ≡ mark_of (sender_number self) }
    {
        match self {
            Sender::Client => CLIENT_MARK,
            Sender::Worker => WORKER_MARK,
        }
    }
}

// The sender with this number; 33 where there is none, since nobody else has a command.
impl TryFrom<u8> for Sender {
    type Error = Refusal;

    ghost try_from_gives = { Sends };

    fn try_from(number: u8) -> Result<Sender, Refusal> {
        match number {
            1 => Ok(Sender::Client),
            2 => Ok(Sender::Worker),
            _ => Err(Refusal::CommandWrong),
        }
    }
}

// The number of a sender.
impl From<Sender> for u8 {
    ghost from_gives = { λ sender n. n ≡ sender_number sender };

    fn from(sender: Sender) -> u8 {
        sender as u8
    }
}

// What the writer is given: any numbers, and the body's parts with their sizes, one after another. What the command lacks is empty.
#[derive(Clone, Copy)]
pub struct Command<'a> {
    pub sender: u8,
    pub code: u8,
    pub name: &'a [u8],
    pub address: &'a [u8],
    pub body: &'a [u8],
}

// A command in the caller's bytes: its sender and number as the caller gets them, the name, where the address's data starts (it has 37 bytes), the
// body's parts with their sizes as one stretch, and how many they are. What the command lacks is 0.
#[derive(Clone, Copy)]
pub struct CommandPlaces {
    pub sender: u8,
    pub code: u8,
    pub name: Stretch,
    pub address: usize,
    pub body: Stretch,
    pub parts: usize,
}
