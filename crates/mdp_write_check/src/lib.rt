// What the writer of commands refuses, in the paper's order, before it writes anything.
#![tactic(auto)]

ghost use Rattle.std.specs.Prelude.{◌≡◌, ◌≤◌, OnOk};
ghost use Rattle.std.specs.Bool.{MatchBool};
ghost use Rattle.bytes_number.specs.Number.{Bytes};
ghost use Rattle.frame_message.specs.Writing.{is_empty};
ghost use Rattle.frame_message.specs.Working.{written_as};
ghost use Rattle.mdp_command.specs.CommandBytes.{cut_parts};
ghost use Rattle.mdp_command.specs.CommandWriting.{command_into};
ghost use Rattle.mdp_command.specs.WorkingGiven.{given_in};
ghost use Rattle.mdp_rules.specs.WorkingCarried.{named, addressed, CarriedBy};
ghost use Rattle.mdp_write_check.specs.WorkingChecks.{cut_as, front_length};

use frame_forms::is_route;
use frame_part_size::size_length;
use frame_parts::count_parts;
use frame_write_check::fit;
use mdp_command::{Command, MOST_BYTES, START, Sender};
use mdp_name::is_name;
use mdp_rules::Carried;
use refusal::Refusal;

// Bytes in front of a body that stands behind an address and the separator.
const ADDRESSED: usize = 48;

// How many parts a body is cut into. There may be as many as bytes, so that only a part's size can stop the counting.
fn cut_body(body: &[u8]) -> Result<usize, Refusal>
    ensures value { result ≡ cut_as (cut_parts body.now) }
    ensures body_value { Bytes body.now }
{
    match count_parts(body, body.len()) {
        Ok(counts) => Ok(counts.count),
        Err(_) => Err(Refusal::CommandPartWrong),
    }
}

// 35 and 36: a name or an address of the right form where the command has one, and none where it has not.
fn fits<F: Fn(&[u8]) -> bool>(given: bool, bytes: &[u8], is_right: F) -> bool
    requires { F.IsAlwaysCallable is_right }
    ensures { MatchBool given (F.post is_right bytes.entry result) (result ≡ is_empty bytes.now) }
{
    if given {
        is_right(bytes)
    } else {
        bytes.is_empty()
    }
}

// How many bytes stand in front of the body, with a name of n bytes where the command has one.
fn front_length(carried: Carried, n: usize) -> usize
    requires { n ≤ 255 }
    ensures { result ≡ front_length (named carried) (addressed carried) n }
{
    match carried {
        Carried::NameAndBody | Carried::Name => START + size_length(n) + n,
        Carried::AddressAndBody => ADDRESSED,
        Carried::Nothing => START,
    }
}

// 30, 34, 35, 36, then 31 and 11, of a command that there is and that carries this.
fn check_carried(command: &Command, carried: Carried, room: usize) -> Result<usize, Refusal>
    requires { CarriedBy command.now.sender command.now.code carried }
    ensures value { result ≡ written_as (command_into room (given_in command.now)) }
    ensures body_value { Bytes command.now.body.now }
{
    let parts = cut_body(command.body)?;
    if !carried.body_fits(parts) {
        return Err(Refusal::PartCountWrong);
    }
    if !fits(carried.has_name(), command.name, is_name) {
        return Err(Refusal::NameWrong);
    }
    if !fits(carried.has_address(), command.address, is_route) {
        return Err(Refusal::AddressWrong);
    }
    let whole = front_length(carried, command.name.len()) + command.body.len();
    fit(whole, MOST_BYTES, Refusal::CommandLong, room)
}

// The refusal, or the length of the command to be written into so much room: 33, then 30, 34, 35, 36,
// then 31 and 11.
pub fn check_command(command: &Command, room: usize) -> Result<usize, Refusal>
    ensures value { result ≡ written_as (command_into room (given_in command.now)) }
    ensures body_value { OnOk result (Bytes command.now.body.now) }
{
    let sender = Sender::try_from(command.sender)?;
    let carried = Carried::of(sender, command.code)?;
    check_carried(command, carried, room)
}
