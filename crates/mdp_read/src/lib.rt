// The reader of commands: where the parts of a command lie in the caller's bytes, or the refusal that the paper names. It copies nothing.
#![tactic(auto)]

ghost use Rattle.std.specs.Prelude.{◌≡◌};
ghost use Rattle.mdp_command.specs.CommandReading.{command_read};
ghost use Rattle.mdp_command.specs.Working.{command_read_as};

use frame_parts::count_parts;
use judge::judge;
use mdp_command::{CommandPlaces, MOST_BYTES};
use refusal::Refusal;

mod judge;
mod open;

// Reads a command, which is all of the bytes. There may be as many parts as bytes, so that only a part's size can stop the counting.
pub fn read_command(bytes: &[u8]) -> Result<CommandPlaces, Refusal>
    ensures { result ≡ command_read_as (command_read bytes.now) }
{
    if MOST_BYTES < bytes.len() {
        return Err(Refusal::CommandLong);
    }
    match count_parts(bytes, bytes.len()) {
        Ok(counts) => judge(bytes, counts.count),
        Err(_) => Err(Refusal::CommandPartWrong),
    }
}
