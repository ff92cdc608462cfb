// The writer of commands: a command's bytes into a lent output, or the refusal that the paper names.
#![tactic(auto)]

ghost use Rattle.std.specs.Prelude.{◌≡◌, length};
ghost use Rattle.frame_message.specs.Working.{written_as};
ghost use Rattle.refusal.specs.Answer.{written_over};
ghost use Rattle.mdp_command.specs.CommandWriting.{command_into};
ghost use Rattle.mdp_command.specs.WorkingGiven.{given_in};

use mdp_command::{Command, Sender};
use mdp_rules::Carried;
use refusal::Refusal;

mod whole;

// Writes the command to the front of out, and tells its length. What stands behind it stays as it was, and a refusal writes nothing. 33 comes
// first: without it nothing is known of what the command carries.
pub fn write_command(command: &Command, out: &mut [u8]) -> Result<usize, Refusal>
    ensures value { result ≡ written_as (command_into (length out.old) (given_in command.now)) }
    ensures out_after { out.new ≡ written_over (command_into (length out.old) (given_in command.now)) out.old }
{
    let sender = Sender::try_from(command.sender)?;
    let carried = Carried::of(sender, command.code)?;
    // Before the check: a copy of bytes that have just been laid down, as those of the mark are, waits for them.
    let mark = sender.mark();
    let n = mdp_write_check::check_command(command, out.len())?;
    whole::write_whole(out, &mark, carried, command);
    Ok(n)
}
