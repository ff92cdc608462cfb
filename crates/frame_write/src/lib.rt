// The writer: a message's frame into a lent output, or the refusal that the paper's table names.
#![tactic(auto)]

ghost use Rattle.std.specs.Prelude.{◌≡◌, length};
ghost use Rattle.frame_message.specs.Writing.{writing_into};
ghost use Rattle.frame_message.specs.Working.{written_as};
ghost use Rattle.refusal.specs.Answer.{written_over};
ghost use Rattle.frame_write_given.specs.WorkingDrafts.{drafted};

use frame_write_given::Draft;
use refusal::Refusal;

mod frame;
mod part;

// Writes the message's frame to the front of out, and tells its length. What stands behind the frame stays as it was, and a refusal writes nothing.
pub fn write(draft: &Draft, out: &mut [u8]) -> Result<usize, Refusal>
    ensures value { result ≡ written_as (writing_into (length out.old) (drafted draft.now)) }
    ensures out_after { out.new ≡ written_over (writing_into (length out.old) (drafted draft.now)) out.old }
{
    let n = frame_write_check::check_message(draft, out.len())?;
    frame::write_frame(out, n, draft);
    Ok(n)
}
