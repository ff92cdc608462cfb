// The first two parts of a command: its sender's mark, and its number.
ghost use Rattle.std.specs.Prelude.{◌≡◌};
ghost use Rattle.mdp_command.specs.CommandReading.{sender_of};
ghost use Rattle.mdp_read.specs.WorkingOpening.{sender_or_0, code_or_0, sender_at, code_at};

use mdp_command::{CLIENT_MARK, START, Sender, WORKER_MARK};

// The size of a mark, where the part behind it begins, and where that one's data lies.
const MARK: u8 = 6;

const MARK_END: usize = 7;

const CODE: usize = 8;

// Who has this mark.
#[tactic(auto, unfolding(mdp_command::specs::CommandReading::sender_of, table_records::specs::Bytes::same_bytes))]
fn sender_of(part: &[u8]) -> Option<Sender>
    ensures { sender_or_0 result ≡ sender_of part.now }
{
    if part == CLIENT_MARK.as_slice() {
        return Some(Sender::Client);
    }
    if part == WORKER_MARK.as_slice() {
        return Some(Sender::Worker);
    }
    None
}

// Who sends the command at the front of the bytes, whose mark is the first part.
#[tactic(auto, unfolding(crate::specs::WorkingOpening::sender_at))]
pub(crate) fn sender_at(bytes: &[u8]) -> Option<Sender>
    ensures { sender_or_0 result ≡ sender_at bytes.now }
{
    if bytes.len() < MARK_END {
        return None;
    }
    if bytes[0] != MARK {
        return None;
    }
    sender_of(&bytes[1..MARK_END])
}

// The command's number behind a mark, if a part of one byte stands there.
#[tactic(auto, unfolding(crate::specs::WorkingOpening::code_at))]
pub(crate) fn code_at(bytes: &[u8]) -> Option<u8>
    ensures { code_or_0 result ≡ code_at bytes.now }
{
    if bytes.len() < START {
        return None;
    }
    if bytes[MARK_END] != 1 {
        return None;
    }
    Some(bytes[CODE])
}
