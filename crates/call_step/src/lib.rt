// The calls that take a message along: one broker's step, and a whole walk. Each returns 0 or the refusal's number, and lists what came of it as a row of
// four-byte numbers in a lent slice.
#![tactic(auto)]

ghost use Rattle.std.specs.Prelude.{◌≡◌};
ghost use Rattle.call_step_record.specs.Steps.{frame_length};

use step_routing::Broker;

pub mod steps;
pub mod walks;

// Whose the error replies are: nobody's, with userid 4294967295 and rolemask 0. Each call has a rank of its own.
const NOBODY: Broker = Broker {
    rank: 0,
    userid: 4294967295,
    rolemask: 0,
};

// How long the frame at the front of a buffer is, by its first eight bytes.
fn frame_length(buffer: &[u8]) -> usize
    ensures { result ≡ frame_length buffer.now }
{
    frame_message::FRONT + bytes_number::number_at(buffer, 4) as usize
}
