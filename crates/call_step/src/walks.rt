// A whole walk.
ghost use Rattle.step_routing.specs.Routed.{tables_in};
ghost use Rattle.call_specs.specs.Calls.{host_broker, Plays};

use crate::{NOBODY, frame_length};
use refusal::Refusal;
use step_routing::{Broker, Tables};

// Bytes of a walk's record: six numbers.
const WALK_RECORD: usize = 24;

// Plays a walk that begins at a rank with the frame at the front of buffer, and lists what it came to, a refusal too.
pub fn walk(t: Tables, rank: u32, buffer: &mut [u8], row: &mut [u8]) -> u32
    ensures { Plays (tables_in t.entry) (host_broker rank) buffer.old row.old result buffer.new row.new }
{
    if row.len() < WALK_RECORD {
        return u32::from(Refusal::OutputShort);
    }
    let b = Broker { rank, ..NOBODY };
    let walked = walk::walk(t, b, buffer);
    let numbers = call_step_record::walk_row(walked, frame_length(buffer));
    bytes_number::put_row(row, &numbers);
    call_step_record::refusal_in(walked.step)
}
