// One broker's step.
ghost use Rattle.step_routing.specs.Routed.{tables_in};
ghost use Rattle.call_specs.specs.Calls.{host_broker, Steps};

use crate::{NOBODY, frame_length};
use refusal::Refusal;
use step_routing::{Broker, Tables};

// Bytes of a step's record: four numbers.
const STEP_RECORD: usize = 16;

// Makes one broker's step with the frame at the front of buffer, and lists what came of it.
pub fn step(t: Tables, rank: u32, buffer: &mut [u8], row: &mut [u8]) -> u32
    ensures { Steps (tables_in t.entry) (host_broker rank) buffer.old row.old result buffer.new row.new }
{
    if row.len() < STEP_RECORD {
        return u32::from(Refusal::OutputShort);
    }
    let b = Broker { rank, ..NOBODY };
    match step::step(t, b, buffer) {
        Err(why) => u32::from(why),
        Ok(s) => {
            bytes_number::put_row(row, &call_step_record::step_row(s, frame_length(buffer)));
            0
        }
    }
}
