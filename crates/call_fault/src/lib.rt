// The call that tells what is wrong with a frame. It returns what the read call returns, and lists number and byte in a lent slice.
#![tactic(auto)]

ghost use Rattle.call_specs.specs.FaultCalls.{ReadsFault};

use refusal::Refusal;

// Bytes of the record: two numbers.
const FAULT_RECORD: usize = 8;

// Lists the number of the refusal and the byte at fault, 0 and 0 for a good frame.
pub fn read_fault(bytes: &[u8], row: &mut [u8]) -> u32
    ensures { ReadsFault bytes.now row.old result row.new }
{
    if row.len() < FAULT_RECORD {
        return u32::from(Refusal::OutputShort);
    }
    let fault = frame_fault::find_fault(bytes);
    bytes_number::put_row(row, &[fault.number as usize, fault.byte]);
    fault.number
}
