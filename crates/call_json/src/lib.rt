// The call that says whether a payload is JSON. It returns 0, or 26 where the payload nests too deep, and lists answer and byte in a lent slice.
#![tactic(auto)]

ghost use Rattle.std.specs.Prelude.{◌≡◌};
ghost use Rattle.call_specs.specs.JsonCalls.{told_byte, ChecksJson};

use json_scan::Fault;
use refusal::Refusal;

// Bytes of the record: two numbers.
const JSON_RECORD: usize = 8;

// A byte as it stands in the record.
fn told(byte: usize) -> usize
    ensures { result ≡ told_byte byte }
{
    if byte > 4294967295 { 4294967295 } else { byte }
}

// Lists 1 and 0 for a yes, 2 and the byte for a no, 0 and the opening byte for a level too many.
pub fn check_json(payload: &[u8], row: &mut [u8]) -> u32
    ensures { ChecksJson payload.now row.old result row.new }
{
    if row.len() < JSON_RECORD {
        return u32::from(Refusal::OutputShort);
    }
    match json_check::check_payload(payload) {
        Ok(()) => {
            bytes_number::put_row(row, &[1, 0]);
            0
        }
        Err(Fault::NotJson(byte)) => {
            bytes_number::put_row(row, &[2, told(byte)]);
            0
        }
        Err(Fault::TooDeep(byte)) => {
            bytes_number::put_row(row, &[0, told(byte)]);
            u32::from(Refusal::JsonDeep)
        }
    }
}
