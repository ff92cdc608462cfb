// The call that lists the frames of a stream. It returns 0 or the refusal's number, and lists its answer as a row of four-byte numbers in a lent slice.
#![tactic(auto)]

ghost use Rattle.call_specs.specs.Calls.{ReadsStream};

use refusal::Refusal;

// Bytes of a stream's record: three numbers.
const STREAM_RECORD: usize = 12;

// Lists each whole frame of bytes, and in the record how many they are, what stopped it and where.
pub fn read_stream(bytes: &[u8], list: &mut [u8], row: &mut [u8]) -> u32
    ensures { ReadsStream bytes.now list.old row.old result list.new row.new }
{
    if row.len() < STREAM_RECORD {
        return u32::from(Refusal::OutputShort);
    }
    let stopped = frame_stream::list_frames(bytes, list);
    let refusal = stopped.refusal;
    let number = u32::from(refusal) as usize;
    bytes_number::put_row(row, &[stopped.entries, number, stopped.start]);
    0
}
