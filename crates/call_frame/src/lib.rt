// The calls that read and write a frame. Each returns 0 or the refusal's number, and lists its answer as a row of four-byte numbers in a lent slice.
#![tactic(auto)]

ghost use Rattle.call_specs.specs.Calls.{Reads, header_of, Writes};
ghost use Rattle.frame_message.specs.Writing.{given_message};

use frame_message::Header;
use frame_write_given::Draft;
use refusal::Refusal;

// Bytes of a record: thirteen numbers of a read, and a frame's length.
const READ_RECORD: usize = 52;

const COUNT_RECORD: usize = 4;

// Reads the frame at the front of bytes, and lists where its parts lie.
pub fn read(bytes: &[u8], row: &mut [u8]) -> u32
    ensures { Reads bytes.now row.old result row.new }
{
    if row.len() < READ_RECORD {
        return u32::from(Refusal::OutputShort);
    }
    match frame_read::read(bytes) {
        Ok(f) => {
            call_read_record::put_frame(row, f);
            0
        }
        Err(why) => u32::from(why),
    }
}

// Writes a message's frame to the front of out, and lists its length. The header's fields come one by one, in the header's order.
pub fn write(
    kind: u8,
    flags: u8,
    userid: u32,
    rolemask: u32,
    first: u32,
    second: u32,
    routes: &[u8],
    topic: &[u8],
    payload: &[u8],
    out: &mut [u8],
    row: &mut [u8],
) -> u32
    ensures { Writes (given_message (header_of kind flags userid rolemask first second) routes.now topic.now payload.now) out.old row.old result out.new row.new }
{
    if row.len() < COUNT_RECORD {
        return u32::from(Refusal::OutputShort);
    }
    let header = Header {
        kind,
        flags,
        userid,
        rolemask,
        first,
        second,
    };
    let draft = Draft {
        header,
        routes,
        topic,
        payload,
    };
    match frame_write::write(&draft, out) {
        Ok(n) => {
            bytes_number::put_row(row, &[n]);
            0
        }
        Err(refused) => u32::from(refused),
    }
}
