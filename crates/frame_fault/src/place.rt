// The byte of a fault, by its refusal and the parts of the body.
ghost use Rattle.std.specs.Prelude.{◌≡◌, cond, ◌≤◌, ◌+◌, eqb, length, get_or};
ghost use Rattle.refusal.specs.Refusals.{number_of};
ghost use Rattle.frame_body.specs.WorkingJudging.{parts_found, CountsOf};
ghost use Rattle.frame_fault.specs.Fault.{fault_bytes, byte_for};
ghost use Rattle.frame_fault.specs.WorkingAlike.{Alike};
ghost use Rattle.frame_fault.specs.WorkingFaults.{size_length, Why};

use crate::route::first_malformed;
use frame_body::if_routed;
use frame_message::{FRONT, Kind};
use frame_parts::PartCounts;
use refusal::Refusal;

// The first byte of a size that takes five.
const LONG: u8 = 255;

// Where the data starts of the part that begins at a place of the body, behind a size of one byte or five.
fn data_at(body: &[u8], at: usize) -> usize
    requires { at ≤ 32768 }
    ensures { result ≡ 8 + at + size_length (get_or body.now at 0) }
{
    let size = FRONT + at;
    if bytes_number::byte_at(body, at) < LONG {
        size + 1
    } else {
        size + 5
    }
}

// Which of the header's bytes a wrong field starts at: a request's nodeid, or an event's unused field.
fn field_byte(kind: u8) -> usize
    ensures { result ≡ cond (eqb kind 1) 12 16 }
{
    if kind == u8::from(Kind::Request) {
        12
    } else {
        16
    }
}

// The byte of a body that is refused, of which the parts were counted. The header's data starts behind a size of one byte.
pub(crate) fn byte_in_parts(body: &[u8], counts: PartCounts, alike: usize, why: Refusal) -> usize
    requires body_len_bound { (length body.now ≤ 32768) × CountsOf body.now counts }
    requires low { (counts.last ≤ 32768) × (counts.group ≤ 32768) }
    requires alike { Alike body.now alike × Why (parts_found body.now) why }
    ensures { result ≡ byte_for (number_of why) (fault_bytes (parts_found body.now)) }
{
    let last = counts.last;
    let size = FRONT + last;
    let header = size + 1;
    match why {
        Refusal::HeaderWrong => size,
        Refusal::PartsDisagree => header,
        Refusal::RouteWrong => data_at(body, first_malformed(body, alike)),
        Refusal::TopicWrong => {
            let flags = bytes_number::byte_at(body, last + 4);
            // The topic's part begins behind the routes and their delimiter, or at the front where there are none.
            data_at(body, if_routed(flags, counts.group + 1))
        }
        Refusal::FieldWrong => header + field_byte(bytes_number::byte_at(body, last + 3)),
        Refusal::VersionWrong => header + 1,
        Refusal::TypeWrong => header + 2,
        Refusal::FlagWrong => header + 3,
        _ => header,
    }
}
