// A whole frame. Each helper gets the rest of the output behind what the helpers before it laid there.
ghost use Rattle.std.specs.Prelude.{◌≡◌, ◌≤◌, ◌%◌, length};
ghost use Rattle.bytes_number.specs.Laid.{laid};
ghost use Rattle.frame_message.specs.Frame.{body_of, frame_of};
ghost use Rattle.bytes_number.specs.WorkingLays.{Lays};
ghost use Rattle.frame_write_given.specs.WorkingDrafts.{drafted};

use crate::part;
use frame_message::{FRONT, START};
use frame_part_write::write_part_if;
use frame_write_given::Draft;

// The body: the routing group, the topic, the payload, and the header, which is always last.
fn write_body(out: &mut [u8], draft: &Draft) -> usize
    requires routes_len { (length draft.now.routes.now % 37 ≡ 0) × (length draft.now.topic.now ≤ 255) }
    requires payload_in_bounds { length (body_of (drafted draft.now)) ≤ length out.old }
    ensures { Lays (body_of (drafted draft.now)) out.old out.new result }
{
    let header = draft.header;
    let flags = header.flags;
    let mut at = part::write_group(out, frame_flags::has_route(flags), draft.routes);
    at += part::write_topic(&mut out[at..], frame_flags::has_topic(flags), draft.topic);
    at += write_part_if(
        &mut out[at..],
        frame_flags::has_payload(flags),
        draft.payload,
    );
    at + frame_header::write_header(&mut out[at..], header)
}

// The frame of n bytes: FF EE 00 12 and the body's length as two numbers, and the body.
pub(crate) fn write_frame(out: &mut [u8], n: usize, draft: &Draft)
    requires routes_len { (length draft.now.routes.now % 37 ≡ 0) × (length draft.now.topic.now ≤ 255) }
    requires n_value { n ≡ length (frame_of (drafted draft.now)) }
    requires n_in_bounds { n ≤ length out.old }
    ensures { out.new ≡ laid (frame_of (drafted draft.now)) out.old }
{
    let front = [START as usize, n - FRONT];
    bytes_number::put_row(out, &front);
    write_body(&mut out[FRONT..], draft);
}
