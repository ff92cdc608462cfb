// How long the parts and the body are that will be written.
ghost use Rattle.std.specs.Prelude.{◌≡◌, ◌≤◌, ◌%◌, length};
ghost use Rattle.frame_message.specs.Frame.{body_of};
ghost use Rattle.frame_write_given.specs.WorkingDrafts.{drafted};
ghost use Rattle.frame_write_check.specs.Working.{part_length, group_length};

use frame_part_size::size_length;
use frame_write_given::Draft;

// How many bytes the routing group takes: 38 a route, and one for the delimiter.
fn group_length(given: bool, n: usize) -> usize
    requires { n ≤ 2368 }
    ensures { result ≡ group_length given n }
{
    if given {
        n / frame_forms::ROUTE * frame_message::ROUTE_PART + 1
    } else {
        0
    }
}

// How many bytes a part of n bytes takes where it is there.
fn part_length(given: bool, n: usize) -> usize
    requires { n ≤ 32768 }
    ensures { result ≡ part_length given n }
{
    if given { size_length(n) + n } else { 0 }
}

// The body's length, of parts that are short enough for it to be added up.
pub(crate) fn body_length(draft: &Draft) -> usize
    requires routes_len_bound { (length draft.now.routes.now ≤ 2368) × (length draft.now.routes.now % 37 ≡ 0) }
    requires topic_len_bound { (length draft.now.topic.now ≤ 255) × (length draft.now.payload.now ≤ 32768) }
    ensures { result ≡ length (body_of (drafted draft.now)) }
{
    let flags = draft.header.flags;
    let group = group_length(frame_flags::has_route(flags), draft.routes.len());
    let topic = part_length(frame_flags::has_topic(flags), draft.topic.len() + 1);
    let payload = part_length(frame_flags::has_payload(flags), draft.payload.len());
    group + topic + payload + frame_message::HEADER_PART
}
