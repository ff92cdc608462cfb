// The parts of a body, in their order. Each helper is lent the rest of the output, has the part-writer lay its parts over the front of that
// and tells how many bytes they are, so that the next helper can be lent what follows. What lies behind the bytes stays as it was.
ghost use Rattle.std.specs.Prelude.{◌≡◌, ◌∷◌, [], ◌++◌, ◌<◌, ◌≤◌, ◌%◌, length};
ghost use Rattle.frame_message.specs.Frame.{joined, part_if, group_if};
ghost use Rattle.frame_message.specs.Writing.{cut};
ghost use Rattle.bytes_number.specs.WorkingLays.{Lays};

use frame_part_write::write_part;

// The most bytes that a topic has, with its zero byte.
const TOPIC: usize = 256;

// The routes, a part for each 37 bytes.
fn write_routes(out: &mut [u8], routes: &[u8]) -> usize
    requires routes_len { length routes.now % 37 ≡ 0 }
    requires routes_in_bounds { length (joined (cut routes.now)) ≤ length out.old }
    ensures { Lays (joined (cut routes.now)) out.old out.new result }
{
    let mut at = 0;
    for route in routes.chunks_exact(frame_forms::ROUTE) {
        at += write_part(&mut out[at..], route);
    }
    at
}

// The routing group, where there is one: the routes, and the delimiter, which is a part with no data.
pub(crate) fn write_group(out: &mut [u8], given: bool, routes: &[u8]) -> usize
    requires routes_len { length routes.now % 37 ≡ 0 }
    requires routes_in_bounds { length (joined (group_if given (cut routes.now))) ≤ length out.old }
    ensures { Lays (joined (group_if given (cut routes.now))) out.old out.new result }
{
    if given {
        let at = write_routes(out, routes);
        at + write_part(&mut out[at..], &[])
    } else {
        0
    }
}

// Lays the topic and the zero byte that ends it over the front of an array, and tells how many bytes they are.
fn hold_topic(held: &mut [u8], topic: &[u8]) -> usize
    requires { length topic.now < length held.old }
    ensures { Lays (topic.now ++ (0 ∷ [])) held.old held.new result }
{
    let end = topic.len();
    bytes_copy::copy(topic, held);
    held[end] = 0;
    end + 1
}

// The topic, where there is one. Its zero byte is not in the caller's slice, so the two stand in an array first.
pub(crate) fn write_topic(out: &mut [u8], given: bool, topic: &[u8]) -> usize
    requires topic_len_bound { length topic.now ≤ 255 }
    requires topic_in_bounds { length (joined (part_if given (topic.now ++ (0 ∷ [])))) ≤ length out.old }
    ensures { Lays (joined (part_if given (topic.now ++ (0 ∷ [])))) out.old out.new result }
{
    if given {
        let mut held = [0u8; TOPIC];
        let n = hold_topic(&mut held, topic);
        write_part(out, &held[0..n])
    } else {
        0
    }
}
