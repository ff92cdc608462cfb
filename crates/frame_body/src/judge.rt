// What the parts of a body are: the header first, then 7 to 10 in the paper's order.
ghost use Rattle.std.specs.Prelude.{◌≡◌, true, ◌<◌, ◌≤◌, length, take, drop};
ghost use Rattle.refusal.specs.Answer.{and_then};
ghost use Rattle.frame_message.specs.Writing.{routes_good};
ghost use Rattle.frame_message.specs.Reading.{parts_in, front, judged, judged_as};
ghost use Rattle.frame_layout.specs.WorkingPlacing.{read_as};
ghost use Rattle.frame_body.specs.WorkingJudging.{parts_found, Found, piece_if, next_in, topic_wrong, CountsOf, Headed, Sorted};

use crate::agree::{if_routed, parts_agree};
use frame_header::read_header;
use frame_layout::{Layout, placed};
use frame_message::{Header, ROUTE_PART, ROUTE_SIZE, Stretch};
use frame_part_size::size_at;
use frame_parts::{PartCounts, count_parts};
use refusal::Refusal;

// The data of the part that begins at a place of the body, if its flag is set.
fn part_if(body: &[u8], flag: bool, at: usize) -> Option<Stretch>
    requires at_in_bounds { (at ≤ length body.now) × (length body.now ≤ 32768) }
    requires found { Found (drop at body.now) }
    requires nonzero { flag ≡ true → 0 < length (drop at body.now) }
    ensures { result ≡ piece_if flag at (parts_found (drop at body.now)) }
{
    if !flag {
        return None;
    }
    let size = size_at(&body[at..])?;
    Some(Stretch {
        start: at + size.start,
        len: size.len,
    })
}

// Where the part behind it begins, or would begin where it is absent.
fn next_of(part: Option<Stretch>, at: usize) -> usize
    requires { next_in at part ≤ 32768 }
    ensures { result ≡ next_in at part }
{
    match part {
        Some(part) => part.start + part.len,
        None => at,
    }
}

// 8: whether the first so many parts are at most 64 routes. Those in front of a part that is looked at have 38 bytes each.
fn routes_good(body: &[u8], routes: usize) -> bool
    requires found { Found body.now }
    requires body_len_bound { (length body.now ≤ 32768) × (routes ≤ length (parts_found body.now)) }
    ensures { result ≡ routes_good (take routes (parts_found body.now)) }
{
    if frame_message::MOST_ROUTES < routes {
        return false;
    }
    // Stays a loop by index: no chunks of the body, which may be shorter than so many routes if one of the first parts is none.
    for i in 0..routes {
        let at = i * ROUTE_PART;
        if body[at] != ROUTE_SIZE {
            return false;
        }
        if !frame_forms::is_route(&body[at + 1..at + ROUTE_PART]) {
            return false;
        }
    }
    true
}

// 9: whether there is a topic, and the part is none.
fn topic_wrong(body: &[u8], topic: Option<Stretch>) -> bool
    requires { next_in 0 topic ≤ length body.now }
    ensures { result ≡ topic_wrong topic body.now }
{
    match topic {
        Some(topic) => {
            !frame_topic_part::is_topic_part(&body[topic.start..topic.start + topic.len])
        }
        None => false,
    }
}

// 9 and 10, and then the message: the parts are as many as they should be, and the routes are right. The topic begins behind the
// delimiter, or at the front where there is none.
fn judge_rest(body: &[u8], counts: PartCounts, h: Header, routes: usize) -> Result<Layout, Refusal>
    requires { Sorted body.now counts h routes }
    ensures { result ≡ read_as (judged_as h (front (parts_found body.now))) }
{
    let at = if_routed(h.flags, counts.group + 1);
    let topic = part_if(body, frame_flags::has_topic(h.flags), at);
    if topic_wrong(body, topic) {
        return Err(Refusal::TopicWrong);
    }
    if !frame_header_rules::fields_good(h) {
        return Err(Refusal::FieldWrong);
    }
    let payload = part_if(body, frame_flags::has_payload(h.flags), next_of(topic, at));
    Ok(placed(body.len(), h, routes, topic, payload))
}

// 7 and 8: whether the parts are those that type and flags ask for, and then the routes, which are the parts in front of the delimiter.
fn judge_parts(body: &[u8], counts: PartCounts, h: Header) -> Result<Layout, Refusal>
    requires { Headed body.now counts h }
    ensures { result ≡ read_as (judged_as h (front (parts_found body.now))) }
{
    let routes = if_routed(h.flags, counts.empty);
    if !parts_agree(h, counts.count, routes) {
        return Err(Refusal::PartsDisagree);
    }
    if !routes_good(body, routes) {
        return Err(Refusal::RouteWrong);
    }
    judge_rest(body, counts, h, routes)
}

// 6 and 20 to 23, and then the rest: the header is the last of the parts that were counted.
fn judge_counted(body: &[u8], counts: PartCounts) -> Result<Layout, Refusal>
    requires { (length body.now ≤ 32768) × CountsOf body.now counts }
    ensures { result ≡ read_as (and_then (parts_in 68 body.now) judged) }
{
    let last = counts.last;
    if body.len() - last != frame_message::HEADER_PART {
        return Err(Refusal::HeaderWrong);
    }
    let h = read_header(&body[last + 1..])?;
    judge_parts(body, counts, h)
}

// Reads a body: its parts, the header, which is the last of them, and the rest.
pub(crate) fn judge(body: &[u8]) -> Result<Layout, Refusal>
    requires { length body.now ≤ 32768 }
    ensures { result ≡ read_as (and_then (parts_in 68 body.now) judged) }
{
    let counts = count_parts(body, frame_message::MOST_PARTS)?;
    judge_counted(body, counts)
}
