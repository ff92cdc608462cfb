// Where the parts of a message lie, counted from the frame's front, by where they lie in its body. Any numbers may be given.
#![tactic(auto)]

ghost use Rattle.std.specs.Prelude.{◌≡◌};
ghost use Rattle.frame_layout.specs.WorkingPlacing.{first_route, place, shown, without_zero, placed_in};

use frame_message::{FRONT, Header, Stretch};

// A message in the caller's bytes: how many bytes its frame took, the header's fields, how many routes there are, where the first
// one's data starts (0 without routes; they lie 38 bytes apart), the topic without its zero byte, and the payload. All places are
// counted from the frame's front. Both numbers of a stretch are 0 where the part is absent. They stay numbers: the record of
// lampreycoil_read has them, and the definition layout_of.
#[derive(Clone, Copy)]
pub struct Layout {
    pub taken: usize,
    pub header: Header,
    pub topic: Stretch,
    pub payload: Stretch,
    pub routes: usize,
    pub route: usize,
}

// Where the data of a first route starts: behind the bytes in front of the body, and its size byte.
const FIRST_ROUTE: usize = 9;

// Where the first route's data starts.
fn first_route(routes: usize) -> usize
    ensures { result ≡ first_route routes }
{
    if routes == 0 { 0 } else { FIRST_ROUTE }
}

// A place of the body counted from the frame's front: the body lies behind the first eight bytes. No body is so long that it has a
// place behind 32,768.
fn place(at: usize) -> usize
    ensures { result ≡ place at }
{
    if at <= frame_message::MOST_BODY {
        FRONT + at
    } else {
        0
    }
}

// A part of the body counted from the frame's front. Both numbers are 0 where it is absent.
fn shown(part: Option<Stretch>) -> Stretch
    ensures { result ≡ shown part }
{
    match part {
        Some(part) => Stretch {
            start: place(part.start),
            len: part.len,
        },
        None => Stretch { start: 0, len: 0 },
    }
}

// A topic without the zero byte at its end.
fn without_zero(topic: Option<Stretch>) -> Option<Stretch>
    ensures { result ≡ without_zero topic }
{
    topic.map(|topic| Stretch {
        start: topic.start,
        len: topic.len.saturating_sub(1),
    })
}

// The reader's answer: the places of a message with this header and so many routes, by the parts of a body of so many bytes.
pub fn placed(
    size: usize,
    header: Header,
    routes: usize,
    topic: Option<Stretch>,
    payload: Option<Stretch>,
) -> Layout
    ensures { result ≡ placed_in size header routes topic payload }
{
    Layout {
        taken: place(size),
        header,
        routes,
        route: first_route(routes),
        topic: shown(without_zero(topic)),
        payload: shown(payload),
    }
}
