// What the writer is given, and whether its parts fit: whether they agree with the header, and whether the routes are of their form.
#![tactic(auto)]

ghost use Rattle.std.specs.Prelude.{◌≡◌, ◌&&◌, ◌||◌};
ghost use Rattle.frame_message.specs.Header.{parts_fit};
ghost use Rattle.frame_message.specs.Writing.{is_empty, parts_given_fit, routes_good, cut};
ghost use Rattle.frame_write_given.specs.WorkingDrafts.{drafted};

use frame_message::Header;

// How many bytes the most routes have.
const MOST_ROUTE_BYTES: usize = frame_message::MOST_ROUTES * frame_forms::ROUTE;

// A message that is to be written: its header, the routes one behind another, the topic without its zero byte, and the payload.
#[derive(Clone, Copy)]
pub struct Draft<'a> {
    pub header: Header,
    pub routes: &'a [u8],
    pub topic: &'a [u8],
    pub payload: &'a [u8],
}

// Whether a part may be given: its flag is set, or it is empty.
fn may_be_given(flag: bool, part: &[u8]) -> bool
    ensures { result ≡ (flag || is_empty part.now) }
{
    flag || part.is_empty()
}

// Whether the flags fit the type and no part is given without its flag.
pub fn parts_agree(draft: &Draft) -> bool
    ensures { result ≡ (parts_fit draft.now.header && parts_given_fit (drafted draft.now)) }
{
    let header = draft.header;
    let flags = header.flags;
    frame_header_rules::parts_fit(header)
        && may_be_given(frame_flags::has_route(flags), draft.routes)
        && may_be_given(frame_flags::has_topic(flags), draft.topic)
        && may_be_given(frame_flags::has_payload(flags), draft.payload)
}

// Whether there are at most 64 routes of 37 bytes, and each is of the form.
#[tactic(auto, using(crate::proofs::Cuts::routes_many, crate::proofs::Cuts::routes_uneven))]
pub fn routes_good(routes: &[u8]) -> bool
    ensures { result ≡ routes_good (cut routes.now) }
{
    if MOST_ROUTE_BYTES < routes.len() || routes.len() % frame_forms::ROUTE != 0 {
        return false;
    }
    routes
        .chunks_exact(frame_forms::ROUTE)
        .all(|route| frame_forms::is_route(route))
}
