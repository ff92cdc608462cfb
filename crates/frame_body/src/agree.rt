// 7: whether the parts of a body are those that the header's type and flags ask for.
ghost use Rattle.std.specs.Prelude.{◌≡◌, ◌&&◌, cond, ◌≤◌, eqb, leb};
ghost use Rattle.frame_message.specs.Header.{has_route, parts_fit};
ghost use Rattle.frame_body.specs.WorkingJudging.{parts_wanted};

use frame_message::Header;

// n where there is a routing group, else 0.
pub fn if_routed(flags: u8, n: usize) -> usize
    ensures { result ≡ cond (has_route flags) n 0 }
{
    if frame_flags::has_route(flags) { n } else { 0 }
}

// How many parts there are to be, with so many routes: the routes and their delimiter, topic and payload where they are flagged, and
// the header.
fn parts_wanted(flags: u8, routes: usize) -> usize
    requires { routes ≤ 68 }
    ensures { result ≡ parts_wanted flags routes }
{
    routes
        + usize::from(frame_flags::has_route(flags))
        + usize::from(frame_flags::has_topic(flags))
        + usize::from(frame_flags::has_payload(flags))
        + 1
}

// Whether the flags fit the type, and there are as many parts as they ask for, with so many routes. More than 68 are never asked for.
pub fn parts_agree(h: Header, count: usize, routes: usize) -> bool
    ensures { result ≡ (leb routes 68 && (parts_fit h && eqb count (parts_wanted h.flags routes))) }
{
    routes <= frame_message::MOST_PARTS
        && frame_header_rules::parts_fit(h)
        && count == parts_wanted(h.flags, routes)
}
