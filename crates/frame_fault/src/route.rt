// The route that is refused: the first malformed of the first 64, or the one behind them.
ghost use Rattle.std.specs.Prelude.{◌≡◌, [], ◌≤◌, length, get_or, take, drop};
ghost use Rattle.frame_forms.specs.Forms.{is_route};
ghost use Rattle.frame_message.specs.Frame.{joined};
ghost use Rattle.frame_body.specs.WorkingJudging.{parts_found, Found};
ghost use Rattle.frame_fault.specs.Fault.{first_malformed};
ghost use Rattle.frame_fault.specs.WorkingAlike.{Alike};

use frame_message::{MOST_ROUTES, ROUTE_PART, ROUTE_SIZE};

// Whether a part begins there that is a route.
fn is_route_at(body: &[u8], at: usize) -> bool
    requires { (at ≤ length body.now) × Found (drop at body.now) }
    ensures { result ≡ is_route (get_or (parts_found (drop at body.now)) 0 []) }
{
    if body.len() - at < ROUTE_PART || body[at] != ROUTE_SIZE {
        return false;
    }
    frame_forms::is_route(&body[at + 1..at + ROUTE_PART])
}

// Where that route begins. All in front of it are routes, of 38 bytes each. The size of the first parts is known, and is not looked at again.
pub(crate) fn first_malformed(body: &[u8], alike: usize) -> usize
    requires found { Found body.now × (length body.now ≤ 32768) }
    requires alike { Alike body.now alike }
    ensures { result ≡ length (joined (take (first_malformed 64 (parts_found body.now)) (parts_found body.now))) }
{
    for known in 0..alike {
        let place = ROUTE_PART * known;
        if !frame_forms::is_route(&body[place + 1..place + ROUTE_PART]) {
            return place;
        }
    }
    for n in alike..MOST_ROUTES {
        let at = ROUTE_PART * n;
        if !is_route_at(body, at) {
            return at;
        }
    }
    ROUTE_PART * MOST_ROUTES
}
