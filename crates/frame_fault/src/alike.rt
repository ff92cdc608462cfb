// The parts that a body begins with and that have a route's size. They need not be routes: how many they are is all that the counting asks.
ghost use Rattle.std.specs.Prelude.{◌≡◌, ◌≤◌, length};
ghost use Rattle.frame_parts.specs.WorkingCounting.{counting_of};
ghost use Rattle.frame_fault.specs.WorkingAlike.{Alike};

use frame_message::{MOST_PARTS, MOST_ROUTES, ROUTE_PART, ROUTE_SIZE};
use frame_parts::{PartCounts, Stop, count_parts};

// Parts that are looked at together.
const FOUR: usize = 4;

// How many parts of a route's size stand in front of another part: at most 64, and four at a time.
// Stays apart from the next: of 65 routes the bound has 64 instructions left, one for each (docs/landings/13-fault.md, Speed).
fn leading_fours(body: &[u8]) -> usize
    ensures { Alike body.now result }
{
    for fours in 0..MOST_ROUTES / FOUR {
        let n = FOUR * fours;
        let at = ROUTE_PART * n;
        if body.len() <= at + FOUR * ROUTE_PART
            || body[at] != ROUTE_SIZE
            || body[at + ROUTE_PART] != ROUTE_SIZE
            || body[at + 2 * ROUTE_PART] != ROUTE_SIZE
            || body[at + 3 * ROUTE_PART] != ROUTE_SIZE
        {
            return n;
        }
    }
    MOST_ROUTES
}

// The same, and those that follow them one at a time.
pub(crate) fn leading_alike(body: &[u8]) -> usize
    ensures { Alike body.now result }
{
    for n in leading_fours(body)..MOST_ROUTES {
        let at = ROUTE_PART * n;
        if body.len() <= at + ROUTE_PART || body[at] != ROUTE_SIZE {
            return n;
        }
    }
    MOST_ROUTES
}

// The parts of a body, counted: behind the leading ones, and then these with them.
pub(crate) fn count_alike(body: &[u8], alike: usize) -> Result<PartCounts, Stop>
    requires { (length body.now ≤ 32768) × Alike body.now alike }
    ensures { result ≡ counting_of 68 body.now }
{
    let at = ROUTE_PART * alike;
    match count_parts(&body[at..], MOST_PARTS - alike) {
        Ok(rest) => Ok(PartCounts {
            count: alike + rest.count,
            empty: alike + rest.empty,
            group: at + rest.group,
            last: at + rest.last,
        }),
        Err(stop) => Err(Stop {
            why: stop.why,
            at: at + stop.at,
        }),
    }
}
