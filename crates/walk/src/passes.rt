// A walk behind its first link: one broker's pass after another, until a broker does something else with the message than forward it.
ghost use Rattle.step_routing.specs.Routed.{tables_in};
ghost use Rattle.walk.specs.WorkingPasses.{Walks, passes_from};

use crate::Walked;
use refusal::Refusal;
use step_routing::{Broker, Stepped, Tables};

// So many steps are enough for any message: at each link a request gains a route and a response loses one.
const MOST_STEPS: u32 = 65;

// The steps behind the first link, from the broker that it leads to, on tables that were checked with the first step. It does nothing undefined on any
// tables.
pub(crate) fn go_on(t: Tables, first: Broker, buffer: &mut [u8]) -> Walked
    ensures { Walks (passes_from 64 (tables_in t.entry) first 1 buffer.old) result buffer.new }
{
    let mut b = first;
    for links in 1..MOST_STEPS {
        let step = step_pass::pass(t, b, buffer);
        let rests = Walked {
            step,
            rank: b.rank,
            links,
        };
        let Ok(stepped) = step else {
            return rests;
        };
        let Stepped::Forwarded(next) = stepped else {
            return rests;
        };
        b.rank = next;
    }
    Walked {
        step: Err(Refusal::ForwardLong),
        rank: b.rank,
        links: MOST_STEPS,
    }
}
