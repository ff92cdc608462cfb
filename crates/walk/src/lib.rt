// A walk through the tables: steps one after another, until a broker does something else with the message than forward it.
#![tactic(auto)]

ghost use Rattle.step_routing.specs.Routed.{tables_in};
ghost use Rattle.walk.specs.Walk.{walk_of};
ghost use Rattle.walk.specs.WorkingPasses.{Walks};

use refusal::Refusal;
use step_routing::{Broker, Stepped, Tables};

mod passes;

// What a walk comes to: the last step's answer or refusal, the rank of the broker that made it, and the links crossed.
#[derive(Clone, Copy, PartialEq, Eq)]
pub struct Walked {
    pub step: Result<Stepped, Refusal>,
    pub rank: u32,
    pub links: u32,
}

// The least that a walk's buffer has: the longest frame.
const LEAST: usize = 32776;

// A walk that begins at a broker: 11 for a short buffer before all else, then the steps. The first of them checks the tables.
pub fn walk(t: Tables, b: Broker, buffer: &mut [u8]) -> Walked
    ensures { Walks (walk_of (tables_in t.entry) b buffer.old) result buffer.new }
{
    if buffer.len() < LEAST {
        return Walked {
            step: Err(Refusal::OutputShort),
            rank: b.rank,
            links: 0,
        };
    }
    let step = step::step(t, b, buffer);
    let rests = Walked {
        step,
        rank: b.rank,
        links: 0,
    };
    let Ok(stepped) = step else {
        return rests;
    };
    let Stepped::Forwarded(next) = stepped else {
        return rests;
    };
    passes::go_on(t, Broker { rank: next, ..b }, buffer)
}
