// One broker's step behind the checks of its tables: what it does with the frame at the front of a buffer. It works in place and allocates nothing.
#![tactic(auto)]

ghost use Rattle.step_routing.specs.Routed.{tables_in};
ghost use Rattle.step_pass.specs.Step.{pass_of};
ghost use Rattle.step_pass.specs.Working.{Makes, Lies, request_outcome, response_outcome};

use frame_layout::Layout;
use frame_message::{FRONT, Kind};
use refusal::Refusal;
use step_routing::{Broker, Stepped, Tables, Way};

// A request: delivered, forwarded, or an error.
fn request(t: Tables, b: Broker, f: Layout, buffer: &mut [u8]) -> Result<Stepped, Refusal>
    requires { Lies buffer.old f 1 }
    ensures { Makes (request_outcome (tables_in t.entry) b buffer.old) buffer.old result buffer.new }
{
    let topic = f.topic;
    let start = topic.start;
    let end = start + topic.len;
    let way = step_request::request_way(t, b.rank, f.header, &buffer[start..end]);
    match way {
        Way::Deliver(number) => Ok(Stepped::Delivered(number)),
        Way::Forward(next) => {
            let identity = table_identities::identity_of(t.identities, b.rank);
            step_apply::forward(buffer, f.routes, f.taken - FRONT, identity, next)
        }
        Way::Fail(errnum) => {
            // the topic ends in a zero byte that is not shown
            let kept = end - FRONT + 1;
            Ok(step_apply::fail(buffer, kept, b, errnum, f.header))
        }
    }
}

// A response: home, or forwarded without its top route.
fn response(t: Tables, rank: u32, f: Layout, buffer: &mut [u8]) -> Result<Stepped, Refusal>
    requires { Lies buffer.old f 2 }
    ensures { Makes (response_outcome (tables_in t.entry) rank buffer.old) buffer.old result buffer.new }
{
    if f.routes == 0 {
        return Ok(Stepped::Home);
    }
    let top = f.route;
    let end = top + frame_forms::ROUTE;
    let back = step_response::response_way(t, rank, &buffer[top..end])?;
    match back {
        None => Ok(Stepped::Home),
        Some(next) => {
            frame_rewrite::take_front(buffer, frame_message::ROUTE_PART, f.taken - FRONT);
            Ok(Stepped::Forwarded(next))
        }
    }
}

// The step where the tables are known to be right: 17, the reader's numbers, 18, 19, 12, 11. It does nothing undefined on any tables.
pub fn pass(t: Tables, b: Broker, buffer: &mut [u8]) -> Result<Stepped, Refusal>
    ensures { Makes (pass_of (tables_in t.entry) b buffer.old) buffer.old result buffer.new }
{
    if b.rank as usize >= table_tree::ranks_in(t.tree) {
        return Err(Refusal::RankWrong);
    }
    let f = frame_read::read(buffer)?;
    // never 22: what was read has a type
    let kind = Kind::try_from(f.header.kind)?;
    match kind {
        Kind::Request => request(t, b, f, buffer),
        Kind::Response => response(t, b.rank, f, buffer),
        _ => Err(Refusal::NotRouted),
    }
}
