// What a broker makes of a request in the buffer that holds it: the request with a route more, or an error reply. It goes by where the frame's parts
// are said to lie and reads none of them, so any numbers may be given.
#![tactic(auto)]

ghost use Rattle.step_apply.specs.WorkingApply.{AppliesForward, AppliesError};

use frame_message::{FRONT, Header};
use refusal::Refusal;
use step_routing::{Broker, Stepped};

// Forwards a request with so many routes and a body of so many bytes: this broker's identity goes in front of the body.
#[tactic(auto, unfolding(crate::specs::WorkingApply::grown_to))]
pub fn forward(
    buffer: &mut [u8],
    routes: usize,
    size: usize,
    identity: &[u8],
    next: u32,
) -> Result<Stepped, Refusal>
    ensures { AppliesForward routes size identity.now next buffer.old result buffer.new }
{
    if routes >= frame_message::MOST_ROUTES {
        return Err(Refusal::ForwardLong);
    }
    // too long already, and the sum below has to stay in range
    if size > frame_message::MOST_BODY {
        return Err(Refusal::ForwardLong);
    }
    let grown = 1 + identity.len() + size;
    if grown > frame_message::MOST_BODY {
        return Err(Refusal::ForwardLong);
    }
    if FRONT + grown > buffer.len() {
        return Err(Refusal::OutputShort);
    }
    frame_rewrite::put_part(buffer, size, identity);
    Ok(Stepped::Forwarded(next))
}

// Answers a request with an error, or is silent where it wants no response: the reply keeps so many bytes of the request's body, its routes and its
// topic, and has a header of its own behind them.
pub fn fail(buffer: &mut [u8], kept: usize, b: Broker, errnum: u32, header: Header) -> Stepped
    ensures { AppliesError b errnum header kept buffer.old result buffer.new }
{
    if frame_flags::no_response(header.flags) {
        return Stepped::Silenced(errnum);
    }
    frame_rewrite::put_header(buffer, kept, step_routing::reply_header(b, errnum, header));
    Stepped::Replied(errnum)
}
