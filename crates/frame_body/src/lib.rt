// A body: what its parts are and where they lie, or why it holds no message. It copies nothing.
#![tactic(auto)]

ghost use Rattle.std.specs.Prelude.{◌≡◌};
ghost use Rattle.frame_layout.specs.WorkingPlacing.{read_as};
ghost use Rattle.frame_body.specs.WorkingBody.{body_reading};

pub use agree::{if_routed, parts_agree};
use frame_layout::Layout;
use judge::judge;
use refusal::Refusal;

mod agree;
mod judge;

// Reads the body of a frame. One that is too long is not looked at.
pub fn read_body(body: &[u8]) -> Result<Layout, Refusal>
    ensures { result ≡ read_as (body_reading body.now) }
{
    if frame_message::MOST_BODY < body.len() {
        return Err(Refusal::BodyLong);
    }
    judge(body)
}
