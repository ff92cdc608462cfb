// What the writer refuses, in the paper's order, before it writes anything.
#![tactic(auto)]

ghost use Rattle.std.specs.Prelude.{◌≡◌, true, false, ◌&&◌, not};
ghost use Rattle.frame_message.specs.Header.{has_topic, parts_fit};
ghost use Rattle.frame_forms.specs.Forms.{is_topic};
ghost use Rattle.frame_message.specs.Writing.{parts_given_fit, routes_good, cut, writing_into};
ghost use Rattle.frame_message.specs.Working.{written_as};
ghost use Rattle.frame_write_given.specs.WorkingDrafts.{drafted};
ghost use Rattle.frame_write_check.specs.Working.{fitted, measured};

use frame_message::{FRONT, MOST_BODY};
use frame_write_given::Draft;
use refusal::Refusal;

pub mod length;

// Whether there is a topic that is not of the form.
fn topic_wrong(flags: u8, topic: &[u8]) -> bool
    ensures { result ≡ (has_topic flags && not (is_topic topic.now)) }
{
    frame_flags::has_topic(flags) && !frame_forms::is_topic(topic)
}

// A length, if it is at most so much; else the refusal of what is too long. Then 11, if there is no room for it.
pub fn fit(length: usize, most: usize, too_long: Refusal, room: usize) -> Result<usize, Refusal>
    ensures { result ≡ fitted length most too_long room }
{
    if most < length {
        return Err(too_long);
    }
    if room < length {
        return Err(Refusal::OutputShort);
    }
    Ok(length)
}

// 3 and 11, of a message that 6 to 10 let through. A payload above 32,768 bytes makes a body above that, and is not added up.
fn measure(draft: &Draft, room: usize) -> Result<usize, Refusal>
    requires payload_value { (parts_fit draft.now.header && parts_given_fit (drafted draft.now)) ≡ true }
    requires routes_value { routes_good (cut draft.now.routes.now) ≡ true }
    requires topic_value { (has_topic draft.now.header.flags && not (is_topic draft.now.topic.now)) ≡ false }
    ensures { result ≡ written_as (measured room (drafted draft.now)) }
{
    if MOST_BODY < draft.payload.len() {
        return Err(Refusal::BodyLong);
    }
    let whole = FRONT + length::body_length(draft);
    fit(whole, FRONT + MOST_BODY, Refusal::BodyLong, room)
}

// The refusal, or the length of the frame to be written into so much room: 22, 23, 7, 8, 9, 10, then 3 and 11. All of the first six are looked
// at before any is told, so that their order stands in one list; a message that is written needs them all anyway.
pub fn check_message(draft: &Draft, room: usize) -> Result<usize, Refusal>
    ensures { result ≡ written_as (writing_into room (drafted draft.now)) }
{
    let header = draft.header;
    let typed = frame_header_rules::is_type(header.kind);
    let clear = frame_header_rules::are_flags(header.flags);
    let agree = frame_write_given::parts_agree(draft);
    let good = frame_write_given::routes_good(draft.routes);
    let wrong = topic_wrong(header.flags, draft.topic);
    let fields = frame_header_rules::fields_good(header);
    if !typed {
        return Err(Refusal::TypeWrong);
    }
    if !clear {
        return Err(Refusal::FlagWrong);
    }
    if !agree {
        return Err(Refusal::PartsDisagree);
    }
    if !good {
        return Err(Refusal::RouteWrong);
    }
    if wrong {
        return Err(Refusal::TopicWrong);
    }
    if !fields {
        return Err(Refusal::FieldWrong);
    }
    measure(draft, room)
}
