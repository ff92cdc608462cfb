// What a header's type asks of its flags and of its other fields.
#![tactic(auto)]

ghost use Rattle.std.specs.Prelude.{◌≡◌};
ghost use Rattle.frame_message.specs.Header.{is_type, are_flags, parts_fit, fields_good};

use frame_message::{Header, Kind};

// The nodeid that never appears on the wire. Stays a number: nodeids are.
const NO_NODE: u32 = 4294967294;

// The flag that is refused.
const FLAG_80: u8 = 0x80;

// 22: whether there is such a type.
pub fn is_type(kind: u8) -> bool
    ensures { result ≡ is_type kind }
{
    Kind::try_from(kind).is_ok()
}

// 23: whether flag 80 is clear.
pub fn are_flags(flags: u8) -> bool
    ensures { result ≡ are_flags flags }
{
    flags < FLAG_80
}

// Whether the flags ask for the parts that the type has.
#[tactic(auto, unfolding(frame_message::specs::Header::parts_fit))]
pub fn parts_fit(h: Header) -> bool
    ensures { result ≡ parts_fit h }
{
    let route = frame_flags::has_route(h.flags);
    let topic = frame_flags::has_topic(h.flags);
    let payload = frame_flags::has_payload(h.flags);
    match Kind::try_from(h.kind) {
        Ok(Kind::Control) => !route && !topic && !payload,
        Ok(Kind::Event) => !route && topic,
        _ => route && topic,
    }
}

// Whether the fields that a type binds hold what they must: a request's nodeid, an event's unused
// field.
#[tactic(auto, unfolding(frame_message::specs::Header::fields_good))]
pub fn fields_good(h: Header) -> bool
    ensures { result ≡ fields_good h }
{
    match Kind::try_from(h.kind) {
        Ok(Kind::Request) => h.first != NO_NODE,
        Ok(Kind::Event) => h.second == 0,
        _ => true,
    }
}
