// The flags of a header, one test each.
#![tactic(auto)]

ghost use Rattle.std.specs.Prelude.{◌≡◌, ◌/◌, ◌%◌, ◌<◌, eqb};
ghost use Rattle.frame_message.specs.Header.{has_topic, has_payload, no_response, has_route, is_upstream, is_streaming};

// Whether a flag is set, which is a power of two.
fn is_set<const FLAG: u8>(flags: u8) -> bool
    requires { 0 < FLAG }
    ensures { result ≡ eqb (flags / FLAG % 2) 1 }
{
    flags / FLAG % 2 == 1
}

// Whether there is a topic, a payload, a routing group: flags 01, 02 and 08.
pub fn has_topic(flags: u8) -> bool
    ensures { result ≡ has_topic flags }
{
    is_set::<0x01>(flags)
}

pub fn has_payload(flags: u8) -> bool
    ensures { result ≡ has_payload flags }
{
    is_set::<0x02>(flags)
}

pub fn has_route(flags: u8) -> bool
    ensures { result ≡ has_route flags }
{
    is_set::<0x08>(flags)
}

// Whether nobody is to reply with an error, whether the request goes upstream, and whether responses
// stream: flags 04, 10 and 40.
pub fn no_response(flags: u8) -> bool
    ensures { result ≡ no_response flags }
{
    is_set::<0x04>(flags)
}

pub fn is_upstream(flags: u8) -> bool
    ensures { result ≡ is_upstream flags }
{
    is_set::<0x10>(flags)
}

pub fn is_streaming(flags: u8) -> bool
    ensures { result ≡ is_streaming flags }
{
    is_set::<0x40>(flags)
}
