// What one broker's step is told by, and the header of its error reply. Nothing here looks at a frame.
#![tactic(auto)]

ghost use Rattle.std.specs.Prelude.{◌≡◌};
ghost use Rattle.step_routing.specs.Messages.{reply_header};

use frame_message::{Header, Kind};

// An error reply's flags: topic and route, and streaming where the request had it.
const REPLY: u8 = 0x09;

const STREAMING_REPLY: u8 = 0x49;

// The broker that makes a step: its rank, and the userid and rolemask of its error replies.
#[derive(Clone, Copy)]
pub struct Broker {
    pub rank: u32,
    pub userid: u32,
    pub rolemask: u32,
}

// The tables by which a step goes, lent to it.
#[derive(Clone, Copy)]
pub struct Tables<'a> {
    pub tree: &'a [u8],
    pub services: &'a [u8],
    pub identities: &'a [u8],
}

// What is done with a request: delivered with a record's number, forwarded to a rank, or an error with its number.
#[derive(Clone, Copy)]
pub enum Way {
    Deliver(usize),
    Forward(u32),
    Fail(u32),
}

// What a step says that is not refused: delivered with a record's number, forwarded to a rank, an error reply or silence with the error's number,
// or home.
#[derive(Clone, Copy, PartialEq, Eq)]
pub enum Stepped {
    Delivered(usize),
    Forwarded(u32),
    Replied(u32),
    Silenced(u32),
    Home,
}

// The header of the error reply to a request.
pub fn reply_header(b: Broker, errnum: u32, request: Header) -> Header
    ensures { result ≡ reply_header b.userid b.rolemask errnum request }
{
    Header {
        kind: u8::from(Kind::Response),
        flags: if frame_flags::is_streaming(request.flags) {
            STREAMING_REPLY
        } else {
            REPLY
        },
        userid: b.userid,
        rolemask: b.rolemask,
        first: errnum,
        second: request.second,
    }
}
