// A Flux message: the fields of its header, and the numbers of "A frame" that more than one crate uses.
#![tactic(auto)]

ghost use Rattle.std.specs.Prelude.{◌≡◌};
ghost use Rattle.frame_message.specs.WorkingKind.{type_number, Decodes};

use refusal::Refusal;

// FF EE 00 12 as one number, and how many bytes stand in front of a body: these four, and the body's length.
pub const START: u32 = 4293787666;

pub const FRONT: usize = 8;

// The most bytes that a body has, and the most routes.
pub const MOST_BODY: usize = 32768;

pub const MOST_ROUTES: usize = 64;

// The most parts: 64 routes, the delimiter, the topic, the payload and the header.
pub const MOST_PARTS: usize = 68;

// A route with its size byte, and a header without its size byte and with it.
pub const ROUTE_PART: usize = 38;

// The size byte of a route's part.
pub const ROUTE_SIZE: u8 = 37;

pub const HEADER: usize = 20;

pub const HEADER_PART: usize = 21;

// The header's first two bytes.
pub const MAGIC: u8 = 142;

pub const VERSION: u8 = 1;

// A message's type: a name and its number.
#[derive(Clone, Copy, Debug, PartialEq, Eq)]
pub enum Kind {
    Request = 1,
    Response = 2,
    Event = 4,
    Control = 8,
}

// The type that a byte is; 22 where it is none.
impl TryFrom<u8> for Kind {
    type Error = Refusal;

    ghost try_from_gives = { Decodes };

    fn try_from(kind: u8) -> Result<Kind, Refusal> {
        match kind {
            1 => Ok(Kind::Request),
            2 => Ok(Kind::Response),
            4 => Ok(Kind::Event),
            8 => Ok(Kind::Control),
            _ => Err(Refusal::TypeWrong),
        }
    }
}

// The byte that a type is.
impl From<Kind> for u8 {
    ghost from_gives = { λ kind n. n ≡ type_number kind };

    fn from(kind: Kind) -> u8 {
        kind as u8
    }
}

// The header's fields. `kind` is the paper's type: any byte, as a caller may ask for a header of any.
#[derive(Clone, Copy)]
pub struct Header {
    pub kind: u8,
    pub flags: u8,
    pub userid: u32,
    pub rolemask: u32,
    pub first: u32,
    pub second: u32,
}

// Where bytes lie: the place of the first one, and how many there are.
#[derive(Clone, Copy)]
pub struct Stretch {
    pub start: usize,
    pub len: usize,
}
