// The fault of a frame: the reader's number for it, and the byte at which it lies, counted from the frame's front. Its parts are counted, and most refusals
// told by that alone; the reader is asked for the others.
#![tactic(auto)]

ghost use Rattle.std.specs.Prelude.{◌≡◌};
ghost use Rattle.frame_read.specs.WorkingFront.{Opens};
ghost use Rattle.frame_fault.specs.Fault.{fault_of};

use alike::{count_alike, leading_alike};
use frame_message::FRONT;
use place::byte_in_parts;
use why::why_counted;

mod alike;
mod place;
mod route;
mod why;

// Stays two numbers: the definition fault_of and lampreycoil_read_fault tell them so. A good frame has 0 and 0. 1, 2 and 3 have byte 0, which no other fault has.
#[derive(Drop)]
pub struct Fault {
    pub number: u32,
    pub byte: usize,
}

// What is wrong with a frame whose body is all there, and where.
fn fault_in(bytes: &[u8], body: &[u8]) -> Fault
    requires { Opens bytes.now body.now }
    ensures { result ≡ fault_of bytes.now }
{
    let alike = leading_alike(body);
    let counts = match count_alike(body, alike) {
        Ok(counts) => counts,
        Err(stop) => {
            return Fault {
                number: u32::from(stop.why),
                byte: FRONT + stop.at,
            };
        }
    };
    match why_counted(bytes, body, counts) {
        Ok(()) => Fault { number: 0, byte: 0 },
        Err(why) => Fault {
            number: u32::from(why),
            byte: byte_in_parts(body, counts, alike, why),
        },
    }
}

// What is wrong with the frame at the front of bytes, and where.
pub fn find_fault(bytes: &[u8]) -> Fault
    ensures { result ≡ fault_of bytes.now }
{
    match frame_read::find_body(bytes) {
        Ok(body) => fault_in(bytes, body),
        Err(why) => Fault {
            number: u32::from(why),
            byte: 0,
        },
    }
}
