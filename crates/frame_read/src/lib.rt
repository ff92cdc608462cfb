// The reader: says where the parts of a framed message lie in the caller's bytes, or why there is no message. It copies nothing.
#![tactic(auto)]

ghost use Rattle.std.specs.Prelude.{◌≡◌, MatchResult};
ghost use Rattle.frame_message.specs.Reading.{starts_right, reading_of};
ghost use Rattle.frame_layout.specs.WorkingPlacing.{read_as};
ghost use Rattle.frame_read.specs.WorkingFront.{Opens, Shut};

use frame_layout::Layout;
use frame_message::FRONT;
use refusal::Refusal;

// Whether a frame's four bytes stand in front. They are compared as one number, FF EE 00 12.
fn starts_right(bytes: &[u8]) -> bool
    ensures { result ≡ starts_right bytes.now }
{
    bytes_number::number_at(bytes, 0) == frame_message::START
}

// 1, 2 and 3: the body of the frame at the front of bytes. What lies behind it is ignored.
pub fn find_body(bytes: &[u8]) -> Result<&[u8], Refusal>
    ensures { MatchResult result (λ body. Opens bytes.now body.now) (λ why. Shut bytes.now why) }
{
    if bytes.len() < FRONT {
        return Err(Refusal::InputShort);
    }
    if !starts_right(bytes) {
        return Err(Refusal::StartWrong);
    }
    let size = bytes_number::number_at(bytes, 4) as usize;
    if frame_message::MOST_BODY < size {
        return Err(Refusal::BodyLong);
    }
    let end = FRONT + size;
    if bytes.len() < end {
        return Err(Refusal::InputShort);
    }
    Ok(&bytes[FRONT..end])
}

// Reads the frame at the front of bytes. What lies behind it is ignored.
pub fn read(bytes: &[u8]) -> Result<Layout, Refusal>
    ensures { result ≡ read_as (reading_of bytes.now) }
{
    frame_body::read_body(find_body(bytes)?)
}
