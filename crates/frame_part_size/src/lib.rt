// The size in front of a part.
#![tactic(auto)]

ghost use Rattle.std.specs.Prelude.{◌≡◌, ◌+◌, ◌^◌, ◌<◌, length};
ghost use Rattle.frame_message.specs.Frame.{size_bytes};
ghost use Rattle.frame_part_size.specs.WorkingSizes.{data_at, size_at};

use frame_message::Stretch;

// A part of so many bytes or more has a size of five bytes, the first of which is this.
pub const LONG: usize = 255;

// How many bytes the size of a part of n bytes takes.
pub fn size_length(n: usize) -> usize
    ensures { result ≡ length (size_bytes n) }
{
    if n < LONG { 1 } else { 5 }
}

// The data of so many bytes behind a part's size; None where s has fewer.
fn data_at(s: &[u8], start: usize, len: usize) -> Option<Stretch>
    requires { start + len < 2 ^ 64 }
    ensures { result ≡ data_at (length s.now) start len }
{
    if s.len() < start + len {
        return None;
    }
    Some(Stretch { start, len })
}

// Where the data of the part that begins s lies, counted from its size byte; None where its size is wrong.
pub fn size_at(s: &[u8]) -> Option<Stretch>
    ensures { result ≡ size_at s.now }
{
    let short = usize::from(*s.first()?);
    if short < LONG {
        return data_at(s, 1, short);
    }
    let long = bytes_number::number_at(s, 1) as usize;
    if long < LONG {
        return None;
    }
    data_at(s, 5, long)
}
