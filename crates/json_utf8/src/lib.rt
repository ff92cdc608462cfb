// UTF-8: how a character of two bytes or more goes on behind its first byte.
#![tactic(auto)]

ghost use Rattle.std.specs.Prelude.{◌≡◌, ◌∷◌, ◌+◌, length, drop, get_or, replicate};
ghost use Rattle.json_scan.specs.Scan.{is_within, tail, holds, second_of, tails_of};
ghost use Rattle.json_scan.specs.WorkingEnds.{rest_end};
ghost use Rattle.json_utf8.specs.WorkingCharacters.{character_end};

use bytes_number::byte_at;
use json_scan::{OfClass, run_end};

fn is_within(c: u8, lowest: u8, highest: u8) -> bool
    ensures { result ≡ is_within lowest highest c }
{
    (lowest..=highest).contains(&c)
}

fn is_tail(c: u8) -> bool
    ensures { result ≡ holds tail c }
{
    is_within(c, 0x80, 0xBF)
}

struct Tail;

impl OfClass for Tail {
    ghost class = { tail };

    fn holds(c: u8) -> bool {
        is_tail(c)
    }
}

// How many bytes come behind the first of a character of two bytes or more; 0 if this is no such byte.
// Stays a count and no Option: it is the length of tails_of, which has none there.
pub fn tails_behind(lead: u8) -> u8
    ensures { result ≡ length (tails_of lead) }
{
    match lead {
        0xC2..=0xDF => 1,
        0xE0..=0xEF => 2,
        0xF0..=0xF4 => 3,
        _ => 0,
    }
}

// Whether this may be the second byte of a character: none in too long a form, no surrogate, none above 10FFFF.
fn is_second(c: u8, lead: u8) -> bool
    ensures { result ≡ holds (second_of lead) c }
{
    match lead {
        0xE0 => is_within(c, 0xA0, 0xBF),
        0xED => is_within(c, 0x80, 0x9F),
        0xF0 => is_within(c, 0x90, 0xBF),
        0xF4 => is_within(c, 0x80, 0x8F),
        _ => is_tail(c),
    }
}

// The second byte of a character, and so many tails behind it.
#[inline(always)]
pub fn second_end(bytes: &[u8], at: usize, lead: u8, more: u8) -> Result<usize, usize>
    ensures { result ≡ rest_end (second_of lead ∷ replicate more tail) at (drop at bytes.now) }
{
    if !is_second(byte_at(bytes, at), lead) {
        return Err(at);
    }
    run_end::<Tail>(bytes, at + 1, usize::from(more))
}

// A character of two bytes or more, by its first byte; it stops there, if this is no such byte.
pub fn character_end(bytes: &[u8], at: usize) -> Result<usize, usize>
    ensures { result ≡ character_end at (tails_of (get_or bytes.now at 0)) (drop (at + 1) bytes.now) }
{
    let lead = byte_at(bytes, at);
    // Each length by itself: where a character ends is then known by a branch, and what is read there need not wait for a sum.
    match tails_behind(lead) {
        0 => Err(at),
        1 => second_end(bytes, at + 1, lead, 0),
        2 => second_end(bytes, at + 1, lead, 1),
        tails => second_end(bytes, at + 1, lead, tails - 1),
    }
}
