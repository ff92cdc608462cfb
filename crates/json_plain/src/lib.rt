// Text that stands for itself, eight bytes at a time as long as there are twice as many.
#![tactic(auto)]

ghost use Rattle.std.specs.Prelude.{◌≡◌, ◌+◌, ◌≤◌, length, take, drop};
ghost use Rattle.json_scan.specs.WorkingEnds.{end_of};
ghost use Rattle.json_plain.specs.WorkingPlain.{is_plain};
ghost use Rattle.json_plain.specs.WorkingWords.{word_of, lowest_mark, Marks};

use json_scan::{Test, end_of};

// Bytes of a word, and of two.
const WORD: usize = 8;

const WORDS: usize = 16;

// A 1 in each byte of a word.
const ONES: u64 = 0x0101010101010101;

fn is_plain(c: u8) -> bool
    ensures { result ≡ is_plain c }
{
    (c != b'"') & (c != b'\\') & (c >= 0x20) & (c < 0x80)
}

struct IsPlain;

impl Test for IsPlain {
    ghost test = { is_plain };

    fn passes(c: u8) -> bool {
        is_plain(c)
    }
}

// Eight bytes as a number, the first as its lowest byte: the compiler makes one load of it.
fn word_at(bytes: &[u8], at: usize) -> u64
    requires { at + 8 ≤ length bytes.now }
    ensures { result ≡ word_of (take 8 (drop at bytes.now)) }
{
    u64::from_le_bytes([
        bytes[at],
        bytes[at + 1],
        bytes[at + 2],
        bytes[at + 3],
        bytes[at + 4],
        bytes[at + 5],
        bytes[at + 6],
        bytes[at + 7],
    ])
}

// The high bit of each byte of a word that does not stand for itself. A borrow out of such a byte can set bits above it too, so only the lowest one counts. A byte above 7F has its mark by the quote's difference or the backslash's: no byte is both but for the high bit.
fn marks(word: u64) -> u64
    ensures { Marks word result }
{
    let control = std::num::wrapping_sub_u64(word, 0x20 * ONES);
    let quote = std::num::wrapping_sub_u64(word ^ (0x22 * ONES), ONES);
    let backslash = std::num::wrapping_sub_u64(word ^ (0x5C * ONES), ONES);
    (control | quote | backslash) & (0x80 * ONES)
}

// Which byte has the lowest mark.
fn marked(marks: u64) -> usize
    ensures { (result ≡ lowest_mark marks) × (result ≤ 8) }
{
    (u64::trailing_zeros(marks) / 8) as usize
}

// The first place from `at` on whose byte does not stand for itself.
pub fn plain_end(bytes: &[u8], at: usize) -> usize
    ensures { result ≡ end_of is_plain bytes.now at }
{
    let mut i = at;
    if bytes.len() >= WORDS {
        let last = bytes.len() - WORDS;
        // Stays a loop by index: a turn has two words, and a way out behind each.
        while i <= last {
            let here = marks(word_at(bytes, i));
            if here != 0 {
                return i + marked(here);
            }
            i += WORD;
            let next = marks(word_at(bytes, i));
            if next != 0 {
                return i + marked(next);
            }
            i += WORD;
        }
    }
    end_of::<IsPlain>(bytes, i)
}
