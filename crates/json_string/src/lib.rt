// The strings of a payload: what stands between the quotation marks is escapes and UTF-8, with no control byte.
#![tactic(auto)]

ghost use Rattle.std.specs.Prelude.{◌≡◌, drop};
ghost use Rattle.json_scan.specs.Scan.{is_escape, hex, holds};
ghost use Rattle.json_string.specs.WorkingText.{text_end, Escaped};

use bytes_number::byte_at;
use json_plain::plain_end;
use json_scan::{OfClass, run_end};
use json_utf8::character_end;

fn is_hex(c: u8) -> bool
    ensures { result ≡ holds hex c }
{
    c.is_ascii_hexdigit()
}

struct Hex;

impl OfClass for Hex {
    ghost class = { hex };

    fn holds(c: u8) -> bool {
        is_hex(c)
    }
}

fn is_escape(c: u8) -> bool
    ensures { result ≡ is_escape c }
{
    matches!(c, b'"' | b'\\' | b'/' | b'b' | b'f' | b'n' | b'r' | b't')
}

// What stands behind a backslash.
fn escape_end(bytes: &[u8], at: usize) -> Result<usize, usize>
    ensures { Escaped bytes.now at result }
{
    if at >= bytes.len() {
        return Err(at);
    }
    let c = bytes[at];
    if is_escape(c) {
        return Ok(at + 1);
    }
    if c == b'u' {
        return run_end::<Hex>(bytes, at + 1, 4);
    }
    Err(at)
}

// What stands between the quotation marks, and the closing one.
pub fn text_end(bytes: &[u8], at: usize) -> Result<usize, usize>
    ensures { result ≡ text_end at (drop at bytes.now) }
{
    let mut i = at;
    // Stays a loop over a place: how far an escape or a character reaches is known only once it is read.
    loop {
        match byte_at(bytes, i) {
            b'"' => return Ok(i + 1),
            b'\\' => i = escape_end(bytes, i + 1)?,
            0x20..=0x7F => i = plain_end(bytes, i),
            _ => i = character_end(bytes, i)?,
        }
    }
}
