// A value that holds no other and is no string: a number or one of the literal names.
#![tactic(auto)]

ghost use Rattle.std.specs.Prelude.{◌≡◌, drop};
ghost use Rattle.json_scan.specs.WorkingEnds.{rest_end};
ghost use Rattle.json_scalar.specs.WorkingScalars.{spelling, scalar_end};

use json_number::number_end;
use json_scan::rest_of;

// These bytes, one after another.
fn literal_end(bytes: &[u8], at: usize, word: &[u8]) -> Result<usize, usize>
    ensures { result ≡ rest_end (spelling word.now) at (drop at bytes.now) }
{
    let passed = rest_of(bytes, at)
        .iter()
        .zip(word)
        .take_while(|(c, x)| **c == **x)
        .count();
    if passed == word.len() {
        Ok(at + passed)
    } else {
        Err(at + passed)
    }
}

// Where a value is due and no string, object or array begins.
pub fn scalar_end(bytes: &[u8], at: usize) -> Result<usize, usize>
    ensures { result ≡ scalar_end at (drop at bytes.now) }
{
    if at >= bytes.len() {
        return Err(at);
    }
    match bytes[at] {
        b'-' => number_end(bytes, at + 1),
        b'0'..=b'9' => number_end(bytes, at),
        b'f' => literal_end(bytes, at + 1, b"alse"),
        b'n' => literal_end(bytes, at + 1, b"ull"),
        b't' => literal_end(bytes, at + 1, b"rue"),
        _ => Err(at),
    }
}
