// The numbers of a payload: [ minus ] int [ frac ] [ exp ].
#![tactic(auto)]

ghost use Rattle.std.specs.Prelude.{◌≡◌, cond, ◌+◌, ◌<◌, eqb, length, drop};
ghost use Rattle.json_scan.specs.Scan.{is_digit, is_e, is_sign, minus, leading_zero, exponent, sign};
ghost use Rattle.json_scan.specs.WorkingEnds.{end_of};
ghost use Rattle.json_number.specs.WorkingFigures.{number_end, scale_end};

use json_scan::{digits_end, is_digit};

fn is_e(c: u8) -> bool
    ensures { result ≡ is_e c }
{
    c == b'e' || c == b'E'
}

fn is_sign(c: u8) -> bool
    ensures { result ≡ is_sign c }
{
    c == b'-' || c == b'+'
}

// Digits, at least one.
fn power_end(bytes: &[u8], at: usize) -> Result<usize, usize>
    ensures { result ≡ number_end sign at (drop at bytes.now) }
{
    let end = digits_end(bytes, at);
    if end == at {
        return Err(at);
    }
    Ok(end)
}

// The exponent behind its e.
fn exponent_end(bytes: &[u8], at: usize) -> Result<usize, usize>
    ensures { result ≡ number_end exponent at (drop at bytes.now) }
{
    if at >= bytes.len() {
        return Err(at);
    }
    if is_sign(bytes[at]) {
        return power_end(bytes, at + 1);
    }
    power_end(bytes, at)
}

// Behind int, or behind int and frac: an exponent, or the number's end.
fn scale_end(bytes: &[u8], at: usize) -> Result<usize, usize>
    ensures { result ≡ scale_end at (drop at bytes.now) }
{
    if at >= bytes.len() {
        return Ok(at);
    }
    if is_e(bytes[at]) {
        return exponent_end(bytes, at + 1);
    }
    Ok(at)
}

// Behind int: a fraction or none, and an exponent or none.
fn fraction_end(bytes: &[u8], at: usize) -> Result<usize, usize>
    ensures { result ≡ number_end leading_zero at (drop at bytes.now) }
{
    if at >= bytes.len() {
        return Ok(at);
    }
    if bytes[at] != b'.' {
        return scale_end(bytes, at);
    }
    let from = at + 1;
    let end = digits_end(bytes, from);
    if end == from {
        return Err(from);
    }
    scale_end(bytes, end)
}

// Where int ends that begins with this digit.
fn int_end(bytes: &[u8], at: usize, first: u8) -> usize
    requires { at < length bytes.now }
    ensures { result ≡ cond (eqb first 48) (at + 1) (end_of is_digit bytes.now (at + 1)) }
{
    if first == b'0' {
        return at + 1;
    }
    digits_end(bytes, at + 1)
}

// A number behind its minus, or one that has none.
#[inline(always)]
pub fn number_end(bytes: &[u8], at: usize) -> Result<usize, usize>
    ensures { result ≡ number_end minus at (drop at bytes.now) }
{
    if at >= bytes.len() {
        return Err(at);
    }
    let c = bytes[at];
    if !is_digit(c) {
        return Err(at);
    }
    fraction_end(bytes, int_end(bytes, at, c))
}
