// What stands between the values of an object or an array: names with their colons, commas and closing bytes.
#![tactic(auto)]

ghost use Rattle.std.specs.Prelude.{◌≡◌, ◌≢◌};
ghost use Rattle.json_separators.specs.WorkingSeparators.{mark_end, name_end, next_of};

use json_scan::token_at;
use json_string::text_end;

// Behind a value within an object or an array: behind the comma, or behind the closing byte.
#[derive(Drop)]
pub enum Next {
    More(usize),
    Closed(usize),
}

// White space and this byte. Always made part of its caller, as is name_end: by itself it would compute the place behind the byte from the comparison, and
// what is read there would wait for that.
#[inline(always)]
fn mark_end(bytes: &[u8], at: usize, mark: u8) -> Result<usize, usize>
    requires { mark ≢ 0 }
    ensures { result ≡ mark_end mark bytes.now at }
{
    let first = token_at(bytes, at);
    if first.byte != mark {
        return Err(first.at);
    }
    Ok(first.at + 1)
}

// The name of a member and the colon behind it.
#[inline(always)]
pub fn name_end(bytes: &[u8], at: usize) -> Result<usize, usize>
    ensures { result ≡ name_end bytes.now at }
{
    let text = mark_end(bytes, at, b'"')?;
    let end = text_end(bytes, text)?;
    // Handed on by `?`: as it came, the place would be a sum again.
    let colon = mark_end(bytes, end, b':')?;
    Ok(colon)
}

// What comes behind a value, where this byte closes what it stands in.
pub fn next_value(bytes: &[u8], at: usize, close: u8) -> Result<Next, usize>
    ensures { result ≡ next_of close bytes.now at }
{
    let mark = token_at(bytes, at);
    let i = mark.at;
    if i >= bytes.len() {
        return Err(i);
    }
    let next = i + 1;
    if mark.byte == close {
        return Ok(Next::Closed(next));
    }
    if mark.byte == b',' {
        return Ok(Next::More(next));
    }
    Err(i)
}
