// Whether a payload is JSON: an object with white space around it and a zero byte behind, at most 32 deep. Value, object and array readers call each
// other, with the levels that are left falling.
#![tactic(auto)]

ghost use Rattle.std.specs.Prelude.{◌≡◌, ◌<◌, length, Err};
ghost use Rattle.json_scan.specs.declared.Fault.TheVariants.{TooDeep};
ghost use Rattle.json_scan.specs.Scan.{in_object, in_array, value, behind, between, verdict_of};
ghost use Rattle.json_scan.specs.WorkingReads.{ReadsOn, came};
ghost use Rattle.json_check.specs.WorkingNested.{left_by, Stands, Opened, Ends};

use json_scalar::scalar_end;
use json_scan::{Fault, token_at, white_end};
use json_separators::{Next, name_end, next_value};
use json_string::text_end;

// How many levels may be open, the outer object among them.
const MOST: u8 = 32;

// What a reader of a token answers: where it stopped, the payload is not JSON, and that is left in `fault`.
#[inline(always)]
fn told<T>(read: Result<T, usize>, fault: &mut Fault) -> Option<T>
    ensures { left_by result fault.new ≡ came read }
{
    match read {
        Ok(end) => Some(end),
        Err(at) => {
            *fault = Fault::NotJson(at);
            None
        }
    }
}

// Nothing is read, and this opening byte is left as that of the level that is one too many.
fn too_deep(at: usize, fault: &mut Fault) -> Option<usize>
    ensures { left_by result fault.new ≡ Err (TooDeep at) }
{
    *fault = Fault::TooDeep(at);
    None
}

// The place behind the value that begins here, with so many levels left for it. Where there is none, `fault` says why. Stays an Option beside it: a Result
// of a place or a fault has three words, and would go through memory at each value.
#[cycle(array_end_object_end_value_end)]
#[inline(always)]
fn value_end(bytes: &[u8], at: usize, first: u8, room: u8, fault: &mut Fault) -> Option<usize>
    requires { Stands bytes.now at first }
    ensures { ReadsOn bytes.now room at (between value) (between behind) (left_by result fault.new) }
{
    match first {
        b'"' => told(text_end(bytes, at + 1), fault),
        b'{' => object_end(bytes, at, room, fault),
        b'[' => array_end(bytes, at, room, fault),
        _ => told(scalar_end(bytes, at), fault),
    }
}

// An object at its opening byte, likewise.
#[cycle(array_end_object_end_value_end)]
fn object_end(bytes: &[u8], at: usize, room: u8, fault: &mut Fault) -> Option<usize>
    requires { at < length bytes.now }
    ensures { Opened bytes.now room at in_object (left_by result fault.new) }
{
    if room == 0 {
        return too_deep(at, fault);
    }
    let first = token_at(bytes, at + 1);
    if first.byte == b'}' {
        return Some(first.at + 1);
    }
    let mut i = first.at;
    // Stays a loop over a place: how far a member reaches is known only once it is read.
    loop {
        let name = told(name_end(bytes, i), fault)?;
        let t = token_at(bytes, name);
        let end = value_end(bytes, t.at, t.byte, room - 1, fault)?;
        match told(next_value(bytes, end, b'}'), fault)? {
            Next::More(k) => i = k,
            Next::Closed(k) => return Some(k),
        }
    }
}

// An array at its opening byte, likewise.
// Stays apart from object_end: one function for both would ask at each turn whether a name is due.
#[cycle(array_end_object_end_value_end)]
fn array_end(bytes: &[u8], at: usize, room: u8, fault: &mut Fault) -> Option<usize>
    requires { at < length bytes.now }
    ensures { Opened bytes.now room at in_array (left_by result fault.new) }
{
    if room == 0 {
        return too_deep(at, fault);
    }
    let first = token_at(bytes, at + 1);
    if first.byte == b']' {
        return Some(first.at + 1);
    }
    let mut i = first.at;
    // Stays a loop over a place, likewise.
    loop {
        let t = token_at(bytes, i);
        let end = value_end(bytes, t.at, t.byte, room - 1, fault)?;
        match told(next_value(bytes, end, b']'), fault)? {
            Next::More(k) => i = k,
            Next::Closed(k) => return Some(k),
        }
    }
}

// Behind the outer object: white space and the zero byte, and nothing more.
fn payload_end(bytes: &[u8], at: usize) -> Result<(), Fault>
    ensures { Ends bytes.now at result }
{
    let end = white_end(bytes, at);
    if end >= bytes.len() {
        return Err(Fault::NotJson(end));
    }
    let next = end + 1;
    if bytes[end] != 0 {
        Err(Fault::NotJson(end))
    } else if next < bytes.len() {
        Err(Fault::NotJson(next))
    } else {
        Ok(())
    }
}

// Whether a payload is JSON, and if not, at which byte that shows.
pub fn check_payload(bytes: &[u8]) -> Result<(), Fault>
    ensures { result ≡ verdict_of bytes.now }
{
    let i = white_end(bytes, 0);
    if i >= bytes.len() {
        return Err(Fault::NotJson(i));
    }
    if bytes[i] != b'{' {
        return Err(Fault::NotJson(i));
    }
    // Something has to stand in a lent place; it is written before it is read.
    let mut fault = Fault::NotJson(i);
    match object_end(bytes, i, MOST, &mut fault) {
        Some(end) => payload_end(bytes, end),
        None => Err(fault),
    }
}
