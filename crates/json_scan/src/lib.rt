// A payload read one byte after another: what it comes to, and how far a reader of one of its tokens came.
#![tactic(auto)]

ghost use Rattle.std.specs.Prelude.{◌≡◌, ℕ, Bool, drop, replicate};
ghost use Rattle.json_scan.specs.Scan.{is_white, is_digit, Class, holds};
ghost use Rattle.json_scan.specs.WorkingEnds.{end_of, token_at, rest_end};

use bytes_number::byte_at;

mod held;

pub use held::{HeldTest, end_held, run_held};

// Why a payload is not JSON, and where: the first byte at which no continuation is allowed, or the opening byte of the level that is one too deep.
#[derive(Clone, Copy, Debug, PartialEq, Eq)]
pub enum Fault {
    NotJson(usize),
    TooDeep(usize),
}

fn is_white(c: u8) -> bool
    ensures { result ≡ is_white c }
{
    if c > b' ' {
        return false;
    }
    matches!(c, b' ' | b'\n' | b'\r' | b'\t')
}

pub fn is_digit(c: u8) -> bool
    ensures { result ≡ is_digit c }
{
    c.is_ascii_digit()
}

// The bytes from `at` on; none behind the end.
pub fn rest_of(bytes: &[u8], at: usize) -> &[u8]
    ensures { result.now ≡ drop at bytes.now }
{
    bytes.get(at..).unwrap_or(&[])
}

// A test of single bytes. It is a type and no closure, so that who passes it owes nothing.
pub trait Test {
    ghost test: { ℕ → Bool };

    fn passes(c: u8) -> bool
        ensures { result ≡ test c };
}

struct IsWhite;

impl Test for IsWhite {
    ghost test = { is_white };

    fn passes(c: u8) -> bool {
        is_white(c)
    }
}

struct IsDigit;

impl Test for IsDigit {
    ghost test = { is_digit };

    fn passes(c: u8) -> bool {
        is_digit(c)
    }
}

// The first place from `at` on whose byte does not pass the test.
pub fn end_of<T: Test>(bytes: &[u8], at: usize) -> usize
    ensures { result ≡ end_of T.test bytes.now at }
{
    // Stays a loop by index: a chain takes 8 percent more instructions on numbers, 11 on a record and 23 on much white space.
    let mut i = at;
    while i < bytes.len() && T::passes(bytes[i]) {
        i += 1;
    }
    i
}

// The first place from `at` on that has no white space.
pub fn white_end(bytes: &[u8], at: usize) -> usize
    ensures { result ≡ end_of is_white bytes.now at }
{
    end_of::<IsWhite>(bytes, at)
}

// The first place from `at` on that has no digit.
pub fn digits_end(bytes: &[u8], at: usize) -> usize
    ensures { result ≡ end_of is_digit bytes.now at }
{
    end_of::<IsDigit>(bytes, at)
}

// A class of the bytes that the rest of a token is made of, with its test.
pub trait OfClass {
    ghost class: { Class };

    fn holds(c: u8) -> bool
        ensures { result ≡ holds class c };
}

// Behind so many bytes of a class, or at the first that is none.
pub fn run_end<K: OfClass>(bytes: &[u8], at: usize, count: usize) -> Result<usize, usize>
    ensures { result ≡ rest_end (replicate count K.class) at (drop at bytes.now) }
{
    let passed = rest_of(bytes, at)
        .iter()
        .take(count)
        .take_while(|c| K::holds(**c))
        .count();
    if passed == count {
        Ok(at + passed)
    } else {
        Err(at + passed)
    }
}

// Where a token may begin, and the byte there, as `byte_at` has it.
#[derive(Drop)]
pub struct Token {
    pub at: usize,
    pub byte: u8,
}

// The first place from `at` on that has no white space. Mostly that is `at` itself.
pub fn token_at(bytes: &[u8], at: usize) -> Token
    ensures { result ≡ token_at bytes.now at }
{
    let byte = byte_at(bytes, at);
    if byte > b' ' {
        return Token { at, byte };
    }
    let end = white_end(bytes, at);
    Token {
        at: end,
        byte: byte_at(bytes, end),
    }
}
