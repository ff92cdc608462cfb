// How far bytes pass a test that a value holds, and that so may depend on what its caller has. The readers of tokens do not come here: their tests are types.

ghost use Rattle.std.specs.Prelude.{◌≡◌, ℕ, Bool, false, get_or, drop};
ghost use Rattle.json_scan.specs.WorkingEnds.{end_of, run_of};

use crate::rest_of;

// A test of single bytes that a value holds. As `Test` is, it is a trait and no closure, so that who passes it owes nothing.
pub trait HeldTest {
    ghost test: { Self → ℕ → Bool };

    fn passes(&self, c: u8) -> bool
        ensures { result ≡ test self.now c };
}

// The answers to all bytes, one by one. By these a closure is held that may be called at any byte, whatever it captures.
impl HeldTest for [bool; 256] {
    ghost test = { λ answers c. get_or answers c false };

    fn passes(&self, c: u8) -> bool {
        self[usize::from(c)]
    }
}

// The first place from `at` on whose byte does not pass the test.
pub fn end_held<T: HeldTest>(bytes: &[u8], at: usize, test: &T) -> usize
    ensures { result ≡ end_of (T.test test.now) bytes.now at }
{
    // Stays a loop by index for the reason of `end_of`, whose body it has.
    let mut i = at;
    while i < bytes.len() && test.passes(bytes[i]) {
        i += 1;
    }
    i
}

// Behind so many bytes that pass the test, or at the first that does not.
pub fn run_held<T: HeldTest>(
    bytes: &[u8],
    at: usize,
    count: usize,
    test: &T,
) -> Result<usize, usize>
    ensures { result ≡ run_of (T.test test.now) count at (drop at bytes.now) }
{
    let passed = rest_of(bytes, at)
        .iter()
        .take(count)
        .take_while(|c| test.passes(**c))
        .count();
    if passed == count {
        Ok(at + passed)
    } else {
        Err(at + passed)
    }
}

#[cfg(test)]
mod tests;
