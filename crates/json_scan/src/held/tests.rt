// A closure that may be called, by the table of its answers: whatever test it is, its end and its run are found.

ghost use Rattle.std.specs.Prelude.{◌≡◌, ℕ, Bool, false, ◌<◌, ltb, get_or, drop, replicate};
ghost use Rattle.json_scan.specs.Scan.{Class, holds};
ghost use Rattle.json_scan.specs.WorkingEnds.{end_of, rest_end};

use super::{HeldTest, end_held, run_held};

fn answers_of<F: Fn(u8) -> bool>(passes: F) -> [bool; 256]
    requires { F.IsAlwaysCallable passes }
    ensures { (c : ℕ) → c < 256 → F.post passes c (get_or result c false) }
{
    let mut answers = [false; 256];
    for i in 0..256 {
        answers[i] = passes(i as u8);
    }
    answers
}

fn end_by_table<F: Fn(u8) -> bool>(bytes: &[u8], at: usize, passes: F) -> usize
    requires { F.IsAlwaysCallable passes }
    ensures { (test : ℕ → Bool) → ((c : ℕ) (b : Bool) → F.post passes c b → b ≡ test c) → result ≡ end_of test bytes.now at }
{
    end_held(bytes, at, &answers_of(passes))
}

fn run_by_table<F: Fn(u8) -> bool>(
    bytes: &[u8],
    at: usize,
    count: usize,
    passes: F,
) -> Result<usize, usize>
    requires { F.IsAlwaysCallable passes }
    ensures { (k : Class) → ((c : ℕ) (b : Bool) → F.post passes c b → b ≡ holds k c) → result ≡ rest_end (replicate count k) at (drop at bytes.now) }
{
    run_held(bytes, at, count, &answers_of(passes))
}

// A test that holds a number: what is below it passes.
struct Below(u8);

impl HeldTest for Below {
    ghost test = { λ bound c. ltb c bound.0 };

    fn passes(&self, c: u8) -> bool {
        c < self.0
    }
}

#[test]
fn by_a_value(rt: HostRuntime) {
    let bytes = [1, 2, 3, 9, 1];
    assert_eq!(rt; end_held(&bytes, 1, &Below(3)), 2);
    assert_eq!(rt; end_held(&bytes, 4, &Below(3)), 5);
    assert_eq!(rt; end_held(&bytes, 7, &Below(3)), 7);
    assert_eq!(rt; run_held(&bytes, 0, 2, &Below(3)), Ok(2));
    assert_eq!(rt; run_held(&bytes, 0, 3, &Below(3)), Err(2));
    assert_eq!(rt; run_held(&bytes, 4, 2, &Below(3)), Err(5));
    assert_eq!(rt; run_held(&bytes, 9, 0, &Below(3)), Ok(9));
}

#[test]
fn by_a_closure(rt: HostRuntime) {
    let bytes = [250, 251, 255, 0, 249];
    for (least, end) in [(249, 3), (251, 0), (250, 3), (0, 5)] {
        assert_eq!(rt; end_by_table(&bytes, 0, |c| c >= least), end);
    }
    for (least, run) in [(249, Ok(3)), (252, Err(1))] {
        assert_eq!(rt; run_by_table(&bytes, 1, 2, |c| c >= least), run);
    }
}
