// A step's and a walk's answer as the row of numbers that a C program gets.
#![tactic(auto)]

ghost use Rattle.std.specs.Prelude.{◌≡◌};
ghost use Rattle.call_step_record.specs.Steps.{step_row, last_row};
ghost use Rattle.call_step_record.specs.WorkingRows.{refusal_in, walk_row};

use refusal::Refusal;
use step_routing::Stepped;
use walk::Walked;

// The number of a step's refusal, or 0.
pub fn refusal_in(s: Result<Stepped, Refusal>) -> u32
    ensures { result ≡ refusal_in s }
{
    s.err().map_or(0, |why| u32::from(why))
}

// A step as four numbers: the answer, its record or rank, its error, and the length that the frame now has.
pub fn step_row(s: Stepped, size: usize) -> [usize; 4]
    ensures { result ≡ step_row s size }
{
    match s {
        Stepped::Delivered(number) => [1, number, 0, size],
        Stepped::Forwarded(next) => [2, next as usize, 0, size],
        Stepped::Replied(errnum) => [3, 0, errnum as usize, size],
        Stepped::Silenced(errnum) => [4, 0, errnum as usize, size],
        Stepped::Home => [5, 0, 0, size],
    }
}

// A step that may be refused as four numbers: a refusal has none of them.
pub fn last_row(s: Result<Stepped, Refusal>, size: usize) -> [usize; 4]
    ensures { result ≡ last_row s size }
{
    match s {
        Ok(step) => step_row(step, size),
        Err(_) => [0; 4],
    }
}

// A walk as six numbers: the last step's four, which are 0 for a refusal, the rank at which it rests, and the links crossed.
pub fn walk_row(w: Walked, size: usize) -> [usize; 6]
    ensures { result ≡ walk_row w size }
{
    let four = last_row(w.step, size);
    [
        four[0],
        four[1],
        four[2],
        four[3],
        w.rank as usize,
        w.links as usize,
    ]
}
