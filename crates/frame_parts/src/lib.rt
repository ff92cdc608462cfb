// The parts of a body: how many there are, and where the first empty one and the last begin.
#![tactic(auto)]

ghost use Rattle.std.specs.Prelude.{◌≡◌};
ghost use Rattle.frame_parts.specs.WorkingCounting.{counting_of};

use frame_part_size::size_at;
use refusal::Refusal;

// How many parts there are; how many of them stand in front of the first empty one, all where none is empty, and how many bytes these
// have; and how many bytes stand in front of the last part.
#[derive(Clone, Copy)]
pub struct PartCounts {
    pub count: usize,
    pub empty: usize,
    pub group: usize,
    pub last: usize,
}

// Why the counting stopped, and the byte at which the part begins that stopped it.
#[derive(Clone, Copy)]
pub struct Stop {
    pub why: Refusal,
    pub at: usize,
}

// Whoever does not ask where has the refusal alone.
impl From<Stop> for Refusal {
    ghost from_gives = { λ stop why. why ≡ stop.why };

    fn from(stop: Stop) -> Refusal {
        stop.why
    }
}

// The parts of a body, counted as they come. One more than most is refused before its size is read.
pub fn count_parts(body: &[u8], most: usize) -> Result<PartCounts, Stop>
    ensures { result ≡ counting_of most body.now }
{
    let mut counts = PartCounts {
        count: 0,
        empty: 0,
        group: 0,
        last: 0,
    };
    let mut at = 0;
    // Stays a loop, which breaks with what is told: how far a part reaches is known only once its size is read.
    loop {
        if at == body.len() {
            break Ok(counts);
        }
        if counts.count == most {
            break Err(Stop {
                why: Refusal::PartsMany,
                at,
            });
        }
        let Some(size) = size_at(&body[at..]) else {
            break Err(Stop {
                why: Refusal::PartWrong,
                at,
            });
        };
        let next = at + size.start + size.len;
        // No part was empty so far, and this one is not.
        if counts.empty == counts.count && size.len != 0 {
            counts.empty += 1;
            counts.group = next;
        }
        counts.count += 1;
        counts.last = at;
        at = next;
    }
}
