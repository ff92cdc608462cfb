// Two numbers of four bytes as one of eight, which is one store: for rows that are long, or many.
#![tactic(auto)]

ghost use Rattle.std.specs.Prelude.{◌≡◌, ◌++◌, ◌+◌, ◌*◌, ◌/◌, ◌%◌};
ghost use Rattle.bytes_number.specs.Number.{four};
ghost use Rattle.bytes_number.specs.WorkingLays.{laid_if_room};

// Writes the eight bytes of w to the front of out, if there is room for them.
fn put_eight(out: &mut [u8], w: usize)
    ensures { out.new ≡ laid_if_room (four (w / 4294967296) ++ four w) out.old }
{
    if let Some(front) = out.first_chunk_mut() {
        *front = w.to_be_bytes();
    }
}

// The lowest four bytes of m, and then those of n, as one number. Stays a function of its own: in one
// with put_eight the compiler makes 31 instructions and not 22.
fn joined(m: usize, n: usize) -> usize
    ensures { result ≡ m % 4294967296 * 4294967296 + n % 4294967296 }
{
    m % 4294967296 * 4294967296 + n % 4294967296
}

// Writes the lowest four bytes of m, and then those of n, if there is room for all eight.
pub fn put_pair(out: &mut [u8], m: usize, n: usize)
    ensures { out.new ≡ laid_if_room (four m ++ four n) out.old }
{
    put_eight(out, joined(m, n));
}
