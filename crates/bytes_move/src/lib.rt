// Bytes moved within a lent buffer, and a buffer cleared.
#![tactic(auto)]

ghost use Rattle.std.specs.Prelude.{◌≡◌, ◌+◌, ◌≤◌, length};
ghost use Rattle.bytes_move.specs.WorkingMoved.{moved, moved_if_room, zeros};

// How many bytes are moved at the most: as many as a body has.
const MOST: usize = 32768;

// Moves bytes through an array of its own: whether the two places overlap then does not matter, and
// the compiler makes one move of memory of the two copies.
fn move_block(buffer: &mut [u8], from: usize, to: usize, n: usize)
    requires { (n ≤ 32768) × (from + n ≤ length buffer.old) × (to + n ≤ length buffer.old) }
    ensures { buffer.new ≡ moved from to n buffer.old }
{
    let mut held = [0u8; MOST];
    held[..n].copy_from_slice(&buffer[from..from + n]);
    buffer[to..to + n].copy_from_slice(&held[..n]);
}

// Moves n bytes from one place of a buffer to another, if they are at most 32,768 and both places lie
// in the buffer.
pub fn move_within(buffer: &mut [u8], from: usize, to: usize, n: usize)
    ensures { buffer.new ≡ moved_if_room from to n buffer.old }
{
    let len = buffer.len();
    if n <= MOST && n <= len && from <= len - n && to <= len - n {
        move_block(buffer, from, to, n);
    }
}

// Clears a buffer.
pub fn clear(buffer: &mut [u8])
    ensures { buffer.new ≡ zeros buffer.old }
{
    buffer.fill(0);
}
