// A frame changed where it lies: a part put in front of its body, bytes taken from there, or the end of its body replaced by a header. Behind the
// new frame everything is cleared, to the end of the buffer.
#![tactic(auto)]

ghost use Rattle.std.specs.Prelude.{◌≡◌, ◌+◌, ◌≤◌, ◌<◌, length};
ghost use Rattle.frame_rewrite.specs.WorkingRenewed.{body_in, renewed, with_part, without_front, with_header};

use frame_message::{FRONT, HEADER_PART, Header, MOST_BODY, START};

// The eight bytes in front of a body that is in its place, and zeros behind it.
fn renew(buffer: &mut [u8], size: usize)
    requires { (8 + size ≤ length buffer.old) × (size < 4294967296) }
    ensures { buffer.new ≡ renewed (body_in size buffer.old) buffer.old }
{
    bytes_number::put_row(buffer, &[START as usize, size]);
    let end = FRONT + size;
    bytes_move::clear(&mut buffer[end..]);
}

// Puts a part of less than 255 bytes in front of a body of so many bytes, if there is room for it.
pub fn put_part(buffer: &mut [u8], size: usize, part: &[u8])
    ensures { buffer.new ≡ with_part part.now size buffer.old }
{
    let n = part.len();
    if n < 255 && size <= MOST_BODY && FRONT + 1 + n + size <= buffer.len() {
        let at = FRONT + 1 + n;
        bytes_move::move_within(buffer, FRONT, at, size);
        frame_part_write::write_part(&mut buffer[FRONT..], part);
        renew(buffer, 1 + n + size);
    }
}

// Takes the first n bytes from a body of so many bytes.
pub fn take_front(buffer: &mut [u8], n: usize, size: usize)
    ensures { buffer.new ≡ without_front n size buffer.old }
{
    if size <= MOST_BODY && n <= size && FRONT + size <= buffer.len() {
        let left = size - n;
        bytes_move::move_within(buffer, FRONT + n, FRONT, left);
        renew(buffer, left);
    }
}

// Puts a header behind the first so many bytes of a body, if there is room for it.
pub fn put_header(buffer: &mut [u8], size: usize, header: Header)
    ensures { buffer.new ≡ with_header header size buffer.old }
{
    if size <= MOST_BODY && FRONT + size + HEADER_PART <= buffer.len() {
        let end = FRONT + size;
        frame_header::write_header(&mut buffer[end..], header);
        renew(buffer, size + HEADER_PART);
    }
}
