// A part written: its size, and its data behind that.
#![tactic(auto)]

ghost use Rattle.std.specs.Prelude.{◌≡◌};
ghost use Rattle.frame_message.specs.Frame.{part_bytes, joined, part_if};
ghost use Rattle.bytes_number.specs.WorkingLays.{laid_count, laid_if_room};

use frame_part_size::LONG;

// Writes a part to the front of out, if there is room for it, and tells how many bytes it took; where there is none it tells 0. So the next
// part can be lent what follows.
// Stays a number and no Option, which is no plainer here: each caller knows that there is room, and adds the numbers up.
pub fn write_part(out: &mut [u8], data: &[u8]) -> usize
    ensures value { result ≡ laid_count (part_bytes «data».now) out.old }
    ensures out_after { out.new ≡ laid_if_room (part_bytes «data».now) out.old }
{
    let n = data.len();
    if n < LONG {
        if out.len() < n + 1 {
            return 0;
        }
        out[0] = n as u8;
        bytes_copy::copy(data, &mut out[1..]);
        return n + 1;
    }
    if out.len() < n + 5 {
        return 0;
    }
    out[0] = LONG as u8;
    bytes_number::put_number(&mut out[1..], n);
    bytes_copy::copy(data, &mut out[5..]);
    n + 5
}

// Writes a part where it is given, if there is room for it, and tells how many bytes it took: none
// where it is not.
pub fn write_part_if(out: &mut [u8], given: bool, data: &[u8]) -> usize
    ensures value { result ≡ laid_count (joined (part_if given «data».now)) out.old }
    ensures out_after { out.new ≡ laid_if_room (joined (part_if given «data».now)) out.old }
{
    if given { write_part(out, data) } else { 0 }
}
