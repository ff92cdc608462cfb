// The record that a C program gets of a read: where the message lies, as a row of numbers, four bytes each.
#![tactic(auto)]

ghost use Rattle.std.specs.Prelude.{◌≡◌};
ghost use Rattle.bytes_number.specs.Number.{row_bytes};
ghost use Rattle.bytes_number.specs.WorkingLays.{laid_if_room};
ghost use Rattle.call_read_record.specs.Rows.{read_row};

use frame_layout::Layout;

// Writes a row of numbers to the front of out, four bytes each, if there is room for all of them. Two numbers are one store of eight bytes.
// Stays apart from bytes_number::put_row: with a store for each number reads took 1.03 to 1.11 of the second program's time (bench/README.md).
fn put_pairs(out: &mut [u8], row: &[usize])
    ensures { out.new ≡ laid_if_room (row_bytes row.now) out.old }
{
    if 4 * row.len() <= out.len() {
        let pairs = row.len() / 2;
        for i in 0..pairs {
            bytes_pair::put_pair(&mut out[8 * i..], row[2 * i], row[2 * i + 1]);
        }
        // The last of an odd row.
        if 2 * pairs < row.len() {
            bytes_number::put_number(&mut out[8 * pairs..], row[2 * pairs]);
        }
    }
}

// Lists where a message lies, if there is room for all of it.
pub fn put_frame(row: &mut [u8], f: Layout)
    ensures { row.new ≡ laid_if_room (row_bytes (read_row f)) row.old }
{
    let h = f.header;
    let topic = f.topic;
    let payload = f.payload;
    let numbers = [
        f.taken,
        usize::from(h.kind),
        usize::from(h.flags),
        h.userid as usize,
        h.rolemask as usize,
        h.first as usize,
        h.second as usize,
        f.routes,
        f.route,
        topic.start,
        topic.len,
        payload.start,
        payload.len,
    ];
    put_pairs(row, &numbers);
}
