// The services that brokers register: one record of the table.
#![tactic(auto)]

ghost use Rattle.std.specs.Prelude.{◌≡◌, cond, ◌&&◌, eqb, length, get_or};
ghost use Rattle.table_records.specs.Below.{all_below};
ghost use Rattle.table_services.specs.Working.{may_stand};
ghost use Rattle.table_services.specs.Services.{service_width, service_good};

// Bytes a record.
pub const WIDTH: usize = 32;
// Where the name begins.
pub const NAME: usize = 5;
// How many bytes a name has at most.
pub const LONGEST: usize = 27;

// 1 for a byte that may not stand at its place in a record whose name ends in front of `end`: a zero or a period in the name, and anything but a
// zero behind it.
#[tactic(auto, unfolding(crate::specs::Working::may_stand))]
fn stray(x: u8, at: u8, end: u8) -> u8
    ensures { result ≡ cond (may_stand end at x) 0 1 }
{
    if at < 5 {
        0
    } else if at < end {
        if x == 0 {
            1
        } else if x == b'.' {
            1
        } else {
            0
        }
    } else if x != 0 {
        1
    } else {
        0
    }
}

// How many bytes of a record may not stand where they do. They are counted and not searched, over all of the record, so that the compiler can look
// at many at a time, whatever the name's length is.
fn strays(row: &[u8], end: u8) -> u8
    requires { length row.now ≡ service_width }
    ensures { eqb result 0 ≡ all_below service_width (λ at. may_stand end at (get_or row.now at 0)) }
{
    let mut n: u8 = 0;
    for at in 0..WIDTH {
        n += stray(row[at], at as u8, end);
    }
    n
}

// Whether the bytes are a record, and of the form, in a tree of so many ranks.
pub fn is_service(row: &[u8], ranks: usize) -> bool
    ensures { result ≡ (eqb (length row.now) service_width && service_good ranks row.now) }
{
    if row.len() != WIDTH {
        return false;
    }
    let rank = bytes_number::number_at(row, 0);
    if rank as usize >= ranks {
        return false;
    }
    let size = usize::from(row[4]);
    if size < 1 {
        return false;
    }
    if size > LONGEST {
        return false;
    }
    strays(row, (NAME + size) as u8) == 0
}
