// Whether two records of a table are equal, found by putting them in order. However the records are made, each is compared with at most
// eleven others: this is for tables that were made to be slow where records are told apart by a hash.
#![tactic(auto)]

ghost use Rattle.std.specs.Prelude.{◌≡◌, ◌+◌, ◌*◌, ◌<◌, ◌≤◌, length};
ghost use Rattle.table_records.specs.Records.{most_records, record_at};
ghost use Rattle.table_records.specs.Working.{distinct};
ghost use Rattle.table_distinct_sorted.specs.WorkingOrder.{Ordered, Placed, Inserted};

use table_records::MOST_RECORDS;

// How many of the first i records stand before record i: `order` has their numbers, in the records' order, and it is halved at each turn.
fn place(table: &[u8], width: usize, order: &[u16; MOST_RECORDS], i: usize) -> usize
    requires { (i < most_records) × (i * width + width ≤ length table.now) × Ordered (record_at width table.now) order.now i }
    ensures { Placed (record_at width table.now) order.now i result }
{
    // Stays a search by hand, since `partition_point` would want the law that the order is parted at record i beside those on the order.
    let mut low = 0;
    let mut high = i;
    while low < high {
        let middle = low + (high - low) / 2;
        let record = table_records::record_at(table, width, order[middle] as usize);
        let compared = record.cmp(&table_records::record_at(table, width, i));
        if compared.is_lt() {
            low = middle + 1;
        } else {
            high = middle;
        }
    }
    low
}

// Puts a number at a place among the first n, and those from there on one place further back.
fn insert(order: &mut [u16; MOST_RECORDS], n: usize, at: usize, number: u16)
    requires { (at ≤ n) × (n < most_records) × (length order.old ≡ most_records) }
    ensures { Inserted order.old order.new n at number }
{
    for j in (at..n).rev() {
        order[j + 1] = order[j];
    }
    order[at] = number;
}

// Whether the table holds n records, at most 1,024 of them, no two of which are equal.
pub fn are_distinct(table: &[u8], width: u8, n: usize) -> bool
    ensures { result ≡ distinct width table.now n }
{
    let width = width as usize;
    if n > MOST_RECORDS {
        return false;
    }
    if n * width > table.len() {
        return false;
    }
    // By the length of the records alone the compiler knows that record i is whole.
    let records = &table[..n * width];
    // Stays an array whose first i numbers count: no heap.
    let mut order = [0u16; MOST_RECORDS];
    for i in 0..n {
        let at = place(records, width, &order, i);
        if at < i {
            let j = order[at] as usize;
            if table_records::record_at(records, width, i)
                == table_records::record_at(records, width, j)
            {
                return false;
            }
        }
        insert(&mut order, i, at, i as u16);
    }
    true
}
