// One record of a table; and how many bytes in front of two slices are equal, which no call comes to.
#![tactic(auto)]

ghost use Rattle.std.specs.Prelude.{◌≡◌};
ghost use Rattle.table_records.specs.Records.{record_at};
ghost use Rattle.table_records.specs.Working.{equal_in_fours};

// The most records that a table has: ranks, services or identities.
pub const MOST_RECORDS: usize = 1024;

// The record with the number i, counted from 0, or what the table has of it. In a loop that ends at `table.len() / width` the compiler drops the tests.
pub fn record_at(table: &[u8], width: usize, i: usize) -> &[u8]
    ensures { result.now ≡ record_at width table.now i }
{
    if width == 0 {
        return &table[..0];
    }
    let n = table.len() / width;
    if i < n {
        let at = i * width;
        return &table[at..at + width];
    }
    if i == n {
        let at = i * width;
        return &table[at..];
    }
    &table[..0]
}

// How many bytes in front of two slices are surely equal: four at a time, up to the first four in which they differ, or to the end of either.
pub fn equal_front(a: &[u8], b: &[u8]) -> usize
    ensures { result ≡ equal_in_fours a.now b.now }
{
    let (groups, _) = a.as_chunks::<4>();
    let (others, _) = b.as_chunks::<4>();
    let equal = groups
        .iter()
        .zip(others.iter())
        .take_while(|pair| pair.0 == pair.1)
        .count();
    4 * equal
}
