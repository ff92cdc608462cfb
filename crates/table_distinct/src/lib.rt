// Whether two records of a table are equal, found by a hash: each record is compared with those of its own chain. Where a chain grows long, as in
// no table but one that was made for it, the records are put in order instead.
#![tactic(auto)]

ghost use Rattle.std.specs.Prelude.{◌≡◌, ◌+◌, ◌*◌, ◌%◌, ◌<◌, ◌≤◌, length};
ghost use Rattle.table_records.specs.Records.{most_records};
ghost use Rattle.table_records.specs.Working.{distinct, fresh};
ghost use Rattle.table_distinct.specs.WorkingChains.{stirred, mix_of, hash_of, hash_at, last_below, ChainLinked};
ghost use Rattle.table_distinct.specs.WorkingSeen.{Sees};

use table_records::MOST_RECORDS;

// So many records of a chain are compared. A table that was not made for it has chains of one or two.
const LONGEST: u8 = 8;

// Takes two numbers into a hash. No sum or product wraps, so the remainder is what a machine of 32 bits would give, and costs nothing.
fn stir_in(h: u32, a: u32, b: u32) -> u32
    ensures { result ≡ (h * 2135587861 + a * 1540483477 + b) % 4294967296 }
{
    ((u64::from(h) * 2135587861 + u64::from(a) * 1540483477 + u64::from(b)) % 4294967296) as u32
}

// Takes eight bytes into a hash. The first byte is the lightest: as a machine has it that the library is made for, so that four bytes are one load.
fn stir(h: u32, s: &[u8], at: usize) -> u32
    requires { at + 8 ≤ length s.now }
    ensures { result ≡ stirred h s.now at }
{
    let a = bytes_number::number_of(s[at + 3], s[at + 2], s[at + 1], s[at]);
    let b = bytes_number::number_of(s[at + 7], s[at + 6], s[at + 5], s[at + 4]);
    stir_in(h, a, b)
}

// A number of 32 bits for bytes. Equal bytes have equal numbers, and that is all that is asked of it. The last eight bytes are taken in once more,
// so that there is no rest to go through byte by byte. Fewer than eight bytes, of which no table has its records, are all taken for the same.
fn mix(s: &[u8]) -> u32
    ensures { result ≡ mix_of s.now }
{
    if s.len() < 8 {
        return 0;
    }
    let mut h: u32 = 0;
    for k in 0..s.len() / 8 {
        h = stir(h, s, k * 8);
    }
    stir(h, s, s.len() - 8)
}

// The chain that bytes belong to. There are four times as many as records, so that most of them have one record or none.
fn hash(s: &[u8]) -> usize
    ensures { (result ≡ hash_of s.now) × (result < 4096) }
{
    (mix(s) as u64 * 1540483477 % 4294967296 / 1048576) as usize
}

// What its chain says of a record: that it differs from all before it, that it is equal to one of them, or nothing, since the chain is too long.
#[derive(Drop)]
enum Seen {
    New,
    Twice,
    Crowded,
}

// Looks for record i among those before it. Only those of its own chain are compared: `start` is the last of them plus 1, next[j] the one before j
// plus 1, and 0 ends the chain.
fn look(table: &[u8], width: usize, next: &[u16; MOST_RECORDS], i: usize, start: usize) -> Seen
    requires { (i < most_records) × ChainLinked (hash_at width table.now) next.now i × (start ≡ last_below (hash_at width table.now) i (hash_at width table.now i)) }
    ensures { Sees (fresh width table.now i) result }
{
    let mut at = start;
    let mut left = LONGEST;
    // Stays a walk by numbers along the chain: no heap, so that the links stand in an array.
    while at != 0 {
        if left == 0 {
            return Seen::Crowded;
        }
        let j = at - 1;
        if table_records::record_at(table, width, i) == table_records::record_at(table, width, j) {
            return Seen::Twice;
        }
        at = next[j] as usize;
        left -= 1;
    }
    Seen::New
}

// Whether the table holds n records, at most 1,024 of them, no two of which are equal. head[h] is the last record of the chain h so far, plus 1.
pub fn are_distinct(table: &[u8], width: u8, n: usize) -> bool
    ensures { result ≡ distinct width table.now n }
{
    let size = width as usize;
    if n > MOST_RECORDS {
        return false;
    }
    if n * size > table.len() {
        return false;
    }
    // By the length of the records alone the compiler knows that record i is whole.
    let records = &table[..n * size];
    // Stay two arrays side by side: no heap, and no map without one.
    let mut head = [0u16; 4096];
    let mut next = [0u16; MOST_RECORDS];
    for i in 0..n {
        let h = hash(table_records::record_at(records, size, i));
        let start = head[h];
        let seen = look(records, size, &next, i, start as usize);
        match seen {
            Seen::New => {}
            Seen::Twice => {
                return false;
            }
            Seen::Crowded => {
                return table_distinct_sorted::are_distinct(table, width, n);
            }
        }
        next[i] = start;
        head[h] = (i + 1) as u16;
    }
    true
}
