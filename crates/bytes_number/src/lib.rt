// Bytes: numbers of four bytes, read and written. Every public function is total.
#![tactic(auto)]

ghost use Rattle.std.specs.Prelude.{◌≡◌, ◌∷◌, [], get_or, drop};
ghost use Rattle.bytes_number.specs.Number.{number, four, row_bytes};
ghost use Rattle.bytes_number.specs.WorkingLays.{laid_if_room};

// The number that four bytes are.
pub fn number_of(a: u8, b: u8, c: u8, d: u8) -> u32
    ensures { result ≡ number (a ∷ b ∷ c ∷ d ∷ []) }
{
    u32::from_be_bytes([a, b, c, d])
}

// The byte at a place; 0 behind the end.
pub fn byte_at(bytes: &[u8], at: usize) -> u8
    ensures { result ≡ get_or bytes.now at 0 }
{
    bytes.get(at).copied().unwrap_or(0)
}

// The number that the four bytes at a place are; bytes behind the end count as 0.
pub fn number_at(bytes: &[u8], at: usize) -> u32
    ensures { result ≡ number (drop at bytes.now) }
{
    let rest = bytes.get(at..).unwrap_or(&[]);
    match rest.first_chunk() {
        Some(four) => u32::from_be_bytes(*four),
        None => number_of(byte_at(rest, 0), byte_at(rest, 1), byte_at(rest, 2), 0),
    }
}

// Writes the lowest four bytes of n to the front of out, if there is room for them.
pub fn put_number(out: &mut [u8], n: usize)
    ensures { out.new ≡ laid_if_room (four n) out.old }
{
    if let Some(front) = out.first_chunk_mut() {
        *front = ((n % 4294967296) as u32).to_be_bytes();
    }
}

// Writes a row of numbers to the front of out, four bytes each, if there is room for all of them.
pub fn put_row(out: &mut [u8], row: &[usize])
    ensures { out.new ≡ laid_if_room (row_bytes row.now) out.old }
{
    if 4 * row.len() <= out.len() {
        for (i, &n) in row.iter().enumerate() {
            put_number(&mut out[4 * i..], n);
        }
    }
}
