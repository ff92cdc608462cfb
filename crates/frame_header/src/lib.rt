// The header, which is a body's last part: read, and written.
#![tactic(auto)]

ghost use Rattle.std.specs.Prelude.{◌≡◌, ◌≤◌, length};
ghost use Rattle.bytes_number.specs.WorkingLays.{laid_if_room, laid_count};
ghost use Rattle.frame_message.specs.Header.{header_bytes, header_in};
ghost use Rattle.frame_message.specs.Frame.{part_bytes};
ghost use Rattle.frame_message.specs.Reading.{header_or_why};
ghost use Rattle.frame_header.specs.WorkingHead.{test_as, head_as};

use frame_message::Header;
use refusal::Refusal;

// The fields in the 20 bytes of a header.
#[tactic(auto, unfolding(frame_message::specs::Header::header_in))]
fn fields(p: &[u8]) -> Header
    requires { 20 ≤ length p.now }
    ensures { result ≡ header_in p.now }
{
    Header {
        kind: p[2],
        flags: p[3],
        userid: bytes_number::number_at(p, 4),
        rolemask: bytes_number::number_at(p, 8),
        first: bytes_number::number_at(p, 12),
        second: bytes_number::number_at(p, 16),
    }
}

// Whether a part is a header, or why it is none: 6, 20, 21, 22, then 23. Whoever tells a fault needs no fields.
#[tactic(auto, unfolding(frame_message::specs::Reading::header_or_why))]
pub fn test_header(p: &[u8]) -> Result<(), Refusal>
    ensures { result ≡ test_as (header_or_why p.now) }
{
    if p.len() != frame_message::HEADER {
        return Err(Refusal::HeaderWrong);
    }
    if p[0] != frame_message::MAGIC {
        return Err(Refusal::MagicWrong);
    }
    if p[1] != frame_message::VERSION {
        return Err(Refusal::VersionWrong);
    }
    if !frame_header_rules::is_type(p[2]) {
        return Err(Refusal::TypeWrong);
    }
    if !frame_header_rules::are_flags(p[3]) {
        return Err(Refusal::FlagWrong);
    }
    Ok(())
}

// The fields of a header that is right, or why it is wrong.
pub fn read_header(p: &[u8]) -> Result<Header, Refusal>
    ensures { result ≡ head_as (header_or_why p.now) }
{
    test_header(p)?;
    Ok(fields(p))
}

// Writes a header's part to the front of out, if there is room for it, and tells how many bytes it has, or 0: a number, as write_part tells it. The header lies in no slice: its
// twenty bytes, of which the last sixteen are four numbers, stand in an array first.
pub fn write_header(out: &mut [u8], header: Header) -> usize
    ensures value { result ≡ laid_count (part_bytes (header_bytes header)) out.old }
    ensures out_after { out.new ≡ laid_if_room (part_bytes (header_bytes header)) out.old }
{
    let mut held = [0u8; frame_message::HEADER];
    held[0] = frame_message::MAGIC;
    held[1] = frame_message::VERSION;
    held[2] = header.kind;
    held[3] = header.flags;
    let numbers = [
        header.userid as usize,
        header.rolemask as usize,
        header.first as usize,
        header.second as usize,
    ];
    bytes_number::put_row(&mut held[4..], &numbers);
    frame_part_write::write_part(out, &held)
}
