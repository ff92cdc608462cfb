// Why a body is refused whose parts were counted.
ghost use Rattle.std.specs.Prelude.{◌≡◌, true, [], ◌≤◌, length, IfErr};
ghost use Rattle.frame_message.specs.Reading.{final};
ghost use Rattle.frame_message.specs.Working.{is_header};
ghost use Rattle.frame_read.specs.WorkingFront.{Opens};
ghost use Rattle.frame_body.specs.WorkingJudging.{parts_found, CountsOf};
ghost use Rattle.frame_fault.specs.WorkingFaults.{IsRefused, verdict_of};

use frame_body::if_routed;
use frame_header::test_header;
use frame_message::{HEADER_PART, Header, MOST_ROUTES};
use frame_parts::PartCounts;
use refusal::Refusal;

// 7, and 8 of more than 64 routes. The header is right, and of its fields the parts depend on type and flags alone.
fn test_parts(body: &[u8], counts: PartCounts) -> Result<(), Refusal>
    requires body_len_bound { (length body.now ≤ 32768) × CountsOf body.now counts }
    requires body_value { is_header (final [] (parts_found body.now)) ≡ true }
    ensures { IfErr result (IsRefused body.now) }
{
    let last = counts.last;
    let flags = bytes_number::byte_at(body, last + 4);
    let h = Header {
        kind: bytes_number::byte_at(body, last + 3),
        flags,
        userid: 0,
        rolemask: 0,
        first: 0,
        second: 0,
    };
    let routes = if_routed(flags, counts.empty);
    if !frame_body::parts_agree(h, counts.count, routes) {
        return Err(Refusal::PartsDisagree);
    }
    if MOST_ROUTES < routes {
        return Err(Refusal::RouteWrong);
    }
    Ok(())
}

// What needs no look at a part but the last: 6, 20 to 23, 7, and 8 of more than 64 routes.
fn test_last(body: &[u8], counts: PartCounts) -> Result<(), Refusal>
    requires { (length body.now ≤ 32768) × CountsOf body.now counts }
    ensures { IfErr result (IsRefused body.now) }
{
    let last = counts.last;
    if body.len() - last != HEADER_PART {
        return Err(Refusal::HeaderWrong);
    }
    test_header(&body[last + 1..])?;
    test_parts(body, counts)
}

// Why a frame with this body is refused, if it is.
pub(crate) fn why_counted(bytes: &[u8], body: &[u8], counts: PartCounts) -> Result<(), Refusal>
    requires { Opens bytes.now body.now × CountsOf body.now counts }
    ensures { result ≡ verdict_of bytes.now }
{
    test_last(body, counts)?;
    frame_read::read(bytes)?;
    Ok(())
}
