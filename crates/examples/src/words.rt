// What is asked, and what a walk came to, in words.
use crate::floor;
use refusal::Refusal;
use std::io;
use step_routing::Stepped;
use walk::Walked;

// A nodeid is a target, or upstream the rank that is skipped.
fn target(rt: &impl Print, nodeid: u32, flags: u8) -> io::Result<()> {
    if nodeid == 4294967295 {
        return print!(rt; " for any rank");
    }
    if frame_flags::is_upstream(flags) {
        print!(rt; " upstream, past rank {nodeid}")
    } else {
        print!(rt; " for rank {nodeid}")
    }
}

fn wishes(flags: u8) -> &'static str {
    if frame_flags::no_response(flags) {
        ", no response wanted"
    } else {
        ""
    }
}

// A case's name, what its request asks for, and where it enters.
pub(crate) fn request(
    rt: &impl Print,
    case: &str,
    entry: u32,
    nodeid: u32,
    flags: u8,
    topic: &str,
) -> io::Result<()> {
    print!(rt; "{case}: {topic}")?;
    target(rt, nodeid, flags)?;
    println!(rt; "{}, entry at rank {entry}", wishes(flags))?;
    print!(rt; "    request   ")
}

// What goes home after a request's last step.
pub(crate) fn home(step: &Result<Stepped, Refusal>) -> &'static str {
    match step {
        Ok(Stepped::Replied(_)) => "    reply     ",
        Ok(Stepped::Silenced(_)) => "    nobody replies; a response would go ",
        _ => "    response  ",
    }
}

// What an error's number means.
fn meaning(errnum: u32) -> &'static str {
    match errnum {
        38 => " (no such service)",
        113 => " (no such rank)",
        _ => "",
    }
}

// A step's answer, and where it was made.
fn answer(rt: &impl Print, step: &Result<Stepped, Refusal>, rank: u32) -> io::Result<()> {
    match step {
        Ok(Stepped::Delivered(number)) => print!(rt;
            "delivered at rank {rank}, record {number} ({}),",
            floor::service(*number)
        ),
        Ok(Stepped::Replied(e)) => {
            print!(rt; "error {e}{} at rank {rank}, one reply,", meaning(*e))
        }
        Ok(Stepped::Silenced(e)) => print!(rt; "silenced: error {e}{} at rank {rank}", meaning(*e)),
        Ok(Stepped::Home) => print!(rt; "home at rank {rank}"),
        _ => print!(rt; "stopped at rank {rank}"),
    }
}

// How and where a walk ended, and the links that it crossed.
pub(crate) fn end(rt: &impl Print, w: &Walked) -> io::Result<()> {
    print!(rt; ": ")?;
    answer(rt, &w.step, w.rank)?;
    let n = w.links;
    let links = if n == 1 { "link" } else { "links" };
    println!(rt; " after {n} {links}")
}
