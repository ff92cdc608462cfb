// How bytes, and what the reader and the writer answered, are printed.
use frame_layout::Layout;
use refusal::Refusal;
use std::{fmt, io};

// Bytes as two digits each, with a space between them.
#[derive(Drop)]
pub(crate) struct Hex<'a> {
    pub bytes: &'a [u8],
}

impl fmt::Display for Hex<'_> {
    fn fmt<W: fmt::Write>(&self, f: &mut fmt::Formatter<W>) -> fmt::Result {
        let mut space = "";
        for byte in self.bytes {
            write!(f, "{space}{byte:02X}")?;
            space = " ";
        }
        Ok(())
    }
}

pub(crate) fn refused(rt: &impl Print, r: Refusal) -> io::Result<()> {
    println!(rt; "refused, {}", u32::from(r))
}

fn frame(rt: &impl Print, f: Layout) -> io::Result<()> {
    let h = f.header;
    println!(rt;
        "type {}, flags {}, userid {}, rolemask {}, fields {} and {}",
        h.kind, h.flags, h.userid, h.rolemask, h.first, h.second
    )?;
    println!(rt;
        "             routes {}, topic of {} bytes at {}, payload of {}, {} bytes in all",
        f.routes, f.topic.len, f.topic.start, f.payload.len, f.taken
    )
}

pub(crate) fn reading(rt: &impl Print, r: Result<Layout, Refusal>) -> io::Result<()> {
    match r {
        Err(why) => refused(rt, why),
        Ok(f) => frame(rt, f),
    }
}

// What the writer answered.
pub(crate) fn written(rt: &impl Print, w: Result<usize, Refusal>) -> io::Result<()> {
    match w {
        Err(why) => refused(rt, why),
        Ok(n) => println!(rt; "a frame of {n} bytes"),
    }
}
