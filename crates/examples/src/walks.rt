// The walks of paper 01's last table, and three upstream: each request goes by steps and by the walk call, and a response comes home the same two ways.
use crate::{floor, print, words};
use frame_message::{FRONT, Header, Kind, Stretch};
use frame_write_given::Draft;
use refusal::Refusal;
use std::io;
use step_routing::Stepped;
use walk::Walked;

// "any"
const ANY: u32 = 4294967295;

// A request's flags, 01 and 08; with 10 upstream; with 04 noresponse.
const PLAIN: u8 = 0x09;

const UPSTREAM: u8 = 0x19;

const NORESPONSE: u8 = 0x0D;

// No walk crosses more.
const MOST_LINKS: u32 = 64;

// A buffer that a walk takes.
type Buffer = [u8; 32776];

// The header of a message from nobody that is known, with matchtag 1.
fn header(kind: Kind, flags: u8, first: u32) -> Header {
    Header {
        kind: u8::from(kind),
        flags,
        userid: 4294967295,
        rolemask: 0,
        first,
        second: 1,
    }
}

// Steps from a broker on, until one does something else than forward. Says and brackets the brokers.
fn go(rt: &impl Print, entry: u32, picture: &mut [u8], buffer: &mut [u8]) -> io::Result<Walked> {
    let mut rank = entry;
    for links in 0..MOST_LINKS {
        floor::visit(rt, picture, rank, links)?;
        let step = floor::step(rank, buffer);
        let Ok(Stepped::Forwarded(next)) = step else {
            return Ok(Walked { step, rank, links });
        };
        rank = next;
    }
    Ok(Walked {
        step: Err(Refusal::ForwardLong),
        rank,
        links: MOST_LINKS,
    })
}

// Says how the steps ended, and whether the walk call ended otherwise or left other bytes.
fn tell(
    rt: &impl Print,
    stepped: Walked,
    walked: Walked,
    buffer: &[u8],
    copy: &[u8],
) -> io::Result<()> {
    words::end(rt, &stepped)?;
    if stepped == walked && buffer == copy {
        return Ok(());
    }
    println!(rt; "*** THE STEPS AND THE WALK CALL DIFFER ***")
}

// Takes the message in buffer as far as it goes, by steps, and a copy of it by the walk call.
fn travel(
    rt: &impl Print,
    entry: u32,
    picture: &mut [u8],
    buffer: &mut Buffer,
) -> io::Result<Walked> {
    let mut copy = *buffer;
    let walked = floor::walk(entry, &mut copy);
    let stepped = go(rt, entry, picture, buffer)?;
    tell(rt, stepped, walked, buffer, &copy)?;
    Ok(stepped)
}

// How many bytes of the body come up to a topic's end, the zero byte there with them.
fn front_of(topic: Stretch) -> usize {
    if FRONT <= topic.start && topic.start <= frame_message::MOST_BODY && topic.len <= 255 {
        topic.start - FRONT + topic.len + 1
    } else {
        0
    }
}

fn front_in(frame: &[u8]) -> usize {
    frame_read::read(frame).map_or(0, |f| front_of(f.topic))
}

// Makes a response of the request at rest, with its routes, topic and matchtag.
fn respond(buffer: &mut [u8]) {
    let front = front_in(buffer);
    frame_rewrite::put_header(buffer, front, header(Kind::Response, PLAIN, 0));
}

// What goes home from where a request ended: the error reply, or a response that is made there.
fn begin_home(rt: &impl Print, end: Walked, buffer: &mut [u8]) -> io::Result<()> {
    print!(rt; "{}", words::home(&end.step))?;
    if let Ok(Stepped::Replied(_)) = end.step {
        return Ok(());
    }
    respond(buffer);
    Ok(())
}

// The request in buffer there, and its response back.
fn there_and_back(
    rt: &impl Print,
    entry: u32,
    picture: &mut [u8],
    buffer: &mut Buffer,
) -> io::Result<()> {
    let end = travel(rt, entry, picture, buffer)?;
    begin_home(rt, end, buffer)?;
    travel(rt, end.rank, picture, buffer)?;
    Ok(())
}

// Both ways, and the picture of them.
fn draw(rt: &impl Print, entry: u32, buffer: &mut Buffer) -> io::Result<()> {
    let mut picture = floor::PICTURE;
    there_and_back(rt, entry, &mut picture, buffer)?;
    rt.write_all(&picture)
}

fn show(
    rt: &impl Print,
    case: &str,
    entry: u32,
    nodeid: u32,
    flags: u8,
    topic: &str,
) -> io::Result<()> {
    words::request(rt, case, entry, nodeid, flags, topic)?;
    let mut buffer = [0u8; 32776];
    let draft = Draft {
        header: header(Kind::Request, flags, nodeid),
        routes: b"",
        topic: topic.as_bytes(),
        payload: b"",
    };
    if let Err(why) = frame_write::write(&draft, &mut buffer) {
        return print::refused(rt, why);
    }
    draw(rt, entry, &mut buffer)
}

pub(crate) fn show_all(rt: &impl Print) -> io::Result<()> {
    let bench = "bench.run";
    show(rt, "W1", 3, ANY, PLAIN, bench)?;
    show(rt, "W2", 4, ANY, PLAIN, bench)?;
    show(rt, "W3", 5, ANY, PLAIN, bench)?;
    show(rt, "W4", 5, ANY, PLAIN, "log")?;
    show(rt, "W5", 6, 4, PLAIN, bench)?;
    show(rt, "W6", 3, 5, PLAIN, bench)?;
    show(rt, "W7", 3, 7, PLAIN, bench)?;
    show(rt, "W8", 4, 4, UPSTREAM, bench)?;
    show(rt, "W9", 0, 0, UPSTREAM, "log.put")?;
    show(rt, "W10", 3, ANY, PLAIN, "benchmark.run")?;
    show(rt, "W11", 5, ANY, NORESPONSE, bench)?;
    // Upstream, the rank that the nodeid names is skipped: no other, and wherever it stands on the way.
    show(rt, "U1", 4, 5, UPSTREAM, bench)?;
    show(rt, "U2", 3, 1, UPSTREAM, bench)?;
    show(rt, "U3", 0, 7, UPSTREAM, "log.put")
}
