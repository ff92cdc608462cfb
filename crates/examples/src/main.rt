// Runs the bytes that paper 01 gives to be reproduced, and prints them.
#![tactic(auto)]

use frame_message::{Header, Kind, Stretch};
use frame_write_given::Draft;
use print::Hex;
use refusal::Refusal;
use std::io;

mod floor;
mod print;
mod walks;
mod words;

// A request for "log" to any rank, with matchtag 1 and no routes; flags 09, or 0B with a payload.
fn log_request(flags: u8) -> Header {
    Header {
        kind: u8::from(Kind::Request),
        flags,
        userid: 4294967295,
        rolemask: 0,
        first: 4294967295,
        second: 1,
    }
}

// Prints a frame of n bytes, and what it is read as.
fn show_frame(rt: &impl Print, out: &[u8], n: usize) -> io::Result<()> {
    if let Some(bytes) = out.get(..n) {
        println!(rt; "  {}", Hex { bytes })?;
        print!(rt; "  read back: ")?;
        print::reading(rt, frame_read::read(out))?;
    }
    Ok(())
}

// A message without routes.
fn draft<'a>(header: Header, topic: &'a [u8], payload: &'a [u8]) -> Draft<'a> {
    Draft {
        header,
        routes: b"",
        topic,
        payload,
    }
}

// Writes a message, prints its frame, and reads it again.
fn show_message(rt: &impl Print, header: Header, topic: &[u8]) -> io::Result<()> {
    let mut out = [0u8; 64];
    match frame_write::write(&draft(header, topic, b""), &mut out) {
        Err(why) => print::refused(rt, why),
        Ok(n) => show_frame(rt, &out, n),
    }
}

// Writes the request for "log" with a payload.
fn write_log(payload: &[u8], out: &mut [u8]) -> Result<usize, Refusal> {
    frame_write::write(&draft(log_request(11), b"log", payload), out)
}

// Writes that request, and says how long the frame is.
fn show_limit(rt: &impl Print, payload: &[u8], out: &mut [u8]) -> io::Result<()> {
    print!(rt; "  {} bytes of payload: ", payload.len())?;
    print::written(rt, write_log(payload, out))
}

// The bytes between the topic and the payload: the payload's size.
fn print_size(rt: &impl Print, frame: &[u8], topic: Stretch, end: usize) -> io::Result<()> {
    if topic.len < end && topic.start <= end - topic.len - 1 {
        let start = topic.start + topic.len + 1;
        if let Some(bytes) = frame.get(start..end) {
            print!(rt; "{}", Hex { bytes })?;
        }
    }
    Ok(())
}

// Reads a frame and prints its payload's size. Says where the payload starts.
fn read_size(rt: &impl Print, frame: &[u8]) -> io::Result<usize> {
    match frame_read::read(frame) {
        Err(_) => Ok(0),
        Ok(f) => {
            let start = f.payload.start;
            print_size(rt, frame, f.topic, start)?;
            Ok(start)
        }
    }
}

// Writes the request with some payload and prints the payload's size. Says where the payload starts.
fn show_size(rt: &impl Print, payload: &[u8], out: &mut [u8]) -> io::Result<usize> {
    print!(rt; "  {} bytes of data have the size ", payload.len())?;
    if let Err(why) = write_log(payload, out) {
        print::refused(rt, why)?;
        return Ok(0);
    }
    let start = read_size(rt, out)?;
    println!(rt)?;
    Ok(start)
}

// Puts 254 in front of a place.
fn spoil(out: &mut [u8], place: usize) {
    if 0 < place && place <= out.len() {
        out[place - 1] = 254;
    }
}

fn show_sizes(rt: &impl Print) -> io::Result<()> {
    let payload = [0u8; 255];
    let mut out = [0u8; 512];
    show_size(rt, &payload[..254], &mut out)?;
    let start = show_size(rt, &payload, &mut out)?;
    spoil(&mut out, start);
    print!(rt; "  the size FF 00 00 00 FE: ")?;
    print::reading(rt, frame_read::read(&out))
}

fn control() -> Header {
    Header {
        kind: u8::from(Kind::Control),
        flags: 0,
        userid: 4294967295,
        rolemask: 0,
        first: 2,
        second: 3,
    }
}

fn show_messages(rt: &impl Print) -> io::Result<()> {
    println!(rt; "A control message, type 2, status 3, user unknown")?;
    show_message(rt, control(), b"")?;
    println!(rt; "A request for \"log\", any rank, matchtag 1, no routes")?;
    show_message(rt, log_request(9), b"log")
}

fn show_limits(rt: &impl Print) -> io::Result<()> {
    println!(rt; "That request with a payload")?;
    let payload = [0u8; 32737];
    let mut out = [0u8; 32776];
    show_limit(rt, &payload[..32736], &mut out)?;
    show_limit(rt, &payload, &mut out)
}

fn main(rt: HostRuntime) -> io::Result<()> {
    show_messages(&rt)?;
    show_limits(&rt)?;
    println!(&rt; "A part's size")?;
    show_sizes(&rt)?;
    println!(&rt;
        "Walks, each by steps and by the walk call; the brokers that it visits are in brackets"
    )?;
    walks::show_all(&rt)
}
