// The floor of paper 01: its tables, a step and a walk on them, and a picture of it.
use refusal::Refusal;
use std::io;
use step_routing::{Broker, Stepped, Tables};
use walk::Walked;

// "Parents none,0,0,1,1,2,2."
const TREE: [u8; 28] = *b"\xFF\xFF\xFF\xFF\0\0\0\0\0\0\0\0\0\0\0\x01\0\0\0\x01\0\0\0\x02\0\0\0\x02";

// "Services: bench at 1 and 4, log at 0."
const SERVICES: [u8; 96] = *b"\0\0\0\x01\x05bench\0\0\0\0\0\0\0\0\0\0\0\0\0\0\0\0\0\0\0\0\0\0\
    \0\0\0\x04\x05bench\0\0\0\0\0\0\0\0\0\0\0\0\0\0\0\0\0\0\0\0\0\0\
    \0\0\0\0\x03log\0\0\0\0\0\0\0\0\0\0\0\0\0\0\0\0\0\0\0\0\0\0\0\0";

const IDENTITIES: [u8; 259] = *b"00000000-0000-4000-8000-000000000000\0\
    00000000-0000-4000-8000-000000000001\0\
    00000000-0000-4000-8000-000000000002\0\
    00000000-0000-4000-8000-000000000003\0\
    00000000-0000-4000-8000-000000000004\0\
    00000000-0000-4000-8000-000000000005\0\
    00000000-0000-4000-8000-000000000006\0";

// The brokers and their services, and where the bracket goes that opens in front of each.
pub(crate) const PICTURE: [u8; 181] = *b"
                      0  log
            .---------'---------.
            1  bench            2  -
        .---'---.           .---'---.
        3  -    4  bench    5  -    6  -

";

const BRACKETS: [usize; 7] = [22, 75, 95, 146, 154, 166, 174];

// The broker of a rank, which leaves the user of its error replies unknown.
fn broker_of(rank: u32) -> Broker {
    Broker {
        rank,
        userid: 4294967295,
        rolemask: 0,
    }
}

pub(crate) fn step(rank: u32, buffer: &mut [u8]) -> Result<Stepped, Refusal> {
    let t = Tables {
        tree: &TREE,
        services: &SERVICES,
        identities: &IDENTITIES,
    };
    step::step(t, broker_of(rank), buffer)
}

pub(crate) fn walk(rank: u32, buffer: &mut [u8]) -> Walked {
    let t = Tables {
        tree: &TREE,
        services: &SERVICES,
        identities: &IDENTITIES,
    };
    walk::walk(t, broker_of(rank), buffer)
}

// Puts a byte in a place of the picture.
fn put(picture: &mut [u8], at: usize, mark: u8) {
    if let Some(place) = picture.get_mut(at) {
        *place = mark;
    }
}

// Says the rank of a broker behind so many links, and brackets it.
pub(crate) fn visit(rt: &impl Print, picture: &mut [u8], rank: u32, links: u32) -> io::Result<()> {
    let r = rank as usize;
    if 0 < links {
        print!(rt; " > ")?;
    }
    print!(rt; "{r}")?;
    if r < 7 {
        let at = BRACKETS[r];
        if at < 256 {
            put(picture, at, b'[');
            put(picture, at + 2, b']');
        }
    }
    Ok(())
}

// The name in a record of the services.
pub(crate) fn service(number: usize) -> &'static str {
    if number < 2 { "bench" } else { "log" }
}
