// Many frames in one read: the single reader, called again on what remains. It lists where each whole frame lies, and copies nothing of them.
#![tactic(auto)]

ghost use Rattle.std.specs.Prelude.{◌≡◌, ◌/◌, length};
ghost use Rattle.frame_stream.specs.Stream.{entry_size, stream_from, stream_of};
ghost use Rattle.frame_stream.specs.WorkingStream.{Streams};

use refusal::Refusal;

// Bytes past these count as absent.
const MOST_INPUT: usize = 1048576;

// Bytes of an entry in the list: a frame's start and its length.
const ENTRY: usize = 8;

// How many frames are listed, the refusal that stopped it, and where the frame starts at which it stopped.
#[derive(Drop)]
pub struct Stopped {
    pub entries: usize,
    pub refusal: Refusal,
    pub start: usize,
}

// Lists the frames of an input of any length. Where the list is full, 11 comes only at a frame that is good.
fn frames_in(bytes: &[u8], list: &mut [u8]) -> Stopped
    ensures { Streams (stream_from (length list.old / entry_size) 0 bytes.now) list.old result list.new }
{
    let mut start = 0;
    let mut entries = 0;
    let mut used = 0;
    // Stays a loop: it ends at the reader's refusal, wherever in the bytes that comes.
    loop {
        match frame_read::read(&bytes[start..]) {
            Err(refusal) => {
                break Stopped {
                    entries,
                    refusal,
                    start,
                };
            }
            Ok(f) => {
                if list.len() - used < ENTRY {
                    break Stopped {
                        entries,
                        refusal: Refusal::OutputShort,
                        start,
                    };
                }
                bytes_pair::put_pair(&mut list[used..], start, f.taken);
                used += ENTRY;
                entries += 1;
                start += f.taken;
            }
        }
    }
}

// Lists start and length of each whole frame in bytes, one behind another, until the first refusal; the input's end is one too.
pub fn list_frames(bytes: &[u8], list: &mut [u8]) -> Stopped
    ensures { Streams (stream_of (length list.old) bytes.now) list.old result list.new }
{
    let end = bytes.len().min(MOST_INPUT);
    frames_in(&bytes[..end], list)
}
