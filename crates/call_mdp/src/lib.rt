// The calls that read and write a Majordomo command. Each returns 0 or the refusal's number, and lists its answer as a row of four-byte numbers in a lent
// slice.
#![tactic(auto)]

ghost use Rattle.std.specs.Prelude.{◌≡◌};
ghost use Rattle.bytes_number.specs.Number.{row_bytes};
ghost use Rattle.bytes_number.specs.WorkingLays.{laid_if_room};
ghost use Rattle.call_specs.specs.CommandCalls.{command_row, ReadsCommand, WritesCommand};
ghost use Rattle.mdp_command.specs.CommandWriting.{given_of};

use mdp_command::{Command, CommandPlaces};
use refusal::Refusal;

// Bytes of a record: eight numbers of a read, and how many bytes were written.
const COMMAND_RECORD: usize = 32;

const COUNT_RECORD: usize = 4;

// Lists where a command lies, if there is room for all of it.
fn put_places(row: &mut [u8], f: CommandPlaces)
    ensures { row.new ≡ laid_if_room (row_bytes (command_row f)) row.old }
{
    let numbers = [
        usize::from(f.sender),
        usize::from(f.code),
        f.name.start,
        f.name.len,
        f.address,
        f.body.start,
        f.body.len,
        f.parts,
    ];
    bytes_number::put_row(row, &numbers);
}

// Reads the command that the bytes are, and lists where its parts lie.
pub fn read_command(bytes: &[u8], row: &mut [u8]) -> u32
    ensures { ReadsCommand bytes.now row.old result row.new }
{
    if row.len() < COMMAND_RECORD {
        return u32::from(Refusal::OutputShort);
    }
    match mdp_read::read_command(bytes) {
        Ok(f) => {
            put_places(row, f);
            0
        }
        Err(why) => u32::from(why),
    }
}

// Writes a command to the front of out, and lists how many bytes it has.
pub fn write_command(
    sender: u8,
    code: u8,
    name: &[u8],
    address: &[u8],
    body: &[u8],
    out: &mut [u8],
    row: &mut [u8],
) -> u32
    ensures { WritesCommand (given_of sender code name.now address.now body.now) out.old row.old result out.new row.new }
{
    if row.len() < COUNT_RECORD {
        return u32::from(Refusal::OutputShort);
    }
    let command = Command {
        sender,
        code,
        name,
        address,
        body,
    };
    match mdp_write::write_command(&command, out) {
        Ok(n) => {
            bytes_number::put_row(row, &[n]);
            0
        }
        Err(r) => u32::from(r),
    }
}
