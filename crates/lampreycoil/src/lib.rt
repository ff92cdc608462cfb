// The library that a C program links. Every call takes numbers and byte slices, returns 0 or the refusal's number, and lists its
// answer as a row of four-byte numbers in a lent slice. include/lampreycoil.h declares them for C.
#![tactic(auto)]

ghost use Rattle.std.specs.Prelude.{◌≡◌};
ghost use Rattle.frame_message.specs.Writing.{given_message};
ghost use Rattle.table_services.specs.Services;
ghost use Rattle.table_identities.specs.Identities;
ghost use Rattle.step_routing.specs.Routed.{tables_of};
ghost use Rattle.call_specs.specs.FaultCalls.{ReadsFault};
ghost use Rattle.call_specs.specs.JsonCalls.{ChecksJson};
ghost use Rattle.call_specs.specs.CommandCalls.{ReadsCommand, WritesCommand};
ghost use Rattle.mdp_command.specs.CommandWriting.{given_of};
ghost use Rattle.call_specs.specs.Calls.{returned, Reads, header_of, Writes, ReadsStream, ChecksTree, host_broker, Steps, Plays};

use step_routing::Tables;

// Reads the frame at the front of bytes, and lists where its parts lie.
#[unsafe(no_mangle)]
pub extern "C" fn lampreycoil_read(bytes: &[u8], row: &mut [u8]) -> u32
    ensures { Reads bytes.now row.old result row.new }
{
    call_frame::read(bytes, row)
}

// Tells what is wrong with the frame at the front of bytes: lists the number that a read of it returns, and the byte at fault.
#[unsafe(no_mangle)]
pub extern "C" fn lampreycoil_read_fault(bytes: &[u8], row: &mut [u8]) -> u32
    ensures { ReadsFault bytes.now row.old result row.new }
{
    call_fault::read_fault(bytes, row)
}

// Writes a message's frame to the front of out, and lists its length. The header's fields come one by one, in the header's order.
#[unsafe(no_mangle)]
pub extern "C" fn lampreycoil_write(
    kind: u8,
    flags: u8,
    userid: u32,
    rolemask: u32,
    first: u32,
    second: u32,
    routes: &[u8],
    topic: &[u8],
    payload: &[u8],
    out: &mut [u8],
    row: &mut [u8],
) -> u32
    ensures { Writes (given_message (header_of kind flags userid rolemask first second) routes.now topic.now payload.now) out.old row.old result out.new row.new }
{
    call_frame::write(
        kind, flags, userid, rolemask, first, second, routes, topic, payload, out, row,
    )
}

// Lists start and length of each whole frame in bytes, and in the record how many they are, which refusal stopped it and where.
#[unsafe(no_mangle)]
pub extern "C" fn lampreycoil_read_stream(bytes: &[u8], list: &mut [u8], row: &mut [u8]) -> u32
    ensures { ReadsStream bytes.now list.old row.old result list.new row.new }
{
    call_stream::read_stream(bytes, list, row)
}

// Checks a tree, writes one depth byte a rank to the front of depths, and lists how many they are.
#[unsafe(no_mangle)]
pub extern "C" fn lampreycoil_check_tree(tree: &[u8], depths: &mut [u8], row: &mut [u8]) -> u32
    ensures { ChecksTree tree.now depths.old row.old result depths.new row.new }
{
    call_table::check_tree(tree, depths, row)
}

// Checks the services of a tree.
#[unsafe(no_mangle)]
pub extern "C" fn lampreycoil_check_services(tree: &[u8], services: &[u8]) -> u32
    ensures { result ≡ returned (Services.services_check tree.now services.now) }
{
    call_table::check_services(tree, services)
}

// Checks the identities of a tree's ranks.
#[unsafe(no_mangle)]
pub extern "C" fn lampreycoil_check_identities(tree: &[u8], identities: &[u8]) -> u32
    ensures { result ≡ returned (Identities.identities_check tree.now identities.now) }
{
    call_table::check_identities(tree, identities)
}

// Makes one broker's step with the frame at the front of buffer, and lists what came of it.
#[unsafe(no_mangle)]
pub extern "C" fn lampreycoil_step(
    tree: &[u8],
    services: &[u8],
    identities: &[u8],
    rank: u32,
    buffer: &mut [u8],
    row: &mut [u8],
) -> u32
    ensures { Steps (tables_of tree.now services.now identities.now) (host_broker rank) buffer.old row.old result buffer.new row.new }
{
    let t = Tables {
        tree,
        services,
        identities,
    };
    call_step::steps::step(t, rank, buffer, row)
}

// Plays a walk that begins at a rank with the frame at the front of buffer, and lists what it came to, a refusal too.
#[unsafe(no_mangle)]
pub extern "C" fn lampreycoil_walk(
    tree: &[u8],
    services: &[u8],
    identities: &[u8],
    rank: u32,
    buffer: &mut [u8],
    row: &mut [u8],
) -> u32
    ensures { Plays (tables_of tree.now services.now identities.now) (host_broker rank) buffer.old row.old result buffer.new row.new }
{
    let t = Tables {
        tree,
        services,
        identities,
    };
    call_step::walks::walk(t, rank, buffer, row)
}

// Says whether a payload is JSON, and lists the answer and the byte that tells against it.
#[unsafe(no_mangle)]
pub extern "C" fn lampreycoil_check_json(payload: &[u8], row: &mut [u8]) -> u32
    ensures { ChecksJson payload.now row.old result row.new }
{
    call_json::check_json(payload, row)
}

// Reads the Majordomo command that the bytes are, and lists where its parts lie.
#[unsafe(no_mangle)]
pub extern "C" fn lampreycoil_read_command(bytes: &[u8], row: &mut [u8]) -> u32
    ensures { ReadsCommand bytes.now row.old result row.new }
{
    call_mdp::read_command(bytes, row)
}

// Writes a Majordomo command to the front of out, and lists how many bytes it has.
#[unsafe(no_mangle)]
pub extern "C" fn lampreycoil_write_command(
    sender: u8,
    command: u8,
    name: &[u8],
    address: &[u8],
    body: &[u8],
    out: &mut [u8],
    row: &mut [u8],
) -> u32
    ensures { WritesCommand (given_of sender command name.now address.now body.now) out.old row.old result out.new row.new }
{
    call_mdp::write_command(sender, command, name, address, body, out, row)
}
