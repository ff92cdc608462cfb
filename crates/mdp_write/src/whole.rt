// A whole command: what stands in front of its body, and the body as it was given. Each helper is lent the rest of the output, lays its parts over
// the front of that and tells how many bytes they are, so that the next helper can be lent what follows.
ghost use Rattle.std.specs.Prelude.{◌≡◌, ◌++◌, ◌≤◌, length};
ghost use Rattle.bytes_number.specs.Laid.{laid};
ghost use Rattle.bytes_number.specs.WorkingLays.{Lays};
ghost use Rattle.frame_message.specs.Frame.{joined};
ghost use Rattle.mdp_command.specs.CommandBytes.{mark_of, address_parts};
ghost use Rattle.mdp_rules.specs.WorkingCarried.{CarriedBy};
ghost use Rattle.mdp_write.specs.WorkingFront.{front_in};

use frame_part_write::{write_part, write_part_if};
use mdp_command::Command;
use mdp_rules::Carried;

// The address, where there is one, and the separator behind it, which is a part with no data.
fn write_address(out: &mut [u8], given: bool, address: &[u8]) -> usize
    requires { length (joined (address_parts given address.now)) ≤ length out.old }
    ensures { Lays (joined (address_parts given address.now)) out.old out.new result }
{
    if given {
        let at = write_part(out, address);
        at + write_part(&mut out[at..], &[])
    } else {
        0
    }
}

// The mark, which is the sender's, the number, and what follows of name or address.
fn write_front(out: &mut [u8], mark: &[u8], carried: Carried, command: &Command) -> usize
    requires mark_value { mark.now ≡ mark_of command.now.sender }
    requires carried_value { CarriedBy command.now.sender command.now.code carried }
    requires address_in_bounds { length (joined (front_in command.now)) ≤ length out.old }
    ensures { Lays (joined (front_in command.now)) out.old out.new result }
{
    let named = carried.has_name();
    let addressed = carried.has_address();
    let code_at = write_part(out, mark);
    let name_at = code_at + write_part(&mut out[code_at..], &[command.code]);
    let address_at = name_at + write_part_if(&mut out[name_at..], named, command.name);
    address_at + write_address(&mut out[address_at..], addressed, command.address)
}

// All of it. A command without a body has nothing to copy behind what stands in front.
pub(crate) fn write_whole(out: &mut [u8], mark: &[u8], carried: Carried, command: &Command)
    requires mark_value { mark.now ≡ mark_of command.now.sender }
    requires carried_value { CarriedBy command.now.sender command.now.code carried }
    requires body_in_bounds { length (joined (front_in command.now) ++ command.now.body.now) ≤ length out.old }
    ensures { out.new ≡ laid (joined (front_in command.now) ++ command.now.body.now) out.old }
{
    let at = write_front(out, mark, carried, command);
    if 0 < command.body.len() {
        bytes_copy::copy(command.body, &mut out[at..]);
    }
}
