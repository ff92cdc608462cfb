// What the parts of a command are, in the paper's order: 32 and 33, then 34 to 37 by what the command carries.
ghost use Rattle.std.specs.Prelude.{◌≡◌, ◌-◌, ◌≤◌, true, length};
ghost use Rattle.frame_layout.specs.Layout.{stretch_if};
ghost use Rattle.mdp_command.specs.CommandReading.{command_judged};
ghost use Rattle.mdp_command.specs.Working.{command_read_as, parts_there};
ghost use Rattle.mdp_command.specs.WorkingSender.{sender_number};
ghost use Rattle.mdp_rules.specs.WorkingCarried.{named, bodied};
ghost use Rattle.mdp_rules.specs.declared.Carried.TheVariants.{AddressAndBody, Nothing};
ghost use Rattle.mdp_read.specs.WorkingOpening.{CountOf, IsOpened, BodyParts, judged_as};

use crate::open::{code_at, sender_at};
use frame_message::Stretch;
use frame_part_size::size_at;
use mdp_command::{CommandPlaces, START, Sender};
use mdp_rules::Carried;
use refusal::Refusal;

// How many parts stand in front of a body: the mark and the number, with a name or with an address and the separator.
const BARE: usize = 2;

const NAMED: usize = 3;

const ADDRESSED: usize = 4;

// The size of an address; where its data lies, the separator and the body behind them.
const ADDRESS_SIZE: u8 = 37;

const ADDRESS: usize = 10;

const SEPARATOR: usize = 47;

const WORK_BODY: usize = 48;

// Where a part lies that the command lacks.
const NOWHERE: Stretch = Stretch { start: 0, len: 0 };

// A command in its bytes, which are so many parts. The first two told the sender and the number.
#[derive(Clone, Copy)]
struct Opened<'a> {
    bytes: &'a [u8],
    count: usize,
    sender: Sender,
    code: u8,
    carried: Carried,
}

impl Opened<'_> {
    // 34: how many parts the body has, behind so many in front of it.
    fn body_parts(&self, front: usize) -> Result<usize, Refusal>
        requires { IsOpened self.now }
        ensures { BodyParts self.now front result }
    {
        if self.count < front {
            return Err(Refusal::PartCountWrong);
        }
        let parts = self.count - front;
        if !self.carried.body_fits(parts) {
            return Err(Refusal::PartCountWrong);
        }
        Ok(parts)
    }

    // The places of a command whose body, if it has one, begins behind so many bytes.
    fn placed(&self, name: Stretch, address: usize, front: usize, parts: usize) -> CommandPlaces
        requires { front ≤ length self.now.bytes.now }
        ensures { result ≡ record { sender = sender_number self.now.sender; code = self.now.code; name = name; address = address; body = stretch_if (bodied self.now.carried) front (length self.now.bytes.now - front); parts = parts } }
    {
        CommandPlaces {
            sender: u8::from(self.sender),
            code: self.code,
            name,
            address,
            body: Stretch {
                start: if self.carried.has_body() { front } else { 0 },
                len: self.bytes.len() - front,
            },
            parts,
        }
    }

    // 34 and 35, with a name, which is the third part.
    fn named(&self) -> Result<CommandPlaces, Refusal>
        requires opened { IsOpened self.now }
        requires has_name { named self.now.carried ≡ true }
        ensures { result ≡ judged_as self.now }
    {
        let parts = self.body_parts(NAMED)?;
        let size = size_at(&self.bytes[START..]).ok_or(Refusal::NameWrong)?;
        let start = START + size.start;
        let next = start + size.len;
        if !mdp_name::is_name(&self.bytes[start..next]) {
            return Err(Refusal::NameWrong);
        }
        Ok(self.placed(
            Stretch {
                start,
                len: size.len,
            },
            0,
            next,
            parts,
        ))
    }

    // 34, 36 and 37, with an address, which is the third part; the separator is the fourth.
    fn addressed(&self) -> Result<CommandPlaces, Refusal>
        requires opened { IsOpened self.now }
        requires has_address { self.now.carried ≡ AddressAndBody }
        ensures { result ≡ judged_as self.now }
    {
        let parts = self.body_parts(ADDRESSED)?;
        if self.bytes[START] != ADDRESS_SIZE {
            return Err(Refusal::AddressWrong);
        }
        if !frame_forms::is_route(&self.bytes[ADDRESS..SEPARATOR]) {
            return Err(Refusal::AddressWrong);
        }
        if self.bytes[SEPARATOR] != 0 {
            return Err(Refusal::SeparatorWrong);
        }
        Ok(self.placed(NOWHERE, ADDRESS, WORK_BODY, parts))
    }

    // 34, of a command that is its mark and its number.
    fn bare(&self) -> Result<CommandPlaces, Refusal>
        requires opened { IsOpened self.now }
        requires has_nothing { self.now.carried ≡ Nothing }
        ensures { result ≡ judged_as self.now }
    {
        let parts = self.body_parts(BARE)?;
        Ok(self.placed(NOWHERE, 0, self.bytes.len(), parts))
    }

    // 34 to 37.
    fn places(&self) -> Result<CommandPlaces, Refusal>
        requires { IsOpened self.now }
        ensures { result ≡ judged_as self.now }
    {
        match self.carried {
            Carried::NameAndBody | Carried::Name => self.named(),
            Carried::AddressAndBody => self.addressed(),
            Carried::Nothing => self.bare(),
        }
    }
}

// 32 and 33, and then the rest, of bytes that are so many parts.
pub(crate) fn judge(bytes: &[u8], count: usize) -> Result<CommandPlaces, Refusal>
    requires { CountOf bytes.now count }
    ensures { result ≡ command_read_as (command_judged (parts_there bytes.now)) }
{
    let sender = sender_at(bytes).ok_or(Refusal::MarkWrong)?;
    let code = code_at(bytes).ok_or(Refusal::CommandWrong)?;
    let carried = Carried::of(sender, code)?;
    let opened = Opened {
        bytes,
        count,
        sender,
        code,
        carried,
    };
    opened.places()
}
