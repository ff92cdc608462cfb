// The form of a service name.
#![tactic(auto)]

ghost use Rattle.std.specs.Prelude.{◌≡◌};
ghost use Rattle.mdp_command.specs.Command.{all_printable, is_command_name, is_printable};

// Whether a name may have this byte.
fn is_printable(x: u8) -> bool
    ensures { result ≡ is_printable x }
{
    32 <= x && x <= 126
}

// Whether a name may have all of these. No byte ends the look at the others, so that the compiler can take several at a time.
#[tactic(auto, using(crate::proofs::Names::one_more))]
fn all_printable(s: &[u8]) -> bool
    ensures { result ≡ all_printable s.now }
{
    let mut fits = true;
    for x in s {
        fits &= is_printable(*x);
    }
    fits
}

// Whether s is a name.
#[tactic(auto, unfolding(mdp_command::specs::Command::is_command_name))]
pub fn is_name(s: &[u8]) -> bool
    ensures { result ≡ is_command_name s.now }
{
    if s.is_empty() {
        return false;
    }
    if 255 < s.len() {
        return false;
    }
    all_printable(s)
}
