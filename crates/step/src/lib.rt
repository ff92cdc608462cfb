// The whole step of a broker on a buffer: its tables are checked, and then the message is passed.
#![tactic(auto)]

ghost use Rattle.step_routing.specs.Routed.{tables_in};
ghost use Rattle.step_pass.specs.Step.{step_of};
ghost use Rattle.step_pass.specs.Working.{Makes};

use refusal::Refusal;
use step_routing::{Broker, Stepped, Tables};

// The whole step: 14, 15 and 16 in front. Each table is checked once.
#[tactic(auto, unfolding(step_pass::specs::Step::step_of))]
pub fn step(t: Tables, b: Broker, buffer: &mut [u8]) -> Result<Stepped, Refusal>
    ensures { Makes (step_of (tables_in t.entry) b buffer.old) buffer.old result buffer.new }
{
    if !table_tree_check::is_tree(t.tree) {
        return Err(Refusal::TreeWrong);
    }
    if !table_services_check::are_services(t.tree, t.services) {
        return Err(Refusal::ServicesWrong);
    }
    if !table_identities_check::are_identities(t.tree, t.identities) {
        return Err(Refusal::IdentitiesWrong);
    }
    step_pass::pass(t, b, buffer)
}
