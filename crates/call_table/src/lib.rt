// The calls that check the floor's tables. Each returns 0 or the refusal's number.
#![tactic(auto)]

ghost use Rattle.std.specs.Prelude.{◌≡◌, ℕ};
ghost use Rattle.refusal.specs.Answer.{Answer, result_of};
ghost use Rattle.table_services.specs.Services;
ghost use Rattle.table_identities.specs.Identities;
ghost use Rattle.call_specs.specs.Calls.{returned, ChecksTree};

use refusal::Refusal;

// Bytes of a record: how many depths there are.
const COUNT_RECORD: usize = 4;

// Checks a tree, writes one depth byte a rank to the front of depths, and lists how many they are.
pub fn check_tree(tree: &[u8], depths: &mut [u8], row: &mut [u8]) -> u32
    ensures { ChecksTree tree.now depths.old row.old result depths.new row.new }
{
    if row.len() < COUNT_RECORD {
        return u32::from(Refusal::OutputShort);
    }
    match table_tree_check::check_tree(tree, depths) {
        Ok(n) => {
            bytes_number::put_row(row, &[n]);
            0
        }
        Err(r) => u32::from(r),
    }
}

// What a check that lists nothing returns.
fn verdict(checked: Result<usize, Refusal>) -> u32
    ensures { (a : Answer ℕ) → checked ≡ result_of (λ n. n) a → result ≡ returned a }
{
    match checked {
        Ok(_) => 0,
        Err(r) => u32::from(r),
    }
}

// Checks the services of a tree.
pub fn check_services(tree: &[u8], services: &[u8]) -> u32
    ensures { result ≡ returned (Services.services_check tree.now services.now) }
{
    verdict(table_services_check::check_services(tree, services))
}

// Checks the identities of a tree's ranks.
pub fn check_identities(tree: &[u8], identities: &[u8]) -> u32
    ensures { result ≡ returned (Identities.identities_check tree.now identities.now) }
{
    verdict(table_identities_check::check_identities(tree, identities))
}
