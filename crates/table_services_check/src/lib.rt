// The check of the table of services.
#![tactic(auto)]

ghost use Rattle.std.specs.Prelude.{◌≡◌};
ghost use Rattle.refusal.specs.Answer.{result_of};
ghost use Rattle.table_services.specs.Services.{services_good, services_check};

use refusal::Refusal;
use table_services::WIDTH;

// Whether the bytes are the services of a tree.
pub fn are_services(tree: &[u8], services: &[u8]) -> bool
    ensures { result ≡ services_good tree.now services.now }
{
    let (records, rest) = services.as_chunks::<WIDTH>();
    if records.len() > table_records::MOST_RECORDS {
        return false;
    }
    if !rest.is_empty() {
        return false;
    }
    let ranks = table_tree::ranks_in(tree);
    if !records
        .iter()
        .all(|row| table_services::is_service(row, ranks))
    {
        return false;
    }
    table_distinct::are_distinct(services, WIDTH as u8, records.len())
}

// The service check: 14, then 15, or how many records there are.
// Stays apart from check_identities: what they share is one test and its refusal.
pub fn check_services(tree: &[u8], services: &[u8]) -> Result<usize, Refusal>
    ensures { result ≡ result_of (λ n. n) (services_check tree.now services.now) }
{
    if !table_tree_check::is_tree(tree) {
        return Err(Refusal::TreeWrong);
    }
    if !are_services(tree, services) {
        return Err(Refusal::ServicesWrong);
    }
    Ok(services.len() / WIDTH)
}
