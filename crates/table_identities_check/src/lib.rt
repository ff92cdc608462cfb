// The check of the table of identities.
#![tactic(auto)]

ghost use Rattle.std.specs.Prelude.{◌≡◌, ◌/◌, length};
ghost use Rattle.frame_forms.specs.Forms.{route_length, is_route};
ghost use Rattle.refusal.specs.Answer.{result_of};
ghost use Rattle.table_records.specs.Below.{all_below};
ghost use Rattle.table_identities.specs.Identities.{identity_at, identities_good, identities_check};

use frame_forms::ROUTE;
use refusal::Refusal;

// Whether every record is of a route's form.
fn are_routes(identities: &[u8]) -> bool
    ensures { result ≡ all_below (length identities.now / route_length) (λ rank. is_route (identity_at identities.now rank)) }
{
    let (routes, _) = identities.as_chunks::<ROUTE>();
    routes.iter().all(|route| frame_forms::is_route(route))
}

// Whether the bytes are the identities of a tree's ranks.
pub fn are_identities(tree: &[u8], identities: &[u8]) -> bool
    ensures { result ≡ identities_good tree.now identities.now }
{
    let n = table_tree::ranks_in(tree);
    if n > table_records::MOST_RECORDS {
        return false;
    }
    if identities.len() != n * ROUTE {
        return false;
    }
    if !are_routes(identities) {
        return false;
    }
    table_distinct::are_distinct(identities, ROUTE as u8, n)
}

// The identity check: 14, then 16, or how many identities there are.
pub fn check_identities(tree: &[u8], identities: &[u8]) -> Result<usize, Refusal>
    ensures { result ≡ result_of (λ n. n) (identities_check tree.now identities.now) }
{
    if !table_tree_check::is_tree(tree) {
        return Err(Refusal::TreeWrong);
    }
    if !are_identities(tree, identities) {
        return Err(Refusal::IdentitiesWrong);
    }
    Ok(table_tree::ranks_in(tree))
}
