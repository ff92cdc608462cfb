// Where a broker sends a response. Nothing here looks at a frame, and every table may hold any bytes.
#![tactic(auto)]

ghost use Rattle.std.specs.Prelude.{◌≡◌};
ghost use Rattle.table_identities.specs.Identities.{broker_of};
ghost use Rattle.step_routing.specs.Responses.{towards_broker};

use refusal::Refusal;
use step_routing::Tables;
use table_records::MOST_RECORDS;

// Where the broker of a rank sends a response with this top route: to a rank, or to none where it is home. What is found behind 1,024 identities is no
// rank of any tree.
pub fn response_way(t: Tables, rank: u32, top: &[u8]) -> Result<Option<u32>, Refusal>
    ensures { result ≡ towards_broker t.entry.tree.now rank (broker_of t.entry.identities.now top.now) }
{
    match table_identities::find_broker(t.identities, top) {
        None => Ok(None),
        Some(broker)
            if broker < MOST_RECORDS
                && table_tree_hops::is_neighbour(t.tree, rank, broker as u32) => {
            Ok(Some(broker as u32))
        }
        Some(_) => Err(Refusal::NoNeighbour),
    }
}
