// Where a broker sends a request. Nothing here looks at a frame, and every table may hold any bytes.
#![tactic(auto)]

ghost use Rattle.std.specs.Prelude.{false, ◌≡◌};
ghost use Rattle.step_routing.specs.Requests.{registered, deliver_or, to_parent, upwards, to_rank, request_way};

use frame_message::Header;
use step_routing::{Tables, Way};

// The nodeid of any rank. Stays a number, as the two below: they stand in messages, and the
// definitions of specs/Requests.antt name them.
const ANY_RANK: u32 = 4294967295;
// No service: Linux's number for a function that is not implemented.
const NO_SERVICE: u32 = 38;
// No such rank: Linux's number for a host that cannot be reached.
const HOST_UNREACHABLE: u32 = 113;

// Delivered where this rank registers the topic's service, else what else is to be done.
fn deliver_or(services: &[u8], rank: u32, topic: &[u8], other: Way) -> Way
    ensures { result ≡ deliver_or (registered services.now rank topic.now) other }
{
    let service = table_services_find::service_of(topic);
    let found = table_services_find::find_service(services, rank, service);
    found.map_or(other, Way::Deliver)
}

// To the parent, and an error at rank 0.
fn to_parent(tree: &[u8], rank: u32) -> Way
    ensures { result ≡ to_parent tree.now rank }
{
    if rank == 0 {
        return Way::Fail(NO_SERVICE);
    }
    Way::Forward(table_tree::parent_of(tree, rank))
}

// Delivered where this rank registers the service, else to the parent.
fn upwards(t: Tables, rank: u32, topic: &[u8]) -> Way
    ensures { result ≡ upwards t.entry.tree.now t.entry.services.now rank topic.now false }
{
    deliver_or(t.services, rank, topic, to_parent(t.tree, rank))
}

// To the rank that is named: delivered there or an error; else to the next broker on the way.
fn to_rank(t: Tables, rank: u32, nodeid: u32, topic: &[u8]) -> Way
    ensures { result ≡ to_rank t.entry.tree.now t.entry.services.now rank nodeid topic.now }
{
    if nodeid as usize >= table_tree::ranks_in(t.tree) {
        return Way::Fail(HOST_UNREACHABLE);
    }
    if nodeid == rank {
        return deliver_or(t.services, rank, topic, Way::Fail(NO_SERVICE));
    }
    Way::Forward(table_tree_hops::next_hop(t.tree, rank, nodeid))
}

// Where the broker of a rank sends a request with this header and topic.
#[tactic(auto, unfolding(step_routing::specs::Requests::request_way))]
pub fn request_way(t: Tables, rank: u32, header: Header, topic: &[u8]) -> Way
    ensures { result ≡ request_way t.entry.tree.now t.entry.services.now rank header topic.now }
{
    if header.first == ANY_RANK {
        return upwards(t, rank, topic);
    }
    if !frame_flags::is_upstream(header.flags) {
        return to_rank(t, rank, header.first, topic);
    }
    // upstream the broker that the nodeid names is skipped, and no other
    if rank == header.first {
        return to_parent(t.tree, rank);
    }
    upwards(t, rank, topic)
}
