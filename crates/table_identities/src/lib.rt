// The brokers' identities: that of a rank, and the rank whose identity a route is.
#![tactic(auto)]

ghost use Rattle.std.specs.Prelude.{◌≡◌};
ghost use Rattle.table_identities.specs.Identities.{identity_at, same_identity, broker_of};

use frame_forms::ROUTE;

// The identity of any rank, or what the table has of it.
pub fn identity_of(identities: &[u8], rank: u32) -> &[u8]
    ensures { result.now ≡ identity_at identities.now rank }
{
    table_records::record_at(identities, ROUTE, rank as usize)
}

// Whether two routes are the same identity.
pub fn is_same(a: &[u8], b: &[u8]) -> bool
    ensures { result ≡ same_identity a.now b.now }
{
    a == b
}

// The rank whose identity a route is, if there is one.
pub fn find_broker(identities: &[u8], route: &[u8]) -> Option<usize>
    ensures { result ≡ broker_of identities.now route.now }
{
    let (brokers, _) = identities.as_chunks::<ROUTE>();
    brokers.iter().position(|identity| is_same(identity, route))
}
