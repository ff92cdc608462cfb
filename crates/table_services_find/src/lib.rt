// The service that a topic names, and the record of the table that registers it.
#![tactic(auto)]

ghost use Rattle.std.specs.Prelude.{◌≡◌};
ghost use Rattle.table_services_find.specs.Lookup.{service_of, registers, registered_as};

use table_services::{NAME, WIDTH};

// The service that a topic names: all before the first period, or all of it.
pub fn service_of(topic: &[u8]) -> &[u8]
    ensures { result.now ≡ service_of topic.now }
{
    match topic.iter().position(|byte| *byte == b'.') {
        Some(end) => &topic[..end],
        None => topic,
    }
}

// Whether a record registers a service at a rank: its name is the whole service, which is not cut to match.
fn is_registered(row: &[u8; WIDTH], rank: u32, service: &[u8]) -> bool
    ensures { result ≡ registers row.now rank service.now }
{
    if service.is_empty() {
        return false;
    }
    if bytes_number::number_at(row, 0) != rank {
        return false;
    }
    if usize::from(row[4]) != service.len() {
        return false;
    }
    row[NAME..].starts_with(service)
}

// The record that registers a service at a rank, if there is one.
pub fn find_service(services: &[u8], rank: u32, service: &[u8]) -> Option<usize>
    ensures { result ≡ registered_as services.now rank service.now }
{
    let (records, _) = services.as_chunks::<WIDTH>();
    records
        .iter()
        .position(|row| is_registered(row, rank, service))
}
