// The claims on the path that a request takes, for every slice and number that a call can get. Each theorem is the postcondition of an empty function.
#![tactic(auto)]

ghost use Rattle.walk_path.specs.WorkingLeading.{IsFollowed};
ghost use Rattle.walk_path.specs.Walks.{WalksAreRight};

use frame_message::Header;

// In a right tree the brokers of a path, each by its own step, send the request along it, and the last ends it as the path does.
pub fn is_followed(tree: &[u8], services: &[u8], entry: u32, header: Header, topic: &[u8])
    ensures { IsFollowed tree.now services.now entry header topic.now }
{}

// The paths on the example floor end as its table of walks says.
pub fn walks_are_right()
    ensures { WalksAreRight }
{}
