// The claims, for every slice and number that a call can get. Each theorem is the postcondition of an empty function, whose parameters are those of the
// call that it is about. So the premises of a law, that bytes are below 256 and that a field has four bytes, are met here once and for all.
#![tactic(auto)]

ghost use Rattle.bytes_number.specs.Number.{Bytes};
ghost use Rattle.call_specs.specs.Calls.{header_of};
ghost use Rattle.claim_frames.specs.Frames.{RecordHoldsMessage, AcceptedIsWrittenBack, WrittenIsReadBack};
ghost use Rattle.claim_faults.specs.Faults.{FaultIsTold};
ghost use Rattle.claim_json.specs.Json.{JsonIsTheGrammar};
ghost use Rattle.claim_mdp.specs.Commands.{RecordHoldsCommand, ReadIsWrittenBack, GivenIsReadBack, NeverBoth, AnyNumberOfParts};
ghost use Rattle.mdp_command.specs.CommandWriting.{given_of};
ghost use Rattle.claim_frames.specs.Streams.{StreamIsTheInput};
ghost use Rattle.claim_tables.specs.Trees.{TreeIsChecked};
ghost use Rattle.claim_tables.specs.Ways.{EveryWay};
ghost use Rattle.claim_steps.specs.Steps.{StepsByTheRules};
ghost use Rattle.claim_steps.specs.Rules.{RequestsByTheRules, ResponsesByTheRules, OthersByTheRules, NoOtherAnswer, OnlySilence};
ghost use Rattle.step_routing.specs.Messages.{owner_of};
ghost use Rattle.step_routing.specs.Routed.{tables_of};
ghost use Rattle.claim_walks.specs.Demand3.{DemandThree};
ghost use Rattle.claim_walks.specs.Corollaries.{EveryReplyComesHome, AtMost32Links, EveryWalkIsRun};
ghost use Rattle.claim_walks.specs.Upstream.{UpstreamSkips};
ghost use Rattle.claim_walks.specs.Walks.{WalksOfTheTable};

use frame_message::Header;
use step_routing::Broker;

// Takes any slice.
fn lend(_bytes: &[u8]) {}

// What stands in a slice of bytes is below 256: the prover says so of a slice that is lent on.
fn are_bytes(bytes: &[u8])
    ensures { Bytes bytes.now }
{
    lend(bytes);
}

// A read's record says where the message lies.
pub fn record_holds_message(bytes: &[u8])
    ensures { RecordHoldsMessage bytes.now }
{
    are_bytes(bytes);
}

// Every frame that is accepted is written back as the same bytes.
pub fn accepted_is_written_back(bytes: &[u8])
    ensures { AcceptedIsWrittenBack bytes.now }
{
    are_bytes(bytes);
}

// Every message that is written is read back as the same message.
pub fn written_is_read_back(
    kind: u8,
    flags: u8,
    userid: u32,
    rolemask: u32,
    first: u32,
    second: u32,
    routes: &[u8],
    topic: &[u8],
    payload: &[u8],
)
    ensures { WrittenIsReadBack (header_of kind flags userid rolemask first second) routes.now topic.now payload.now }
{}

// The frames that a stream lists, one after another, are its input up to the stop.
pub fn stream_is_the_input(bytes: &[u8])
    ensures { StreamIsTheInput bytes.now }
{
    are_bytes(bytes);
}

// The number of a fault is what a read returns, and its byte is the place that goes with it, by the parts of the frame.
pub fn fault_is_told(bytes: &[u8])
    ensures { FaultIsTold bytes.now }
{
    are_bytes(bytes);
}

// The JSON check says yes of the payloads that the grammar allows, and tells the grammar's places.
pub fn json_is_the_grammar(payload: &[u8])
    ensures { JsonIsTheGrammar payload.now }
{}

// The record of a command's read says where the command lies.
pub fn record_holds_command(bytes: &[u8])
    ensures { RecordHoldsCommand bytes.now }
{
    are_bytes(bytes);
}

// Every command that is read is written back as the same bytes.
pub fn read_command_is_written_back(bytes: &[u8])
    ensures { ReadIsWrittenBack bytes.now }
{
    are_bytes(bytes);
}

// Every command that is written is read back as the same fields.
pub fn written_command_is_read_back(sender: u8, code: u8, name: &[u8], address: &[u8], body: &[u8])
    ensures { GivenIsReadBack (given_of sender code name.now address.now body.now) }
{
    are_bytes(body);
}

// No bytes are a client's and a worker's command both.
pub fn never_both_senders(bytes: &[u8])
    ensures { NeverBoth bytes.now }
{
    are_bytes(bytes);
}

// 30 comes where a frame's body has 4: there may be as many parts as bytes, and so never one too many.
pub fn any_number_of_parts(bytes: &[u8])
    ensures { AnyNumberOfParts bytes.now }
{
    are_bytes(bytes);
}

// The tree check accepts the trees that the paper's sentence accepts, and writes their depths.
pub fn tree_is_checked(tree: &[u8])
    ensures { TreeIsChecked tree.now }
{}

// From each rank of a right tree the hops lead to every other, over the lowest common ancestor.
pub fn every_way(tree: &[u8])
    ensures { EveryWay tree.now }
{}

// A step call on a buffer that holds a message does what the rules of a step say, and nothing else.
pub fn steps_by_the_rules(
    tree: &[u8],
    services: &[u8],
    identities: &[u8],
    userid: u32,
    rolemask: u32,
    rank: u32,
    buffer: &[u8],
)
    ensures { StepsByTheRules (tables_of tree.now services.now identities.now) (owner_of userid rolemask) rank buffer.now }
{
    are_bytes(buffer);
}

// What a step makes of a valid request: delivered, forwarded, 12, or an error with its reply or silence, each exactly in its case.
pub fn requests_by_the_rules(tree: &[u8], services: &[u8], identities: &[u8], broker: Broker)
    ensures { RequestsByTheRules (tables_of tree.now services.now identities.now) broker }
{}

// What a step makes of a valid response: home, forwarded, or 19, each exactly in its case.
pub fn responses_by_the_rules(tree: &[u8], services: &[u8], identities: &[u8], broker: Broker)
    ensures { ResponsesByTheRules (tables_of tree.now services.now identities.now) broker }
{}

// 18 comes exactly of an event or a control message, whatever the tables.
pub fn others_by_the_rules(tree: &[u8], services: &[u8], identities: &[u8], broker: Broker)
    ensures { OthersByTheRules (tables_of tree.now services.now identities.now) broker }
{}

// The rules leave no choice.
pub fn no_other_answer(tree: &[u8], services: &[u8], identities: &[u8], broker: Broker)
    ensures { NoOtherAnswer (tables_of tree.now services.now identities.now) broker }
{}

// Noresponse makes silence of a reply and changes nothing else, whatever the tables and the message.
pub fn only_silence(tree: &[u8], services: &[u8], identities: &[u8], broker: Broker)
    ensures { OnlySilence (tables_of tree.now services.now identities.now) broker }
{}

// Demand 3: a request's walk along its path, and the walk home of every response to it, by steps and by the walk call.
pub fn demand_three(
    tree: &[u8],
    services: &[u8],
    identities: &[u8],
    userid: u32,
    rolemask: u32,
    entry: u32,
    buffer: &[u8],
    back: &[u8],
)
    ensures { DemandThree (tables_of tree.now services.now identities.now) (owner_of userid rolemask) entry buffer.now back.now }
{
    are_bytes(buffer);
    are_bytes(back);
}

// An error reply that is left at rest comes home.
pub fn every_reply_comes_home(
    tree: &[u8],
    services: &[u8],
    identities: &[u8],
    userid: u32,
    rolemask: u32,
    entry: u32,
    buffer: &[u8],
)
    ensures { EveryReplyComesHome (tables_of tree.now services.now identities.now) (owner_of userid rolemask) entry buffer.now }
{
    are_bytes(buffer);
}

// No request that meets the premises of demand 3 crosses more than 32 links.
pub fn at_most_32_links(tree: &[u8], services: &[u8], identities: &[u8], entry: u32, buffer: &[u8])
    ensures { AtMost32Links (tables_of tree.now services.now identities.now) entry buffer.now }
{}

// Whatever the tables and the buffer hold, a walk is its steps one after another, and ends otherwise than with a message that goes on.
pub fn every_walk_is_run(tree: &[u8], services: &[u8], identities: &[u8], b: Broker, buffer: &[u8])
    ensures { EveryWalkIsRun (tables_of tree.now services.now identities.now) b buffer.now }
{
    are_bytes(buffer);
}

// Upstream, the broker that the nodeid names is skipped, and no other.
pub fn upstream_skips(tree: &[u8], services: &[u8], entry: u32, header: Header, topic: &[u8])
    ensures { UpstreamSkips tree.now services.now entry header topic.now }
{}

// The walks of the example floor's table, as the walk call reports them and as the steps end them.
pub fn walks_of_the_table(userid: u32, rolemask: u32)
    ensures { WalksOfTheTable (owner_of userid rolemask) }
{}
