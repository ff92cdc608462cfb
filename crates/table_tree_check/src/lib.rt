// The check of a tree: whether its bytes are one, and then the depths of its ranks.
#![tactic(auto)]

ghost use Rattle.std.specs.Prelude.{◌≡◌, ◌≤◌, length};
ghost use Rattle.table_records.specs.Records.{most_records};
ghost use Rattle.table_tree.specs.Depths.{depth_of, tree_good};
ghost use Rattle.refusal.specs.Answer.{written_over, result_of};
ghost use Rattle.table_tree_check.specs.Working.{Shallow, Finds};
ghost use Rattle.table_tree_check.specs.Checking.{depths_into};

use refusal::Refusal;
use table_records::MOST_RECORDS;

// The depth of a rank, where `depths` has those of the ranks below it. A rank whose parent is among them needs no climb.
fn depth_after(tree: &[u8], depths: &[u8], rank: u32) -> u8
    requires { (rank ≤ length depths.now) × Shallow tree.now depths.now rank }
    ensures { result ≡ depth_of tree.now rank }
{
    let parent = table_tree::parent_of(tree, rank);
    if parent < rank {
        depths[parent as usize] + 1
    } else {
        table_tree::depth_of(tree, rank)
    }
}

// Whether the bytes are a tree, and then the depths of all its ranks, in an array that has room for as many as a tree can have.
fn find_depths(tree: &[u8], depths: &mut [u8]) -> bool
    requires { most_records ≤ length depths.old }
    ensures { Finds tree.now depths.new result }
{
    if !table_tree::is_whole(tree) {
        return false;
    }
    if table_tree::parent_of(tree, 0) != table_tree::NO_PARENT {
        return false;
    }
    let n = table_tree::ranks_in(tree);
    for r in 0..n as u32 {
        let d = depth_after(tree, depths, r);
        if d > 16 {
            return false;
        }
        depths[r as usize] = d;
    }
    true
}

// Whether the bytes are a tree.
pub fn is_tree(tree: &[u8]) -> bool
    ensures { result ≡ tree_good tree.now }
{
    let mut depths = [0u8; MOST_RECORDS];
    find_depths(tree, &mut depths)
}

// The tree check: 14, then 11, or the depths of all ranks, one byte each, and how many they are. They are found in an array of our own, since a
// refusal writes nothing, and copied when nothing can be refused any more.
pub fn check_tree(tree: &[u8], depths: &mut [u8]) -> Result<usize, Refusal>
    ensures { (result ≡ result_of length (depths_into (length depths.old) tree.now)) × (depths.new ≡ written_over (depths_into (length depths.old) tree.now) depths.old) }
{
    let mut found = [0u8; MOST_RECORDS];
    if !find_depths(tree, &mut found) {
        return Err(Refusal::TreeWrong);
    }
    let n = table_tree::ranks_in(tree);
    if depths.len() < n {
        return Err(Refusal::OutputShort);
    }
    bytes_copy::copy(&found[..n], depths);
    Ok(n)
}
