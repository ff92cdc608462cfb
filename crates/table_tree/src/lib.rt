// The tree of brokers: its ranks, and the parent and the depth of each.
#![tactic(auto)]

ghost use Rattle.std.specs.Prelude.{◌≡◌};
ghost use Rattle.table_tree.specs.Tree.{ranks_in, whole_tree, parent_of};
ghost use Rattle.table_tree.specs.Depths.{depth_of};

use table_records::MOST_RECORDS;

// Bytes a rank.
const WIDTH: usize = 4;
// The number that is no rank's: rank 0 holds it. Stays a number: a tree's bytes have it, and so has
// the definition parent_of.
pub const NO_PARENT: u32 = 4294967295;

// How many ranks the tree has.
pub fn ranks_in(tree: &[u8]) -> usize
    ensures { result ≡ ranks_in tree.now }
{
    tree.len() / WIDTH
}

// The parent of a rank; what is no rank of the tree has none.
pub fn parent_of(tree: &[u8], rank: u32) -> u32
    ensures { result ≡ parent_of tree.now rank }
{
    let r = rank as usize;
    if r < tree.len() / WIDTH {
        bytes_number::number_at(table_records::record_at(tree, WIDTH, r), 0)
    } else {
        NO_PARENT
    }
}

// The depth of a rank, and 17 where 16 parents do not lead from it to rank 0. Stays a number: the
// definition depth_of has the 17.
pub fn depth_of(tree: &[u8], rank: u32) -> u8
    ensures { result ≡ depth_of tree.now rank }
{
    let mut at = rank;
    for d in 0..17 {
        if at == 0 {
            return d;
        }
        at = parent_of(tree, at);
    }
    17
}

// Whether the bytes are whole records, of 1 to 1,024 ranks.
pub fn is_whole(tree: &[u8]) -> bool
    ensures { result ≡ whole_tree tree.now }
{
    let n = ranks_in(tree);
    if n < 1 {
        return false;
    }
    if n > MOST_RECORDS {
        return false;
    }
    tree.len() == n * WIDTH
}
