// Who is whose neighbour in the tree of brokers, and the next broker on the way to a rank.
#![tactic(auto)]

ghost use Rattle.std.specs.Prelude.{◌≡◌};
ghost use Rattle.table_tree_hops.specs.Towards.{is_neighbour, hop, towards};

// Whether both are ranks of the tree and one is the other's parent.
pub fn is_neighbour(tree: &[u8], a: u32, b: u32) -> bool
    ensures { result ≡ is_neighbour tree.now a b }
{
    let n = table_tree::ranks_in(tree);
    if a as usize >= n {
        return false;
    }
    if b as usize >= n {
        return false;
    }
    if table_tree::parent_of(tree, a) == b {
        return true;
    }
    table_tree::parent_of(tree, b) == a
}

// From one rank to another: the child of `from` on the way, if `from` is among the target's first `depth` parents, else the parent of `from`.
fn hop_within(tree: &[u8], depth: u8, from: u32, target: u32) -> u32
    ensures { result ≡ hop tree.now depth from target }
{
    if depth == 0 {
        return table_tree::parent_of(tree, from);
    }
    let parent = table_tree::parent_of(tree, target);
    if parent == from {
        return target;
    }
    hop_within(tree, depth - 1, from, parent)
}

// The next broker on the way from one rank to another.
pub fn next_hop(tree: &[u8], from: u32, target: u32) -> u32
    ensures { result ≡ towards tree.now from target }
{
    hop_within(tree, table_tree::depth_of(tree, target), from, target)
}
