// The commitment tree as a ledger and a case need it: the short record, to which a leaf is added, its
// root, its bytes, and a path climbed from a leaf. That the record's root is the tree's, and that a leaf's
// own path leads there, are theorems of proofs/Grown.antt. Which leaves there are is left to `ledger`.
#![tactic(auto)]

ghost use Rattle.std.specs.Prelude.{◌≡◌, ◌+◌, ◌<◌, ◌*◌};
ghost use Rattle.octets.specs.Parts.{field, fits_in, pasted};
ghost use Rattle.octets.specs.Rows.{rows_of, flat};
ghost use Rattle.nodes.specs.Trees.{push, join_of};
ghost use Rattle.nodes.specs.CommitmentTree.{parent_of, empty_root};
ghost use Rattle.tree.specs.Record.{fresh_of, with_leaf_of, record_root, step_of, path_end};
ghost use Rattle.tree.specs.RecordBytes.{record_at, record_bytes};

use units::{Position, TREE_LEAVES};

// How many leaves there are, and for each level from the leaves to the root a node of 32 bytes. The
// node of level k waits for its right sibling where bit k of the count is 1; the root of a full tree
// stands at level 29.
#[derive(Clone, Copy)]
pub struct Tree {
    pub leaves: u32,
    pub nodes: [u8; 960],
}

// One level of a record's root: the node x, in which the leaves end, is a left child beside an empty
// sibling, or a right child beside the node that waits.
fn join(nodes: &[u8], level: usize, count: u32, x: &[u8; 32]) -> [u8; 32]
    requires { level < 29 }
    ensures { result ≡ join_of parent_of count (field (level * 32) 32 nodes.now) x.now (empty_root level) }
{
    if count % 2 == 0 {
        let e = nodes::empty_root(level);
        nodes::parent(x, &e)
    } else {
        let waiting = octets::part(nodes, level * 32);
        nodes::parent(&waiting, x)
    }
}

// The record's nodes after one leaf more: as many parents as the count has ones at its end.
fn carried(nodes: [u8; 960], count: u32, leaf: [u8; 32]) -> [u8; 960]
    ensures { result ≡ flat (push parent_of 29 count (rows_of 30 nodes) leaf) }
{
    let mut t = nodes;
    let mut x = leaf;
    let mut n = count;
    for k in 0..29 {
        if n % 2 == 0 {
            octets::copy_in(&mut t, k * 32, &x);
            return t;
        }
        let waiting = octets::part(&t, k * 32);
        x = nodes::parent(&waiting, &x);
        n = n / 2;
    }
    octets::copy_in(&mut t, 928, &x);
    t
}

impl Tree {
    pub fn fresh() -> Tree
        ensures { result ≡ fresh_of }
    {
        Tree {
            leaves: 0,
            nodes: [0u8; 960],
        }
    }

    pub fn with_leaf(mut self, leaf: [u8; 32]) -> Tree
        ensures { result ≡ with_leaf_of self leaf }
    {
        if self.leaves >= TREE_LEAVES {
            return self;
        }
        self.nodes = carried(self.nodes, self.leaves, leaf);
        self.leaves = self.leaves + 1;
        self
    }

    pub fn root(self) -> [u8; 32]
        ensures { result ≡ record_root self }
    {
        let t = self.nodes;
        let mut n = self.leaves;
        let mut x = [0u8; 32];
        for k in 0..29 {
            x = join(&t, k, n, &x);
            n = n / 2;
        }
        if n == 0 { x } else { octets::part(&t, 928) }
    }
}

// One step up a path.
pub fn step_up(position: Position, node: &[u8; 32], sibling: &[u8; 32]) -> [u8; 32]
    ensures { result ≡ step_of position.0 node.now sibling.now }
{
    if position.is_right() {
        nodes::parent(sibling, node)
    } else {
        nodes::parent(node, sibling)
    }
}

// Where a path leads.
pub fn climb(leaf: [u8; 32], position: Position, path: &[u8]) -> [u8; 32]
    ensures { result ≡ path_end leaf position.0 path.now }
{
    let mut x = leaf;
    let mut p = position;
    for k in 0..29 {
        let sibling = octets::part(path, k * 32);
        x = step_up(p, &x, &sibling);
        p = p.parent();
    }
    x
}

// How many bytes a record has: its count, then its nodes.
pub const RECORD_LENGTH: usize = 964;

// The record at an index, whether it can be or not. Bytes that are not there read as zeros.
pub fn read_record(bytes: &[u8], at: usize) -> Tree
    ensures { result ≡ record_at at bytes.now }
{
    Tree {
        leaves: octets::le32(bytes, at),
        nodes: octets::part(bytes, at.saturating_add(4)),
    }
}

// Writes a record from an index on, and answers whether it fitted. Where it does not, the bytes stay.
pub fn write_record(bytes: &mut [u8], at: usize, tree: Tree) -> bool
    ensures value { result ≡ fits_in at (record_bytes tree) bytes.old }
    ensures bytes_after { bytes.new ≡ pasted at (record_bytes tree) bytes.old }
{
    if bytes.len() < RECORD_LENGTH || bytes.len() - RECORD_LENGTH < at {
        return false;
    }
    octets::copy_in(bytes, at, &tree.leaves.to_le_bytes());
    octets::copy_in(bytes, at + 4, &tree.nodes);
    true
}
