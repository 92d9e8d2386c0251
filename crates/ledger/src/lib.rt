// What a ledger is: the counts, the tree record and the pool that are kept by value beside a nullifier
// table and an anchor roll in lent memory, and the answers about them. The definitions and their laws
// are here; the code that reads or writes a table or a roll is in `judge`.
#![tactic(auto)]

use refusals::Answer;
use tree::Tree;
use units::Amount;

// The most rows that are used of a nullifier table and of an anchor roll, however long they are lent.
pub const MOST_NULLIFIERS: usize = 65536;

pub const MOST_ANCHORS: usize = 4096;

// What a ledger keeps beside its table and its roll.
#[derive(Clone, Copy)]
pub struct Ledger {
    pub nullifiers: usize,
    pub anchors: usize,
    pub tree: Tree,
    pub pool: Amount,
}

// An answer, and the ledger after it.
// Not a Result: `open` hands out a ledger with its refusal too, and `judged_of` has both after either answer.
#[derive(Clone, Copy)]
pub struct Answered {
    pub answer: Answer,
    pub ledger: Ledger,
}
