// Numbers of three kinds that must never be mixed: an amount of money, a leaf's position in the
// tree, a row of a table. Each is a type of its own with a private number, so that none can be taken for
// another, and only the methods here compute with it. And which of a pair is meant. What is done with them
// is left to the crates above.
#![tactic(auto)]

ghost use Rattle.std.specs.Prelude.{◌≡◌, ◌+◌, ◌-◌, ◌/◌, ◌%◌, ◌^◌, min, eqb, leb, ltb};
ghost use Rattle.units.specs.Limits.{max_money, tree_leaves};
ghost use Rattle.units.specs.Pairs.{number_of};

// All the money there will ever be, in zatoshi: the highest public value, and the highest pool.
pub const ALL_MONEY: u64 = 2100000000000000;

// How many leaves the commitment tree can have, 2 ^ 29.
pub const TREE_LEAVES: u32 = 536870912;

// An amount in zatoshi. Here and below a number is made and read by a call with a name, not by `From`: by `into` a
// number could become an amount unseen.
#[derive(Clone, Copy)]
pub struct Amount(u64);

// The number of a leaf of the commitment tree, or of a node of one of its levels.
#[derive(Clone, Copy)]
pub struct Position(u32);

// A row of a table, counted from 0.
#[derive(Clone, Copy)]
pub struct Row(usize);

// Which of a pair: of the old notes, the new notes, the nullifiers, the commitments.
#[derive(Clone, Copy)]
pub enum Which {
    First,
    Second,
}

impl Which {
    // A call with a name and not a `From`: that the first of a pair is 1 and the second 2 is `number_of`'s promise.
    pub fn number(self) -> u8
        ensures { result ≡ number_of self }
    {
        match self {
            Which::First => 1,
            Which::Second => 2,
        }
    }
}

impl Amount {
    pub fn of(zatoshi: u64) -> Amount
        ensures { result.0 ≡ zatoshi }
    {
        Amount(zatoshi)
    }

    // The number alone, for whoever writes it down or moves the pool by it.
    pub fn zatoshi(self) -> u64
        ensures { result ≡ self.0 }
    {
        self.0
    }

    // Its upper and its lower 32 bits: a few halves can be added with nothing lost.
    pub fn high(self) -> u64
        ensures { result ≡ self.0 / 2 ^ 32 }
    {
        self.0 / 4294967296
    }

    pub fn low(self) -> u64
        ensures { result ≡ self.0 % 2 ^ 32 }
    {
        self.0 % 4294967296
    }

    pub fn is_zero(self) -> bool
        ensures { result ≡ eqb self.0 0 }
    {
        self.0 == 0
    }

    // Whether a public value or a pool may be so high.
    pub fn is_money(self) -> bool
        ensures { result ≡ leb self.0 max_money }
    {
        self.0 <= ALL_MONEY
    }
}

impl Position {
    pub fn of(number: u32) -> Position
        ensures { result.0 ≡ number }
    {
        Position(number)
    }

    // Whether the tree has such a leaf.
    pub fn is_leaf(self) -> bool
        ensures { result ≡ ltb self.0 tree_leaves }
    {
        self.0 < TREE_LEAVES
    }

    // Whether a node is its parent's right child.
    pub fn is_right(self) -> bool
        ensures { result ≡ eqb (self.0 % 2) 1 }
    {
        self.0 % 2 == 1
    }

    // The parent's number, one level up.
    pub fn parent(self) -> Position
        ensures { result.0 ≡ self.0 / 2 }
    {
        Position(self.0 / 2)
    }
}

impl Row {
    pub fn of(index: usize) -> Row
        ensures { result.0 ≡ index }
    {
        Row(index)
    }

    // The number alone, for whoever indexes a list by it or prints it.
    pub fn index(self) -> usize
        ensures { result ≡ self.0 }
    {
        self.0
    }

    // Whether it is one of the first count rows.
    pub fn is_within(self, count: usize) -> bool
        ensures { result ≡ ltb self.0 count }
    {
        self.0 < count
    }

    // The row after it. The last row that has a number has none after it, and is answered itself.
    pub fn next(self) -> Row
        ensures { result.0 ≡ min (self.0 + 1) (2 ^ 64 - 1) }
    {
        Row(self.0.saturating_add(1))
    }
}
