// The anchor roll: rows of 32 bytes in lent memory, of which the first count are used, in the order in
// which they were written. Where they stand is left to rows.rt, how one stands
// to another to order.rt.
ghost use Rattle.std.specs.Prelude.{◌≡◌};
ghost use Rattle.ledger.specs.Rows.{among};

use crate::order::compare;

// Whether a row is among others. Rows are compared by their words: the library's `==` of two slices makes a call where
// the first four bytes agree, by which a roll of rows that begin alike takes three times as long.
pub fn stands_on(rows: &[[u8; 32]], row: &[u8; 32]) -> bool
    ensures { result ≡ among row.now rows.now }
{
    rows.iter().any(|r| compare(row, r).is_eq())
}
