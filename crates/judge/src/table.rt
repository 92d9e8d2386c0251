// The nullifier table: rows of 32 bytes in lent memory, of which the first count are used and strictly
// rise in byte order. How one row stands to another is left to order.rt, where a row starts to rows.rt,
// and whether a table is as it has to be, to the caller.
ghost use Rattle.std.specs.Prelude.{◌≡◌, true, ◌+◌, ◌-◌, ◌*◌, ◌/◌, ◌<◌, ◌≤◌, length};
ghost use Rattle.octets.specs.Rows.{rows_of};
ghost use Rattle.ledger.specs.Sorted.{place_of, is_gap, rising, find};
ghost use Rattle.ledger.specs.Rows.{byte_order, shifted, with_row, table_with_two, Fresh};

use crate::order::{compare, first_word};
use crate::rows::{rows_in, start_of};
use std::cmp::Ordering;
use units::Row;

// The rows from one on up to which they rise by their first words alone: eight rows a turn, each of them loaded
// once and compared with the one before, and no call. Where first words are equal or fall, and at the last rows,
// it stops. One row a turn takes 9 instructions a row, and this 4.5. For `is_rising` alone.
fn rises_to(rows: &[[u8; 32]]) -> &[[u8; 32]]
    requires { 0 < length rows.now }
    ensures some_left { 0 < length result.now }
    ensures no_more { length result.now ≤ length rows.now }
    ensures rises { rising byte_order result.now ≡ rising byte_order rows.now }
{
    let mut rest = rows;
    let mut before = first_word(&rows[0]);
    while rest.len() > 8 {
        let one = first_word(&rest[1]);
        let two = first_word(&rest[2]);
        let three = first_word(&rest[3]);
        let four = first_word(&rest[4]);
        let five = first_word(&rest[5]);
        let six = first_word(&rest[6]);
        let seven = first_word(&rest[7]);
        let eight = first_word(&rest[8]);
        if before >= one
            || one >= two
            || two >= three
            || three >= four
            || four >= five
            || five >= six
            || six >= seven
            || seven >= eight
        {
            return rest;
        }
        before = eight;
        rest = &rest[8..];
    }
    rest
}

// Whether rows strictly rise. By `rises_to`, where the library's `is_sorted_by` takes one row a turn.
pub fn is_rising(rows: &[[u8; 32]]) -> bool
    ensures { result ≡ rising byte_order rows.now }
{
    let mut rest = rows;
    while rest.len() > 1 {
        rest = rises_to(rest);
        if rest.len() > 1 && compare(&rest[0], &rest[1]).is_ge() {
            return false;
        }
        rest = &rest[1..];
    }
    true
}

// Where a row stands among others, or, as an `Err`, the gap for it. It is above all rows before low, and
// below row high and all after it; each comparison leaves at most half of the rows between, so that 16 are enough
// for 65,534 rows. The library's search takes one more, some 20 instructions. For this crate alone, which asks it
// of rows that rise.
pub fn search(rows: &[[u8; 32]], row: &[u8; 32]) -> Result<Row, Row>
    requires { rising byte_order rows.now ≡ true }
    ensures { result ≡ find byte_order row.now rows.now }
{
    let mut low = 0;
    let mut high = rows.len();
    while low < high {
        let mid = low + (high - low) / 2;
        match compare(row, &rows[mid]) {
            Ordering::Less => {
                high = mid;
            }
            Ordering::Equal => {
                return Ok(Row::of(mid));
            }
            Ordering::Greater => {
                low = mid + 1;
            }
        }
    }
    Err(Row::of(low))
}

// The row that a search answers, whichever way it does.
fn place(found: Result<Row, Row>) -> Row
    ensures { result.0 ≡ place_of found }
{
    found.unwrap_or_else(|gap| gap)
}

// Four rows, from index at on, moved up by one row: a copy of a fixed length, for which there is no call.
fn shift_four(table: &mut [u8], at: usize)
    requires { at + 160 ≤ length table.old }
    ensures { table.new ≡ shifted table.old at (at + 128) }
{
    table[at..at + 160].copy_within(0..128, 32);
}

// The bytes from index low up to index high moved up by one row, eight rows a turn, as far down as whole turns
// lead; answers that far. Downwards, so that none is overwritten before it is moved. One copy of all takes 7
// instructions a row, and in some forms a call of `memmove`, which a host need not have; this takes 4.6.
fn shift_eights(table: &mut [u8], low: usize, high: usize) -> usize
    requires in_order { low ≤ high }
    requires room { high + 32 ≤ length table.old }
    ensures not_below { low ≤ result }
    ensures not_above { result ≤ high }
    ensures table_after { table.new ≡ shifted table.old result high }
{
    let mut at = high;
    while 256 <= at - low {
        at -= 256;
        shift_four(&mut *table, at + 128);
        shift_four(&mut *table, at);
    }
    at
}

// The bytes from index low up to index high, moved up by one row.
fn shift(table: &mut [u8], low: usize, high: usize)
    requires in_order { low ≤ high }
    requires room { high + 32 ≤ length table.old }
    ensures { table.new ≡ shifted table.old low high }
{
    let left = shift_eights(&mut *table, low, high);
    table.copy_within(low..left, low + 32);
}

// Puts a row that is not in the table yet where it goes. The promise also says that the row has 32 bytes,
// since the caller does not learn that from the type of what it passes.
fn enter_one(table: &mut [u8], count: usize, row: &[u8; 32])
    requires count_in_bounds { (count + 1) * 32 ≤ length table.old }
    requires table_rises { rising byte_order (rows_of count table.old) ≡ true }
    requires row_is_new { is_gap (find byte_order row.now (rows_of count table.old)) ≡ true }
    ensures row_len { length row.now ≡ 32 }
    ensures table_after { table.new ≡ with_row count table.old row.now }
{
    let at = start_of(place(search(rows_in(&*table, count), row)));
    shift(&mut *table, at, count * 32);
    table[at..at + 32].copy_from_slice(row);
}

// Two rows that differ and stand nowhere yet, put in where they go; behind them nothing moves. For `enter`
// of this crate alone, whose own caller has asked about both.
pub fn enter_two(table: &mut [u8], count: usize, a: &[u8; 32], b: &[u8; 32])
    requires count_in_bounds { (count + 2) * 32 ≤ length table.old }
    requires table_rises { rising byte_order (rows_of count table.old) ≡ true }
    requires fresh { Fresh count table.old a.now b.now }
    ensures { table.new ≡ table_with_two count table.old a.now b.now }
{
    enter_one(&mut *table, count, a);
    enter_one(table, count + 1, b);
}
