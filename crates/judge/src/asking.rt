// What the ledger says of a case's public part, before the case is entered: damage, room, anchor,
// nullifiers and, after the witness, the pool; and what that part says for itself, between these. Of the
// ledger this needs its counts alone, so that a refusal never reads the tree's nodes, and a field of the
// case is read when it is asked about. How the lent rows are walked is left to table.rt and roll.rt.
// Table and roll stay two arguments: a host lends them apart, and a case writes one while it reads the other.
ghost use Rattle.std.specs.Prelude.{◌≡◌, true, ◌*◌, ◌≤◌, length};
ghost use Rattle.refusals.specs.Rules.{first, rules_in, lower, refuses_up_to};
ghost use Rattle.refusals.specs.Reasons.{as_answer};
ghost use Rattle.units.specs.Pairs.{number_of};
ghost use Rattle.casefile.specs.Fields.{has_length, vpub_old_of, vpub_new_of, anchor_of, nullifier_of};
ghost use Rattle.ledger.specs.Sorted.{rising, find};
ghost use Rattle.ledger.specs.Rows.{byte_order};
ghost use Rattle.ledger.specs.Ledgers.{room_in, spent_rows, damaged, no2, no3, no6, no8, no17};
ghost use Rattle.ledgerbytes.specs.LedgerBytes.{bare};
ghost use Rattle.judge.specs.Judging.{front_refusals, ledgers_own};
ghost use Rattle.judge.specs.Settling.{kept_unless, own_or};

use crate::money::is_outside;
use crate::roll::stands_on;
use crate::rows::rows_in;
use crate::table::{is_rising, search};
use ledger::{MOST_ANCHORS, MOST_NULLIFIERS};
use ledgerbytes::Counts;
use refusals::{Answer, Refusal};
use units::{Row, Which};

// How many rows a lent length holds, and at most so many.
pub fn room_in(most: usize, len: usize) -> usize
    ensures { result ≡ room_in most len }
{
    (len / 32).min(most)
}

// Whether the ledger is damaged. The counts are tested before any row is read.
fn is_damaged(table: &[u8], roll: &[u8], counts: Counts) -> bool
    ensures { result ≡ damaged table.now roll.now (bare counts) }
{
    let n = counts.nullifiers;
    let a = counts.anchors;
    if n % 2 != 0 {
        return true;
    }
    if room_in(MOST_NULLIFIERS, table.len()) < n {
        return true;
    }
    if counts.leaves as usize != n {
        return true;
    }
    if a == 0 {
        return true;
    }
    if room_in(MOST_ANCHORS, roll.len()) < a {
        return true;
    }
    if !counts.pool.is_money() {
        return true;
    }
    !is_rising(rows_in(table, n))
}

// 2
pub fn sound(table: &[u8], roll: &[u8], counts: Counts) -> Result<(), Refusal>
    ensures { as_answer result ≡ first (no2 table.now roll.now (bare counts)) }
{
    if is_damaged(table, roll, counts) {
        Err(Refusal::Damaged)
    } else {
        Ok(())
    }
}

// 3
fn has_room(table: &[u8], counts: Counts) -> Result<(), Refusal>
    ensures { as_answer result ≡ first (no3 table.now (bare counts)) }
{
    let room = room_in(MOST_NULLIFIERS, table.len());
    if room < 2 {
        return Err(Refusal::NoRoom);
    }
    if room - 2 < counts.nullifiers {
        return Err(Refusal::NoRoom);
    }
    Ok(())
}

// 6
fn is_anchored(roll: &[u8], counts: Counts, case: &[u8]) -> Result<(), Refusal>
    requires { counts.anchors * 32 ≤ length roll.now }
    ensures { as_answer result ≡ first (no6 roll.now (bare counts) (anchor_of case.now)) }
{
    let anchor = casefile::anchor(case);
    if stands_on(rows_in(roll, counts.anchors), &anchor) {
        Ok(())
    } else {
        Err(Refusal::NoAnchor)
    }
}

// Where a nullifier of the case stands in the table, or would go.
fn look_up(table: &[u8], counts: Counts, case: &[u8], i: Which) -> Result<Row, Row>
    requires nullifiers_in_bounds { counts.nullifiers * 32 ≤ length table.now }
    requires table_rises { rising byte_order (spent_rows table.now (bare counts)) ≡ true }
    ensures { result ≡ find byte_order (nullifier_of (number_of i) case.now) (spent_rows table.now (bare counts)) }
{
    let nullifier = casefile::nullifier(case, i);
    search(rows_in(table, counts.nullifiers), &nullifier)
}

// 8, with the row where it stands. In an empty table nothing is looked for.
fn are_unspent(table: &[u8], counts: Counts, case: &[u8]) -> Result<(), Refusal>
    requires nullifiers_in_bounds { counts.nullifiers * 32 ≤ length table.now }
    requires table_rises { rising byte_order (spent_rows table.now (bare counts)) ≡ true }
    ensures { as_answer result ≡ first (no8 table.now (bare counts) (nullifier_of 1 case.now) (nullifier_of 2 case.now)) }
{
    if counts.nullifiers == 0 {
        return Ok(());
    }
    if let Ok(row) = look_up(table, counts, case, Which::First) {
        return Err(Refusal::Spent(Which::First, row));
    }
    match look_up(table, counts, case, Which::Second) {
        Ok(row) => Err(Refusal::Spent(Which::Second, row)),
        Err(_) => Ok(()),
    }
}

// 17
pub fn stays_within(counts: Counts, case: &[u8]) -> Result<(), Refusal>
    ensures { as_answer result ≡ first (no17 counts.pool.0 (vpub_old_of case.now) (vpub_new_of case.now)) }
{
    let old = casefile::vpub_old(case);
    let new = casefile::vpub_new(case);
    if is_outside(counts.pool, old, new) {
        Err(Refusal::PoolOutside)
    } else {
        Ok(())
    }
}

// What the ledger and the case's public part say, in the order of the numbers. For this crate alone, which has
// asked for the length.
pub fn ask(table: &[u8], roll: &[u8], counts: Counts, case: &[u8]) -> Result<(), Refusal>
    requires { has_length case.now ≡ true }
    ensures { as_answer result ≡ first (rules_in (front_refusals case.now table.now roll.now (bare counts))) }
{
    sound(table, roll, counts)?;
    has_room(table, counts)?;
    statement::public_values(case)?;
    is_anchored(roll, counts, case)?;
    statement::distinct(case)?;
    are_unspent(table, counts, case)
}

// An answer in hand that refuses with a number up to this one is the lowest there is.
fn unless(own: Answer, number: u8) -> Result<(), Answer>
    ensures { result ≡ kept_unless number own }
{
    if own.refuses_up_to(number) {
        Err(own)
    } else {
        Ok(())
    }
}

// What is lower than an answer in hand, or that answer itself where it counts before the others. A judgement's
// record may hold any number, place and row as that answer, so that it is none of the refusals by name.
fn lower_than(
    own: Answer,
    table: &[u8],
    roll: &[u8],
    counts: Counts,
    case: &[u8],
) -> Result<(), Answer>
    ensures { own_or own result ≡ lower own (first (ledgers_own case.now table.now roll.now (bare counts))) }
{
    unless(own, 2)?;
    sound(table, roll, counts)?;
    unless(own, 3)?;
    has_room(table, counts)?;
    unless(own, 6)?;
    is_anchored(roll, counts, case)?;
    unless(own, 8)?;
    are_unspent(table, counts, case)?;
    unless(own, 17)?;
    stays_within(counts, case)?;
    Ok(())
}

// What the ledger says of a case of which all that can be said of it alone was said before: the lower of the two,
// in the order of the numbers.
pub fn weigh(own: Answer, table: &[u8], roll: &[u8], counts: Counts, case: &[u8]) -> Answer
    ensures { result ≡ lower own (first (ledgers_own case.now table.now roll.now (bare counts))) }
{
    match lower_than(own, table, roll, counts, case) {
        Ok(()) => own,
        Err(answer) => answer,
    }
}
