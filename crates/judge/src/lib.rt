// The judge: one case on one ledger, and the ledger's opening and closing. It asks in the order of the
// refusals' numbers and stops at the first that applies; an accepted case is entered. Asking and entering
// are private to this crate, so that nothing is entered that was not asked about. What must hold of a
// case alone stands in `statement`, what a ledger is in `ledger`; nothing of either is repeated here.
#![tactic(auto)]

mod asking;
mod entering;
mod money;
mod order;
mod roll;
mod rows;
mod table;

ghost use Rattle.std.specs.Prelude.{◌≡◌, ◌+◌, ◌*◌, ◌<◌, length};
ghost use Rattle.octets.specs.Parts.{pasted};
ghost use Rattle.refusals.specs.Rules.{first};
ghost use Rattle.refusals.specs.Reasons.{as_answer};
ghost use Rattle.casefile.specs.Fields.{vpub_old_of, vpub_new_of, nullifier_of, commitment_of};
ghost use Rattle.tree.specs.Record.{record_root};
ghost use Rattle.ledger.specs.Rows.{table_with_two as entered_rows};
ghost use Rattle.ledger.specs.Ledgers.{most_anchors, room_in, entered_of, Ready, close_refusals, closed_of, roll_after_close, empty_ledger, open_refusals, opened_of, roll_after_open};
ghost use Rattle.ledgerbytes.specs.LedgerBytes.{bare, ledger_of, buffer_after_write};
ghost use Rattle.judge.specs.Judging.{answer_of, ledger_after_case, judged_of, table_after_case};
ghost use Rattle.judge.specs.Settling.{own_counted, settled_answer, ledger_after_settling, table_after_settling};
ghost use Rattle.judge.specs.Kept.{kept_after};

use asking::{room_in, sound};
use entering::enter;
use ledger::{Answered, Ledger, MOST_ANCHORS};
use ledgerbytes::Counts;
use refusals::{Answer, Refusal};
use rows::start_of;
use tree::Tree;
use units::{Amount, Row};

// A ledger with no nullifier and no leaf, and so many anchors.
fn start(anchors: usize) -> Ledger
    ensures { result ≡ empty_ledger anchors }
{
    Ledger {
        nullifiers: 0,
        anchors: anchors,
        tree: Tree::fresh(),
        pool: Amount::of(0),
    }
}

// Opens a fresh ledger. The table needs no byte of its own; the roll gets the empty tree's root.
pub fn open(roll: &mut [u8]) -> Answered
    ensures answer_value { result.answer ≡ first (open_refusals roll.old) }
    ensures ledger_value { result.ledger ≡ opened_of roll.old }
    ensures roll_after { roll.new ≡ roll_after_open roll.old }
{
    if room_in(MOST_ANCHORS, roll.len()) == 0 {
        return Answered {
            answer: Answer::from(Refusal::Length),
            ledger: start(0),
        };
    }
    let root = nodes::empty_root(29);
    octets::copy_in(roll, start_of(Row::of(0)), &root);
    Answered {
        answer: Answer::accepted(),
        ledger: start(1),
    }
}

// Whether a block can be closed.
fn closing(table: &[u8], roll: &[u8], counts: Counts) -> Result<(), Refusal>
    ensures { as_answer result ≡ first (close_refusals table.now roll.now (bare counts)) }
{
    sound(table, roll, counts)?;
    if room_in(MOST_ANCHORS, roll.len()) <= counts.anchors {
        return Err(Refusal::NoRoom);
    }
    Ok(())
}

// Closes a block that can be closed: the current root goes onto the roll, even if it is the last one again.
fn closed(roll: &mut [u8], ledger: Ledger) -> Ledger
    requires { ledger.anchors < room_in most_anchors (length roll.old) }
    ensures value { result ≡ record { nullifiers = ledger.nullifiers; anchors = ledger.anchors + 1; tree = ledger.tree; pool = ledger.pool } }
    ensures roll_after { roll.new ≡ pasted (ledger.anchors * 32) (record_root ledger.tree) roll.old }
{
    let a = ledger.anchors;
    let record = ledger.tree;
    let root = record.root();
    octets::copy_in(roll, start_of(Row::of(a)), &root);
    let mut next = ledger;
    next.anchors = a + 1;
    next
}

// Closes a block.
pub fn close(table: &[u8], roll: &mut [u8], ledger: Ledger) -> Answered
    ensures answer_value { result.answer ≡ first (close_refusals table.now roll.old ledger) }
    ensures ledger_value { result.ledger ≡ closed_of table.now roll.old ledger }
    ensures roll_after { roll.new ≡ roll_after_close table.now roll.old ledger }
{
    if let Err(refusal) = closing(table, &*roll, Counts::from(ledger)) {
        return Answered {
            answer: Answer::from(refusal),
            ledger,
        };
    }
    let next = closed(roll, ledger);
    Answered {
        answer: Answer::accepted(),
        ledger: next,
    }
}

// The same on a ledger that is kept as bytes, of whose 988 a refusal reads the 28 of the counts alone.
pub fn close_kept(table: &[u8], roll: &mut [u8], kept: &mut [u8]) -> Result<(), Refusal>
    ensures value { as_answer result ≡ first (close_refusals table.now roll.old (ledger_of kept.old)) }
    ensures roll_after { roll.new ≡ roll_after_close table.now roll.old (ledger_of kept.old) }
    ensures kept_after { kept.new ≡ kept_after (first (close_refusals table.now roll.old (ledger_of kept.old))) (closed_of table.now roll.old (ledger_of kept.old)) kept.old }
{
    closing(table, &*roll, ledgerbytes::read_counts(&*kept))?;
    let before = ledgerbytes::read(&*kept);
    let next = closed(roll, before);
    ledgerbytes::write(kept, next);
    Ok(())
}

// The answer to a case: what its public part and the ledger say, then its witness, and last whether the pool
// stays in its bounds. The length is asked first of all, so that all the rest is compiled for a case of that
// length.
fn answered(case: &[u8], table: &[u8], roll: &[u8], counts: Counts) -> Result<(), Refusal>
    ensures { as_answer result ≡ answer_of case.now table.now roll.now (bare counts) }
{
    if !casefile::has_length(case) {
        return Err(Refusal::Length);
    }
    asking::ask(table, roll, counts, case)?;
    statement::witness(case)?;
    asking::stays_within(counts, case)
}

// Judges a case; an accepted one is entered.
pub fn judge(case: &[u8], table: &mut [u8], roll: &[u8], ledger: Ledger) -> Answered
    ensures value { result ≡ judged_of case.now table.old roll.now ledger }
    ensures table_after { table.new ≡ table_after_case case.now table.old roll.now ledger }
{
    if let Err(refusal) = answered(case, &*table, roll, Counts::from(ledger)) {
        return Answered {
            answer: Answer::from(refusal),
            ledger,
        };
    }
    let after = enter(case, table, ledger);
    Answered {
        answer: Answer::accepted(),
        ledger: after,
    }
}

// Enters an accepted case in a ledger that is kept as bytes.
fn enter_kept(case: &[u8], table: &mut [u8], kept: &mut [u8])
    requires { Ready table.old (ledger_of kept.old) (nullifier_of 1 case.now) (nullifier_of 2 case.now) (vpub_old_of case.now) (vpub_new_of case.now) }
    ensures table_after { table.new ≡ entered_rows (ledger_of kept.old).nullifiers table.old (nullifier_of 1 case.now) (nullifier_of 2 case.now) }
    ensures kept_after { kept.new ≡ buffer_after_write (entered_of (ledger_of kept.old) (commitment_of 1 case.now) (commitment_of 2 case.now) (vpub_old_of case.now) (vpub_new_of case.now)) kept.old }
{
    let before = ledgerbytes::read(&*kept);
    let after = enter(case, table, before);
    ledgerbytes::write(kept, after);
}

// The same on a ledger that is kept as bytes, of whose 988 a refusal reads the 28 of the counts alone.
pub fn judge_kept(
    case: &[u8],
    table: &mut [u8],
    roll: &[u8],
    kept: &mut [u8],
) -> Result<(), Refusal>
    ensures value { as_answer result ≡ answer_of case.now table.old roll.now (ledger_of kept.old) }
    ensures table_after { table.new ≡ table_after_case case.now table.old roll.now (ledger_of kept.old) }
    ensures kept_after { kept.new ≡ kept_after (answer_of case.now table.old roll.now (ledger_of kept.old)) (ledger_after_case case.now table.old roll.now (ledger_of kept.old)) kept.old }
{
    answered(case, &*table, roll, ledgerbytes::read_counts(&*kept))?;
    enter_kept(case, table, kept);
    Ok(())
}

// What counts of the answer that the case alone was given before: two equal nullifiers are never both entered.
fn counted(own: Answer, case: &[u8]) -> Answer
    ensures { result ≡ own_counted own case.now }
{
    if own.is_accepted() {
        return Answer::from(statement::distinct(case));
    }
    own
}

// Settles a case of which the answer to it alone, own, was found before: the ledger is asked, and an accepted case
// is entered. Nothing of the witness is read.
pub fn settle_kept(
    own: Answer,
    case: &[u8],
    table: &mut [u8],
    roll: &[u8],
    kept: &mut [u8],
) -> Answer
    ensures value { result ≡ settled_answer own case.now table.old roll.now (ledger_of kept.old) }
    ensures table_after { table.new ≡ table_after_settling own case.now table.old roll.now (ledger_of kept.old) }
    ensures kept_after { kept.new ≡ kept_after (settled_answer own case.now table.old roll.now (ledger_of kept.old)) (ledger_after_settling own case.now table.old roll.now (ledger_of kept.old)) kept.old }
{
    let counts = ledgerbytes::read_counts(&*kept);
    let settled = asking::weigh(counted(own, case), &*table, roll, counts, case);
    if !settled.is_accepted() {
        return settled;
    }
    enter_kept(case, table, kept);
    settled
}
