// A judgement in 60 short steps, on a record that a handset keeps: between two steps it polls its trigger, judges
// other cases, or loses power and goes on later. Step 1 takes the case in, so that no later step is lent one. What
// is asked of a case alone is left to `statement`, the ledger to `judge`, and one step up a path to `tree`.
#![tactic(auto)]

ghost use Rattle.std.specs.Prelude.{◌≡◌, ◌+◌, ◌/◌, ◌^◌, ◌<◌, ◌≤◌, length};
ghost use Rattle.octets.specs.Parts.{pasted};
ghost use Rattle.units.specs.Pairs.{number_of};
ghost use Rattle.refusals.specs.Rules.{first, rules_in};
ghost use Rattle.refusals.specs.Reasons.{as_answer};
ghost use Rattle.ledgerbytes.specs.LedgerBytes.{ledger_of};
ghost use Rattle.judge.specs.Kept.{kept_after};
ghost use Rattle.judge.specs.Settling.{ledger_after_settling, table_after_settling};
ghost use Rattle.slices.specs.Records.{steps_in, case_in, holds_case, node_in, node_at, answer_in, with_steps, with_answer, edition_of, case_at, with_case};
ghost use Rattle.slices.specs.Steps.{not_yet, parent_on, start_in, climbed_in, strays_in, held10, alone_refusals, checked_in, settled_by, settled_in, step_answer, record_after_step, table_after_step, kept_after_step, begin_answer, record_after_begin};

use refusals::{Answer, Refusal};
use units::{Position, Row, Which};

// How many bytes a record has, and where its case begins.
pub const JUDGEMENT_LENGTH: usize = 4280;

const CASE_AT: usize = 70;

// What a step before the last answers, with how many steps were taken.
// Numbers, since the record keeps them and may hold any: 254 and the steps are what `not_yet` promises.
fn not_yet(steps: u8) -> Answer
    ensures { result ≡ not_yet steps }
{
    Answer::refused(254, steps)
}

// How many steps were taken.
fn steps_in(judgement: &[u8]) -> u8
    ensures { result ≡ steps_in judgement.now }
{
    octets::byte_from(judgement, 0, 0)
}

// The case that a record holds, as a part of it: nothing is copied. Where it holds none, no bytes.
// The edition stays a byte: the record may hold any, and one that is neither reads as no case (`case_in`).
fn case_in<'a>(judgement: &'a [u8]) -> &'a [u8]
    ensures { result.now ≡ case_in judgement.now }
{
    if judgement.len() != JUDGEMENT_LENGTH {
        return &judgement[0..0];
    }
    let edition = judgement[1];
    if edition == 1 {
        return &judgement[CASE_AT..4280];
    }
    if edition == 2 {
        return &judgement[CASE_AT..4176];
    }
    &judgement[0..0]
}

fn holds_case(judgement: &[u8]) -> bool
    ensures { result ≡ holds_case judgement.now }
{
    casefile::has_length(case_in(judgement))
}

// Where the node of old note i's path lies.
// Written out, since `spot` is private to `casefile`, and the record's layout is this crate's.
fn node_at(i: Which) -> usize
    ensures { result ≡ node_at (number_of i) }
{
    match i {
        Which::First => 6,
        Which::Second => 38,
    }
}

fn node_in(judgement: &[u8], i: Which) -> [u8; 32]
    ensures { result ≡ node_in (number_of i) judgement.now }
{
    octets::part(judgement, node_at(i))
}

// The answer that was found. A number that no case is answered with reads as 1.
fn answer_in(judgement: &[u8]) -> Answer
    ensures { result ≡ answer_in judgement.now }
{
    let number = octets::byte_from(judgement, 2, 0);
    if number > 17 {
        return Answer::from(Refusal::Length);
    }
    let place = octets::byte_from(judgement, 3, 0);
    let row = octets::le16(judgement, 4) as usize;
    Answer::refused_in_row(number, place, Row::of(row))
}

fn put_steps(judgement: &mut [u8], steps: u8)
    ensures { judgement.new ≡ with_steps steps judgement.old }
{
    let count = [steps];
    octets::copy_in(judgement, 0, &count);
}

fn put_answer(judgement: &mut [u8], a: Answer)
    ensures { judgement.new ≡ with_answer a judgement.old }
{
    let [low, high] = octets::le_bytes16((a.row.index() % 65536) as u16);
    let bytes = [a.number, a.place, low, high];
    octets::copy_in(judgement, 2, &bytes);
}

// The number of the node that lies so many levels above.
fn ancestor(position: Position, levels: usize) -> Position
    ensures { result.0 ≡ position.0 / 2 ^ levels }
{
    let mut p = position;
    for _ in 0..levels {
        p = p.parent();
    }
    p
}

// The parent of a node of this level on old note i's path.
// A level is a usize below 29 here and in `tree::join`: a type would be made at two places and opened at all.
fn parent_on(case: &[u8], i: Which, level: usize, node: &[u8; 32]) -> [u8; 32]
    requires { level < 29 }
    ensures { result ≡ parent_on level (number_of i) case.now node.now }
{
    let position = ancestor(casefile::old_position(case, i), level);
    let sibling = octets::part(casefile::old_path(case, i), level * 32);
    tree::step_up(position, node, &sibling)
}

// Where this level is climbed from: the commitment at the lowest, else the node that the record holds.
fn start_in(judgement: &[u8], i: Which, level: usize) -> [u8; 32]
    ensures { result ≡ start_in (number_of i) level judgement.now }
{
    if level == 0 {
        return statement::old_commitment(case_in(judgement), i);
    }
    node_in(judgement, i)
}

// Steps 1 to 58: one level of old note i's path.
fn climb(judgement: &mut [u8], i: Which, level: usize) -> Answer
    requires { (level < 29) × (steps_in judgement.old < 58) }
    ensures value { result ≡ not_yet (steps_in judgement.old + 1) }
    ensures judgement_after { judgement.new ≡ climbed_in (number_of i) level judgement.old }
{
    let from = start_in(&*judgement, i, level);
    let node = parent_on(case_in(&*judgement), i, level, &from);
    let steps = steps_in(&*judgement) + 1;
    octets::copy_in(&mut *judgement, node_at(i), &node);
    put_steps(judgement, steps);
    not_yet(steps)
}

// Whether old note i has a value, and the node that its path was climbed to is not the anchor.
fn strays(judgement: &[u8], i: Which) -> bool
    ensures { result ≡ strays_in judgement.now (number_of i) }
{
    let end = node_in(judgement, i);
    statement::ends_elsewhere(case_in(judgement), i, &end)
}

// 10, by the two path ends held. Not by `statement::paths`, which climbs both paths anew.
fn ends(judgement: &[u8]) -> Result<(), Refusal>
    ensures { as_answer result ≡ first (held10 judgement.now) }
{
    if strays(judgement, Which::First) {
        return Err(Refusal::PathAstray(Which::First));
    }
    if strays(judgement, Which::Second) {
        return Err(Refusal::PathAstray(Which::Second));
    }
    Ok(())
}

// 4, 5, 7 and 9 to 16 of the case, with 10 by the two path ends held.
fn alone(judgement: &[u8]) -> Result<(), Refusal>
    ensures { as_answer result ≡ first (rules_in (alone_refusals judgement.now)) }
{
    let case = case_in(judgement);
    statement::public_values(case)?;
    statement::distinct(case)?;
    statement::ranges(case)?;
    ends(judgement)?;
    statement::claims(case)
}

// Step 59: what else can be asked of the case alone.
fn check(judgement: &mut [u8]) -> Answer
    ensures value { result ≡ not_yet 59 }
    ensures judgement_after { judgement.new ≡ checked_in judgement.old }
{
    let found = Answer::from(alone(&*judgement));
    put_answer(&mut *judgement, found);
    put_steps(judgement, 59);
    not_yet(59)
}

// Step 60: the ledger is asked, and changed where the case is accepted.
fn settle(judgement: &mut [u8], table: &mut [u8], roll: &[u8], kept: &mut [u8]) -> Answer
    ensures value { result ≡ settled_by judgement.old table.old roll.now (ledger_of kept.old) }
    ensures judgement_after { judgement.new ≡ settled_in judgement.old table.old roll.now (ledger_of kept.old) }
    ensures table_after { table.new ≡ table_after_settling (answer_in judgement.old) (case_in judgement.old) table.old roll.now (ledger_of kept.old) }
    ensures kept_after { kept.new ≡ kept_after (settled_by judgement.old table.old roll.now (ledger_of kept.old)) (ledger_after_settling (answer_in judgement.old) (case_in judgement.old) table.old roll.now (ledger_of kept.old)) kept.old }
{
    let own = answer_in(&*judgement);
    let answer = judge::settle_kept(own, case_in(&*judgement), table, roll, kept);
    put_answer(&mut *judgement, answer);
    put_steps(judgement, 60);
    answer
}

// Takes the next step, whichever it is, on the ledger that is lent to it. A record without a case is refused with 1.
// A switch over the count, not a closure: the record outlives power, and bytes keep a number alone.
pub fn step(judgement: &mut [u8], table: &mut [u8], roll: &[u8], kept: &mut [u8]) -> Answer
    ensures value { result ≡ step_answer judgement.old table.old roll.now (ledger_of kept.old) }
    ensures judgement_after { judgement.new ≡ record_after_step judgement.old table.old roll.now (ledger_of kept.old) }
    ensures table_after { table.new ≡ table_after_step judgement.old table.old roll.now (ledger_of kept.old) }
    ensures kept_after { kept.new ≡ kept_after_step judgement.old table.old roll.now kept.old }
{
    if !holds_case(&*judgement) {
        return Answer::from(Refusal::Length);
    }
    let steps = steps_in(&*judgement);
    if steps < 29 {
        return climb(judgement, Which::First, steps as usize);
    }
    if steps < 58 {
        return climb(judgement, Which::Second, (steps - 29) as usize);
    }
    if steps == 58 {
        return check(judgement);
    }
    if steps == 59 {
        return settle(judgement, table, roll, kept);
    }
    answer_in(&*judgement)
}

// The byte that tells a case's edition.
fn edition_of(case: &[u8]) -> u8
    ensures { result ≡ edition_of case.now }
{
    if case.len() == 4210 { 1 } else { 2 }
}

// Puts a case behind the record's head. By hand: the library's copy of so many bytes is a call of memmove, and an
// archive for C asks for nothing but memcpy and memset.
fn put_case(judgement: &mut [u8], case: &[u8])
    requires { case_at + length case.now ≤ length judgement.old }
    ensures { judgement.new ≡ pasted case_at case.now judgement.old }
{
    for i in 0..case.len() {
        judgement[CASE_AT + i] = case[i];
    }
}

// Takes a case in, before its first step.
fn take_in(judgement: &mut [u8], case: &[u8])
    requires { case_at + length case.now ≤ length judgement.old }
    ensures { judgement.new ≡ with_case case.now judgement.old }
{
    let head = [0, edition_of(case), 0, 0, 0, 0];
    octets::copy_in(&mut *judgement, 0, &head);
    put_case(judgement, case);
}

// Step 1: takes the whole case into a record, whatever it held before, and climbs the first level.
pub fn begin(case: &[u8], judgement: &mut [u8]) -> Answer
    ensures value { result ≡ begin_answer case.now judgement.old }
    ensures judgement_after { judgement.new ≡ record_after_begin case.now judgement.old }
{
    if judgement.len() != JUDGEMENT_LENGTH {
        return Answer::from(Refusal::Length);
    }
    if !casefile::has_length(case) {
        let head = [1, 0, 1, 0, 0, 0];
        octets::copy_in(judgement, 0, &head);
        return Answer::from(Refusal::Length);
    }
    take_in(&mut *judgement, case);
    climb(judgement, Which::First, 0)
}
