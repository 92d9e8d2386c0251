// A bag: its layout, the seal in front, and the cases behind it, judged one after the other on one
// ledger. What a seal's body says and whether it passes is left to `seal`, what becomes of a case
// to `judge`.
#![tactic(auto)]

ghost use Rattle.std.specs.Prelude.{◌≡◌, true, ◌+◌, ◌≤◌, ◌<◌, [], length};
ghost use Rattle.refusals.specs.Rules.{accepted};
ghost use Rattle.bag.specs.Contents.{row_count, row_start, entry_of, kind_at, in_order, laid_out, body_of, cases_of};
ghost use Rattle.bag.specs.SealAndCases.{seal_in, judged_from, report, scanned_of, table_after_bag};

use ledger::Ledger;
use refusals::Answer;
use seal::{Calibration, Reading, SealRefusal};

// The longest bag, and the most rows of its table of contents.
pub const MOST_BYTES: usize = 65536;

const MOST_ROWS: usize = 8;

// A row of the table of contents: what its body is, where it starts, how long it is. The kind stays a byte: it is
// only compared with the one that its row must have, and an enum would need a reading that can fail.
#[derive(Clone, Copy)]
struct Entry {
    kind: u8,
    offset: u32,
    size: u32,
}

// What scanning a bag gave. An answer that was not given is 255 and 0, which no refusal has. It stays an Answer,
// not an Option: `report` of specs/SealAndCases.antt is over it, and C is handed it as a number.
// The product has no heap, so the answers are an array and a count.
#[derive(Clone, Copy)]
pub struct Scanned {
    pub layout: Answer,
    pub seal: Answer,
    pub cases: usize,
    pub answers: [Answer; 7],
    pub ledger: Ledger,
}

// How many rows the table of contents has.
fn row_count(bag: &[u8]) -> usize
    ensures { result ≡ row_count bag.now }
{
    octets::le16(bag, 0) as usize
}

// Row i of it.
fn entry_at(bag: &[u8], i: usize) -> Entry
    requires { i < 8 }
    ensures { result ≡ entry_of i bag.now }
{
    let at = 2 + 9 * i;
    Entry {
        kind: octets::byte_from(bag, at, 0),
        offset: octets::le32(bag, at + 1),
        size: octets::le32(bag, at + 5),
    }
}

// Row one is the seal, later rows are cases.
fn kind_at(i: usize) -> u8
    ensures { result ≡ kind_at i }
{
    if i == 0 { 1 } else { 2 }
}

// Whether each row has its kind and each body starts where the one before ended, up to the end. Rows are read by
// number, as a bag may end within its table, and what is missing reads as zero.
fn is_in_order(bag: &[u8], n: usize) -> bool
    requires { n ≤ 8 }
    ensures { result ≡ in_order n 0 (row_start n) bag.now }
{
    let mut at = 2 + 9 * n;
    for i in 0..n {
        let e = entry_at(bag, i);
        if e.kind != kind_at(i) {
            return false;
        }
        if e.offset as usize != at {
            return false;
        }
        at += e.size as usize;
    }
    at == bag.len()
}

// Whether the bag keeps to the layout, up to what stands in its bodies.
fn is_laid_out(bag: &[u8]) -> bool
    ensures { result ≡ laid_out bag.now }
{
    if MOST_BYTES < bag.len() {
        return false;
    }
    let n = row_count(bag);
    if n < 1 {
        return false;
    }
    if MOST_ROWS < n {
        return false;
    }
    is_in_order(bag, n)
}

// The body of a row, as a part of the bag: nothing is copied.
fn body(bag: &[u8], i: usize) -> &[u8]
    requires i_bound { i < 8 }
    requires bag_in_bounds { (entry_of i bag.now).offset + (entry_of i bag.now).size ≤ length bag.now }
    ensures { result.now ≡ body_of i bag.now }
{
    let e = entry_at(bag, i);
    let start = e.offset as usize;
    let end = start + e.size as usize;
    &bag[start..end]
}

// What the bag says of its seal. A bag that breaks the layout says as little as a broken seal.
fn seal_in(bag: &[u8]) -> Result<Reading, SealRefusal>
    ensures { result ≡ seal_in bag.now }
{
    if !is_laid_out(bag) {
        return Err(SealRefusal::Broken);
    }
    seal::read_body(body(bag, 0))
}

// The result of a scan that stopped at the layout or at the seal.
fn unjudged(layout: Answer, seal: Answer, ledger: Ledger) -> Scanned
    ensures { result ≡ report layout seal [] ledger }
{
    let none = Answer::not_given();
    Scanned {
        layout,
        seal,
        cases: 0,
        answers: [none; 7],
        ledger,
    }
}

// Judges the cases in order. Each finds the table and the ledger as the one before left them.
// Rows are read by number, as above: row i is case i, and its answer stands one before it.
fn judge_cases(bag: &[u8], table: &mut [u8], roll: &[u8], start: Ledger) -> Scanned
    requires { laid_out bag.now ≡ true }
    ensures value { result ≡ report accepted accepted (judged_from table.old roll.now start (cases_of bag.now)).answers (judged_from table.old roll.now start (cases_of bag.now)).ledger }
    ensures table_after { table.new ≡ (judged_from table.old roll.now start (cases_of bag.now)).table }
{
    let n = row_count(bag);
    let none = Answer::not_given();
    let mut answers = [none; 7];
    let mut ledger = start;
    for i in 1..n {
        let case = body(bag, i);
        let judged = judge::judge(case, &mut *table, roll, ledger);
        answers[i - 1] = judged.answer;
        ledger = judged.ledger;
    }
    let passed = Answer::accepted();
    Scanned {
        layout: passed,
        seal: passed,
        cases: n - 1,
        answers,
        ledger,
    }
}

// Scans a bag: its layout, its seal, and then its cases, on any ledger.
pub fn scan(
    bag: &[u8],
    calibration: Calibration,
    table: &mut [u8],
    roll: &[u8],
    ledger: Ledger,
) -> Scanned
    ensures value { result ≡ scanned_of calibration bag.now table.old roll.now ledger }
    ensures table_after { table.new ≡ table_after_bag calibration bag.now table.old roll.now ledger }
{
    let reading = match seal_in(bag) {
        Ok(reading) => reading,
        Err(broken) => return unjudged(Answer::from(broken), Answer::not_given(), ledger),
    };
    if let Err(refusal) = seal::judge(calibration, reading.gate, reading.raw) {
        return unjudged(Answer::accepted(), Answer::from(refusal), ledger);
    }
    judge_cases(bag, table, roll, ledger)
}
