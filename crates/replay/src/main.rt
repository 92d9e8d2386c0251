// A whole shift from a tape: entries that open, plant, write, judge and close, read from standard input one
// after the other, and a line printed for each. It keeps one ledger and the two buffers lent to it.
// What an entry leaves and which bytes are printed of it is the contract of `play_next`. What its answer
// is, is left to `judge`, `desk`, `ledger` and `seal`.
#![tactic(auto)]

ghost use Rattle.std.specs.Prelude.{◌≡◌, ◌+◌, ◌*◌, ◌^◌, ◌<◌, ◌≤◌, min, false, ◌++◌, length, take, drop};
ghost use Rattle.octets.specs.Parts.{zeros};
ghost use Rattle.refusals.specs.Rules.{first, answer};
ghost use Rattle.sha256.specs.Hash.{sha256_of};
ghost use Rattle.tree.specs.Record.{record_root};
ghost use Rattle.ledger.specs.Ledgers.{open_refusals, opened_of, roll_after_open, room_in};
ghost use Rattle.judge.specs.Judging.{judged_of, table_after_case};
ghost use Rattle.text.specs.Words.{ascii};
ghost use Rattle.text.specs.Decimal.{decimal};
ghost use Rattle.text.specs.Answers.{answer_words, answer_line};
ghost use Rattle.text.specs.Hex.{hex, hex64};
ghost use Rattle.text.specs.Pen.{pen, Wrote, Rendered};
ghost use Rattle.replay.specs.Looks.{ledger_text, row_line, row_lines, rows_text, memory_text, pull_bits, sealed_text, seal_text};
ghost use Rattle.replay.specs.Tape.{nothing as nothing_of, running_on, can_lend, open_turn, plant_length, plant_turn, row_laid, laid_by, can_lay, table_turn, roll_turn, lay_turn, case_turn, desk_line, desk_on, desk_turn, fresh_turn, block_turn, look_turn, bare_turn, seal_turn, name_turn, other_turn, entry_turn, next_turn, entry_length, longest, LentWithin, Plays};

use ledger::{Answered, Ledger};
use lines::Broken;
use refusals::Answer;
use seal::{Calibration, SealRefusal};
use std::io;
use text::Page;
use tree::Tree;
use units::Amount;

// A page with room for the longest text of an entry.
const LONGEST: usize = 219136;

type Sheet = Page<LONGEST>;

// What is kept from entry to entry: the ledger, how many bytes of each buffer are lent to it, and
// whether the run goes on. The buffers are handed beside it: an entry that only looks is lent them for
// reading, which the contract then need not promise, and no one struct could be lent so by halves. So each
// contract over them asks `LentWithin` anew.
// A flag, since `nothing false` of specs/Tape.antt says of the ledger after the run too.
#[derive(Clone, Copy)]
pub struct State {
    pub on: bool,
    pub ledger: Ledger,
    pub table: usize,
    pub roll: usize,
}

// An entry of the tape: its kind, and its body's length.
// The bytes stay in the buffer: `next_turn` of specs/Tape.antt is over the length and the whole buffer.
// The kind stays the tape's byte: `entry_turn` is over it, and a byte of no kind breaks the tape off.
#[derive(Clone, Copy)]
pub struct Entry {
    pub kind: u8,
    pub length: usize,
}

// A ledger with nothing in it, not even an anchor, on buffers of no length.
fn nothing(on: bool) -> State
    ensures { result ≡ nothing_of on }
{
    let ledger = Ledger {
        nullifiers: 0,
        anchors: 0,
        tree: Tree::fresh(),
        pool: Amount::of(0),
    };
    State {
        on,
        ledger,
        table: 0,
        roll: 0,
    }
}

// A fresh ledger on zeroed buffers.
fn opened(table: &mut [u8], roll: &mut [u8]) -> Answered
    ensures answer_value { result.answer ≡ first (open_refusals (zeros (length roll.old))) }
    ensures ledger_value { result.ledger ≡ opened_of (zeros (length roll.old)) }
    ensures table_after { table.new ≡ zeros (length table.old) }
    ensures roll_after { roll.new ≡ roll_after_open (zeros (length roll.old)) }
{
    table.fill(0);
    roll.fill(0);
    judge::open(roll)
}

// The bits of a pull that passed, which is no NaN: a NaN's bits cannot be read.
fn bits_of(pull: f64) -> u64
    ensures { result ≡ pull_bits pull }
{
    if pull.is_nan() {
        return 0;
    }
    f64::to_bits(pull)
}

// A word and bytes as hexadecimal digits: a row, a root or a hash.
fn put_named(page: &mut Sheet, word: &[u8], bytes: &[u8; 32])
    ensures { Wrote (length word.now + 64) (word.now ++ hex bytes.now) page.old page.new }
{
    page.put(word);
    page.put_hex(bytes);
}

// The end of the line about a ledger: its pool and its root.
fn put_pool_and_root(page: &mut Sheet, l: Ledger)
    ensures { Wrote 97 (ascii " pool " ++ decimal l.pool.0 ++ ascii " root " ++ hex (record_root l.tree) ++ ascii "\n") page.old page.new }
{
    page.put_count(b" pool ", l.pool.zatoshi());
    put_named(page, b" root ", &l.tree.root());
    page.put(b"\n");
}

fn put_ledger(page: &mut Sheet, l: Ledger)
    ensures { Wrote 187 (ledger_text l) page.old page.new }
{
    page.put_count(b"ledger spent ", l.nullifiers as u64);
    page.put_count(b" leaves ", l.tree.leaves as u64);
    page.put_count(b" anchors ", l.anchors as u64);
    put_pool_and_root(page, l);
}

// How many of count rows there is room for: in so many bytes, and at most so many.
fn rows_shown(most: usize, count: usize, len: usize) -> usize
    ensures { result ≡ min count (room_in most len) }
{
    count.min((len / 32).min(most))
}

fn put_row(page: &mut Sheet, word: &[u8], row: &[u8; 32])
    ensures { Wrote (length word.now + 65) (row_line word.now row.now) page.old page.new }
{
    put_named(page, word, row);
    page.put(b"\n");
}

fn put_rows(page: &mut Sheet, word: &[u8], n: usize, bytes: &[u8])
    requires { n * 32 ≤ length bytes.now }
    ensures { Wrote ((length word.now + 65) * n) (row_lines word.now n bytes.now) page.old page.new }
{
    for row in bytes[..n * 32].as_chunks::<32>().0 {
        put_row(page, word, row);
    }
}

fn put_all_rows(page: &mut Sheet, table: &[u8], roll: &[u8], l: Ledger)
    ensures { Wrote longest (rows_text table.now roll.now l) page.old page.new }
{
    let n = rows_shown(2048, l.nullifiers, table.len());
    let m = rows_shown(1024, l.anchors, roll.len());
    put_rows(page, b"spent ", n, table);
    put_rows(page, b"anchor ", m, roll);
}

// A word and the hash of some bytes, so that many bytes are compared by one short line.
fn put_hash(page: &mut Sheet, word: &[u8], bytes: &[u8])
    ensures { Wrote (length word.now + 64) (word.now ++ hex (sha256_of bytes.now)) page.old page.new }
{
    put_named(page, word, &sha256::hash(bytes));
}

// What no answer shows: every lent byte, the spare ones too, and every node of the record, the unused
// ones too.
fn put_memory(page: &mut Sheet, table: &[u8], roll: &[u8], l: Ledger)
    ensures { Wrote 202 (memory_text table.now roll.now l) page.old page.new }
{
    let nodes = l.tree.nodes;
    put_hash(page, b"memory ", table);
    put_hash(page, b" ", roll);
    put_hash(page, b" ", &nodes);
    page.put(b"\n");
}

// A seal that passed: its pull behind the answer.
fn put_passed(page: &mut Sheet, a: Answer, pull: f64)
    ensures { Wrote 64 (answer_words (ascii "seal") a ++ ascii " " ++ hex64 (pull_bits pull) ++ ascii "\n") page.old page.new }
{
    page.put_answer(b"seal", a);
    page.put(b" ");
    page.put_hex64(bits_of(pull));
    page.put(b"\n");
}

fn put_sealed(page: &mut Sheet, sealed: Result<f64, SealRefusal>)
    ensures { Wrote 64 (sealed_text sealed) page.old page.new }
{
    let a = seal::answer(sealed);
    match sealed {
        Ok(pull) => put_passed(page, a, pull),
        Err(_) => page.put_answer_line(b"seal", a),
    }
}

fn put_seal(page: &mut Sheet, body: &[u8])
    requires { length body.now ≡ 41 }
    ensures { Wrote 64 (seal_text body.now) page.old page.new }
{
    let c = Calibration {
        gain: seal::float_at(body, 0),
        offset: seal::float_at(body, 8),
    };
    match seal::read_body(&body[16..41]) {
        Ok(reading) => put_sealed(page, seal::judge(c, reading.gate, reading.raw)),
        Err(broken) => page.put_answer_line(b"seal", Answer::from(broken)),
    }
}

// Whatever breaks the tape's layout ends the run.
// 50 is this program's own and tray's: no library call answers it, so it has no name among refusals.
fn break_off(page: &mut Sheet) -> State
    ensures state_value { result ≡ nothing_of false }
    ensures wrote { Wrote 47 (answer_line (ascii "tape") (answer 50 0)) page.old page.new }
{
    page.put_answer_line(b"tape", Answer::refused(50, 0));
    nothing(false)
}

// Whether an entry's body is whole and the buffers have the bytes that it lends.
fn can_lend(whole: bool, n: usize, m: usize, table: usize, roll: usize) -> bool
    ensures { result ≡ can_lend whole n m table roll }
{
    if whole && n <= table {
        return m <= roll;
    }
    false
}

fn going_on(ledger: Ledger, table: usize, roll: usize) -> State
    ensures { result ≡ running_on ledger table roll }
{
    State {
        on: true,
        ledger,
        table,
        roll,
    }
}

fn run_open(body: &[u8], table: &mut [u8], roll: &mut [u8], page: &mut Sheet) -> State
    ensures { Plays (open_turn body.now table.old roll.old) table.new roll.new page.old page.new result }
{
    let n = octets::le32(body, 0) as usize;
    let m = octets::le32(body, 4) as usize;
    if can_lend(body.len() == 8, n, m, table.len(), roll.len()) {
        let a = opened(&mut table[..n], &mut roll[..m]);
        page.put_answer_line(b"open", a.answer);
        return going_on(a.ledger, n, m);
    }
    break_off(page)
}

// How long the body is of an entry that plants: with the bytes of table and roll given in it, or without.
fn plant_length(given: bool, n: usize, m: usize) -> usize
    requires { n + m < 2 ^ 33 }
    ensures { result ≡ plant_length given n m }
{
    if given {
        return 996 + n + m;
    }
    996
}

fn run_plant(given: bool, body: &[u8], table: &mut [u8], roll: &mut [u8], page: &mut Sheet) -> State
    ensures { Plays (plant_turn given body.now table.old roll.old) table.new roll.new page.old page.new result }
{
    let n = octets::le32(body, 988) as usize;
    let m = octets::le32(body, 992) as usize;
    let whole = body.len() == plant_length(given, n, m);
    if can_lend(whole, n, m, table.len(), roll.len()) {
        octets::fill(&mut table[..n], body, 996);
        octets::fill(&mut roll[..m], body, 996 + n);
        page.put_answer_line(b"plant", Answer::accepted());
        return going_on(ledgerbytes::read(body), n, m);
    }
    break_off(page)
}

// One row that is laid by rule: the number's eight bytes, the highest first, and 24 bytes of the entry.
fn lay_row(bytes: &mut [u8], at: usize, number: u64, body: &[u8])
    requires { (length body.now ≡ 48) × (at < 2 ^ 40) }
    ensures { bytes.new ≡ row_laid at number (take 24 (drop 24 body.now)) bytes.old }
{
    let high = octets::be_bytes64(number);
    octets::copy_in(&mut *bytes, at, &high);
    octets::copy_in(bytes, at + 8, &body[24..48]);
}

// The rows that an entry lays by rule, one after the other. A row's index is part of the rule.
fn lay_rows(bytes: &mut [u8], body: &[u8])
    requires { length body.now ≡ 48 }
    ensures { bytes.new ≡ laid_by body.now bytes.old }
{
    let first = octets::le32(body, 0) as usize;
    let rows = octets::le32(body, 4) as usize;
    let step = octets::le64(body, 16);
    let mut number = octets::le64(body, 8);
    for i in 0..rows {
        lay_row(&mut *bytes, (first + i) * 32, number, body);
        number = number.wrapping_add(step);
    }
}

// Whether an entry's body is whole and so many lent bytes have the rows that it lays.
fn can_lay(body: &[u8], lent: usize) -> bool
    ensures { result ≡ can_lay body.now lent }
{
    if body.len() == 48 {
        let first = octets::le32(body, 0) as usize;
        let rows = octets::le32(body, 4) as usize;
        return (first + rows) * 32 <= lent;
    }
    false
}

// This and `run_roll` are two, since each is lent for writing only the buffer that it fills.
fn run_table(body: &[u8], table: &mut [u8], roll: &[u8], state: State, page: &mut Sheet) -> State
    requires { LentWithin state table.old roll.now }
    ensures { Plays (table_turn body.now table.old roll.now state) table.new roll.now page.old page.new result }
{
    let n = state.table;
    if can_lay(body, n) {
        lay_rows(&mut table[..n], body);
        page.put_answer_line(b"fill", Answer::accepted());
        return state;
    }
    break_off(page)
}

fn run_roll(body: &[u8], table: &[u8], roll: &mut [u8], state: State, page: &mut Sheet) -> State
    requires { LentWithin state table.now roll.old }
    ensures { Plays (roll_turn body.now table.now roll.old state) table.now roll.new page.old page.new result }
{
    let m = state.roll;
    if can_lay(body, m) {
        lay_rows(&mut roll[..m], body);
        page.put_answer_line(b"fill", Answer::accepted());
        return state;
    }
    break_off(page)
}

// Entries that lay down a ledger or rows, which no call has made.
fn run_lay(
    kind: u8,
    body: &[u8],
    table: &mut [u8],
    roll: &mut [u8],
    state: State,
    page: &mut Sheet,
) -> State
    requires { LentWithin state table.old roll.old }
    ensures { Plays (lay_turn kind body.now table.old roll.old state) table.new roll.new page.old page.new result }
{
    match kind {
        b'P' => run_plant(true, body, table, roll, page),
        b'K' => run_plant(false, body, table, roll, page),
        b'T' => run_table(body, table, roll, state, page),
        b'A' => run_roll(body, table, roll, state, page),
        _ => break_off(page),
    }
}

// The case that is judged next, on the lent bytes.
fn judged(body: &[u8], table: &mut [u8], roll: &[u8], state: State) -> Answered
    requires { LentWithin state table.old roll.now }
    ensures value { result ≡ judged_of body.now (take state.table table.old) (take state.roll roll.now) state.ledger }
    ensures table_after { table.new ≡ table_after_case body.now (take state.table table.old) (take state.roll roll.now) state.ledger ++ drop state.table table.old }
{
    let n = state.table;
    let m = state.roll;
    judge::judge(body, &mut table[..n], &roll[..m], state.ledger)
}

fn run_case(body: &[u8], table: &mut [u8], roll: &[u8], state: State, page: &mut Sheet) -> State
    requires { LentWithin state table.old roll.now }
    ensures { Plays (case_turn body.now table.old roll.now state) table.new roll.now page.old page.new result }
{
    let a = judged(body, table, roll, state);
    page.put_answer_and_row(b"case", a.answer);
    going_on(a.ledger, state.table, state.roll)
}

// The desk's line: its answer, and a hash of every byte of its buffer.
fn put_desk(page: &mut Sheet, a: Answer, buffer: &[u8])
    ensures { Wrote 112 (desk_line a buffer.now) page.old page.new }
{
    page.put_answer(b"desk", a);
    put_hash(page, b" ", buffer);
    page.put(b"\n");
}

// What the desk writes is judged; what it refuses is not.
fn run_draft(
    draft: &[u8],
    buffer: &mut [u8],
    table: &mut [u8],
    roll: &[u8],
    state: State,
    page: &mut Sheet,
) -> State
    requires { LentWithin state table.old roll.now }
    ensures { Plays (desk_on draft.now buffer.old table.old roll.now state) table.new roll.now page.old page.new result }
{
    let answer = Answer::from(desk::write(draft, &mut *buffer));
    put_desk(page, answer, buffer);
    if !answer.is_accepted() {
        return state;
    }
    let a = judged(buffer, table, roll, state);
    page.put_answer_and_row(b"case", a.answer);
    going_on(a.ledger, state.table, state.roll)
}

fn run_desk(body: &[u8], table: &mut [u8], roll: &[u8], state: State, page: &mut Sheet) -> State
    requires { LentWithin state table.old roll.now }
    ensures { Plays (desk_turn body.now table.old roll.now state) table.new roll.now page.old page.new result }
{
    if body.len() < 4 {
        return break_off(page);
    }
    let n = octets::le32(body, 0) as usize;
    if 4352 < n {
        return break_off(page);
    }
    let mut buffer = [0xa5u8; 4352];
    run_draft(&body[4..], &mut buffer[..n], table, roll, state, page)
}

// A fresh ledger on the lent bytes as they stand: entries that look before and after show what it changes.
fn run_fresh(table: &[u8], roll: &mut [u8], state: State, page: &mut Sheet) -> State
    requires { LentWithin state table.now roll.old }
    ensures { Plays (fresh_turn table.now roll.old state) table.now roll.new page.old page.new result }
{
    let n = state.table;
    let m = state.roll;
    let a = judge::open(&mut roll[..m]);
    page.put_answer_line(b"open", a.answer);
    going_on(a.ledger, n, m)
}

fn run_block(table: &[u8], roll: &mut [u8], state: State, page: &mut Sheet) -> State
    requires { LentWithin state table.now roll.old }
    ensures { Plays (block_turn table.now roll.old state) table.now roll.new page.old page.new result }
{
    let n = state.table;
    let m = state.roll;
    let a = judge::close(&table[..n], &mut roll[..m], state.ledger);
    page.put_answer_line(b"block", a.answer);
    going_on(a.ledger, n, m)
}

// Entries that look at the ledger, its rows or its memory, and change nothing.
fn run_look(kind: u8, table: &[u8], roll: &[u8], state: State, page: &mut Sheet) -> State
    requires { LentWithin state table.now roll.now }
    ensures { Plays (look_turn kind table.now roll.now state) table.now roll.now page.old page.new result }
{
    let n = state.table;
    let m = state.roll;
    match kind {
        b'L' => put_ledger(page, state.ledger),
        b'R' => put_all_rows(page, &table[..n], &roll[..m], state.ledger),
        b'M' => put_memory(page, &table[..n], &roll[..m], state.ledger),
        _ => return break_off(page),
    }
    state
}

// Entries whose body is empty.
fn run_bare(kind: u8, table: &[u8], roll: &mut [u8], state: State, page: &mut Sheet) -> State
    requires { LentWithin state table.now roll.old }
    ensures { Plays (bare_turn kind table.now roll.old state) table.now roll.new page.old page.new result }
{
    match kind {
        b'F' => run_fresh(table, roll, state, page),
        b'B' => run_block(table, roll, state, page),
        _ => run_look(kind, table, roll, state, page),
    }
}

// A name, which changes nothing but what is printed.
fn run_name(body: &[u8], table: &[u8], roll: &[u8], state: State, page: &mut Sheet) -> State
    requires { LentWithin state table.now roll.now }
    ensures { Plays (name_turn body.now table.now roll.now state) table.now roll.now page.old page.new result }
{
    if body.len() <= 100 {
        page.put_name_line(body);
        return state;
    }
    break_off(page)
}

// A seal, which changes nothing but what is printed.
fn run_seal(body: &[u8], table: &[u8], roll: &[u8], state: State, page: &mut Sheet) -> State
    requires { LentWithin state table.now roll.now }
    ensures { Plays (seal_turn body.now table.now roll.now state) table.now roll.now page.old page.new result }
{
    if body.len() == 41 {
        put_seal(page, body);
        return state;
    }
    break_off(page)
}

// Entries that are known by their kind and by whether their body is empty.
fn run_other(
    kind: u8,
    body: &[u8],
    table: &mut [u8],
    roll: &mut [u8],
    state: State,
    page: &mut Sheet,
) -> State
    requires { LentWithin state table.old roll.old }
    ensures { Plays (other_turn kind body.now table.old roll.old state) table.new roll.new page.old page.new result }
{
    if body.is_empty() {
        return run_bare(kind, table, roll, state, page);
    }
    run_lay(kind, body, table, roll, state, page)
}

// A match over bytes, not a table of calls: each is lent other buffers for writing, so no one type fits.
fn run(
    kind: u8,
    body: &[u8],
    table: &mut [u8],
    roll: &mut [u8],
    state: State,
    page: &mut Sheet,
) -> State
    requires { LentWithin state table.old roll.old }
    ensures { Plays (entry_turn kind body.now table.old roll.old state) table.new roll.new page.old page.new result }
{
    match kind {
        b'O' => run_open(body, table, roll, page),
        b'C' => run_case(body, table, roll, state, page),
        b'D' => run_desk(body, table, roll, state, page),
        b'S' => run_seal(body, table, roll, state, page),
        b'N' => run_name(body, table, roll, state, page),
        _ => run_other(kind, body, table, roll, state, page),
    }
}

// Reads the next entry's body to the start of a buffer as long as the longest body. A read that fails
// counts as the tape's end.
fn read_next(input: &mut impl io::Read, buffer: &mut [u8]) -> Result<Option<Entry>, Broken>
    ensures { entry_length result ≤ length buffer.new }
{
    let mut head = [0u8; 5];
    let got = lines::read_full(input, &mut head);
    if got == 0 {
        return Ok(None);
    }
    if got < 5 {
        return Err(Broken);
    }
    let length = octets::le32(&head, 1) as usize;
    lines::read_whole(input, buffer, length)?;
    Ok(Some(Entry {
        kind: head[0],
        length,
    }))
}

// Plays what stands next, on a page that is cleared for it. It has room for the longest text, so what stands on it
// then is the text of this entry, whole and alone.
fn play_next(
    next: Result<Option<Entry>, Broken>,
    buffer: &[u8],
    table: &mut [u8],
    roll: &mut [u8],
    state: State,
    page: &mut Sheet,
) -> State
    requires next_in_bounds { entry_length next ≤ length buffer.now }
    requires lent_within { LentWithin state table.old roll.old }
    ensures plays { Plays (next_turn next buffer.now table.old roll.old state) table.new roll.new (pen page.old.page 0) page.new result }
    ensures text { Rendered (next_turn next buffer.now table.old roll.old state).text page.old.page page.new.page page.new.at }
{
    page.clear();
    match next {
        Ok(Some(e)) => run(e.kind, &buffer[..e.length], table, roll, state, page),
        Ok(None) => nothing(false),
        Err(Broken) => break_off(page),
    }
}

// Plays and prints what stands next. A run whose text cannot be written ends.
fn turn(
    input: &mut impl io::Read,
    rt: &(impl Print + Eprint),
    buffer: &mut [u8],
    table: &mut [u8],
    roll: &mut [u8],
    state: State,
    page: &mut Sheet,
) -> State
    requires { LentWithin state table.old roll.old }
    ensures { LentWithin result table.new roll.new }
{
    let next = read_next(input, buffer);
    let played = play_next(next, buffer, table, roll, state, page);
    if lines::print(rt, page.text()) {
        return played;
    }
    nothing(false)
}

// A proved loop has to end, and nothing says that a tape does: the turns are counted to a number that no
// run uses up. One page serves for all entries: to make it anew takes longer than to play most of them.
fn play(
    input: &mut impl io::Read,
    rt: &(impl Print + Eprint),
    buffer: &mut [u8],
    table: &mut [u8],
    roll: &mut [u8],
) {
    let mut page = Sheet::new();
    let mut state = nothing(true);
    for _ in 0..u64::MAX {
        if !state.on {
            break;
        }
        state = turn(input, rt, buffer, table, roll, state, &mut page);
    }
}

// The longest body, table and roll that a tape may have. A table of 2,097,247 bytes has two rows more than
// the 65,536 that a ledger may use, and 31 bytes; a roll of 131,167 bytes two more than 4,096, and 31.
fn main(rt: HostRuntime) {
    let mut buffer = [0u8; 131072];
    let mut table = [0u8; 2097247];
    let mut roll = [0u8; 131167];
    play(&mut rt.stdin(), &rt, &mut buffer, &mut table, &mut roll);
}
