// What a scanner's firmware links, by way of entry/calls.c: C functions on numbers and bytes. A host
// keeps a ledger in three buffers, its own 988 bytes, its table and its roll; nothing is kept here from
// call to call. Each call leaves the work to the crates below; of the ledger's bytes it reads what is asked
// for, and writes back what changed.
#![tactic(auto)]

ghost use Rattle.std.specs.Prelude.{◌≡◌};
ghost use Rattle.std.specs.Float.{binary64};
ghost use Rattle.std.specs.Float.Ieee.{to_bits};
ghost use Rattle.seal.specs.Pull.{seal_answer};
ghost use Rattle.host.specs.Answers.{code_of, answer_for};
ghost use Rattle.host.specs.Ledgers.{open_answer, ledger_after_open_call, roll_after_open_call, judge_answer, ledger_after_judge_call, table_after_judge_call, close_answer, ledger_after_close_call, roll_after_close_call, root_answer, root_after, hash_answer, hash_after};
ghost use Rattle.host.specs.Bags.{handed, body_answer, pull_after, own_answer, bag_answer, ledger_after_bag_call, table_after_bag_call, answers_of, report_of, report_after_bag_call};
ghost use Rattle.host.specs.Books.{is_answer, tally_in, tally_bytes, tally_answer, tally_after, day_row, day_answer, day_after};

use bag::Scanned;
use books::Tally;
use ledgerbytes::LEDGER_LENGTH;
use refusals::Answer;
use seal::{Calibration, SealRefusal};

// An answer as one number: the refusal's own, its place above that, and its row in the upper 16 bits.
pub fn code(a: Answer) -> u32
    ensures { result ≡ code_of a }
{
    let row = a.row;
    let upper = (row.index() % 65536) as u32;
    (a.number as u32) + 256 * (a.place as u32) + 65536 * upper
}

// What a caller does wrong: a lent buffer of another length than it must have, a tally that is full, a day list
// without that row, and what is no answer.
#[derive(Clone, Copy)]
pub enum Misuse {
    LedgerLength,
    RootLength,
    ReportLength,
    TallyLength,
    PullLength,
    DigestLength,
    JudgementLength,
    TallyFull,
    NoSuchRow,
    NoAnswer,
}

impl From<Misuse> for Answer {
    ghost from_gives = { λ misuse a. a ≡ answer_for misuse };

    fn from(misuse: Misuse) -> Answer {
        match misuse {
            Misuse::LedgerLength => Answer::refused(51, 1),
            Misuse::RootLength => Answer::refused(51, 2),
            Misuse::ReportLength => Answer::refused(51, 3),
            Misuse::TallyLength => Answer::refused(51, 4),
            Misuse::PullLength => Answer::refused(51, 5),
            Misuse::DigestLength => Answer::refused(51, 6),
            Misuse::JudgementLength => Answer::refused(51, 7),
            Misuse::TallyFull => Answer::refused(52, 0),
            Misuse::NoSuchRow => Answer::refused(53, 0),
            Misuse::NoAnswer => Answer::refused(54, 0),
        }
    }
}

// The same as one number.
pub fn refused(misuse: Misuse) -> u32
    ensures { result ≡ code_of (answer_for misuse) }
{
    code(Answer::from(misuse))
}

// Opens a fresh ledger. The table needs no byte of its own.
pub fn snaldrek_proved_open(ledger: &mut [u8], roll: &mut [u8]) -> u32
    ensures value { result ≡ code_of (open_answer ledger.old roll.old) }
    ensures ledger_after { ledger.new ≡ ledger_after_open_call ledger.old roll.old }
    ensures roll_after { roll.new ≡ roll_after_open_call ledger.old roll.old }
{
    if ledger.len() != LEDGER_LENGTH {
        return refused(Misuse::LedgerLength);
    }
    let opened = judge::open(roll);
    ledgerbytes::write(ledger, opened.ledger);
    code(opened.answer)
}

// Judges one case; an accepted one is entered.
pub fn snaldrek_proved_judge(case: &[u8], ledger: &mut [u8], table: &mut [u8], roll: &[u8]) -> u32
    ensures value { result ≡ code_of (judge_answer case.now ledger.old table.old roll.now) }
    ensures ledger_after { ledger.new ≡ ledger_after_judge_call case.now ledger.old table.old roll.now }
    ensures table_after { table.new ≡ table_after_judge_call case.now ledger.old table.old roll.now }
{
    if ledger.len() != LEDGER_LENGTH {
        return refused(Misuse::LedgerLength);
    }
    code(Answer::from(judge::judge_kept(case, table, roll, ledger)))
}

// Closes a block.
pub fn snaldrek_proved_close(ledger: &mut [u8], table: &[u8], roll: &mut [u8]) -> u32
    ensures value { result ≡ code_of (close_answer ledger.old table.now roll.old) }
    ensures ledger_after { ledger.new ≡ ledger_after_close_call ledger.old table.now roll.old }
    ensures roll_after { roll.new ≡ roll_after_close_call ledger.old table.now roll.old }
{
    if ledger.len() != LEDGER_LENGTH {
        return refused(Misuse::LedgerLength);
    }
    code(Answer::from(judge::close_kept(table, roll, ledger)))
}

// The root that a block closed now would put on the roll.
pub fn snaldrek_proved_root(ledger: &[u8], root: &mut [u8]) -> u32
    ensures value { result ≡ code_of (root_answer ledger.now root.old) }
    ensures root_after { root.new ≡ root_after ledger.now root.old }
{
    if ledger.len() != LEDGER_LENGTH {
        return refused(Misuse::LedgerLength);
    }
    if root.len() != 32 {
        return refused(Misuse::RootLength);
    }
    let kept = ledgerbytes::read(ledger);
    let tree = kept.tree;
    let now = tree.root();
    octets::copy_in(root, 0, &now);
    code(Answer::accepted())
}

// The SHA-256 of any bytes, by which a host recognises a stored ledger that is torn.
pub fn snaldrek_proved_hash(bytes: &[u8], digest: &mut [u8]) -> u32
    ensures value { result ≡ code_of (hash_answer digest.old) }
    ensures digest_after { digest.new ≡ hash_after bytes.now digest.old }
{
    if digest.len() != 32 {
        return refused(Misuse::DigestLength);
    }
    let sum = sha256::hash(bytes);
    octets::copy_in(digest, 0, &sum);
    code(Answer::accepted())
}

// A float's bits. Those of a NaN cannot be read, and the definitions have one pattern for it.
// Beside the one of `replay`, which promises 0 for a NaN: the two patterns are two definitions.
fn bits_of(x: f64) -> u64
    ensures { result ≡ to_bits binary64 x }
{
    if x.is_nan() {
        return 0x7ff8_0000_0000_0000;
    }
    f64::to_bits(x)
}

// Hands out the pull of a seal that passed, and of no other.
fn hand_out(sealed: Result<f64, SealRefusal>, pull: &mut [u8]) -> u32
    ensures value { result ≡ code_of (seal_answer sealed) }
    ensures pull_after { pull.new ≡ handed sealed pull.old }
{
    let answer = seal::answer(sealed);
    match sealed {
        Ok(p) => {
            let bytes = octets::le_bytes64(bits_of(p));
            octets::copy_in(pull, 0, &bytes);
            code(answer)
        }
        Err(_) => code(answer),
    }
}

// Judges a seal's body. The pull is handed out as eight bytes, so that all its bits are promised.
pub fn snaldrek_proved_seal(body: &[u8], gain: f64, offset: f64, pull: &mut [u8]) -> u32
    ensures value { result ≡ code_of (body_answer (record { gain = gain; offset = offset }) body.now pull.old) }
    ensures pull_after { pull.new ≡ pull_after (record { gain = gain; offset = offset }) body.now pull.old }
{
    if pull.len() != 8 {
        return refused(Misuse::PullLength);
    }
    match seal::read_body(body) {
        Ok(reading) => {
            let setting = Calibration { gain, offset };
            hand_out(seal::judge(setting, reading.gate, reading.raw), pull)
        }
        Err(broken) => code(Answer::from(broken)),
    }
}

// Seven answers, four bytes each.
fn answer_bytes(answers: [Answer; 7]) -> [u8; 28]
    ensures { result ≡ answers_of answers }
{
    let mut bytes = [0u8; 28];
    for (i, answer) in answers.iter().enumerate() {
        octets::copy_in(&mut bytes, 4 * i, &octets::le_bytes32(code(*answer)));
    }
    bytes
}

// The report on a bag: how many cases it had, and what they were answered.
fn report_of(scanned: Scanned) -> [u8; 32]
    ensures { result ≡ report_of scanned }
{
    let given = scanned.answers;
    let count = octets::le_bytes32((scanned.cases % 4294967296) as u32);
    let answers = answer_bytes(given);
    let mut bytes = [0u8; 32];
    octets::copy_in(&mut bytes, 0, &count);
    octets::copy_in(&mut bytes, 4, &answers);
    bytes
}

// The bag's own answer: the layout's where that refuses, else the seal's.
fn own_answer(scanned: Scanned) -> Answer
    ensures { result ≡ own_answer scanned }
{
    let layout = scanned.layout;
    if layout.is_accepted() {
        scanned.seal
    } else {
        layout
    }
}

// Judges a bag: its layout, its seal, and each of its cases, which the report tells of.
pub fn snaldrek_proved_bag(
    bag: &[u8],
    gain: f64,
    offset: f64,
    ledger: &mut [u8],
    table: &mut [u8],
    roll: &[u8],
    report: &mut [u8],
) -> u32
    ensures value { result ≡ code_of (bag_answer (record { gain = gain; offset = offset }) bag.now ledger.old table.old roll.now report.old) }
    ensures ledger_after { ledger.new ≡ ledger_after_bag_call (record { gain = gain; offset = offset }) bag.now ledger.old table.old roll.now report.old }
    ensures table_after { table.new ≡ table_after_bag_call (record { gain = gain; offset = offset }) bag.now ledger.old table.old roll.now report.old }
    ensures report_after { report.new ≡ report_after_bag_call (record { gain = gain; offset = offset }) bag.now ledger.old table.old roll.now report.old }
{
    if ledger.len() != LEDGER_LENGTH {
        return refused(Misuse::LedgerLength);
    }
    if report.len() != 32 {
        return refused(Misuse::ReportLength);
    }
    let kept = ledgerbytes::read(&*ledger);
    let scanned = bag::scan(bag, Calibration { gain, offset }, table, roll, kept);
    let own = own_answer(scanned);
    if !own.is_accepted() {
        return code(own);
    }
    let bytes = report_of(scanned);
    ledgerbytes::write(ledger, scanned.ledger);
    octets::copy_in(report, 0, &bytes);
    code(own)
}

// The tally that 12 bytes hold.
fn tally_in(bytes: &[u8]) -> Tally
    ensures { result ≡ tally_in bytes.now }
{
    Tally {
        seen: octets::le32(bytes, 0),
        passed: octets::le32(bytes, 4),
        refused: octets::le32(bytes, 8),
    }
}

fn tally_bytes(tally: Tally) -> [u8; 12]
    ensures { result ≡ tally_bytes tally }
{
    let counts = [
        octets::le_bytes32(tally.seen),
        octets::le_bytes32(tally.passed),
        octets::le_bytes32(tally.refused),
    ];
    octets::part(counts.as_flattened(), 0)
}

// Counts an answer, in the form that the other calls give it.
pub fn snaldrek_proved_tally(tally: &mut [u8], answer: u32) -> u32
    ensures value { result ≡ code_of (tally_answer tally.old answer) }
    ensures tally_after { tally.new ≡ tally_after tally.old answer }
{
    if tally.len() != 12 {
        return refused(Misuse::TallyLength);
    }
    let Some(counted) = books::counted(tally_in(&*tally), answer == 0) else {
        return refused(Misuse::TallyFull);
    };
    let bytes = tally_bytes(counted);
    octets::copy_in(tally, 0, &bytes);
    code(Answer::accepted())
}

// A row of the day list: the seal's number, and an answer's number and place. Its row is left out.
// Copied in piece by piece: `as_flattened` joins only pieces of one length.
fn day_row(seal: u32, answer: u32) -> [u8; 6]
    ensures { result ≡ day_row seal answer }
{
    let front = octets::le_bytes32(seal);
    let behind = octets::le_bytes16((answer % 65536) as u16);
    let mut bytes = [0u8; 6];
    octets::copy_in(&mut bytes, 0, &front);
    octets::copy_in(&mut bytes, 4, &behind);
    bytes
}

// Whether a call can have returned it: a number and a place, with the number 8 also a row, and with the
// number 0 nothing else.
fn is_answer(answer: u32) -> bool
    ensures { result ≡ is_answer answer }
{
    if 65535 < answer {
        return answer % 256 == 8;
    }
    if answer % 256 != 0 {
        return true;
    }
    answer == 0
}

// Rewrites one row of the day list by an answer that a call returned. Anything else is refused.
pub fn snaldrek_proved_day(list: &mut [u8], row: usize, seal: u32, answer: u32) -> u32
    ensures value { result ≡ code_of (day_answer row answer list.old) }
    ensures list_after { list.new ≡ day_after row seal answer list.old }
{
    if list.len() / 6 <= row {
        return refused(Misuse::NoSuchRow);
    }
    if !is_answer(answer) {
        return refused(Misuse::NoAnswer);
    }
    let bytes = day_row(seal, answer);
    octets::copy_in(list, 6 * row, &bytes);
    code(Answer::accepted())
}
