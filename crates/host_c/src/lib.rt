// The functions of `host` as C sees them: the archive that a scanner's firmware links, by way of entry/calls.c. Each
// hands on to the function of its name, and promises what that one does.
// C needs each of them beside the one in `host`: a crate is a library for Rattle or an archive for C.
#![tactic(auto)]

ghost use Rattle.std.specs.Prelude.{◌≡◌};
ghost use Rattle.host.specs.Answers.{code_of};
ghost use Rattle.host.specs.Ledgers.{open_answer, ledger_after_open_call, roll_after_open_call, judge_answer, ledger_after_judge_call, table_after_judge_call, close_answer, ledger_after_close_call, roll_after_close_call, root_answer, root_after, hash_answer, hash_after};
ghost use Rattle.host.specs.Bags.{body_answer, pull_after, bag_answer, ledger_after_bag_call, table_after_bag_call, report_after_bag_call};
ghost use Rattle.host.specs.Books.{tally_answer, tally_after, day_answer, day_after};

// Opens a fresh ledger. The table needs no byte of its own.
#[unsafe(no_mangle)]
pub extern "C" fn snaldrek_proved_open(ledger: &mut [u8], roll: &mut [u8]) -> u32
    ensures value { result ≡ code_of (open_answer ledger.old roll.old) }
    ensures ledger_after { ledger.new ≡ ledger_after_open_call ledger.old roll.old }
    ensures roll_after { roll.new ≡ roll_after_open_call ledger.old roll.old }
{
    host::snaldrek_proved_open(ledger, roll)
}

// Judges one case; an accepted one is entered.
#[unsafe(no_mangle)]
pub extern "C" fn snaldrek_proved_judge(
    case: &[u8],
    ledger: &mut [u8],
    table: &mut [u8],
    roll: &[u8],
) -> u32
    ensures value { result ≡ code_of (judge_answer case.now ledger.old table.old roll.now) }
    ensures ledger_after { ledger.new ≡ ledger_after_judge_call case.now ledger.old table.old roll.now }
    ensures table_after { table.new ≡ table_after_judge_call case.now ledger.old table.old roll.now }
{
    host::snaldrek_proved_judge(case, ledger, table, roll)
}

// Closes a block.
#[unsafe(no_mangle)]
pub extern "C" fn snaldrek_proved_close(ledger: &mut [u8], table: &[u8], roll: &mut [u8]) -> u32
    ensures value { result ≡ code_of (close_answer ledger.old table.now roll.old) }
    ensures ledger_after { ledger.new ≡ ledger_after_close_call ledger.old table.now roll.old }
    ensures roll_after { roll.new ≡ roll_after_close_call ledger.old table.now roll.old }
{
    host::snaldrek_proved_close(ledger, table, roll)
}

// The root that a block closed now would put on the roll.
#[unsafe(no_mangle)]
pub extern "C" fn snaldrek_proved_root(ledger: &[u8], root: &mut [u8]) -> u32
    ensures value { result ≡ code_of (root_answer ledger.now root.old) }
    ensures root_after { root.new ≡ root_after ledger.now root.old }
{
    host::snaldrek_proved_root(ledger, root)
}

// The SHA-256 of any bytes, by which a host recognises a stored ledger that is torn.
#[unsafe(no_mangle)]
pub extern "C" fn snaldrek_proved_hash(bytes: &[u8], digest: &mut [u8]) -> u32
    ensures value { result ≡ code_of (hash_answer digest.old) }
    ensures digest_after { digest.new ≡ hash_after bytes.now digest.old }
{
    host::snaldrek_proved_hash(bytes, digest)
}

// Judges a seal's body. The pull is handed out as eight bytes, so that all its bits are promised.
#[unsafe(no_mangle)]
pub extern "C" fn snaldrek_proved_seal(body: &[u8], gain: f64, offset: f64, pull: &mut [u8]) -> u32
    ensures value { result ≡ code_of (body_answer (record { gain = gain; offset = offset }) body.now pull.old) }
    ensures pull_after { pull.new ≡ pull_after (record { gain = gain; offset = offset }) body.now pull.old }
{
    host::snaldrek_proved_seal(body, gain, offset, pull)
}

// Judges a bag: its layout, its seal, and each of its cases, which the report tells of.
#[unsafe(no_mangle)]
pub extern "C" fn snaldrek_proved_bag(
    bag: &[u8],
    gain: f64,
    offset: f64,
    ledger: &mut [u8],
    table: &mut [u8],
    roll: &[u8],
    report: &mut [u8],
) -> u32
    ensures value { result ≡ code_of (bag_answer (record { gain = gain; offset = offset }) bag.now ledger.old table.old roll.now report.old) }
    ensures ledger_after { ledger.new ≡ ledger_after_bag_call (record { gain = gain; offset = offset }) bag.now ledger.old table.old roll.now report.old }
    ensures table_after { table.new ≡ table_after_bag_call (record { gain = gain; offset = offset }) bag.now ledger.old table.old roll.now report.old }
    ensures report_after { report.new ≡ report_after_bag_call (record { gain = gain; offset = offset }) bag.now ledger.old table.old roll.now report.old }
{
    host::snaldrek_proved_bag(bag, gain, offset, ledger, table, roll, report)
}

// Counts an answer, in the form that the other calls give it.
#[unsafe(no_mangle)]
pub extern "C" fn snaldrek_proved_tally(tally: &mut [u8], answer: u32) -> u32
    ensures value { result ≡ code_of (tally_answer tally.old answer) }
    ensures tally_after { tally.new ≡ tally_after tally.old answer }
{
    host::snaldrek_proved_tally(tally, answer)
}

// Rewrites one row of the day list by an answer that a call returned. Anything else is refused.
#[unsafe(no_mangle)]
pub extern "C" fn snaldrek_proved_day(list: &mut [u8], row: usize, seal: u32, answer: u32) -> u32
    ensures value { result ≡ code_of (day_answer row answer list.old) }
    ensures list_after { list.new ≡ day_after row seal answer list.old }
{
    host::snaldrek_proved_day(list, row, seal, answer)
}
