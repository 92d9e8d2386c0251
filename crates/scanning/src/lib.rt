// What every program that scans bags shares: a bag scanned on a fresh ledger with gain 1 and offset 0,
// and its answers as lines of text in memory. What a bag is and what it is answered is left to `bag`,
// where the bytes come from and where the lines go to the programs.
#![tactic(auto)]

ghost use Rattle.std.specs.Prelude.{◌≡◌, ◌≤◌, length};
ghost use Rattle.text.specs.Pen.{Wrote, Holds};
ghost use Rattle.scanning.specs.Lines.{case_text, case_lines, ledger_line, lines_of};
ghost use Rattle.scanning.specs.FreshLedger.{calibrated, fresh_scan};

use bag::Scanned;
use ledger::Ledger;
use refusals::Answer;
use seal::Calibration;
use text::Page;

// A page with room for the lines of seven cases, each with its row.
type Sheet = Page<640>;

fn calibration() -> Calibration
    ensures { result ≡ calibrated }
{
    Calibration {
        gain: 1.0,
        offset: 0.0,
    }
}

// Scans a bag on a fresh ledger, in memory of its own.
pub fn scan_fresh(bag: &[u8]) -> Scanned
    ensures { result ≡ fresh_scan bag.now }
{
    let mut table = [0u8; 65536];
    let mut roll = [0u8; 1024];
    let opened = judge::open(&mut roll);
    bag::scan(bag, calibration(), &mut table, &roll, opened.ledger)
}

// The line of a case; where rows are told, behind it that of a spent nullifier's row.
fn put_case(page: &mut Sheet, a: Answer, rows: bool)
    ensures { Wrote 72 (case_text rows a) page.old page.new }
{
    if rows {
        page.put_answer_and_row(b"case", a);
    } else {
        page.put_answer_line(b"case", a);
    }
}

// The answers of some cases.
fn put_cases(page: &mut Sheet, answers: &[Answer], rows: bool)
    requires { length answers.now ≤ 7 }
    ensures { Wrote 504 (case_lines rows answers.now) page.old page.new }
{
    for a in answers {
        put_case(page, *a, rows);
    }
}

fn put_ledger(page: &mut Sheet, l: Ledger)
    ensures { Wrote 88 (ledger_line l) page.old page.new }
{
    page.put_count(b"ledger spent ", l.nullifiers as u64);
    page.put_count(b" leaves ", l.tree.leaves as u64);
    page.put_count(b" pool ", l.pool.zatoshi());
    page.put(b"\n");
}

// A refused layout and a refused seal have one line, and nothing after it.
fn put_scan(page: &mut Sheet, s: Scanned, rows: bool)
    ensures { Wrote 639 (lines_of rows s) page.old page.new }
{
    let layout = s.layout;
    if !layout.is_accepted() {
        return page.put_answer_line(b"bag", layout);
    }
    let seal = s.seal;
    page.put_answer_line(b"seal", seal);
    if seal.is_accepted() {
        let n = s.cases.min(7);
        put_cases(page, &s.answers[..n], rows);
        put_ledger(page, s.ledger);
    }
}

// The lines of a scan, on a page that always has room for them. Without rows they are those of document 01; with rows
// a case that is refused as spent has a line more, the row in which its nullifier stands.
pub fn render(s: Scanned, rows: bool) -> Page<640>
    ensures { Holds 640 (lines_of rows s) result }
{
    let mut page = Sheet::new();
    put_scan(&mut page, s, rows);
    page
}

// A bag scanned on a fresh ledger, and the lines of that.
pub fn scan_lines(bag: &[u8], rows: bool) -> Page<640>
    ensures { Holds 640 (lines_of rows (fresh_scan bag.now)) result }
{
    render(scan_fresh(bag), rows)
}
