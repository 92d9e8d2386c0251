// A day at the scanner, as the gate runs it: seven answers are entered in a list of four rows and
// counted, and then tallies that are full or nearly so, in place and on plain values.
// What is printed is the contract of `render`: a text that is worked out by the books' definitions. The
// books themselves are left to `books`.
#![tactic(auto)]

ghost use Rattle.std.specs.Prelude.{◌≡◌, ◌+◌, length};
ghost use mathlib.Core.List.{flat_map};
ghost use Rattle.text.specs.Pen.{Wrote, Holds};
ghost use Rattle.books.specs.History.{empty as empty_tally};
ghost use Rattle.day.specs.Lines.{tally as tally_with, counted, three_line, day_row_line, yes_or_no, enter_line, tally_line, count_line, entry, entries as entries_of, whole_day, both_lines, from_lines, full_lines, all_lines};

use books::{DayRow, Tally};
use text::Page;
use units::Row;

// A page with room for all lines.
type Sheet = Page<4096>;

// An answer of the day, and the row that it is entered in.
#[derive(Clone, Copy)]
pub struct Entry {
    pub at: Row,
    pub row: DayRow,
}

fn entry_at(at: usize, seal: u32, answer: u8, place: u8) -> Entry
    ensures { result ≡ entry at seal answer place }
{
    Entry {
        at: Row::of(at),
        row: DayRow {
            seal,
            answer,
            place,
        },
    }
}

// The answers of the day.
fn entries() -> [Entry; 7]
    ensures { result ≡ entries_of }
{
    [
        entry_at(0, 7001, 0, 0),
        entry_at(1, 7002, 8, 1),
        entry_at(3, 7003, 0, 0),
        entry_at(4, 7004, 0, 0),
        entry_at(1, 7005, 13, 2),
        entry_at(18446744073709551615, 7006, 23, 0),
        entry_at(2, 4294967295, 255, 255),
    ]
}

fn put_yes_or_no(page: &mut Sheet, yes: bool)
    ensures { Wrote 4 (yes_or_no yes) page.old page.new }
{
    if yes {
        page.put(b" yes");
    } else {
        page.put(b" no");
    }
}

// A word and three numbers.
fn put_three(page: &mut Sheet, word: &[u8], a: u32, b: u32, c: u32)
    ensures { Wrote (length word.now + 64) (three_line word.now a b c) page.old page.new }
{
    page.put(word);
    page.put_count(b" ", u64::from(a));
    page.put_count(b" ", u64::from(b));
    page.put_count(b" ", u64::from(c));
    page.put(b"\n");
}

fn put_row(page: &mut Sheet, r: DayRow)
    ensures { Wrote 67 (day_row_line r) page.old page.new }
{
    put_three(
        page,
        b"row",
        r.seal,
        u32::from(r.answer),
        u32::from(r.place),
    );
}

// The row in which an answer was to be entered, and whether there is one.
fn put_entry(page: &mut Sheet, row: Row, ok: bool)
    ensures { Wrote 31 (enter_line row.0 ok) page.old page.new }
{
    page.put(b"enter");
    page.put_count(b" ", row.index() as u64);
    put_yes_or_no(page, ok);
    page.put(b"\n");
}

fn put_tally(page: &mut Sheet, t: Tally)
    ensures { Wrote 69 (tally_line t) page.old page.new }
{
    put_three(page, b"tally", t.seen, t.passed, t.refused);
}

// Whether an answer was counted, and the tally as it then stands.
fn put_counted(page: &mut Sheet, ok: bool, t: Tally)
    ensures { Wrote 79 (count_line (counted ok t)) page.old page.new }
{
    page.put(b"count");
    put_yes_or_no(page, ok);
    page.put(b" ");
    put_tally(page, t);
}

fn put_list(page: &mut Sheet, rows: &[DayRow; 4])
    ensures { Wrote 268 (flat_map day_row_line rows.now) page.old page.new }
{
    for r in rows {
        put_row(page, *r);
    }
}

// Written out, as the row of zeros below, not by Default: this is `empty` of books/specs/History.antt by name.
fn empty() -> Tally
    ensures { result ≡ empty_tally }
{
    Tally {
        seen: 0,
        passed: 0,
        refused: 0,
    }
}

// The day's answers, each entered and counted; then the list and the tally.
fn put_day(page: &mut Sheet)
    ensures { Wrote 1107 whole_day page.old page.new }
{
    let none = DayRow {
        seal: 0,
        answer: 0,
        place: 0,
    };
    let mut rows = [none; 4];
    let mut t = empty();
    for e in &entries() {
        let entered = books::enter(&mut rows, e.at, e.row);
        put_entry(page, e.at, entered);
        let counted = books::count(&mut t, e.row.answer == 0);
        put_counted(page, counted, t);
    }
    put_list(page, &rows);
    put_tally(page, t);
}

// A pass and then a refusal, each counted in place.
fn put_both_in_place(page: &mut Sheet, mut t: Tally)
    ensures { Wrote 158 (both_lines t) page.old page.new }
{
    let passed = books::count(&mut t, true);
    put_counted(page, passed, t);
    let refused = books::count(&mut t, false);
    put_counted(page, refused, t);
}

// The same by value: another call of the books, whose two answers come back in one.
fn put_both_by_value(page: &mut Sheet, t: Tally)
    ensures { Wrote 158 (both_lines t) page.old page.new }
{
    let passed = books::counted(t, true);
    let u = passed.unwrap_or(t);
    put_counted(page, passed.is_some(), u);
    let refused = books::counted(u, false);
    put_counted(page, refused.is_some(), refused.unwrap_or(u));
}

// Both, from a tally of any counts.
fn put_from(page: &mut Sheet, seen: u32, passed: u32, refused: u32)
    ensures { Wrote 316 (from_lines (tally_with seen passed refused)) page.old page.new }
{
    let t = Tally {
        seen,
        passed,
        refused,
    };
    put_both_in_place(page, t);
    put_both_by_value(page, t);
}

// Tallies that are full or nearly so.
fn put_full(page: &mut Sheet)
    ensures { Wrote 1264 full_lines page.old page.new }
{
    put_from(page, 4294967294, 4294967294, 0);
    put_from(page, 4294967295, 0, 0);
    put_from(page, 5, 4294967295, 7);
    put_from(page, 5, 7, 4294967295);
}

// All lines, on a page that has room for them.
fn render() -> Page<4096>
    ensures { Holds 4096 all_lines result }
{
    let mut page = Sheet::new();
    put_day(&mut page);
    put_full(&mut page);
    page
}

fn main(rt: HostRuntime) {
    let page = render();
    lines::print(&rt, page.text());
}
