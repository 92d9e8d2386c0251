// The shift's own books: the tally, one record changed in place, and the day list, a lent list of
// rows of which entering an answer changes one. The tally has a call over plain values too, for callers
// that lend no record. Which answers to enter is left to the caller.
#![tactic(auto)]

ghost use Rattle.std.specs.Prelude.{◌≡◌, ◌<◌};
ghost use Rattle.books.specs.Tally.{full, count_of, raised, tally_of, told};
ghost use Rattle.books.specs.DayList.{is_on, with_day_row};

use units::Row;

// The last number of a count.
const FULL: u32 = 4294967295;

#[derive(Clone, Copy)]
pub struct Tally {
    pub seen: u32,
    pub passed: u32,
    pub refused: u32,
}

// The count that an answer raises beside seen.
fn count_of(t: Tally, pass: bool) -> u32
    ensures { result ≡ count_of t pass }
{
    if pass { t.passed } else { t.refused }
}

// The tally with one answer more, where there is room for it.
fn raise(t: Tally, pass: bool) -> Tally
    requires { (t.seen < full) × (count_of t pass < full) }
    ensures { result ≡ raised t pass }
{
    if pass {
        return Tally {
            seen: t.seen + 1,
            passed: t.passed + 1,
            refused: t.refused,
        };
    }
    Tally {
        seen: t.seen + 1,
        passed: t.passed,
        refused: t.refused + 1,
    }
}

// The tally with one answer more; none where a count is full, and then the tally stays as it is.
pub fn counted(t: Tally, pass: bool) -> Option<Tally>
    ensures { told t result ≡ tally_of t pass }
{
    if FULL <= t.seen {
        return None;
    }
    if FULL <= count_of(t, pass) {
        return None;
    }
    Some(raise(t, pass))
}

// The record changed in place, and whether it was. There is one reason why not, so a bool says all that an error
// would. Thin: `counted` does the work.
pub fn count(t: &mut Tally, pass: bool) -> bool
    ensures { (result ≡ (tally_of t.old pass).ok) × (t.new ≡ (tally_of t.old pass).tally) }
{
    let more = counted(*t, pass);
    *t = more.unwrap_or(*t);
    more.is_some()
}

// A row of the day list.
// Number and place stay bytes: a row takes any answer of document 01, the host's own too, and keeps no row.
#[derive(Clone, Copy)]
pub struct DayRow {
    pub seal: u32,
    pub answer: u8,
    pub place: u8,
}

// Rewrites one row of the day list, and answers whether there is such a row, which is all that an error would say;
// if not, the list stays.
pub fn enter(list: &mut [DayRow], at: Row, row: DayRow) -> bool
    ensures { (result ≡ is_on at.0 list.old) × (list.new ≡ with_day_row at.0 row list.old) }
{
    let i = at.index();
    if i < list.len() {
        list[i] = row;
        return true;
    }
    false
}
