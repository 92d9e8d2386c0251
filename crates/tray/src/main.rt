// A tray of bags from standard input, one after the other, each behind its length in four bytes. Each is
// scanned on a fresh ledger of its own and has the lines that the scanner prints of it; how is left to
// `scanning`. A length from 2^31 on is that of a name, which has a line of its own. Which bytes those lines
// are is the contract of `page_of`. A program has one stored run, and this one's holds as many bags as
// there are edges to show.
#![tactic(auto)]

ghost use Rattle.std.specs.Prelude.{◌≡◌, ◌≤◌, length};
ghost use Rattle.refusals.specs.Rules.{answer};
ghost use Rattle.text.specs.Words.{ascii, name_line};
ghost use Rattle.text.specs.Answers.{answer_line};
ghost use Rattle.text.specs.Pen.{Holds};
ghost use Rattle.tray.specs.Tray.{Whole, more_may_follow, lines_for};

use lines::Broken;
use refusals::Answer;
use std::io::Read;
use text::Page;

// What stands on the tray, and its length: a bag or a name.
// The bytes stay in the buffer: `lines_for` of specs/Tray.antt is over the length and the whole buffer.
#[derive(Clone, Copy)]
pub enum Item {
    Bag(usize),
    Name(usize),
}

// Reads what comes next to the start of a buffer as long as the longest bag: a bag, a name of at most 100 bytes,
// or nothing at the tray's end. A read that fails counts as the tray's end.
fn read_next(input: &mut impl Read, buffer: &mut [u8]) -> Result<Option<Item>, Broken>
    ensures { Whole result buffer.new }
{
    let mut head = [0u8; 4];
    let got = lines::read_full(input, &mut head);
    if got == 0 {
        return Ok(None);
    }
    if got < 4 {
        return Err(Broken);
    }
    let n = octets::le32(&head, 0) as usize;
    if n < 2147483648 {
        lines::read_whole(input, buffer, n)?;
        return Ok(Some(Item::Bag(n)));
    }
    let name = n - 2147483648;
    if 100 < name {
        return Err(Broken);
    }
    lines::read_whole(input, buffer, name)?;
    Ok(Some(Item::Name(name)))
}

fn goes_on(next: Result<Option<Item>, Broken>) -> bool
    ensures { result ≡ more_may_follow next }
{
    matches!(next, Ok(Some(_)))
}

// The line of a name.
fn name_page(name: &[u8]) -> Page<640>
    requires { length name.now ≤ 100 }
    ensures { Holds 640 (name_line name.now) result }
{
    let mut page = Page::new();
    page.put_name_line(name);
    page
}

// The refusal of what is neither a whole bag nor a whole name.
// 50 is this program's own and replay's: no library call answers it, so it has no name among refusals.
fn broken_page() -> Page<640>
    ensures { Holds 640 (answer_line (ascii "tray") (answer 50 0)) result }
{
    let mut page = Page::new();
    page.put_answer_line(b"tray", Answer::refused(50, 0));
    page
}

// The lines for what stands next, on a page that always has room for them.
fn page_of(next: Result<Option<Item>, Broken>, buffer: &[u8]) -> Page<640>
    requires { Whole next buffer.now }
    ensures { Holds 640 (lines_for next buffer.now) result }
{
    match next {
        Ok(Some(Item::Bag(n))) => scanning::scan_lines(&buffer[..n], false),
        Ok(Some(Item::Name(n))) => name_page(&buffer[..n]),
        Ok(None) => Page::new(),
        Err(Broken) => broken_page(),
    }
}

// One bag or name, and whether the run goes on after it.
fn turn(input: &mut impl Read, rt: &(impl Print + Eprint), buffer: &mut [u8]) -> bool {
    let next = read_next(input, buffer);
    let page = page_of(next, buffer);
    lines::print(rt, page.text()) && goes_on(next)
}

// A proved loop has to end, and nothing says that a tray does: the turns are counted to a number that no run
// uses up.
fn play(input: &mut impl Read, rt: &(impl Print + Eprint), buffer: &mut [u8]) {
    for _ in 0..u64::MAX {
        if !turn(input, rt, buffer) {
            break;
        }
    }
}

// A byte more than a bag may have, so that a bag that is too long can be refused by its layout.
fn main(rt: HostRuntime) {
    let mut buffer = [0u8; 65537];
    play(&mut rt.stdin(), &rt, &mut buffer);
}
