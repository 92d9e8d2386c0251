// A form: the text in which a custodian writes a draft, read into the draft's bytes, and what is told of a
// form that is wrong. A line has a field, and the fields stand in the order of the case file (docs/FORMATS.md);
// those that the desk works out are not asked for, and are zero bytes of the draft. What a draft must satisfy, and
// the case that is made of it, is left to `desk`.
#![tactic(auto)]

mod digits;
mod fields;
mod lines;

ghost use Rattle.std.specs.Prelude.{◌≡◌, [], ◌≤◌, length};
ghost use Rattle.text.specs.Pen.{pen, Wrote};
ghost use Rattle.form.specs.declared.fields.Kind.TheVariants.{Hex};
ghost use Rattle.form.specs.Lines.{lines_in};
ghost use Rattle.form.specs.Forms.{is_passed_over, read_from, reading_of, draft_after};
ghost use Rattle.form.specs.Faults.{kind_words, field_words, wrong_line, fault_line};

use fields::{COUNT, Kind, MOST_AMOUNT, MOST_POSITION, is_field, kind_of, put_field, put_name};
use lines::{is_end, up_to, word};
use text::Page;

// Why a text is no form: a wrong line, counted from 1, and the field that was expected there, counted from 0; or
// it is too long to be read.
#[derive(Clone, Copy, Debug, PartialEq, Eq)]
pub enum FormError {
    Wrong(usize, usize),
    TooLong,
}

// How many bytes a text has at most.
const MOST_TEXT: usize = 65536;

// A line with nothing but blanks and a comment.
fn is_passed_over(line: &[u8]) -> bool
    ensures { result ≡ is_passed_over line.now }
{
    let first = word(line);
    first.len() == 0
}

// The lines of a text, one after the other. They are cut by hand: the library's `split` makes a line more of what
// stands behind the last end, and `split_inclusive` leaves each line its end, to be cut off where there is one.
fn read_lines(text: &[u8], draft: &mut Page<4210>) -> Result<(), FormError>
    requires { length text.now ≤ 65536 }
    ensures value { result ≡ (read_from 1 0 [] (lines_in text.now)).formed }
    ensures wrote { Wrote 4210 (read_from 1 0 [] (lines_in text.now)).bytes draft.old draft.new }
{
    let mut digits = Page::new();
    let mut at = 0;
    let mut line = 1;
    let mut field = 0;
    while at < text.len() {
        let rest = &text[at..];
        let n = up_to(rest, is_end);
        let here = &rest[0..n];
        if !is_passed_over(here) {
            if !is_field(field, here, &mut digits) {
                return Err(FormError::Wrong(line, field));
            }
            put_field(draft, field, here, &mut digits);
            field += 1;
        }
        line += 1;
        at += n + 1;
    }
    if field < COUNT {
        return Err(FormError::Wrong(line, field));
    }
    Ok(())
}

// Reads a form onto a page, from its start, whatever stood there: so it has room for every draft, and behind that is as
// it was. Of a wrong form, the fields before the wrong line are written there.
pub fn read(text: &[u8], draft: &mut Page<4210>) -> Result<(), FormError>
    ensures value { result ≡ (reading_of text.now).formed }
    ensures wrote { Wrote 4210 (reading_of text.now).bytes (pen draft.old.page 0) draft.new }
    ensures draft_after { draft.new ≡ pen (draft_after text.now draft.old.page) (length (reading_of text.now).bytes) }
{
    draft.clear();
    if MOST_TEXT < text.len() {
        return Err(FormError::TooLong);
    }
    read_lines(text, draft)
}

// So many hexadecimal digits.
fn put_hex_digits<const N: usize>(page: &mut Page<N>, n: usize)
    ensures { Wrote 44 (kind_words (Hex n)) page.old page.new }
{
    page.put_count(b"with ", n as u64);
    page.put(b" hexadecimal digits");
}

// What a value can be.
fn put_kind<const N: usize>(page: &mut Page<N>, kind: Kind)
    ensures { Wrote 45 (kind_words kind) page.old page.new }
{
    match kind {
        Kind::Amount => page.put_count(b"a whole number up to ", MOST_AMOUNT),
        Kind::Position => page.put_count(b"a whole number up to ", MOST_POSITION),
        Kind::Hex(n) => put_hex_digits(page, n),
        Kind::Proof => page.put(b"with 592 or 384 hexadecimal digits"),
    }
}

// What is expected where field k stands.
fn put_expected<const N: usize>(page: &mut Page<N>, k: usize)
    ensures { Wrote 96 (field_words k) page.old page.new }
{
    if k < COUNT {
        put_name(page, k);
        page.put(b" is expected here, ");
        put_kind(page, kind_of(k));
    } else {
        page.put(b"nothing is expected behind phi");
    }
}

fn put_wrong<const N: usize>(page: &mut Page<N>, line: usize, field: usize)
    ensures { Wrote 124 (wrong_line line field) page.old page.new }
{
    page.put_count(b"line ", line as u64);
    page.put(b": ");
    put_expected(page, field);
    page.put(b"\n");
}

// The line that tells what is wrong with a form.
pub fn put_fault<const N: usize>(page: &mut Page<N>, fault: FormError)
    ensures { Wrote 124 (fault_line fault) page.old page.new }
{
    match fault {
        FormError::Wrong(line, field) => put_wrong(page, line, field),
        FormError::TooLong => page.put(b"text: more than 65536 bytes\n"),
    }
}
