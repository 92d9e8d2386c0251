// A line of a form: what counts in it, its first word, and its value. What these mean is left to the
// modules beside this one. What is public here is for this crate alone, whose lines have at most 65,536 bytes.
ghost use Rattle.std.specs.Prelude.{◌≡◌, ℕ, ◌<◌, ◌≤◌, true, false, length, slice_index};
ghost use mathlib.Core.List.{flat_map};
ghost use Rattle.text.specs.Pen.{Wrote, Rendered};
ghost use Rattle.form.specs.Lines.{End, Mark, Ink, is_blank, stops_at, content_of, word_of, ink_of, value_of};

use text::Page;

// At what a cut stops. Functions, not closures at the calls: the contract of each names the definition that it is.
pub fn is_blank(x: u8) -> bool
    ensures { result ≡ is_blank x }
{
    matches!(x, b' ' | b'\t' | b'\r')
}

fn is_ink(x: u8) -> bool
    ensures { result ≡ stops_at Ink x }
{
    !is_blank(x)
}

fn is_mark(x: u8) -> bool
    ensures { result ≡ stops_at Mark x }
{
    x == b'#'
}

pub fn is_end(x: u8) -> bool
    ensures { result ≡ stops_at End x }
{
    x == b'\n'
}

// How many bytes there are before the first at which it stops. `packing` has a line over `position` too, for a
// byte: one for both would be a call of a third crate, and no shorter.
pub fn up_to<F: Fn(u8) -> bool>(s: &[u8], stops: F) -> usize
    requires { F.IsAlwaysCallable stops }
    ensures within { result ≤ length s.now }
    ensures before { (k : ℕ) → k < result → F.post stops (slice_index s.now k) false }
    ensures found { result < length s.now → F.post stops (slice_index s.now result) true }
{
    s.iter().position(|x| stops(*x)).unwrap_or(s.len())
}

// What counts: all before a comment, from the first word on.
fn content<'a>(line: &'a [u8]) -> &'a [u8]
    ensures { result.now ≡ content_of line.now }
{
    let end = up_to(line, is_mark);
    let said = &line[0..end];
    let start = up_to(said, is_ink);
    &said[start..end]
}

// The first word; of a line with nothing but blanks and a comment, no bytes.
pub fn word<'a>(line: &'a [u8]) -> &'a [u8]
    ensures { result.now ≡ word_of line.now }
{
    let said = content(line);
    let end = up_to(said, is_blank);
    &said[0..end]
}

// Some bytes without their blanks.
fn put_without_blanks(page: &mut Page<65536>, s: &[u8])
    ensures { Wrote (length s.now) (flat_map ink_of s.now) page.old page.new }
{
    for x in s {
        if !is_blank(*x) {
            page.put(&[*x]);
        }
    }
}

// The value, on a page that is cleared for it and has room for it. The page is lent, one for all lines of a form: to
// make it anew takes longer than to read most of them. The four that are handed a line or the text ask for this bound:
// room is needed here, and nowhere else.
pub fn put_value(page: &mut Page<65536>, line: &[u8])
    requires { length line.now ≤ 65536 }
    ensures { Rendered (value_of line.now) page.old.page page.new.page page.new.at }
{
    page.clear();
    let said = content(line);
    let start = up_to(said, is_blank);
    put_without_blanks(page, &said[start..]);
}
