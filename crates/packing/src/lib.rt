// A bag packed from a seal's words and some cases: the other way round of what `bag` and `seal` read.
// The input is one line, with the gate's name, its limits, the raw reading, the word "cases" and the
// length of each case, and behind it the bytes of the cases. What the cases say is not looked at.
#![tactic(auto)]

ghost use Rattle.std.specs.Prelude.{◌≡◌, ℕ, ◌+◌, ◌*◌, ◌^◌, ◌<◌, ◌≤◌, ◌≢◌, ◌==◌, true, cond, Some, None, ◌++◌, length, slice_index, to_bits};
ghost use Rattle.std.specs.List.{list_all, slice_get, slice_split};
ghost use Rattle.std.specs.Option.{option_map};
ghost use Rattle.std.specs.Char.{is_ascii_digit};
ghost use Rattle.std.specs.Float.{binary64};
ghost use Rattle.text.specs.Decimal.{decimal};
ghost use Rattle.text.specs.Pen.{Wrote, Rendered};
ghost use Rattle.packing.specs.Words.{up_to as up_to_of, behind as behind_of, counted, word as word_of, space};
ghost use Rattle.packing.specs.Decimals.{all_digits, is_digits, number_from, is_length, length_of, is_negative, unsigned as unsigned_of, is_unsigned, is_number, digits_of, scale_of, quotient_of, number_of};
ghost use Rattle.packing.specs.Seals.{float_bytes, gate_kind, limit_bytes, seal_of};
ghost use Rattle.packing.specs.Bags.{row, rows_from};
ghost use Rattle.packing.specs.Packing.{case_count, case_count as count_of, sizes_from, sizes_in, sum, bag_in, bag_length, is_fit, first_unfit, bytes_verdict, line_verdict, verdict_of, error_line, packed_from, text_by, text_of};
ghost use Rattle.packing.specs.declared.PackingError.TheVariants.{OtherBytes};

use text::Page;

// A page with room for the longest line and the longest bag.
pub type Sheet = Page<65616>;

// What is wrong with the input first. A word is named by its number, counted from 1. Where the cases have other
// bytes than were named: how many there are, and how many were named.
#[derive(Clone, Copy, Debug, PartialEq, Eq)]
pub enum PackingError {
    NoGate,
    TooManyCases,
    NoNumber(usize),
    OneTooMany(usize),
    NoLength(usize),
    TooLong,
    OtherBytes(usize, usize),
}

// The place of the first x, or the end. `form` has a line over `position` too, for a closure: one for both would
// be a call of a third crate, and no shorter.
fn place(s: &[u8], x: u8) -> usize
    ensures within { result ≤ length s.now }
    ensures before { (k : ℕ) → k < result → slice_index s.now k ≢ x }
    ensures found { result < length s.now → slice_index s.now result ≡ x }
{
    s.iter().position(|y| *y == x).unwrap_or(s.len())
}

fn up_to<'a>(s: &'a [u8], x: u8) -> &'a [u8]
    ensures { result.now ≡ up_to_of x s.now }
{
    &s[..place(s, x)]
}

fn behind<'a>(s: &'a [u8], x: u8) -> &'a [u8]
    ensures { result.now ≡ behind_of x s.now }
{
    let i = place(s, x);
    if i < s.len() { &s[i + 1..] } else { &s[i..] }
}

// Word k of a line, if it has one.
fn nth_word<'a>(line: &'a [u8], k: usize) -> Option<&'a [u8]>
    ensures { option_map (λ x. x.now) result ≡ slice_get (slice_split (λ x. x == space) line.now) k }
{
    line.split(|x| *x == b' ').nth(k)
}

// The same; a word that the line does not have is empty.
fn word<'a>(line: &'a [u8], k: usize) -> &'a [u8]
    ensures { result.now ≡ word_of k line.now }
{
    nth_word(line, k).unwrap_or(&[])
}

fn spaces(line: &[u8]) -> usize
    ensures { result ≡ counted space line.now }
{
    line.iter().filter(|x| **x == b' ').count()
}

// How many words stand behind "cases".
fn case_count(line: &[u8], kind: usize) -> usize
    requires { kind ≤ 2 }
    ensures { result ≡ case_count kind line.now }
{
    spaces(line).saturating_sub(kind + 2)
}

fn all_digits(s: &[u8]) -> bool
    ensures { result ≡ list_all is_ascii_digit s.now }
{
    s.iter().all(|x| x.is_ascii_digit())
}

fn is_digits(s: &[u8]) -> bool
    ensures { result ≡ is_digits s.now }
{
    !s.is_empty() && all_digits(s)
}

// The number that digits write behind digits that wrote v, 15 digits in all at most. Beside the reading of digits
// in `form`, which stops at a bound: this one is told that 15 digits fit. By hand, not by `parse`: the digits
// before and behind the point go on into one number.
fn value_from(v: u64, s: &[u8]) -> u64
    requires s_value { all_digits s.now ≡ true }
    requires s_bound { (v + 1) * 10 ^ length s.now ≤ 10 ^ 15 }
    ensures { result ≡ number_from v s.now }
{
    let mut n = v;
    for x in s {
        n = n * 10 + (u64::from(*x) - 48);
    }
    n
}

// The length that a word says; none where it is no length.
fn length_in(w: &[u8]) -> Option<usize>
    ensures { result ≡ cond (is_length w.now) (Some (length_of w.now)) None }
{
    if !is_digits(w) || 15 < w.len() {
        return None;
    }
    Some(value_from(0, w) as usize)
}

fn is_negative(w: &[u8]) -> bool
    ensures { result ≡ is_negative w.now }
{
    octets::byte_from(w, 0, 0) == b'-'
}

// A number without its sign.
fn unsigned<'a>(w: &'a [u8]) -> &'a [u8]
    ensures { result.now ≡ unsigned_of w.now }
{
    if is_negative(w) {
        return &w[1..];
    }
    w
}

// Whether it is digits alone, or digits, a point and digits, and not too many.
fn is_unsigned(u: &[u8]) -> bool
    ensures { result ≡ is_unsigned u.now }
{
    let whole = up_to(u, b'.');
    if !is_digits(whole) {
        return false;
    }
    if whole.len() == u.len() {
        return u.len() <= 15;
    }
    if 16 < u.len() {
        return false;
    }
    is_digits(behind(u, b'.'))
}

// The digits on both sides of the point, as one whole number. This and the next two are told that u is unsigned:
// only `number_in` asks, so a struct of the two halves would stand for one question.
fn digits_of(u: &[u8]) -> u64
    requires { is_unsigned u.now ≡ true }
    ensures { result ≡ digits_of u.now }
{
    let v = value_from(0, up_to(u, b'.'));
    value_from(v, behind(u, b'.'))
}

// The power of ten that the digits are divided by.
fn scale_of(u: &[u8]) -> u64
    requires { is_unsigned u.now ≡ true }
    ensures { result ≡ scale_of u.now }
{
    10u64.pow(behind(u, b'.').len() as u32)
}

// Rounded once: both whole numbers are binary64 numbers exactly. By hand, not by `parse`: one division of two
// exact numbers is what `number_of` says, and takes no text.
fn quotient_of(u: &[u8]) -> f64
    requires { is_unsigned u.now ≡ true }
    ensures { result ≡ quotient_of u.now }
{
    let digits = std::num::nearest_u64_to_f64(digits_of(u));
    let scale = std::num::nearest_u64_to_f64(scale_of(u));
    digits / scale
}

// The bits of the number that a word says; none where it is no number.
fn number_in(w: &[u8]) -> Option<u64>
    ensures { result ≡ cond (is_number w.now) (Some (to_bits binary64 (number_of w.now))) None }
{
    let u = unsigned(w);
    if !is_unsigned(u) {
        return None;
    }
    let q = quotient_of(u);
    if is_negative(w) {
        return Some(f64::to_bits(-q));
    }
    Some(f64::to_bits(q))
}

fn put_float(page: &mut Sheet, w: &[u8])
    ensures { Wrote 8 (float_bytes (number_of w.now)) page.old page.new }
{
    page.put(&octets::le_bytes64(number_in(w).unwrap_or(0)));
}

// The limit in word k, which gates from kind k on use; of others zero bytes.
fn put_limit(page: &mut Sheet, line: &[u8], kind: usize, k: usize)
    requires { k ≤ 12 }
    ensures { Wrote 8 (limit_bytes kind k line.now) page.old page.new }
{
    if kind < k {
        page.put(&[0u8; 8]);
    } else {
        put_float(page, word(line, k));
    }
}

// The seal's body.
fn put_seal(page: &mut Sheet, line: &[u8], kind: usize)
    requires { kind ≤ 2 }
    ensures { Wrote 25 (seal_of kind line.now) page.old page.new }
{
    page.put(&[kind as u8]);
    put_limit(page, line, kind, 1);
    put_limit(page, line, kind, 2);
    put_float(page, word(line, kind + 1));
}

// The kind of the gate that a word names. It stays a number: it is the seal's first byte, and how many limits the
// gate has, from which the words behind it are counted.
fn kind_named(w: &[u8]) -> Option<usize>
    ensures { result ≡ gate_kind w.now }
{
    if octets::same(w, b"none") {
        return Some(0);
    }
    if octets::same(w, b"at-least") {
        return Some(1);
    }
    if octets::same(w, b"between") {
        return Some(2);
    }
    None
}

// A row of the table of contents.
fn put_row(page: &mut Sheet, kind: u8, start: usize, size: usize)
    ensures { Wrote 9 (row kind start size) page.old page.new }
{
    page.put(&[kind]);
    page.put(&octets::le_bytes32((start % 4294967296) as u32));
    page.put(&octets::le_bytes32((size % 4294967296) as u32));
}

// The rows of n cases, whose lengths stand from word k on; the first case starts at index first. Words are asked
// for by their number: one that the line does not have counts as empty, and no walk over its words gives that one.
fn put_rows(page: &mut Sheet, line: &[u8], k: usize, n: usize, first: usize)
    requires n_bound { n ≤ 7 }
    requires k_bound { k ≤ 5 }
    requires first_bound { first ≤ 99 }
    ensures { Wrote 63 (rows_from 1 first (sizes_from n k line.now)) page.old page.new }
{
    let mut start = first;
    for i in 0..n {
        let size = length_in(word(line, k + i)).unwrap_or(0);
        put_row(page, 2, start, size);
        start += size;
    }
}

// The bag: count, table of contents, seal, cases.
fn put_bag(page: &mut Sheet, line: &[u8], bytes: &[u8], kind: usize, cases: usize)
    requires kind_bound { kind ≤ 2 }
    requires cases_bound { cases ≤ 7 }
    requires line_value { sum (sizes_in kind cases line.now) ≡ length bytes.now }
    requires bytes_bound { bag_length cases (length bytes.now) ≤ 65536 }
    ensures { Wrote 65536 (bag_in kind cases line.now bytes.now) page.old page.new }
{
    let rows = cases + 1;
    let first = 2 + 9 * rows;
    page.put(&octets::le_bytes16(rows as u16));
    put_row(page, 1, first, 25);
    put_rows(page, line, kind + 3, cases, first + 25);
    put_seal(page, line, kind);
    page.put(bytes);
}

// The sum of the lengths that n words from word k on say, asked for by their number as in `put_rows`.
fn named_bytes(line: &[u8], k: usize, n: usize) -> usize
    requires n_bound { n ≤ 7 }
    requires k_bound { k ≤ 5 }
    ensures { result ≡ sum (sizes_from n k line.now) }
{
    let mut total = 0;
    for i in 0..n {
        total += length_in(word(line, k + i)).unwrap_or(0);
    }
    total
}

// Whether word k is what it should be: a number in the seal, "cases" behind it, then a length.
fn is_fit(line: &[u8], kind: usize, k: usize) -> bool
    requires k_bound { k ≤ 12 }
    requires kind_bound { kind ≤ 2 }
    ensures { result ≡ is_fit kind k (word_of k line.now) }
{
    let w = word(line, k);
    if k < kind + 2 {
        return number_in(w).is_some();
    }
    if k == kind + 2 {
        return octets::same(w, b"cases");
    }
    length_in(w).is_some()
}

// The first of n words behind the gate's name that is not as it should be, asked for by their number as in
// `put_rows`; the number past the last where all are, as `first_unfit` of specs/Packing.antt gives it.
fn first_unfit(line: &[u8], kind: usize, n: usize) -> usize
    requires kind_bound { kind ≤ 2 }
    requires n_bound { n ≤ 11 }
    ensures { result ≡ first_unfit n kind 1 line.now }
{
    for i in 0..n {
        if !is_fit(line, kind, i + 1) {
            return i + 1;
        }
    }
    n + 1
}

// By the bytes of the cases: so many were named, so many are there.
fn bytes_verdict(cases: usize, named: usize, there: usize) -> Result<(), PackingError>
    requires cases_bound { cases ≤ 7 }
    requires named_bound { named ≤ 7 * 10 ^ 15 }
    ensures { result ≡ bytes_verdict cases named there }
{
    if bag::MOST_BYTES < 2 + 9 * (cases + 1) + 25 + named {
        return Err(PackingError::TooLong);
    }
    if named == there {
        return Ok(());
    }
    Err(PackingError::OtherBytes(there, named))
}

// By the words of the line, and then by the bytes.
fn line_verdict(line: &[u8], kind: usize, cases: usize, there: usize) -> Result<(), PackingError>
    requires kind_bound { kind ≤ 2 }
    requires cases_bound { cases ≤ 7 }
    ensures { result ≡ line_verdict kind cases line.now there }
{
    let k = first_unfit(line, kind, kind + 2 + cases);
    if k < kind + 2 {
        return Err(PackingError::NoNumber(k + 1));
    }
    if k == kind + 2 {
        return Err(PackingError::OneTooMany(k + 1));
    }
    if k < kind + 3 + cases {
        return Err(PackingError::NoLength(k + 1));
    }
    bytes_verdict(cases, named_bytes(line, kind + 3, cases), there)
}

// What is wrong first behind the gate's name, if anything is. Line, kind and count stay three arguments, as they
// are in `verdict_of`: a struct of them would be taken apart at each word.
fn verdict(line: &[u8], bytes: &[u8], kind: usize, cases: usize) -> Result<(), PackingError>
    requires { kind ≤ 2 }
    ensures { result ≡ verdict_of kind cases line.now bytes.now }
{
    if 7 < cases {
        return Err(PackingError::TooManyCases);
    }
    line_verdict(line, kind, cases, bytes.len())
}

// A sentence with a number in it.
fn put_sentence(page: &mut Sheet, before: &[u8], n: usize, behind: &[u8])
    ensures { Wrote (length before.now + 20 + length behind.now) (before.now ++ decimal n ++ behind.now) page.old page.new }
{
    page.put_count(before, n as u64);
    page.put(behind);
}

fn put_other_bytes(page: &mut Sheet, there: usize, named: usize)
    ensures { Wrote 80 (error_line (OtherBytes there named)) page.old page.new }
{
    page.put_count(b"bag: the cases have ", there as u64);
    put_sentence(page, b" bytes, ", named, b" were named\n");
}

// The line that says what is wrong.
fn put_error(page: &mut Sheet, e: PackingError)
    ensures { Wrote 80 (error_line e) page.old page.new }
{
    match e {
        PackingError::NoGate => page.put(b"seal: word 1 is no gate: none, at-least or between\n"),
        PackingError::TooManyCases => page.put(b"bag: more than 7 cases\n"),
        PackingError::NoNumber(k) => put_sentence(page, b"seal: word ", k, b" is no number\n"),
        PackingError::OneTooMany(k) => put_sentence(
            page,
            b"seal: word ",
            k,
            b" is one too many: 'cases' comes there\n",
        ),
        PackingError::NoLength(k) => put_sentence(page, b"bag: word ", k, b" is no length\n"),
        PackingError::TooLong => page.put(b"bag: more than 65536 bytes\n"),
        PackingError::OtherBytes(there, named) => put_other_bytes(page, there, named),
    }
}

// With a gate that has a name: the first line, and behind it the bag, if there is one.
fn put_packed(page: &mut Sheet, line: &[u8], bytes: &[u8], kind: usize)
    requires { kind ≤ 2 }
    ensures { Wrote 65616 (packed_from kind (count_of kind line.now) line.now bytes.now) page.old page.new }
{
    let cases = case_count(line, kind);
    match verdict(line, bytes, kind, cases) {
        Ok(()) => {
            page.put(b"bag 0 0\n");
            put_bag(page, line, bytes, kind, cases);
        }
        Err(e) => put_error(page, e),
    }
}

// The same, or a line that says that the gate has no name.
fn put_text(page: &mut Sheet, line: &[u8], bytes: &[u8])
    ensures { Wrote 65616 (text_by line.now bytes.now) page.old page.new }
{
    match kind_named(word(line, 0)) {
        Some(kind) => put_packed(page, line, bytes, kind),
        None => put_error(page, PackingError::NoGate),
    }
}

// Packs a bag from a line of words and the bytes of cases behind it, or says in one line what is wrong. The page is
// cleared, and has room for the longest line and the longest bag; what lies behind the text is as it was.
pub fn pack(input: &[u8], page: &mut Sheet)
    ensures { Rendered (text_of input.now) page.old.page page.new.page page.new.at }
{
    page.clear();
    put_text(page, up_to(input, b'\n'), behind(input, b'\n'));
}
