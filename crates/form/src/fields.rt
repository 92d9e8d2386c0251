// The fields of a form: what is expected in each, and the bytes that it then has in the case file. In which
// order the lines of a form are read is left to the crate's root. What is public here is for this crate alone,
// which asks about a field that there is, and writes one that it asked about.
ghost use Rattle.std.specs.Prelude.{◌≡◌, true, ◌+◌, ◌≤◌, ◌<◌, length};
ghost use Rattle.octets.specs.Numbers.{little_bytes};
ghost use Rattle.octets.specs.Parts.{zeros, same as same_of};
ghost use Rattle.text.specs.Pen.{Wrote};
ghost use Rattle.form.specs.Lines.{Blank, up_to, value_of};
ghost use Rattle.form.specs.Fields.{accepts as accepts_of, bytes_of, size_of, field_at, is_field as is_field_of, field_bytes};
ghost use Rattle.form.specs.declared.fields.Kind.TheVariants.{Proof};

use crate::digits::{is_hex, is_number, put_bytes, value_of};
use crate::lines::{is_blank, put_value, up_to, word};
use text::Page;

// What a field's value is: a number of 64 bits, one of 32 bits, so many hexadecimal digits, or the digits of the
// proof, which has one length in each edition.
#[derive(Clone, Copy)]
pub enum Kind {
    Amount,
    Position,
    Hex(usize),
    Proof,
}

// A field: its name with blanks behind it, how many bytes that are worked out lie before it, and what its value is.
#[derive(Clone, Copy)]
pub struct Field([u8; 16], usize, Kind);

pub const COUNT: usize = 28;

pub const MOST_AMOUNT: u64 = 18446744073709551615;

pub const MOST_POSITION: u64 = 4294967295;

const FIELDS: [Field; 28] = [
    Field(*b"vpub_old        ", 0, Kind::Amount),
    Field(*b"vpub_new        ", 0, Kind::Amount),
    Field(*b"anchor          ", 0, Kind::Hex(64)),
    Field(*b"ephemeral_key   ", 128, Kind::Hex(64)),
    Field(*b"seed            ", 0, Kind::Hex(64)),
    Field(*b"proof           ", 64, Kind::Proof),
    Field(*b"ciphertext_1    ", 0, Kind::Hex(1202)),
    Field(*b"ciphertext_2    ", 0, Kind::Hex(1202)),
    Field(*b"transaction_key ", 0, Kind::Hex(64)),
    Field(*b"old_1_key       ", 0, Kind::Hex(64)),
    Field(*b"old_1_value     ", 32, Kind::Amount),
    Field(*b"old_1_rho       ", 0, Kind::Hex(64)),
    Field(*b"old_1_r         ", 0, Kind::Hex(64)),
    Field(*b"old_1_position  ", 0, Kind::Position),
    Field(*b"old_1_path      ", 0, Kind::Hex(1856)),
    Field(*b"old_2_key       ", 0, Kind::Hex(64)),
    Field(*b"old_2_value     ", 32, Kind::Amount),
    Field(*b"old_2_rho       ", 0, Kind::Hex(64)),
    Field(*b"old_2_r         ", 0, Kind::Hex(64)),
    Field(*b"old_2_position  ", 0, Kind::Position),
    Field(*b"old_2_path      ", 0, Kind::Hex(1856)),
    Field(*b"new_1_address   ", 0, Kind::Hex(64)),
    Field(*b"new_1_value     ", 0, Kind::Amount),
    Field(*b"new_1_r         ", 32, Kind::Hex(64)),
    Field(*b"new_2_address   ", 0, Kind::Hex(64)),
    Field(*b"new_2_value     ", 0, Kind::Amount),
    Field(*b"new_2_r         ", 32, Kind::Hex(64)),
    Field(*b"phi             ", 0, Kind::Hex(64)),
];

// A field's place stays a number, not a type below 28: the reader counts it, also past the last, and `FormError`
// hands it out.
fn entry(k: usize) -> Field
    requires { k < 28 }
    ensures name { up_to Blank result.0 ≡ (field_at k).name }
    ensures gap { result.1 ≡ (field_at k).gap }
    ensures kind { result.2 ≡ (field_at k).kind }
{
    FIELDS[k]
}

pub fn kind_of(k: usize) -> Kind
    requires { k < 28 }
    ensures { result ≡ (field_at k).kind }
{
    entry(k).2
}

fn is_named(word: &[u8], k: usize) -> bool
    requires { k < 28 }
    ensures { result ≡ same_of word.now (field_at k).name }
{
    let name = entry(k).0;
    let n = up_to(&name, is_blank);
    octets::same(word, &name[0..n])
}

pub fn put_name<const N: usize>(page: &mut Page<N>, k: usize)
    requires { k < 28 }
    ensures { Wrote 32 (field_at k).name page.old page.new }
{
    let name = entry(k).0;
    let n = up_to(&name, is_blank);
    page.put(&name[0..n]);
}

// Whether the digits are a proof, of either edition.
fn is_proof(digits: &[u8]) -> bool
    ensures { result ≡ accepts_of Proof digits.now }
{
    is_hex(digits, 592) || is_hex(digits, 384)
}

// Whether the digits are a value of that kind.
fn accepts(kind: Kind, digits: &[u8]) -> bool
    ensures { result ≡ accepts_of kind digits.now }
{
    match kind {
        Kind::Amount => is_number(digits, MOST_AMOUNT),
        Kind::Position => is_number(digits, MOST_POSITION),
        Kind::Hex(n) => is_hex(digits, n),
        Kind::Proof => is_proof(digits),
    }
}

// A number as so many bytes.
fn put_little(page: &mut Page<4210>, n: u64, width: usize)
    requires { width ≤ 8 }
    ensures { Wrote width (little_bytes width n) page.old page.new }
{
    let bytes = octets::le_bytes64(n);
    page.put(&bytes[0..width]);
}

// The bytes of a value of that kind.
fn put_digits(page: &mut Page<4210>, kind: Kind, digits: &[u8])
    requires { accepts_of kind digits.now ≡ true }
    ensures { Wrote (size_of 296 kind) (bytes_of kind digits.now) page.old page.new }
{
    match kind {
        Kind::Amount => put_little(page, value_of(digits, MOST_AMOUNT), 8),
        Kind::Position => put_little(page, value_of(digits, MOST_POSITION), 4),
        Kind::Hex(_) => put_bytes(page, digits),
        Kind::Proof => put_bytes(page, digits),
    }
}

// Whether a line is field k: it begins with the name, and its value is one of that kind. The lent page is for the
// value, and of what it then has nothing is said.
pub fn is_field(k: usize, line: &[u8], digits: &mut Page<65536>) -> bool
    requires { length line.now ≤ 65536 }
    ensures { result ≡ is_field_of k line.now }
{
    if COUNT <= k || !is_named(word(line), k) {
        return false;
    }
    put_value(digits, line);
    accepts(kind_of(k), digits.text())
}

fn put_zeros(page: &mut Page<4210>, n: usize)
    requires { n ≤ 128 }
    ensures { Wrote n (zeros n) page.old page.new }
{
    let none = [0u8; 128];
    page.put(&none[0..n]);
}

// What it then adds to the case file: the bytes that are worked out, as zeros, and its own. The page of digits is lent
// as to `is_field`.
pub fn put_field(page: &mut Page<4210>, k: usize, line: &[u8], digits: &mut Page<65536>)
    requires { (length line.now ≤ 65536) × (is_field_of k line.now ≡ true) }
    ensures { Wrote ((field_at k).gap + size_of 296 (field_at k).kind) (field_bytes k (value_of line.now)) page.old page.new }
{
    let Field(_, gap, kind) = entry(k);
    put_zeros(page, gap);
    put_value(digits, line);
    put_digits(page, kind, digits.text());
}
