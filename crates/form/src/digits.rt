// Digits as a number or as bytes. Which of the two a field has is left to `fields`. What is public here is for
// this crate alone, which takes the value of digits that it asked about.
ghost use Rattle.std.specs.Prelude.{◌≡◌, true, cond, ◌+◌, ◌*◌, ◌/◌, ◌<◌, nat_lt, length, Some, None};
ghost use Rattle.std.specs.List.{list_all};
ghost use Rattle.text.specs.Pen.{Wrote};
ghost use Rattle.form.specs.Digits.{every, number_from, is_number, worth, is_hex_digit, is_hex, bytes_in};

use text::Page;

// The number that decimal digits say, where it is at most the given one. Digits that follow can only make it
// larger. By hand, not by `parse`: that takes text, lets a `+` pass, and has no bound but the type's.
fn number_of(digits: &[u8], most: u64) -> Option<u64>
    ensures { result ≡ cond (is_number most digits.now) (Some (number_from 0 digits.now)) None }
{
    if digits.is_empty() {
        return None;
    }
    let mut v: u64 = 0;
    for x in digits {
        if !x.is_ascii_digit() {
            return None;
        }
        let d = u64::from(*x - 48);
        if most < d {
            return None;
        }
        if (most - d) / 10 < v {
            return None;
        }
        v = v * 10 + d;
    }
    Some(v)
}

// Whether they say one. Asked first and read afterwards: a line is accepted whole before any byte of it is put on
// the page.
pub fn is_number(digits: &[u8], most: u64) -> bool
    ensures { result ≡ is_number most digits.now }
{
    number_of(digits, most).is_some()
}

// Which one they say.
pub fn value_of(digits: &[u8], most: u64) -> u64
    requires { is_number most digits.now ≡ true }
    ensures { result ≡ number_from 0 digits.now }
{
    number_of(digits, most).unwrap_or(0)
}

// What a hexadecimal digit is worth, and 16 for what is none. By hand, not by `to_digit`: that takes a char, and
// the definition `worth` is of a byte.
fn worth_of(x: u8) -> u8
    ensures { result ≡ worth x }
{
    match x {
        b'0'..=b'9' => x - 48,
        b'a'..=b'f' => x - 87,
        b'A'..=b'F' => x - 55,
        _ => 16,
    }
}

fn all_hex(digits: &[u8]) -> bool
    ensures { result ≡ list_all (λ x. nat_lt (worth x) 16) digits.now }
{
    digits.iter().all(|x| worth_of(*x) < 16)
}

// Whether these are hexadecimal digits, and n of them.
pub fn is_hex(digits: &[u8], n: usize) -> bool
    ensures { result ≡ is_hex n digits.now }
{
    digits.len() == n && all_hex(digits)
}

// The byte that two hexadecimal digits say.
fn byte_of(high: u8, low: u8) -> u8
    requires { (worth high < 16) × (worth low < 16) }
    ensures { result ≡ 16 * worth high + worth low }
{
    16 * worth_of(high) + worth_of(low)
}

// The bytes that hexadecimal digits say. By hand, not by the crate `hex`: what that decodes goes into a buffer,
// and these bytes go onto a page.
pub fn put_bytes(page: &mut Page<4210>, digits: &[u8])
    requires { every is_hex_digit digits.now ≡ true }
    ensures { Wrote (length digits.now / 2) (bytes_in digits.now) page.old page.new }
{
    let mut rest = digits;
    while let [high, low, behind @ ..] = rest {
        page.put(&[byte_of(*high, *low)]);
        rest = behind;
    }
}
