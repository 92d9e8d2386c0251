// Text as a value: words, numbers, bytes and answers, put one behind the other on a page, which has a fixed
// number of bytes. What a whole text is, and that it fits, is left to the crates above; so is what becomes of it.
#![tactic(auto)]

ghost use Rattle.std.specs.Prelude.{◌≡◌, ◌+◌, ◌*◌, ◌≤◌, ◌%◌, [], ◌∷◌, ◌++◌, length, take};
ghost use Rattle.text.specs.Pen.{Pen, pen, Wrote};
ghost use Rattle.octets.specs.Parts.{zeros};
ghost use Rattle.text.specs.Decimal.{decimal};
ghost use Rattle.text.specs.Hex.{hex_digit, hex, hex64};
ghost use Rattle.text.specs.Answers.{answer_words, answer_line, spent_row_line, answer_and_row};
ghost use Rattle.text.specs.Words.{name_line};

use refusals::Answer;
use std::marker::Model;

// A page of N bytes, and the place where the next byte is written. What does not fit is dropped. What is put here
// is not printed by `Display`, which gives text alone: a page also holds the bytes of a case or of a bag.
#[derive(Drop)]
pub struct Page<const N: usize> {
    bytes: [u8; N],
    at: usize,
}

// Clauses see the bytes and the place.
impl<const N: usize> Model for Page<N> {
    ghost Value = { Pen };

    ghost view = { λ p. pen p.bytes p.at };

    ghost invariant = { λ p. p.at ≤ N };
}

impl<const N: usize> Page<N> {
    // An empty page.
    pub fn new() -> Page<N>
        ensures { result ≡ pen (zeros N) 0 }
    {
        Page {
            bytes: [0; N],
            at: 0,
        }
    }

    // Puts the pen back to the start, so that one page serves for one text after the other: a large one is made once.
    // What was written stays on the page, behind the pen, until it is written over.
    pub fn clear(&mut self)
        ensures cleared { self.new ≡ pen self.old.page 0 }
        ensures room { length self.old.page ≡ N }
    {
        self.at = 0;
    }

    // What was written.
    pub fn text(&self) -> &[u8]
        ensures { result.now ≡ take self.now.at self.now.page }
    {
        &self.bytes[..self.at]
    }

    // One byte.
    fn put_byte(&mut self, x: u8)
        ensures { Wrote 1 (x ∷ []) self.old self.new }
    {
        self.at = ink(&mut self.bytes, self.at, x);
    }

    // Some bytes.
    pub fn put(&mut self, words: &[u8])
        ensures { Wrote (length words.now) words.now self.old self.new }
    {
        let mut at = self.at;
        for x in words {
            at = ink(&mut self.bytes, at, *x);
        }
        self.at = at;
    }

    // A number in decimal. Not by `write!`: a page drops what does not fit, so that would be a second way to put,
    // with a Result that nobody could use.
    pub fn put_number(&mut self, n: u64)
        ensures { Wrote 20 (decimal n) self.old self.new }
    {
        if n < 10 {
            return self.put_byte(48 + n as u8);
        }
        self.put_number(n / 10);
        self.put_byte(48 + (n % 10) as u8);
    }

    // A number of 64 bits as 16 hexadecimal digits.
    pub fn put_hex64(&mut self, n: u64)
        ensures { Wrote 16 (hex64 n) self.old self.new }
    {
        self.put_hex(&octets::be_bytes64(n));
    }

    // Bytes as hexadecimal digits. By hand for the reason at `put_number`.
    pub fn put_hex(&mut self, bytes: &[u8])
        ensures { Wrote (2 * length bytes.now) (hex bytes.now) self.old self.new }
    {
        let mut at = self.at;
        for x in bytes {
            let next = ink(&mut self.bytes, at, low_digit(*x / 16));
            at = ink(&mut self.bytes, next, low_digit(*x));
        }
        self.at = at;
    }

    // A word and a number.
    pub fn put_count(&mut self, word: &[u8], n: u64)
        ensures { Wrote (length word.now + 20) (word.now ++ decimal n) self.old self.new }
    {
        self.put(word);
        self.put_number(n);
    }

    // A word, and an answer's number and place.
    pub fn put_answer(&mut self, word: &[u8], a: Answer)
        ensures { Wrote (length word.now + 42) (answer_words word.now a) self.old self.new }
    {
        self.put(word);
        self.put_count(b" ", u64::from(a.number));
        self.put_count(b" ", u64::from(a.place));
    }

    // The same as a whole line.
    pub fn put_answer_line(&mut self, word: &[u8], a: Answer)
        ensures { Wrote (length word.now + 43) (answer_line word.now a) self.old self.new }
    {
        self.put_answer(word, a);
        self.put(b"\n");
    }

    // The line of the row in which a nullifier that is refused as spent stands; of any other answer nothing. The 8
    // stands here as in `spent_row_line`: a method of `Answer` would be a public call for this one line.
    fn put_spent_row(&mut self, a: Answer)
        ensures { Wrote 25 (spent_row_line a) self.old self.new }
    {
        if a.number == 8 {
            self.put_count(b"row ", a.row.index() as u64);
            self.put(b"\n");
        }
    }

    // An answer's line, and behind it that of a spent nullifier's row.
    pub fn put_answer_and_row(&mut self, word: &[u8], a: Answer)
        ensures { Wrote (length word.now + 68) (answer_and_row word.now a) self.old self.new }
    {
        self.put_answer_line(word, a);
        self.put_spent_row(a);
    }

    // The line that names what follows.
    pub fn put_name_line(&mut self, name: &[u8])
        ensures { Wrote (length name.now + 5) (name_line name.now) self.old self.new }
    {
        self.put(b"run ");
        self.put(name);
        self.put(b"\n");
    }
}

// One byte, where the next one goes to at; then the place behind it. The place is handed on from byte to byte: kept on
// the page, it would be stored and read again at each.
fn ink(bytes: &mut [u8], at: usize, x: u8) -> usize
    ensures wrote { Wrote 1 (x ∷ []) (pen bytes.old at) (pen bytes.new result) }
    ensures within { at ≤ length bytes.old → result ≤ length bytes.old }
{
    if at < bytes.len() {
        bytes[at] = x;
        return at + 1;
    }
    at
}

// The code of the hexadecimal digit of a byte's low four bits.
fn low_digit(x: u8) -> u8
    ensures { result ≡ hex_digit (x % 16) }
{
    let d = x % 16;
    if d < 10 { 48 + d } else { 87 + d }
}
