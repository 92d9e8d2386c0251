// The wire's pull: what a seal's 25 bytes say, what the scanner's calibration makes of the raw
// reading, and whether that passes the gate.
// Where the seal lies in a bag and which calibration a scanner has are left to the crates above.
#![tactic(auto)]

ghost use Rattle.std.specs.Prelude.{◌≡◌, cond, Ok, Err};
ghost use Rattle.std.specs.Float.{binary64};
ghost use Rattle.std.specs.Float.Ieee.{of_bits};
ghost use Rattle.octets.specs.Parts.{field};
ghost use Rattle.seal.specs.Pull.{pull_of, bad_limit, within, judge_of, answer_for, seal_answer};
ghost use Rattle.seal.specs.declared.SealRefusal.TheVariants.{Broken};
ghost use Rattle.seal.specs.Body.{float_of, is_zero, is_broken, gate_of, read_of};

use refusals::Answer;

// What the scanner was set to.
#[derive(Clone, Copy)]
pub struct Calibration {
    pub gain: f64,
    pub offset: f64,
}

// What is asked of a pull. A limit itself passes.
#[derive(Clone, Copy)]
pub enum Gate {
    None,
    AtLeast(f64),
    Between(f64, f64),
}

// What a seal's body says: its gate and the raw reading.
#[derive(Clone, Copy)]
pub struct Reading {
    pub gate: Gate,
    pub raw: f64,
}

// Why a seal does not pass, in the order of the numbers. A seal that passed has a pull to hand out, and no other.
#[derive(Clone, Copy)]
pub enum SealRefusal {
    Broken,
    BadLimit,
    NotFinite,
    Outside,
}

impl From<SealRefusal> for Answer {
    ghost from_gives = { λ refusal a. a ≡ answer_for refusal };

    fn from(refusal: SealRefusal) -> Answer {
        match refusal {
            SealRefusal::Broken => Answer::refused(20, 0),
            SealRefusal::BadLimit => Answer::refused(21, 0),
            SealRefusal::NotFinite => Answer::refused(22, 0),
            SealRefusal::Outside => Answer::refused(23, 0),
        }
    }
}

// A judged seal's answer. A call, not From: neither Result nor Answer is this crate's own.
pub fn answer(sealed: Result<f64, SealRefusal>) -> Answer
    ensures { result ≡ seal_answer sealed }
{
    match sealed {
        Ok(_) => Answer::accepted(),
        Err(refusal) => Answer::from(refusal),
    }
}

// Rounded once after the product and once after the sum.
pub fn pull(raw: f64, c: Calibration) -> f64
    ensures { result ≡ pull_of raw c }
{
    raw * c.gain + c.offset
}

fn has_bad_limit(g: Gate) -> bool
    ensures { result ≡ bad_limit g }
{
    match g {
        Gate::None => false,
        Gate::AtLeast(low) => !low.is_finite(),
        Gate::Between(low, high) => {
            if !low.is_finite() {
                return true;
            }
            if !high.is_finite() {
                return true;
            }
            high < low
        }
    }
}

// Written so that a NaN is never within the limits: no comparison with it holds.
fn is_within(g: Gate, p: f64) -> bool
    ensures { result ≡ within g p }
{
    match g {
        Gate::None => true,
        Gate::AtLeast(low) => low <= p,
        Gate::Between(low, high) => {
            if low <= p {
                return p <= high;
            }
            false
        }
    }
}

// The refusals in their order: the first that applies is the answer.
// Gate and reading stay two arguments: `judge_of` of specs/Pull.antt is over the two.
pub fn judge(c: Calibration, g: Gate, raw: f64) -> Result<f64, SealRefusal>
    ensures { result ≡ judge_of c g raw }
{
    if has_bad_limit(g) {
        return Err(SealRefusal::BadLimit);
    }
    let p = pull(raw, c);
    if !p.is_finite() {
        return Err(SealRefusal::NotFinite);
    }
    if !is_within(g, p) {
        return Err(SealRefusal::Outside);
    }
    Ok(p)
}

// The float of a pattern. Every NaN's pattern gives the same NaN, since from_bits takes none of
// them.
fn float_of(bits: u64) -> f64
    ensures { result ≡ of_bits binary64 bits }
{
    if 0x7ff0_0000_0000_0000 < bits % 0x8000_0000_0000_0000 {
        return f64::NAN;
    }
    f64::from_bits(bits)
}

// The float at index at, of eight bytes.
pub fn float_at(bytes: &[u8], at: usize) -> f64
    ensures { result ≡ float_of (field at 8 bytes.now) }
{
    float_of(octets::le64(bytes, at))
}

fn is_zero_at(bytes: &[u8], at: usize) -> bool
    ensures { result ≡ is_zero (field at 8 bytes.now) }
{
    octets::le64(bytes, at) == 0
}

// The gate by its kind. A limit that the kind does not use is zero bytes.
fn read_gate(bytes: &[u8]) -> Result<Gate, SealRefusal>
    ensures { result ≡ cond (is_broken bytes.now) (Err Broken) (Ok (gate_of bytes.now)) }
{
    if bytes.len() != 25 {
        return Err(SealRefusal::Broken);
    }
    match bytes[0] {
        0 if is_zero_at(bytes, 1) && is_zero_at(bytes, 9) => Ok(Gate::None),
        1 if is_zero_at(bytes, 9) => Ok(Gate::AtLeast(float_at(bytes, 1))),
        2 => Ok(Gate::Between(float_at(bytes, 1), float_at(bytes, 9))),
        _ => Err(SealRefusal::Broken),
    }
}

// What any slice says as a seal's body.
pub fn read_body(bytes: &[u8]) -> Result<Reading, SealRefusal>
    ensures { result ≡ read_of bytes.now }
{
    let gate = read_gate(bytes)?;
    Ok(Reading {
        gate,
        raw: float_at(bytes, 17),
    })
}
