// What can be said of a case alone: refusals 1, 4, 5, 7 and 9 to 16 of document 01, asked in the
// order of their numbers, up to the first that applies. Nothing is hashed before the cheap tests
// have passed, and nothing is hashed twice. What a ledger has to say of a case is left to `judge`.
#![tactic(auto)]

ghost use Rattle.std.specs.Prelude.{◌≡◌, ◌+◌, ◌*◌, [], ◌∷◌};
ghost use Rattle.units.specs.Pairs.{number_of};
ghost use Rattle.refusals.specs.Rules.{answer, first, rules_in};
ghost use Rattle.refusals.specs.Reasons.{as_answer, answer_for};
ghost use Rattle.casefile.specs.Fields.{anchor_of, old_value_of};
ghost use Rattle.statement.specs.Claims.{claim_wrong, claim_number, pair_refusals};
ghost use Rattle.statement.specs.CaseRefusals.{no1, no4, no5, no7, no9, no10, no11, range_of, strays_of, unbalanced_of, nullifier_wrong, address_wrong, tag_wrong, rho_wrong, commitment_wrong, h_sig_of, old_commitment_of, public_refusals, witness_refusals, claim_refusals, derived_refusals, path_end_of, ends_elsewhere, differs as differs_of};

use refusals::Refusal;
use units::{Amount, Which};

// 1
fn length(case: &[u8]) -> Result<(), Refusal>
    ensures { as_answer result ≡ first (no1 case.now) }
{
    if casefile::has_length(case) {
        Ok(())
    } else {
        Err(Refusal::Length)
    }
}

// 4
fn one_sided(case: &[u8]) -> Result<(), Refusal>
    ensures { as_answer result ≡ first (no4 case.now) }
{
    if casefile::vpub_old(case).is_zero() {
        return Ok(());
    }
    if casefile::vpub_new(case).is_zero() {
        return Ok(());
    }
    Err(Refusal::BothPublic)
}

// 5
fn public_amounts(case: &[u8]) -> Result<(), Refusal>
    ensures { as_answer result ≡ first (no5 case.now) }
{
    if !casefile::vpub_old(case).is_money() {
        return Err(Refusal::AboveMoney(Which::First));
    }
    if !casefile::vpub_new(case).is_money() {
        return Err(Refusal::AboveMoney(Which::Second));
    }
    Ok(())
}

// 4 and 5: what the two public values must satisfy.
pub fn public_values(case: &[u8]) -> Result<(), Refusal>
    ensures { as_answer result ≡ first (rules_in (no4 case.now ∷ no5 case.now ∷ [])) }
{
    one_sided(case)?;
    public_amounts(case)
}

// 7. The two are compared by words of eight bytes, of which the first nearly always decides. By `==` of the two rows,
// byte by byte, a refusal with 7 takes 58 instructions more.
pub fn distinct(case: &[u8]) -> Result<(), Refusal>
    ensures { as_answer result ≡ first (no7 case.now) }
{
    let one = casefile::nullifier(case, Which::First);
    let two = casefile::nullifier(case, Which::Second);
    for k in 0..4 {
        if octets::le64(&one, 8 * k) != octets::le64(&two, 8 * k) {
            return Ok(());
        }
    }
    Err(Refusal::EqualNullifiers)
}

// 9
fn out_of_range(case: &[u8], i: Which) -> bool
    ensures { result ≡ range_of case.now (number_of i) }
{
    let key = casefile::old_key(case, i);
    if sprout::has_top_bits(&key) {
        return true;
    }
    !casefile::old_position(case, i).is_leaf()
}

pub fn ranges(case: &[u8]) -> Result<(), Refusal>
    ensures { as_answer result ≡ first (no9 case.now) }
{
    if out_of_range(case, Which::First) {
        return Err(Refusal::OldOutOfRange(Which::First));
    }
    if out_of_range(case, Which::Second) {
        return Err(Refusal::OldOutOfRange(Which::Second));
    }
    let phi = casefile::phi(case);
    if sprout::has_top_bits(&phi) {
        return Err(Refusal::PhiOutOfRange);
    }
    Ok(())
}

// 10. A note of no value is excused its path, and nothing else.
pub fn old_commitment(case: &[u8], i: Which) -> [u8; 32]
    ensures { result ≡ old_commitment_of (number_of i) case.now }
{
    let address = casefile::old_address(case, i);
    let value = casefile::old_value(case, i);
    let rho = casefile::old_rho(case, i);
    let r = casefile::old_trapdoor(case, i);
    sprout::commitment(&address, value, &rho, &r)
}

// Whether two rows of 32 bytes differ.
fn differ(claimed: &[u8; 32], derived: &[u8; 32]) -> bool
    ensures { result ≡ differs_of claimed.now derived.now }
{
    !octets::same(claimed, derived)
}

// Whether old note i has a value, and its path was climbed to some end other than the anchor.
pub fn ends_elsewhere(case: &[u8], i: Which, end: &[u8; 32]) -> bool
    ensures { result ≡ ends_elsewhere (old_value_of (number_of i) case.now) end.now (anchor_of case.now) }
{
    if casefile::old_value(case, i).is_zero() {
        return false;
    }
    let anchor = casefile::anchor(case);
    differ(end, &anchor)
}

// Where the path of old note i ends, climbed from its commitment.
fn path_end(case: &[u8], i: Which) -> [u8; 32]
    ensures { result ≡ path_end_of (number_of i) case.now }
{
    let leaf = old_commitment(case, i);
    let position = casefile::old_position(case, i);
    tree::climb(leaf, position, casefile::old_path(case, i))
}

fn strays(case: &[u8], i: Which) -> bool
    ensures { result ≡ strays_of case.now (number_of i) }
{
    if casefile::old_value(case, i).is_zero() {
        return false;
    }
    let end = path_end(case, i);
    ends_elsewhere(case, i, &end)
}

// 11. A sum of three amounts can pass what 64 bits hold.
fn sum(a: Amount, b: Amount, c: Amount) -> u128
    ensures { result ≡ a.0 + b.0 + c.0 }
{
    u128::from(a.zatoshi()) + u128::from(b.zatoshi()) + u128::from(c.zatoshi())
}

// Whether the two sides differ, or what both come to is above 2 ^ 64 - 1.
fn unbalanced(case: &[u8]) -> bool
    ensures { result ≡ unbalanced_of case.now }
{
    let old1 = casefile::old_value(case, Which::First);
    let old2 = casefile::old_value(case, Which::Second);
    let new1 = casefile::new_value(case, Which::First);
    let new2 = casefile::new_value(case, Which::Second);
    let paid = sum(casefile::vpub_old(case), old1, old2);
    let made = sum(casefile::vpub_new(case), new1, new2);
    paid != made || paid > u128::from(u64::MAX)
}

pub fn balance(case: &[u8]) -> Result<(), Refusal>
    ensures { as_answer result ≡ first (no11 case.now) }
{
    if unbalanced(case) {
        Err(Refusal::Unbalanced)
    } else {
        Ok(())
    }
}

// 12
fn nullifier_wrong(case: &[u8], i: Which) -> bool
    ensures { result ≡ nullifier_wrong case.now (number_of i) }
{
    let claimed = casefile::nullifier(case, i);
    let key = casefile::old_key(case, i);
    let rho = casefile::old_rho(case, i);
    let derived = sprout::nullifier(&key, &rho);
    differ(&claimed, &derived)
}

// 13
fn address_wrong(case: &[u8], i: Which) -> bool
    ensures { result ≡ address_wrong case.now (number_of i) }
{
    let claimed = casefile::old_address(case, i);
    let key = casefile::old_key(case, i);
    let derived = sprout::address(&key);
    differ(&claimed, &derived)
}

// 14 and 15 share hSig, which is hashed once.
pub fn h_sig(case: &[u8]) -> [u8; 32]
    ensures { result ≡ h_sig_of case.now }
{
    let seed = casefile::seed(case);
    let one = casefile::nullifier(case, Which::First);
    let two = casefile::nullifier(case, Which::Second);
    let key = casefile::transaction_key(case);
    sprout::h_sig(&seed, &one, &two, &key)
}

fn tag_wrong(case: &[u8], i: Which, h: &[u8; 32]) -> bool
    ensures { result ≡ tag_wrong h.now case.now (number_of i) }
{
    let claimed = casefile::tag(case, i);
    let key = casefile::old_key(case, i);
    let derived = sprout::mac(i, &key, h);
    differ(&claimed, &derived)
}

fn rho_wrong(case: &[u8], i: Which, h: &[u8; 32]) -> bool
    ensures { result ≡ rho_wrong h.now case.now (number_of i) }
{
    let claimed = casefile::new_rho(case, i);
    let phi = casefile::phi(case);
    let derived = sprout::rho(i, &phi, h);
    differ(&claimed, &derived)
}

// 16
fn commitment_wrong(case: &[u8], i: Which) -> bool
    ensures { result ≡ commitment_wrong case.now (number_of i) }
{
    let claimed = casefile::commitment(case, i);
    let address = casefile::new_address(case, i);
    let value = casefile::new_value(case, i);
    let rho = casefile::new_rho(case, i);
    let r = casefile::new_trapdoor(case, i);
    let derived = sprout::commitment(&address, value, &rho, &r);
    differ(&claimed, &derived)
}

// What a case claims of both of a pair, which is asked in one way. An enum and a match, and no closure: `claim_wrong`
// and `claim_number` of specs/Claims.antt are over it.
#[derive(Clone, Copy)]
enum Claim {
    Path,
    Nullifier,
    Address,
    Tag,
    Rho,
    Commitment,
}

impl Claim {
    // The refusal where it is wrong of number i.
    fn refusal(self, i: Which) -> Refusal
        ensures { answer_for result ≡ answer (claim_number self) (number_of i) }
    {
        match self {
            Claim::Path => Refusal::PathAstray(i),
            Claim::Nullifier => Refusal::WrongNullifier(i),
            Claim::Address => Refusal::WrongAddress(i),
            Claim::Tag => Refusal::WrongTag(i),
            Claim::Rho => Refusal::WrongRho(i),
            Claim::Commitment => Refusal::WrongCommitment(i),
        }
    }
}

// Tags and new rhos are over h; nothing else reads it.
fn is_wrong(case: &[u8], claim: Claim, i: Which, h: &[u8; 32]) -> bool
    ensures { result ≡ claim_wrong claim h.now case.now (number_of i) }
{
    match claim {
        Claim::Path => strays(case, i),
        Claim::Nullifier => nullifier_wrong(case, i),
        Claim::Address => address_wrong(case, i),
        Claim::Tag => tag_wrong(case, i, h),
        Claim::Rho => rho_wrong(case, i, h),
        Claim::Commitment => commitment_wrong(case, i),
    }
}

// The first of the pair is asked first.
fn pair(case: &[u8], claim: Claim, h: &[u8; 32]) -> Result<(), Refusal>
    ensures { as_answer result ≡ first (pair_refusals claim h.now case.now) }
{
    if is_wrong(case, claim, Which::First, h) {
        return Err(claim.refusal(Which::First));
    }
    if is_wrong(case, claim, Which::Second, h) {
        return Err(claim.refusal(Which::Second));
    }
    Ok(())
}

// 10, which is over no hSig.
pub fn paths(case: &[u8]) -> Result<(), Refusal>
    ensures { as_answer result ≡ first (no10 case.now) }
{
    let none = [0u8; 32];
    pair(case, Claim::Path, &none)
}

// 12 to 16: what is claimed of keys, notes and the transaction.
fn derived(case: &[u8]) -> Result<(), Refusal>
    ensures { as_answer result ≡ first (rules_in (derived_refusals case.now)) }
{
    let h = h_sig(case);
    pair(case, Claim::Nullifier, &h)?;
    pair(case, Claim::Address, &h)?;
    pair(case, Claim::Tag, &h)?;
    pair(case, Claim::Rho, &h)?;
    pair(case, Claim::Commitment, &h)
}

// 11 to 16: the balance, and what is derived.
pub fn claims(case: &[u8]) -> Result<(), Refusal>
    ensures { as_answer result ≡ first (rules_in (claim_refusals case.now)) }
{
    balance(case)?;
    derived(case)
}

// 9 to 16: what the notes and keys must satisfy.
pub fn witness(case: &[u8]) -> Result<(), Refusal>
    ensures { as_answer result ≡ first (rules_in (witness_refusals case.now)) }
{
    ranges(case)?;
    paths(case)?;
    claims(case)
}

// 1, 4, 5 and 7: what the public part must satisfy.
pub fn public_part(case: &[u8]) -> Result<(), Refusal>
    ensures { as_answer result ≡ first (rules_in (public_refusals case.now)) }
{
    length(case)?;
    public_values(case)?;
    distinct(case)
}
