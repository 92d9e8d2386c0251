// Where each field of a case lies, reading it, and writing those that are worked out. Every reader takes
// any slice: where the file has ended it reads zeros, so that no length has to be checked first. Offsets are
// the definition's (specs/Layout.antt), which the proofs compute; behind the proof they are sums over its
// length, in which the two editions differ. What the fields must satisfy is left to `statement`.
#![tactic(auto)]

ghost use Rattle.std.specs.Prelude.{◌≡◌, ◌+◌, ◌≤◌};
ghost use Rattle.units.specs.Pairs.{number_of, of_pair};
ghost use Rattle.casefile.specs.Layout.{proof_length, present_of, nullifier as nullifier_field, commitment as commitment_field, tag as tag_field, of_old, of_new};
ghost use Rattle.casefile.specs.Writing.{has_place, put_part};
ghost use Rattle.casefile.specs.Fields.{has_length, vpub_old_of, vpub_new_of, anchor_of, nullifier_of, commitment_of, seed_of, tag_of, transaction_key_of, old_key_of, old_address_of, old_value_of, old_rho_of, old_trapdoor_of, old_position_of, new_address_of, new_value_of, new_rho_of, new_trapdoor_of, phi_of};

use units::{Amount, Position, Which};

// How many bytes a case has in each edition, and how many in either without its proof.
const FIRST_LENGTH: usize = 4210;

const SECOND_LENGTH: usize = 4106;

const LENGTH_WITHOUT_PROOF: usize = 3914;

// Where a field behind the proof lies: start is where it would lie if the proof had no bytes. In either edition it
// is as far from the file's end.
fn behind_proof(case: &[u8], start: usize) -> usize
    requires { start ≤ 3914 }
    ensures { result ≡ proof_length case.now + start }
{
    let n = case.len();
    if n < LENGTH_WITHOUT_PROOF {
        return start;
    }
    n - (LENGTH_WITHOUT_PROOF - start)
}

// Where the field of a pair lies: its first stands at start, and its second step bytes further on.
fn spot(i: Which, start: usize, step: usize) -> usize
    requires { (start ≤ 4210) × (step ≤ 4210) }
    ensures value { result ≡ of_pair i start (start + step) }
    ensures upper_bound { result ≤ start + step }
{
    match i {
        Which::First => start,
        Which::Second => start + step,
    }
}

// Where those lie that are not only read but written too. Each place has its name, since reader and writer share it: a
// `spot` with its numbers would stand twice.
fn nullifier_at(i: Which) -> usize
    ensures { result ≡ of_pair i 48 (48 + 32) }
{
    spot(i, 48, 32)
}

fn commitment_at(i: Which) -> usize
    ensures { result ≡ of_pair i 112 (112 + 32) }
{
    spot(i, 112, 32)
}

fn tag_at(i: Which) -> usize
    ensures { result ≡ of_pair i 240 (240 + 32) }
{
    spot(i, 240, 32)
}

// Where a part of old note i lies, and one of new note i. Its place inside the note, inner, is counted from the
// note's own start, as docs/FORMATS.md draws it.
fn old_at(case: &[u8], i: Which, inner: usize) -> usize
    requires { inner ≤ 1068 }
    ensures { result ≡ proof_length case.now + of_pair i (1538 + inner) (1538 + inner + 1068) }
{
    behind_proof(case, spot(i, 1538 + inner, 1068))
}

fn new_at(case: &[u8], i: Which, inner: usize) -> usize
    requires { inner ≤ 104 }
    ensures { result ≡ proof_length case.now + of_pair i (3674 + inner) (3674 + inner + 104) }
{
    behind_proof(case, spot(i, 3674 + inner, 104))
}

// Whether the file has a case's length, in either edition: from the shorter length to the longer one, these two alone
// are a multiple of 104 above the shorter. By the two bounds the compiler sees that a whole file has every field, and
// leaves out each field's question whether the file has ended.
pub fn has_length(case: &[u8]) -> bool
    ensures { result ≡ has_length case.now }
{
    let n = case.len();
    if n < SECOND_LENGTH {
        return false;
    }
    if FIRST_LENGTH < n {
        return false;
    }
    (n - SECOND_LENGTH) % 104 == 0
}

// A reader for each field, one line each: docs/PROMISES.md names them, and each contract names its field.
pub fn vpub_old(case: &[u8]) -> Amount
    ensures { result.0 ≡ vpub_old_of case.now }
{
    Amount::of(octets::le64(case, 0))
}

pub fn vpub_new(case: &[u8]) -> Amount
    ensures { result.0 ≡ vpub_new_of case.now }
{
    Amount::of(octets::le64(case, 8))
}

pub fn anchor(case: &[u8]) -> [u8; 32]
    ensures { result ≡ anchor_of case.now }
{
    octets::part(case, 16)
}

pub fn nullifier(case: &[u8], i: Which) -> [u8; 32]
    ensures { result ≡ nullifier_of (number_of i) case.now }
{
    octets::part(case, nullifier_at(i))
}

pub fn commitment(case: &[u8], i: Which) -> [u8; 32]
    ensures { result ≡ commitment_of (number_of i) case.now }
{
    octets::part(case, commitment_at(i))
}

pub fn seed(case: &[u8]) -> [u8; 32]
    ensures { result ≡ seed_of case.now }
{
    octets::part(case, 208)
}

pub fn tag(case: &[u8], i: Which) -> [u8; 32]
    ensures { result ≡ tag_of (number_of i) case.now }
{
    octets::part(case, tag_at(i))
}

pub fn transaction_key(case: &[u8]) -> [u8; 32]
    ensures { result ≡ transaction_key_of case.now }
{
    octets::part(case, behind_proof(case, 1506))
}

pub fn old_key(case: &[u8], i: Which) -> [u8; 32]
    ensures { result ≡ old_key_of (number_of i) case.now }
{
    octets::part(case, old_at(case, i, 0))
}

pub fn old_address(case: &[u8], i: Which) -> [u8; 32]
    ensures { result ≡ old_address_of (number_of i) case.now }
{
    octets::part(case, old_at(case, i, 32))
}

pub fn old_value(case: &[u8], i: Which) -> Amount
    ensures { result.0 ≡ old_value_of (number_of i) case.now }
{
    Amount::of(octets::le64(case, old_at(case, i, 64)))
}

pub fn old_rho(case: &[u8], i: Which) -> [u8; 32]
    ensures { result ≡ old_rho_of (number_of i) case.now }
{
    octets::part(case, old_at(case, i, 72))
}

pub fn old_trapdoor(case: &[u8], i: Which) -> [u8; 32]
    ensures { result ≡ old_trapdoor_of (number_of i) case.now }
{
    octets::part(case, old_at(case, i, 104))
}

pub fn old_position(case: &[u8], i: Which) -> Position
    ensures { result.0 ≡ old_position_of (number_of i) case.now }
{
    Position::of(octets::le32(case, old_at(case, i, 136)))
}

// The path's rows, leaf level first, as a part of the file: nothing is copied.
pub fn old_path<'a>(case: &'a [u8], i: Which) -> &'a [u8]
    ensures { result.now ≡ present_of (of_old (number_of i) 6) case.now }
{
    let rest = case.get(old_at(case, i, 140)..).unwrap_or(&[]);
    &rest[..rest.len().min(928)]
}

pub fn new_address(case: &[u8], i: Which) -> [u8; 32]
    ensures { result ≡ new_address_of (number_of i) case.now }
{
    octets::part(case, new_at(case, i, 0))
}

pub fn new_value(case: &[u8], i: Which) -> Amount
    ensures { result.0 ≡ new_value_of (number_of i) case.now }
{
    Amount::of(octets::le64(case, new_at(case, i, 32)))
}

pub fn new_rho(case: &[u8], i: Which) -> [u8; 32]
    ensures { result ≡ new_rho_of (number_of i) case.now }
{
    octets::part(case, new_at(case, i, 40))
}

pub fn new_trapdoor(case: &[u8], i: Which) -> [u8; 32]
    ensures { result ≡ new_trapdoor_of (number_of i) case.now }
{
    octets::part(case, new_at(case, i, 72))
}

pub fn phi(case: &[u8]) -> [u8; 32]
    ensures { result ≡ phi_of case.now }
{
    octets::part(case, behind_proof(case, 3882))
}

// Writing what the desk works out from the rest of a case. Each of these puts 32 bytes where the reader of its
// name finds them, and answers whether the file has that place; where it does not, it stays as it is. There are five of
// them by name: one for all would write any field, also those that a custodian chooses.
pub fn put_nullifier(case: &mut [u8], i: Which, bytes: &[u8; 32]) -> bool
    ensures value { result ≡ has_place (nullifier_field (number_of i)) bytes.now case.old }
    ensures case_after { case.new ≡ put_part (nullifier_field (number_of i)) bytes.now case.old }
{
    octets::copy_in(case, nullifier_at(i), bytes)
}

pub fn put_commitment(case: &mut [u8], i: Which, bytes: &[u8; 32]) -> bool
    ensures value { result ≡ has_place (commitment_field (number_of i)) bytes.now case.old }
    ensures case_after { case.new ≡ put_part (commitment_field (number_of i)) bytes.now case.old }
{
    octets::copy_in(case, commitment_at(i), bytes)
}

pub fn put_tag(case: &mut [u8], i: Which, bytes: &[u8; 32]) -> bool
    ensures value { result ≡ has_place (tag_field (number_of i)) bytes.now case.old }
    ensures case_after { case.new ≡ put_part (tag_field (number_of i)) bytes.now case.old }
{
    octets::copy_in(case, tag_at(i), bytes)
}

pub fn put_old_address(case: &mut [u8], i: Which, bytes: &[u8; 32]) -> bool
    ensures value { result ≡ has_place (of_old (number_of i) 1) bytes.now case.old }
    ensures case_after { case.new ≡ put_part (of_old (number_of i) 1) bytes.now case.old }
{
    octets::copy_in(case, old_at(case, i, 32), bytes)
}

pub fn put_new_rho(case: &mut [u8], i: Which, bytes: &[u8; 32]) -> bool
    ensures value { result ≡ has_place (of_new (number_of i) 2) bytes.now case.old }
    ensures case_after { case.new ≡ put_part (of_new (number_of i) 2) bytes.now case.old }
{
    octets::copy_in(case, new_at(case, i, 40), bytes)
}
