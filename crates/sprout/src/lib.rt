// What is derived from a Sprout note and its keys: address, nullifier, tags, new rho, commitment
// and hSig, by document 01's section "Hashes", over the proved hashes.
// What a case claims of them is left to `statement`, the tree to `tree`.
#![tactic(auto)]

ghost use Rattle.std.specs.Prelude.{◌≡◌, ◌<◌};
ghost use Rattle.units.specs.Pairs.{number_of};
ghost use Rattle.sprout.specs.Hashes.{mac_prefix, rho_prefix, with_prefix, has_top_bits, prefixed as prefixed_of, address_from, nullifier_from, mac_from, rho_from, note_bytes, commitment_from, bound_bytes, h_sig_from};

use units::{Amount, Which};

// A key with a prefix in the top four bits of its first byte.
fn with_prefix(prefix: u8, key: &[u8; 32]) -> [u8; 32]
    requires { prefix < 16 }
    ensures { result ≡ with_prefix prefix key.now }
{
    let mut k = *key;
    k[0] = prefix * 16 + k[0] % 16;
    k
}

// The compression that all prefixed hashes are.
fn prefixed(prefix: u8, key: &[u8; 32], rest: &[u8; 32]) -> [u8; 32]
    requires { prefix < 16 }
    ensures { result ≡ prefixed_of prefix key.now rest.now }
{
    let k = with_prefix(prefix, key);
    sha256::compress_halves(&k, rest)
}

// Whether a key has one of the four bits that must be free.
pub fn has_top_bits(key: &[u8; 32]) -> bool
    ensures { result ≡ has_top_bits key.now }
{
    15 < key[0]
}

pub fn address(key: &[u8; 32]) -> [u8; 32]
    ensures { result ≡ address_from key.now }
{
    prefixed(12, key, &[0; 32])
}

pub fn nullifier(key: &[u8; 32], rho: &[u8; 32]) -> [u8; 32]
    ensures { result ≡ nullifier_from key.now rho.now }
{
    prefixed(14, key, rho)
}

// The prefixes of tag and rho, for the first and the second of a pair. Two functions, since there are two rules: one
// with both constants as arguments would let a caller mix them. Each says that it is below 16, as `prefixed` asks: a
// type for the tags would need a second definition that gives each its number.
fn mac_prefix(i: Which) -> u8
    ensures { (result ≡ mac_prefix (number_of i)) × (result < 16) }
{
    match i {
        Which::First => 0,
        Which::Second => 4,
    }
}

fn rho_prefix(i: Which) -> u8
    ensures { (result ≡ rho_prefix (number_of i)) × (result < 16) }
{
    match i {
        Which::First => 2,
        Which::Second => 6,
    }
}

// The tag h that ties key i to hSig.
pub fn mac(i: Which, key: &[u8; 32], h_sig: &[u8; 32]) -> [u8; 32]
    ensures { result ≡ mac_from (number_of i) key.now h_sig.now }
{
    prefixed(mac_prefix(i), key, h_sig)
}

// The rho of new note i.
pub fn rho(i: Which, phi: &[u8; 32], h_sig: &[u8; 32]) -> [u8; 32]
    ensures { result ≡ rho_from (number_of i) phi.now h_sig.now }
{
    prefixed(rho_prefix(i), phi, h_sig)
}

// The 105 bytes that a commitment hashes.
fn note_bytes(address: &[u8; 32], value: Amount, rho: &[u8; 32], r: &[u8; 32]) -> [u8; 105]
    ensures { result ≡ note_bytes address.now value.0 rho.now r.now }
{
    let mut m = [0u8; 105];
    m[0] = 0xb0;
    octets::copy_in(&mut m, 1, address);
    octets::copy_in(&mut m, 33, &octets::le_bytes64(value.zatoshi()));
    octets::copy_in(&mut m, 41, rho);
    octets::copy_in(&mut m, 73, r);
    m
}

pub fn commitment(address: &[u8; 32], value: Amount, rho: &[u8; 32], r: &[u8; 32]) -> [u8; 32]
    ensures { result ≡ commitment_from address.now value.0 rho.now r.now }
{
    let m = note_bytes(address, value, rho, r);
    sha256::hash(&m)
}

// The 128 bytes that hSig hashes.
fn bound_bytes(
    seed: &[u8; 32],
    nullifier1: &[u8; 32],
    nullifier2: &[u8; 32],
    key: &[u8; 32],
) -> [u8; 128]
    ensures { result ≡ bound_bytes seed.now nullifier1.now nullifier2.now key.now }
{
    octets::part([*seed, *nullifier1, *nullifier2, *key].as_flattened(), 0)
}

pub fn h_sig(
    seed: &[u8; 32],
    nullifier1: &[u8; 32],
    nullifier2: &[u8; 32],
    key: &[u8; 32],
) -> [u8; 32]
    ensures { result ≡ h_sig_from seed.now nullifier1.now nullifier2.now key.now }
{
    let m = bound_bytes(seed, nullifier1, nullifier2, key);
    blake2b::hash32(&m, b"ZcashComputehSig")
}
