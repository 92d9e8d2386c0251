// SHA-256 (FIPS 180-4): one compression of a block, from any state or from the standard start value,
// and the whole hash of a message of any length, padding included.
// What is hashed, and why, is left to the crates above.
#![tactic(auto)]

ghost use Rattle.std.specs.Prelude.{◌≡◌, ◌∷◌, ◌++◌, ◌+◌, ◌-◌, ◌*◌, ◌/◌, ◌%◌, ◌^◌, ◌≤◌, ◌<◌, length, set};
ghost use Rattle.octets.specs.Parts.{zeros, listed};
ghost use Rattle.octets.specs.Numbers.{big_bytes};
ghost use Rattle.sha256.specs.Compression.{Ch, Maj, Σ0, Σ1, σ0, σ1, k_list, start_of, word_at, next_word, schedule_of, round_of, rounds as rounds_of, plus_of, compress_from, state_bytes, compress_of};
ghost use Rattle.sha256.specs.Hash.{padding, blocks as blocks_of, sha256_of};

// The eight words that go from block to block.
#[derive(Clone, Copy)]
pub struct State {
    pub a: u32,
    pub b: u32,
    pub c: u32,
    pub d: u32,
    pub e: u32,
    pub f: u32,
    pub g: u32,
    pub h: u32,
}

// The constants of the 64 rounds.
const K: [u32; 64] = [
    0x428a2f98, 0x71374491, 0xb5c0fbcf, 0xe9b5dba5, 0x3956c25b, 0x59f111f1, 0x923f82a4, 0xab1c5ed5,
    0xd807aa98, 0x12835b01, 0x243185be, 0x550c7dc3, 0x72be5d74, 0x80deb1fe, 0x9bdc06a7, 0xc19bf174,
    0xe49b69c1, 0xefbe4786, 0x0fc19dc6, 0x240ca1cc, 0x2de92c6f, 0x4a7484aa, 0x5cb0a9dc, 0x76f988da,
    0x983e5152, 0xa831c66d, 0xb00327c8, 0xbf597fc7, 0xc6e00bf3, 0xd5a79147, 0x06ca6351, 0x14292967,
    0x27b70a85, 0x2e1b2138, 0x4d2c6dfc, 0x53380d13, 0x650a7354, 0x766a0abb, 0x81c2c92e, 0x92722c85,
    0xa2bfe8a1, 0xa81a664b, 0xc24b8b70, 0xc76c51a3, 0xd192e819, 0xd6990624, 0xf40e3585, 0x106aa070,
    0x19a4c116, 0x1e376c08, 0x2748774c, 0x34b0bcb5, 0x391c0cb3, 0x4ed8aa4a, 0x5b9cca4f, 0x682e6ff3,
    0x748f82ee, 0x78a5636f, 0x84c87814, 0x8cc70208, 0x90befffa, 0xa4506ceb, 0xbef9a3f7, 0xc67178f2,
];

fn ch(x: u32, y: u32, z: u32) -> u32
    ensures { result ≡ Ch x y z }
{
    (x & y) ^ (!x & z)
}

fn maj(x: u32, y: u32, z: u32) -> u32
    ensures { result ≡ Maj x y z }
{
    (x & y) ^ (x & z) ^ (y & z)
}

// Four functions, as FIPS 180-4 names four: one with the three distances as arguments would say no less.
fn big0(x: u32) -> u32
    ensures { result ≡ Σ0 x }
{
    x.rotate_right(2) ^ x.rotate_right(13) ^ x.rotate_right(22)
}

fn big1(x: u32) -> u32
    ensures { result ≡ Σ1 x }
{
    x.rotate_right(6) ^ x.rotate_right(11) ^ x.rotate_right(25)
}

fn small0(x: u32) -> u32
    ensures { result ≡ σ0 x }
{
    x.rotate_right(7) ^ x.rotate_right(18) ^ (x >> 3)
}

fn small1(x: u32) -> u32
    ensures { result ≡ σ1 x }
{
    x.rotate_right(17) ^ x.rotate_right(19) ^ (x >> 10)
}

// A block's words, with room for the rest of the schedule.
fn words(b: &[u8; 64]) -> [u32; 64]
    ensures { result ≡ listed (word_at b.now) 16 ++ zeros 48 }
{
    let mut w = [0; 64];
    for (i, bytes) in b.as_chunks::<4>().0.iter().enumerate() {
        w[i] = u32::from_be_bytes(*bytes);
    }
    w
}

// Puts in the word that follows the first i + 16.
fn extend(w: &mut [u32; 64], i: usize)
    requires { i < 48 }
    ensures { w.new ≡ set w.old (i + 16) (next_word w.old i) }
{
    w[i + 16] = small1(w[i + 14])
        .wrapping_add(w[i + 9])
        .wrapping_add(small0(w[i + 1]))
        .wrapping_add(w[i]);
}

// The schedule. Four words a turn, which spares three of four jumps: with one a turn a block takes 96 instructions
// more.
fn schedule(b: &[u8; 64]) -> [u32; 64]
    ensures { result ≡ schedule_of b.now }
{
    let mut w = words(b);
    for j in 0..12 {
        extend(&mut w, 4 * j);
        extend(&mut w, 4 * j + 1);
        extend(&mut w, 4 * j + 2);
        extend(&mut w, 4 * j + 3);
    }
    w
}

// One round, with the constant k and the word w.
fn round(s: State, k: u32, w: u32) -> State
    ensures { result ≡ round_of s k w }
{
    let t1 = s
        .h
        .wrapping_add(big1(s.e))
        .wrapping_add(ch(s.e, s.f, s.g))
        .wrapping_add(k)
        .wrapping_add(w);
    let t2 = big0(s.a).wrapping_add(maj(s.a, s.b, s.c));
    State {
        a: t1.wrapping_add(t2),
        b: s.a,
        c: s.b,
        d: s.c,
        e: s.d.wrapping_add(t1),
        f: s.e,
        g: s.f,
        h: s.g,
    }
}

// Eight rounds in a row: after so many each word is back in the register where it began, so that
// none is moved. One call site only, so that the compiler inlines it.
fn eight(s: State, k: &[u32; 8], w: &[u32; 8]) -> State
    ensures { result ≡ rounds_of 8 k.now w.now s }
{
    let s1 = round(s, k[0], w[0]);
    let s2 = round(s1, k[1], w[1]);
    let s3 = round(s2, k[2], w[2]);
    let s4 = round(s3, k[3], w[3]);
    let s5 = round(s4, k[4], w[4]);
    let s6 = round(s5, k[5], w[5]);
    let s7 = round(s6, k[6], w[6]);
    round(s7, k[7], w[7])
}

// All 64 rounds, eight a turn: with one a turn a block takes 840 instructions more.
fn rounds(s: State, w: &[u32; 64]) -> State
    ensures { result ≡ rounds_of 64 k_list w.now s }
{
    let (constants, _) = K.as_chunks::<8>();
    let (words, _) = w.as_chunks::<8>();
    let mut t = s;
    for (k, w) in constants.iter().zip(words) {
        t = eight(t, k, w);
    }
    t
}

// The standard start value.
fn start() -> State
    ensures { result ≡ start_of }
{
    State {
        a: 0x6a09e667,
        b: 0xbb67ae85,
        c: 0x3c6ef372,
        d: 0xa54ff53a,
        e: 0x510e527f,
        f: 0x9b05688c,
        g: 0x1f83d9ab,
        h: 0x5be0cd19,
    }
}

// The sum of two states, word by word.
fn plus(s: State, t: State) -> State
    ensures { result ≡ plus_of s t }
{
    State {
        a: s.a.wrapping_add(t.a),
        b: s.b.wrapping_add(t.b),
        c: s.c.wrapping_add(t.c),
        d: s.d.wrapping_add(t.d),
        e: s.e.wrapping_add(t.e),
        f: s.f.wrapping_add(t.f),
        g: s.g.wrapping_add(t.g),
        h: s.h.wrapping_add(t.h),
    }
}

// What a block of 64 bytes makes of a state.
fn absorb(s: State, b: &[u8; 64]) -> State
    ensures { result ≡ compress_from s b.now }
{
    let w = schedule(b);
    plus(s, rounds(s, &w))
}

// The bytes of a state, each word from its highest byte on.
fn bytes(s: State) -> [u8; 32]
    ensures { result ≡ state_bytes s }
{
    let words = [
        s.a.to_be_bytes(),
        s.b.to_be_bytes(),
        s.c.to_be_bytes(),
        s.d.to_be_bytes(),
        s.e.to_be_bytes(),
        s.f.to_be_bytes(),
        s.g.to_be_bytes(),
        s.h.to_be_bytes(),
    ];
    octets::part(words.as_flattened(), 0)
}

// One compression of a block, from the start value, with no padding.
pub fn compress(b: &[u8; 64]) -> [u8; 32]
    ensures { result ≡ compress_of b.now }
{
    bytes(absorb(start(), b))
}

// One compression of a block that is given as its two halves.
pub fn compress_halves(l: &[u8; 32], r: &[u8; 32]) -> [u8; 32]
    ensures { result ≡ compress_of (l.now ++ r.now) }
{
    let block = octets::part([*l, *r].as_flattened(), 0);
    compress(&block)
}

// The length in bits of n bytes. Eight bytes keep 64 bits of it, and so n counts modulo 2 ^ 61.
fn length_field(n: usize) -> [u8; 8]
    ensures { result ≡ big_bytes 8 (8 * n) }
{
    (n as u64).wrapping_mul(8).to_be_bytes()
}

// Fills t, all zeros so far, with the message's last bytes and the padding for n bytes in all.
fn fill_last(t: &mut [u8], rest: &[u8], n: usize)
    requires { (length rest.now + 9 ≤ length t.old) × (t.old ≡ zeros (length t.old)) }
    ensures { t.new ≡ rest.now ++ ((0x80 ∷ zeros (length t.old - (length rest.now + 9))) ++ big_bytes 8 (8 * n)) }
{
    let at = t.len() - 8;
    octets::copy_in(t, 0, rest);
    t[rest.len()] = 0x80;
    octets::copy_in(t, at, &length_field(n));
}

// What the message's last bytes and its padding make of a state: one block, or two where the
// length does not fit behind the last bytes.
fn finish(s: State, rest: &[u8], n: usize) -> State
    requires { length rest.now ≡ n % 64 }
    ensures { result ≡ blocks_of (length (rest.now ++ padding n) / 64) s (rest.now ++ padding n) }
{
    if rest.len() < 56 {
        let mut t = [0u8; 64];
        fill_last(&mut t, rest, n);
        absorb(s, &t)
    } else {
        let mut t = [0u8; 128];
        fill_last(&mut t, rest, n);
        let (blocks, _) = t.as_chunks::<64>();
        let u = absorb(s, &blocks[0]);
        absorb(u, &blocks[1])
    }
}

// SHA-256 of a message of any length.
pub fn hash(m: &[u8]) -> [u8; 32]
    ensures { result ≡ sha256_of m.now }
{
    let (blocks, rest) = m.as_chunks::<64>();
    let mut s = start();
    for block in blocks {
        s = absorb(s, block);
    }
    bytes(finish(s, rest, m.len()))
}
