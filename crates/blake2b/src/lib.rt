// BLAKE2b with no key (RFC 7693): the digest of a message of any length, under a personalization of
// 16 bytes. The work vector v is changed in place from function to function, since the compiler then
// keeps it in registers. What is hashed, and under which name, is left to the crates above.
#![tactic(auto)]

ghost use Rattle.std.specs.Prelude.{◌≡◌, ◌+◌, ◌-◌, ◌*◌, ◌%◌, ◌^◌, ◌<◌, ◌≤◌, ◌++◌, length};
ghost use Rattle.octets.specs.Parts.{zeros, listed, field};
ghost use Rattle.blake2b.specs.Compression.{plus as plus_of, turn as turn_of, half as half_of, G, picked, step as step_of, columns as columns_of, diagonals as diagonals_of, round as round_of, rounds as rounds_of, word_at, bytes_of, flag as flag_of, start as start_of, feed as feed_of, F};
ghost use Rattle.blake2b.specs.Answer.{digest_of};
ghost use Rattle.blake2b.specs.Hashing.{initial as initial_of, last_block, absorbed, blake2b_of};

// The initialization vector.
const IV: [u64; 8] = [
    0x6a09e667f3bcc908,
    0xbb67ae8584caa73b,
    0x3c6ef372fe94f82b,
    0xa54ff53a5f1d36f1,
    0x510e527fade682d1,
    0x9b05688c2b3e6c1f,
    0x1f83d9abfb41bd6b,
    0x5be0cd19137e2179,
];

// The order in which each round takes the block's words. Rounds 10 and 11 repeat the first two rows,
// and these are written out again: a round's number modulo 10 would cost a test in each round.
const SIGMA: [[u8; 16]; 12] = [
    [0, 1, 2, 3, 4, 5, 6, 7, 8, 9, 10, 11, 12, 13, 14, 15],
    [14, 10, 4, 8, 9, 15, 13, 6, 1, 12, 0, 2, 11, 7, 5, 3],
    [11, 8, 12, 0, 5, 2, 15, 13, 10, 14, 3, 6, 7, 1, 9, 4],
    [7, 9, 3, 1, 13, 12, 11, 14, 2, 6, 5, 10, 4, 0, 15, 8],
    [9, 0, 5, 7, 2, 4, 10, 15, 14, 1, 11, 12, 6, 8, 3, 13],
    [2, 12, 6, 10, 0, 11, 8, 3, 4, 13, 7, 5, 15, 14, 1, 9],
    [12, 5, 1, 15, 14, 13, 4, 10, 0, 7, 6, 3, 9, 2, 8, 11],
    [13, 11, 7, 14, 12, 1, 3, 9, 5, 0, 15, 4, 8, 6, 2, 10],
    [6, 15, 14, 9, 11, 3, 0, 8, 12, 2, 13, 7, 1, 4, 10, 5],
    [10, 2, 8, 4, 7, 6, 1, 5, 15, 11, 9, 14, 3, 12, 13, 0],
    [0, 1, 2, 3, 4, 5, 6, 7, 8, 9, 10, 11, 12, 13, 14, 15],
    [14, 10, 4, 8, 9, 15, 13, 6, 1, 12, 0, 2, 11, 7, 5, 3],
];

// v[i] := v[i] + v[j] + x
fn plus(v: &mut [u64; 16], i: usize, j: usize, x: u64)
    requires { (i < 16) × (j < 16) }
    ensures { v.new ≡ plus_of i j x v.old }
{
    v[i] = v[i].wrapping_add(v[j]).wrapping_add(x);
}

// v[i] := (v[i] ^ v[j]) >>> n
fn turn(v: &mut [u64; 16], i: usize, j: usize, n: u32)
    requires { (i < 16) × ((j < 16) × ((0 < n) × (n < 64))) }
    ensures { v.new ≡ turn_of i j n v.old }
{
    v[i] = (v[i] ^ v[j]).rotate_right(n);
}

// One half of G: a word x of the block goes in, and each of four words of v is changed once. The four places stay four
// arguments, as RFC 7693 writes G: a struct of them would only be built and taken apart.
fn half(v: &mut [u64; 16], a: usize, b: usize, c: usize, d: usize, x: u64, p: u32, q: u32)
    requires { (a < 16) × ((b < 16) × ((c < 16) × ((d < 16) × ((0 < p) × ((p < 64) × ((0 < q) × (q < 64))))))) }
    ensures { v.new ≡ half_of a b c d x p q v.old }
{
    plus(v, a, b, x);
    turn(v, d, a, p);
    plus(v, c, d, 0);
    turn(v, b, c, q);
}

// G, of two words x and y of the block.
fn g(v: &mut [u64; 16], a: usize, b: usize, c: usize, d: usize, x: u64, y: u64)
    requires { (a < 16) × ((b < 16) × ((c < 16) × (d < 16))) }
    ensures { v.new ≡ G a b c d x y v.old }
{
    half(v, a, b, c, d, x, 32, 24);
    half(v, a, b, c, d, y, 16, 63);
}

// The word that round i takes at its place j. The remainder changes no entry, since each is below 16: by it the
// compiler sees that the index lies in the block, and a digest takes 200 instructions fewer.
// The round stays a number here and in the four below: the definitions count rounds, and a row of SIGMA in its place
// would have to be tied to its number in each contract.
fn pick(m: &[u64; 16], i: usize, j: usize) -> u64
    requires { (i < 12) × (j < 16) }
    ensures { result ≡ picked m.now i j }
{
    m[SIGMA[i][j] as usize % 16]
}

// G with the two words that round i takes at its places j and j + 1.
fn step(
    v: &mut [u64; 16],
    m: &[u64; 16],
    i: usize,
    j: usize,
    a: usize,
    b: usize,
    c: usize,
    d: usize,
)
    requires { ((i < 12) × (j < 15)) × ((a < 16) × ((b < 16) × ((c < 16) × (d < 16)))) }
    ensures { v.new ≡ step_of m.now i j a b c d v.old }
{
    let x = pick(m, i, j);
    let y = pick(m, i, j + 1);
    g(v, a, b, c, d, x, y);
}

// The first half of round i: G on each column of v, seen as a square of four by four.
fn columns(v: &mut [u64; 16], m: &[u64; 16], i: usize)
    requires { i < 12 }
    ensures { v.new ≡ columns_of m.now i v.old }
{
    step(v, m, i, 0, 0, 4, 8, 12);
    step(v, m, i, 2, 1, 5, 9, 13);
    step(v, m, i, 4, 2, 6, 10, 14);
    step(v, m, i, 6, 3, 7, 11, 15);
}

// The second half of round i: G on each diagonal.
fn diagonals(v: &mut [u64; 16], m: &[u64; 16], i: usize)
    requires { i < 12 }
    ensures { v.new ≡ diagonals_of m.now i v.old }
{
    step(v, m, i, 8, 0, 5, 10, 15);
    step(v, m, i, 10, 1, 6, 11, 12);
    step(v, m, i, 12, 2, 7, 8, 13);
    step(v, m, i, 14, 3, 4, 9, 14);
}

// Round i.
fn round(v: &mut [u64; 16], m: &[u64; 16], i: usize)
    requires { i < 12 }
    ensures { v.new ≡ round_of m.now i v.old }
{
    columns(v, m, i);
    diagonals(v, m, i);
}

// All twelve rounds.
fn rounds(v: &mut [u64; 16], m: &[u64; 16])
    ensures { v.new ≡ rounds_of 12 m.now v.old }
{
    for i in 0..12 {
        round(v, m, i);
    }
}

// The sixteen words of a block.
fn words(b: &[u8; 128]) -> [u64; 16]
    ensures { result ≡ listed (word_at b.now) 16 }
{
    let mut w = [0; 16];
    for (i, bytes) in b.as_chunks::<8>().0.iter().enumerate() {
        w[i] = u64::from_le_bytes(*bytes);
    }
    w
}

// What is xored into v to mark the last block.
fn flag(last: bool) -> u64
    ensures { result ≡ flag_of last }
{
    if last { 0xffffffffffffffff } else { 0 }
}

// The work vector at the start of a block, with which t bytes are taken in. The high word of their
// count is always zero, since a slice is shorter than 2^64 bytes.
fn start(h: &[u64; 8], t: u64, last: bool) -> [u64; 16]
    ensures { result ≡ start_of h.now t last }
{
    [
        h[0],
        h[1],
        h[2],
        h[3],
        h[4],
        h[5],
        h[6],
        h[7],
        IV[0],
        IV[1],
        IV[2],
        IV[3],
        IV[4] ^ t,
        IV[5],
        IV[6] ^ flag(last),
        IV[7],
    ]
}

// The state with both halves of v xored into it.
fn feed(h: &[u64; 8], v: &[u64; 16]) -> [u64; 8]
    ensures { result ≡ feed_of h.now v.now }
{
    [
        h[0] ^ v[0] ^ v[8],
        h[1] ^ v[1] ^ v[9],
        h[2] ^ v[2] ^ v[10],
        h[3] ^ v[3] ^ v[11],
        h[4] ^ v[4] ^ v[12],
        h[5] ^ v[5] ^ v[13],
        h[6] ^ v[6] ^ v[14],
        h[7] ^ v[7] ^ v[15],
    ]
}

// The compression function F: the state h with a block b taken in.
fn compress(h: &[u64; 8], b: &[u8; 128], t: u64, last: bool) -> [u64; 8]
    ensures { result ≡ F h.now b.now t last }
{
    let m = words(b);
    let mut v = start(h, t, last);
    rounds(&mut v, &m);
    feed(h, &v)
}

// The state at the start of a message. Of the parameter block's eight words, the first has the
// digest's length, and fanout and depth, both 1; the last two are the personalization; the others
// are zero, so that the constants stand there as they are.
fn initial(personal: &[u8; 16], length: u64) -> [u64; 8]
    requires { length ≤ 64 }
    ensures { result ≡ initial_of length personal.now }
{
    [
        IV[0] ^ (length + 0x01010000),
        IV[1],
        IV[2],
        IV[3],
        IV[4],
        IV[5],
        IV[6] ^ octets::le64(personal, 0),
        IV[7] ^ octets::le64(personal, 8),
    ]
}

// The number of the last block of n bytes, counted from 0.
fn last_block(n: usize) -> usize
    ensures { result ≡ last_block n }
{
    if n == 0 { 0 } else { (n - 1) / 128 }
}

// The state h0 with a whole message taken in. Only the last block is copied, for its zeros.
fn absorb(h0: [u64; 8], m: &[u8]) -> [u64; 8]
    ensures { result ≡ absorbed h0 m.now }
{
    let n = m.len();
    let q = last_block(n);
    let (blocks, _) = m.as_chunks::<128>();
    let mut h = h0;
    for (i, block) in blocks[..q].iter().enumerate() {
        h = compress(&h, block, (128 * (i + 1)) as u64, false);
    }
    let b = octets::part(m, 128 * q);
    compress(&h, &b, n as u64, true)
}

// The first n bytes of the state, and zeros.
fn bytes<const N: usize>(h: &[u64; 8], n: usize) -> [u8; N]
    requires { (n ≤ 64) × (n ≤ N) }
    ensures { result ≡ field 0 n (bytes_of h.now) ++ zeros (N - n) }
{
    let words = [
        h[0].to_le_bytes(),
        h[1].to_le_bytes(),
        h[2].to_le_bytes(),
        h[3].to_le_bytes(),
        h[4].to_le_bytes(),
        h[5].to_le_bytes(),
        h[6].to_le_bytes(),
        h[7].to_le_bytes(),
    ];
    octets::part(&words.as_flattened()[..n], 0)
}

// The digest of 32 bytes. It has a call of its own, since nothing can be refused there.
pub fn hash32(m: &[u8], personal: &[u8; 16]) -> [u8; 32]
    ensures { result ≡ blake2b_of 32 personal.now m.now }
{
    let h = absorb(initial(personal, 32), m);
    bytes(&h, 32)
}

// The digest of any length from 1 to 64 bytes, with zeros behind it. Of another length there is none. An array and not
// a `Vec`: the product has no heap.
pub fn hash(m: &[u8], personal: &[u8; 16], length: usize) -> Option<[u8; 64]>
    ensures { result ≡ digest_of length personal.now m.now }
{
    if length == 0 || 64 < length {
        return None;
    }
    let h = absorb(initial(personal, length as u64), m);
    let digest = bytes(&h, length);
    Some(digest)
}
