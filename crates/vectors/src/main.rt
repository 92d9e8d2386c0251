// Runs the published vectors of the standards and of the Zcash network, and lengths at which padding
// turns over, and prints a line for each. The stored output was made by other implementations.
// The hashes and the tree are left to the crates that have them.
#![tactic(auto)]

ghost use Rattle.std.specs.Prelude.{◌+◌, ◌*◌, ◌≤◌, length};
ghost use Rattle.text.specs.Pen.{Holds};
ghost use Rattle.vectors.specs.Lines.{digest_line, refused_line};

use text::Page;
use tree::Tree;

// The line of a digest, on a page that has room for a name of 64 bytes and a digest of 64. Names are literals, so
// each call settles the bound by itself: a type for names would be made at each.
fn digest_page(name: &[u8], bytes: &[u8]) -> Page<256>
    requires { length name.now + 2 * length bytes.now ≤ 254 }
    ensures { Holds 256 (digest_line name.now bytes.now) result }
{
    let mut page = Page::new();
    page.put(name);
    page.put(b" ");
    page.put_hex(bytes);
    page.put(b"\n");
    page
}

fn refused_page(name: &[u8]) -> Page<256>
    requires { length name.now ≤ 64 }
    ensures { Holds 256 (refused_line name.now) result }
{
    let mut page = Page::new();
    page.put(name);
    page.put(b" refused\n");
    page
}

fn digest(rt: &(impl Print + Eprint), name: &[u8], bytes: &[u8])
    requires { length name.now + 2 * length bytes.now ≤ 254 }
{
    let page = digest_page(name, bytes);
    lines::print(rt, page.text());
}

fn refused(rt: &(impl Print + Eprint), name: &[u8])
    requires { length name.now ≤ 64 }
{
    let page = refused_page(name);
    lines::print(rt, page.text());
}

fn sha(rt: &(impl Print + Eprint), name: &[u8], message: &[u8])
    requires { length name.now ≤ 64 }
{
    let d = sha256::hash(message);
    digest(rt, name, &d);
}

fn blake(rt: &(impl Print + Eprint), name: &[u8], message: &[u8], size: usize)
    requires { length name.now ≤ 64 }
{
    match blake2b::hash(message, &[0u8; 16], size) {
        Some(bytes) => {
            let n = size.min(64);
            digest(rt, name, &bytes[..n]);
        }
        None => refused(rt, name),
    }
}

// FIPS 180-4's examples, and messages of as many a's as the name says.
fn sha_vectors(rt: &(impl Print + Eprint)) {
    sha(rt, b"sha256 empty", b"");
    sha(rt, b"sha256 abc", b"abc");
    sha(
        rt,
        b"sha256 448 bits",
        b"abcdbcdecdefdefgefghfghighijhijkijkljklmklmnlmnomnopnopq",
    );
    sha(
        rt,
        b"sha256 896 bits",
        b"abcdefghbcdefghicdefghijdefghijkefghijklfghijklmghijklmnhijklmnoijklmnopjklmnopqklmnopqrlmnopqrsmnopqrstnopqrstu",
    );
    let a = [97u8; 129];
    sha(rt, b"sha256 a 55", &a[0..55]);
    sha(rt, b"sha256 a 56", &a[0..56]);
    sha(rt, b"sha256 a 63", &a[0..63]);
    sha(rt, b"sha256 a 64", &a[0..64]);
    sha(rt, b"sha256 a 65", &a[0..65]);
    sha(rt, b"sha256 a 111", &a[0..111]);
    sha(rt, b"sha256 a 112", &a[0..112]);
    sha(rt, b"sha256 a 127", &a[0..127]);
    sha(rt, b"sha256 a 128", &a[0..128]);
    sha(rt, b"sha256 a 129", &a[0..129]);
}

fn million(rt: &(impl Print + Eprint)) {
    let a = [97u8; 1000000];
    sha(rt, b"sha256 a 1000000", &a);
}

// One block from the standard start value, with no padding.
fn compress_vectors(rt: &(impl Print + Eprint)) {
    let zeros = [0u8; 64];
    let d = sha256::compress(&zeros);
    digest(rt, b"compress zeros", &d);
    let mut abc = [0u8; 64];
    abc[0] = 97;
    abc[1] = 98;
    abc[2] = 99;
    abc[3] = 0x80;
    abc[63] = 24;
    let e = sha256::compress(&abc);
    digest(rt, b"compress abc", &e);
    let left = [0u8; 32];
    let f = sha256::compress_halves(&left, &left);
    digest(rt, b"compress halves zeros", &f);
}

// The 255 bytes 00, 01 and on to fe.
fn counted() -> [u8; 255] {
    let mut bytes = [0u8; 255];
    for (i, x) in bytes.iter_mut().enumerate() {
        *x = (i % 256) as u8;
    }
    bytes
}

// RFC 7693 and the BLAKE2 reference.
fn blake_published(rt: &(impl Print + Eprint)) {
    blake(rt, b"blake2b-64 abc", b"abc", 64);
    blake(rt, b"blake2b-64 empty", b"", 64);
    blake(rt, b"blake2b-32 empty", b"", 32);
    let bytes = counted();
    blake(rt, b"blake2b-64 00..fe", &bytes, 64);
}

// Around the block's 128 bytes, other digest lengths, and the two lengths that are refused.
fn blake_edges(rt: &(impl Print + Eprint)) {
    let a = [97u8; 257];
    blake(rt, b"blake2b-64 a 111", &a[0..111], 64);
    blake(rt, b"blake2b-64 a 112", &a[0..112], 64);
    blake(rt, b"blake2b-64 a 127", &a[0..127], 64);
    blake(rt, b"blake2b-64 a 128", &a[0..128], 64);
    blake(rt, b"blake2b-64 a 129", &a[0..129], 64);
    blake(rt, b"blake2b-20 a 256", &a[0..256], 20);
    blake(rt, b"blake2b-1 a 257", &a, 1);
    blake(rt, b"blake2b-0 abc", b"abc", 0);
    blake(rt, b"blake2b-65 abc", b"abc", 65);
}

// hSig: the public node's own test, and all zero bytes.
fn h_sig_vectors(rt: &(impl Print + Eprint)) {
    let d = sprout::h_sig(&[0x61u8; 32], &[0x62u8; 32], &[0x63u8; 32], &[0x64u8; 32]);
    digest(rt, b"hSig 61 62 63 64", &d);
    let zeros = [0u8; 32];
    let e = sprout::h_sig(&zeros, &zeros, &zeros, &zeros);
    digest(rt, b"hSig zeros", &e);
}

// The empty tree's root, which the network published, from the table of empty roots and from a fresh
// record; and the root after three leaves.
fn tree_vectors(rt: &(impl Print + Eprint)) {
    let from_table = nodes::empty_root(29);
    digest(rt, b"root empty", &from_table);
    let fresh = Tree::fresh();
    let from_record = fresh.root();
    digest(rt, b"root fresh", &from_record);
    let three = fresh
        .with_leaf([1u8; 32])
        .with_leaf([2u8; 32])
        .with_leaf([3u8; 32]);
    let d = three.root();
    digest(rt, b"root 01 02 03", &d);
}

// The parent of a node that has an empty subtree of its level to its right.
fn above(node: [u8; 32], level: usize) -> [u8; 32] {
    let right = nodes::empty_root(level);
    nodes::parent(&node, &right)
}

// Two roots of the public node's own tests, of trees of depth 4 whose left and right differ. It prints
// leaves in reverse; here the bytes are in order.
fn parent_vectors(rt: &(impl Print + Eprint)) {
    let one = [
        0x62, 0xfd, 0xad, 0x9b, 0xfb, 0xf1, 0x7c, 0x38, 0xea, 0x62, 0x6a, 0x9c, 0x9b, 0x8a, 0xf8,
        0xa7, 0x48, 0xe6, 0xb4, 0x36, 0x7c, 0x84, 0x94, 0xca, 0xf0, 0xca, 0x59, 0x29, 0x99, 0xe8,
        0xb6, 0xba,
    ];
    let two = [
        0x68, 0xeb, 0x35, 0xbc, 0x5e, 0x1d, 0xdb, 0x80, 0xa7, 0x61, 0x71, 0x8e, 0x63, 0xa1, 0xec,
        0xf4, 0xd4, 0x97, 0x7a, 0xe2, 0x2c, 0xc1, 0x9f, 0xa7, 0x32, 0xb8, 0x55, 0x15, 0xb2, 0xa4,
        0xc9, 0x43,
    ];
    let alone = above(above(above(above(one, 0), 1), 2), 3);
    digest(rt, b"root depth 4 one leaf", &alone);
    let both = nodes::parent(&one, &two);
    let beside = above(above(above(both, 1), 2), 3);
    digest(rt, b"root depth 4 two leaves", &beside);
}

// A spending key of the public node's own tests, and the address that its payment address begins with.
fn address_vector(rt: &(impl Print + Eprint)) {
    let key = [
        0x0b, 0xbb, 0xa5, 0x71, 0x2b, 0xf4, 0x3c, 0x9d, 0xf6, 0xa7, 0x2f, 0x03, 0x62, 0x66, 0xaf,
        0xfb, 0xca, 0x9c, 0xa1, 0xc2, 0x49, 0x9a, 0x93, 0x1d, 0x81, 0x7d, 0xf1, 0xdd, 0x5e, 0x4a,
        0x08, 0xd1,
    ];
    let address = sprout::address(&key);
    digest(rt, b"address of a key", &address);
}

fn main(rt: HostRuntime) {
    sha_vectors(&rt);
    million(&rt);
    compress_vectors(&rt);
    blake_published(&rt);
    blake_edges(&rt);
    h_sig_vectors(&rt);
    tree_vectors(&rt);
    parent_vectors(&rt);
    address_vector(&rt);
}
