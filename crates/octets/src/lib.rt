// Bytes and numbers: reading and writing them in either byte order, parts of any length, equality,
// copying in. Every reader is total: where the slice has ended it reads zeros.
// What the bytes mean is left to the crates above.
#![tactic(auto)]

ghost use Rattle.std.specs.Prelude.{◌≡◌, [], ◌∷◌, ◌+◌, ◌-◌, ◌<◌, length, get_or};
ghost use Rattle.octets.specs.Parts.{field, fits_in, pasted, same as same_of};
ghost use Rattle.octets.specs.Numbers.{little, big, little_bytes, big_bytes};

// Eight bytes as a number, the first the highest. Eight arguments and not an array: docs/PROMISES.md has the call so.
pub fn be64_of(b0: u8, b1: u8, b2: u8, b3: u8, b4: u8, b5: u8, b6: u8, b7: u8) -> u64
    ensures { result ≡ big (b0 ∷ b1 ∷ b2 ∷ b3 ∷ b4 ∷ b5 ∷ b6 ∷ b7 ∷ []) }
{
    u64::from_be_bytes([b0, b1, b2, b3, b4, b5, b6, b7])
}

// A number as bytes. Three readers and three writers that differ in a type, since std has its method for each
// type of number and no trait over them, and num_traits, which has one, would be a library more to read: what they
// add is a contract in this crate's own words.
pub fn le_bytes16(x: u16) -> [u8; 2]
    ensures { result ≡ little_bytes 2 x }
{
    x.to_le_bytes()
}

pub fn le_bytes32(x: u32) -> [u8; 4]
    ensures { result ≡ little_bytes 4 x }
{
    x.to_le_bytes()
}

pub fn le_bytes64(x: u64) -> [u8; 8]
    ensures { result ≡ little_bytes 8 x }
{
    x.to_le_bytes()
}

pub fn be_bytes64(x: u64) -> [u8; 8]
    ensures { result ≡ big_bytes 8 x }
{
    x.to_be_bytes()
}

// The byte at index at + i, a sum that need not fit a usize: zero where s has ended.
pub fn byte_from(s: &[u8], at: usize, i: usize) -> u8
    ensures { result ≡ get_or s.now (at + i) 0 }
{
    let rest = s.get(at..).unwrap_or(&[]);
    rest.get(i).copied().unwrap_or(0)
}

// N bytes, some of which lie past the end of s. Out of line, so that the way that is common stays short.
#[cold]
fn padded<const N: usize>(s: &[u8], at: usize) -> [u8; N]
    ensures { result ≡ field at N s.now }
{
    let mut bytes = [0; N];
    fill(&mut bytes, s, at);
    bytes
}

// The N bytes at index at: zeros where s has ended.
pub fn part<const N: usize>(s: &[u8], at: usize) -> [u8; N]
    ensures { result ≡ field at N s.now }
{
    if let Some(rest) = s.get(at..) {
        if let Some(whole) = rest.first_chunk() {
            return *whole;
        }
    }
    padded(s, at)
}

// The number at index at.
pub fn le16(s: &[u8], at: usize) -> u16
    ensures { result ≡ little (field at 2 s.now) }
{
    u16::from_le_bytes(part(s, at))
}

pub fn le32(s: &[u8], at: usize) -> u32
    ensures { result ≡ little (field at 4 s.now) }
{
    u32::from_le_bytes(part(s, at))
}

pub fn le64(s: &[u8], at: usize) -> u64
    ensures { result ≡ little (field at 8 s.now) }
{
    u64::from_le_bytes(part(s, at))
}

// Whether two slices have the same length and the same bytes.
pub fn same(a: &[u8], b: &[u8]) -> bool
    ensures { result ≡ same_of a.now b.now }
{
    a == b
}

// Copies src into dst from index at on, and answers whether it fits. Where it does not, dst stays as it was.
pub fn copy_in(dst: &mut [u8], at: usize, src: &[u8]) -> bool
    ensures value { result ≡ fits_in at src.now dst.old }
    ensures dst_after { dst.new ≡ pasted at src.now dst.old }
{
    let n = src.len();
    if dst.len() < n || dst.len() - n < at {
        return false;
    }
    dst[at..at + n].copy_from_slice(src);
    true
}

// Fills dst with the bytes of src from index at on, and with zeros where src has ended.
pub fn fill(dst: &mut [u8], src: &[u8], at: usize)
    ensures { dst.new ≡ field at (length dst.old) src.now }
{
    let rest = src.get(at..).unwrap_or(&[]);
    let n = rest.len().min(dst.len());
    dst[..n].copy_from_slice(&rest[..n]);
    dst[n..].fill(0);
}
