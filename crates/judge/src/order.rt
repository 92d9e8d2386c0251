// Rows of 32 bytes in byte order. They are compared as four numbers of eight bytes, the first byte the
// highest, since the order of such numbers is that of their bytes.
// Where the rows of a table stand is left to the modules beside this one.
ghost use Rattle.std.specs.Prelude.{ℕ, ◌≡◌, ◌<◌, length, get_or, take};
ghost use Rattle.octets.specs.Numbers.{big};
ghost use Rattle.ledger.specs.Rows.{byte_order};

use std::cmp::Ordering;

// The number that a row's first eight bytes write. The promise also says that these are bytes of a row, since the
// caller does not learn that from the type of what it passes.
pub fn first_word(row: &[u8; 32]) -> u64
    ensures number { result ≡ big (take 8 row.now) }
    ensures bytes { (i : ℕ) → get_or row.now i 0 < 256 }
    ensures row_len { length row.now ≡ 32 }
{
    u64::from_be_bytes(row.as_chunks::<8>().0[0])
}

// How one row stands to another: the first words that differ decide. The library's `cmp` of two arrays goes byte
// by byte, by which a search takes a third more instructions; as many more are calls of this, so it is compiled
// into its callers.
#[inline(always)]
pub fn compare(a: &[u8; 32], b: &[u8; 32]) -> Ordering
    ensures { result ≡ byte_order a.now b.now }
{
    let (xs, _) = a.as_chunks::<8>();
    let (ys, _) = b.as_chunks::<8>();
    for (p, q) in xs.iter().zip(ys) {
        let x = u64::from_be_bytes(*p);
        let y = u64::from_be_bytes(*q);
        if x != y {
            return x.cmp(&y);
        }
    }
    Ordering::Equal
}
