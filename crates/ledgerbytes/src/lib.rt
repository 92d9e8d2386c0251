// A ledger as bytes: what it keeps beside its table and its roll, in a buffer of 988 bytes, for
// callers that have nothing but memory to keep it in. Every 988 bytes are some ledger.
// Whether it is damaged, and what may be done with it, is left to `ledger`.
#![tactic(auto)]

ghost use Rattle.std.specs.Prelude.{◌≡◌};
ghost use Rattle.ledgerbytes.specs.LedgerBytes.{ledger_of, counts_of, head_of, is_whole, buffer_after_write};

use ledger::Ledger;
use units::Amount;

// How many bytes a ledger has.
pub const LEDGER_LENGTH: usize = 988;

// A ledger without its record's nodes: all that is asked about before a case is entered or a block closed, so
// that a refusal reads 28 of the 988 bytes.
#[derive(Clone, Copy)]
pub struct Counts {
    pub nullifiers: usize,
    pub anchors: usize,
    pub leaves: u32,
    pub pool: Amount,
}

// The part of a ledger that refusals depend on.
impl From<Ledger> for Counts {
    ghost from_gives = { λ ledger counts. counts ≡ counts_of ledger };

    fn from(ledger: Ledger) -> Counts {
        Counts {
            nullifiers: ledger.nullifiers,
            anchors: ledger.anchors,
            leaves: ledger.tree.leaves,
            pool: ledger.pool,
        }
    }
}

// The counts of the ledger that the bytes hold; its nodes are not read.
pub fn read_counts(bytes: &[u8]) -> Counts
    ensures { result ≡ counts_of (ledger_of bytes.now) }
{
    let head: [u8; 28] = octets::part(bytes, 0);
    Counts {
        nullifiers: octets::le64(&head, 0) as usize,
        anchors: octets::le64(&head, 8) as usize,
        leaves: octets::le32(&head, 24),
        pool: Amount::of(octets::le64(&head, 16)),
    }
}

// The ledger that the bytes hold, damaged or not. Missing bytes read as zeros.
pub fn read(bytes: &[u8]) -> Ledger
    ensures { result ≡ ledger_of bytes.now }
{
    let tree = tree::read_record(bytes, 24);
    let counts = read_counts(bytes);
    Ledger {
        nullifiers: counts.nullifiers,
        anchors: counts.anchors,
        tree,
        pool: counts.pool,
    }
}

// What stands before the record: the counts and the pool.
fn head(ledger: Ledger) -> [u8; 24]
    ensures { result ≡ head_of ledger }
{
    let numbers = [
        octets::le_bytes64(ledger.nullifiers as u64),
        octets::le_bytes64(ledger.anchors as u64),
        octets::le_bytes64(ledger.pool.zatoshi()),
    ];
    octets::part(numbers.as_flattened(), 0)
}

// Writes a ledger where the buffer is as long as one, and answers whether it is.
pub fn write(bytes: &mut [u8], ledger: Ledger) -> bool
    ensures value { result ≡ is_whole bytes.old }
    ensures bytes_after { bytes.new ≡ buffer_after_write ledger bytes.old }
{
    if bytes.len() != LEDGER_LENGTH {
        return false;
    }
    octets::copy_in(bytes, 0, &head(ledger));
    tree::write_record(bytes, 24, ledger.tree);
    true
}
