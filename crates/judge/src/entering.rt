// Entering an accepted case: two rows of the table, two leaves of the tree, and the pool.
// Whether a case is accepted is left to the caller.
ghost use Rattle.std.specs.Prelude.{◌≡◌};
ghost use Rattle.casefile.specs.Fields.{vpub_old_of, vpub_new_of, nullifier_of, commitment_of};
ghost use Rattle.ledger.specs.Rows.{table_with_two};
ghost use Rattle.ledger.specs.Ledgers.{entered_of, Ready};

use crate::money::moved;
use crate::table::enter_two;
use ledger::Ledger;
use units::Which;

// Enters what an accepted case brings: the table's bytes change in place, the rest comes back. For this
// crate alone, which has asked right before, so what it requires is not looked for a second time.
pub fn enter(case: &[u8], table: &mut [u8], ledger: Ledger) -> Ledger
    requires { Ready table.old ledger (nullifier_of 1 case.now) (nullifier_of 2 case.now) (vpub_old_of case.now) (vpub_new_of case.now) }
    ensures value { result ≡ entered_of ledger (commitment_of 1 case.now) (commitment_of 2 case.now) (vpub_old_of case.now) (vpub_new_of case.now) }
    ensures table_after { table.new ≡ table_with_two ledger.nullifiers table.old (nullifier_of 1 case.now) (nullifier_of 2 case.now) }
{
    let one = casefile::nullifier(case, Which::First);
    let two = casefile::nullifier(case, Which::Second);
    let commitment1 = casefile::commitment(case, Which::First);
    let commitment2 = casefile::commitment(case, Which::Second);
    let n = ledger.nullifiers;
    let a = ledger.anchors;
    enter_two(table, n, &one, &two);
    let record = ledger.tree;
    let grown = record.with_leaf(commitment1).with_leaf(commitment2);
    let old = casefile::vpub_old(case);
    let new = casefile::vpub_new(case);
    let pool = moved(ledger.pool, old, new);
    Ledger {
        nullifiers: n + 2,
        anchors: a,
        tree: grown,
        pool: pool,
    }
}
