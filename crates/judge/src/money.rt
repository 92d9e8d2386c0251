// The pool's arithmetic, exact for any three amounts: what a case puts in and what it takes out are set
// against each other first, so that no sum is ever too large for its type. Which case may move the pool is
// left to the callers.
ghost use Rattle.std.specs.Prelude.{◌≡◌, false};
ghost use Rattle.ledger.specs.Ledgers.{outside, pool_after};

use units::{ALL_MONEY, Amount};

// Whether a pool, with what is put in and less what is taken out, would be below zero or above all money.
pub fn is_outside(pool: Amount, old: Amount, new: Amount) -> bool
    ensures { result ≡ outside pool.0 old.0 new.0 }
{
    let p = pool.zatoshi();
    let put = old.zatoshi();
    let taken = new.zatoshi();
    if put < taken {
        let fall = taken - put;
        return p < fall || ALL_MONEY < p - fall;
    }
    let rise = put - taken;
    ALL_MONEY < p || ALL_MONEY - p < rise
}

// The pool after it. For `enter` of this crate alone, which knows that it stays in its bounds.
pub fn moved(pool: Amount, old: Amount, new: Amount) -> Amount
    requires { outside pool.0 old.0 new.0 ≡ false }
    ensures { result.0 ≡ pool_after pool.0 old.0 new.0 }
{
    let p = pool.zatoshi();
    let put = old.zatoshi();
    let taken = new.zatoshi();
    if put < taken {
        Amount::of(p - (taken - put))
    } else {
        Amount::of(p + (put - taken))
    }
}
