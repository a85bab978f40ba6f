//! What a lock promises, the rule of its table, and its steps.

ghost use Rattle.kept_lock.specs.Lock.{IsKept, sat, tried, given};
ghost use Rattle.kept_lock.specs.Steps.{MakingKeeps, SittingKeeps, TakingKeeps, AskingKeeps, GivingKeeps};

use atomic_table::{Play, TableRule};

/// What a value under a lock is to be, by the lock's key.
pub trait Kept<K> {
    /// The promise.
    ghost keeps: { K → Self → Type 0 };
}

/// The rule: the word is 0 exactly where the value is at home, and a value at home keeps the promise.
pub(crate) struct LockRule;

impl<T: Kept<K>, K> TableRule<Option<T>, K, K> for LockRule {
    ghost holds = { IsKept T.keeps };

    ghost first = { λ key. key };
}

/// A new seat.
pub(crate) struct Sit;

impl<T, K> Play<Option<T>, K> for Sit {
    ghost then = { sat };
}

/// A try to take the lock.
pub(crate) struct Try;

impl<T: Kept<K>, K> Play<Option<T>, K> for Try {
    ghost then = { tried T.keeps };
}

/// The lock is given back.
pub(crate) struct Give;

impl<T, K> Play<Option<T>, K> for Give {
    ghost then = { given };
}

/// Each kind of step that a lock makes on its table keeps the rule, from every state that meets it.
pub fn each_step_keeps_the_rule<T: Kept<K>, K>()
    ensures making { MakingKeeps T.keeps }
    ensures sitting { SittingKeeps T.keeps }
    ensures taking { TakingKeeps T.keeps }
    ensures asking { AskingKeeps T.keeps }
    ensures giving { GivingKeeps T.keeps }
{}
