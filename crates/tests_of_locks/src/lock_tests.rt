//! Two threads that take turns at one value.

ghost use Rattle.std.specs.Prelude.{◌≡◌};

use kept_lock::{Kept, KeptLock};
use std::sync::Wait;
use std::test::Fail;
use std::thread::join;

// What is added at each turn, and what has been added.
#[derive(Drop)]
struct Tally {
    step: u64,
    total: u64,
}

// The key is the step.
impl Kept<u64> for Tally {
    ghost keeps = { λ step tally. tally.step ≡ step };
}

// Takes some turns.
fn add<R: Wait>(rt: &R, lock: &KeptLock<Tally, u64>, turns: u32) {
    for _ in 0..turns {
        let (Tally { step, total }, duty) = lock.take(rt);
        let total = total.wrapping_add(step);
        lock.give(Tally { step, total }, duty);
    }
}

#[test]
fn no_turn_of_two_threads_is_lost(rt: HostRuntime) -> Result<(), Fail> {
    let lock = KeptLock::new(rt.alloc(), &3, Tally { step: 3, total: 5 })?;
    join(&rt, || add(&rt, &lock, 5000), || add(&rt, &lock, 4000));
    let tally = lock.into_inner(&rt);
    assert_eq!(rt; (tally.step, tally.total), (3, 27005));
    Ok(())
}
