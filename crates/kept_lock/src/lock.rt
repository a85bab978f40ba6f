//! The lock.

ghost use Rattle.std.specs.Prelude.{◌≡◌, ◌∷◌, [], IfOk, IfSome, IfNone, None};

use crate::memory::NoMemory;
use crate::rule::{Give, Kept, LockRule, Sit, Try};
use atomic_table::{Seat, Table};
use std::alloc::Global;
use std::hint::spin_loop;
use std::marker::Model;
use std::sync::Wait;

// How often a lock that is taken is looked at before who waits for it sleeps.
const LOOKS: u32 = 200;

/// A lock for one value. Contracts see which lock it is, and its `key`: whenever the lock is taken,
/// the value is what [`Kept`] says for that key.
#[derive(Drop)]
pub struct KeptLock<T: Kept<K>, K> {
    table: Table<Option<T>, K, K, LockRule, Global>,
}

impl<T: Kept<K>, K> Model for KeptLock<T, K> {
    ghost use Rattle.std.specs.Prelude.{◌≡◌};
    ghost use Rattle.kept_lock.specs.Lock.{Keyed};

    ghost Value = { Keyed K };

    ghost view = { λ lock. record { table = lock.table.shared.table_id; key = lock.table.shared.key } };

    ghost invariant = { λ lock. (lock.table.shared.table_id.words ≡ 1) };
}

/// The duty to give a lock back, which whoever takes it has. It can't be dropped.
pub struct Duty<T, K> {
    seat: Seat<Option<T>, K>,
}

impl<T, K> Model for Duty<T, K> {
    ghost use Rattle.std.specs.Prelude.{◌≡◌, ◌∷◌, [], None};
    ghost use Rattle.kept_lock.specs.Lock.{Keyed};

    ghost Value = { Keyed K };

    ghost view = { λ duty. record { table = duty.seat.table_id; key = duty.seat.me.0 } };

    ghost invariant = { λ duty. duty.seat.me.1 ≡ (0, None) ∷ [] };
}

impl<T: Kept<K>, K> KeptLock<T, K> {
    /// A free lock of a key, for a value that keeps the promise.
    ///
    /// # Errors
    ///
    /// [`NoMemory`] where memory runs out; the value is dropped then.
    pub fn new(alloc: Global, key: &K, value: T) -> Result<KeptLock<T, K>, NoMemory>
    where
        T: Drop,
        requires { T.keeps key.now value }
        ensures { IfOk result (λ lock. lock.key ≡ key.now) }
    {
        let mut slots = Vec::new(alloc);
        slots.push(Some(value))?;
        match Table::new(alloc, &[0], slots, key) {
            Ok((table, _seat)) => Ok(KeptLock { table }),
            Err(_) => Err(NoMemory),
        }
    }

    /// Takes the lock: waits until it is free, and hands out the value with the duty to give one
    /// back. It looks for a while whether the lock is free, and then sleeps until it may be.
    pub fn take<R: Wait>(&self, rt: &R) -> (T, Duty<T, K>)
        ensures value { T.keeps self.now.key result.0 }
        ensures duty { result.1 ≡ self.now }
    {
        let shared = &self.table.shared;
        let mut seat = shared.load_new_seat::<Sit>(0).1;
        for _ in 0..LOOKS {
            if shared.peek(0) == 0
                && let Some(value) = self.try_take(&mut seat)
            {
                return (value, Duty { seat });
            }
            spin_loop();
        }
        for _ in rt.forever() {
            if let Some(value) = self.take_or_ask(&mut seat) {
                return (value, Duty { seat });
            }
            shared.park(rt, 0, 2);
        }
        unreachable!()
    }

    // Takes the lock where it is free.
    fn try_take(&self, seat: &mut Seat<Option<T>, K>) -> Option<T>
        requires table { seat.old.table_id ≡ self.now.table }
        requires seat { seat.old.me ≡ (self.now.key, []) }
        ensures table { seat.new.table_id ≡ self.now.table }
        ensures some { IfSome result (λ value. (seat.new.me ≡ (self.now.key, (0, None) ∷ [])) × T.keeps self.now.key value) }
        ensures none { IfNone result (seat.new.me ≡ (self.now.key, [])) }
    {
        let shared = &self.table.shared;
        if shared.compare_exchange::<Try>(seat, 0, 0, 1) == 0 {
            shared.exchange(seat, 0, None)
        } else {
            None
        }
    }

    // Takes the lock where it is free, and else asks who has it to wake who sleeps for it.
    fn take_or_ask(&self, seat: &mut Seat<Option<T>, K>) -> Option<T>
        requires table { seat.old.table_id ≡ self.now.table }
        requires seat { seat.old.me ≡ (self.now.key, []) }
        ensures table { seat.new.table_id ≡ self.now.table }
        ensures some { IfSome result (λ value. (seat.new.me ≡ (self.now.key, (0, None) ∷ [])) × T.keeps self.now.key value) }
        ensures none { IfNone result (seat.new.me ≡ (self.now.key, [])) }
    {
        let shared = &self.table.shared;
        if shared.swap::<Try>(seat, 0, 2) == 0 {
            shared.exchange(seat, 0, None)
        } else {
            None
        }
    }

    /// Gives the lock back, with a value that keeps the promise, and wakes one who sleeps for it. It waits for nobody.
    pub fn give(&self, value: T, duty: Duty<T, K>)
        requires value { T.keeps self.now.key value }
        requires duty { duty ≡ self.now }
    {
        let Duty { mut seat } = duty;
        let shared = &self.table.shared;
        match shared.exchange(&mut seat, 0, Some(value)) {
            None => {}
            Some(_) => unreachable!(),
        }
        if shared.swap::<Give>(&mut seat, 0, 0) == 2 {
            shared.wake_one(0);
        }
    }

    /// Ends the lock: waits until it is free, and hands out the value. Who ends it owns it, so nobody
    /// takes it any more.
    pub fn into_inner<R: Wait>(self, rt: &R) -> T
    where
        T: Drop,
        ensures { T.keeps self.key result }
    {
        let (value, duty) = self.take(rt);
        let Duty { seat: _ } = duty;
        value
    }
}
