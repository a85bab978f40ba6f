//! A pool whose items are found by their keys.

ghost use Rattle.std.specs.Prelude.{◌≡◌, ◌≢◌, ℕ, ◌+◌, ◌<◌, ◌≤◌, ◌↔◌, replicate, Some, None, IsErr, IsTrue, IfOk, OnErr, IsSome, IfSome, MatchOption, slice_set};
ghost use Rattle.record_pool.specs.Keyed.{held_at, held_count, IsAbsent, Holds, AreKeyed};

use order_pool::{Full, PLACES, Pool};
use std::alloc::Global;
use std::marker::Model;
use zone_graph::NoMemory;

/// An item that is found by its key.
pub trait Keyed: Copy {
    /// What it is found by.
    type Key: Copy;

    ghost key_of: { Self → Self.Key };

    ghost bucket_of: { Self.Key → ℕ };

    /// Its key.
    fn key(&self) -> Self::Key
        ensures { result ≡ key_of self.now };

    /// Whether it has this key.
    fn is_of(&self, key: Self::Key) -> bool
        ensures { IsTrue result ↔ (key_of self.now ≡ key) };

    /// The number, below 4096, of the chain in which items of this key are looked for.
    fn bucket(key: Self::Key) -> u32
        ensures value { result ≡ bucket_of key }
        ensures low { result < 4096 };
}

/// A pool of 4096 places for items, no two of one key, that finds the place of a key. Contracts
/// see for each place the item that it holds, if it holds one.
///
/// The items of keys with one bucket are linked in a chain, and only that chain is looked at for a
/// key. All memory is taken by [`KeyedPool::new`] and [`KeyedPool::copy`].
#[derive(Drop)]
pub struct KeyedPool<T: Keyed> {
    pool: Pool<T>,
    count: u32,
}

impl<T: Keyed> Model for KeyedPool<T> {
    ghost use Rattle.std.specs.Prelude.{List, Option};
    ghost use Rattle.record_pool.specs.KeyedInside.{IsChained};

    ghost Value = { List (Option T) };

    ghost view = { λ a. a.pool.places };

    ghost invariant = { λ a. IsChained T.key_of T.bucket_of a.pool a.count };
}

impl<T: Keyed> KeyedPool<T> {
    /// A pool that holds nothing.
    ///
    /// # Errors
    ///
    /// [`NoMemory`] where memory runs out.
    pub fn new(alloc: Global) -> Result<KeyedPool<T>, NoMemory>
        ensures empty { IfOk result (λ pool. pool ≡ replicate 4096 None) }
        ensures keyed { IfOk result (λ pool. AreKeyed T.key_of pool) }
    {
        let Ok(pool) = Pool::with_lines(alloc, PLACES) else {
            return Err(NoMemory);
        };
        Ok(KeyedPool { pool, count: 0 })
    }

    /// A pool with the same items at the same places.
    ///
    /// # Errors
    ///
    /// [`NoMemory`] where memory runs out.
    pub fn copy(&self) -> Result<KeyedPool<T>, NoMemory>
        ensures same { IfOk result (λ pool. pool ≡ self.now) }
    {
        let Ok(pool) = self.pool.copy() else {
            return Err(NoMemory);
        };
        Ok(KeyedPool {
            pool,
            count: self.count,
        })
    }

    /// How many items there are.
    pub fn len(&self) -> u32
        ensures count { result ≡ held_count self.now }
        ensures keyed { AreKeyed T.key_of self.now }
    {
        self.count
    }

    /// The place that holds the item of a key, or `None` where no place does.
    pub fn find(&self, key: T::Key) -> Option<u32>
        ensures { MatchOption result (IsAbsent T.key_of self.now key) (Holds T.key_of self.now key) }
    {
        let mut at = self.pool.first(T::bucket(key));
        while let Some(place) = at {
            if self.pool.get(place).is_of(key) {
                return Some(place);
            }
            at = self.pool.next(place);
        }
        None
    }

    /// The item of a place that holds one.
    pub fn get(&self, place: u32) -> &T
        requires { IsSome (held_at self.now place) }
        ensures { held_at self.now place ≡ Some result.now }
    {
        self.pool.get(place)
    }

    /// Puts an item, whose key no item has, into a free place, and answers the place. Which of the
    /// free places it is stays open.
    ///
    /// # Errors
    ///
    /// [`Full`] exactly where no place is free, and then nothing changes.
    pub fn put(&mut self, item: T) -> Result<u32, Full>
        requires { IsAbsent T.key_of self.old (T.key_of item) }
        ensures full { IsErr result ↔ (held_count self.old ≡ 4096) }
        ensures unchanged { OnErr result (self.new ≡ self.old) }
        ensures within { IfOk result (λ place. place < 4096) }
        ensures was_free { IfOk result (λ place. held_at self.old place ≡ None) }
        ensures put { IfOk result (λ place. self.new ≡ slice_set self.old place (Some item)) }
        ensures keyed { AreKeyed T.key_of self.new }
    {
        let bucket = T::bucket(item.key());
        let first = self.pool.first(bucket);
        let place = self.pool.insert(bucket, first, item)?;
        self.count += 1;
        Ok(place)
    }

    /// Takes the item from a place that holds one.
    pub fn take(&mut self, place: u32) -> T
        requires { IsSome (held_at self.old place) }
        ensures item { held_at self.old place ≡ Some result }
        ensures taken { self.new ≡ slice_set self.old place None }
        ensures keyed { AreKeyed T.key_of self.new }
    {
        self.count -= 1;
        self.pool.take(place)
    }

    /// Puts another item of the same key in the stead of one.
    pub fn set(&mut self, place: u32, item: T)
        requires { Holds T.key_of self.old (T.key_of item) place }
        ensures set { self.new ≡ slice_set self.old place (Some item) }
        ensures keyed { AreKeyed T.key_of self.new }
    {
        *self.pool.get_mut(place) = item;
    }
}
