//! The pool: items in places, and the places in lines.

ghost use Rattle.std.specs.Prelude.{◌≡◌, ℕ, ◌+◌, ◌<◌, ◌≤◌, ◌↔◌, [], ◌∷◌, length, replicate, Some, None, IsErr, IfOk, OnErr, slice_set};
ghost use Rattle.std.specs.Option.{ForSome};
ghost use Rattle.std.specs.Borrow.{sem};
ghost use Rattle.order_pool.specs.Lines.{line_at, first_in, last_in, StandsIn, IsRemoved, IsInserted, IsNext, IsPrevious};
ghost use Rattle.order_pool.specs.Pool.{item_at, IsLive, live_count, IsSound};

use crate::faults::{Full, NoMemory};
use crate::region::Region;
use crate::rings::{FREE, PLACES, Rings};
use crate::slots::Slot;
use std::alloc::Global;
use std::marker::Model;

/// The greatest number of lines that a pool can have.
pub const MOST_LINES: u32 = 65536;

/// A fixed region of 4096 places for items, and lines of places linked through it.
///
/// A place holds an item from [`Pool::put`] or [`Pool::insert`] to [`Pool::take`], and is live
/// then. Each live place stands in one line. Lines are numbered from 0, and each is in the order
/// that its insertions made. No call but [`Pool::new`], [`Pool::with_lines`] and [`Pool::copy`]
/// takes memory, and the time of every other call is independent of how many places are live.
///
/// Making a pool writes none of its places and none of its lines: a place is written when it first
/// gets an item, and the marks of lines when one of them, or one behind it, is first used.
#[derive(Drop)]
pub struct Pool<T> {
    slots: Region<Slot<T>>,
    rings: Rings,
}

impl<T> Model for Pool<T> {
    ghost use Rattle.std.specs.Prelude.{◌≡◌, drop, length};
    ghost use Rattle.order_pool.specs.Pool.{PoolState, pool_code};

    ghost Value = { PoolState T };

    ghost coded = { pool_code T.code };

    ghost use Rattle.order_pool.specs.Slots.{places_in, IsPool};

    ghost view = { λ a. record {
      places = places_in a.slots.items;
      lines = drop 1 a.rings;
    } };

    ghost invariant = { λ a. (a.slots.room ≡ 4096) × IsPool (places_in a.slots.items) a.rings (length a.slots.items) };
}

impl<T: Copy> Pool<T> {
    ghost use Rattle.order_pool.specs.Lends.{LendsItem};

    /// An empty pool with one line.
    ///
    /// # Errors
    ///
    /// [`NoMemory`] where memory runs out.
    pub fn new(alloc: Global) -> Result<Pool<T>, NoMemory>
        ensures free { IfOk result (λ pool. (place : ℕ) → item_at pool place ≡ None) }
        ensures lines { IfOk result (λ pool. pool.lines ≡ [] ∷ []) }
        ensures sound { IfOk result (λ pool. IsSound pool) }
    {
        Pool::with_lines(alloc, 1)
    }

    /// An empty pool with so many lines.
    ///
    /// # Errors
    ///
    /// [`NoMemory`] where memory runs out.
    pub fn with_lines(alloc: Global, lines: u32) -> Result<Pool<T>, NoMemory>
        requires some { 1 ≤ lines }
        requires few { lines ≤ MOST_LINES }
        ensures free { IfOk result (λ pool. (place : ℕ) → item_at pool place ≡ None) }
        ensures lines { IfOk result (λ pool. pool.lines ≡ replicate lines []) }
        ensures sound { IfOk result (λ pool. IsSound pool) }
    {
        let slots = Region::new(alloc, PLACES)?;
        let rings = Rings::new(alloc, lines + 1)?;
        Ok(Pool { slots, rings })
    }

    /// A pool with the same items at the same places, in the same lines.
    ///
    /// # Errors
    ///
    /// [`NoMemory`] where memory runs out.
    pub fn copy(&self) -> Result<Pool<T>, NoMemory>
        ensures same { IfOk result (λ pool. pool ≡ self.now) }
    {
        let rings = self.rings.copy()?;
        let slots = self.slots.copy()?;
        Ok(Pool { slots, rings })
    }

    /// Puts an item into a free place, which joins the end of line 0, and answers the place. Which
    /// of the free places it is stays open.
    ///
    /// # Errors
    ///
    /// [`Full`] exactly where no place is free, and then nothing changes.
    pub fn put(&mut self, item: T) -> Result<u32, Full>
        ensures full { IsErr result ↔ (live_count self.old ≡ 4096) }
        ensures none_free { OnErr result ((place : ℕ) → place < 4096 → IsLive self.old place) }
        ensures unchanged { OnErr result (self.new ≡ self.old) }
        ensures within { IfOk result (λ place. place < 4096) }
        ensures was_free { IfOk result (λ place. item_at self.old place ≡ None) }
        ensures places { IfOk result (λ place.
            self.new.places ≡ slice_set self.old.places place (Some item)) }
        ensures lines { IfOk result (λ place.
            IsInserted self.old.lines self.new.lines 0 None place) }
        ensures holds { IfOk result (λ place. item_at self.new place ≡ Some item) }
        ensures stands { IfOk result (λ place. StandsIn self.new.lines 0 place) }
        ensures line_count { length self.new.lines ≡ length self.old.lines }
        ensures sound { IsSound self.new }
    {
        // The fields show that there is a line 0.
        let _ = &self.rings;
        self.insert(0, None, item)
    }

    /// Puts an item into a free place, which joins a line right before the place `before` of that
    /// line, or at its end where there is none, and answers the place. Which of the free places it
    /// is stays open.
    ///
    /// # Errors
    ///
    /// [`Full`] exactly where no place is free, and then nothing changes.
    pub fn insert(&mut self, line: u32, before: Option<u32>, item: T) -> Result<u32, Full>
        requires line { line < length self.old.lines }
        requires before { ForSome before (λ after. StandsIn self.old.lines line after) }
        ensures full { IsErr result ↔ (live_count self.old ≡ 4096) }
        ensures none_free { OnErr result ((place : ℕ) → place < 4096 → IsLive self.old place) }
        ensures unchanged { OnErr result (self.new ≡ self.old) }
        ensures within { IfOk result (λ place. place < 4096) }
        ensures was_free { IfOk result (λ place. item_at self.old place ≡ None) }
        ensures places { IfOk result (λ place.
            self.new.places ≡ slice_set self.old.places place (Some item)) }
        ensures lines { IfOk result (λ place.
            IsInserted self.old.lines self.new.lines line before place) }
        ensures holds { IfOk result (λ place. item_at self.new place ≡ Some item) }
        ensures stands { IfOk result (λ place. StandsIn self.new.lines line place) }
        ensures line_count { length self.new.lines ≡ length self.old.lines }
        ensures sound { IsSound self.new }
    {
        // A place that was given back goes first, then one that was never used.
        if let Some(place) = self.rings.first(FREE) {
            self.slots.set(place, Slot::Held(item));
            self.rings.shift(place, line + 1, before);
            return Ok(place);
        }
        let place = self.slots.len();
        if place == PLACES {
            return Err(Full);
        }
        self.slots.push(Slot::Held(item));
        self.rings.insert(line + 1, before, place);
        Ok(place)
    }

    /// Takes the item from a live place, which is free then and stands in no line any more.
    pub fn take(&mut self, place: u32) -> T
        requires { IsLive self.old place }
        ensures item { item_at self.old place ≡ Some result }
        ensures places { self.new.places ≡ slice_set self.old.places place None }
        ensures lines { IsRemoved self.old.lines self.new.lines place }
        ensures line_count { length self.new.lines ≡ length self.old.lines }
        ensures sound { IsSound self.new }
    {
        let item = *self.slots.get(place).item();
        self.slots.set(place, Slot::Free);
        let first = self.rings.first(FREE);
        self.rings.shift(place, FREE, first);
        item
    }

    /// The item at a live place.
    pub fn get(&self, place: u32) -> &T
        requires { IsLive self.now place }
        ensures { item_at self.now place ≡ Some result.now }
    {
        self.slots.get(place).item()
    }

    /// The item at a live place, for writing.
    pub fn get_mut(&mut self, place: u32) -> &mut T
        requires { IsLive self.old place }
        ensures* writes_back { sem 𝓛 (LendsItem T.row self.entry place result) }
        ensures item { item_at self.old place ≡ Some result.now }
    {
        self.slots.get_mut(place).item_mut()
    }

    /// The first place of a line, or `None` where the line is empty.
    pub fn first(&self, line: u32) -> Option<u32>
        requires { line < length self.now.lines }
        ensures { result ≡ first_in (line_at self.now.lines line) }
    {
        self.rings.first(line + 1)
    }

    /// The last place of a line, or `None` where the line is empty.
    pub fn last(&self, line: u32) -> Option<u32>
        requires { line < length self.now.lines }
        ensures { result ≡ last_in (line_at self.now.lines line) }
    {
        self.rings.last(line + 1)
    }

    /// The place behind a live place in its line, or `None` at the line's end.
    pub fn next(&self, place: u32) -> Option<u32>
        requires { IsLive self.now place }
        ensures { IsNext self.now.lines place result }
    {
        self.rings.next(place)
    }

    /// The place ahead of a live place in its line, or `None` at the line's start.
    pub fn previous(&self, place: u32) -> Option<u32>
        requires { IsLive self.now place }
        ensures { IsPrevious self.now.lines place result }
    {
        self.rings.previous(place)
    }
}
