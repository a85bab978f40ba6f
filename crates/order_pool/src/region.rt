//! A region of memory with room for a fixed number of items, which are written in order.

ghost use Rattle.std.specs.Prelude.{◌≡◌, ◌+◌, ◌<◌, ◌≤◌, [], ◌∷◌, ◌++◌, length, slice_index_or, IfOk};
ghost use Rattle.std.specs.Borrow.{Lends, sem};
ghost use Rattle.order_pool.specs.Region.{Stock, restocked};

use crate::cells::{Base, Cells, Deed, allocate, deallocate};
use crate::faults::NoMemory;
use std::alloc::Global;
use std::marker::Model;
use std_alloc::room::may_hold;

/// One block of memory with room for a fixed number of items, of which only the first ones are
/// there. Nothing is written before an item is pushed.
pub struct Region<T> {
    base: Base<T>,
    len: u32,
    room: u32,
    cells: Cells<T>,
    deed: Deed<T, Global>,
    alloc: Global,
}

impl<T> Model for Region<T> {
    ghost use Rattle.std.specs.Prelude.{◌≡◌};
    ghost use Rattle.order_pool.specs.Region.{Stock};
    ghost use Rattle.order_pool.specs.Cells.{somes, AreLaid};

    ghost Value = { Stock T };

    ghost view = { λ region. record {
      items = somes region.cells.slots;
      room = region.room;
    } };

    ghost invariant = { λ region. (region.cells.at ≡ region.base.ptr) × (region.deed.at ≡ region.base.ptr) × (region.deed.len ≡ region.room) × (region.deed.alloc ≡ region.alloc) × AreLaid region.cells.slots region.len region.room };
}

impl<T> Region<T> {
    ghost use Rattle.order_pool.specs.contracts.region.Region.{the_row};

    /// Room for so many items, none of which is there yet.
    ///
    /// # Errors
    ///
    /// [`NoMemory`] where memory runs out.
    pub fn new(alloc: Global, room: u32) -> Result<Region<T>, NoMemory>
        ensures { IfOk result (λ region. region ≡ record { items = []; room = room }) }
    {
        if !may_hold::<T>(room as usize) {
            return Err(NoMemory);
        }
        let (base, cells, deed) = allocate(&alloc, room as usize)?;
        Ok(Region {
            base,
            len: 0,
            room,
            cells,
            deed,
            alloc,
        })
    }

    /// How many items there are.
    pub fn len(&self) -> u32
        ensures len { result ≡ length self.now.items }
        ensures within { length self.now.items ≤ self.now.room }
    {
        self.len
    }

    /// The item at an index.
    pub fn get(&self, index: u32) -> &T
        requires { index < length self.now.items }
        ensures { result.now ≡ slice_index_or self.now.items index result.now }
    {
        self.cells.get(self.base, index as usize)
    }

    /// The item at an index, for writing.
    pub fn get_mut(&mut self, index: u32) -> &mut T
        requires { index < length self.old.items }
        ensures* writes_back { sem 𝓛 (Lends (the_row T.row) T.row self.entry result (restocked self.old index)) }
        ensures value { result.now ≡ slice_index_or self.old.items index result.now }
    {
        self.cells.get_mut(self.base, index as usize)
    }

    /// Adds an item behind the others.
    pub fn push(&mut self, item: T)
        requires { length self.old.items < self.old.room }
        ensures items { self.new.items ≡ self.old.items ++ item ∷ [] }
        ensures room { self.new.room ≡ self.old.room }
    {
        self.cells.write(self.base, self.len as usize, item);
        self.len += 1;
    }
}

impl<T: Copy> Region<T> {
    /// Puts another item at an index.
    pub fn set(&mut self, index: u32, item: T)
        requires { index < length self.old.items }
        ensures { self.new ≡ restocked self.old index item }
    {
        *self.get_mut(index) = item;
    }

    /// The same items in a region of the same room.
    ///
    /// # Errors
    ///
    /// [`NoMemory`] where memory runs out.
    pub fn copy(&self) -> Result<Region<T>, NoMemory>
        ensures { IfOk result (λ region. region ≡ self.now) }
    {
        let mut copied = Region::new(self.alloc, self.room)?;
        for index in 0..self.len {
            copied.push(*self.get(index));
        }
        Ok(copied)
    }
}

impl<T: Drop> Drop for Region<T> {
    fn drop(self) {
        let Region {
            base,
            len,
            room,
            mut cells,
            deed,
            alloc,
        } = self;
        for index in 0..len {
            drop(cells.read(base, index as usize));
        }
        deallocate(&alloc, base, room as usize, cells, deed);
    }
}
