//! The links of places and of marks, stored from the first on as far as they were ever set.

ghost use Rattle.std.specs.Prelude.{◌≡◌, ◌≢◌, ℕ, ◌+◌, ◌<◌, ◌≤◌, ◌^◌, length, slice_index, slice_set, IfOk};
ghost use Rattle.order_pool.specs.Rows.{padded};

use crate::faults::NoMemory;
use crate::region::Region;
use crate::rings::PLACES;
use std::alloc::Global;
use std::marker::Model;

/// Where the links of all places and marks lead, in one direction.
///
/// Each leads to its own number until it is set. Those of places, and those of marks, are stored up
/// to the last that was ever set, so that a link that leads elsewhere is read without a test.
#[derive(Drop)]
pub struct Ends {
    places: Region<u32>,
    marks: Region<u32>,
}

impl Model for Ends {
    ghost use Rattle.std.specs.Prelude.{List, ℕ, ◌≡◌, ◌+◌, ◌<◌, ◌≤◌, ◌^◌, ◌++◌, length};
    ghost use Rattle.order_pool.specs.Rows.{padded};

    ghost Value = { List ℕ };

    ghost view = { λ ends. padded ends.places.items 0 ends.places.room ++ padded ends.marks.items 4096 ends.marks.room };

    ghost invariant = { λ ends. (ends.places.room ≡ 4096) × (length ends.places.items ≤ 4096) × (length ends.marks.items ≤ ends.marks.room) × (4096 + ends.marks.room < 2 ^ 32) };
}

// Puts a number at an index of a row, each of whose numbers is the one that its index stands for
// until it is set: index 0 stands for the number `first`. The numbers up to the index are stored.
fn store(stored: &mut Region<u32>, first: u32, index: u32, number: u32)
    requires within { index < stored.old.room }
    requires stored { length stored.old.items ≤ stored.old.room }
    requires fits { first + stored.old.room < 2 ^ 32 }
    ensures set { padded stored.new.items first stored.new.room ≡ slice_set (padded stored.old.items first stored.old.room) index number }
    ensures within { length stored.new.items ≤ stored.new.room }
    ensures room { stored.new.room ≡ stored.old.room }
{
    for made in stored.len()..index + 1 {
        stored.push(first + made);
    }
    stored.set(index, number);
}

impl Ends {
    /// Links of all places and of so many marks, each of which leads to itself.
    ///
    /// # Errors
    ///
    /// [`NoMemory`] where memory runs out.
    pub fn new(alloc: Global, marks: u32) -> Result<Ends, NoMemory>
        requires { 4096 + marks < 2 ^ 32 }
        ensures len { IfOk result (λ ends. length ends ≡ 4096 + marks) }
        ensures each { IfOk result (λ ends. (k : ℕ) → k < 4096 + marks → slice_index ends k ≡ k) }
    {
        let places = Region::new(alloc, PLACES)?;
        let marks = Region::new(alloc, marks)?;
        Ok(Ends { places, marks })
    }

    /// The same links again.
    ///
    /// # Errors
    ///
    /// [`NoMemory`] where memory runs out.
    pub fn copy(&self) -> Result<Ends, NoMemory>
        ensures { IfOk result (λ ends. ends ≡ self.now) }
    {
        Ok(Ends {
            places: self.places.copy()?,
            marks: self.marks.copy()?,
        })
    }

    /// Where the link of a place leads that does not lead to itself.
    pub fn of_place(&self, place: u32) -> u32
        requires within { place < 4096 }
        requires apart { slice_index self.now place ≢ place }
        ensures { result ≡ slice_index self.now place }
    {
        *self.places.get(place)
    }

    /// Where the link of a mark leads.
    pub fn of_mark(&self, mark: u32) -> u32
        requires { 4096 + mark < length self.now }
        ensures { result ≡ slice_index self.now (4096 + mark) }
    {
        if mark < self.marks.len() {
            *self.marks.get(mark)
        } else {
            PLACES + mark
        }
    }

    /// Where the link of a mark leads, or that of a place which does not lead to itself.
    pub fn at(&self, number: u32) -> u32
        requires within { number < length self.now }
        requires apart { number < 4096 → slice_index self.now number ≢ number }
        ensures { result ≡ slice_index self.now number }
    {
        if number < PLACES {
            self.of_place(number)
        } else {
            self.of_mark(number - PLACES)
        }
    }

    /// Leads the link of a place or of a mark elsewhere.
    pub fn set(&mut self, number: u32, end: u32)
        requires { number < length self.old }
        ensures { self.new ≡ slice_set self.old number end }
    {
        if number < PLACES {
            store(&mut self.places, 0, number, end);
        } else {
            store(&mut self.marks, PLACES, number - PLACES, end);
        }
    }
}
