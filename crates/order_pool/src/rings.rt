//! Rings of places, linked through one region of fixed size.

ghost use Rattle.std.specs.Prelude.{◌≡◌, ◌≢◌, ℕ, ◌+◌, ◌<◌, ◌^◌, List, [], length, sum_by, replicate, IfOk, Some, None, nat_lt, if◌then◌else◌};
ghost use Rattle.std.specs.Option.{ForSome};
ghost use Rattle.order_pool.specs.Lines.{line_at, first_in, last_in, StandsIn, IsRemoved, IsInserted, IsNext, IsPrevious, IsMoved};
ghost use Rattle.order_pool.specs.Rings.{AreRings};

use crate::faults::NoMemory;
use crate::links::Ends;
use std::alloc::Global;
use std::marker::Model;

/// How many places a pool has.
pub const PLACES: u32 = 4096;

/// The ring of the places that were given back.
pub const FREE: u32 = 0;

/// Rings of places. Each place stands in one ring at most, and each ring is a list of places.
///
/// Two links lead from each place, to the place behind it and to the place ahead of it, and as many
/// from each ring's mark, which closes it: the mark of ring `k` has the number `PLACES + k`.
/// A link is stored when it, or one behind it, is first set; until then it leads to its own number.
/// The links of a place that stands in a ring lead elsewhere, so that they are stored.
#[derive(Drop)]
pub struct Rings {
    next: Ends,
    previous: Ends,
}

impl Model for Rings {
    ghost use Rattle.std.specs.Prelude.{List, ℕ};
    ghost use Rattle.order_pool.specs.Links.{rings_linked, AreLinked};

    ghost Value = { List (List ℕ) };

    ghost view = { λ a. rings_linked a.next };

    ghost invariant = { λ a. AreLinked a.next a.previous (rings_linked a.next) };
}

// A link's end as a place, if it is one.
fn place_of(number: u32) -> Option<u32>
    ensures { result ≡ (if nat_lt number 4096 then Some number else None) }
{
    if number < PLACES { Some(number) } else { None }
}

impl Rings {
    /// So many rings with no place.
    ///
    /// # Errors
    ///
    /// [`NoMemory`] where memory runs out.
    pub fn new(alloc: Global, rings: u32) -> Result<Rings, NoMemory>
        requires { 4096 + rings < 2 ^ 32 }
        ensures empty { IfOk result (λ made. made ≡ replicate rings []) }
        ensures sound { IfOk result (λ made. AreRings made) }
    {
        let next = Ends::new(alloc, rings)?;
        let previous = Ends::new(alloc, rings)?;
        Ok(Rings { next, previous })
    }

    /// The same rings again.
    ///
    /// # Errors
    ///
    /// [`NoMemory`] where memory runs out.
    pub fn copy(&self) -> Result<Rings, NoMemory>
        ensures { IfOk result (λ made. made ≡ self.now) }
    {
        Ok(Rings {
            next: self.next.copy()?,
            previous: self.previous.copy()?,
        })
    }

    /// The first place of a ring, or `None` where it has none.
    pub fn first(&self, ring: u32) -> Option<u32>
        requires { ring < length self.now }
        ensures { result ≡ first_in (line_at self.now ring) }
    {
        place_of(self.next.of_mark(ring))
    }

    /// The last place of a ring, or `None` where it has none.
    pub fn last(&self, ring: u32) -> Option<u32>
        requires { ring < length self.now }
        ensures { result ≡ last_in (line_at self.now ring) }
    {
        place_of(self.previous.of_mark(ring))
    }

    /// The place behind a place that stands in a ring, or `None` at the ring's end.
    pub fn next(&self, place: u32) -> Option<u32>
        requires { (ring : ℕ) × StandsIn self.now ring place }
        ensures { IsNext self.now place result }
    {
        place_of(self.next.of_place(place))
    }

    /// The place ahead of a place that stands in a ring, or `None` at the ring's start.
    pub fn previous(&self, place: u32) -> Option<u32>
        requires { (ring : ℕ) × StandsIn self.now ring place }
        ensures { IsPrevious self.now place result }
    {
        place_of(self.previous.of_place(place))
    }

    /// Takes a place out of its ring.
    pub fn remove(&mut self, place: u32)
        requires { (ring : ℕ) × StandsIn self.old ring place }
        ensures removed { IsRemoved self.old self.new place }
        ensures sound { AreRings self.new }
    {
        let before = self.previous.of_place(place);
        let after = self.next.of_place(place);
        self.next.set(before, after);
        self.previous.set(after, before);
    }

    /// Puts a place that stands in no ring into a ring, right before the place `before` of that
    /// ring, or at its end where there is none.
    pub fn insert(&mut self, ring: u32, before: Option<u32>, place: u32)
        requires sound { AreRings self.old }
        requires within { ring < length self.old }
        requires before { ForSome before (λ after. StandsIn self.old ring after) }
        requires place { place < 4096 }
        requires absent { (other : ℕ) → StandsIn self.old other place → ⊥ }
        requires room { sum_by length self.old < 4096 }
        ensures inserted { IsInserted self.old self.new ring before place }
        ensures sound { AreRings self.new }
    {
        let after = before.unwrap_or(PLACES + ring);
        let before = self.previous.at(after);
        self.next.set(before, place);
        self.next.set(place, after);
        self.previous.set(after, place);
        self.previous.set(place, before);
    }

    /// Takes a place from where it stands, and puts it into a ring as [`Rings::insert`] does.
    pub fn shift(&mut self, place: u32, ring: u32, before: Option<u32>)
        requires sound { AreRings self.old }
        requires stands { (from : ℕ) × StandsIn self.old from place }
        requires within { ring < length self.old }
        requires before { ForSome before (λ after. StandsIn self.old ring after) }
        requires apart { before ≢ Some place }
        ensures moved { IsMoved self.old self.new place ring before }
        ensures sound { AreRings self.new }
    {
        self.remove(place);
        self.insert(ring, before, place);
    }
}
