//! The row of the hours' desks.

ghost use Rattle.std.specs.Prelude.{◌≡◌, IfOk, map};
ghost use Rattle.journal_front.specs.Fronts.{FrontState};
ghost use Rattle.desk_locks.specs.Held.{AreHeld, places_within};
ghost use Rattle.desk_locks.specs.Homes.{place_of_lock};
ghost use Rattle.desk_locks.specs.Places.{AreFirstSeats, IsGridOf, row_of};

use crate::held::Held;
use crate::home::{Home, HourLock, Seated, Taken};
use journal_front::DeskSeats;
use market_model::Hours;
use std::alloc::Global;
use std::marker::Model;
use std::sync::{Arc, Wait};
use zone_graph::{Grid, NoMemory};

/// The desks of the hours of a delivery day with their seats, each hour under a lock of its own.
///
/// Contracts see the places of the row, one for each hour: the front that its seat is of, and the hour.
pub struct DeskRow {
    homes: Vec<Home>,
}

impl Model for DeskRow {
    ghost use Rattle.std.specs.Prelude.{List, map};
    ghost use Rattle.desk_locks.specs.Homes.{place_of_home};
    ghost use Rattle.desk_locks.specs.Places.{Place};

    ghost Value = { List Place };

    ghost view = { λ row. map place_of_home row.homes.items };
}

// Written out: a crate that drops one need not know what it is made of.
impl Drop for DeskRow {
    fn drop(self) {
        let DeskRow { homes: _ } = self;
    }
}

impl DeskRow {
    /// The row of the desks over a grid, without events, each with its seat: one for each hour of a front, ascending,
    /// with the empty list. The grid is that of the front's setup.
    ///
    /// # Errors
    ///
    /// [`NoMemory`] where memory runs out.
    pub fn new(alloc: Global, grid: &Grid, seats: DeskSeats) -> Result<DeskRow, NoMemory>
        requires { (front : FrontState) × AreFirstSeats front seats × IsGridOf front grid.now }
        ensures { (front : FrontState) → AreFirstSeats front seats → IfOk result (λ row. row ≡ row_of front) }
    {
        let mut homes = Vec::with_capacity(alloc, seats.len())?;
        for seat in seats.into_vec() {
            homes.push(Home::new(alloc, grid, seat)?)?;
        }
        Ok(DeskRow { homes })
    }

    /// Holds the desks of some hours, with their seats: takes the locks of those hours that are in the row, ascending,
    /// and waits for each until it is free. It takes its memory before the first lock.
    ///
    /// # Errors
    ///
    /// [`NoMemory`] where memory runs out, and then no lock is taken.
    pub fn hold<R: Wait>(&self, rt: &R, hours: Hours) -> Result<Held, NoMemory>
        ensures { IfOk result (AreHeld hours self.now) }
    {
        let locks = self.locks_of(hours)?;
        let alloc = *self.homes.allocator();
        let mut desks = Vec::with_capacity(alloc, locks.len())?;
        let mut seats = Vec::with_capacity(alloc, locks.len())?;
        let mut taken = Vec::with_capacity(alloc, locks.len())?;
        for lock in locks {
            let (Seated { desk, seat }, duty) = lock.take(rt);
            desks.push_reserved(desk);
            seats.push_reserved(seat);
            taken.push_reserved(Taken { lock, duty });
        }
        Ok(Held {
            desks,
            seats,
            taken,
        })
    }

    // The locks of the places whose hours are in a set.
    fn locks_of(&self, hours: Hours) -> Result<Vec<HourLock>, NoMemory>
        ensures { IfOk result (λ locks. map place_of_lock locks.items ≡ places_within hours self.now) }
    {
        let mut locks = Vec::new(*self.homes.allocator());
        for home in self.homes.as_slice() {
            if hours.contains(home.hour) {
                locks.push(Arc::try_clone(&home.lock)?)?;
            }
        }
        Ok(locks)
    }
}
