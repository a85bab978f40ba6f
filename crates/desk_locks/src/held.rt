//! Desks that are held.

ghost use Rattle.desk_locks.specs.Held as held;

use crate::home::{Seated, Taken};
use joint_plan::{Desks, HourDesk};
use journal_front::{DeskSeat, HourSeats};
use std::marker::Model;

/// The desks of some hours and their seats, by the row's order, while their locks are taken.
///
/// Contracts see the places that were taken, and the desk and the seat of each. It is no `Drop`: it ends by
/// [`Held::give_back`] alone.
pub struct Held {
    pub(crate) desks: Vec<HourDesk>,
    pub(crate) seats: Vec<DeskSeat>,
    pub(crate) taken: Vec<Taken>,
}

impl Model for Held {
    ghost use Rattle.std.specs.Prelude.{map};
    ghost use Rattle.desk_locks.specs.Held.{HeldState};
    ghost use Rattle.desk_locks.specs.Homes.{place_of_taken};

    ghost Value = { HeldState };

    ghost view = { λ held. record { places = map place_of_taken held.taken.items; desks = held.desks.items; seats = held.seats.items } };
}

impl Held {
    /// Puts the desks and the seats back, each in its place, and gives the locks back. It waits for nobody, and takes
    /// no memory.
    pub fn give_back(self)
        requires { held.IsAllInPlace self }
    {
        let Held {
            mut desks,
            mut seats,
            mut taken,
        } = self;
        while let Some(Taken { lock, duty }) = taken.pop() {
            let desk = desks.pop().unwrap();
            let seat = seats.pop().unwrap();
            lock.give(Seated { desk, seat }, duty);
        }
        taken.destroy_empty();
    }
}

impl Desks for Held {
    ghost use Rattle.std.specs.Prelude.{refl};
    ghost use Rattle.desk_locks.specs.Held.{with_desk, without_desks};

    type Rest = Held;

    ghost desks = { λ held. held.desks };

    ghost rest = { without_desks };

    ghost with_desk = { with_desk };

    fn len(&self) -> usize {
        self.desks.len()
    }

    fn desk(&self, i: usize) -> &HourDesk {
        &self.desks[i]
    }

    fn desk_mut(&mut self, i: usize) -> &mut HourDesk {
        &mut self.desks[i]
    }

    ghost desks_with = { λ _ _ _. refl };

    ghost rest_with = { λ _ _ _. refl };
}

impl HourSeats for Held {
    ghost use Rattle.std.specs.Prelude.{refl};
    ghost use Rattle.desk_locks.specs.Held.{with_seat, without_seats};

    type Rest = Held;

    ghost seats = { λ held. held.seats };

    ghost rest = { without_seats };

    ghost with_seat = { with_seat };

    fn len(&self) -> usize {
        self.seats.len()
    }

    fn seat_mut(&mut self, i: usize) -> &mut DeskSeat {
        &mut self.seats[i]
    }

    ghost seats_with = { λ _ _ _. refl };

    ghost rest_with = { λ _ _ _. refl };
}
