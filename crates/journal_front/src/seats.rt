//! The seats on the journal's word.

ghost use Rattle.std.specs.Prelude.{◌≡◌, ◌<◌, ◌≤◌, ◌^◌, true, false, [], ◌∷◌, length};
ghost use Rattle.market_model.specs.Concerned.{entries_by};
ghost use Rattle.journal_front.specs.Seats.{IsDeskPlace, IsPassPlace, desk_standing, desk_state, pass_state};
ghost use Rattle.journal_front.specs.Views.{seat_view};

use crate::view::View;
use atomic_table::{Badge, Seat};
use market_model::Sequence;
use std::marker::Model;
use std::mem;

/// A seat's place on the word.
pub(crate) type Place = Seat<u8, View>;

/// The journal's seat. Its list is the journal.
#[derive(Drop)]
pub struct JournalSeat {
    pub(crate) place: Place,
}

impl Model for JournalSeat {
    ghost use Rattle.journal_front.specs.Fronts.{JournalSeatState};
    ghost use Rattle.journal_front.specs.Seats.{IsJournalPlace, journal_state};

    ghost Value = { JournalSeatState };

    ghost view = { λ seat. journal_state seat.place.table_id seat.place.me };

    ghost invariant = { λ seat. IsJournalPlace seat.place.me };
}

/// The seat of an hour's desk. Its list is a beginning of the journal, after which the journal has
/// no entry that touches the hour.
///
/// While a commit is made the seat is away, joined into the journal's.
pub struct DeskSeat {
    hour: u32,
    badge: Badge<View>,
}

impl Model for DeskSeat {
    ghost use Rattle.journal_front.specs.Fronts.{DeskSeatState};
    ghost use Rattle.journal_front.specs.Seats.{IsDeskPlace, desk_state};

    ghost Value = { DeskSeatState };

    ghost view = { λ seat. desk_state seat.badge.table_id seat.hour seat.badge.views };

    ghost invariant = { λ seat. IsDeskPlace seat.hour seat.badge.views };
}

// Written out: a crate that drops one need not know what it is made of.
impl Drop for DeskSeat {
    fn drop(self) {
        let DeskSeat { hour: _, badge: _ } = self;
    }
}

/// The seats of the desks, by ascending hour.
pub type DeskSeats = Sequence<DeskSeat>;

/// The seat of a caller's pass. Its list is a beginning of the journal, after which the journal has
/// no entry of the caller.
#[derive(Drop)]
pub struct PassSeat {
    pub(crate) caller: u32,
    pub(crate) made: u32,
    pub(crate) badge: Badge<View>,
}

impl Model for PassSeat {
    ghost use Rattle.journal_front.specs.Fronts.{PassSeatState};
    ghost use Rattle.journal_front.specs.Seats.{IsPassPlace, pass_state};

    ghost Value = { PassSeatState };

    ghost view = { λ seat. pass_state seat.badge.table_id seat.caller seat.badge.views };

    ghost invariant = { λ seat. IsPassPlace seat.caller seat.made seat.badge.views };
}

/// The seats of the passes, by ascending caller.
pub type PassSeats = Sequence<PassSeat>;

impl DeskSeat {
    // A seat in its place.
    pub(crate) fn new(hour: u32, badge: Badge<View>) -> DeskSeat
        requires { IsDeskPlace hour badge.views }
        ensures { result ≡ desk_state badge.table_id hour badge.views }
    {
        DeskSeat { hour, badge }
    }

    /// The hour.
    pub fn hour(&self) -> u32
        ensures hour { result ≡ self.now.hour }
        ensures first { self.now.here ≡ true → 1 ≤ result }
        ensures last { self.now.here ≡ true → result ≤ self.now.setup.hours }
        ensures short { length self.now.entries ≤ 2 ^ 31 }
    {
        self.hour
    }

    // Takes the seat out of its place.
    pub(crate) fn leave(&mut self) -> Badge<View>
        requires { self.old.here ≡ true }
        ensures front { result.table_id ≡ self.old.front }
        ensures view { result.views ≡ seat_view self.old.setup (desk_standing self.old.hour self.old.entries) ∷ [] }
        ensures place { (self.new.hour ≡ self.old.hour) × (self.new.here ≡ false) }
    {
        mem::replace(&mut self.badge, Badge::blank())
    }

    // Puts the seat into its place.
    pub(crate) fn come_back(&mut self, badge: Badge<View>)
        requires { IsDeskPlace self.old.hour badge.views }
        ensures { self.new ≡ desk_state badge.table_id self.old.hour badge.views }
    {
        self.badge = badge;
    }
}

impl PassSeat {
    // A seat of a caller who has no entry yet.
    pub(crate) fn new(caller: u32, badge: Badge<View>) -> PassSeat
        requires { IsPassPlace caller 0 badge.views }
        ensures { result ≡ pass_state badge.table_id caller badge.views }
    {
        PassSeat {
            caller,
            made: 0,
            badge,
        }
    }

    /// The caller.
    pub fn caller(&self) -> u32
        ensures caller { result ≡ self.now.caller }
        ensures known { result < length self.now.setup.callers }
    {
        self.caller
    }

    /// How many entries of the caller its list has.
    pub fn made(&self) -> u32
        ensures made { result ≡ length (entries_by self.now.caller self.now.entries) }
        ensures short { length self.now.entries ≤ 2 ^ 31 }
    {
        self.made
    }
}
