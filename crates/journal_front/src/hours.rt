//! The seats of the desks that a commit is given.

ghost use Rattle.std.specs.Prelude.{◌≡◌, ℕ, ◌<◌, List, Some, length, slice_get, slice_set, refl};
ghost use Rattle.std.specs.Vec.{with_item};
ghost use Rattle.std.specs.Borrow.{Lends, sem};
ghost use Rattle.journal_front.specs.contracts.seats.DeskSeat.{the_row};
ghost use Rattle.journal_front.specs.declared.seats.DeskSeat.{DeskSeat};

use crate::seats::DeskSeat;

/// A value that has seats of desks, and lends each of them.
pub trait HourSeats {
    /// What contracts see of the value besides its seats.
    type Rest;

    /// The seats.
    ghost seats: { Self → List DeskSeat };

    /// All else.
    ghost rest: { Self → Self.Rest };

    /// The value with another seat at a place.
    ghost with_seat: { Self → ℕ → DeskSeat → Self };

    /// How many seats there are.
    fn len(&self) -> usize
        ensures { result ≡ length (seats self.now) };

    /// Lends the seat at a place.
    fn seat_mut(&mut self, i: usize) -> &mut DeskSeat
        requires { i < length (seats self.old) }
        ensures* writes_back { sem 𝓛 (Lends Self.row the_row self.entry result (with_seat self.old i)) }
        ensures value { slice_get (seats self.old) i ≡ Some result.now };

    /// A seat that is changed leaves the others as they are.
    ghost seats_with: { (value : Self) (i : ℕ) (seat : DeskSeat) → seats (with_seat value i seat) ≡ slice_set (seats value) i seat };

    /// And it leaves all else as it is.
    ghost rest_with: { (value : Self) (i : ℕ) (seat : DeskSeat) → rest (with_seat value i seat) ≡ rest value };
}

/// Seats by themselves.
impl HourSeats for Vec<DeskSeat> {
    type Rest = ();

    ghost seats = { λ seats. seats.items };

    ghost rest = { λ _. tt };

    ghost with_seat = { with_item };

    fn len(&self) -> usize {
        self.len()
    }

    fn seat_mut(&mut self, i: usize) -> &mut DeskSeat {
        &mut self[i]
    }

    ghost seats_with = { λ _ _ _. refl };

    ghost rest_with = { λ _ _ _. refl };
}
