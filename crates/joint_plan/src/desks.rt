//! The desks that a command of several hours is planned on.

ghost use Rattle.std.specs.Prelude.{◌≡◌, ℕ, ◌<◌, List, Some, length, slice_get, slice_set, refl};
ghost use Rattle.std.specs.Vec.{with_item};
ghost use Rattle.std.specs.Borrow.{Lends, sem};
ghost use Rattle.hour_desk.specs.contracts.desk.HourDesk.{the_row};
ghost use Rattle.hour_desk.specs.Desk.{DeskState};

use hour_desk::HourDesk;

/// A value that has desks in a row, and lends each of them.
pub trait Desks {
    /// What contracts see of the value besides its desks.
    type Rest;

    /// The desks.
    ghost desks: { Self → List DeskState };

    /// All else.
    ghost rest: { Self → Self.Rest };

    /// The value with another desk at a place.
    ghost with_desk: { Self → ℕ → DeskState → Self };

    /// How many desks there are.
    fn len(&self) -> usize
        ensures { result ≡ length (desks self.now) };

    /// The desk at a place.
    fn desk(&self, i: usize) -> &HourDesk
        requires { i < length (desks self.now) }
        ensures { slice_get (desks self.now) i ≡ Some result.now };

    /// Lends the desk at a place.
    fn desk_mut(&mut self, i: usize) -> &mut HourDesk
        requires { i < length (desks self.old) }
        ensures* writes_back { sem 𝓛 (Lends Self.row the_row self.entry result (with_desk self.old i)) }
        ensures value { slice_get (desks self.old) i ≡ Some result.now };

    /// A desk that is changed leaves the others as they are.
    ghost desks_with: { (value : Self) (i : ℕ) (desk : DeskState) → desks (with_desk value i desk) ≡ slice_set (desks value) i desk };

    /// And it leaves all else as it is.
    ghost rest_with: { (value : Self) (i : ℕ) (desk : DeskState) → rest (with_desk value i desk) ≡ rest value };
}

/// Desks by themselves.
impl Desks for Vec<HourDesk> {
    type Rest = ();

    ghost desks = { λ desks. desks.items };

    ghost rest = { λ _. tt };

    ghost with_desk = { with_item };

    fn len(&self) -> usize {
        self.len()
    }

    fn desk(&self, i: usize) -> &HourDesk {
        &self[i]
    }

    fn desk_mut(&mut self, i: usize) -> &mut HourDesk {
        &mut self[i]
    }

    ghost desks_with = { λ _ _ _. refl };

    ghost rest_with = { λ _ _ _. refl };
}
