//! The place where the stored lines end.

ghost use Rattle.std.specs.Prelude.{◌≡◌, ◌<◌};
ghost use Rattle.disk_model.specs.Contents.{most_bytes};

use std::marker::Model;

/// The place on a disk where the stored lines end, and the next one is appended. Contracts see the
/// place.
#[derive(Debug, Drop, PartialEq, Eq)]
pub struct At {
    place: u64,
}

impl Model for At {
    ghost use Rattle.std.specs.Prelude.{ℕ, ◌<◌};
    ghost use Rattle.disk_model.specs.Contents.{most_bytes};

    ghost Value = { ℕ };

    ghost view = { λ at. at.place };

    ghost inverse = { λ place. record { place = place } };

    ghost invariant = { λ at. at.place < most_bytes };
}

impl At {
    pub(crate) fn new(place: u64) -> At
        requires { place < most_bytes }
        ensures { result ≡ place }
    {
        At { place }
    }

    /// The place.
    pub fn place(&self) -> u64
        ensures place { result ≡ self.now }
        ensures small { result < most_bytes }
    {
        self.place
    }
}
