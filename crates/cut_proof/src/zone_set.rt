//! A set of zones, in which one is found without going over a list.

ghost use Rattle.std.specs.Prelude.{◌≡◌, ◌<◌, All};
ghost use Rattle.cut_proof.specs.ZoneSet.{HoldsZones, holds};

/// A set of zones of a grid, of which there are 64 at most: a bit for each.
#[derive(Clone, Copy)]
pub(crate) struct ZoneSet {
    bits: u64,
}

impl ZoneSet {
    /// The set of these zones.
    pub(crate) fn of(zones: &[u32]) -> ZoneSet
        requires { All (λ zone. zone < 64) zones.now }
        ensures { HoldsZones result.bits zones.now }
    {
        let mut bits = 0u64;
        for zone in zones {
            bits |= 1 << *zone;
        }
        ZoneSet { bits }
    }

    /// Whether a zone is in the set.
    pub(crate) fn contains(self, zone: u32) -> bool
        requires { zone < 64 }
        ensures { result ≡ holds self.bits zone }
    {
        (self.bits >> zone) & 1 == 1
    }
}
