//! Sets of the parts of an hour.

ghost use Rattle.std.specs.Prelude.{◌≡◌, ℕ, ◌<◌, ◌==◌, false, true, if◌then◌else◌};
ghost use Rattle.sweep_core.specs.Parts.{has_part};

/// A set of parts of an hour, by their numbers: 0 is the hour, 1 to 4 are its quarters, 5 and 6 its
/// halves.
#[derive(Clone, Copy, Debug, PartialEq, Eq)]
pub struct PartSet {
    /// Whether each part is in it, by its number.
    pub parts: [bool; 7],
}

impl PartSet {
    /// The set of all parts.
    pub fn all() -> PartSet
        ensures { (part : ℕ) → part < 7 → has_part result part ≡ true }
    {
        PartSet { parts: [true; 7] }
    }

    /// Whether a part is in it.
    pub fn contains(self, part: u32) -> bool
        requires { part < 7 }
        ensures { result ≡ has_part self part }
    {
        self.parts[part as usize]
    }

    /// The set with one more part.
    pub fn with(self, part: u32) -> PartSet
        requires { part < 7 }
        ensures { (other : ℕ) → has_part result other ≡ (if other == part then true else has_part self other) }
    {
        let mut parts = self.parts;
        parts[part as usize] = true;
        PartSet { parts }
    }

    /// The set without a part.
    pub fn without(self, part: u32) -> PartSet
        requires { part < 7 }
        ensures { (other : ℕ) → has_part result other ≡ (if other == part then false else has_part self other) }
    {
        let mut parts = self.parts;
        parts[part as usize] = false;
        PartSet { parts }
    }
}
