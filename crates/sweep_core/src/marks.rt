//! Marks of zones.

ghost use Rattle.std.specs.Prelude.{◌≡◌, ℕ, false};
ghost use Rattle.sweep_core.specs.Meeting as meeting;

use zone_graph::MOST_ZONES;

/// Marks of no zone.
pub(crate) fn no_marks() -> [bool; MOST_ZONES]
    ensures { (zone : ℕ) → meeting.is_marked result zone ≡ false }
{
    [false; MOST_ZONES]
}
