//! What is settled: theorems about the definitions, the contracts of functions that do nothing.

ghost use Rattle.laws_of_boards.specs.Settled.{SettledHoursAreQuiet, UncrossedHoursAreSettled};

/// After a history that leaves no two open orders of one contract to trade, no contract of an hour has a
/// leg, no two of its orders can trade and its sweep has no leg, by the hour's events alone.
pub fn uncrossed_hours_are_settled()
    ensures { UncrossedHoursAreSettled }
{}

/// So it is after a legal journal.
pub fn settled_hours_are_quiet()
    ensures { SettledHoursAreQuiet }
{}
