//! Laws of peaks: theorems about the definitions, each the contract of a function that does
//! nothing.

ghost use Rattle.iceberg_peak.specs.PeakLaws.{ShowsSomething, FillsStepTheNumber, NextPeakComes, PeaksHoldWhatIsLeft};

/// An open iceberg shows at least one lot, and at most what is left of it and one peak.
pub fn open_iceberg_shows_something()
    ensures { ShowsSomething }
{}

/// A fill of some of what shows moves on to the next peak exactly where all that is filled is then
/// a multiple of the peak, and else leaves the showing peak its number. A fill of all that shows
/// leaves nothing of the order, or moves on to the next peak.
pub fn filled_peak_makes_way_for_the_next()
    ensures steps { FillsStepTheNumber }
    ensures next { NextPeakComes }
{}

/// What is left of all peaks together is what is left of the order.
pub fn peaks_hold_what_is_left()
    ensures { PeaksHoldWhatIsLeft }
{}
