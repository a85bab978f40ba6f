//! Laws of takings: theorems about the definitions, the contracts of functions that do nothing.

ghost use Rattle.laws_of_boards.specs.Behind.{FillsStayBehind, FillsStayInTheirLine};
ghost use Rattle.laws_of_boards.specs.Walking.{TakersPassForGood};

/// Whom a taker cannot trade with before one of its legs, it cannot trade with after it: the price of its
/// showing peak gets no better for the other, and no zone comes into its reach.
pub fn takers_pass_for_good()
    ensures { TakersPassForGood }
{}

/// A fill of an order of a book leaves what stands in front of it in its line: the order keeps its place,
/// or leaves, or stands further back with its next peak.
pub fn fills_stay_behind()
    ensures { FillsStayBehind }
{}

/// And it leaves every other line as it was.
pub fn fills_stay_in_their_line()
    ensures { FillsStayInTheirLine }
{}
