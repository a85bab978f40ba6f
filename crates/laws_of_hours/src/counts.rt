//! How many orders and blocks of an hour rest.

ghost use Rattle.laws_of_hours.specs.OpenCounts.{AllThatRestIsInTheBooks};

/// As many orders and blocks of an hour are open and not in hand as rest in its two books together: each
/// stands in one of them.
pub fn all_that_rests_is_in_the_books()
    ensures { AllThatRestIsInTheBooks }
{}
