//! Where something is repeated, what is computed is the one run to the end.

ghost use Rattle.laws_of_market.specs.Repetitions.{DealsAreRuns, PoursAreRuns, SweepsAreRuns, TakingsAreRuns};

/// The legs of a taking are the one run of next legs: after the last there is none.
pub fn takings_are_runs()
    ensures { TakingsAreRuns }
{}

/// The legs of a sweep are the one run of next legs: after the last no pair of the hour can trade.
pub fn sweeps_are_runs()
    ensures { SweepsAreRuns }
{}

/// The legs of a block with its partner are the one run of next legs.
pub fn pours_are_runs()
    ensures { PoursAreRuns }
{}

/// The deals of a period's blocks are the one run of next deals.
pub fn deals_are_runs()
    ensures { DealsAreRuns }
{}
