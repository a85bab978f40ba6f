//! Laws of pours and of trees of routes: theorems about the definitions, the contracts of functions that do
//! nothing.

ghost use Rattle.route_choice.specs.Flow.{NoFlowCarriesMore};
ghost use Rattle.route_choice.specs.Freshness.{FreshSearchesExclude, LegsKeepExclusion, ShortLegsKeepSearches};
ghost use Rattle.route_choice.specs.Poured.{PoursRunToTheirEnd};

/// However lots may be made to flow within the rooms, over whatever routes and in whatever parts,
/// no more of them reach the last zone than a pour brings there.
pub fn no_flow_carries_more()
    ensures { NoFlowCarriesMore }
{}

/// The legs of a pour are the one run to its end: each is the next one over the rooms that those
/// before it leave, and after the last there is none.
pub fn pours_run_to_their_end()
    ensures { PoursRunToTheirEnd }
{}

/// A leg over a shortest route that leaves room on each arc of it, as one over a best route may,
/// changes no distance to its end and no best route into it, and no distance from its start and no
/// best route out of it: the opposite arcs, which gain room, lead from nearer to farther.
pub fn short_legs_keep_searches()
    ensures { ShortLegsKeepSearches }
{}

/// Between a zone to which a fresh tree tells no route and that of the tree none leads.
pub fn fresh_searches_exclude()
    ensures { FreshSearchesExclude }
{}

/// What a tree excludes stays out of reach after each leg that is carried to the tree's own zone (or
/// from it, where the tree is not `towards`), whether the tree is still fresh or not.
pub fn legs_keep_exclusion()
    ensures { LegsKeepExclusion }
{}
