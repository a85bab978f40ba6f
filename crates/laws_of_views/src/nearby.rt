//! Laws of what is near: theorems about the definitions, the contracts of functions that do nothing.

ghost use Rattle.laws_of_views.specs.Nearby.{ReachChangesNearby, RoutesDependOnWhatIsReached, RoutesDependOnWhatReaches, ViewsChangeNearby};

/// The best route to a zone depends only on the rooms of the arcs that lead to zones which reach it.
pub fn routes_depend_on_what_reaches()
    ensures { RoutesDependOnWhatReaches }
{}

/// The best route from a zone depends only on the rooms of the arcs that lead from zones which it
/// reaches.
pub fn routes_depend_on_what_is_reached()
    ensures { RoutesDependOnWhatIsReached }
{}

/// Two lists of events that differ in some zones alone, none of which was in reach of a zone, have the
/// same zones in reach of it.
pub fn reach_changes_nearby()
    ensures { ReachChangesNearby }
{}

/// And they have the same view at that zone: of the same makers, at the same prices, for the same lots.
pub fn views_change_nearby()
    ensures { ViewsChangeNearby }
{}
