//! Laws of routes: theorems about the definitions, each the contract of a function that does
//! nothing.

ghost use Rattle.zone_graph.specs.RouteLaws.{NoOtherBeatsIt, NoneWhereNoRouteIs, RoomsOfItsArcsDecide, RoutesReach};

/// The best route is the one route that no other beats: none has fewer arcs, and none of as many
/// has lexicographically lesser border numbers.
pub fn no_route_beats_the_best()
    ensures { NoOtherBeatsIt }
{}

/// There is no best route exactly where there is no route.
pub fn no_best_route_where_no_route_is()
    ensures { NoneWhereNoRouteIs }
{}

/// The best route depends on the rooms of the graph's own arcs alone.
pub fn rooms_of_arcs_decide_the_best_route()
    ensures { RoomsOfItsArcsDecide }
{}

/// A zone reaches another exactly where a route leads there.
pub fn zones_are_reached_by_routes()
    ensures { RoutesReach }
{}
