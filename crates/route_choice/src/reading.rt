//! How routes are read off the steps of a tree.

ghost use Rattle.std.specs.Prelude.{◌≡◌, ◌<◌, true, false, length, ℕ};
ghost use Rattle.route_choice.specs.Search.{step_at};
ghost use Rattle.route_choice.specs.Tree.{route_along};

use zone_graph::{Arc, Neighbour};

/// Writes the arcs of the route that leads from a zone to the tree's own: that of its step first.
pub(crate) fn read_towards(steps: &[Neighbour], other: u32, route: &mut [Arc])
    requires places { length steps.now ≡ 64 }
    requires zone { other < 64 }
    requires within { (zone : ℕ) → (step_at steps.now zone).zone < 64 }
    ensures { route.new ≡ route_along steps.now true (length route.old) other }
{
    let mut zone = other;
    for arc in route.iter_mut() {
        let step = steps[zone as usize];
        *arc = step.arc;
        zone = step.zone;
    }
}

/// Writes the arcs of the route that leads to a zone from the tree's own: that of its step last.
pub(crate) fn read_from(steps: &[Neighbour], other: u32, route: &mut [Arc])
    requires places { length steps.now ≡ 64 }
    requires zone { other < 64 }
    requires within { (zone : ℕ) → (step_at steps.now zone).zone < 64 }
    ensures { route.new ≡ route_along steps.now false (length route.old) other }
{
    let mut zone = other;
    let mut place = route.len();
    while place > 0 {
        place -= 1;
        let step = steps[zone as usize];
        route[place] = step.arc;
        zone = step.zone;
    }
}
