//! Trees of routes that are asked for many routes, on a diamond.

ghost use Rattle.std.specs.Prelude.{◌≡◌, length};
ghost use Rattle.zone_graph.specs.Graph.{border_count, zone_count};

use crate::made::{expect_equal, rooms_over};
use route_choice::RouteTree;
use std::process::Abort;
use std::test::Fail;
use tests_of_shared_grids::diamond;
use zone_graph::{Arc, Grid, Rooms};

// The way over the lesser borders of the diamond, from its first zone to its last.
fn lesser_way() -> [Arc; 2] {
    [Arc::over(0, true), Arc::over(2, true)]
}

// A tree tells this route between its zone and another one.
fn expect_told(rt: &impl Abort, tree: &RouteTree, other: u32, wanted: &[Arc]) {
    if !tree.reaches(other) {
        rt.panic("no route");
    }
    let mut arcs = [Arc::over(0, false); 64];
    let count = tree.route_into(other, &mut arcs);
    expect_equal(rt, &&arcs[..count], &wanted, &other);
}

// Over rooms on the forward arcs alone, the trees of the last zone and of the first one tell the route between
// them, of two equal ways that over the lesser borders, and none leads from the last one.
fn expect_trees(rt: &(impl Abort + AllocGlobal), grid: &Grid) {
    let rooms = rooms_over(rt, grid, &[(7, 0); 4]);
    assert!(rt; grid.zones() == 4);
    let mut tree = RouteTree::new(grid, &rooms, 3, true);
    expect_told(rt, &tree, 0, &lesser_way());
    expect_told(rt, &tree, 2, &[Arc::over(3, true)]);
    tree.remake(grid, &rooms, 0, false);
    expect_told(rt, &tree, 3, &lesser_way());
    expect_told(rt, &tree, 0, &[]);
    tree.remake(grid, &rooms, 3, false);
    assert!(rt; !tree.reaches(0));
}

// A tree of the diamond's last zone, or of its first one, answers that way too.
fn expect_the_lesser_way(rt: &(impl Abort + AllocGlobal), grid: &Grid, rooms: &Rooms, towards: bool)
    requires zones { zone_count grid.now ≡ 4 }
    requires size { length rooms.now ≡ border_count grid.now }
{
    let (zone, other) = if towards { (3, 0) } else { (0, 3) };
    let tree = RouteTree::new(grid, rooms, zone, towards);
    let found = tree.route(rt.alloc(), grid, rooms, other);
    match found.expect(rt, "memory") {
        Some(route) => expect_equal(rt, &route.as_slice(), &&lesser_way()[..], &towards),
        None => panic!(rt; "no way, {towards}"),
    }
}

// Whether a tree of the diamond that was made over some rooms is fresh over later ones after a leg over its
// first arc, and after one over its third.
fn is_fresh_after_each(
    rt: &impl Abort,
    grid: &Grid,
    before: &Rooms,
    later: &[(u32, u32)],
) -> (bool, bool)
    requires zones { zone_count grid.now ≡ 4 }
    requires borders { border_count grid.now ≡ 4 }
    requires size { length before.now ≡ border_count grid.now }
{
    let after = rooms_over(rt, grid, later);
    let tree = RouteTree::new(grid, before, 3, true);
    (
        tree.is_fresh_after(&after, &[Arc::over(0, true)]),
        tree.is_fresh_after(&after, &[Arc::over(2, true)]),
    )
}

#[test]
fn trees_of_the_diamond_tell_the_best_routes(rt: HostRuntime) -> Result<(), Fail> {
    let grid = diamond(rt.alloc())?;
    expect_trees(&rt, &grid);
    Ok(())
}

#[test]
fn of_two_equal_ways_a_tree_answers_that_of_the_lesser_border(rt: HostRuntime) -> Result<(), Fail> {
    let grid = diamond(rt.alloc())?;
    let before = rooms_over(&rt, &grid, &[(7, 0); 4]);
    for towards in [true, false] {
        expect_the_lesser_way(&rt, &grid, &before, towards);
    }
    let with_room = is_fresh_after_each(&rt, &grid, &before, &[(1, 6), (7, 0), (1, 6), (7, 0)]);
    expect_equal(&rt, &with_room, &(true, true), &"with room");
    let used_up = is_fresh_after_each(&rt, &grid, &before, &[(1, 6), (7, 0), (0, 7), (7, 0)]);
    expect_equal(&rt, &used_up, &(true, false), &"used up");
    Ok(())
}
