//! Distances and best routes on small grids.

ghost use Rattle.std.specs.Prelude.{◌≡◌, ◌&&◌, length, nat_lt};
ghost use Rattle.std.specs.List.{list_all};
ghost use Rattle.zone_graph.specs.Graph.{border_count, zone_count};

use crate::made::{expect_equal, rooms_over};
use cut_proof::{Distances, distances, reach};
use route_choice::best_route;
use std::alloc::Global;
use std::process::Abort;
use std::test::Fail;
use tests_of_shared_grids::{diamond, grid_of, ring_of_twelve};
use zone_graph::{Arc, Grid, Rooms, Route};

// Whether all borders join zones of so many.
fn join_zones(zones: u8, pairs: &[(u32, u32)]) -> bool
    ensures { result ≡ list_all (λ ends. nat_lt ends.0 zones && nat_lt ends.1 zones) pairs.now }
{
    let zones = u32::from(zones);
    pairs.iter().all(|ends| ends.0 < zones && ends.1 < zones)
}

// A border, and whether an arc goes over it forward.
type Way = (u32, bool);

// 7 lots, or none on an arc that is closed.
fn room_but(way: Way, closed: &[Way]) -> u32 {
    if closed.contains(&way) { 0 } else { 7 }
}

// Rooms of 7 lots on each arc, but for those that are closed.
fn rooms_but(rt: &impl Abort, grid: &Grid, closed: &[Way]) -> Rooms
    ensures { length result ≡ border_count grid.now }
{
    let mut rooms = Rooms::new(grid).expect(rt, "memory");
    let borders = grid.borders();
    for border in 0..borders {
        rooms.set(Arc::over(border, true), room_but((border, true), closed));
        rooms.set(Arc::over(border, false), room_but((border, false), closed));
    }
    rooms
}

// The route over these arcs.
fn route_over(rt: &(impl Abort + AllocGlobal), ways: &[Way]) -> Route {
    let mut route = Route::new(rt.alloc());
    for (border, forward) in ways {
        let arc = Arc::over(*border, *forward);
        route.push(arc).expect(rt, "memory");
    }
    route
}

// A route is that over these arcs, or there is none where none is wanted.
fn expect_ways(
    rt: &(impl Abort + AllocGlobal),
    route: &Option<Route>,
    want: Option<&[Way]>,
    ends: (u32, u32),
) {
    let wanted = match want {
        Some(ways) => Some(route_over(rt, ways)),
        None => None,
    };
    expect_equal(rt, route, &wanted, &ends);
}

// The best route between two zones is the wanted one.
fn expect_route(
    rt: &(impl Abort + AllocGlobal),
    grid: &Grid,
    closed: &[Way],
    ends: (u32, u32),
    want: Option<&[Way]>,
) {
    let rooms = rooms_but(rt, grid, closed);
    let (from, to) = ends;
    if from >= grid.zones() || to >= grid.zones() {
        rt.panic("no such zone");
    }
    let best = best_route(rt.alloc(), grid, &rooms, from, to).expect(rt, "memory");
    expect_ways(rt, &best, want, ends);
}

// Arcs without room, two zones, and the best route from the first to the second.
type Best<'a> = (&'a [Way], (u32, u32), Option<&'a [Way]>);

const BEST: [Best; 6] = [
    (&[], (0, 3), Some(&[(0, true), (2, true)])),
    (&[(2, true)], (0, 3), Some(&[(1, true), (3, true)])),
    (&[(2, true)], (3, 0), Some(&[(2, false), (0, false)])),
    (
        &[(0, true)],
        (0, 1),
        Some(&[(1, true), (3, true), (2, false)]),
    ),
    (&[(0, true), (1, true)], (0, 3), None),
    (&[(0, true), (1, true)], (0, 0), Some(&[])),
];

// The best routes of some cases are those that are wanted.
fn expect_best(rt: &(impl Abort + AllocGlobal), grid: &Grid, cases: &[Best]) {
    for (closed, ends, want) in cases {
        expect_route(rt, grid, closed, *ends, *want);
    }
}

#[test]
fn ties_go_to_the_lesser_border_and_arcs_without_room_are_left_out(
    rt: HostRuntime,
) -> Result<(), Fail> {
    let grid = diamond(rt.alloc())?;
    expect_best(&rt, &grid, &BEST);
    Ok(())
}

const BEST_OF_THE_RING: [Best; 2] = [
    (&[], (0, 6), Some(&[(0, true), (1, true), (14, true)])),
    (&[], (9, 2), Some(&[(9, true), (18, false), (14, false)])),
];

#[test]
fn routes_of_a_ring_of_twelve_zones_with_eight_chords(rt: HostRuntime) -> Result<(), Fail> {
    let grid = ring_of_twelve(rt.alloc())?;
    expect_best(&rt, &grid, &BEST_OF_THE_RING);
    Ok(())
}

// How many zones are reached towards a zone, or from it.
fn count_reached(
    rt: &(impl Abort + AllocGlobal),
    grid: &Grid,
    closed: &[Way],
    zone: u32,
    towards: bool,
) -> usize {
    assert!(rt; zone < grid.zones());
    let rooms = rooms_but(rt, grid, closed);
    let reached = reach(rt.alloc(), grid, &rooms, zone, towards);
    reached.expect(rt, "memory").len()
}

// Eight rows of eight zones each, of which each is joined with the next of its row and with the next of
// its column, and the last with the first.
fn sixty_four_zones(alloc: Global) -> Result<Grid, Fail> {
    let mut pairs = [(0, 0); 128];
    for zone in 0..64u32 {
        let place = 2 * zone as usize;
        pairs[place] = (zone, zone / 8 * 8 + (zone + 1) % 8);
        pairs[place + 1] = (zone, (zone + 8) % 64);
    }
    if !join_zones(64, &pairs) {
        return Err(Fail::from("no zone"));
    }
    grid_of(alloc, 64, &pairs)
}

const BEST_OF_SIXTY_FOUR: [Best; 1] = [(
    &[],
    (0, 36),
    Some(&[
        (0, true),
        (2, true),
        (4, true),
        (6, true),
        (9, true),
        (25, true),
        (41, true),
        (57, true),
    ]),
)];

// All arcs into the first zone.
const INTO_THE_FIRST: [Way; 4] = [(0, false), (1, false), (14, true), (113, true)];

#[test]
fn a_route_through_a_grid_of_sixty_four_zones(rt: HostRuntime) -> Result<(), Fail> {
    let grid = sixty_four_zones(rt.alloc())?;
    expect_best(&rt, &grid, &BEST_OF_SIXTY_FOUR);
    assert_eq!(rt; count_reached(&rt, &grid, &[], 36, true), 64);
    // Over no arc into the first zone is it reached, yet it reaches all.
    assert_eq!(rt; count_reached(&rt, &grid, &INTO_THE_FIRST, 0, true), 1);
    assert_eq!(rt; count_reached(&rt, &grid, &INTO_THE_FIRST, 0, false), 64);
    Ok(())
}

// The distances, in one direction, of a diamond of four zones whose arcs have room along the way
// 2 0 1 3 alone.
fn on_the_diamond(rt: &impl Abort, grid: &Grid, zone: u32, towards: bool) -> Distances
    requires { zone_count grid.now ≡ 4 }
{
    let rooms = rooms_over(rt, grid, &[(7, 0), (0, 7), (7, 0), (0, 0)]);
    assert!(rt; zone < 4);
    distances(grid, &rooms, zone, towards)
}

// The distances of the four zones, and of none behind them, are those that are wanted.
fn expect_distances(rt: &impl Abort, grid: &Grid, asked: (u32, bool), want: [Option<u32>; 5])
    requires { zone_count grid.now ≡ 4 }
{
    let found = on_the_diamond(rt, grid, asked.0, asked.1);
    expect_equal(rt, &&found[..5], &want.as_slice(), &asked);
}

#[test]
fn distances_follow_the_direction_of_the_arcs(rt: HostRuntime) -> Result<(), Fail> {
    let grid = diamond(rt.alloc())?;
    let to_the_last = [Some(2), Some(1), Some(3), Some(0), None];
    expect_distances(&rt, &grid, (3, true), to_the_last);
    let from_the_last = [None, None, None, Some(0), None];
    expect_distances(&rt, &grid, (3, false), from_the_last);
    let from_the_third = [Some(1), Some(2), Some(0), Some(3), None];
    expect_distances(&rt, &grid, (2, false), from_the_third);
    Ok(())
}
