//! Zones reached and bounds on small grids.

use crate::made::{expect_equal, rooms_over};
use cut_proof::{border_bound, reach};
use std::process::Abort;
use std::test::Fail;
use tests_of_shared_grids::{diamond, ring_of_twelve};
use zone_graph::{Grid, Zones};

// The zones reached towards a zone, or from it, over these rooms are the wanted ones.
fn expect_zones(
    rt: &(impl Abort + AllocGlobal),
    grid: &Grid,
    room: &[(u32, u32)],
    asked: (u32, bool),
    want: &[u32],
) {
    let rooms = rooms_over(rt, grid, room);
    let (zone, towards) = asked;
    if zone >= grid.zones() {
        rt.panic("no such zone");
    }
    let reached = reach(rt.alloc(), grid, &rooms, zone, towards).expect(rt, "memory");
    expect_equal(rt, &reached.as_slice(), &want, &asked);
}

// The bounds of zones over these rooms are the wanted ones, into them and out of them.
fn expect_bounds_of(
    rt: &(impl Abort + AllocGlobal),
    grid: &Grid,
    room: &[(u32, u32)],
    zones: &[u32],
    want: (u64, u64),
) {
    let rooms = rooms_over(rt, grid, room);
    let count = grid.zones();
    let zones = Zones::from(Vec::from_slice(rt.alloc(), zones).expect(rt, "memory"));
    if zones.as_slice().iter().any(|zone| *zone >= count) {
        rt.panic("no such zone");
    }
    let entering = border_bound(grid, &rooms, &zones, true);
    let leaving = border_bound(grid, &rooms, &zones, false);
    expect_equal(rt, &(entering, leaving), &want, &zones.as_slice());
}

// The room of each border of the diamond, forward and backward.
const SOME_ROOM: [(u32, u32); 4] = [(8, 0), (0, 0), (0, 9), (5, 4)];

const MUCH_ROOM: [(u32, u32); 4] = [(1, 2), (10, 20), (100, 200), (1000, u32::MAX)];

// A zone, whether towards it, and the zones reached.
type Reached<'a> = ((u32, bool), &'a [u32]);

const REACHED: [Reached; 6] = [
    ((3, true), &[2, 3]),
    ((1, true), &[0, 1, 2, 3]),
    ((0, true), &[0]),
    ((3, false), &[1, 2, 3]),
    ((1, false), &[1]),
    ((0, false), &[0, 1]),
];

// Each case reaches its zones over some rooms.
fn expect_reached(
    rt: &(impl Abort + AllocGlobal),
    grid: &Grid,
    room: &[(u32, u32)],
    cases: &[Reached],
) {
    for (asked, want) in cases {
        expect_zones(rt, grid, room, *asked, want);
    }
}

#[test]
fn routes_of_a_diamond_lead_to_zones_and_from_them(rt: HostRuntime) -> Result<(), Fail> {
    let grid = diamond(rt.alloc())?;
    expect_reached(&rt, &grid, &SOME_ROOM, &REACHED);
    Ok(())
}

// Zones, and their bounds, into them and out of them.
type Bounds<'a> = (&'a [u32], (u64, u64));

const SOME_BOUNDS: [Bounds; 2] = [(&[2, 3], (0, 9)), (&[1, 2, 3], (8, 0))];

const MUCH_BOUNDS: [Bounds; 5] = [
    (&[2, 3], (110, 220)),
    (&[3, 2], (110, 220)),
    (&[3], (1100, 4294967495)),
    (&[], (0, 0)),
    (&[0, 1, 2, 3], (0, 0)),
];

// Each case has its bounds over some rooms.
fn expect_bounds(
    rt: &(impl Abort + AllocGlobal),
    grid: &Grid,
    room: &[(u32, u32)],
    cases: &[Bounds],
) {
    for (zones, want) in cases {
        expect_bounds_of(rt, grid, room, zones, *want);
    }
}

#[test]
fn bounds_count_the_arcs_of_one_direction(rt: HostRuntime) -> Result<(), Fail> {
    let grid = diamond(rt.alloc())?;
    expect_bounds(&rt, &grid, &SOME_ROOM, &SOME_BOUNDS);
    expect_bounds(&rt, &grid, &MUCH_ROOM, &MUCH_BOUNDS);
    Ok(())
}

// Rooms of so many lots on the forward arcs and on the backward arcs of the ring, but none on the
// border that closes it, where it is cut.
fn rooms_of_ring(room: (u32, u32), is_cut: bool) -> [(u32, u32); 20] {
    let mut rooms = [room; 20];
    if is_cut {
        rooms[11] = (0, 0);
    }
    rooms
}

const ALL_ZONES: [u32; 12] = [0, 1, 2, 3, 4, 5, 6, 7, 8, 9, 10, 11];

const REACHED_ON_THE_RING: [Reached; 1] = [((9, true), &ALL_ZONES)];

const REACHED_WHERE_IT_IS_CUT: [Reached; 2] = [
    ((6, true), &[0, 1, 2, 3, 4, 5, 6]),
    ((6, false), &[6, 7, 8, 9, 10, 11]),
];

#[test]
fn a_ring_of_twelve_zones_with_eight_chords(rt: HostRuntime) -> Result<(), Fail> {
    let grid = ring_of_twelve(rt.alloc())?;
    let all = rooms_of_ring((7, 5), false);
    let cut = rooms_of_ring((7, 0), true);
    expect_reached(&rt, &grid, &all, &REACHED_ON_THE_RING);
    expect_reached(&rt, &grid, &cut, &REACHED_WHERE_IT_IS_CUT);
    expect_bounds_of(&rt, &grid, &all, &[0, 1, 2, 3, 4, 5], (32, 40));
    Ok(())
}
