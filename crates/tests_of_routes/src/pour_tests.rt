//! What routes carry and pours go over, and the rooms that they leave.

ghost use Rattle.std.specs.Prelude.{◌≡◌, ◌<◌, length, nat_lt};
ghost use Rattle.std.specs.List.{list_all};

use crate::made::{expect_equal, made, rooms_over};
use cut_proof::{carried, carry};
use route_choice::pour;
use std::process::Abort;
use tests_of_shared_grids::{diamond, grid_of, legs_over, rooms_of_diamond};
use zone_graph::{Arc, Legs, Rooms};

// The rooms of the two arcs of a border.
fn both(rooms: &Rooms, border: u32) -> (u32, u32)
    requires { border < length rooms.now }
{
    (
        rooms.at(Arc::over(border, true)),
        rooms.at(Arc::over(border, false)),
    )
}

// A pour goes over these legs, with so many lots each.
fn expect_legs(
    rt: &(impl Abort + AllocGlobal),
    poured: &Legs,
    want: &[(&[Arc], u32)],
    case: (u32, u32, u32),
) {
    let wanted = legs_over(rt.alloc(), want).expect(rt, "memory");
    expect_equal(rt, poured, &wanted, &case);
}

// A pour of so many lots at most, between two zones of the diamond, goes over these legs and leaves
// these rooms.
fn expect_poured(
    rt: &(impl Abort + AllocGlobal),
    ends: (u32, u32),
    most: u32,
    legs: &[(&[Arc], u32)],
    left: [(u32, u32); 4],
) {
    let grid = made(rt, diamond(rt.alloc()));
    let mut rooms = made(rt, rooms_of_diamond(&grid));
    let (from, to) = ends;
    if from >= grid.zones() || to >= grid.zones() {
        rt.panic("no such zone");
    }
    let poured = pour(rt.alloc(), &grid, &mut rooms, from, to, most).expect(rt, "memory");
    expect_legs(rt, &poured, legs, (from, to, most));
    let after = [
        both(&rooms, 0),
        both(&rooms, 1),
        both(&rooms, 2),
        both(&rooms, 3),
    ];
    expect_equal(rt, &after, &left, &(from, to, most));
}

#[test]
fn a_pour_goes_over_one_route_after_another(rt: HostRuntime) {
    let before = [(6, 0), (5, 1), (8, 0), (4, 3)];
    let after = [(0, 6), (1, 5), (2, 6), (0, 7)];
    let one_side = [Arc::over(0, true), Arc::over(2, true)];
    let other_side = [Arc::over(1, true), Arc::over(3, true)];
    let both_sides = [(one_side.as_slice(), 6), (other_side.as_slice(), 4)];
    let back = [Arc::over(3, false), Arc::over(1, false)];
    for most in [10, 12, u32::MAX] {
        expect_poured(&rt, (0, 3), most, &both_sides, after);
    }
    // A part of the room, and the rest is left.
    let one_back = [(back.as_slice(), 1)];
    let rest = [(6, 0), (6, 0), (8, 0), (5, 2)];
    expect_poured(&rt, (3, 0), 2, &one_back, rest);
    // From a zone to itself, which takes no room.
    let at_home = [([].as_slice(), 9)];
    expect_poured(&rt, (1, 1), 9, &at_home, before);
    // Nothing.
    expect_poured(&rt, (0, 3), 0, &[], before);
}

// The rooms of four zones in a row, for each border forward and backward.
fn rooms_of_row(rt: &(impl Abort + AllocGlobal), pairs: [(u32, u32); 3]) -> Rooms
    ensures { length result ≡ 3 }
{
    let grid = made(rt, grid_of(rt.alloc(), 4, &[(0, 1), (1, 2), (2, 3)]));
    rooms_over(rt, &grid, &pairs)
}

// Whether each arc is over one of three borders.
fn are_of_the_row(route: &[Arc]) -> bool
    ensures { result ≡ list_all (λ arc. nat_lt arc.border 3) route.now }
{
    route.iter().all(|arc| arc.border < 3)
}

// What a route of the row can carry.
fn carried_along(rooms: &Rooms, lots: u32, route: &[Arc]) -> Option<u32>
    requires { length rooms.now ≡ 3 }
{
    if !are_of_the_row(route) {
        return None;
    }
    Some(carried(rooms, lots, route))
}

// Of so many lots a route of the row can carry these.
fn expect_carried(rt: &impl Abort, rooms: &Rooms, lots: u32, route: &[Arc], want: u32)
    requires { length rooms.now ≡ 3 }
{
    let found = carried_along(rooms, lots, route);
    expect_equal(rt, &found, &Some(want), &(lots, route));
}

#[test]
fn a_route_carries_the_least_of_the_lots_and_its_rooms(rt: HostRuntime) {
    let rooms = rooms_of_row(&rt, [(9, 1), (4, 8), (7, 6)]);
    let ahead = [Arc::over(0, true), Arc::over(1, true), Arc::over(2, true)];
    let back = [Arc::over(2, false), Arc::over(1, false)];
    for (route, lots, want) in [
        ([].as_slice(), 20, 20),
        (ahead.as_slice(), 20, 4),
        (ahead.as_slice(), 3, 3),
        (&ahead[..1], 20, 9),
        (back.as_slice(), 20, 6),
        (back.as_slice(), 0, 0),
    ] {
        expect_carried(&rt, &rooms, lots, route, want);
    }
}

// Carries few lots over two arcs, where both have room and few lots go back.
fn carry_over_both(rt: &impl Abort, rooms: &mut Rooms, first: Arc, second: Arc, lots: u32)
    requires { length rooms.old ≡ 3 }
    ensures { length rooms.new ≡ 3 }
{
    assert!(rt; first.border < 3 && second.border < 3 && first.border != second.border);
    let room = rooms.at(first).min(rooms.at(second));
    let back = rooms.at(first.opposite()).max(rooms.at(second.opposite()));
    assert!(rt; lots <= room && lots < 100 && back < 100);
    carry(rooms, &[first, second], lots);
}

// Lots that are carried over two arcs of the row leave these rooms.
fn expect_left(
    rt: &(impl Abort + AllocGlobal),
    arcs: (Arc, Arc),
    lots: u32,
    left: [(u32, u32); 3],
) {
    let mut rooms = rooms_of_row(rt, [(9, 1), (4, 8), (7, 6)]);
    carry_over_both(rt, &mut rooms, arcs.0, arcs.1, lots);
    let after = [both(&rooms, 0), both(&rooms, 1), both(&rooms, 2)];
    expect_equal(rt, &after, &left, &(lots, arcs));
}

#[test]
fn lots_that_are_carried_go_from_the_rooms_of_arcs_to_the_opposite_ones(rt: HostRuntime) {
    let ahead = (Arc::over(0, true), Arc::over(1, true));
    let back = (Arc::over(2, false), Arc::over(1, false));
    let nothing = (Arc::over(1, true), Arc::over(2, true));
    for (arcs, lots, left) in [
        (ahead, 4, [(5, 5), (0, 12), (7, 6)]),
        (back, 5, [(9, 1), (9, 3), (12, 1)]),
        (nothing, 0, [(9, 1), (4, 8), (7, 6)]),
    ] {
        expect_left(&rt, arcs, lots, left);
    }
}
