//! Lists, words, names and grids: each call that takes memory once with ample memory.

ghost use Rattle.std.specs.Prelude.{◌≡◌, ◌<◌, ◌&&◌, true, length, nat_lt};
ghost use Rattle.std.specs.List.{list_all};
ghost use Rattle.zone_graph.specs.Graph.{border_count};

use crate::made::{expect, expect_copied, made, put, word};
use std::alloc::Global;
use std::process::Abort;
use tests_of_shared_grids::{diamond, rooms_of};
use zone_graph::{
    Arc, Grid, GridFault, Legs, Names, Neighbour, Pairs, Rooms, Route, RouteLeg, Text, Word,
    is_name,
};

#[test]
fn a_word_holds_its_bytes_and_is_copied(rt: HostRuntime) {
    let word = word(&rt, rt.alloc(), b"replay");
    assert_eq!(rt; word.bytes(), b"replay".as_slice());
    expect_copied(&rt, &word);
}

#[test]
fn a_text_holds_its_bytes(rt: HostRuntime) {
    let text = Text::new(rt.alloc(), b"one line\n").expect(&rt, "memory");
    assert_eq!(rt; text.bytes(), b"one line\n".as_slice());
}

#[test]
fn a_list_of_legs_is_copied(rt: HostRuntime) {
    let arc = Arc::over(3, false);
    let mut route = Route::new(rt.alloc());
    put(&rt, &mut route, arc);
    let mut legs = Legs::new(rt.alloc());
    put(&rt, &mut legs, RouteLeg { route, lots: 40 });
    assert_eq!(rt; legs.len(), 1);
    expect_copied(&rt, &legs);
}

// Bytes, and whether they are a name.
const NAMES: [(&[u8], bool); 10] = [
    (b"DE", true),
    (b"a-z_09", true),
    (b"sixteen_bytes_16", true),
    (b"seventeen_bytes_x", false),
    (b"", false),
    (b"D E", false),
    (b"DE>FR", false),
    (b"\xc3\xa9", false),
    (b"[", false),
    (b"/", false),
];

#[test]
fn names_are_of_letters_digits_underscores_and_hyphens(rt: HostRuntime) {
    for (bytes, want) in NAMES.as_slice() {
        expect(&rt, bytes, is_name(bytes), *want);
    }
}

// These names, as words.
fn names_of(rt: &impl Abort, alloc: Global, names: &[&[u8]]) -> Names
    ensures { length result ≡ length names.now }
{
    let mut zones = Names::new(alloc);
    for name in names {
        put(rt, &mut zones, word(rt, alloc, name));
    }
    zones
}

// Why there is no grid of these zones and borders.
fn fault_of<R: Abort + AllocGlobal>(
    rt: &R,
    names: &[&[u8]],
    pairs: &[(u32, u32)],
) -> Option<GridFault>
    requires { list_all (λ ends. nat_lt ends.0 (length names.now) && nat_lt ends.1 (length names.now)) pairs.now ≡ true }
{
    let zones = names_of(rt, rt.alloc(), names);
    let borders = Pairs::from(Vec::from_slice(rt.alloc(), pairs).expect(rt, "memory"));
    Grid::new(rt.alloc(), &zones, &borders).err()
}

#[test]
fn a_grid_has_few_zones_and_borders_of_which_no_two_are_alike(rt: HostRuntime) {
    let two = [b"A".as_slice(), b"B"];
    let many_zones = fault_of(&rt, &[b"A".as_slice(); 65], &[]);
    assert_eq!(rt; many_zones, Some(GridFault::TooManyZones));
    let twice = fault_of(&rt, &[b"A".as_slice(), b"B", b"A"], &[(0, 0)]);
    assert_eq!(rt; twice, Some(GridFault::ZoneTwice));
    let many_borders = fault_of(&rt, &two, &[(0, 1); 129]);
    assert_eq!(rt; many_borders, Some(GridFault::TooManyBorders));
    let itself = fault_of(&rt, &two, &[(0, 1), (1, 0), (1, 1)]);
    assert_eq!(rt; itself, Some(GridFault::SelfBorder));
    let again = fault_of(&rt, &two, &[(0, 1), (1, 0)]);
    assert_eq!(rt; again, Some(GridFault::BorderTwice));
}

// The arc of a grid from a zone to another, if one goes there.
const ARCS: [(u32, u32, Option<Arc>); 6] = [
    (
        0,
        1,
        Some(Arc {
            border: 0,
            forward: true,
        }),
    ),
    (
        3,
        2,
        Some(Arc {
            border: 3,
            forward: false,
        }),
    ),
    (0, 3, None),
    (1, 1, None),
    (4, 0, None),
    (0, 4, None),
];

fn expect_arcs(rt: &impl Abort, grid: &Grid) {
    for (from, to, arc) in ARCS.as_slice() {
        expect(rt, &(*from, *to), grid.arc(*from, *to), *arc);
    }
}

// The arcs towards the last zone of the diamond.
const TOWARDS: [Neighbour; 2] = [
    Neighbour {
        arc: Arc {
            border: 2,
            forward: false,
        },
        zone: 1,
    },
    Neighbour {
        arc: Arc {
            border: 3,
            forward: false,
        },
        zone: 2,
    },
];

// A name has this zone of a grid.
fn expect_zone(rt: &impl Abort, alloc: Global, grid: &Grid, name: &[u8], zone: Option<u32>) {
    let named = word(rt, alloc, name);
    expect(rt, &named, grid.zone_named(&named), zone);
}

// An arc goes from a zone to another.
fn expect_ends(rt: &impl Abort, grid: &Grid, arc: Arc, ends: (u32, u32))
    requires { arc.border < border_count grid.now }
{
    expect(rt, &arc, grid.ends(arc), ends);
}

#[test]
fn borders_and_arcs_are_found_in_a_grid(rt: HostRuntime) {
    let grid = made(&rt, diamond(rt.alloc()));
    expect_ends(&rt, &grid, Arc::over(2, true), (1, 3));
    expect_ends(&rt, &grid, Arc::over(2, false), (3, 1));
    assert_eq!(rt; grid.neighbours(3), TOWARDS.as_slice());
    expect_arcs(&rt, &grid);
}

#[test]
fn zones_are_found_in_a_grid(rt: HostRuntime) {
    let grid = made(&rt, diamond(rt.alloc()));
    assert_eq!(rt; (grid.zones(), grid.borders()), (4, 4));
    expect_zone(&rt, rt.alloc(), &grid, b"AC", Some(2));
    expect_zone(&rt, rt.alloc(), &grid, b"C", None);
    expect_zone(&rt, rt.alloc(), &grid, b"ACC", None);
}

// An arc has this room.
fn expect_room(rt: &impl Abort, rooms: &Rooms, arc: Arc, lots: u32)
    requires { arc.border < length rooms.now }
{
    expect(rt, &arc, rooms.at(arc), lots);
}

#[test]
fn each_arc_has_a_room_of_its_own(rt: HostRuntime) {
    let grid = made(&rt, diamond(rt.alloc()));
    let mut rooms = made(&rt, rooms_of(&grid, &[(0, 0), (5, 9), (0, 0), (0, 0)]));
    let other = made(&rt, rooms_of(&grid, &[(0, 0), (7, 6), (0, 0), (8, 0)]));
    rooms.least_with(&other);
    expect_room(&rt, &rooms, Arc::over(1, true), 5);
    expect_room(&rt, &rooms, Arc::over(1, false), 6);
    expect_room(&rt, &rooms, Arc::over(3, true), 0);
}

#[test]
fn an_arc_goes_back_over_its_border_and_a_fault_is_said_in_words(rt: HostRuntime) {
    assert_eq!(rt; Arc::over(2, true).opposite(), Arc::over(2, false));
    assert_eq!(rt; Arc::over(2, false).opposite(), Arc::over(2, true));
    let said = format!(in rt.alloc(); "{}; {}", GridFault::ZoneTwice, GridFault::NoMemory);
    let said = said.expect(&rt, "memory");
    assert_eq!(rt; said.as_str(), "two zones of the same name; no memory");
}
