//! Ways from a zone to all others, and the zones to which all that these show can come over them together.

ghost use Rattle.std.specs.Prelude.{◌≡◌, ◌<◌, ◌≤◌, ℕ, IfErr, IfOk, List, OnOk, false, length, slice_index_or, true};
ghost use Rattle.cut_proof.specs.ZoneSet.{holds};
ghost use Rattle.zone_graph.specs.Graph.{Graph, HasZone, border_count};
ghost use Rattle.zone_graph.specs.Rooms.{room_of};
ghost use Rattle.local_view.specs.Ways.{AreFound, AreWays, ComeTogether, HasWays, IsBringing, IsSpread, over};

use market_model::Side;
use zone_graph::{Arc, Grid, MOST_ZONES, Rooms};

// From how many zones ways are tried.
const MOST_ROOTS: u32 = 4;

/// The zones to which all that the zones show comes together over one tree of ways; it may leave some out. The ways are those
/// that were found before, where they are from the same zone. Bit z stands for zone z.
pub(crate) fn whole_zones(
    grid: &Grid,
    rooms: &Rooms,
    side: Side,
    shown: &[u32; MOST_ZONES],
    ways: &mut Ways,
) -> u64
    requires size { length rooms.now ≡ border_count grid.now }
    requires ways { HasWays grid.now ways.old }
    ensures together { (zone : ℕ) → HasZone grid.now zone → holds result zone ≡ true → ComeTogether grid.now (room_of rooms.now) side zone shown.now }
    ensures ways { HasWays grid.now ways.new }
{
    let zones = grid.zones();
    if zones == 0 {
        return 0;
    }
    let mut root = zone_of_most(shown, zones);
    for _ in 0..MOST_ROOTS {
        match whole_around(grid, rooms, side, root, shown, ways) {
            Ok(whole) => return whole,
            Err(beyond) => root = beyond,
        }
    }
    0
}

// The first of the zones that show most.
fn zone_of_most(shown: &[u32], zones: u32) -> u32
    requires some { 0 < zones }
    requires places { zones ≤ length shown.now }
    ensures { result < zones }
{
    let mut most = 0;
    let mut lots = shown[0];
    for zone in 1..zones {
        let own = shown[zone as usize];
        if own > lots {
            most = zone;
            lots = own;
        }
    }
    most
}

// The zones to which all comes over the ways from a root. Where an arc of these has too little room for what lies beyond
// it, all can only come to zones beyond it: then `Err` has one of them.
fn whole_around(
    grid: &Grid,
    rooms: &Rooms,
    side: Side,
    root: u32,
    shown: &[u32; MOST_ZONES],
    ways: &mut Ways,
) -> Result<u64, u32>
    requires zone { HasZone grid.now root }
    requires size { length rooms.now ≡ border_count grid.now }
    requires ways { HasWays grid.now ways.old }
    ensures ways { HasWays grid.now ways.new }
    ensures whole { IfOk result (λ whole. (zone : ℕ) → HasZone grid.now zone → holds whole zone ≡ true → ComeTogether grid.now (room_of rooms.now) side zone shown.now) }
    ensures beyond { IfErr result (λ zone. HasZone grid.now zone) }
{
    let zones = grid.zones();
    prove!(root < zones);
    ways.lead_from(grid, root);
    let (list, count) = (&ways.list, ways.count);
    let mut load = *shown;
    let mut loads = [0; MOST_ZONES];
    bring_all(grid, rooms, side, list, count, &mut load, &mut loads)?;
    let all = load[root as usize];
    load[root as usize] = 0;
    if has_lots(&load) {
        return Ok(0);
    }
    Ok(spread(grid, rooms, side, list, &loads, root, all, count))
}

// An arc that leads from a zone that was found before to one that was not.
#[derive(Clone, Copy)]
struct Way {
    arc: Arc,
    near: u32,
    far: u32,
}

// What stands in the places behind the last way.
const NO_WAY: Way = Way {
    arc: Arc {
        border: 0,
        forward: false,
    },
    near: 0,
    far: 0,
};

/// The ways from a root to all zones that borders join with it, where there is one.
#[derive(Drop)]
pub(crate) struct Ways {
    root: Option<u32>,
    list: [Way; MOST_ZONES],
    // How many of the list they are.
    count: usize,
}

impl Ways {
    /// None, from no root.
    pub(crate) fn none() -> Ways
        ensures { (graph : Graph) → HasWays graph result }
    {
        Ways {
            root: None,
            list: [NO_WAY; MOST_ZONES],
            count: 0,
        }
    }

    // Has them lead from a root, if they do not yet.
    fn lead_from(&mut self, grid: &Grid, root: u32)
        requires zone { HasZone grid.now root }
        requires ways { HasWays grid.now self.old }
        ensures { HasWays grid.now self.new }
    {
        if self.root != Some(root) {
            self.count = find_ways(grid, root, &mut self.list);
            self.root = Some(root);
        }
    }
}

// Finds ways from a root to those zones that borders join it with and on from there, the nearest first, whatever rooms
// the arcs have. Answers how many there are.
fn find_ways(grid: &Grid, root: u32, ways: &mut [Way]) -> usize
    requires zone { HasZone grid.now root }
    requires places { length ways.old ≡ 64 }
    ensures { AreWays grid.now ways.new result }
{
    let zones = grid.zones();
    prove!(root < zones);
    let mut found = [false; MOST_ZONES];
    found[root as usize] = true;
    let mut count = lead_on(grid, root, ways, 0, &mut found);
    let mut done = 0;
    while done < count && count + 1 < zones as usize {
        count = lead_on(grid, ways[done].far, ways, count, &mut found);
        done += 1;
    }
    count
}

// Adds the ways from a zone that is found to those that are not found yet. Answers how many there are now.
fn lead_on(grid: &Grid, zone: u32, ways: &mut [Way], so_far: usize, found: &mut [bool]) -> usize
    requires zone { HasZone grid.now zone }
    requires begun { slice_index_or found.old zone false ≡ true }
    requires found { AreFound grid.now ways.old so_far found.old }
    ensures found { AreFound grid.now ways.new result found.new }
{
    let zones = grid.zones();
    prove!(zone < zones);
    let mut count = so_far;
    for neighbour in grid.neighbours(zone) {
        let to = neighbour.zone as usize;
        if !found[to] {
            found[to] = true;
            ways[count] = Way {
                arc: neighbour.arc,
                near: zone,
                far: neighbour.zone,
            };
            count += 1;
        }
    }
    count
}

// Brings all that the zones show over ways to the root, from the farthest zone inwards: `load` says what is where, and
// `loads` what came over each way. Buys go the other way, from the root. Where an arc has too little room for what comes
// over it, `Err` has the zone beyond it.
fn bring_all(
    grid: &Grid,
    rooms: &Rooms,
    side: Side,
    ways: &[Way],
    count: usize,
    load: &mut [u32],
    loads: &mut [u32],
) -> Result<(), u32>
    requires ways { AreWays grid.now ways.now count }
    requires size { length rooms.now ≡ border_count grid.now }
    requires load { length load.old ≡ 64 }
    requires loads { length loads.old ≡ 64 }
    ensures brought { OnOk result (IsBringing grid.now (room_of rooms.now) side load.old load.new ways.now count loads.new 0) }
    ensures beyond { IfErr result (λ zone. HasZone grid.now zone) }
{
    let zones = grid.zones();
    let mut place = count;
    while place > 0 {
        place -= 1;
        let way = ways[place];
        let (near, far) = (way.near as usize, way.far as usize);
        prove!(way.near < zones && way.far < zones);
        let lots = load[far];
        let Some(more) = load[near].checked_add(lots) else {
            return Err(way.far);
        };
        if lots > room_for(rooms, side, way.arc) {
            return Err(way.far);
        }
        loads[place] = lots;
        load[far] = 0;
        load[near] = more;
    }
    Ok(())
}

// Whether there are lots anywhere.
fn has_lots(load: &[u32]) -> bool
    ensures { result ≡ false → (zone : ℕ) → slice_index_or load.now zone 0 ≡ 0 }
{
    let mut bits = 0;
    for lots in load {
        bits |= lots;
    }
    bits != 0
}

// The zones to which all comes that has come to the root over ways: where it comes to the near zone of one, and there is
// room on the opposite arc for what did not come over the way, it comes to the far zone too.
fn spread(
    grid: &Grid,
    rooms: &Rooms,
    side: Side,
    ways: &[Way],
    loads: &[u32],
    root: u32,
    all: u32,
    count: usize,
) -> u64
    requires zone { HasZone grid.now root }
    requires ways { AreWays grid.now ways.now count }
    requires loads { length loads.now ≡ 64 }
    requires size { length rooms.now ≡ border_count grid.now }
    ensures { (shown : List ℕ) → IsSpread grid.now (room_of rooms.now) side shown ways.now count loads.now all 0 root → (zone : ℕ) → HasZone grid.now zone → holds result zone ≡ true → ComeTogether grid.now (room_of rooms.now) side zone shown }
{
    let zones = grid.zones();
    prove!(root < zones);
    let mut whole = 1 << root;
    for place in 0..count {
        let way = ways[place];
        prove!(way.near < zones && way.far < zones);
        let rest = all.saturating_sub(loads[place]);
        if (whole >> way.near) & 1 == 1 && rest <= room_for(rooms, side, way.arc.opposite()) {
            whole |= 1 << way.far;
        }
    }
    whole
}

/// The room for lots that come over an arc of a way, or go over it to buys.
pub(crate) fn room_for(rooms: &Rooms, side: Side, arc: Arc) -> u32
    requires { arc.border < length rooms.now }
    ensures { result ≡ room_of rooms.now (over side arc) }
{
    rooms.at(match side {
        Side::Buy => arc,
        Side::Sell => arc.opposite(),
    })
}

/// What stands in the places behind the last arc of a way.
pub(crate) const NO_ARC: Arc = Arc {
    border: 0,
    forward: true,
};
