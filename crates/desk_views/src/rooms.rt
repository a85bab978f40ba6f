//! The rooms of the parts of an hour, and in which zones they have become others.

ghost use Rattle.std.specs.Prelude.{◌≡◌, ◌≢◌, ◌<◌, ◌==◌, ◌||◌, ℕ, [], IfOk, false, get_or, length, true};
ghost use Rattle.zone_graph.specs.declared.route.Arc.{Arc as AnArc};
ghost use Rattle.zone_graph.specs.Graph.{border_count};
ghost use Rattle.zone_graph.specs.Rooms.{room_of};
ghost use Rattle.cut_proof.specs.ZoneSet.{holds};
ghost use Rattle.kept_hour.specs.Changed.{AreRoomsSettledBut};
ghost use Rattle.kept_hour.specs.State.{settled_board};
ghost use Rattle.local_view.specs.Boards.{AreRoomsOf};
ghost use Rattle.desk_views.specs.Insides.{AreSameBeside, HasNoRoom, HaveRoomsOver, IsRoomOf};
ghost use Rattle.desk_views.specs.Moved.{AreMoved, AreStillBut, has_moved, is_moved, moves_in};

use hour_store::ChangedBorders;
use kept_hour::KeptHour;
use std::alloc::Global;
use zone_graph::{Arc, Grid, NoMemory, Rooms};

/// How many parts an hour has: itself, its quarters and its halves.
pub(crate) const PARTS: usize = 7;

/// A room of 0 for each arc of a grid, for each part of an hour.
pub(crate) fn no_rooms(alloc: Global, grid: &Grid) -> Result<Vec<Rooms>, NoMemory>
    ensures parts { IfOk result (λ made. length made.items ≡ 7) }
    ensures each { IfOk result (λ made. (part : ℕ) → part < 7 → HasNoRoom grid.now (get_or made.items part [])) }
{
    let mut made = Vec::with_capacity(alloc, PARTS)?;
    for _ in 0..PARTS {
        let rooms = Rooms::new(grid)?;
        made.push(rooms)?;
    }
    Ok(made)
}

/// In which zones an arc begins or ends whose room has become another one, by part, where the rooms of an
/// hour are asked for: those are written. Where they are not, none have. What they were are those of the hour as
/// it is settled.
pub(crate) fn moved_if(
    asked: bool,
    hour: &KeptHour,
    grid: &Grid,
    rooms: &[Rooms],
    planned: &mut [Rooms],
) -> [u64; PARTS]
    requires grid { grid.now ≡ hour.now.board.grid }
    requires parts { length rooms.now ≡ 7 }
    requires planned_parts { length planned.old ≡ 7 }
    requires settled { (part : ℕ) → part < 7 → AreRoomsOf (settled_board hour.now) part (get_or rooms.now part []) }
    requires planned_size { (part : ℕ) → part < 7 → length (get_or planned.old part []) ≡ border_count grid.now }
    ensures size { (part : ℕ) → length (get_or planned.new part []) ≡ length (get_or planned.old part []) }
    ensures rooms { asked ≡ true → (part : ℕ) → part < 7 → AreRoomsOf hour.now.board part (get_or planned.new part []) }
    ensures moved { asked ≡ true → (part : ℕ) → part < 7 → AreMoved grid.now (get_or rooms.now part []) (get_or planned.new part []) (get_or result part 0) }
    ensures none { asked ≡ false → (part : ℕ) → part < 7 → get_or result part 0 ≡ 0 }
    ensures all { length result ≡ 7 }
{
    if !asked {
        return [0; PARTS];
    }
    // It shows that the grid has no more than 128 borders.
    let _ = grid.borders();
    let changed = hour.changed_borders();
    ask_rooms(hour, grid, &changed, rooms, planned);
    moved_zones(grid, &changed, rooms, planned)
}

// Writes the room of each arc over the quarters of each part of an hour, where what they were are those of the hour
// as it is settled: they are asked for over the borders that have changed.
fn ask_rooms(
    hour: &KeptHour,
    grid: &Grid,
    changed: &ChangedBorders,
    rooms: &[Rooms],
    into: &mut [Rooms],
)
    requires grid { grid.now ≡ hour.now.board.grid }
    requires still { AreRoomsSettledBut hour.now changed.now }
    requires parts { length rooms.now ≡ 7 }
    requires into_parts { length into.old ≡ 7 }
    requires settled { (part : ℕ) → part < 7 → AreRoomsOf (settled_board hour.now) part (get_or rooms.now part []) }
    requires size { (part : ℕ) → part < 7 → length (get_or into.old part []) ≡ border_count grid.now }
    ensures size { (part : ℕ) → length (get_or into.new part []) ≡ length (get_or into.old part []) }
    ensures rooms { (part : ℕ) → part < 7 → AreRoomsOf hour.now.board part (get_or into.new part []) }
{
    copy_rooms(rooms, into);
    let borders = grid.borders();
    for border in 0..borders {
        ask_if(changed.has(border), hour, border, into);
    }
}

// Gives each part the rooms that it has in other rows.
fn copy_rooms(rooms: &[Rooms], into: &mut [Rooms])
    requires parts { length rooms.now ≡ 7 }
    requires into_parts { length into.old ≡ 7 }
    requires size { (part : ℕ) → part < 7 → length (get_or into.old part []) ≡ length (get_or rooms.now part []) }
    ensures size { (part : ℕ) → length (get_or into.new part []) ≡ length (get_or into.old part []) }
    ensures same { (part : ℕ) → part < 7 → get_or into.new part [] ≡ get_or rooms.now part [] }
{
    for (part, row) in into.iter_mut().enumerate() {
        row.copy_from(&rooms[part]);
    }
}

// Writes the rooms of the two arcs over a border in each part, if it has changed.
fn ask_if(changed: bool, hour: &KeptHour, border: u32, into: &mut [Rooms])
    requires border { border < border_count hour.now.board.grid }
    requires parts { length into.old ≡ 7 }
    requires size { (part : ℕ) → part < 7 → length (get_or into.old part []) ≡ border_count hour.now.board.grid }
    requires still { changed ≡ false → HaveRoomsOver hour.now.board border into.old }
    ensures size { (part : ℕ) → length (get_or into.new part []) ≡ length (get_or into.old part []) }
    ensures own { HaveRoomsOver hour.now.board border into.new }
    ensures others { AreSameBeside border into.old into.new }
{
    if changed {
        ask_parts(hour, border, into);
    }
}

// Writes them.
fn ask_parts(hour: &KeptHour, border: u32, into: &mut [Rooms])
    requires border { border < border_count hour.now.board.grid }
    requires parts { length into.old ≡ 7 }
    requires size { (part : ℕ) → part < 7 → length (get_or into.old part []) ≡ border_count hour.now.board.grid }
    ensures size { (part : ℕ) → length (get_or into.new part []) ≡ length (get_or into.old part []) }
    ensures own { HaveRoomsOver hour.now.board border into.new }
    ensures others { AreSameBeside border into.old into.new }
{
    for (part, row) in into.iter_mut().enumerate() {
        ask_border(hour, part as u32, border, row);
    }
}

// Writes those of one part.
fn ask_border(hour: &KeptHour, part: u32, border: u32, into: &mut Rooms)
    requires part { part < 7 }
    requires border { border < border_count hour.now.board.grid }
    requires size { border < length into.old }
    ensures size { length into.new ≡ length into.old }
    ensures own { (arc : AnArc) → arc.border ≡ border → IsRoomOf hour.now.board part arc (room_of into.new arc) }
    ensures others { (arc : AnArc) → arc.border ≢ border → room_of into.new arc ≡ room_of into.old arc }
{
    let forward = Arc {
        border,
        forward: true,
    };
    let backward = Arc {
        border,
        forward: false,
    };
    into.set(forward, hour.room_of(part, forward));
    into.set(backward, hour.room_of(part, backward));
}

// In which zones an arc begins or ends whose room in a part has become another one, by part: bit z
// stands for zone z. Over the borders that have not changed none has.
fn moved_zones(grid: &Grid, changed: &ChangedBorders, old: &[Rooms], new: &[Rooms]) -> [u64; PARTS]
    requires old_parts { length old.now ≡ 7 }
    requires new_parts { length new.now ≡ 7 }
    requires old_size { (part : ℕ) → part < 7 → length (get_or old.now part []) ≡ border_count grid.now }
    requires new_size { (part : ℕ) → part < 7 → length (get_or new.now part []) ≡ border_count grid.now }
    requires still { (part : ℕ) → part < 7 → AreStillBut grid.now changed.now (get_or old.now part []) (get_or new.now part []) }
    ensures { (part : ℕ) → part < 7 → AreMoved grid.now (get_or old.now part []) (get_or new.now part []) (get_or result part 0) }
{
    let borders = grid.borders();
    let mut moved = [0; PARTS];
    for border in 0..borders {
        move_if(changed.has(border), grid, old, new, border, &mut moved);
    }
    moved
}

// Adds the zones that a border joins where the room of one of its arcs has become another one, by part.
fn move_if(changed: bool, grid: &Grid, old: &[Rooms], new: &[Rooms], border: u32, moved: &mut [u64])
    requires border { border < border_count grid.now }
    requires parts { length moved.old ≡ 7 }
    requires old_parts { length old.now ≡ 7 }
    requires new_parts { length new.now ≡ 7 }
    requires old_size { (part : ℕ) → part < 7 → length (get_or old.now part []) ≡ border_count grid.now }
    requires new_size { (part : ℕ) → part < 7 → length (get_or new.now part []) ≡ border_count grid.now }
    requires still { changed ≡ false → (part : ℕ) → part < 7 → has_moved (get_or old.now part []) (get_or new.now part []) border ≡ false }
    ensures { (part : ℕ) (zone : ℕ) → part < 7 → zone < 64
        → holds (get_or moved.new part 0) zone ≡ (holds (get_or moved.old part 0) zone || moves_in grid.now (get_or old.now part []) (get_or new.now part []) zone border) }
{
    if changed {
        move_parts(grid, old, new, border, moved);
    }
}

// Adds them where the border has changed.
fn move_parts(grid: &Grid, old: &[Rooms], new: &[Rooms], border: u32, moved: &mut [u64])
    requires border { border < border_count grid.now }
    requires parts { length moved.old ≡ 7 }
    requires old_parts { length old.now ≡ 7 }
    requires new_parts { length new.now ≡ 7 }
    requires old_size { (part : ℕ) → part < 7 → length (get_or old.now part []) ≡ border_count grid.now }
    requires new_size { (part : ℕ) → part < 7 → length (get_or new.now part []) ≡ border_count grid.now }
    ensures { (part : ℕ) (zone : ℕ) → part < 7 → zone < 64
        → holds (get_or moved.new part 0) zone ≡ (holds (get_or moved.old part 0) zone || moves_in grid.now (get_or old.now part []) (get_or new.now part []) zone border) }
{
    for (part, zones) in moved.iter_mut().enumerate() {
        *zones = with_moved(grid, &old[part], &new[part], border, *zones);
    }
}

// Some zones, and those that a border joins where the room of one of its arcs has become another one.
fn with_moved(grid: &Grid, old: &Rooms, new: &Rooms, border: u32, zones: u64) -> u64
    requires border { border < border_count grid.now }
    requires old { length old.now ≡ border_count grid.now }
    requires new { length new.now ≡ border_count grid.now }
    ensures { (zone : ℕ) → zone < 64 → holds result zone ≡ (holds zones zone || moves_in grid.now old.now new.now zone border) }
{
    if !has_moved(old, new, border) {
        return zones;
    }
    let (first, second) = grid.ends(Arc {
        border,
        forward: true,
    });
    with_zone(with_zone(zones, first), second)
}

// Whether the room of one of the two arcs over a border has become another one.
fn has_moved(old: &Rooms, new: &Rooms, border: u32) -> bool
    requires old { border < length old.now }
    requires new { border < length new.now }
    ensures { result ≡ has_moved old.now new.now border }
{
    is_moved(old, new, border, true) || is_moved(old, new, border, false)
}

// Whether that of the arc over a border in a direction has.
fn is_moved(old: &Rooms, new: &Rooms, border: u32, forward: bool) -> bool
    requires old { border < length old.now }
    requires new { border < length new.now }
    ensures { result ≡ is_moved old.now new.now (record { border = border; forward = forward }) }
{
    let arc = Arc { border, forward };
    old.at(arc) != new.at(arc)
}

// Some zones, and one more.
fn with_zone(zones: u64, zone: u32) -> u64
    requires { zone < 64 }
    ensures { (other : ℕ) → holds result other ≡ (holds zones other || (zone == other)) }
{
    zones | 1 << zone
}
