//! The capacities of all borders of an hour, each at its border's number.

ghost use Rattle.std.specs.Prelude.{◌≡◌, ◌≤◌, ◌<◌, ◌↔◌, ◌==◌, ◌&&◌, ◌∷◌, [], pos, ◌≤ℤ◌, ◌<ℤ◌, ◌+ℤ◌, true, IsErr, IfErr, OnOk, OnErr, length, ℕ, if◌then◌else◌};
ghost use Rattle.quarter_capacity.specs.Row as rows;
ghost use Rattle.zone_graph.specs.declared.route.Arc.{Arc};
ghost use Rattle.zone_graph.specs.Pour.{same_arc, uses};
ghost use Rattle.zone_graph.specs.Rooms as rooms;
ghost use Rattle.order_kinds.specs.Period.{EachQuarter};
ghost use Rattle.flow_netting.specs.Border.{row_in, set_room};
ghost use Rattle.flow_netting.specs.Flows as flows;
ghost use Rattle.flow_netting.specs.QuarterSet.{has};
ghost use Rattle.quarter_capacity.specs.Capacity.{most_offered, most_remaining};

use crate::border::BorderFlows;
use crate::quarter_set::QuarterSet;
use quarter_capacity::BelowFlow;
use zone_graph::{Arc, Rooms};

/// Offers so many lots on an arc in a quarter.
pub fn offer(borders: &mut [BorderFlows], arc: Arc, number: u32, lots: u32) -> Result<(), BelowFlow>
    requires border { arc.border < length borders.old }
    requires first { 1 ≤ number }
    requires last { number ≤ 4 }
    requires most { lots ≤ most_offered }
    ensures offers { OnOk result (flows.InEachQuarter (λ other quarter. flows.offered_at borders.new other quarter ≡ (if same_arc arc other && (quarter == number) then lots else flows.offered_at borders.old other quarter))) }
    ensures flows { flows.SameFlows borders.old borders.new }
    ensures halts { flows.SameHalts borders.old borders.new }
    ensures enough { OnOk result (flows.flow_at borders.old arc number ≤ℤ pos lots) }
    ensures below { IsErr result ↔ (pos lots <ℤ flows.flow_at borders.old arc number) }
    ensures flow { IfErr result (λ refusal. pos refusal.flow ≡ flows.flow_at borders.old arc number) }
    ensures err { OnErr result (borders.new ≡ borders.old) }
{
    borders[arc.border as usize].offer(arc.forward, number, lots)?;
    Ok(())
}

/// Takes so many lots of what remains on an arc in a quarter.
pub fn take(borders: &mut [BorderFlows], arc: Arc, number: u32, lots: u32)
    requires border { arc.border < length borders.old }
    requires first { 1 ≤ number }
    requires last { number ≤ 4 }
    requires room { pos lots ≤ℤ flows.remaining_at borders.old arc number }
    ensures offers { flows.SameOffers borders.old borders.new }
    ensures flows { flows.InEachQuarter (λ other quarter. flows.flow_at borders.new other quarter ≡ (if quarter == number then flows.flow_at borders.old other quarter +ℤ flows.added_by (same_arc arc) lots other else flows.flow_at borders.old other quarter)) }
    ensures halts { flows.SameHalts borders.old borders.new }
{
    borders[arc.border as usize].take(arc.forward, number, lots);
}

/// Takes so many lots of what remains on each arc of a route in each quarter of a set.
pub fn carry(borders: &mut [BorderFlows], route: &[Arc], set: QuarterSet, lots: u32)
    requires borders { flows.IsOverBorders borders.old route.now }
    requires room { flows.HasLotsLeft borders.old route.now set lots }
    ensures offers { flows.SameOffers borders.old borders.new }
    ensures flows { flows.InEachQuarter (λ arc number. flows.flow_at borders.new arc number ≡ (if has set number then flows.flow_at borders.old arc number +ℤ flows.added_by (uses route.now) lots arc else flows.flow_at borders.old arc number)) }
    ensures halts { flows.SameHalts borders.old borders.new }
{
    for arc in route {
        take_in(borders, *arc, set, lots);
    }
}

// Takes so many lots of what remains on an arc in each quarter of a set.
fn take_in(borders: &mut [BorderFlows], arc: Arc, set: QuarterSet, lots: u32)
    requires border { arc.border < length borders.old }
    requires room { EachQuarter (λ number. has set number ≡ true → pos lots ≤ℤ flows.remaining_at borders.old arc number) }
    ensures offers { flows.SameOffers borders.old borders.new }
    ensures flows { flows.InEachQuarter (λ other number. flows.flow_at borders.new other number ≡ (if has set number then flows.flow_at borders.old other number +ℤ flows.added_by (same_arc arc) lots other else flows.flow_at borders.old other number)) }
    ensures halts { flows.SameHalts borders.old borders.new }
{
    borders[arc.border as usize].take_in(arc.forward, set, lots);
}

/// Halts trade over a border, or lets it go on.
pub fn set_halted(borders: &mut [BorderFlows], border: u32, halted: bool)
    requires { border < length borders.old }
    ensures offers { flows.SameOffers borders.old borders.new }
    ensures flows { flows.SameFlows borders.old borders.new }
    ensures halts { (other : ℕ) → (flows.border_at borders.new other).halted ≡ (if other == border then halted else (flows.border_at borders.old other).halted) }
{
    borders[border as usize].set_halted(halted);
}

/// Writes the room of each arc over the quarters of a set, in an hour that is open or not.
pub fn write_rooms(borders: &[BorderFlows], is_open: bool, set: QuarterSet, into: &mut Rooms)
    requires few { length borders.now ≤ 128 }
    requires size { length into.old ≡ length borders.now }
    ensures size { length into.new ≡ length into.old }
    ensures rooms { (arc : Arc) → arc.border < length borders.now → rooms.room_of into.new arc ≡ set_room is_open (flows.border_at borders.now arc.border) arc.forward set }
    ensures most { (arc : Arc) → arc.border < length borders.now → rooms.room_of into.new arc ≤ most_remaining }
{
    if !is_open {
        write_over(borders, false, set, into);
        return;
    }
    // The hour, its halves and its quarters have a loop each.
    match set.0 {
        0b1111 => write_over(borders, true, QuarterSet(0b1111), into),
        0b0011 => write_over(borders, true, QuarterSet(0b0011), into),
        0b1100 => write_over(borders, true, QuarterSet(0b1100), into),
        0b0001 => write_over(borders, true, QuarterSet(0b0001), into),
        0b0010 => write_over(borders, true, QuarterSet(0b0010), into),
        0b0100 => write_over(borders, true, QuarterSet(0b0100), into),
        0b1000 => write_over(borders, true, QuarterSet(0b1000), into),
        _ => write_over(borders, true, set, into),
    }
}

// Writes the room of each arc. Where a call names the set, the compiler knows the loop's quarters.
#[inline(always)]
fn write_over(borders: &[BorderFlows], is_open: bool, set: QuarterSet, into: &mut Rooms)
    requires few { length borders.now ≤ 128 }
    requires size { length into.old ≡ length borders.now }
    ensures size { length into.new ≡ length into.old }
    ensures rooms { (arc : Arc) → arc.border < length borders.now → rooms.room_of into.new arc ≡ set_room is_open (flows.border_at borders.now arc.border) arc.forward set }
    ensures most { (arc : Arc) → arc.border < length borders.now → rooms.room_of into.new arc ≤ most_remaining }
{
    for (place, border) in borders.iter().enumerate() {
        write_border(border, place as u32, is_open, set, into);
    }
}

// Writes the rooms of the two arcs of a border.
fn write_border(border: &BorderFlows, number: u32, is_open: bool, set: QuarterSet, into: &mut Rooms)
    requires { number < length into.old }
    ensures size { length into.new ≡ length into.old }
    ensures rooms { (arc : Arc) → rooms.room_of into.new arc ≡ (if number == arc.border then set_room is_open border.now arc.forward set else rooms.room_of into.old arc) }
    ensures most { (arc : Arc) → arc.border ≡ number → rooms.room_of into.new arc ≤ most_remaining }
{
    let forward = border.room(is_open, true, set);
    let backward = border.room(is_open, false, set);
    into.set(Arc::over(number, true), forward);
    into.set(Arc::over(number, false), backward);
}
