//! The parts that a grid is made of: tests of its borders, and what is looked up in it.

ghost use Rattle.std.specs.Prelude.{◌≡◌, ◌≢◌, ◌≤◌, true, false, IfOk, IfErr, OnOk, ◌++◌, ◌==◌, find, length, map, option_map};
ghost use Rattle.std.specs.List.{list_any, range_with_len};
ghost use Rattle.zone_graph.specs.Grid.{neighbours_of, same_ends, same_name};
ghost use Rattle.zone_graph.specs.GridFault.{has_again, has_self_border};
ghost use Rattle.zone_graph.specs.GridIndex.{NumbersZones, borders_alone, neighbours_over, zones_alone};
ghost use Rattle.zone_graph.specs.Graph.{most_zones, most_borders};

use crate::grid::{GridFault, Neighbour};
use crate::memory::{Duplicate, NoMemory};
use crate::route::Arc;
use crate::sequence::Sequence;
use crate::word::Word;
use std::alloc::Global;
use std::collections::HashMap;

// The number of each zone by its name; a fault where a name stands again.
pub fn zone_numbers(alloc: Global, names: &[Word]) -> Result<HashMap<Word, u32>, GridFault>
    requires { length names.now ≤ most_zones }
    ensures numbers { IfOk result (λ numbers. NumbersZones (zones_alone names.now) numbers.entries) }
    ensures different { OnOk result (has_again same_name names.now ≡ false) }
    ensures twice { IfErr result (λ fault. fault ≢ GridFault.NoMemory → (fault ≡ GridFault.ZoneTwice) × (has_again same_name names.now ≡ true)) }
{
    let mut numbers = HashMap::new(alloc);
    for (zone, name) in names.iter().enumerate() {
        if numbers.get(name).is_some() {
            return Err(GridFault::ZoneTwice);
        }
        numbers.insert(name.copy()?, zone as u32)?;
    }
    Ok(numbers)
}

// Whether a border joins a zone with itself.
pub fn has_border_to_itself(borders: &[(u32, u32)]) -> bool
    ensures { result ≡ has_self_border borders.now }
{
    borders.iter().any(|ends| ends.0 == ends.1)
}

// Whether two borders join the same two zones.
pub fn has_border_again(borders: &[(u32, u32)]) -> bool
    ensures { result ≡ has_again same_ends borders.now }
{
    let mut rest = borders;
    while let Some((border, others)) = rest.split_first() {
        if joins_as(others, *border) {
            return true;
        }
        rest = others;
    }
    false
}

// Whether one of the borders joins the same two zones as a border.
fn joins_as(borders: &[(u32, u32)], border: (u32, u32)) -> bool
    ensures { result ≡ list_any (same_ends border) borders.now }
{
    let (first, second) = border;
    borders.iter().any(|other| {
        (first == other.0 && second == other.1) || (first == other.1 && second == other.0)
    })
}

// The neighbours of each zone.
pub fn neighbour_rows(
    alloc: Global,
    zones: usize,
    borders: &[(u32, u32)],
) -> Result<Vec<Sequence<Neighbour>>, NoMemory>
    requires few { length borders.now ≤ most_borders }
    requires zones { zones ≤ most_zones }
    ensures { IfOk result (λ rows. rows.items ≡ map (neighbours_of (borders_alone borders.now)) (range_with_len 0 zones)) }
{
    let mut rows = Vec::with_capacity(alloc, zones)?;
    for zone in 0..zones {
        rows.push(neighbour_row(alloc, zone as u32, borders)?)?;
    }
    Ok(rows)
}

// The neighbours of a zone: over each border that it is an end of the zone at the other end.
fn neighbour_row(
    alloc: Global,
    zone: u32,
    borders: &[(u32, u32)],
) -> Result<Sequence<Neighbour>, NoMemory>
    requires { length borders.now ≤ most_borders }
    ensures { IfOk result (λ row. row ≡ neighbours_of (borders_alone borders.now) zone) }
{
    let mut row = Sequence::new(alloc);
    for (border, ends) in borders.iter().enumerate() {
        push_neighbours(&mut row, zone, border as u32, *ends)?;
    }
    Ok(row)
}

// Puts the neighbours of a zone over one border at the end of its row.
fn push_neighbours(
    row: &mut Sequence<Neighbour>,
    zone: u32,
    border: u32,
    ends: (u32, u32),
) -> Result<(), NoMemory>
    ensures { OnOk result (row.new ≡ row.old ++ neighbours_over zone border ends) }
{
    let (first, second) = ends;
    if first == zone {
        row.push(neighbour(border, true, second))?;
    }
    if second == zone {
        row.push(neighbour(border, false, first))?;
    }
    Ok(())
}

// The neighbour over one direction of a border.
fn neighbour(border: u32, forward: bool, zone: u32) -> Neighbour
    ensures { result ≡ record { arc = record { border = border; forward = forward }; zone = zone } }
{
    Neighbour {
        arc: Arc::over(border, forward),
        zone,
    }
}

// The arc of the neighbour at a zone, if that zone is among them.
pub fn arc_to(neighbours: &[Neighbour], zone: u32) -> Option<Arc>
    ensures { result ≡ option_map (λ neighbour. neighbour.arc) (find (λ neighbour. neighbour.zone == zone) neighbours.now) }
{
    let found = neighbours.iter().find(|neighbour| neighbour.zone == zone)?;
    Some(found.arc)
}
