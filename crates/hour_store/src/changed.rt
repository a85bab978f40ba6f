//! What the noted changes say: in which zones orders have changed, and whether and over which borders flows have.

ghost use Rattle.std.specs.Prelude.{◌≡◌, ℕ, ◌<◌, ◌==◌, ◌||◌, ◌&&◌, false, get_or, length};
ghost use Rattle.std.specs.List.{list_any};
ghost use Rattle.order_kinds.specs.declared.side.Side.{Side};
ghost use Rattle.contract_book.specs.Book.{line_number};
ghost use Rattle.cut_proof.specs.ZoneSet.{holds};
ghost use Rattle.zone_graph.specs.Graph.{most_borders};
ghost use Rattle.hour_store.specs.Changed.{AreChangedBorders, AreChangedZones, BordersChangeWhereNoted, FlowsChangeWhereNoted, LinesChangeInTheirZones, changes_flows, changes_in, changes_over, no_zones, stands_in, zones_of};

use crate::change::Change;
use contract_book::Resting;
use order_kinds::Side;
use std::marker::Model;
use zone_graph::{MOST_BORDERS, MOST_ZONES};

// The lines of an hour: the buys and the sells of each of its seven parts.
const LINES: usize = 14;

/// In which zones the orders of each part and side have changed: bit z stands for zone z. Contracts see
/// the bits of each part, first those for its buys, then those for its sells.
#[derive(Drop)]
pub struct ChangedZones {
    lines: [u64; LINES],
}

impl Model for ChangedZones {
    ghost use Rattle.std.specs.Prelude.{◌≡◌, ℕ, List, length};

    ghost Value = { List ℕ };

    ghost view = { λ zones. zones.lines };

    ghost invariant = { λ zones. length zones.lines ≡ 14 };
}

impl ChangedZones {
    /// No zone of any part and side.
    pub fn none() -> ChangedZones
        ensures { result ≡ no_zones }
    {
        ChangedZones { lines: [0; LINES] }
    }

    /// The bits of the zones of a part and side.
    pub fn of(&self, part: u32, side: Side) -> u64
        requires { part < 7 }
        ensures { result ≡ zones_of self.now part side }
    {
        self.lines[line_at(part, side)]
    }
}

// The place of the line of a part and side.
fn line_at(part: u32, side: Side) -> usize
    requires { part < 7 }
    ensures { result ≡ line_number part side }
{
    match side {
        Side::Buy => 2 * part as usize,
        Side::Sell => 2 * part as usize + 1,
    }
}

/// In which zones the orders of each part and side have changed, by these changes.
pub(crate) fn zones_of_changes(changes: &[Change]) -> ChangedZones
    ensures { AreChangedZones changes.now result }
{
    let mut lines = [0; LINES];
    for change in changes {
        set_zone(&mut lines, *change);
    }
    ChangedZones { lines }
}

// Sets the bit of the zone of an order that a change is of.
fn set_zone(lines: &mut [u64], change: Change)
    requires { length lines.old ≡ 14 }
    ensures { (part : ℕ) (side : Side) (zone : ℕ) → part < 7 → zone < 64
        → holds (zones_of lines.new part side) zone ≡ (holds (zones_of lines.old part side) zone || changes_in part side zone change) }
{
    match change {
        Change::OrderRested { part, order } => set_zone_of(lines, part, order),
        Change::OrderChanged { part, was } => set_zone_of(lines, part, was),
        _ => {}
    }
}

// Sets the bit of the zone of an order of a part.
fn set_zone_of(lines: &mut [u64], part: u32, order: Resting)
    requires { length lines.old ≡ 14 }
    ensures { (other : ℕ) (side : Side) (zone : ℕ) → other < 7 → zone < 64
        → holds (zones_of lines.new other side) zone ≡ (holds (zones_of lines.old other side) zone || stands_in other side zone part order) }
{
    if part < 7 && (order.zone as usize) < MOST_ZONES {
        lines[line_at(part, order.side)] |= 1 << order.zone;
    }
}

/// Over which borders flows have changed. Contracts see for each border by its number whether they have.
#[derive(Drop)]
pub struct ChangedBorders {
    changed: [bool; MOST_BORDERS],
}

impl Model for ChangedBorders {
    ghost use Rattle.std.specs.Prelude.{◌≡◌, Bool, List, length};

    ghost Value = { List Bool };

    ghost view = { λ borders. borders.changed };

    ghost invariant = { λ borders. length borders.changed ≡ 128 };
}

impl ChangedBorders {
    /// Whether the flows over a border have changed.
    pub fn has(&self, border: u32) -> bool
        requires { border < most_borders }
        ensures { result ≡ get_or self.now border false }
    {
        self.changed[border as usize]
    }
}

/// Over which borders flows have changed, by these changes.
pub(crate) fn borders_of_changes(changes: &[Change]) -> ChangedBorders
    ensures { AreChangedBorders changes.now result }
{
    let mut changed = [false; MOST_BORDERS];
    for change in changes {
        mark_change(&mut changed, *change);
    }
    ChangedBorders { changed }
}

// Marks the border of a change of the flows, and each one where the change is of the phase.
fn mark_change(changed: &mut [bool], change: Change)
    requires { length changed.old ≡ most_borders }
    ensures { (border : ℕ) → border < most_borders
        → get_or changed.new border false ≡ (get_or changed.old border false || changes_over border change) }
{
    match change {
        Change::Carried { arc, .. } | Change::Offered { arc, .. } => mark(changed, arc.border),
        Change::HaltSet { border, .. } => mark(changed, border),
        Change::PhaseSet { .. } => changed.fill(true),
        _ => {}
    }
}

// Marks a border.
fn mark(changed: &mut [bool], border: u32)
    requires { length changed.old ≡ most_borders }
    ensures { (other : ℕ) → other < most_borders
        → get_or changed.new other false ≡ (get_or changed.old other false || (border == other)) }
{
    if (border as usize) < MOST_BORDERS {
        changed[border as usize] = true;
    }
}

/// Whether one of these changes is of the flows.
pub(crate) fn any_changes_flows(changes: &[Change]) -> bool
    ensures { result ≡ list_any changes_flows changes.now }
{
    changes.iter().any(|change| is_of_flows(*change))
}

// Whether a change is of the flows.
fn is_of_flows(change: Change) -> bool
    ensures { result ≡ changes_flows change }
{
    match change {
        Change::Carried { .. }
        | Change::Offered { .. }
        | Change::HaltSet { .. }
        | Change::PhaseSet { .. } => true,
        _ => false,
    }
}

/// Where the noted changes of a store lead back to a target, the orders of a part and side in all other
/// zones than where such were changed are the same in the store and in the target.
pub fn lines_change_in_their_zones()
    ensures { LinesChangeInTheirZones }
{}

/// Where no change of the flows is noted, they say the same in the store and in the target.
pub fn flows_change_where_noted()
    ensures { FlowsChangeWhereNoted }
{}

/// Where no change of the flows over a border is noted, they say the same there in the store and in the target.
pub fn borders_change_where_noted()
    ensures { BordersChangeWhereNoted }
{}
