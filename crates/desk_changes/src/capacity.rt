//! Capacity is offered and granted.

ghost use Rattle.std.specs.Prelude.{◌≡◌, ◌≤◌, OnErr, OnOk};
ghost use Rattle.laws_of_boards.specs.Settled.{IsSettled};
ghost use Rattle.kept_hour.specs.Planned.{IsUnplanned, with_planned};
ghost use Rattle.kept_hour.specs.State.{CanBeNext, grant_of, offer_of};
ghost use Rattle.desk_changes.specs.Changes.{then_sweep};

use crate::openings::{opened_since, parts_with_room};
use crate::sweeping::sweep_planned;
use kept_hour::KeptHour;
use order_kinds::Quarter;
use std::alloc::Global;
use zone_graph::{Arc, Grid, NoMemory};

/// Offers so many lots on an arc in a range of quarters, some of which are this hour's, and sweeps the
/// hour.
///
/// Nothing is planned before, and nothing is left to trade.
///
/// # Errors
///
/// [`NoMemory`] where memory runs out; nothing is planned then.
pub fn offer(
    alloc: Global,
    hour: &mut KeptHour,
    grid: &Grid,
    arc: Arc,
    first: Quarter,
    last: Quarter,
    lots: u32,
) -> Result<(), NoMemory>
    requires grid { grid.now ≡ hour.old.board.grid }
    requires unplanned { IsUnplanned hour.old }
    requires next { CanBeNext hour.old (offer_of arc first last lots) }
    requires quiet { IsSettled grid.now hour.old.board.hour hour.old.settled }
    ensures planned { OnOk result (hour.new ≡ with_planned hour.old (then_sweep grid.now hour.old (offer_of arc first last lots))) }
    ensures unchanged { OnErr result (hour.new ≡ hour.old) }
{
    let was = parts_with_room(hour, arc.border);
    hour.offer(arc, first, last, lots)?;
    let now = parts_with_room(hour, arc.border);
    sweep_planned(alloc, hour, grid, opened_since(&was, &now))
}

/// Grants so many lots on an arc in a range of quarters, some of which are this hour's, and sweeps the
/// hour.
///
/// Nothing is planned before, and nothing is left to trade.
///
/// # Errors
///
/// [`NoMemory`] where memory runs out; nothing is planned then.
pub fn grant(
    alloc: Global,
    hour: &mut KeptHour,
    grid: &Grid,
    arc: Arc,
    first: Quarter,
    last: Quarter,
    lots: u32,
) -> Result<(), NoMemory>
    requires grid { grid.now ≡ hour.old.board.grid }
    requires unplanned { IsUnplanned hour.old }
    requires next { CanBeNext hour.old (grant_of arc first last lots) }
    requires quiet { IsSettled grid.now hour.old.board.hour hour.old.settled }
    ensures planned { OnOk result (hour.new ≡ with_planned hour.old (then_sweep grid.now hour.old (grant_of arc first last lots))) }
    ensures unchanged { OnErr result (hour.new ≡ hour.old) }
{
    let was = parts_with_room(hour, arc.border);
    hour.grant(arc, first, last, lots)?;
    let now = parts_with_room(hour, arc.border);
    sweep_planned(alloc, hour, grid, opened_since(&was, &now))
}
