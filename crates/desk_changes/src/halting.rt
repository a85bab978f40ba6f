//! Trade over a border is halted, and goes on.

ghost use Rattle.std.specs.Prelude.{◌≡◌, ◌≤◌, OnErr, OnOk};
ghost use Rattle.laws_of_boards.specs.Settled.{IsSettled};
ghost use Rattle.kept_hour.specs.Planned.{IsUnplanned, with_planned};
ghost use Rattle.kept_hour.specs.State.{CanBeNext, halt_of, resumption_of};
ghost use Rattle.desk_changes.specs.Changes.{then_sweep};

use crate::openings::{opened_since, parts_with_room};
use crate::sweeping::sweep_planned;
use kept_hour::KeptHour;
use std::alloc::Global;
use zone_graph::{Grid, NoMemory};

/// Halts trade over a border from an hour to an hour, this one among them. The sweep of the hour finds
/// nothing then, and is not made.
///
/// Nothing is planned before, and nothing is left to trade.
///
/// # Errors
///
/// [`NoMemory`] where memory runs out; nothing is planned then.
pub fn halt(hour: &mut KeptHour, border: u32, first: u32, last: u32) -> Result<(), NoMemory>
    requires unplanned { IsUnplanned hour.old }
    requires next { CanBeNext hour.old (halt_of border first last) }
    requires quiet { IsSettled hour.old.board.grid hour.old.board.hour hour.old.settled }
    ensures planned { OnOk result (hour.new ≡ with_planned hour.old (then_sweep hour.old.board.grid hour.old (halt_of border first last))) }
    ensures unchanged { OnErr result (hour.new ≡ hour.old) }
{
    hour.halt(border, first, last)
}

/// Lets trade over a border go on from an hour to an hour, this one among them, and sweeps the hour.
///
/// Nothing is planned before, and nothing is left to trade.
///
/// # Errors
///
/// [`NoMemory`] where memory runs out; nothing is planned then.
pub fn resume(
    alloc: Global,
    hour: &mut KeptHour,
    grid: &Grid,
    border: u32,
    first: u32,
    last: u32,
) -> Result<(), NoMemory>
    requires grid { grid.now ≡ hour.old.board.grid }
    requires unplanned { IsUnplanned hour.old }
    requires next { CanBeNext hour.old (resumption_of border first last) }
    requires quiet { IsSettled grid.now hour.old.board.hour hour.old.settled }
    ensures planned { OnOk result (hour.new ≡ with_planned hour.old (then_sweep grid.now hour.old (resumption_of border first last))) }
    ensures unchanged { OnErr result (hour.new ≡ hour.old) }
{
    let was = parts_with_room(hour, border);
    hour.resume(border, first, last)?;
    let now = parts_with_room(hour, border);
    sweep_planned(alloc, hour, grid, opened_since(&was, &now))
}
