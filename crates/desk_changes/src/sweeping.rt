//! The sweep behind an event, an entry and deals.

ghost use Rattle.std.specs.Prelude.{◌≡◌, ◌≤◌, None, OnErr, OnOk, false};
ghost use Rattle.sweep_core.specs.Sweeping.{OthersAreQuiet, swept};
ghost use Rattle.kept_hour.specs.State.{undone, with_board};
ghost use Rattle.desk_changes.specs.Quiet.{HasNoLeg};

use kept_hour::KeptHour;
use std::alloc::Global;
use sweep_core::{PartSet, sweep, sweep_opened};
use zone_graph::{Grid, NoMemory};

/// Sweeps an hour in which no other parts than some can have a leg. No order is in hand.
///
/// # Errors
///
/// [`NoMemory`] where memory runs out; the hour is as it is settled then.
pub(crate) fn sweep_planned(
    alloc: Global,
    hour: &mut KeptHour,
    grid: &Grid,
    opened: PartSet,
) -> Result<(), NoMemory>
    requires grid { grid.now ≡ hour.old.board.grid }
    requires free { hour.old.board.hand ≡ None }
    requires quiet { OthersAreQuiet hour.old.board opened }
    ensures swept { OnOk result (hour.new ≡ with_board hour.old (swept hour.old.board)) }
    ensures dropped { OnErr result (hour.new ≡ undone hour.old) }
{
    let number = hour.hour();
    match sweep_opened(alloc, hour, grid, number, opened) {
        Ok(()) => Ok(()),
        Err(error) => {
            hour.undo();
            Err(error)
        }
    }
}

/// Sweeps an hour where an arc may have got its first room. Else nothing is to be swept. No order is in
/// hand.
///
/// # Errors
///
/// [`NoMemory`] where memory runs out; the hour is as it is settled then.
pub(crate) fn sweep_if(
    alloc: Global,
    hour: &mut KeptHour,
    grid: &Grid,
    opened: bool,
) -> Result<(), NoMemory>
    requires grid { grid.now ≡ hour.old.board.grid }
    requires free { hour.old.board.hand ≡ None }
    requires quiet { opened ≡ false → HasNoLeg hour.old.board.grid hour.old.board.hour hour.old.board.events }
    ensures swept { OnOk result (hour.new ≡ with_board hour.old (swept hour.old.board)) }
    ensures dropped { OnErr result (hour.new ≡ undone hour.old) }
{
    if !opened {
        return Ok(());
    }
    let number = hour.hour();
    match sweep(alloc, hour, grid, number) {
        Ok(()) => Ok(()),
        Err(error) => {
            hour.undo();
            Err(error)
        }
    }
}
