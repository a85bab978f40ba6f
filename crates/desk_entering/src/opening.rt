//! The sweep of an hour, where legs that are planned may have opened an arc to other parts.

ghost use Rattle.std.specs.Prelude.{◌≡◌, ◌<◌, ◌≤◌, ℕ, [], false, None, OnOk, length};
ghost use Rattle.zone_graph.specs.Graph.{border_count};
ghost use Rattle.zone_graph.specs.Rooms.{room_of};
ghost use Rattle.sweep_core.specs.Sweeping.{hour_sweep, swept};
ghost use Rattle.kept_hour.specs.State.{with_board};
ghost use Rattle.desk_entering.specs.Entries.{IsSettledAs};
ghost use Rattle.desk_entering.specs.Opening as opening;

use kept_hour::KeptHour;
use market_model::{Event, NoMemory};
use std::alloc::Global;
use sweep_core::{may_open, sweep};
use zone_graph::{Grid, Rooms};

/// Sweeps an hour where one of its planned legs goes over an arc whose opposite arc had no room, by the
/// rooms as they were settled. Where none does nothing is to be swept, and no memory is taken.
///
/// # Errors
///
/// [`NoMemory`] where memory runs out: some legs of the sweep may be planned then.
pub(crate) fn sweep_if_opened(
    alloc: Global,
    hour: &mut KeptHour,
    grid: &Grid,
    rooms: &Rooms,
) -> Result<(), NoMemory>
    requires grid { grid.now ≡ hour.old.board.grid }
    requires no_hand { hour.old.board.hand ≡ None }
    requires size { length rooms.now ≡ border_count grid.now }
    requires quiet { opening.any_opens (room_of rooms.now) (opening.planned_events hour.old) ≡ false → hour_sweep hour.old.board ≡ [] }
    ensures swept { OnOk result (hour.new ≡ with_board hour.old (swept hour.old.board)) }
    ensures kept { IsSettledAs hour.old hour.new }
{
    let settled = hour.settled_len();
    if any_opens(rooms, &hour.events()[settled..]) {
        let number = hour.hour();
        sweep(alloc, hour, grid, number)?;
    }
    Ok(())
}

// Whether one of some events is a leg over an arc whose opposite arc has no room.
fn any_opens(rooms: &Rooms, events: &[Event]) -> bool
    requires { opening.AreWithin (length rooms.now) events.now }
    ensures { result ≡ opening.any_opens (room_of rooms.now) events.now }
{
    for event in events {
        if opens(rooms, event) {
            return true;
        }
    }
    false
}

// Whether an event is such a leg.
fn opens(rooms: &Rooms, event: &Event) -> bool
    requires { opening.IsWithin (length rooms.now) event.now }
    ensures { result ≡ opening.opens (room_of rooms.now) event.now }
{
    match event {
        Event::Leg { leg, .. } => may_open(rooms, leg.route.as_slice()),
        _ => false,
    }
}
