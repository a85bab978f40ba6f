//! An hour moves to a later phase.

ghost use Rattle.std.specs.Prelude.{◌≡◌, None, IfOk, OnErr, OnOk, map};
ghost use Rattle.laws_of_boards.specs.Settled.{IsSettled};
ghost use Rattle.kept_hour.specs.Planned.{IsUnplanned, after_events, with_planned};
ghost use Rattle.kept_hour.specs.State.{CanBeNext, gate_of, undone};
ghost use Rattle.market_model.specs.Market as market;
ghost use Rattle.market_model.specs.Sweep.{all_parts};
ghost use Rattle.desk_changes.specs.Quiet.{HasNoLeg};
ghost use Rattle.desk_changes.specs.StillOpen as listed;

use crate::still_open::{StillOpen, open_in};
use kept_hour::KeptHour;
use market_model::Phase;
use std::alloc::Global;
use zone_graph::NoMemory;

/// Moves an hour to a later phase; where it closes, all that is open is withdrawn, in order of entry.
/// The sweep of the hour finds nothing then, and is not made.
///
/// Nothing is planned before, and nothing is left to trade.
///
/// # Errors
///
/// [`NoMemory`] where memory runs out; nothing is planned then.
pub fn gate(alloc: Global, hour: &mut KeptHour, phase: Phase) -> Result<(), NoMemory>
    requires unplanned { IsUnplanned hour.old }
    requires next { CanBeNext hour.old (gate_of hour.old phase) }
    requires quiet { IsSettled hour.old.board.grid hour.old.board.hour hour.old.settled }
    ensures planned { OnOk result (hour.new ≡ with_planned hour.old (market.gate all_parts hour.old.board.grid hour.old.board.hour phase hour.old.settled)) }
    ensures unchanged { OnErr result (hour.new ≡ hour.old) }
{
    let open = ended_by(alloc, hour, phase)?;
    hour.gate(phase)?;
    match withdraw_all(hour, open.as_slice()) {
        Ok(()) => Ok(()),
        Err(error) => {
            hour.undo();
            Err(error)
        }
    }
}

// What a phase ends: all that is open of an hour which closes, and else nothing.
fn ended_by(alloc: Global, hour: &KeptHour, phase: Phase) -> Result<Vec<StillOpen>, NoMemory>
    requires free { hour.now.board.hand ≡ None }
    requires quiet { HasNoLeg hour.now.board.grid hour.now.board.hour hour.now.board.events }
    ensures withdrawals { IfOk result (λ found. map (listed.withdrawal hour.now.board.hour) found.items ≡ market.withdrawals hour.now.board.events hour.now.board.hour phase) }
    ensures can { IfOk result (λ found. listed.CanEnd hour.now.board found.items) }
{
    let _ = hour.events();
    match phase {
        Phase::Closed => open_in(alloc, hour),
        _ => Ok(Vec::new(alloc)),
    }
}

// Withdraws some orders and blocks, which are open. No order is in hand.
//
// Where memory runs out, some of them may be withdrawn.
fn withdraw_all(hour: &mut KeptHour, items: &[StillOpen]) -> Result<(), NoMemory>
    requires free { hour.old.board.hand ≡ None }
    requires can { listed.CanEnd hour.old.board items.now }
    ensures withdrawn { OnOk result (hour.new ≡ after_events hour.old (map (listed.withdrawal hour.old.board.hour) items.now)) }
    ensures quiet { OnOk result (HasNoLeg hour.new.board.grid hour.new.board.hour hour.new.board.events) }
    ensures planned { OnErr result (undone hour.new ≡ undone hour.old) }
{
    for item in items {
        hour.withdraw(item.part, item.number, item.lots)?;
    }
    Ok(())
}
