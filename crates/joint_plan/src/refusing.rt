//! What refuses a command by the state of its hours.

ghost use Rattle.std.specs.Prelude.{◌≡◌};
ghost use Rattle.market_model.specs.Room.{is_closed_phase};
ghost use Rattle.joint_plan.specs.Refusing as refusing;
ghost use Rattle.joint_plan.specs.Rows.{AreOver, AreUnplanned};

use crate::desks::Desks;
use hour_desk::range_work;
use market_model::{Command, Phase, Refusal};
use zone_graph::Grid;

/// The refusal of a command by the first closed hour of those that it touches, and else by the first quarter in
/// which its capacity is refused. Nothing is planned.
pub(crate) fn refuse_by_state<D: Desks>(row: &D, grid: &Grid, command: &Command) -> Option<Refusal>
    requires unplanned { AreUnplanned (D.desks row.now) }
    requires over { AreOver grid.now (D.desks row.now) }
    ensures { result ≡ refusing.state_refusal grid.now command.now (D.desks row.now) }
{
    match refuse_closed(row) {
        Some(refusal) => Some(refusal),
        None => refuse_by_capacity(row, grid, command),
    }
}

/// The refusal by the first hour that is closed. Nothing is planned.
pub fn refuse_closed<D: Desks>(row: &D) -> Option<Refusal>
    requires { AreUnplanned (D.desks row.now) }
    ensures { result ≡ refusing.closed_refusal (D.desks row.now) }
{
    for i in 0..row.len() {
        let desk = row.desk(i);
        if is_closed(desk.phase()) {
            return Some(Refusal::Closed { hour: desk.hour() });
        }
    }
    None
}

// Whether nothing is traded in a phase any more.
fn is_closed(phase: Phase) -> bool
    ensures { result ≡ is_closed_phase phase }
{
    matches!(phase, Phase::Closed)
}

// The refusal of an offer or a request by the first hour in which more flows, or in which there is less room.
fn refuse_by_capacity<D: Desks>(row: &D, grid: &Grid, command: &Command) -> Option<Refusal>
    requires unplanned { AreUnplanned (D.desks row.now) }
    requires over { AreOver grid.now (D.desks row.now) }
    ensures { result ≡ refusing.capacity_refusal grid.now command.now (D.desks row.now) }
{
    let work = range_work(grid, command)?;
    for i in 0..row.len() {
        if let Some(refusal) = row.desk(i).refuse_part(&work) {
            return Some(refusal);
        }
    }
    None
}
