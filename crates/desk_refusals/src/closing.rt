//! The rules on the phase of the hour.

ghost use Rattle.std.specs.Prelude.{◌≡◌, not};
ghost use Rattle.std.specs.Option.{option_map};
ghost use Rattle.order_kinds.specs.Phase as phases;
ghost use Rattle.market_model.specs.Refusals as refusals;
ghost use Rattle.market_model.specs.Room.{is_closed_phase, phase_of};
ghost use Rattle.market_model.specs.Rules.{unless};
ghost use Rattle.desk_refusals.specs.Concerned.{ConcernsAlone};

use kept_hour::KeptHour;
use market_model::{Command, Refusal};
use order_kinds::Phase;

/// Whether the hour is closed: nothing is traded in it any more.
pub fn is_closed(hour: &KeptHour) -> bool
    ensures { result ≡ is_closed_phase (phase_of hour.now.board.events hour.now.board.hour) }
{
    matches!(hour.flows().phase(), Phase::Closed)
}

/// The refusal of a command that concerns the hour where it is closed: gates and views are not asked.
pub(crate) fn refuse_closed(hour: &KeptHour, command: &Command) -> Option<Refusal>
    requires concerns { ConcernsAlone hour.now command.now }
    ensures { result ≡ option_map (λ hour. Refusal.Closed hour) (refusals.closed_hour hour.now.board.events command.now) }
{
    match command {
        Command::Gate { .. } | Command::View { .. } => None,
        _ => refuse_if_closed(hour),
    }
}

// The refusal by the hour, if it is closed.
fn refuse_if_closed(hour: &KeptHour) -> Option<Refusal>
    ensures { result ≡ unless (not (is_closed_phase (phase_of hour.now.board.events hour.now.board.hour))) (Refusal.Closed hour.now.board.hour) }
{
    if is_closed(hour) {
        Some(Refusal::Closed { hour: hour.hour() })
    } else {
        None
    }
}

/// The refusal of a gate that does not lead to a later phase.
pub(crate) fn refuse_gate(hour: &KeptHour, command: &Command) -> Option<Refusal>
    requires concerns { ConcernsAlone hour.now command.now }
    ensures { result ≡ refusals.gate_refusal hour.now.board.events command.now }
{
    match command {
        Command::Gate { phase: asked, .. } => refuse_unless_later(*asked, hour.flows().phase()),
        _ => None,
    }
}

// The refusal of a phase that does not come after the one that the hour has.
fn refuse_unless_later(asked: Phase, phase: Phase) -> Option<Refusal>
    ensures { result ≡ unless (phases.is_later asked phase) (Refusal.GateBack phase) }
{
    if asked.is_later(phase) {
        None
    } else {
        Some(Refusal::GateBack { phase })
    }
}
