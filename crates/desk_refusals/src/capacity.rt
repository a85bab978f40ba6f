//! The rules on offers and requests: the first quarter in which more flows than is offered, or in which
//! there is less room than is requested.

ghost use Rattle.std.specs.Prelude.{◌≡◌};
ghost use Rattle.zone_graph.specs.Graph.{HasArc};
ghost use Rattle.market_model.specs.Refusals as refusals;
ghost use Rattle.market_model.specs.Asked.{first_in_hour};
ghost use Rattle.market_model.specs.StateRules.{capacity_refusal};
ghost use Rattle.desk_refusals.specs.Concerned.{ConcernsAlone};

use capacity_requests::{test_offer, test_request};
use kept_hour::{KeptHour, quarters_in_range};
use market_model::{Command, Refusal};
use order_kinds::Quarter;
use zone_graph::{Arc, Grid};

/// The refusal by the first quarter of the hour, of those in a range, in which more flows over an arc than
/// would be offered, in lots: `None` exactly where the offer covers the flow in each of them.
pub fn refuse_offer(
    hour: &KeptHour,
    arc: Arc,
    first: Quarter,
    last: Quarter,
    lots: u32,
) -> Option<Refusal>
    requires arc { HasArc hour.now.board.grid arc }
    ensures { result ≡ first_in_hour (refusals.below_flow hour.now.board.events arc lots)
        (record { arc = arc; first = first; last = last; lots = lots }) hour.now.board.hour }
{
    let own = hour.hour();
    let quarters = quarters_in_range(own, first, last);
    let (number, flow) = test_offer(hour.flows(), arc, quarters, lots)?;
    let quarter = Quarter { hour: own, number };
    Some(Refusal::BelowFlow { quarter, flow })
}

/// The refusal by the first quarter of the hour, of those in a range, in which an arc has less room than is
/// requested, in lots: `None` exactly where each of them has that room.
pub fn refuse_request(
    hour: &KeptHour,
    arc: Arc,
    first: Quarter,
    last: Quarter,
    lots: u32,
) -> Option<Refusal>
    requires arc { HasArc hour.now.board.grid arc }
    ensures { result ≡ first_in_hour (refusals.no_room hour.now.board.events arc lots)
        (record { arc = arc; first = first; last = last; lots = lots }) hour.now.board.hour }
{
    let own = hour.hour();
    let quarters = quarters_in_range(own, first, last);
    let (number, room) = test_request(hour.flows(), arc, quarters, lots)?;
    let quarter = Quarter { hour: own, number };
    Some(Refusal::NoRoom { quarter, room })
}

/// The first rule on capacity that a command which concerns the hour alone breaks.
pub(crate) fn refuse_by_capacity(hour: &KeptHour, grid: &Grid, command: &Command) -> Option<Refusal>
    requires grid { grid.now ≡ hour.now.board.grid }
    requires concerns { ConcernsAlone hour.now command.now }
    ensures { result ≡ capacity_refusal grid.now hour.now.board.events command.now }
{
    match command {
        Command::Offer {
            from,
            to,
            first,
            last,
            lots,
        } => {
            let arc = grid.arc(*from, *to)?;
            refuse_offer(hour, arc, *first, *last, *lots)
        }
        Command::Request {
            from,
            to,
            first,
            last,
            lots,
        } => {
            let arc = grid.arc(*from, *to)?;
            refuse_request(hour, arc, *first, *last, *lots)
        }
        _ => None,
    }
}
