//! Commands over a range of hours: offers, requests, halts and resumptions.

ghost use Rattle.std.specs.Prelude.{◌≡◌, IfSome};
ghost use Rattle.hour_desk.specs.Ranges as ranges;

use crate::part_work::PartWork;
use market_model::Command;
use zone_graph::Grid;

/// What each hour of the range of a command shares with the others: `None` exactly where no border joins its zones,
/// or it is over no range.
pub fn range_work(grid: &Grid, command: &Command) -> Option<PartWork>
    ensures work { result ≡ ranges.range_work grid.now command.now }
    ensures arc { IfSome result (λ work. ranges.IsOnArc grid.now work) }
{
    match command {
        Command::Offer {
            from,
            to,
            first,
            last,
            lots,
        } => Some(PartWork::Offer {
            arc: grid.arc(*from, *to)?,
            first: *first,
            last: *last,
            lots: *lots,
        }),
        Command::Request {
            from,
            to,
            first,
            last,
            lots,
        } => Some(PartWork::Grant {
            arc: grid.arc(*from, *to)?,
            first: *first,
            last: *last,
            lots: *lots,
        }),
        Command::Halt {
            from,
            to,
            first,
            last,
        } => Some(PartWork::Halt {
            border: grid.arc(*from, *to)?.border,
            first: *first,
            last: *last,
        }),
        Command::Resume {
            from,
            to,
            first,
            last,
        } => Some(PartWork::Resume {
            border: grid.arc(*from, *to)?.border,
            first: *first,
            last: *last,
        }),
        _ => None,
    }
}
