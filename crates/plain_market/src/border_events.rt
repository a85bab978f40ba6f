//! What happens on a border as a command is carried out.

ghost use Rattle.std.specs.Prelude.{◌≡◌};
ghost use Rattle.plain_market.specs.Borders as borders;

use market_model::{Command, Event, Quarter};
use zone_graph::{Arc, Grid};

/// An event on a border, and from which to which hour it is.
#[derive(Drop)]
pub(crate) struct BorderEvent {
    /// What happens.
    pub event: Event,
    /// From which hour on.
    pub first: u32,
    /// To which hour.
    pub last: u32,
}

/// What an offer, a request, a halt or a resumption makes of the border that it names. `None` where no
/// border joins the zones, and of every other command.
pub(crate) fn border_event(grid: &Grid, command: &Command) -> Option<BorderEvent>
    ensures { result ≡ borders.border_event grid.now command.now }
{
    match command {
        Command::Offer {
            from,
            to,
            first,
            last,
            lots,
        } => Some(offer(grid.arc(*from, *to)?, *first, *last, *lots)),
        Command::Request {
            from,
            to,
            first,
            last,
            lots,
        } => Some(grant(grid.arc(*from, *to)?, *first, *last, *lots)),
        Command::Halt {
            from,
            to,
            first,
            last,
        } => Some(halt(grid.arc(*from, *to)?, *first, *last)),
        Command::Resume {
            from,
            to,
            first,
            last,
        } => Some(resumption(grid.arc(*from, *to)?, *first, *last)),
        _ => None,
    }
}

// So many lots are offered on an arc from a quarter to a quarter.
fn offer(arc: Arc, first: Quarter, last: Quarter, lots: u32) -> BorderEvent
    ensures { result ≡ borders.offer first last lots arc }
{
    BorderEvent {
        event: Event::Offered {
            arc,
            first,
            last,
            lots,
        },
        first: first.hour,
        last: last.hour,
    }
}

// So many lots are granted on an arc from a quarter to a quarter.
fn grant(arc: Arc, first: Quarter, last: Quarter, lots: u32) -> BorderEvent
    ensures { result ≡ borders.grant first last lots arc }
{
    BorderEvent {
        event: Event::Granted {
            arc,
            first,
            last,
            lots,
        },
        first: first.hour,
        last: last.hour,
    }
}

// The border of an arc is halted from an hour to an hour.
fn halt(arc: Arc, first: u32, last: u32) -> BorderEvent
    ensures { result ≡ borders.halt first last arc }
{
    BorderEvent {
        event: Event::Halted {
            border: arc.border,
            first,
            last,
        },
        first,
        last,
    }
}

// The border of an arc is resumed from an hour to an hour.
fn resumption(arc: Arc, first: u32, last: u32) -> BorderEvent
    ensures { result ≡ borders.resumption first last arc }
{
    BorderEvent {
        event: Event::Resumed {
            border: arc.border,
            first,
            last,
        },
        first,
        last,
    }
}
