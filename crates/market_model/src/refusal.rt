//! Why a command is refused.

ghost use Rattle.std.specs.Prelude.{◌≡◌};

use order_kinds::{OrderFault, Phase, Quarter};
use zone_graph::{Duplicate, NoMemory, Zones};

/// The first rule that a command breaks. A refused command changes nothing but the journal.
#[derive(Debug, Drop, PartialEq, Eq)]
pub enum Refusal {
    /// The caller's role may not give this command.
    WrongRole,
    /// The delivery day has no such hour.
    UnknownHour,
    /// An hour has no such quarter or half.
    UnknownContract,
    /// The grid has no such zone.
    UnknownZone,
    /// No border joins these zones.
    UnknownBorder,
    /// The hours or quarters of a range or of a block do not stand in order, or are too few or too
    /// many.
    BadPeriod,
    /// The orders of a basket are too few, too many, not of ascending hours, or not fill-or-kill.
    BadBasket,
    /// A price is not from -9999.00 to 9999.00 a MWh.
    PriceOutOfRange,
    /// A quantity is not in its range.
    QuantityOutOfRange,
    /// An iceberg's peak does not fit its total or its price.
    BadPeak,
    /// An hour is closed.
    Closed {
        /// The first such hour.
        hour: u32,
    },
    /// The asked phase is not later than the hour's.
    GateBack {
        /// The phase that the hour has.
        phase: Phase,
    },
    /// The caller has no open order of that name that the command can change.
    UnknownOrder,
    /// An offer is below what already flows.
    BelowFlow {
        /// The first such quarter.
        quarter: Quarter,
        /// What flows there in the offer's direction, in lots.
        flow: u32,
    },
    /// A request is above the room that is there.
    NoRoom {
        /// The first such quarter.
        quarter: Quarter,
        /// The room there, in lots.
        room: u32,
    },
    /// A fill-or-kill order cannot be filled.
    Unfilled {
        /// The zones that the taking could reach at its end, ascending.
        zones: Zones,
        /// No way of trading fills more lots than this.
        bound: u64,
    },
    /// An order of a basket cannot be filled.
    BasketUnfilled {
        /// The hour of the first such order.
        hour: u32,
        /// The zones that its taking could reach at its end, ascending.
        zones: Zones,
        /// No way of trading fills more lots of it than this.
        bound: u64,
    },
    /// As many orders and blocks of the hour are open as may be.
    DeskFull,
}

impl From<OrderFault> for Refusal {
    ghost use Rattle.market_model.specs.Refusal.{refusal_of};

    ghost from_gives = { λ fault refusal. refusal ≡ refusal_of fault };

    fn from(fault: OrderFault) -> Refusal {
        match fault {
            OrderFault::PriceOutOfRange => Refusal::PriceOutOfRange,
            OrderFault::QuantityOutOfRange => Refusal::QuantityOutOfRange,
            OrderFault::BadPeak => Refusal::BadPeak,
        }
    }
}

impl Duplicate for Refusal {
    fn copy(&self) -> Result<Refusal, NoMemory> {
        Ok(match self {
            Refusal::WrongRole => Refusal::WrongRole,
            Refusal::UnknownHour => Refusal::UnknownHour,
            Refusal::UnknownContract => Refusal::UnknownContract,
            Refusal::UnknownZone => Refusal::UnknownZone,
            Refusal::UnknownBorder => Refusal::UnknownBorder,
            Refusal::BadPeriod => Refusal::BadPeriod,
            Refusal::BadBasket => Refusal::BadBasket,
            Refusal::PriceOutOfRange => Refusal::PriceOutOfRange,
            Refusal::QuantityOutOfRange => Refusal::QuantityOutOfRange,
            Refusal::BadPeak => Refusal::BadPeak,
            Refusal::Closed { hour } => Refusal::Closed { hour: *hour },
            Refusal::GateBack { phase } => Refusal::GateBack { phase: *phase },
            Refusal::UnknownOrder => Refusal::UnknownOrder,
            Refusal::BelowFlow { quarter, flow } => Refusal::BelowFlow {
                quarter: *quarter,
                flow: *flow,
            },
            Refusal::NoRoom { quarter, room } => Refusal::NoRoom {
                quarter: *quarter,
                room: *room,
            },
            Refusal::Unfilled { zones, bound } => Refusal::Unfilled {
                zones: zones.copy()?,
                bound: *bound,
            },
            Refusal::BasketUnfilled { hour, zones, bound } => Refusal::BasketUnfilled {
                hour: *hour,
                zones: zones.copy()?,
                bound: *bound,
            },
            Refusal::DeskFull => Refusal::DeskFull,
        })
    }
}
