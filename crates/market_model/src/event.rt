//! What happens in the market.

use crate::copying::copy_variants;
use order_kinds::{BlockOrder, Contract, Order, OrderName, Phase, Price, Quarter};
use zone_graph::{Arc, Duplicate, NoMemory, Route, Sequence};

/// A trade of two orders, or of two blocks, over one route.
#[derive(Debug, Drop, PartialEq, Eq)]
pub struct Leg {
    /// Whose order came later.
    pub taker: OrderName,
    /// Whose order gives the price.
    pub maker: OrderName,
    /// How much is traded, in lots (tenths of a MW); of blocks, in each quarter of the period.
    pub lots: u32,
    /// At what price, in cents per MWh.
    pub price: Price,
    /// The arcs from the seller's zone to the buyer's.
    pub route: Route,
}

impl Duplicate for Leg {
    fn copy(&self) -> Result<Leg, NoMemory> {
        Ok(Leg {
            taker: self.taker,
            maker: self.maker,
            lots: self.lots,
            price: self.price,
            route: self.route.copy()?,
        })
    }
}

/// An event. Quantities are lots (tenths of a MW).
#[derive(Debug, Drop, PartialEq, Eq)]
pub enum Event {
    /// An order was accepted.
    Entered {
        /// Its name.
        name: OrderName,
        /// Whose it is.
        caller: u32,
        /// What was entered.
        order: Order,
    },

    /// A block was accepted.
    EnteredBlock {
        /// Its name.
        name: OrderName,
        /// Whose it is.
        caller: u32,
        /// What was entered.
        order: BlockOrder,
    },

    /// Two orders traded.
    Leg {
        /// The contract of both.
        contract: Contract,
        /// The trade.
        leg: Leg,
    },

    /// Two blocks traded, as far as one route carries them.
    BlockLeg {
        /// The first hour of both.
        first: u32,
        /// The last hour of both.
        last: u32,
        /// The trade.
        leg: Leg,
    },

    /// Capacity was granted without a trade.
    Granted {
        /// On which arc.
        arc: Arc,
        /// From which quarter on.
        first: Quarter,
        /// To which quarter.
        last: Quarter,
        /// How much in each quarter.
        lots: u32,
    },

    /// Capacity was offered.
    Offered {
        /// On which arc.
        arc: Arc,
        /// From which quarter on.
        first: Quarter,
        /// To which quarter.
        last: Quarter,
        /// How much in each quarter.
        lots: u32,
    },

    /// A border was halted in both directions.
    Halted {
        /// Which border.
        border: u32,
        /// From which hour on.
        first: u32,
        /// To which hour.
        last: u32,
    },

    /// A border was resumed in both directions.
    Resumed {
        /// Which border.
        border: u32,
        /// From which hour on.
        first: u32,
        /// To which hour.
        last: u32,
    },

    /// An hour moved to a later phase.
    Gated {
        /// The hour.
        hour: u32,
        /// The phase that it has now.
        phase: Phase,
    },

    /// An order or a block left the order book.
    Withdrawn {
        /// Which one.
        name: OrderName,
        /// What was left of it.
        lots: u32,
    },

    /// An order was reduced.
    Reduced {
        /// Which one.
        name: OrderName,
        /// By how much.
        by: u32,
    },
}

/// Events in order.
pub type Events = Sequence<Event>;

impl Duplicate for Event {
    fn copy(&self) -> Result<Event, NoMemory> {
        Ok(copy_variants!(
            self, Event;
            plain
                Entered { name, caller, order },
                EnteredBlock { name, caller, order },
                Granted { arc, first, last, lots },
                Offered { arc, first, last, lots },
                Halted { border, first, last },
                Resumed { border, first, last },
                Gated { hour, phase },
                Withdrawn { name, lots },
                Reduced { name, by };
            deep
                Leg { contract, leg },
                BlockLeg { first, last, leg }
        ))
    }
}
