//! What callers ask of the market.

use crate::copying::copy_variants;
use order_kinds::{BlockOrder, Contract, Order, OrderName, Phase, Quarter, Side};
use zone_graph::{Duplicate, NoMemory, Sequence};

/// The orders of a basket.
pub type Orders = Sequence<Order>;

/// A command. Quantities are lots (tenths of a MW).
#[derive(Debug, Drop, PartialEq, Eq)]
pub enum Command {
    /// A trader enters an order.
    Enter {
        /// What is entered.
        order: Order,
    },

    /// A trader enters a block.
    EnterBlock {
        /// What is entered.
        order: BlockOrder,
    },

    /// A trader enters fill-or-kill orders of different hours that are all filled or all refused.
    EnterBasket {
        /// The orders, by ascending hour.
        orders: Orders,
    },

    /// A trader withdraws an order or a block of its own.
    Cancel {
        /// What is withdrawn.
        name: OrderName,
    },

    /// A trader lowers what is left of a plain limit order of its own.
    Reduce {
        /// The order.
        name: OrderName,
        /// What is to be left of it.
        to: u32,
    },

    /// Matches the resting blocks of a period against each other.
    Blocks {
        /// The period's first hour.
        first: u32,
        /// The period's last hour.
        last: u32,
    },

    /// An operator offers capacity from one zone to another.
    Offer {
        /// The zone that the capacity leads from.
        from: u32,
        /// The zone that it leads to.
        to: u32,
        /// The first quarter for which it is offered.
        first: Quarter,
        /// The last one.
        last: Quarter,
        /// How much is offered in each of these quarters.
        lots: u32,
    },

    /// Asks for capacity without a trade.
    Request {
        /// The zone that the capacity leads from.
        from: u32,
        /// The zone that it leads to.
        to: u32,
        /// The first quarter for which it is asked.
        first: Quarter,
        /// The last one.
        last: Quarter,
        /// How much is asked in each of these quarters.
        lots: u32,
    },

    /// An operator halts a border in both directions.
    Halt {
        /// One of the border's zones.
        from: u32,
        /// The other one.
        to: u32,
        /// The first hour in which it is halted.
        first: u32,
        /// The last one.
        last: u32,
    },

    /// An operator resumes a halted border in both directions.
    Resume {
        /// One of the border's zones.
        from: u32,
        /// The other one.
        to: u32,
        /// The first hour in which it is resumed.
        first: u32,
        /// The last one.
        last: u32,
    },

    /// An operator moves an hour to a later phase.
    Gate {
        /// The hour.
        hour: u32,
        /// The phase that it gets.
        phase: Phase,
    },

    /// Asks what a taker in a zone could trade with.
    View {
        /// The contract.
        contract: Contract,
        /// The side of the resting orders.
        side: Side,
        /// The taker's zone.
        zone: u32,
    },
}

/// The commands of one caller, in order.
pub type Commands = Sequence<Command>;

impl Duplicate for Command {
    fn copy(&self) -> Result<Command, NoMemory> {
        Ok(copy_variants!(
            self, Command;
            plain
                Enter { order },
                EnterBlock { order },
                Cancel { name },
                Reduce { name, to },
                Blocks { first, last },
                Offer { from, to, first, last, lots },
                Request { from, to, first, last, lots },
                Halt { from, to, first, last },
                Resume { from, to, first, last },
                Gate { hour, phase },
                View { contract, side, zone };
            deep
                EnterBasket { orders }
        ))
    }
}
