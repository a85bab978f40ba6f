//! One hour's part of a command that touches several.

use block_match::BlockDeal;
use order_kinds::{BlockOrder, Quarter};
use zone_graph::{Arc, Sequence};

/// Deals of blocks, in order.
pub type BlockDeals = Sequence<BlockDeal>;

/// A block that enters, and whose it is.
#[derive(Clone, Copy, Debug)]
pub struct BlockEntry {
    /// The number of the caller.
    pub caller: u32,

    /// What is entered.
    pub order: BlockOrder,
}

/// What an hour shares with other hours of what a command does. Lots are tenths of a MW.
#[derive(Debug, Drop)]
pub enum PartWork {
    /// Capacity is offered over an arc in a range of quarters, some of which are the hour's.
    Offer {
        /// The arc.
        arc: Arc,

        /// The first quarter of the range.
        first: Quarter,

        /// The last quarter of the range.
        last: Quarter,

        /// The lots that are offered.
        lots: u32,
    },

    /// Capacity is granted over an arc in a range of quarters, some of which are the hour's.
    Grant {
        /// The arc.
        arc: Arc,

        /// The first quarter of the range.
        first: Quarter,

        /// The last quarter of the range.
        last: Quarter,

        /// The lots that are granted.
        lots: u32,
    },

    /// Trade over a border is halted from an hour to an hour, this one among them.
    Halt {
        /// The number of the border.
        border: u32,

        /// The first hour.
        first: u32,

        /// The last hour.
        last: u32,
    },

    /// Trade over a border goes on from an hour to an hour, this one among them.
    Resume {
        /// The number of the border.
        border: u32,

        /// The first hour.
        first: u32,

        /// The last hour.
        last: u32,
    },

    /// Blocks of a period trade, this hour one of its hours. In the first hour a block may enter, with the
    /// deal that it finds.
    Block {
        /// The first hour of the period.
        first: u32,

        /// Its last hour.
        last: u32,

        /// The block that enters this hour, if one does.
        entered: Option<BlockEntry>,

        /// The deals, in order.
        deals: BlockDeals,
    },
}
