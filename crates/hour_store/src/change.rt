//! What was changed, with what brings the old state back.

use block_book::RestingBlock;
use contract_book::Resting;
use flow_netting::QuarterSet;
use order_kinds::Phase;
use zone_graph::Arc;

/// A change of what an hour keeps, with what takes it back.
#[derive(Clone, Copy)]
pub enum Change {
    /// An order came to rest.
    OrderRested {
        /// The number of its part.
        part: u32,
        /// Its record.
        order: Resting,
    },

    /// An order was filled, reduced or withdrawn.
    OrderChanged {
        /// The number of its part.
        part: u32,
        /// Its record before.
        was: Resting,
    },

    /// A block came to rest.
    BlockRested {
        /// Its number.
        number: u32,
    },

    /// A block was withdrawn.
    BlockLeft {
        /// Its record.
        was: RestingBlock,
    },

    /// Lots were carried on an arc.
    Carried {
        /// The arc.
        arc: Arc,
        /// In which quarters.
        set: QuarterSet,
        /// How many lots.
        lots: u32,
    },

    /// Other lots were offered on an arc in a quarter.
    Offered {
        /// The arc.
        arc: Arc,
        /// The number of the quarter.
        number: u32,
        /// The lots that were offered before.
        lots: u32,
    },

    /// A border was halted, or trade over it went on.
    HaltSet {
        /// The number of the border.
        border: u32,
        /// Whether it was halted before.
        was: bool,
    },

    /// The hour got a phase.
    PhaseSet {
        /// The phase before.
        was: Phase,
    },
}
