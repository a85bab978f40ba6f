//! What an offer or a request asks for.

use order_kinds::Quarter;
use zone_graph::Arc;

/// Lots over an arc in each quarter from the first to the last: what is offered, or what is asked for.
#[derive(Clone, Copy, Debug)]
pub struct Asked {
    /// The arc.
    pub arc: Arc,
    /// The first quarter.
    pub first: Quarter,
    /// The last quarter.
    pub last: Quarter,
    /// The lots in each of them, tenths of a MW.
    pub lots: u32,
}
