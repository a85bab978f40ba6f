//! Why an order is to be refused.

use market_model::Zones;

/// Why an order is to be refused once its taking has ended.
#[derive(Drop)]
pub(crate) enum Obstacle {
    /// It is to be filled wholly and is not: these zones are still in its reach.
    Unfilled(Zones),

    /// What would rest of it has no room on the desk.
    DeskFull,
}
