//! Records in a pool of 4096 places, found by their keys.
#![tactic(auto)]

mod keyed;
mod ranked;

pub use keyed::{Keyed, KeyedPool};
pub use order_pool::Full;
pub use ranked::{Ranked, spot};
