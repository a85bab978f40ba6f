//! Worked sessions as theorems: from the definitions of the market alone the journal of each
//! session follows, to the byte; and from those of the grid which routes are best. Each is the contract of a function that does nothing.
#![tactic(auto, unfolding(crate::proofs::Computing::computing))]

mod blocks;
mod diamond;
mod filling;
mod halves;
mod refusing;
mod routes;
mod sweeping;
mod trading;

pub use blocks::{block_over_two_routes, blocks_matched_later};
pub use diamond::{best_routes, reached_zones};
pub use filling::{
    baskets, cancel_and_reduce, iceberg_peaks, iceberg_with_a_delta, immediate_or_cancel,
    unfilled_fill_or_kill, views, zones_of_an_unfilled_order,
};
pub use halves::{half_hours, halves_before_quarters};
pub use refusing::named_refusals;
pub use routes::{below_the_flow, local_and_remote, netting, quarters_share_a_border, two_routes};
pub use sweeping::{halt_and_resume, sweep_after_netting};
pub use trading::one_sale;
