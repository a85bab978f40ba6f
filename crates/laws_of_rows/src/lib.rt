//! A local view trade by trade: what a taker of any quantity at any price finds, its trades one after
//! the other, each with what the ones before it left, and the rows that they make. The lemmas in
//! `proofs/` say that these rows are the market's view. The crate runs nothing.
//!
//! Quantities are lots, tenths of a MW; prices are cents per MWh.
#![tactic(auto)]

mod trades;

pub use trades::{Fill, Maker, MakerRow};
