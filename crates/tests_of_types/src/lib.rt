//! Tests of the crates of grids, orders and capacity, and of the market's own types.
//!
//! A crate that has tests is proved once more for them, so the tests of many small crates stand
//! here together.
#![tactic(auto)]

#[cfg(test)]
mod capacity_tests;
#[cfg(test)]
mod copy_tests;
#[cfg(test)]
mod graph_tests;
#[cfg(test)]
mod journal_tests;
#[cfg(test)]
mod made;
#[cfg(test)]
mod order_tests;
#[cfg(test)]
mod peak_tests;
#[cfg(test)]
mod rule_tests;
#[cfg(test)]
mod setups;
