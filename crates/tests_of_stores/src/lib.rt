//! Tests of the crates that hold things and hand them on: pools, books of orders and of blocks, logs
//! of changes, sources and sinks.
//!
//! A crate that has tests is proved once more for them, so the tests of several crates stand here
//! together.
#![tactic(auto)]

#[cfg(test)]
mod block_tests;
#[cfg(test)]
mod book_tests;
#[cfg(test)]
mod end_tests;
#[cfg(test)]
mod log_tests;
#[cfg(test)]
mod pool_tests;
#[cfg(test)]
mod resting_orders;
