//! Tests of deals of blocks, and of the views of a whole hour.
//!
//! A crate that has tests is proved once more for them, so these stand beside the matchers.
#![tactic(auto)]

#[cfg(test)]
mod deal_tests;
#[cfg(test)]
mod view_tests;
