//! Tests of the venue: one caller and several.
//!
//! A crate that has tests is proved once more for them, so these stand beside the crate of the venue.
#![tactic(auto)]

#[cfg(test)]
mod answers;
#[cfg(test)]
mod commands;
#[cfg(test)]
mod desk_tests;
#[cfg(test)]
mod party;
mod setups;
#[cfg(test)]
mod tests;

pub use setups::market;
