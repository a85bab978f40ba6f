//! Tests of locks: of one value, of the desks of hours, and of the seats with which traders meet a journal.
//!
//! A crate that has tests is proved once more for them, so these stand beside the crates of the locks.
#![tactic(auto)]

#[cfg(test)]
mod desk_tests;
#[cfg(test)]
mod lock_tests;
#[cfg(test)]
mod pass_tests;
