//! Tests of whole runs of the program.
//!
//! A crate that has tests is proved once more for them, so these stand beside the crate of the run.
#![tactic(auto)]

#[cfg(test)]
mod disk_tests;
#[cfg(test)]
mod record_tests;
#[cfg(test)]
mod records;
#[cfg(test)]
mod recover_tests;
#[cfg(test)]
mod run_tests;
#[cfg(test)]
mod sessions;
#[cfg(test)]
mod streams;
