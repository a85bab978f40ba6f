//! Tests of the crates of texts: days and their hours, spellings, drawn sessions, the command line.
//!
//! A crate that has tests is proved once more for them, so the tests of several crates stand here
//! together.
#![tactic(auto)]

#[cfg(test)]
mod calendar_tests;
#[cfg(test)]
mod load_tests;
#[cfg(test)]
mod spelling_tests;
#[cfg(test)]
mod word_tests;
