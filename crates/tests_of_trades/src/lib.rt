//! Tests of sessions that are traded, by callers on threads of their own.
//!
//! A crate that has tests is proved once more for them, so these stand beside the crate of the run.
#![tactic(auto)]

#[cfg(test)]
mod fault_tests;
#[cfg(test)]
mod journals;
#[cfg(test)]
mod meeting;
#[cfg(test)]
mod runs;
#[cfg(test)]
mod sessions;
#[cfg(test)]
mod trade_tests;
