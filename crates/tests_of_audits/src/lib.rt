//! Tests of the audit of journals, and of what it stands on: inputs of two parts, and a reply of the plain market.
//!
//! A crate that has tests is proved once more for them, so these stand beside the crates that they try.
#![tactic(auto)]

#[cfg(test)]
mod audit_tests;
#[cfg(test)]
mod divided_tests;
#[cfg(test)]
mod reply_tests;
#[cfg(test)]
mod sessions;
