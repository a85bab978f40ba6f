//! Tests of the crates of routes: zones reached, distances, trees of routes, best routes, what routes carry and
//! pours go over.
//!
//! A crate that has tests is proved once more for them, so the tests of several crates stand here
//! together.
#![tactic(auto)]

#[cfg(test)]
mod made;
#[cfg(test)]
mod pour_tests;
#[cfg(test)]
mod reach_tests;
#[cfg(test)]
mod route_tests;
#[cfg(test)]
mod tree_tests;
