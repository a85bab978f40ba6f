//! A caller's pass: what its holder has seen of the journal, and what of it is the caller's own.
#![tactic(auto)]

mod pass;

pub use pass::Pass;
