//! The text of the journal: an entry becomes its line of compact JSON.
//!
//! A line is an object with the caller's name, which of the caller's entries it is, the
//! entry's place in the journal, and the reply. These two numbers are numbers; everything else is
//! a text, or an array of texts.
#![tactic(auto)]

mod event;
mod line;
mod names;
mod refusal;
mod spelling;

pub use line::print_entry;
