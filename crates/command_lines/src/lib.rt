//! The lines of commands in a session text: which command the words after a caller's name stand for,
//! by the names of the zones, and for which gates a clock line stands.
//!
//! Each reader answers the value for which its words stand, or that the line is bad; the definitions
//! that the contracts cite say which value that is.
#![tactic(auto)]

mod clocks;
mod commands;
mod fault;
mod names;
mod words;

pub use clocks::{ClockTable, list_gates};
pub use commands::command_of_words;
pub use fault::LineFault;
pub use names::NameTable;
pub use words::{first_word, only_word};
