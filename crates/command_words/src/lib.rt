//! The words of the command line, and what they ask for.
//!
//! Which lists of words mean something is decided word by word; such a list is then taken apart by
//! `clap`.
#![tactic(auto)]

mod matching;
mod words;

pub use matching::task_of;
pub use words::{Task, is_trade};
