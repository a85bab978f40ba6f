//! A log of changes that can be taken back.
//!
//! Code that changes a state in place notes in an [`UndoLog`] how to take each change back, and
//! reserves the room for the notes beforehand. To undo all that was done it takes the records back
//! from the last to the first, and to keep it, it clears the log. Neither takes memory.
#![tactic(auto)]

mod log;
mod memory;

pub use log::UndoLog;
pub use memory::NoMemory;
