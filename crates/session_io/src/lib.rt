//! What a run reads and writes, and how it ends: a source to its end, the lines of a journal or of another text to a sink,
//! and the status, its number and its message.
#![tactic(auto)]

mod reading;
mod status;
mod writing;

pub use reading::{LONGEST_RECORD, LONGEST_SESSION, ReadError, read_all};
pub use status::{Status, message};
pub use writing::{WriteError, write_journal, write_lines};
pub use zone_graph::NoMemory;
