//! A market's journal on a disk: the line of each entry, without its line feed, is a line of a durable journal.
#![tactic(auto)]

mod appending;
mod images;

pub use appending::{append_entry, is_line_of};
pub use images::{open_empty, open_written, read_image};
