//! A durable journal: lines on a disk, which a crash at any moment leaves whole.
//!
//! [`open_image`] finds the lines that the disk stores, and [`append`] adds one. A line is written
//! behind a gate that is closed on the disk, and counts once the gate is open there, so a crash
//! leaves the lines from before an append, or these and the new one, and none in part.
#![tactic(auto)]

mod appending;
mod at;
mod faults;
mod laws;
mod lines;
mod opening;

pub use appending::{MOST_STORED, append};
pub use at::At;
pub use faults::{AppendFault, ImageFault};
pub use laws::{damage_is_unique, images_store_their_lines, stored_lines_are_unique};
pub use lines::Lines;
pub use opening::open_image;

#[cfg(test)]
mod tests;
