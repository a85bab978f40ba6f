//! A disk as a program sees it: what it reads as, and what a crash at any moment may leave of it.
//!
//! A [`Disk`] keeps what was synced. Of what was written since, a crash may leave any part, and any
//! bytes in its place. [`RamDisk`] is such a disk in memory, which fails at calls that are listed
//! beforehand and can be crashed.
#![tactic(auto)]

mod disk;
mod faults;
mod mark;
mod ram_disk;
mod span;
mod writing;

pub use disk::Disk;
pub use faults::{Failed, NoMemory};
pub use ram_disk::RamDisk;
pub use span::Span;

#[cfg(test)]
mod tests;
