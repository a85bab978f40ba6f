//! A fixed region of 4096 places for items, with lines linked through it.
//!
//! A [`Pool`] holds items of a type that can be copied, each at a place of its own, and keeps its
//! live places in lines, whose order the caller makes: a place joins a line before another place
//! or at its end. [`Rings`] are lines of such places alone, without items, for a second order of
//! the places of a pool. All memory is taken when a pool or its rings are made or copied, and no
//! other call depends on how many places are live.
//!
//! A pool's places, and the links between them, lie in blocks of raw memory, each taken at once. None
//! of it is written before it is used, so that opening a pool takes the same few steps whatever its
//! size, and a copy copies what was used.
#![tactic(auto)]

mod cells;
mod faults;
mod links;
mod pool;
mod region;
mod rings;
mod slots;

pub use faults::{Full, NoMemory};
pub use pool::{MOST_LINES, Pool};
pub use rings::{PLACES, Rings};
