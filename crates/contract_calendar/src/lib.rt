//! The hours and quarters of a delivery day and the phases of its hours, by instants.
//!
//! The delivery day is a day of Central European time. By the rules of the European Union
//! (Directive 2000/84/EC) the clock is put forward by an hour at 01:00 UTC of the last Sunday of
//! March and back at 01:00 UTC of the last Sunday of October. So it is 2 hours ahead of UTC from
//! the one to the other and 1 hour ahead otherwise, and a day has 23, 24 or 25 hours. They are
//! numbered from 1 in the order in which they come.
//!
//! All of this is computed from dates and instants alone. No table of time zones is read.
#![tactic(auto)]

mod clock;
mod day;

pub use day::{Day, NoSuchDay};
