//! How bytes come in and go out, and a gate that tests hold commands with.
//!
//! A [`Source`] gives bytes and a [`Sink`] takes them, each with a count of its faults that never
//! falls; a source counts its reads too. [`BytesSource`] and [`BytesSink`] stand in memory and fail
//! at calls that are listed beforehand, [`SteadySource`] and [`NullSink`] never fail, and
//! [`ReadSource`] and [`WriteSink`] adapt a reader and a writer of the standard library.
#![tactic(auto)]

mod bytes_sink;
mod bytes_source;
mod copying;
mod faults;
mod gates;
mod null_sink;
mod read_source;
mod reading;
mod steady_source;
mod write_sink;
mod writing;

pub use bytes_sink::BytesSink;
pub use bytes_source::BytesSource;
pub use faults::{Failed, NoMemory};
pub use gates::{Gate, OpenGate};
pub use null_sink::NullSink;
pub use read_source::ReadSource;
pub use reading::Source;
pub use steady_source::SteadySource;
pub use write_sink::WriteSink;
pub use writing::Sink;
