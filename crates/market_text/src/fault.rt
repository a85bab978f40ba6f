//! Why a text is not read.

ghost use Rattle.std.specs.Prelude.{◌≡◌, Some};
ghost use Rattle.market_text.specs.Fault.{fault_at, fault_text};

use command_lines::LineFault;
use std::error::Error;
use std::fmt;

/// Why a session text did not become a session.
#[derive(Clone, Copy, Debug)]
pub enum TextFault {
    /// A line is not of a form that may stand at its place, or breaks a rule of its form.
    BadSession {
        /// The first such line, counted from 1 over all lines.
        line: u32,
    },
    /// Memory that was asked for was not there.
    NoMemory,
}

impl TextFault {
    /// The fault of a text whose first line that is not taken has this number.
    pub fn at(fault: LineFault, line: u32) -> TextFault
        ensures { result ≡ fault_at fault line }
    {
        match fault {
            LineFault::Bad => TextFault::BadSession { line },
            LineFault::NoMemory => TextFault::NoMemory,
        }
    }
}

impl fmt::Display for TextFault {
    ghost output = { λ fault. Some (fault_text fault) };

    fn fmt<W: fmt::Write>(&self, f: &mut fmt::Formatter<W>) -> fmt::Result {
        match self {
            TextFault::BadSession { line } => write!(f, "bad session, line {line}"),
            TextFault::NoMemory => write!(f, "no memory"),
        }
    }
}

impl Error for TextFault {}
