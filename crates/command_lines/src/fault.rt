//! Why a line is not taken.

ghost use Rattle.std.specs.Prelude.{◌≡◌, Some};
ghost use Rattle.command_lines.specs.Fault.{fault_text};

use std::alloc::AllocError;
use std::error::Error;
use std::fmt;
use zone_graph::NoMemory;

/// Why a line of a session text is not taken.
#[derive(Clone, Copy, Debug, PartialEq, Eq)]
pub enum LineFault {
    /// The line is not of a form that may stand at its place, or breaks a rule of its form.
    Bad,
    /// Memory that was asked for was not there.
    NoMemory,
}

impl fmt::Display for LineFault {
    ghost output = { λ fault. Some (fault_text fault) };

    fn fmt<W: fmt::Write>(&self, f: &mut fmt::Formatter<W>) -> fmt::Result {
        f.write_str(match self {
            LineFault::Bad =>
                "the line is not of a form that may stand at its place, or breaks a rule of its form",
            LineFault::NoMemory => "no memory",
        })
    }
}

impl Error for LineFault {}

impl From<NoMemory> for LineFault {
    ghost use Rattle.command_lines.specs.declared.fault.LineFault.TheVariants as fault;

    ghost from_gives = { λ _ result. result ≡ fault.NoMemory };

    fn from(_error: NoMemory) -> LineFault {
        LineFault::NoMemory
    }
}

impl From<AllocError> for LineFault {
    ghost use Rattle.command_lines.specs.declared.fault.LineFault.TheVariants as fault;

    ghost from_gives = { λ _ result. result ≡ fault.NoMemory };

    fn from(_error: AllocError) -> LineFault {
        LineFault::NoMemory
    }
}
