//! Why a venue is not opened, and why a command is not submitted.

ghost use Rattle.std.specs.Prelude.{◌≡◌, Some};
ghost use Rattle.venue_core.specs.declared.faults.OpenFault.TheVariants as opening;
ghost use Rattle.venue_core.specs.declared.faults.SubmitFault.TheVariants as submitting;
ghost use Rattle.venue_core.specs.Faults.{opening_text, submitting_text};

use std::error::Error;
use std::fmt;
use zone_graph::{GridFault, NoMemory};

/// Why a venue is not opened.
#[derive(Clone, Copy, Debug, PartialEq, Eq)]
pub enum OpenFault {
    /// The setup's zones and borders make no grid.
    BadSetup(GridFault),
    /// Memory that was asked for was not there.
    NoMemory,
}

/// Why a command is not submitted. The journal has no entry of it.
#[derive(Clone, Copy, Debug, PartialEq, Eq)]
pub enum SubmitFault {
    /// The caller has as many entries in the journal as it may have.
    JournalFull {
        /// How many it has.
        entries: u32,
    },
    /// Memory that was asked for was not there.
    NoMemory,
}

impl From<NoMemory> for OpenFault {
    ghost from_gives = { λ _ fault. fault ≡ opening.NoMemory };

    fn from(_error: NoMemory) -> OpenFault {
        OpenFault::NoMemory
    }
}

impl From<kept_lock::NoMemory> for OpenFault {
    ghost from_gives = { λ _ fault. fault ≡ opening.NoMemory };

    fn from(_error: kept_lock::NoMemory) -> OpenFault {
        OpenFault::NoMemory
    }
}

impl From<NoMemory> for SubmitFault {
    ghost from_gives = { λ _ fault. fault ≡ submitting.NoMemory };

    fn from(_error: NoMemory) -> SubmitFault {
        SubmitFault::NoMemory
    }
}

impl fmt::Display for OpenFault {
    ghost output = { λ fault. Some (opening_text fault) };

    fn fmt<W: fmt::Write>(&self, f: &mut fmt::Formatter<W>) -> fmt::Result {
        match self {
            OpenFault::BadSetup(fault) => write!(f, "{fault}"),
            OpenFault::NoMemory => write!(f, "no memory"),
        }
    }
}

impl fmt::Display for SubmitFault {
    ghost output = { λ fault. Some (submitting_text fault) };

    fn fmt<W: fmt::Write>(&self, f: &mut fmt::Formatter<W>) -> fmt::Result {
        match self {
            SubmitFault::JournalFull { entries } => {
                write!(f, "the journal is full: the caller has {entries} entries")
            }
            SubmitFault::NoMemory => write!(f, "no memory"),
        }
    }
}

impl Error for OpenFault {}

impl Error for SubmitFault {}
