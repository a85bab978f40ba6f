//! Want of memory, and copies that may meet it.

ghost use Rattle.std.specs.Prelude.{◌≡◌, codes, Some, IfOk};

use std::alloc::{AllocError, AllocFailed};
use std::error::Error;
use std::fmt;

/// Memory that was asked for was not there.
#[derive(Clone, Copy, Debug, PartialEq, Eq)]
pub struct NoMemory;

impl fmt::Display for NoMemory {
    ghost output = { λ _. Some (codes "no memory") };

    fn fmt<W: fmt::Write>(&self, f: &mut fmt::Formatter<W>) -> fmt::Result {
        write!(f, "no memory")
    }
}

impl Error for NoMemory {}

impl From<AllocError> for NoMemory {
    fn from(_error: AllocError) -> NoMemory {
        NoMemory
    }
}

impl<T: Drop> From<AllocFailed<T>> for NoMemory {
    fn from(_error: AllocFailed<T>) -> NoMemory {
        NoMemory
    }
}

/// A value of which a second, equal one can be made. Unlike a `Clone`, the copy is the same value
/// to every contract.
pub trait Duplicate: Drop {
    /// Makes an equal value.
    fn copy(&self) -> Result<Self, NoMemory>
        ensures { IfOk result (λ copy. copy ≡ self.now) };
}

impl<T: Copy> Duplicate for T {
    fn copy(&self) -> Result<T, NoMemory> {
        Ok(*self)
    }
}
