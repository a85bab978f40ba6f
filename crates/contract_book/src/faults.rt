//! Why a call of a book is refused.

ghost use Rattle.std.specs.Prelude.{codes, Some};

use std::error::Error;
use std::fmt;

/// 4096 orders rest already.
#[derive(Clone, Copy, Debug, PartialEq, Eq)]
pub struct Full;

impl fmt::Display for Full {
    ghost output = { λ _. Some (codes "4096 orders rest already") };

    fn fmt<W: fmt::Write>(&self, f: &mut fmt::Formatter<W>) -> fmt::Result {
        write!(f, "4096 orders rest already")
    }
}

impl Error for Full {}
