//! The phases through which an hour's trading goes.

ghost use Rattle.std.specs.Prelude.{◌≡◌, Some};
ghost use Rattle.order_kinds.specs.Phase as phases;

use std::fmt;

/// The phase of an hour, from first to last.
///
/// It prints as `open`, `local` or `closed`.
#[derive(Clone, Copy, Debug, PartialEq, Eq)]
pub enum Phase {
    /// Orders match within and across bidding zones.
    Open,

    /// Only orders of the same bidding zone match.
    Local,

    /// Nothing is traded any more.
    Closed,
}

impl Phase {
    /// Whether this phase comes after another one.
    pub fn is_later(self, other: Phase) -> bool
        ensures { result ≡ phases.is_later self other }
    {
        match self {
            Phase::Open => false,
            Phase::Local => matches!(other, Phase::Open),
            Phase::Closed => !matches!(other, Phase::Closed),
        }
    }
}

impl fmt::Display for Phase {
    ghost output = { λ phase. Some (phases.phase_text phase) };

    fn fmt<W: fmt::Write>(&self, f: &mut fmt::Formatter<W>) -> fmt::Result {
        f.write_str(match self {
            Phase::Open => "open",
            Phase::Local => "local",
            Phase::Closed => "closed",
        })
    }
}
