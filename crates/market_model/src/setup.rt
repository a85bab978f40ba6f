//! What is fixed for a session.

use zone_graph::{Duplicate, Names, NoMemory, Pairs, Sequence, Word};

/// What a caller may do.
#[derive(Clone, Copy, Debug, PartialEq, Eq)]
pub enum Role {
    /// It trades: a market participant.
    Trader,
    /// It offers capacity, halts borders and closes gates: a transmission system operator.
    Operator,
}

/// A caller.
#[derive(Debug, Drop, PartialEq, Eq)]
pub struct Caller {
    /// Its name.
    pub name: Word,
    /// What it may do.
    pub role: Role,
    /// How many entries of the journal it may have.
    pub room: u32,
}

impl Duplicate for Caller {
    fn copy(&self) -> Result<Caller, NoMemory> {
        Ok(Caller {
            name: self.name.copy()?,
            role: self.role,
            room: self.room,
        })
    }
}

/// The callers, in the order of their declaration.
pub type Callers = Sequence<Caller>;

/// What is fixed for a session.
#[derive(Debug, Drop, PartialEq, Eq)]
pub struct Setup {
    /// How many hours the delivery day has: 23, 24 or 25.
    pub hours: u32,
    /// The bidding zones' names.
    pub zones: Names,
    /// The two zones of each border.
    pub borders: Pairs,
    /// Who takes part.
    pub callers: Callers,
}

impl Duplicate for Setup {
    fn copy(&self) -> Result<Setup, NoMemory> {
        Ok(Setup {
            hours: self.hours,
            zones: self.zones.copy()?,
            borders: self.borders.copy()?,
            callers: self.callers.copy()?,
        })
    }
}
