//! Grids: bidding zones by name and number, the borders between them, and the neighbours of each
//! zone.

ghost use Rattle.std.specs.Prelude.{◌≡◌, ◌≢◌, ◌<◌, codes, Some, IfOk, IfErr, IfSome, OnOk, None, ℕ};
ghost use Rattle.zone_graph.specs.declared.route.Arc.{Arc};
ghost use Rattle.zone_graph.specs.Graph.{HasArc, HasZone, arc_ends, border_count, zone_count};
ghost use Rattle.zone_graph.specs.Grid.{IsGrid, JoinsZones, arc_between, name_of, neighbours_of, number_of_zone};
ghost use Rattle.zone_graph.specs.GridFault.{fault_text, grid_fault};

use crate::grid_parts::{
    arc_to, has_border_again, has_border_to_itself, neighbour_rows, zone_numbers,
};
use crate::memory::{Duplicate, NoMemory};
use crate::route::{Arc, Pairs};
use crate::sequence::Sequence;
use crate::word::{Names, Word};
use std::alloc::{AllocError, AllocFailed, Global};
use std::collections::HashMap;
use std::error::Error;
use std::fmt;
use std::marker::Model;

/// The most zones that a grid has.
pub const MOST_ZONES: usize = 64;

/// The most borders that a grid has.
pub const MOST_BORDERS: usize = 128;

/// Why names and borders make no grid. Where several causes stand together, the first one in this
/// order is answered.
#[derive(Clone, Copy, Debug, PartialEq, Eq)]
pub enum GridFault {
    /// There are more than 64 zones.
    TooManyZones,
    /// A zone has the name of another.
    ZoneTwice,
    /// There are more than 128 borders.
    TooManyBorders,
    /// A border joins a zone with itself.
    SelfBorder,
    /// A border joins two zones that another one joins, in the same order or the other way round.
    BorderTwice,
    /// Memory that was asked for was not there.
    NoMemory,
}

/// An arc that leads from a zone, and the zone that it leads to, by number.
#[derive(Clone, Copy, Debug, PartialEq, Eq)]
pub struct Neighbour {
    /// The arc.
    pub arc: Arc,
    /// The zone that it leads to.
    pub zone: u32,
}

/// The zones of a market and the borders that join them: at most 64 zones of different names, and
/// at most 128 borders, each between two zones that no other border joins. Contracts see the graph
/// of the names and borders that it was made of.
#[derive(Drop)]
pub struct Grid {
    names: Names,
    pairs: Pairs,
    numbers: HashMap<Word, u32>,
    rows: Vec<Sequence<Neighbour>>,
}

impl Model for Grid {
    ghost use Rattle.zone_graph.specs.Graph.{Graph};
    ghost use Rattle.zone_graph.specs.GridIndex.{IsIndexed};

    ghost Value = { Graph };

    ghost view = { λ grid. record { zones = grid.names; borders = grid.pairs } };

    ghost invariant = { λ grid. IsIndexed (record { zones = grid.names; borders = grid.pairs }) grid.numbers.entries grid.rows.items };
}

impl Grid {
    /// The grid of these zones, by name, and of these borders, each given by the numbers of its
    /// first and its second zone. Memory may be wanting whatever else is wrong.
    pub fn new(alloc: Global, zones: &Names, borders: &Pairs) -> Result<Grid, GridFault>
        requires { JoinsZones (record { zones = zones.now; borders = borders.now }) }
        ensures graph { IfOk result (λ grid. grid ≡ record { zones = zones.now; borders = borders.now }) }
        ensures grid { IfOk result IsGrid }
        ensures faultless { OnOk result (grid_fault (record { zones = zones.now; borders = borders.now }) ≡ None) }
        ensures fault { IfErr result (λ fault. fault ≢ GridFault.NoMemory → grid_fault (record { zones = zones.now; borders = borders.now }) ≡ Some fault) }
    {
        if zones.len() > MOST_ZONES {
            return Err(GridFault::TooManyZones);
        }
        let numbers = zone_numbers(alloc, zones.as_slice())?;
        if borders.len() > MOST_BORDERS {
            return Err(GridFault::TooManyBorders);
        }
        if has_border_to_itself(borders.as_slice()) {
            return Err(GridFault::SelfBorder);
        }
        if has_border_again(borders.as_slice()) {
            return Err(GridFault::BorderTwice);
        }
        let rows = neighbour_rows(alloc, zones.len(), borders.as_slice())?;
        Ok(Grid {
            names: zones.copy()?,
            pairs: borders.copy()?,
            numbers,
            rows,
        })
    }

    /// How many zones there are.
    pub fn zones(&self) -> u32
        ensures count { result ≡ zone_count self.now }
        ensures grid { IsGrid self.now }
    {
        self.names.len() as u32
    }

    /// How many borders there are.
    pub fn borders(&self) -> u32
        ensures count { result ≡ border_count self.now }
        ensures grid { IsGrid self.now }
    {
        self.pairs.len() as u32
    }

    /// The zones that an arc leads from and to.
    pub fn ends(&self, arc: Arc) -> (u32, u32)
        requires { HasArc self.now arc }
        ensures ends { result ≡ arc_ends self.now arc }
        ensures grid { IsGrid self.now }
    {
        let (first, second) = self.pairs.as_slice()[arc.border as usize];
        if arc.forward {
            (first, second)
        } else {
            (second, first)
        }
    }

    /// The arcs that lead from a zone, by ascending border, each with the zone that it leads to.
    pub fn neighbours(&self, zone: u32) -> &[Neighbour]
        requires { HasZone self.now zone }
        ensures neighbours { result.now ≡ neighbours_of self.now zone }
        ensures grid { IsGrid self.now }
    {
        self.rows[zone as usize].as_slice()
    }

    /// The arc that leads from a zone to a zone: `None` exactly where no border joins them, as where
    /// one of the numbers is no zone's.
    pub fn arc(&self, from: u32, to: u32) -> Option<Arc>
        ensures arc { result ≡ arc_between self.now from to }
        ensures every { (arc : Arc) → HasArc self.now arc → arc_ends self.now arc ≡ (from, to) → result ≡ Some arc }
        ensures leads { IfSome result (λ arc. HasArc self.now arc × (arc_ends self.now arc ≡ (from, to))) }
        ensures grid { IsGrid self.now }
    {
        if from >= self.zones() {
            return None;
        }
        arc_to(self.neighbours(from), to)
    }

    /// The number of the zone that has a name: `None` exactly where no zone has it.
    pub fn zone_named(&self, name: &Word) -> Option<u32>
        ensures number { result ≡ number_of_zone self.now name.now }
        ensures every { (zone : ℕ) → HasZone self.now zone → name_of self.now zone ≡ name.now → result ≡ Some zone }
        ensures named { IfSome result (λ zone. HasZone self.now zone × (name_of self.now zone ≡ name.now)) }
        ensures grid { IsGrid self.now }
    {
        self.numbers.get(name).copied()
    }

    // The allocator of its lists.
    pub(crate) fn allocator(&self) -> Global {
        *self.rows.allocator()
    }
}

impl fmt::Display for GridFault {
    ghost output = { λ fault. Some (fault_text fault) };

    fn fmt<W: fmt::Write>(&self, f: &mut fmt::Formatter<W>) -> fmt::Result {
        f.write_str(match self {
            GridFault::TooManyZones => "more than 64 zones",
            GridFault::ZoneTwice => "two zones of the same name",
            GridFault::TooManyBorders => "more than 128 borders",
            GridFault::SelfBorder => "a border of a zone with itself",
            GridFault::BorderTwice => "two borders between the same zones",
            GridFault::NoMemory => "no memory",
        })
    }
}

impl Error for GridFault {}

impl From<NoMemory> for GridFault {
    ghost use Rattle.std.specs.Prelude.{◌≡◌};
    ghost use Rattle.zone_graph.specs.declared.grid.GridFault.TheVariants.{NoMemory as WantsMemory};

    ghost from_gives = { λ _ fault. fault ≡ WantsMemory };

    fn from(_error: NoMemory) -> GridFault {
        GridFault::NoMemory
    }
}

impl From<AllocError> for GridFault {
    ghost use Rattle.std.specs.Prelude.{◌≡◌};
    ghost use Rattle.zone_graph.specs.declared.grid.GridFault.TheVariants.{NoMemory as WantsMemory};

    ghost from_gives = { λ _ fault. fault ≡ WantsMemory };

    fn from(_error: AllocError) -> GridFault {
        GridFault::NoMemory
    }
}

impl<T: Drop> From<AllocFailed<T>> for GridFault {
    ghost use Rattle.std.specs.Prelude.{◌≡◌};
    ghost use Rattle.zone_graph.specs.declared.grid.GridFault.TheVariants.{NoMemory as WantsMemory};

    ghost from_gives = { λ _ fault. fault ≡ WantsMemory };

    fn from(_error: AllocFailed<T>) -> GridFault {
        GridFault::NoMemory
    }
}
