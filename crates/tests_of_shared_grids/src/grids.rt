//! Small grids.

ghost use Rattle.std.specs.Prelude.{◌≡◌, ◌&&◌, IfOk, true, nat_lt};
ghost use Rattle.std.specs.List.{list_all};
ghost use Rattle.zone_graph.specs.Graph.{border_count, zone_count};

use std::alloc::Global;
use std::test::Fail;
use zone_graph::{Grid, Names, Pairs, Word};

/// The grid of so many zones, named by two letters each, and these borders.
///
/// # Errors
///
/// Where the zones or borders are too many or stand twice, or memory is wanting.
pub fn grid_of(alloc: Global, zones: u8, pairs: &[(u32, u32)]) -> Result<Grid, Fail>
    requires { list_all (λ ends. nat_lt ends.0 zones && nat_lt ends.1 zones) pairs.now ≡ true }
    ensures zones { IfOk result (λ grid. zone_count grid ≡ zones) }
    ensures borders { IfOk result (λ grid. grid.borders ≡ pairs.now) }
{
    let mut names = Names::new(alloc);
    for zone in 0..zones {
        names.push(Word::new(alloc, &[b'A' + zone / 16, b'A' + zone % 16])?)?;
    }
    let borders = Pairs::from(Vec::from_slice(alloc, pairs)?);
    Ok(Grid::new(alloc, &names, &borders)?)
}

/// Two zones and the border between them.
///
/// # Errors
///
/// Where memory is wanting.
pub fn two_zones(alloc: Global) -> Result<Grid, Fail>
    ensures zones { IfOk result (λ grid. zone_count grid ≡ 2) }
    ensures borders { IfOk result (λ grid. border_count grid ≡ 1) }
{
    grid_of(alloc, 2, &[(0, 1)])
}

/// A diamond of four zones: each of two zones in the middle is joined with the first and the last.
///
/// # Errors
///
/// Where memory is wanting.
pub fn diamond(alloc: Global) -> Result<Grid, Fail>
    ensures zones { IfOk result (λ grid. zone_count grid ≡ 4) }
    ensures borders { IfOk result (λ grid. border_count grid ≡ 4) }
{
    grid_of(alloc, 4, &[(0, 1), (0, 2), (1, 3), (2, 3)])
}

// The borders of the ring, and then the chords.
const RING: [(u32, u32); 20] = [
    (0, 1),
    (1, 2),
    (2, 3),
    (3, 4),
    (4, 5),
    (5, 6),
    (6, 7),
    (7, 8),
    (8, 9),
    (9, 10),
    (10, 11),
    (11, 0),
    (0, 4),
    (1, 5),
    (2, 6),
    (3, 7),
    (4, 8),
    (5, 9),
    (6, 10),
    (7, 11),
];

/// A ring of twelve zones with eight chords, each between a zone and the fourth one after it, as
/// the generated sessions have it.
///
/// # Errors
///
/// Where memory is wanting.
pub fn ring_of_twelve(alloc: Global) -> Result<Grid, Fail>
    ensures zones { IfOk result (λ grid. zone_count grid ≡ 12) }
    ensures borders { IfOk result (λ grid. border_count grid ≡ 20) }
{
    grid_of(alloc, 12, &RING)
}
