//! What tests make of what may fail, and compare: a test ends where it could not be made, and where it is
//! not what was wanted.

ghost use Rattle.std.specs.Prelude.{◌≡◌, Ok, length};
ghost use Rattle.zone_graph.specs.Graph.{border_count};

use std::fmt::Debug;
use std::process::Abort;
use std::test::Fail;
use tests_of_shared_grids::rooms_of;
use zone_graph::{Grid, Rooms};

/// What was made.
pub(crate) fn made<T>(rt: &impl Abort, what: Result<T, Fail>) -> T
    ensures { what ≡ Ok result }
{
    match what {
        Ok(value) => value,
        Err(_) => rt.panic("it was not made"),
    }
}

/// Rooms of so many lots on the forward arc and the backward arc of each border, in turn.
pub(crate) fn rooms_over(rt: &impl Abort, grid: &Grid, pairs: &[(u32, u32)]) -> Rooms
    ensures { length result ≡ border_count grid.now }
{
    made(rt, rooms_of(grid, pairs))
}

/// What a case gave is what was wanted of it.
pub(crate) fn expect_equal<T: Debug + PartialEq, C: Debug>(
    rt: &impl Abort,
    got: &T,
    wanted: &T,
    case: &C,
) {
    assert_eq!(rt; got, wanted, "{case:?}");
}
