//! What a refresh works with, kept from one refresh to the next.

ghost use Rattle.std.specs.Prelude.{IfOk, IfSome, OnOk};
ghost use Rattle.local_view.specs.Works.{IsSound, IsThere, IsWork};

use crate::cuts::Cuts;
use crate::draft::Draft;
use crate::walk::Walk;
use crate::whole::WholeLine;
use std::alloc::Global;
use zone_graph::{Grid, NoMemory, Rooms};

/// Rooms that a refresh works on, and what its lists work with.
#[derive(Drop)]
pub(crate) struct Work {
    /// How many borders the rooms have.
    pub(crate) borders: u32,
    /// The rooms of the part.
    pub(crate) of_part: Rooms,
    /// What the lists work with.
    pub(crate) walk: Walk,
    /// The line whose lists are made.
    pub(crate) whole: WholeLine,
    /// What a list drafts.
    pub(crate) draft: Box<Draft>,
    /// Where the orders of its zones end to give.
    pub(crate) cuts: Box<Cuts>,
}

impl Work {
    // What a refresh over a grid works with.
    fn over(alloc: Global, grid: &Grid) -> Result<Work, NoMemory>
        ensures { IfOk result (IsWork grid.now) }
    {
        Ok(Work {
            borders: grid.borders(),
            of_part: Rooms::new(grid)?,
            walk: Walk::over(grid)?,
            whole: WholeLine::new(alloc),
            draft: Box::new(alloc, Draft::new())?,
            cuts: Box::new(alloc, Cuts::new())?,
        })
    }
}

/// Makes what a refresh over a grid works with, where what is kept has not as many borders, or
/// nothing is kept.
///
/// # Errors
///
/// [`NoMemory`] where memory runs out. What is kept stays then.
pub(crate) fn make_work(alloc: Global, grid: &Grid, kept: &mut Option<Work>) -> Result<(), NoMemory>
    requires { IfSome kept.old IsSound }
    ensures there { OnOk result (IsThere grid.now kept.new) }
    ensures sound { IfSome kept.new IsSound }
{
    if let Some(work) = kept {
        if work.borders == grid.borders() {
            return Ok(());
        }
    }
    *kept = Some(Work::over(alloc, grid)?);
    Ok(())
}
