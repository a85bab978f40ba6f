//! Setups of venues.

ghost use Rattle.std.specs.Prelude.{◌≡◌, ◌+◌, ◌*◌, ◌≤◌, IfOk, OnOk, length};
ghost use Rattle.venue_core.specs.Setups.{IsVenueSetup};
ghost use Rattle.tests_of_venues.specs.Callers.{AreCallers};

use market_model::{Caller, Callers, Names, NoMemory, Pairs, Role, Setup, Word};
use std::alloc::Global;

/// A day of 24 hours and two zones, the second by this name and the first DE, which a border joins; so many traders,
/// and then an operator, each of whom may have so many entries.
///
/// # Errors
///
/// [`NoMemory`] where memory runs out.
pub fn market(alloc: Global, second: &[u8], traders: u32, room: u32) -> Result<Setup, NoMemory>
    requires few { traders ≤ 8 }
    requires small { room ≤ 1000 }
    ensures venue { IfOk result IsVenueSetup }
    ensures callers { IfOk result (λ setup. length setup.callers ≡ traders + 1) }
{
    let mut zones = Names::new(alloc);
    zones.push(Word::new(alloc, b"DE")?)?;
    zones.push(Word::new(alloc, second)?)?;
    let mut borders = Pairs::new(alloc);
    borders.push((0, 1))?;
    Ok(Setup {
        hours: 24,
        zones,
        borders,
        callers: callers(alloc, traders, room)?,
    })
}

// Traders, and then an operator.
fn callers(alloc: Global, traders: u32, room: u32) -> Result<Callers, NoMemory>
    requires few { traders ≤ 8 }
    ensures { IfOk result (λ callers. AreCallers callers (traders + 1) room) }
{
    let mut callers = Callers::new(alloc);
    for _ in 0..traders {
        callers.push(caller(alloc, Role::Trader, room)?)?;
    }
    callers.push(caller(alloc, Role::Operator, room)?)?;
    Ok(callers)
}

// A caller without a name.
fn caller(alloc: Global, role: Role, room: u32) -> Result<Caller, NoMemory>
    ensures { IfOk result (λ caller. caller.room ≡ room) }
{
    Ok(Caller {
        name: Word::new(alloc, &[])?,
        role,
        room,
    })
}
