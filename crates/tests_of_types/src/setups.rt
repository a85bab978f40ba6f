//! A day that tests share.

ghost use Rattle.std.specs.Prelude.{◌≡◌, ◌≤◌, length};
ghost use Rattle.zone_graph.specs.Grid.{JoinsZones};
ghost use Rattle.market_model.specs.Grid.{graph_of};

use crate::made::{put, word};
use market_model::{Caller, Callers, Names, Pairs, Role, Setup};
use std::alloc::Global;
use std::process::Abort;

fn caller_of(rt: &impl Abort, alloc: Global, name: &[u8], role: Role) -> Caller {
    Caller {
        name: word(rt, alloc, name),
        role,
        room: 9,
    }
}

// A trader and an operator.
fn callers_of(rt: &impl Abort, alloc: Global) -> Callers
    ensures { length result ≡ 2 }
{
    let mut callers = Callers::new(alloc);
    put(
        rt,
        &mut callers,
        caller_of(rt, alloc, b"trader", Role::Trader),
    );
    put(
        rt,
        &mut callers,
        caller_of(rt, alloc, b"operator", Role::Operator),
    );
    callers
}

// Three zones.
fn zones_of(rt: &impl Abort, alloc: Global) -> Names
    ensures { length result ≡ 3 }
{
    let mut zones = Names::new(alloc);
    put(rt, &mut zones, word(rt, alloc, b"DE"));
    put(rt, &mut zones, word(rt, alloc, b"FR"));
    put(rt, &mut zones, word(rt, alloc, b"FI"));
    zones
}

// A day of 25 hours, three zones, a border between the first two, a trader and an operator.
pub(crate) fn setup_of(rt: &impl Abort, alloc: Global) -> Setup
    ensures zones { JoinsZones (graph_of result) }
    ensures callers { length result.callers ≡ 2 }
    ensures hours { result.hours ≤ 32 }
{
    let mut borders = Pairs::new(alloc);
    put(rt, &mut borders, (0, 1));
    Setup {
        hours: 25,
        zones: zones_of(rt, alloc),
        borders,
        callers: callers_of(rt, alloc),
    }
}
