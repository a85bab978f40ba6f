//! A reply with ample memory. What replies say is shown by whole sessions.
#![tactic(auto, using(plain_market::proofs::Empty::empty_history))]

ghost use Rattle.std.specs.Prelude.{◌≡◌, ◌<◌, [], length, IfOk};
ghost use Rattle.market_model.specs.Grid.{graph_of};
ghost use Rattle.zone_graph.specs.Grid.{JoinsZones};

use market_model::{
    Caller, Callers, Command, Events, Names, OrderName, Pairs, Refusal, Reply, Role, Setup, Word,
};
use plain_market::reply;
use std::alloc::Global;
use std::test::Fail;
use zone_graph::{Grid, GridFault};

// A day of 24 hours in DE, with the trader ann.
fn day(alloc: Global) -> Result<Setup, Fail>
    ensures callers { IfOk result (λ setup. 0 < length setup.callers) }
    ensures borders { IfOk result (λ setup. setup.borders ≡ []) }
{
    let mut zones = Names::new(alloc);
    zones.push(Word::new(alloc, b"DE")?)?;
    let mut callers = Callers::new(alloc);
    callers.push(Caller {
        name: Word::new(alloc, b"ann")?,
        role: Role::Trader,
        room: 1,
    })?;
    Ok(Setup {
        hours: 24,
        zones,
        borders: Pairs::new(alloc),
        callers,
    })
}

// The grid of the day.
fn grid_of(alloc: Global, setup: &Setup) -> Result<Grid, GridFault>
    requires { JoinsZones (graph_of setup.now) }
    ensures { IfOk result (λ grid. grid ≡ graph_of setup.now) }
{
    Grid::new(alloc, &setup.zones, &setup.borders)
}

#[test]
fn an_order_that_is_not_there_cannot_be_cancelled(rt: HostRuntime) -> Result<(), Fail> {
    let alloc = rt.alloc();
    let setup = day(alloc)?;
    let grid = grid_of(alloc, &setup)?;
    let history = Events::new(alloc);
    let command = Command::Cancel {
        name: OrderName {
            hour: 12,
            number: 1,
        },
    };
    let made = reply(alloc, &grid, &setup, &history, 0, &command)?;
    assert_eq!(rt; made, Reply::Refused(Refusal::UnknownOrder));
    Ok(())
}
