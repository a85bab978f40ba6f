//! A command is planned on the desks that are held for it.

ghost use Rattle.std.specs.Prelude.{◌≡◌, ◌<◌, None, IfOk, OnErr, length};
ghost use Rattle.market_model.specs.Rules.{early_refusal};
ghost use Rattle.desk_locks.specs.Held.{IsAllInPlace};
ghost use Rattle.venue_core.specs.Planning.{IsHeldFor, IsPlannedFor};
ghost use Rattle.venue_core.specs.Setups.{IsOpenSetup};
ghost use Rattle.venue_core.specs.Shared.{AreOfOneJournal};
ghost use Rattle.journal_front.specs.Fronts.{FrontState};
ghost use Rattle.market_model.specs.Grid.{graph_of};

use basket_match::plan_basket;
use desk_locks::{Held, plan_joint};
use market_model::{Command, Reply, Setup};
use std::alloc::Global;
use zone_graph::{Grid, NoMemory};

// Plans a caller's command, which breaks no rule by itself, on the desks that are held for it, and answers the market's
// reply after every legal journal after which they stand. There is one.
//
// On an error nothing is planned.
pub(crate) fn plan_held(
    alloc: Global,
    held: &mut Held,
    grid: &Grid,
    setup: &Setup,
    caller: u32,
    command: &Command,
) -> Result<Reply, NoMemory>
    requires setup { IsOpenSetup setup.now }
    requires grid { grid.now ≡ graph_of setup.now }
    requires known { caller < length setup.now.callers }
    requires early { early_refusal setup.now caller command.now ≡ None }
    requires held { (front : FrontState) × (front.setup ≡ setup.now) × IsHeldFor front caller command.now held.old × AreOfOneJournal front held.old.seats }
    ensures planned { (front : FrontState) → front.setup ≡ setup.now → IsHeldFor front caller command.now held.old
        → IfOk result (λ reply. IsPlannedFor front caller command.now reply held.new) }
    ensures failed { OnErr result (IsAllInPlace held.new) }
{
    match command {
        Command::EnterBasket { orders } => plan_basket(alloc, held, grid, setup, caller, orders),
        _ => plan_joint(alloc, held, grid, setup, caller, command),
    }
}
