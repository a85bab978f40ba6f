//! What a command does in an hour that it touches alone.

ghost use Rattle.std.specs.Prelude.{◌≡◌, ◌≢◌, ◌<◌, ◌-◌, ◌^◌, Ok, None, Some, IfOk, OnErr, OnOk};
ghost use Rattle.order_kinds.specs.declared.order.Order.{Order as AnOrder};
ghost use Rattle.market_model.specs.declared.command.Command.TheVariants as commands;
ghost use Rattle.market_model.specs.declared.refusal.Refusal.{Refusal as Reason};
ghost use Rattle.market_model.specs.Market.{events_done};
ghost use Rattle.market_model.specs.Rules.{first_broken};
ghost use Rattle.market_model.specs.Sweep.{all_parts};
ghost use Rattle.market_model.specs.StateRules.{filling_rules};
ghost use Rattle.desk_changes.specs.Kept.{names_given};
ghost use Rattle.desk_changes.specs.Planned.{with_planned};
ghost use Rattle.desk_changes.specs.State.{settled_board};
ghost use Rattle.desk_views.specs.Standing.{StandAt};
ghost use Rattle.hour_desk.specs.Placed.{CanChange};

use crate::part::share;
use crate::ranges::range_work;
use desk_changes::{KeptHour, gate, number_of};
use desk_entering::enter_order;
use desk_refusals::own_of;
use desk_views::DeskViews;
use market_model::{Command, OrderName, Refusal, Setup};
use std::alloc::Global;
use zone_graph::{Grid, NoMemory};

/// Plans what a command does in an hour that it touches alone, where no rule refuses it by itself and none
/// on the state of the hour. Answers why it is refused by a rule on filling; nothing is planned then.
///
/// # Errors
///
/// [`NoMemory`] where memory runs out; nothing is planned then.
pub(crate) fn change(
    alloc: Global,
    hour: &mut KeptHour,
    views: &DeskViews,
    grid: &Grid,
    setup: &Setup,
    caller: u32,
    command: &Command,
) -> Result<Option<Refusal>, NoMemory>
    requires grid { grid.now ≡ hour.old.board.grid }
    requires can { CanChange setup.now hour.old caller command.now }
    requires few { names_given hour.old.board < 2 ^ 32 - 1 }
    requires stands { StandAt (settled_board hour.old) views.now }
    ensures refusal { IfOk result (λ refusal. refusal ≡ first_broken (filling_rules grid.now hour.old.settled caller command.now)) }
    ensures done { result ≡ Ok None → hour.new ≡ with_planned hour.old (events_done all_parts setup.now hour.old.settled caller command.now) }
    ensures refused { (refusal : Reason) → result ≡ Ok (Some refusal) → hour.new ≡ hour.old }
    ensures unchanged { OnErr result (hour.new ≡ hour.old) }
{
    match command {
        Command::Enter { order } => {
            let rooms = views.rooms(number_of(order.contract.part));
            enter_order(alloc, hour, grid, rooms, caller, order)
        }
        _ => {
            change_others(alloc, hour, grid, setup, caller, command)?;
            Ok(None)
        }
    }
}

// The same, for a command that enters no order.
fn change_others(
    alloc: Global,
    hour: &mut KeptHour,
    grid: &Grid,
    setup: &Setup,
    caller: u32,
    command: &Command,
) -> Result<(), NoMemory>
    requires grid { grid.now ≡ hour.old.board.grid }
    requires can { CanChange setup.now hour.old caller command.now }
    requires few { names_given hour.old.board < 2 ^ 32 - 1 }
    requires no_order { (order : AnOrder) → command.now ≢ commands.Enter order }
    ensures done { OnOk result (hour.new ≡ with_planned hour.old (events_done all_parts setup.now hour.old.settled caller command.now)) }
    ensures unchanged { OnErr result (hour.new ≡ hour.old) }
{
    if let Some(work) = range_work(grid, command) {
        return share(alloc, hour, grid, &work);
    }
    match command {
        Command::Cancel { name } => cancel(hour, setup, caller, *name),
        Command::Reduce { name, to } => reduce(hour, setup, caller, *name, *to),
        Command::Gate { phase, .. } => gate(alloc, hour, *phase),
        Command::View { .. } => Ok(()),
        _ => unreachable!(),
    }
}

// Withdraws an order or a block of the caller's.
fn cancel(hour: &mut KeptHour, setup: &Setup, caller: u32, name: OrderName) -> Result<(), NoMemory>
    requires { CanChange setup.now hour.old caller (commands.Cancel name) }
    ensures done { OnOk result (hour.new ≡ with_planned hour.old (events_done all_parts setup.now hour.old.settled caller (commands.Cancel name))) }
    ensures unchanged { OnErr result (hour.new ≡ hour.old) }
{
    match own_of(hour, caller, name.number) {
        Some(own) => hour.withdraw(own.part(), name.number, own.left()),
        None => unreachable!(),
    }
}

// Lowers to so many lots what is left of a plain limit order of the caller's.
fn reduce(
    hour: &mut KeptHour,
    setup: &Setup,
    caller: u32,
    name: OrderName,
    to: u32,
) -> Result<(), NoMemory>
    requires { CanChange setup.now hour.old caller (commands.Reduce name to) }
    ensures done { OnOk result (hour.new ≡ with_planned hour.old (events_done all_parts setup.now hour.old.settled caller (commands.Reduce name to))) }
    ensures unchanged { OnErr result (hour.new ≡ hour.old) }
{
    match own_of(hour, caller, name.number) {
        Some(own) => hour.reduce(own.part(), name.number, own.left() - to),
        None => unreachable!(),
    }
}
