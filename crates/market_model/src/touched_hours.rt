//! The hours that a command touches.

ghost use Rattle.std.specs.Prelude.{◌≡◌, ◌<◌, ◌≤◌, true, length, map};
ghost use Rattle.std.specs.List.{list_all};
ghost use Rattle.order_kinds.specs.Period.{is_within};
ghost use Rattle.market_model.specs.Grid.{graph_of};
ghost use Rattle.market_model.specs.HourSet.{IsSetOf};
ghost use Rattle.market_model.specs.Rules as rules;

use crate::command::Command;
use crate::early_rules::refuse_naming;
use crate::hours::Hours;
use crate::setup::Setup;
use order_kinds::Order;
use zone_graph::Grid;

/// The hours that a command touches: those that it names, for periods and ranges with all hours
/// between, and none where a rule on who asks and what is named refuses it. It takes no memory.
pub fn touches(grid: &Grid, setup: &Setup, caller: u32, command: &Command) -> Hours
    requires known { caller < length setup.now.callers }
    requires grid { grid.now ≡ graph_of setup.now }
    requires hours { setup.now.hours ≤ 32 }
    ensures { IsSetOf (rules.touched_hours setup.now caller command.now) result }
{
    match refuse_naming(grid, setup, caller, command) {
        Some(_) => Hours::EMPTY,
        None => hours_concerned(command),
    }
}

// The hours that a command concerns whose hours are there and whose period is one.
fn hours_concerned(command: &Command) -> Hours
    requires known { list_all (is_within 1 32) (rules.hours_named command.now) ≡ true }
    requires period { rules.period_is_good command.now ≡ true }
    ensures { IsSetOf (rules.hours_concerned command.now) result }
{
    match command {
        Command::Enter { order } => Hours::one(order.contract.hour),
        Command::EnterBlock { order } => Hours::from_to(order.first, order.last),
        Command::EnterBasket { orders } => hours_of(orders.as_slice()),
        Command::Cancel { name } | Command::Reduce { name, .. } => Hours::one(name.hour),
        Command::Blocks { first, last }
        | Command::Halt { first, last, .. }
        | Command::Resume { first, last, .. } => Hours::from_to(*first, *last),
        Command::Offer { first, last, .. } | Command::Request { first, last, .. } => {
            Hours::from_to(first.hour, last.hour)
        }
        Command::Gate { hour, .. } => Hours::one(*hour),
        Command::View { contract, .. } => Hours::one(contract.hour),
    }
}

// The hours of orders.
fn hours_of(orders: &[Order]) -> Hours
    requires { list_all (is_within 1 32) (map (λ order. order.contract.hour) orders.now) ≡ true }
    ensures { IsSetOf (map (λ order. order.contract.hour) orders.now) result }
{
    let mut hours = Hours::EMPTY;
    let mut rest = orders;
    while let Some((order, others)) = rest.split_first() {
        hours = hours.with(order.contract.hour);
        rest = others;
    }
    hours
}
