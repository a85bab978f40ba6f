//! The rules that a command can break by itself, whatever happened before.

ghost use Rattle.std.specs.Prelude.{◌≡◌, ◌<◌, ◌&&◌, true, length, map, nat_lt, IfNone};
ghost use Rattle.std.specs.List.{list_all};
ghost use Rattle.order_kinds.specs.Contract.{is_known};
ghost use Rattle.order_kinds.specs.Order.{is_fill_or_kill};
ghost use Rattle.order_kinds.specs.Period.{is_within};
ghost use Rattle.order_kinds.specs.Price.{lots_in_range, price_in_range};
ghost use Rattle.zone_graph.specs.Graph.{zone_count};
ghost use Rattle.market_model.specs.Grid.{graph_of};
ghost use Rattle.market_model.specs.Rules as rules;

use crate::command::Command;
use crate::refusal::Refusal;
use crate::setup::{Role, Setup};
use order_kinds::{Lots, Order, check_block, check_order};
use quarter_capacity::MOST_OFFERED;
use zone_graph::Grid;

// The fewest orders of a basket.
const FEWEST_IN_BASKET: usize = 2;

// The most orders of a basket.
const MOST_IN_BASKET: usize = 8;

// The most hours of a block.
const MOST_BLOCK_HOURS: u32 = 24;

/// The first rule that a command breaks by itself, whatever happened before: `None` exactly where
/// it breaks none. It takes no memory.
///
/// The rules are, in this order: the caller's role may give the command, the delivery day has the
/// hours that it names, hours have the parts, the grid has the zones and the border, its period is
/// one, its basket is one, and its prices, quantities and peaks are in their ranges.
pub fn refuse_early(grid: &Grid, setup: &Setup, caller: u32, command: &Command) -> Option<Refusal>
    requires known { caller < length setup.now.callers }
    requires grid { grid.now ≡ graph_of setup.now }
    ensures { result ≡ rules.early_refusal setup.now caller command.now }
{
    refuse_naming(grid, setup, caller, command).or_else(|| refuse_numbers(command))
}

// The first broken rule on who asks and what is named.
#[tactic(auto, unfolding(crate::specs::Rules::naming_refusal))]
pub(crate) fn refuse_naming(
    grid: &Grid,
    setup: &Setup,
    caller: u32,
    command: &Command,
) -> Option<Refusal>
    requires known { caller < length setup.now.callers }
    requires grid { grid.now ≡ graph_of setup.now }
    ensures refusal { result ≡ rules.naming_refusal setup.now caller command.now }
    ensures hours { IfNone result (list_all (is_within 1 setup.now.hours) (rules.hours_named command.now) ≡ true) }
    ensures period { IfNone result (rules.period_is_good command.now ≡ true) }
{
    if !has_right(setup, caller, command) {
        Some(Refusal::WrongRole)
    } else if !hours_are_known(setup.hours, command) {
        Some(Refusal::UnknownHour)
    } else if !parts_are_known(command) {
        Some(Refusal::UnknownContract)
    } else if !zones_are_known(grid, command) {
        Some(Refusal::UnknownZone)
    } else if !border_is_known(grid, command) {
        Some(Refusal::UnknownBorder)
    } else if !period_is_good(command) {
        Some(Refusal::BadPeriod)
    } else if !basket_is_good(command) {
        Some(Refusal::BadBasket)
    } else {
        None
    }
}

// Whether the caller may give the command.
fn has_right(setup: &Setup, caller: u32, command: &Command) -> bool
    requires { caller < length setup.now.callers }
    ensures { result ≡ rules.has_right setup.now caller command.now }
{
    may_give(setup.callers.as_slice()[caller as usize].role, command)
}

// Whether a caller of this role may give the command.
fn may_give(role: Role, command: &Command) -> bool
    ensures { result ≡ rules.may_give role command.now }
{
    match command {
        Command::Enter { .. }
        | Command::EnterBlock { .. }
        | Command::EnterBasket { .. }
        | Command::Cancel { .. }
        | Command::Reduce { .. } => role == Role::Trader,
        Command::Offer { .. }
        | Command::Halt { .. }
        | Command::Resume { .. }
        | Command::Gate { .. } => role == Role::Operator,
        Command::Blocks { .. } | Command::Request { .. } | Command::View { .. } => true,
    }
}

// Whether a delivery day of so many hours has each hour that the command names.
fn hours_are_known(hours: u32, command: &Command) -> bool
    ensures { result ≡ list_all (is_within 1 hours) (rules.hours_named command.now) }
{
    match command {
        Command::Enter { order } => is_hour(hours, order.contract.hour),
        Command::EnterBlock { order } => is_hour(hours, order.first) && is_hour(hours, order.last),
        Command::EnterBasket { orders } => are_hours(hours, orders.as_slice()),
        Command::Cancel { name } | Command::Reduce { name, .. } => is_hour(hours, name.hour),
        Command::Blocks { first, last }
        | Command::Halt { first, last, .. }
        | Command::Resume { first, last, .. } => is_hour(hours, *first) && is_hour(hours, *last),
        Command::Offer { first, last, .. } | Command::Request { first, last, .. } => {
            is_hour(hours, first.hour) && is_hour(hours, last.hour)
        }
        Command::Gate { hour, .. } => is_hour(hours, *hour),
        Command::View { contract, .. } => is_hour(hours, contract.hour),
    }
}

// Whether a delivery day of so many hours has the hours of all orders.
fn are_hours(hours: u32, orders: &[Order]) -> bool
    ensures { result ≡ list_all (is_within 1 hours) (map (λ order. order.contract.hour) orders.now) }
{
    orders
        .iter()
        .map(|order| order.contract.hour)
        .all(|hour| is_hour(hours, hour))
}

// Whether a delivery day of so many hours has this hour.
fn is_hour(hours: u32, hour: u32) -> bool
    ensures { result ≡ is_within 1 hours hour }
{
    1 <= hour && hour <= hours
}

// Whether hours have each part that the command names.
fn parts_are_known(command: &Command) -> bool
    ensures { result ≡ list_all is_known (rules.parts_named command.now) }
{
    match command {
        Command::Enter { order } => order.contract.part.is_known(),
        Command::EnterBasket { orders } => are_known_parts(orders.as_slice()),
        Command::Offer { first, last, .. } | Command::Request { first, last, .. } => {
            first.is_known() && last.is_known()
        }
        Command::View { contract, .. } => contract.part.is_known(),
        _ => true,
    }
}

// Whether hours have the parts of all orders.
fn are_known_parts(orders: &[Order]) -> bool
    ensures { result ≡ list_all is_known (map (λ order. order.contract.part) orders.now) }
{
    orders
        .iter()
        .map(|order| order.contract.part)
        .all(|part| part.is_known())
}

// Whether the grid has each zone that the command names.
fn zones_are_known(grid: &Grid, command: &Command) -> bool
    ensures { result ≡ list_all (λ zone. nat_lt zone (zone_count grid.now)) (rules.zones_named command.now) }
{
    let zones = grid.zones();
    match command {
        Command::Enter { order } => order.zone < zones,
        Command::EnterBlock { order } => order.zone < zones,
        Command::EnterBasket { orders } => are_zones(zones, orders.as_slice()),
        Command::Offer { from, to, .. }
        | Command::Request { from, to, .. }
        | Command::Halt { from, to, .. }
        | Command::Resume { from, to, .. } => *from < zones && *to < zones,
        Command::View { zone, .. } => *zone < zones,
        _ => true,
    }
}

// Whether a grid of so many zones has the zones of all orders.
fn are_zones(zones: u32, orders: &[Order]) -> bool
    ensures { result ≡ list_all (λ zone. nat_lt zone zones) (map (λ order. order.zone) orders.now) }
{
    orders
        .iter()
        .map(|order| order.zone)
        .all(|zone| zone < zones)
}

// Whether the border that the command names is there.
fn border_is_known(grid: &Grid, command: &Command) -> bool
    ensures { result ≡ rules.border_is_known grid.now command.now }
{
    match command {
        Command::Offer { from, to, .. }
        | Command::Request { from, to, .. }
        | Command::Halt { from, to, .. }
        | Command::Resume { from, to, .. } => grid.arc(*from, *to).is_some(),
        _ => true,
    }
}

// Whether the period that the command names is one.
fn period_is_good(command: &Command) -> bool
    ensures { result ≡ rules.period_is_good command.now }
{
    match command {
        Command::EnterBlock { order } => is_block_period(order.first, order.last),
        Command::Blocks { first, last } => is_block_period(*first, *last),
        Command::Offer { first, last, .. } | Command::Request { first, last, .. } => {
            first.is_not_after(*last)
        }
        Command::Halt { first, last, .. } | Command::Resume { first, last, .. } => first <= last,
        _ => true,
    }
}

// Whether a block may have these hours as its first and its last.
fn is_block_period(first: u32, last: u32) -> bool
    ensures { result ≡ rules.is_block_period first last }
{
    first < last && last - first < MOST_BLOCK_HOURS
}

// Whether the command enters no basket, or one of 2 to 8 fill-or-kill orders of ascending hours.
fn basket_is_good(command: &Command) -> bool
    ensures { result ≡ rules.basket_is_good command.now }
{
    match command {
        Command::EnterBasket { orders } => is_basket(orders.as_slice()),
        _ => true,
    }
}

// Whether the orders are a basket.
fn is_basket(orders: &[Order]) -> bool
    ensures { result ≡ (is_within 2 8 (length orders.now)
        && rules.ascends (map (λ order. order.contract.hour) orders.now)
        && list_all (λ order. is_fill_or_kill order.kind) orders.now) }
{
    FEWEST_IN_BASKET <= orders.len()
        && orders.len() <= MOST_IN_BASKET
        && hours_ascend(orders)
        && are_fill_or_kill(orders)
}

// Whether each order is filled wholly or not at all.
fn are_fill_or_kill(orders: &[Order]) -> bool
    ensures { result ≡ list_all (λ order. is_fill_or_kill order.kind) orders.now }
{
    orders.iter().all(|order| order.kind.is_fill_or_kill())
}

// Whether each order is of a later hour than the one before it.
fn hours_ascend(orders: &[Order]) -> bool
    ensures { result ≡ rules.ascends (map (λ order. order.contract.hour) orders.now) }
{
    let mut rest = orders;
    while let Some((order, others)) = rest.split_first() {
        if let Some(next) = others.first() {
            if order.contract.hour >= next.contract.hour {
                return false;
            }
        }
        rest = others;
    }
    true
}

// The first broken rule on the numbers of orders.
#[tactic(auto, unfolding(crate::specs::Rules::numbers_refusal))]
fn refuse_numbers(command: &Command) -> Option<Refusal>
    ensures { result ≡ rules.numbers_refusal command.now }
{
    match command {
        Command::Enter { order } => check_order(order).err().map(Refusal::from),
        Command::EnterBlock { order } => check_block(order).err().map(Refusal::from),
        Command::EnterBasket { orders } => refuse_orders(orders.as_slice()),
        Command::Reduce { to: lots, .. } | Command::Request { lots, .. } => {
            refuse_quantity_unless(Lots(*lots).is_in_range())
        }
        Command::Offer { lots, .. } => refuse_quantity_unless(*lots <= MOST_OFFERED),
        _ => None,
    }
}

// The first broken rule on the numbers of a basket's orders.
#[tactic(auto, unfolding(crate::specs::Rules::numbers_refusal))]
fn refuse_orders(orders: &[Order]) -> Option<Refusal>
    ensures { result ≡ rules.numbers_refusal (Command.EnterBasket orders.now) }
{
    if !are_allowed_prices(orders) {
        return Some(Refusal::PriceOutOfRange);
    }
    refuse_quantity_unless(are_allowed_quantities(orders))
}

// Whether the prices of all orders are in their range.
fn are_allowed_prices(orders: &[Order]) -> bool
    ensures { result ≡ list_all price_in_range (map (λ order. order.price) orders.now) }
{
    orders
        .iter()
        .map(|order| order.price)
        .all(|price| price.is_in_range())
}

// Whether the quantities of all orders are in their range.
fn are_allowed_quantities(orders: &[Order]) -> bool
    ensures { result ≡ list_all lots_in_range (map (λ order. order.quantity) orders.now) }
{
    orders
        .iter()
        .map(|order| order.quantity)
        .all(|quantity| quantity.is_in_range())
}

// The refusal of a quantity that is not in its range.
fn refuse_quantity_unless(in_range: bool) -> Option<Refusal>
    ensures { result ≡ rules.unless in_range Refusal.QuantityOutOfRange }
{
    if in_range {
        None
    } else {
        Some(Refusal::QuantityOutOfRange)
    }
}
