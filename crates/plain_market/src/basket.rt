//! Baskets of orders that enter.

ghost use Rattle.std.specs.Prelude.{◌≡◌, ◌-◌, ◌<◌, ◌^◌, true, [], ◌∷◌, ◌++◌, Ok, None, IfOk, OnOk, OnErr};
ghost use Rattle.std.specs.Option.{option_map};
ghost use Rattle.market_model.specs.Entering as market;
ghost use Rattle.market_model.specs.History.{entered_count};
ghost use Rattle.market_model.specs.Refusals.{basket_order_refusal};
ghost use Rattle.market_model.specs.Rules.{basket_is_good, first_broken};
ghost use Rattle.market_model.specs.Sweep as sweeping;
ghost use Rattle.market_model.specs.declared.command.Command.TheVariants as command;
ghost use Rattle.market_model.specs.StateRules.{filling_rules};
ghost use Rattle.plain_market.specs.Entering.{CanEnter, StaysWhereRefused};
ghost use Rattle.plain_matching.specs.Grown.{Grew};

use crate::entering::{enter_and_take, enter_unrefused};
use crate::judging::{Certificate, unfilled};
use event_history::History;
use market_model::{NoMemory, Order, Refusal};
use plain_matching::{HourSums, cut_back};
use std::alloc::Global;
use zone_graph::Grid;

/// Enters the fill-or-kill orders of a basket one after the other, each with the legs that it takes and
/// the sweep of its hour, unless one of them is not filled by itself. Answers why the basket is refused;
/// the events are then as before.
///
/// # Errors
///
/// [`NoMemory`], where there is no memory for an event, or for what the next leg or the refusal is
/// made from: some of the orders' events may then stand behind the others.
pub(crate) fn enter_basket(
    alloc: Global,
    grid: &Grid,
    events: &mut History,
    caller: u32,
    orders: &[Order],
) -> Result<Option<Refusal>, NoMemory>
    requires can { CanEnter grid.now events.old caller orders.now }
    requires basket { basket_is_good (command.EnterBasket orders.now) ≡ true }
    requires few { entered_count events.old < 2 ^ 32 - 1 }
    ensures refusal { IfOk result (λ refusal. refusal ≡ first_broken (filling_rules grid.now events.old caller (command.EnterBasket orders.now))) }
    ensures entered { result ≡ Ok None → events.new ≡ events.old ++ market.enter_all sweeping.all_parts grid.now caller orders.now events.old }
    ensures kept { StaysWhereRefused result events.old events.new }
    ensures err { OnErr result (Grew events.old events.new) }
{
    match first_unfilled(alloc, grid, events, caller, orders)? {
        Some(refusal) => Ok(Some(refusal)),
        None => {
            enter_all(alloc, grid, events, caller, orders)?;
            Ok(None)
        }
    }
}

// Why a basket is refused: the first of its orders that is not filled by itself. The events are as
// before.
fn first_unfilled(
    alloc: Global,
    grid: &Grid,
    events: &mut History,
    caller: u32,
    orders: &[Order],
) -> Result<Option<Refusal>, NoMemory>
    requires can { CanEnter grid.now events.old caller orders.now }
    requires few { entered_count events.old < 2 ^ 32 - 1 }
    ensures refusal { IfOk result (λ refusal. refusal ≡ sweeping.first_answer (basket_order_refusal grid.now events.old caller) orders.now) }
    ensures kept { OnOk result (events.new ≡ events.old) }
    ensures err { OnErr result (Grew events.old events.new) }
{
    for order in orders {
        if let Some(refusal) = unfilled_alone(alloc, grid, events, caller, order)? {
            return Ok(Some(refusal));
        }
    }
    Ok(None)
}

// Why a basket is refused for one of its orders: it is not filled by itself. The events are as before.
fn unfilled_alone(
    alloc: Global,
    grid: &Grid,
    events: &mut History,
    caller: u32,
    order: &Order,
) -> Result<Option<Refusal>, NoMemory>
    requires can { CanEnter grid.now events.old caller (order.now ∷ []) }
    requires few { entered_count events.old < 2 ^ 32 - 1 }
    ensures refusal { IfOk result (λ refusal. refusal ≡ basket_order_refusal grid.now events.old caller order.now) }
    ensures kept { OnOk result (events.new ≡ events.old) }
    ensures err { OnErr result (Grew events.old events.new) }
{
    let before = events.as_slice().len();
    let mut sums = HourSums::none();
    let name = enter_and_take(alloc, grid, events, &mut sums, caller, order)?;
    let found = unfilled(alloc, grid, events, &mut sums, before + 1, name, order)?;
    cut_back(events, before);
    Ok(refuse(order.contract.hour, found))
}

// The refusal of a basket for an order of an hour that has a certificate.
fn refuse(hour: u32, found: Option<Certificate>) -> Option<Refusal>
    ensures { result ≡ option_map (λ found. Refusal.BasketUnfilled hour found.zones found.bound) found }
{
    let Certificate { zones, bound } = found?;
    Some(Refusal::BasketUnfilled { hour, zones, bound })
}

// Enters the orders of a basket that no rule refuses, one after the other.
fn enter_all(
    alloc: Global,
    grid: &Grid,
    events: &mut History,
    caller: u32,
    orders: &[Order],
) -> Result<(), NoMemory>
    requires can { CanEnter grid.now events.old caller orders.now }
    requires basket { basket_is_good (command.EnterBasket orders.now) ≡ true }
    requires few { entered_count events.old < 2 ^ 32 - 1 }
    ensures ok { OnOk result (events.new ≡ events.old ++ market.enter_all sweeping.all_parts grid.now caller orders.now events.old) }
    ensures err { OnErr result (Grew events.old events.new) }
{
    let zones = grid.zones();
    prove!(zones <= 64);
    for order in orders {
        enter_unrefused(alloc, grid, events, caller, order)?;
    }
    Ok(())
}
