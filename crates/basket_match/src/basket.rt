//! Baskets are planned on the desks of their hours.

ghost use Rattle.std.specs.Prelude.{◌≡◌, ℕ, ◌<◌, None, IfOk, List, OnErr, length};
ghost use Rattle.market_model.specs.declared.command.Command.TheVariants as commands;
ghost use Rattle.market_model.specs.declared.entry.Entry.{Entry as AnEntry};
ghost use Rattle.market_model.specs.declared.event.Event.{Event as AnEvent};
ghost use Rattle.market_model.specs.declared.refusal.Refusal.TheVariants as refusals;
ghost use Rattle.market_model.specs.declared.reply.Reply.TheVariants as replies;
ghost use Rattle.market_model.specs.History.{events_of, journal_events};
ghost use Rattle.market_model.specs.Market.{reply_to};
ghost use Rattle.market_model.specs.Rules.{early_refusal, touched_hours};
ghost use Rattle.joint_plan.specs.Refusing.{closed_refusal};
ghost use Rattle.laws_of_maximum.specs.Unfilled.{IsUnfilledBasket};
ghost use Rattle.joint_plan.specs.Rows.{AreAsked, AreReady, IsHistoryOf, IsJournalOf, dropped, hours_of, planning_all};

use crate::orders::enter_order;
use joint_plan::{Desks, refuse, refuse_closed, undo_all};
use market_model::{Event, Events, Orders, Reply, Setup};
use order_kinds::Order;
use std::alloc::Global;
use zone_graph::{Grid, NoMemory};

/// Plans a caller's basket, which breaks no rule by itself, on the desks of the hours of its orders, by ascending
/// hour. Answers the market's reply to it after the journal, and each desk plans, behind its settled events, those of
/// the reply that are of its hour: none where the basket is refused. What was planned before is dropped first.
///
/// It refuses as [`BasketUnfilled`](market_model::Refusal::BasketUnfilled) with the hour of an order of the basket, the
/// zones that are still in reach where that order's taking would end, and their bound: it is below the order's quantity,
/// and so is the value of every flow plan for the order.
///
/// The setup's zones and borders are the grid of the desks, and the settled events of each are those that a legal
/// journal of the setup leaves for its hour.
///
/// # Errors
///
/// [`NoMemory`] where memory runs out; no desk has anything planned then.
pub fn plan_basket<D: Desks>(
    alloc: Global,
    row: &mut D,
    grid: &Grid,
    setup: &Setup,
    caller: u32,
    orders: &Orders,
) -> Result<Reply, NoMemory>
    requires ready { AreReady setup.now grid.now (D.desks row.old) }
    requires known { caller < length setup.now.callers }
    requires early { early_refusal setup.now caller (commands.EnterBasket orders.now) ≡ None }
    requires hours { hours_of (D.desks row.old) ≡ touched_hours setup.now caller (commands.EnterBasket orders.now) }
    ensures reply { (entries : List AnEntry) → IsJournalOf setup.now (D.desks row.old) entries
        → IfOk result (λ reply. reply ≡ reply_to setup.now (journal_events entries) caller (commands.EnterBasket orders.now)) }
    ensures certified { (entries : List AnEntry) → IsJournalOf setup.now (D.desks row.old) entries
        → IfOk result (λ reply. (hour : ℕ) (zones : List ℕ) (bound : ℕ) → reply ≡ replies.Refused (refusals.BasketUnfilled hour zones bound)
        → IsUnfilledBasket grid.now (journal_events entries) caller (commands.EnterBasket orders.now) hour zones bound) }
    ensures planned { IfOk result (λ reply. D.desks row.new ≡ planning_all (D.desks row.old) (events_of reply)) }
    ensures failed { OnErr result (D.desks row.new ≡ dropped (D.desks row.old)) }
    ensures rest { D.rest row.new ≡ D.rest row.old }
{
    undo_all(row);
    match plan_asked(alloc, row, grid, setup, caller, orders.as_slice()) {
        Ok(reply) => Ok(reply),
        Err(error) => {
            undo_all(row);
            Err(error)
        }
    }
}

// The same, where nothing is planned. Where memory runs out some desks may have something planned.
fn plan_asked<D: Desks>(
    alloc: Global,
    row: &mut D,
    grid: &Grid,
    setup: &Setup,
    caller: u32,
    orders: &[Order],
) -> Result<Reply, NoMemory>
    requires asked { AreAsked setup.now grid.now caller (commands.EnterBasket orders.now) (D.desks row.old) }
    requires known { caller < length setup.now.callers }
    ensures reply { (history : List AnEvent) → IsHistoryOf setup.now (D.desks row.old) history → IfOk result (λ reply. reply ≡ reply_to setup.now history caller (commands.EnterBasket orders.now)) }
    ensures planned { IfOk result (λ reply. D.desks row.new ≡ planning_all (D.desks row.old) (events_of reply)) }
    ensures failed { OnErr result (dropped (D.desks row.new) ≡ dropped (D.desks row.old)) }
    ensures rest { D.rest row.new ≡ D.rest row.old }
{
    if let Some(refusal) = refuse_closed(row) {
        return Ok(refuse(row, refusal));
    }
    enter_orders(alloc, row, grid, setup, caller, orders)
}

// The same, where no hour is closed: the orders enter one after the other, each on the desk at its place, up to the
// first that is not filled.
fn enter_orders<D: Desks>(
    alloc: Global,
    row: &mut D,
    grid: &Grid,
    setup: &Setup,
    caller: u32,
    orders: &[Order],
) -> Result<Reply, NoMemory>
    requires asked { AreAsked setup.now grid.now caller (commands.EnterBasket orders.now) (D.desks row.old) }
    requires known { caller < length setup.now.callers }
    requires unclosed { None ≡ closed_refusal (D.desks row.old) }
    ensures reply { (history : List AnEvent) → IsHistoryOf setup.now (D.desks row.old) history → IfOk result (λ reply. reply ≡ reply_to setup.now history caller (commands.EnterBasket orders.now)) }
    ensures planned { IfOk result (λ reply. D.desks row.new ≡ planning_all (D.desks row.old) (events_of reply)) }
    ensures failed { OnErr result (dropped (D.desks row.new) ≡ dropped (D.desks row.old)) }
    ensures rest { D.rest row.new ≡ D.rest row.old }
{
    let mut made: Vec<Event> = Vec::new(alloc);
    for (i, order) in orders.iter().enumerate() {
        match enter_order(row, grid, setup, caller, i, order)? {
            Reply::Done(events) => made.append(&mut events.into_vec())?,
            Reply::Refused(refusal) => return Ok(refuse(row, refusal)),
            Reply::Seen(_) => unreachable!(),
        }
    }
    Ok(Reply::Done(Events::from(made)))
}
