//! One order of a basket, on the desk of its hour.

ghost use Rattle.std.specs.Prelude.{◌≡◌, ◌<◌, IfOk, OnErr, OnOk, Some, length, slice_get, slice_set};
ghost use Rattle.market_model.specs.declared.command.Command.TheVariants as commands;
ghost use Rattle.market_model.specs.History.{events_of};
ghost use Rattle.market_model.specs.Market.{reply_to};
ghost use Rattle.joint_plan.specs.Desk.{DeskState, planning, with_nothing_planned};
ghost use Rattle.basket_match.specs.Orders as orders;

use joint_plan::Desks;
use market_model::{Command, Refusal, Reply, Setup};
use order_kinds::Order;
use zone_graph::{Grid, NoMemory};

/// Plans an order of a basket on the desk at a place, and answers what it says of the basket: the events of the order,
/// or the refusal of the basket where it is not filled.
///
/// # Errors
///
/// [`NoMemory`] where memory runs out; nothing is planned there then.
pub(crate) fn enter_order<D: Desks>(
    row: &mut D,
    grid: &Grid,
    setup: &Setup,
    caller: u32,
    i: usize,
    order: &Order,
) -> Result<Reply, NoMemory>
    requires within { i < length (D.desks row.old) }
    requires known { caller < length setup.now.callers }
    requires can { (desk : DeskState) → slice_get (D.desks row.old) i ≡ Some desk → orders.CanEnter setup.now grid.now caller order.now desk }
    ensures reply { (desk : DeskState) → slice_get (D.desks row.old) i ≡ Some desk → IfOk result (λ reply. reply ≡ orders.reply_on caller order.now desk) }
    ensures planned { (desk : DeskState) → slice_get (D.desks row.old) i ≡ Some desk
        → OnOk result (D.desks row.new ≡ slice_set (D.desks row.old) i (planning desk (events_of (orders.reply_on caller order.now desk)))) }
    ensures failed { (desk : DeskState) → slice_get (D.desks row.old) i ≡ Some desk → OnErr result (D.desks row.new ≡ slice_set (D.desks row.old) i (with_nothing_planned desk)) }
    ensures rest { D.rest row.new ≡ D.rest row.old }
{
    let reply = plan_at(row, grid, setup, caller, i, order)?;
    Ok(of_basket(order.contract.hour, reply))
}

// Plans an order by itself on the desk at a place, and answers the desk's reply to it.
fn plan_at<D: Desks>(
    row: &mut D,
    grid: &Grid,
    setup: &Setup,
    caller: u32,
    i: usize,
    order: &Order,
) -> Result<Reply, NoMemory>
    requires within { i < length (D.desks row.old) }
    requires known { caller < length setup.now.callers }
    requires can { (desk : DeskState) → slice_get (D.desks row.old) i ≡ Some desk → orders.CanEnter setup.now grid.now caller order.now desk }
    ensures reply { (desk : DeskState) → slice_get (D.desks row.old) i ≡ Some desk → IfOk result (λ reply. reply ≡ reply_to setup.now desk.settled caller (commands.Enter order.now)) }
    ensures planned { (desk : DeskState) → slice_get (D.desks row.old) i ≡ Some desk
        → OnOk result (D.desks row.new ≡ slice_set (D.desks row.old) i (planning desk (events_of (reply_to setup.now desk.settled caller (commands.Enter order.now))))) }
    ensures failed { (desk : DeskState) → slice_get (D.desks row.old) i ≡ Some desk → OnErr result (D.desks row.new ≡ slice_set (D.desks row.old) i (with_nothing_planned desk)) }
    ensures rest { D.rest row.new ≡ D.rest row.old }
{
    let command = Command::Enter { order: *order };
    row.desk_mut(i).plan(grid, setup, caller, &command)
}

// What the reply to an order of an hour says of its basket.
fn of_basket(hour: u32, reply: Reply) -> Reply
    ensures { result ≡ orders.of_basket hour reply }
{
    match reply {
        Reply::Refused(refusal) => Reply::Refused(refusal_of_basket(hour, refusal)),
        other => other,
    }
}

// What the refusal of an order of an hour says of its basket: the order is not filled.
fn refusal_of_basket(hour: u32, refusal: Refusal) -> Refusal
    ensures { result ≡ orders.refusal_of_basket hour refusal }
{
    match refusal {
        Refusal::Unfilled { zones, bound } => Refusal::BasketUnfilled { hour, zones, bound },
        other => other,
    }
}
