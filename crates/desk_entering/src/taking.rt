//! An order enters an hour and takes.

ghost use Rattle.std.specs.Prelude.{◌≡◌, ◌<◌, ◌^◌, ◌-◌, ℕ, IfOk};
ghost use Rattle.order_kinds.specs.Contract as contracts;
ghost use Rattle.laws_of_books.specs.BookOf.{ice_of};
ghost use Rattle.match_core.specs.Takers.{taker_at};
ghost use Rattle.kept_hour.specs.Kept.{names_given};
ghost use Rattle.kept_hour.specs.Planned.{IsUnplanned};
ghost use Rattle.desk_entering.specs.Entries.{Enters, HasTaken, IsSettledAs};

use contract_book::Ice;
use kept_hour::KeptHour;
use market_model::{Kind, NoMemory, Order, OrderName};
use match_core::{Taker, take};
use std::alloc::Global;
use zone_graph::Grid;

/// Lets a caller's order enter an hour and take in its part, and answers what stands of it then. It is
/// in hand.
///
/// # Errors
///
/// [`NoMemory`] where memory runs out: some of its events may be planned then.
pub(crate) fn enter_and_take(
    alloc: Global,
    hour: &mut KeptHour,
    grid: &Grid,
    part: u32,
    caller: u32,
    order: &Order,
) -> Result<Taker, NoMemory>
    requires grid { grid.now ≡ hour.old.board.grid }
    requires unplanned { IsUnplanned hour.old }
    requires few { names_given hour.old.board < 2 ^ 32 - 1 }
    requires enters { Enters hour.old.board.grid hour.old.board.hour hour.old.settled caller order.now }
    requires part { part ≡ contracts.part_number order.now.contract.part }
    ensures taken { IfOk result (λ taker. HasTaken hour.new caller order.now taker) }
    ensures kept { IsSettledAs hour.old hour.new }
{
    let moment = hour.events().len() as u64 + 1;
    let number = hour.enter(caller, order)?;
    let taker = fresh_taker(number, order, moment);
    take(alloc, hour, grid, part, taker)
}

// An order that has just entered under a number, at a moment, as it takes.
fn fresh_taker(number: u32, order: &Order, moment: u64) -> Taker
    ensures { (caller : ℕ) → result ≡ taker_at (record { name = record { hour = order.now.contract.hour; number = number }; caller = caller; order = order.now }) 0 order.now.quantity.0 moment }
{
    Taker {
        name: OrderName {
            hour: order.contract.hour,
            number,
        },
        zone: order.zone,
        side: order.side,
        price: order.price,
        left: order.quantity.0,
        moment,
        ice: hidden_of(order),
    }
}

// What an order hides of which nothing is filled.
fn hidden_of(order: &Order) -> Option<Ice>
    ensures { result ≡ ice_of order.now 0 }
{
    match order.kind {
        Kind::Iceberg { peak, delta } => Some(Ice {
            price: order.price,
            total: order.quantity.0,
            peak: peak.0,
            delta,
            filled: 0,
        }),
        Kind::Limit | Kind::Ioc | Kind::Fok => None,
    }
}
