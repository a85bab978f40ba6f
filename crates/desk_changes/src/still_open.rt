//! The orders and blocks of an hour that are open, in order of entry.

ghost use Rattle.std.specs.Prelude.{◌≡◌, None, IfOk};
ghost use Rattle.zone_graph.specs.Route.{IsIn};
ghost use Rattle.laws_of_books.specs.BlockLaws.{IsOfOrder};
ghost use Rattle.laws_of_books.specs.BookLaws.{IsOfBlock};
ghost use Rattle.market_model.specs.Board.{IsBoard};
ghost use Rattle.desk_changes.specs.StillOpen as listed;

use kept_hour::{KeptHour, number_of};
use market_model::{Event, OrderName};
use std::alloc::Global;
use zone_graph::NoMemory;

/// An order or a block that is open.
#[derive(Clone, Copy)]
pub(crate) struct StillOpen {
    /// Its number in the hour by which it is named.
    pub number: u32,

    /// The part of the hour in which an order rests; of a block 0.
    pub part: u32,

    /// The lots that are left of it.
    pub lots: u32,
}

/// What is open of an hour, in order of entry. No order is in hand.
///
/// # Errors
///
/// [`NoMemory`] where memory runs out.
pub(crate) fn open_in(alloc: Global, hour: &KeptHour) -> Result<Vec<StillOpen>, NoMemory>
    requires { hour.now.board.hand ≡ None }
    ensures { IfOk result (λ found. found.items ≡ listed.open_in hour.now.board.events hour.now.board.events) }
{
    let mut found = Vec::new(alloc);
    for event in hour.events() {
        match open_by(hour, event) {
            Some(item) => found.push(item)?,
            None => {}
        }
    }
    Ok(found)
}

// What an event of an hour enters, where it is open still.
fn open_by(hour: &KeptHour, event: &Event) -> Option<StillOpen>
    requires free { hour.now.board.hand ≡ None }
    requires board { IsBoard hour.now.board }
    requires among { IsIn event.now hour.now.board.events }
    ensures { result ≡ listed.open_by hour.now.board.events event.now }
{
    match event {
        Event::Entered { name, order, .. } => {
            open_order(hour, *name, number_of(order.contract.part))
        }
        Event::EnteredBlock { name, .. } => open_block(hour, *name),
        _ => None,
    }
}

// The order of a name, where it is open still.
fn open_order(hour: &KeptHour, name: OrderName, part: u32) -> Option<StillOpen>
    requires free { hour.now.board.hand ≡ None }
    requires board { IsBoard hour.now.board }
    requires hour { name.hour ≡ hour.now.board.hour }
    requires entered { IsOfOrder hour.now.board.events name }
    ensures { result ≡ listed.open_one hour.now.board.events name part }
{
    let order = hour.book().get(name.number)?;
    Some(StillOpen {
        number: name.number,
        part,
        lots: order.left,
    })
}

// The block of a name, where it is open still.
fn open_block(hour: &KeptHour, name: OrderName) -> Option<StillOpen>
    requires board { IsBoard hour.now.board }
    requires hour { name.hour ≡ hour.now.board.hour }
    requires entered { IsOfBlock hour.now.board.events name }
    ensures { result ≡ listed.open_one hour.now.board.events name 0 }
{
    let block = hour.blocks().get(name.number)?;
    Some(StillOpen {
        number: name.number,
        part: 0,
        lots: block.quantity,
    })
}
