//! Orders and blocks as they entered.

ghost use Rattle.std.specs.Prelude.{◌≡◌};
ghost use Rattle.plain_orders.specs.Listed as listed;

use market_model::{BlockOrder, Event, Order, OrderName};
use std::marker::Model;

/// An order as it entered, which contracts see as the market's own record of it.
#[derive(Clone, Copy, Debug)]
pub struct PlacedOrder {
    pub(crate) name: OrderName,
    pub(crate) caller: u32,
    pub(crate) order: Order,
}

impl Model for PlacedOrder {
    ghost use Rattle.market_model.specs.Orders.{Placed};

    ghost Value = { Placed };

    ghost view = { λ placed. record { name = placed.name; caller = placed.caller; order = placed.order } };

    ghost inverse = { λ placed. record { name = placed.name; caller = placed.caller; order = placed.order } };
}

impl PlacedOrder {
    /// Its name.
    pub fn name(&self) -> OrderName
        ensures { result ≡ self.now.name }
    {
        self.name
    }

    /// Whose it is.
    pub fn caller(&self) -> u32
        ensures { result ≡ self.now.caller }
    {
        self.caller
    }

    /// What was entered.
    pub fn order(&self) -> Order
        ensures { result ≡ self.now.order }
    {
        self.order
    }
}

/// The order that an event enters, if it is named by an hour.
#[inline(always)]
pub(crate) fn order_given(event: &Event, hour: u32) -> Option<PlacedOrder>
    ensures { result ≡ listed.order_given hour event.now }
{
    match event {
        Event::Entered {
            name,
            caller,
            order,
        } if name.hour == hour => Some(PlacedOrder {
            name: *name,
            caller: *caller,
            order: *order,
        }),
        _ => None,
    }
}

/// A block as it entered, which contracts see as the market's own record of it.
#[derive(Clone, Copy, Debug)]
pub struct PlacedBlock {
    pub(crate) name: OrderName,
    pub(crate) caller: u32,
    pub(crate) order: BlockOrder,
}

impl Model for PlacedBlock {
    ghost use Rattle.market_model.specs.Orders.{PlacedBlock as Block};

    ghost Value = { Block };

    ghost view = { λ placed. record { name = placed.name; caller = placed.caller; order = placed.order } };

    ghost inverse = { λ placed. record { name = placed.name; caller = placed.caller; order = placed.order } };
}

impl PlacedBlock {
    /// Its name.
    pub fn name(&self) -> OrderName
        ensures { result ≡ self.now.name }
    {
        self.name
    }

    /// Whose it is.
    pub fn caller(&self) -> u32
        ensures { result ≡ self.now.caller }
    {
        self.caller
    }

    /// What was entered.
    pub fn order(&self) -> BlockOrder
        ensures { result ≡ self.now.order }
    {
        self.order
    }
}
