//! The orders of a line as makers: what they show, and what is left of it.

ghost use Rattle.std.specs.Prelude.{◌≡◌, IfOk, map};
ghost use Rattle.laws_of_rows.specs.Depth as depth;

use laws_of_rows::Maker;
use market_model::{NoMemory, OrderName};
use plain_orders::StandingOrder;
use std::alloc::Global;

/// The orders of a line as makers, of which nothing is taken yet.
pub(crate) fn makers_of(alloc: Global, line: &[StandingOrder]) -> Result<Vec<Maker>, NoMemory>
    ensures { IfOk result (λ made. made.items ≡ map depth.maker_of line.now) }
{
    let mut makers = Vec::new(alloc);
    for order in line {
        makers.push(maker_of(order))?;
    }
    Ok(makers)
}

// An order as a maker, of which nothing is taken yet.
fn maker_of(order: &StandingOrder) -> Maker
    ensures { result ≡ depth.maker_of order.now }
{
    Maker {
        name: order.name(),
        zone: order.order().zone,
        price: order.price(),
        left: order.shown(),
    }
}

/// Takes lots of the maker of a name.
pub(crate) fn take_of(makers: &mut [Maker], name: OrderName, lots: u32)
    ensures { makers.new ≡ map (depth.taken_of name lots) makers.old }
{
    for maker in makers.iter_mut() {
        *maker = taken_of(*maker, name, lots);
    }
}

// A maker, of which lots are taken if it bears a name.
fn taken_of(maker: Maker, name: OrderName, lots: u32) -> Maker
    ensures { result ≡ depth.taken_of name lots maker }
{
    if maker.name == name {
        Maker {
            left: maker.left.saturating_sub(lots),
            ..maker
        }
    } else {
        maker
    }
}
