//! The zones in reach of an order, and the most that it can obtain of some zones and from outside them.

ghost use Rattle.std.specs.Prelude.{◌≡◌, ◌<◌, All, IfOk, length};
ghost use Rattle.order_kinds.specs.Same.{same_side};
ghost use Rattle.order_kinds.specs.Side.{opposite};
ghost use Rattle.zone_graph.specs.Graph.{HasZone, border_count};
ghost use Rattle.zone_graph.specs.Rooms.{room_of};
ghost use Rattle.contract_book.specs.Book as books;
ghost use Rattle.market_model.specs.Certificate as certificates;
ghost use Rattle.desk_entering.specs.CertificateLaws.{HaveAtMost};
ghost use Rattle.desk_entering.specs.Crossing as crossing;

use crate::crossing::crossing_lots_inside;
use contract_book::ContractBook;
use cut_proof::{border_bound, reach};
use market_model::{NoMemory, Order, Side, Zones};
use std::alloc::Global;
use zone_graph::{Grid, Rooms};

/// The zones that an order's zone can still trade with over some rooms, by ascending number: for a buy
/// those that reach it, for a sell those that it reaches.
///
/// # Errors
///
/// [`NoMemory`], where there is no memory for the zones.
pub fn zones_in_reach(
    alloc: Global,
    grid: &Grid,
    rooms: &Rooms,
    order: &Order,
) -> Result<Zones, NoMemory>
    requires zone { HasZone grid.now order.now.zone }
    requires size { length rooms.now ≡ border_count grid.now }
    ensures zones { IfOk result (λ zones. zones ≡ certificates.zones_in_reach grid.now (room_of rooms.now) order.now.side order.now.zone) }
    ensures within { IfOk result (λ zones. All (HasZone grid.now) zones) }
{
    reach(alloc, grid, rooms, order.zone, is_buy(order.side))
}

/// The most that an order can obtain of some zones and from outside them, in lots: what crosses its
/// price of the orders of a part that rest inside the zones on the other side, and the room of the arcs
/// over which energy comes to a buy from outside them, or goes out of them from a sell. It takes no
/// memory, and walks the line once.
///
/// The part is the one of the order's contract in its hour, and the rooms are those of that contract;
/// none is more than a `u32` holds.
pub fn bound(
    book: &ContractBook,
    grid: &Grid,
    rooms: &Rooms,
    part: u32,
    order: &Order,
    zones: &Zones,
) -> u64
    requires part { part < books.parts_of book.now }
    requires zones { All (HasZone grid.now) zones.now }
    requires size { length rooms.now ≡ border_count grid.now }
    requires rooms { HaveAtMost 4294967295 grid.now (room_of rooms.now) }
    ensures { result ≡ crossing.bound_in grid.now (room_of rooms.now) (books.line_of book.now part (opposite order.now.side)) order.now zones.now }
{
    let borders = grid.borders();
    prove!(borders <= 128);
    let inside = crossing_lots_inside(book, part, order, zones);
    inside + border_bound(grid, rooms, zones, is_buy(order.side))
}

// Whether energy comes to an order of this side.
fn is_buy(side: Side) -> bool
    ensures { result ≡ same_side side Side.Buy }
{
    side == Side::Buy
}
