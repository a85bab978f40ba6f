//! The taking of an order that comes in.

ghost use Rattle.std.specs.Prelude.{◌≡◌, ◌<◌, IfOk, OnErr, OnOk, Some, None, false};
ghost use Rattle.zone_graph.specs.Route.{IsIn};
ghost use Rattle.market_model.specs.Board.{IsBoard};
ghost use Rattle.market_model.specs.Orders.{Placed, placed};
ghost use Rattle.market_model.specs.Taking.{next_leg};
ghost use Rattle.laws_of_maximum.specs.Takings.{HasNoDelta};
ghost use Rattle.match_core.specs.Takers.{taker_of};
ghost use Rattle.match_core.specs.Takings as takings;

use crate::taker::Taker;
use crate::walk::Walk;
use market_model::Board;
use std::alloc::Global;
use zone_graph::{Grid, NoMemory};

/// Takes with an order that has just entered, is in hand and does not rest, and answers what stands of
/// it then. Leg by leg it trades with the first of the opposite line of its part whose price crosses and
/// to whom a route leads: over the best route, for the least of what both show and what the route can
/// carry, at the resting order's price; until it is filled or none is left.
///
/// So it obtains the most that its price lets it: it is filled, or what its legs are worth is exactly the
/// bound of the zones that are still in its reach on the board, and no flow plan is worth more. Of an
/// iceberg this holds where its peaks are all at one price.
///
/// The line is walked once, and routes are searched anew only where a leg used up an arc of its route.
/// Rooms and routes are asked for only where the price of the first of the line crosses.
///
/// # Errors
///
/// [`NoMemory`] where memory runs out: then the first legs of the taking were made, and no others.
pub fn take<B: Board>(
    alloc: Global,
    board: &mut B,
    grid: &Grid,
    part: u32,
    taker: Taker,
) -> Result<Taker, NoMemory>
    requires grid { grid.now ≡ (B.state board.old).grid }
    requires part { part < (B.state board.old).parts }
    requires in_hand { (B.state board.old).hand ≡ Some taker.name.number }
    requires entered { takings.HasEntered (B.state board.old) part taker }
    ensures made { OnOk result (B.state board.new ≡ takings.after_taking (B.state board.old) taker.name) }
    ensures some { OnErr result (takings.HasBegun (B.state board.old) (B.state board.new) taker.name) }
    ensures taker { IfOk result (λ rest. (order : Placed) → IsIn order (placed (B.state board.old).events) → order.name ≡ taker.name
        → rest ≡ taker_of (B.state board.new).events order) }
    ensures kept { B.rest board.new ≡ B.rest board.old }
    ensures certified { IfOk result (λ rest. (order : Placed) → IsIn order (placed (B.state board.old).events) → order.name ≡ taker.name
        → HasNoDelta order.order.kind → takings.HasObtainedTheMost (B.state board.old) (B.state board.new) order.order taker.left rest.left) }
{
    if !meets(board, part, &taker) {
        return Ok(taker);
    }
    let mut walk = Walk::new(board, grid, part, taker)?;
    while let Some(partner) = walk.partner(alloc, board, grid)? {
        walk.trade(board, grid, partner)?;
    }
    Ok(walk.taker)
}

// Whether the price of an order that has just entered crosses that of the first order of the opposite
// line. If not it crosses none, and there is no leg.
fn meets<B: Board>(board: &B, part: u32, taker: &Taker) -> bool
    requires part { part < (B.state board.now).parts }
    requires in_hand { (B.state board.now).hand ≡ Some taker.now.name.number }
    requires entered { takings.HasEntered (B.state board.now) part taker.now }
    ensures none { result ≡ false → next_leg (B.state board.now).grid taker.now.name (B.state board.now).events ≡ None }
    ensures board { IsBoard (B.state board.now) }
{
    match board.first(part, taker.side.opposite()) {
        Some(first) => taker.side.crosses(taker.price, first.price),
        None => false,
    }
}
