//! What becomes of an order once its taking has ended.

ghost use Rattle.std.specs.Prelude.{◌≡◌, ◌<◌, ℕ, All, Ok, None, IfOk, IfSome};
ghost use Rattle.order_kinds.specs.Contract as contracts;
ghost use Rattle.order_kinds.specs.Period.{contract_quarters};
ghost use Rattle.zone_graph.specs.Graph.{HasZone};
ghost use Rattle.market_model.specs.Certificate.{zones_in_reach};
ghost use Rattle.market_model.specs.Room.{room};
ghost use Rattle.match_core.specs.Takers.{HasLots, HasPeak, shown_by};
ghost use Rattle.match_core.specs.Walks.{AreRoomsOf};
ghost use Rattle.kept_hour.specs.Planned.{IsUnplanned};
ghost use Rattle.desk_entering.specs.Entries as entries;
ghost use Rattle.desk_entering.specs.Entries.{AreZonesOf, Enters, HasEnded, HasTaken, IsJudged, IsSettledAs, rest_record};

use crate::obstacle::Obstacle;
use crate::{bound, zones_in_reach};
use contract_book::{Ice, Resting};
use iceberg_peak::left_of_peak;
use kept_hour::KeptHour;
use market_model::{Board, Kind, NoMemory, Order, Refusal, Zones};
use match_core::Taker;
use std::alloc::Global;
use zone_graph::{Grid, Rooms};

// The orders and blocks that may rest by one hour.
const DESK_ROOM: u32 = 4096;

/// Ends the taking of the order in hand: one that is filled is let go, the rest of an
/// immediate-or-cancel order is withdrawn, and that of a limit order or an iceberg comes to rest. Answers
/// why it is to be refused; else no order is in hand then.
///
/// # Errors
///
/// [`NoMemory`] where memory runs out.
pub(crate) fn end_taking(
    alloc: Global,
    hour: &mut KeptHour,
    grid: &Grid,
    part: u32,
    caller: u32,
    order: &Order,
    taker: &Taker,
) -> Result<Option<Obstacle>, NoMemory>
    requires grid { grid.now ≡ hour.old.board.grid }
    requires part { part ≡ contracts.part_number order.now.contract.part }
    requires taken { HasTaken hour.old caller order.now taker.now }
    ensures ended { result ≡ Ok None → HasEnded hour.new caller order.now }
    ensures judged { IfOk result (λ found. IsJudged hour.old caller order.now found) }
    ensures zones { IfOk result (λ found. IfSome found (AreZonesOf hour.old.board.grid)) }
    ensures kept { IsSettledAs hour.old hour.new }
{
    if taker.left == 0 {
        hour.drop_hand();
        return Ok(None);
    }
    match order.kind {
        Kind::Ioc => {
            hour.withdraw_hand(taker.left)?;
            Ok(None)
        }
        Kind::Fok => {
            let zones = zones_left(alloc, hour, grid, part, order)?;
            Ok(Some(Obstacle::Unfilled(zones)))
        }
        Kind::Limit | Kind::Iceberg { .. } => {
            if hour.open() >= DESK_ROOM {
                return Ok(Some(Obstacle::DeskFull));
            }
            hour.rest_hand(part, record_at_rest(caller, taker))?;
            Ok(None)
        }
    }
}

// The record with which an order in hand comes to rest.
fn record_at_rest(caller: u32, taker: &Taker) -> Resting
    requires { HasPeak taker.now }
    ensures { result ≡ rest_record caller taker.now }
{
    Resting {
        number: taker.name.number,
        caller,
        zone: taker.zone,
        side: taker.side,
        price: taker.price,
        left: taker.left,
        shown: shown(taker.ice, taker.left),
        moment: taker.moment,
        ice: taker.ice,
    }
}

// What an order shows of which so much is left and that hides this.
fn shown(ice: Option<Ice>, left: u32) -> u32
    requires { HasLots ice }
    ensures { result ≡ shown_by ice left }
{
    match ice {
        None => left,
        Some(ice) => left_of_peak(ice.peak, ice.filled).min(left),
    }
}

// The zones that an order of a part could still reach as its hour stands.
fn zones_left(
    alloc: Global,
    hour: &KeptHour,
    grid: &Grid,
    part: u32,
    order: &Order,
) -> Result<Zones, NoMemory>
    requires grid { grid.now ≡ hour.now.board.grid }
    requires part { part < hour.now.board.parts }
    requires of_part { order.now.contract ≡ contracts.contract_at hour.now.board.hour part }
    requires zone { HasZone grid.now order.now.zone }
    ensures zones { IfOk result (λ zones. zones
        ≡ zones_in_reach grid.now (room hour.now.board.events (contract_quarters order.now.contract)) order.now.side order.now.zone) }
    ensures within { IfOk result (λ zones. All (HasZone grid.now) zones) }
{
    let mut rooms = Rooms::new(grid)?;
    hour.rooms(part, &mut rooms);
    zones_in_reach(alloc, grid, &rooms, order)
}

/// Why an order of a part is refused: of a fill-or-kill order with the bound of the zones that are still
/// in its reach, as the hour is settled.
pub(crate) fn refusal_for(
    hour: &KeptHour,
    grid: &Grid,
    rooms: &Rooms,
    part: u32,
    order: &Order,
    obstacle: Obstacle,
) -> Refusal
    requires grid { grid.now ≡ hour.now.board.grid }
    requires part { part ≡ contracts.part_number order.now.contract.part }
    requires unplanned { IsUnplanned hour.now }
    requires enters { (caller : ℕ) × Enters hour.now.board.grid hour.now.board.hour hour.now.settled caller order.now }
    requires rooms { AreRoomsOf hour.now.board part rooms.now }
    requires zones { AreZonesOf grid.now obstacle }
    ensures { (caller : ℕ) → Enters hour.now.board.grid hour.now.board.hour hour.now.settled caller order.now
        → result ≡ entries.refusal_for hour.now.board.grid hour.now.settled caller order.now obstacle }
{
    match obstacle {
        Obstacle::Unfilled(zones) => {
            let bound = bound(hour.book(), grid, rooms, part, order, &zones);
            Refusal::Unfilled { zones, bound }
        }
        Obstacle::DeskFull => Refusal::DeskFull,
    }
}
