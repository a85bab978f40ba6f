//! The pour between two blocks, over a copy of the rooms.

ghost use Rattle.std.specs.Prelude.{◌≡◌, ℕ, ◌<◌, ◌≤◌, ◌^◌, ◌==◌, IfOk, IfSome, length, if◌then◌else◌};
ghost use Rattle.zone_graph.specs.declared.route.Arc.{Arc};
ghost use Rattle.zone_graph.specs.Graph.{HasZone, border_count};
ghost use Rattle.zone_graph.specs.Grid.{IsGrid};
ghost use Rattle.zone_graph.specs.Rooms.{room_of};
ghost use Rattle.block_match.specs.Meeting as meeting;
ghost use Rattle.cut_proof.specs.Carrying.{FitTogether};
ghost use Rattle.route_choice.specs.Poured.{lots_of};

use block_book::RestingBlock;
use order_kinds::Side;
use route_choice::pour;
use std::alloc::Global;
use zone_graph::{Arc, Grid, Legs, NoMemory, Rooms, RouteLeg};

/// The legs of the pour between two blocks, if they carry all of the quantity. The rooms stay as they
/// are; the pour goes over a copy, which is kept in `scratch` for the next one.
///
/// # Errors
///
/// [`NoMemory`] where memory runs out.
pub(crate) fn pour_whole(
    alloc: Global,
    grid: &Grid,
    rooms: &Rooms,
    scratch: &mut Option<Rooms>,
    own: &RestingBlock,
    other: &RestingBlock,
) -> Result<Option<Legs>, NoMemory>
    requires own { HasZone grid.now own.now.zone }
    requires other { HasZone grid.now other.now.zone }
    requires size { length rooms.now ≡ border_count grid.now }
    requires fit { FitTogether grid.now (room_of rooms.now) }
    requires scratch { IfSome scratch.old (λ rooms. length rooms ≡ border_count grid.now) }
    ensures legs { IfOk result (λ legs. legs ≡ meeting.legs_if_whole grid.now (room_of rooms.now) own.now other.now) }
    ensures scratch { IfSome scratch.new (λ rooms. length rooms ≡ border_count grid.now) }
{
    let mut copy = match scratch.take() {
        Some(rooms) => rooms,
        None => Rooms::new(grid)?,
    };
    copy.copy_from(rooms);
    let seller = seller_zone(own, other);
    let buyer = buyer_zone(own, other);
    let zones = grid.zones();
    prove!(seller < zones);
    let legs = pour(alloc, grid, &mut copy, seller, buyer, own.quantity)?;
    *scratch = Some(copy);
    if lots_of(legs.as_slice()) == own.quantity {
        Ok(Some(legs))
    } else {
        Ok(None)
    }
}

// The zone of the seller.
fn seller_zone(own: &RestingBlock, other: &RestingBlock) -> u32
    ensures { result ≡ meeting.seller_zone own.now other.now }
{
    match own.side {
        Side::Buy => other.zone,
        Side::Sell => own.zone,
    }
}

// The zone of the buyer.
fn buyer_zone(own: &RestingBlock, other: &RestingBlock) -> u32
    ensures { result ≡ meeting.buyer_zone own.now other.now }
{
    match own.side {
        Side::Buy => own.zone,
        Side::Sell => other.zone,
    }
}

// The lots of legs together.
fn lots_of(legs: &[RouteLeg]) -> u32
    requires { lots_of legs.now < 2 ^ 32 }
    ensures { result ≡ lots_of legs.now }
{
    let mut lots = 0;
    for leg in legs {
        lots += leg.lots;
    }
    lots
}
