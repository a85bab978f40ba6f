//! What a leg changes of the store of its hour.

ghost use Rattle.std.specs.Prelude.{◌≡◌, ◌+◌, ◌<◌, ◌≤◌, length, true, false};
ghost use Rattle.std.specs.Option.{IsSomeAnd};
ghost use Rattle.order_kinds.specs.Contract.{part_at};
ghost use Rattle.zone_graph.specs.Pour.{uses};
ghost use Rattle.flow_netting.specs.QuarterSet.{has};
ghost use Rattle.laws_of_hours.specs.Standing.{IsCarried, IsSetOf};
ghost use Rattle.laws_of_hours.specs.OrderEvents as changes;
ghost use Rattle.hour_store.specs.Changed.{NotesOrdersAt};
ghost use Rattle.hour_store.specs.Store.{StillLeadsBack};
ghost use Rattle.kept_hour.specs.Legs.{CanMakeIn, IsMadeIn, NotesLeg, RestsBeside};

use crate::parts::quarters_of;
use hour_store::HourStore;
use market_model::Leg;

/// Fills the maker and the taker of a leg where they rest, and carries its lots over its route.
pub(crate) fn make_in(store: &mut HourStore, hand: Option<u32>, part: u32, leg: &Leg, moment: u64)
    requires spare { length leg.now.route + 2 ≤ store.old.spare }
    requires part { part < 7 }
    requires can { CanMakeIn hand part leg.now moment store.old.contents }
    ensures made { IsMadeIn hand part leg.now moment store.old.contents store.new.contents }
    ensures back { StillLeadsBack store.old store.new }
    ensures noted { NotesLeg hand part leg.now moment store.old.contents.book store.old.changes store.new.changes }
{
    fill_beside(store, hand, part, leg.maker.number, leg.lots, moment);
    fill_beside(store, hand, part, leg.taker.number, leg.lots, moment);
    store.carry(&leg.route, quarters_of(part), leg.lots);
}

// Fills an order that rests, unless it is the one in hand.
fn fill_beside(
    store: &mut HourStore,
    hand: Option<u32>,
    part: u32,
    number: u32,
    lots: u32,
    moment: u64,
)
    requires spare { 1 ≤ store.old.spare }
    requires can { changes.holds hand number ≡ false → changes.CanFill store.old.contents.book part number lots }
    ensures filled { store.new.contents ≡ record store.old.contents { book = changes.filled_beside hand number lots moment store.old.contents.book } }
    ensures spare { store.old.spare ≤ store.new.spare + 1 }
    ensures back { StillLeadsBack store.old store.new }
    ensures noted { NotesOrdersAt (RestsBeside hand store.old.contents.book number part) store.old.changes store.new.changes }
{
    if !holds(hand, number) {
        store.fill(part, number, lots, moment);
    }
}

// Whether the order of a number is the one in hand.
fn holds(hand: Option<u32>, number: u32) -> bool
    ensures { result ≡ changes.holds hand number }
{
    match hand {
        Some(held) => held == number,
        None => false,
    }
}
