//! What a deal of two blocks changes of the events and of the store of an hour.

ghost use Rattle.std.specs.Prelude.{◌≡◌, ◌+◌, ◌≤◌, [], ◌∷◌, ◌++◌, IfSome, OnOk, OnErr, if◌then◌else◌};
ghost use Rattle.laws_of_books.specs.LegLaws.{without_both};
ghost use Rattle.block_match.specs.Market.{deal_events, leg_event};
ghost use Rattle.hour_store.specs.Changed.{NotesNoFlow, NotesNoOrder};
ghost use Rattle.hour_store.specs.Store.{StillLeadsBack};
ghost use Rattle.market_model.specs.declared.event.Event.TheVariants as event;
ghost use Rattle.kept_hour.specs.Deals as deals;

use crate::cutting::cut;
use crate::parts::quarters_of;
use block_match::BlockDeal;
use hour_store::HourStore;
use market_model::{BlockOrder, Event, Events, Leg, OrderName};
use zone_graph::{Duplicate, NoMemory, RouteLeg};

// The part that delivers in every quarter: the hour itself.
const WHOLE_HOUR: u32 = 0;

// How many blocks leave with a deal at most.
const BLOCKS: usize = 2;

/// Makes room in the log for all changes of a deal. All else stays as it is.
///
/// # Errors
///
/// [`NoMemory`] where memory runs out, and then nothing changes.
pub(crate) fn reserve_for(store: &mut HourStore, deal: &BlockDeal) -> Result<(), NoMemory>
    ensures contents { store.new.contents ≡ store.old.contents }
    ensures changes { store.new.changes ≡ store.old.changes }
    ensures enough { OnOk result (2 + deals.arc_count deal.now.legs ≤ store.new.spare) }
    ensures unchanged { OnErr result (store.new ≡ store.old) }
{
    let Some(most) = change_count(deal.legs.as_slice()) else {
        return Err(NoMemory);
    };
    store.reserve(most)
}

// How many changes a deal over legs makes at most, one for each block and for each arc: `None` only where
// these are too many to be counted, and so for any memory.
fn change_count(legs: &[RouteLeg]) -> Option<usize>
    ensures { IfSome result (λ count. count ≡ 2 + deals.arc_count legs.now) }
{
    let mut count = BLOCKS;
    for leg in legs {
        count = count.checked_add(leg.route.len())?;
    }
    Some(count)
}

/// Puts the legs of a deal behind the events.
///
/// # Errors
///
/// [`NoMemory`] where memory runs out, and then the events are as before.
pub(crate) fn push_deal(
    events: &mut Events,
    first: u32,
    last: u32,
    deal: &BlockDeal,
) -> Result<(), NoMemory>
    ensures pushed { OnOk result (events.new ≡ events.old ++ deal_events first last deal.now) }
    ensures unchanged { OnErr result (events.new ≡ events.old) }
{
    let len = events.len();
    let legs = deal.legs.as_slice();
    for leg in legs {
        let Ok(()) = push_leg(events, first, last, deal, leg) else {
            cut(events, len);
            return Err(NoMemory);
        };
    }
    Ok(())
}

/// Puts the entry of a block and the legs of its deal behind the events.
///
/// # Errors
///
/// [`NoMemory`] where memory runs out, and then the events are as before.
pub(crate) fn push_dealt_entry(
    events: &mut Events,
    name: OrderName,
    caller: u32,
    order: &BlockOrder,
    deal: &BlockDeal,
) -> Result<(), NoMemory>
    ensures pushed { OnOk result (events.new ≡ events.old ++ event.EnteredBlock name caller order.now ∷ deal_events order.now.first order.now.last deal.now) }
    ensures unchanged { OnErr result (events.new ≡ events.old) }
{
    let len = events.len();
    events.push(Event::EnteredBlock {
        name,
        caller,
        order: *order,
    })?;
    let Ok(()) = push_deal(events, order.first, order.last, deal) else {
        cut(events, len);
        return Err(NoMemory);
    };
    Ok(())
}

// Puts a leg of a deal behind the events, which stay as they were where there is no memory for it.
fn push_leg(
    events: &mut Events,
    first: u32,
    last: u32,
    deal: &BlockDeal,
    leg: &RouteLeg,
) -> Result<(), NoMemory>
    ensures pushed { OnOk result (events.new ≡ events.old ++ leg_event first last deal.now leg.now ∷ []) }
    ensures unchanged { OnErr result (events.new ≡ events.old) }
{
    let leg = Leg {
        taker: OrderName {
            hour: first,
            number: deal.taker,
        },
        maker: OrderName {
            hour: first,
            number: deal.maker,
        },
        lots: leg.lots,
        price: deal.price,
        route: leg.route.copy()?,
    };
    events.push(Event::BlockLeg { first, last, leg })?;
    Ok(())
}

/// Takes the two blocks of a deal out, if they start in the hour, and carries its legs.
pub(crate) fn deal_in(store: &mut HourStore, starts: bool, deal: &BlockDeal)
    requires spare { 2 + deals.arc_count deal.now.legs ≤ store.old.spare }
    requires can { deals.CanCarryAll store.old.contents.flows deal.now.legs }
    ensures dealt { deals.IsDealtIn starts deal.now store.old.contents store.new.contents }
    ensures back { StillLeadsBack store.old store.new }
    ensures noted { deals.NotesDeal deal.now store.old.changes store.new.changes }
{
    take_out(store, starts, deal);
    carry_legs(store, deal.legs.as_slice());
}

// Takes the two blocks of a deal out, if they start in the hour.
fn take_out(store: &mut HourStore, starts: bool, deal: &BlockDeal)
    requires spare { 2 ≤ store.old.spare }
    ensures blocks { store.new.contents.blocks
        ≡ (if starts then without_both store.old.contents.blocks deal.now.taker deal.now.maker else store.old.contents.blocks) }
    ensures book { store.new.contents.book ≡ store.old.contents.book }
    ensures flows { store.new.contents.flows ≡ store.old.contents.flows }
    ensures spare { store.old.spare ≤ store.new.spare + 2 }
    ensures back { StillLeadsBack store.old store.new }
    ensures noted { NotesNoOrder store.old.changes store.new.changes }
    ensures no_flow { NotesNoFlow store.old.changes store.new.changes }
{
    if starts {
        store.withdraw_block(deal.taker);
        store.withdraw_block(deal.maker);
    }
}

// Carries legs in every quarter of the hour, one after the other.
fn carry_legs(store: &mut HourStore, legs: &[RouteLeg])
    requires spare { deals.arc_count legs.now ≤ store.old.spare }
    requires can { deals.CanCarryAll store.old.contents.flows legs.now }
    ensures carried { deals.AreCarried legs.now store.old.contents.flows store.new.contents.flows }
    ensures book { store.new.contents.book ≡ store.old.contents.book }
    ensures blocks { store.new.contents.blocks ≡ store.old.contents.blocks }
    ensures back { StillLeadsBack store.old store.new }
    ensures noted { NotesNoOrder store.old.changes store.new.changes }
    ensures no_flow { legs.now ≡ [] → NotesNoFlow store.old.changes store.new.changes }
{
    for leg in legs {
        store.carry(&leg.route, quarters_of(WHOLE_HOUR), leg.lots);
    }
}
