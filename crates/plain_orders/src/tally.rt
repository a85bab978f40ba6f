//! The sums of the orders and blocks of one hour, taken in one pass over the events.

ghost use Rattle.std.specs.Prelude.{◌≡◌, ◌≢◌, ℕ, ◌+◌, ◌<◌, true, List, IfOk, IfSome, IsSome, OnOk, length, slice_index_or, if◌then◌else◌};
ghost use Rattle.market_model.specs.declared.event.Event.{Event as TheEvent};
ghost use Rattle.market_model.specs.History as history;
ghost use Rattle.market_model.specs.Orders as orders;
ghost use Rattle.order_kinds.specs.Same.{same_name};
ghost use Rattle.plain_orders.specs.Histories.{IsSomeHistory};
ghost use Rattle.plain_orders.specs.Tallies as sums;

use event_history::History;
use market_model::{Event, Kind, Leg, NoMemory, OrderName};
use std::alloc::Global;

/// What the events so far come to of one order or block.
#[derive(Clone, Copy, Debug, PartialEq, Eq)]
pub(crate) struct Tally {
    /// How much of it is filled, in lots.
    pub(crate) filled: u32,
    /// How much is left of it, in lots.
    pub(crate) left: u32,
    /// Its place in time among the events of its hour, counted from 1.
    pub(crate) moment: u64,
    /// How it is executed: a block never in peaks.
    pub(crate) kind: Kind,
    /// Where in the list of its hour the event stands that entered it.
    pub(crate) place: usize,
}

/// What an event does to an order or block that it names.
#[derive(Clone, Copy, Debug, PartialEq, Eq)]
pub(crate) enum Change {
    /// The event of this place fills so many lots of an order.
    Trades { lots: u32, moment: u64 },
    /// So many lots of a block are filled.
    Deals { lots: u32 },
    /// So many lots are taken off without a trade.
    Falls { lots: u32 },
}

impl Tally {
    // What nothing has entered comes to.
    const NOTHING: Tally = Tally {
        filled: 0,
        left: 0,
        moment: 0,
        kind: Kind::Limit,
        place: 0,
    };

    // Lets one more change count.
    #[inline(always)]
    fn change(&mut self, change: Change)
        requires { sums.CanChange change self.old }
        ensures { self.new ≡ sums.changed change self.old }
    {
        match change {
            Change::Trades { lots, moment } => self.trade(lots, moment),
            Change::Deals { lots } => {
                self.filled += lots;
                self.left -= lots;
            }
            Change::Falls { lots } => self.left -= lots,
        }
    }

    // Lets a leg of an order count: one that empties a peak of it gives it a new moment.
    #[inline(always)]
    fn trade(&mut self, lots: u32, moment: u64)
        requires { sums.CanTrade lots self.old }
        ensures { self.new ≡ sums.traded lots moment self.old }
    {
        self.filled += lots;
        self.left -= lots;
        if ends_peak(self.kind, self.filled) {
            self.moment = moment;
        }
    }
}

// Whether so many filled lots end a peak of an iceberg.
#[inline(always)]
fn ends_peak(kind: Kind, filled: u32) -> bool
    requires { sums.HasPeak kind }
    ensures { result ≡ orders.ends_peak kind filled }
{
    match kind {
        Kind::Iceberg { peak, .. } => filled % peak.0 == 0,
        Kind::Limit | Kind::Ioc | Kind::Fok => false,
    }
}

/// The sums of the orders and blocks of one hour over the first events of a history. Where more events
/// have come since, they alone are taken in.
#[derive(Debug, Drop)]
pub struct OrderSums {
    // What the events come to of each order and block, at its number in the hour: numbers count from 1,
    // so the first place says nothing.
    pub(crate) tallies: Vec<Tally>,
    // How many of the events touch the hour.
    pub(crate) moment: u64,
    // How long the list of the hour is.
    pub(crate) place: usize,
    // How many events there are in all.
    count: usize,
}

/// What the events come to of each order and block that is named by an hour, at its number in the
/// hour: numbers count from 1, so the first place says nothing.
pub(crate) fn tallies_of(alloc: Global, events: &History, hour: u32) -> Result<Vec<Tally>, NoMemory>
    requires history { IsSomeHistory events.now }
    ensures size { IfOk result (λ made. length made.items ≡ sums.entered_in events.now hour + 1) }
    ensures tallies { IfOk result (λ made. sums.AreTallies events.now hour made.items) }
{
    let summed = sum_up(alloc, events, hour, None)?;
    Ok(summed.tallies)
}

/// Brings the sums of an hour up to all events, without listing any order: they are made where there are
/// none yet, or take in the events that have come since, and stay for the next call.
///
/// # Errors
///
/// [`NoMemory`], where there is no memory for the sums of the hour.
pub fn sum_orders(
    alloc: Global,
    events: &History,
    kept: &mut Option<OrderSums>,
    hour: u32,
) -> Result<(), NoMemory>
    requires history { IsSomeHistory events.now }
    requires summed { IfSome kept.old (sums.AreSums events.now hour) }
    ensures summed { IfSome kept.new (sums.AreSums events.now hour) }
    ensures kept { OnOk result (IsSome kept.new) }
    ensures current { IfSome kept.new (sums.AreCurrent events.now) }
{
    let summed = sum_up(alloc, events, hour, kept.take())?;
    *kept = Some(summed);
    Ok(())
}

/// The sums of an hour over all events: those that are given, with the events that have come since, or
/// else all anew.
pub(crate) fn sum_up(
    alloc: Global,
    events: &History,
    hour: u32,
    given: Option<OrderSums>,
) -> Result<OrderSums, NoMemory>
    requires history { IsSomeHistory events.now }
    requires given { IfSome given (sums.AreSums events.now hour) }
    ensures sums { IfOk result (λ made. sums.AreSumsOf events.now hour made.tallies.items made.moment made.place) }
    ensures count { IfOk result (λ made. made.count ≡ length events.now) }
{
    match given {
        Some(given) => sum_on(events, hour, given),
        None => sum_on(events, hour, no_sums(alloc, events.listed(hour).len())?),
    }
}

// The sums over no event, with room for so many orders.
fn no_sums(alloc: Global, room: usize) -> Result<OrderSums, NoMemory>
    ensures { (events : List TheEvent) (hour : ℕ) → IfOk result (sums.AreSums events hour) }
{
    let mut tallies = Vec::with_capacity(alloc, room)?;
    tallies.push(Tally::NOTHING)?;
    Ok(OrderSums {
        tallies,
        moment: 0,
        place: 0,
        count: 0,
    })
}

// Takes in the events that have come since, so that the sums of an hour are those of all events.
fn sum_on(events: &History, hour: u32, before: OrderSums) -> Result<OrderSums, NoMemory>
    requires history { IsSomeHistory events.now }
    requires before { sums.AreSums events.now hour before }
    ensures sums { IfOk result (λ made. sums.AreSumsOf events.now hour made.tallies.items made.moment made.place) }
    ensures count { IfOk result (λ made. made.count ≡ length events.now) }
{
    let list = events.listed(hour);
    let own = History::has_list(hour);
    let end = list.len();
    let mut tallies = before.tallies;
    let mut moment = before.moment;
    for place in before.place..end {
        let event = &list[place];
        if is_of_hour(own, event, hour) {
            moment += 1;
            take_in(&mut tallies, hour, moment, place, event)?;
        }
    }
    Ok(OrderSums {
        tallies,
        moment,
        place: end,
        count: events.len(),
    })
}

// Whether an event of the list of an hour touches the hour: each does where the list is the hour's own.
#[inline(always)]
fn is_of_hour(own: bool, event: &Event, hour: u32) -> bool
    requires { own ≡ true → history.touches hour event.now ≡ true }
    ensures { result ≡ history.touches hour event.now }
{
    own || touches(event, hour)
}

/// How many orders and blocks entered that are named by an hour.
pub(crate) fn entered_in(events: &History, hour: u32) -> usize
    ensures { result ≡ sums.entered_in events.now hour }
{
    count_entered(events.near(hour), hour)
}

// How many orders and blocks enter by some events.
fn count_entered(events: &[Event], hour: u32) -> usize
    ensures { result ≡ sums.entered_in events.now hour }
{
    events.iter().filter(|event| enters_in(event, hour)).count()
}

// Whether an order or a block enters that is named by an hour.
#[inline(always)]
fn enters_in(event: &Event, hour: u32) -> bool
    ensures { result ≡ history.enters_in hour event.now }
{
    match event {
        Event::Entered { name, .. } | Event::EnteredBlock { name, .. } => name.hour == hour,
        _ => false,
    }
}

// Takes in one event of the hour, which is the one of this moment and stands at this place of its list. What
// it enters by the hour is the next one.
#[inline(always)]
fn take_in(
    tallies: &mut Vec<Tally>,
    hour: u32,
    moment: u64,
    place: usize,
    event: &Event,
) -> Result<(), NoMemory>
    requires own { history.touches hour event.now ≡ true }
    requires can { sums.CanTakeIn hour event.now (sums.with_place hour event.now tallies.old.items) }
    ensures size { OnOk result (length tallies.new.items ≡ length (sums.with_place hour event.now tallies.old.items)) }
    ensures tallies { OnOk result ((number : ℕ) (d : Tally) → number < length (sums.with_place hour event.now tallies.old.items) → slice_index_or tallies.new.items number d ≡ sums.after_event (record { hour = hour; number = number }) moment place event.now (slice_index_or (sums.with_place hour event.now tallies.old.items) number d)) }
{
    match event {
        Event::Leg { leg, .. } => take_leg(tallies.as_mut_slice(), hour, moment, leg),
        Event::Entered { order, .. } => tallies.push(Tally {
            filled: 0,
            left: order.quantity.0,
            moment,
            kind: order.kind,
            place,
        })?,
        Event::EnteredBlock { order, .. } => tallies.push(Tally {
            filled: 0,
            left: order.quantity.0,
            moment,
            kind: Kind::Limit,
            place,
        })?,
        Event::BlockLeg { leg, .. } => take_block_leg(tallies.as_mut_slice(), hour, leg),
        Event::Withdrawn { name, lots } | Event::Reduced { name, by: lots } => {
            let fall = Change::Falls { lots: *lots };
            apply(tallies.as_mut_slice(), hour, *name, fall);
        }
        _ => {}
    }
    Ok(())
}

// Takes in a leg of orders, which is the event of this place in the hour.
#[inline(always)]
fn take_leg(tallies: &mut [Tally], hour: u32, moment: u64, leg: &Leg)
    requires apart { leg.now.taker ≢ leg.now.maker }
    requires taker { sums.CanApply hour leg.now.taker (Change.Trades leg.now.lots moment) tallies.old }
    requires maker { sums.CanApply hour leg.now.maker (Change.Trades leg.now.lots moment) tallies.old }
    ensures { (number : ℕ) (d : Tally) → number < length tallies.old → slice_index_or tallies.new number d ≡ (if orders.names leg.now (record { hour = hour; number = number }) then sums.traded leg.now.lots moment (slice_index_or tallies.old number d) else slice_index_or tallies.old number d) }
{
    let trade = Change::Trades {
        lots: leg.lots,
        moment,
    };
    apply(tallies, hour, leg.taker, trade);
    apply(tallies, hour, leg.maker, trade);
}

// Takes in a leg of blocks.
#[inline(always)]
fn take_block_leg(tallies: &mut [Tally], hour: u32, leg: &Leg)
    requires apart { leg.now.taker ≢ leg.now.maker }
    requires taker { sums.CanApply hour leg.now.taker (Change.Deals leg.now.lots) tallies.old }
    requires maker { sums.CanApply hour leg.now.maker (Change.Deals leg.now.lots) tallies.old }
    ensures { (number : ℕ) (d : Tally) → number < length tallies.old → slice_index_or tallies.new number d ≡ (if orders.names leg.now (record { hour = hour; number = number }) then sums.changed (Change.Deals leg.now.lots) (slice_index_or tallies.old number d) else slice_index_or tallies.old number d) }
{
    let deal = Change::Deals { lots: leg.lots };
    apply(tallies, hour, leg.taker, deal);
    apply(tallies, hour, leg.maker, deal);
}

// Changes what the order or block of a name comes to, where it is of the hour.
#[inline(always)]
fn apply(tallies: &mut [Tally], hour: u32, name: OrderName, change: Change)
    requires { sums.CanApply hour name change tallies.old }
    ensures { (number : ℕ) (d : Tally) → number < length tallies.old → slice_index_or tallies.new number d ≡ (if same_name name (record { hour = hour; number = number }) then sums.changed change (slice_index_or tallies.old number d) else slice_index_or tallies.old number d) }
{
    if name.hour == hour {
        tallies[name.number as usize].change(change);
    }
}

// Whether an event touches an hour.
#[inline(always)]
fn touches(event: &Event, hour: u32) -> bool
    ensures { result ≡ history.touches hour event.now }
{
    match event {
        Event::Entered { name, .. }
        | Event::EnteredBlock { name, .. }
        | Event::Withdrawn { name, .. }
        | Event::Reduced { name, .. } => name.hour == hour,
        Event::Leg { contract, .. } => contract.hour == hour,
        Event::BlockLeg { first, last, .. }
        | Event::Halted { first, last, .. }
        | Event::Resumed { first, last, .. } => *first <= hour && hour <= *last,
        Event::Granted { first, last, .. } | Event::Offered { first, last, .. } => {
            first.hour <= hour && hour <= last.hour
        }
        Event::Gated { hour: gated, .. } => *gated == hour,
    }
}
