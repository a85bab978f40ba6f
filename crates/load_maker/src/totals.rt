//! The summary of a journal.

ghost use Rattle.std.specs.Prelude.{◌≡◌, length, count_by, IfOk};
ghost use Rattle.std.specs.List.{sum_by};
ghost use Rattle.market_model.specs.History as histories;
ghost use Rattle.load_maker.specs.Summary as sums;

use market_model::{Entry, Event, Reply};
use std::alloc::Global;
use zone_graph::{NoMemory, Text};

/// The summary of a journal, five lines of a word and a number: its `entries`, those that were
/// `refused`, the `legs` of orders, the `blocklegs`, and the `lots` (tenths of a MW) that both
/// traded. A number above 2^64 - 1 is written as 2^64 - 1.
///
/// # Errors
///
/// [`NoMemory`] where there is no memory for the text.
pub fn summary(alloc: Global, entries: &[Entry]) -> Result<Text, NoMemory>
    ensures { IfOk result (λ text. text ≡ sums.summary_text entries.now) }
{
    let count = entries.len();
    let refused = refusals_in(entries);
    let traded = traded_in(entries);
    let legs = traded.legs;
    let block_legs = traded.block_legs;
    let lots = traded.lots;
    let text = format!(in alloc;
        "entries {count}\nrefused {refused}\nlegs {legs}\nblocklegs {block_legs}\nlots {lots}\n"
    )?;
    Ok(Text::from(text.into_bytes()))
}

// How many entries were refused.
fn refusals_in(entries: &[Entry]) -> usize
    ensures { result ≡ count_by sums.is_refused entries.now }
{
    let mut refused = 0usize;
    for entry in entries {
        if is_refused(entry) {
            refused += 1;
        }
    }
    refused
}

// Whether an entry's command was refused.
fn is_refused(entry: &Entry) -> bool
    ensures { result ≡ sums.is_refused entry.now }
{
    matches!(entry.reply, Reply::Refused(_))
}

// What the commands of a journal traded. No number is above 2^64 - 1.
#[derive(Clone, Copy)]
struct Traded {
    // The legs of orders.
    legs: u64,
    // The legs of blocks.
    block_legs: u64,
    // The lots of both, tenths of a MW.
    lots: u64,
}

// What the commands of a journal traded.
fn traded_in(entries: &[Entry]) -> Traded
    ensures legs { result.legs ≡ sums.capped (sums.legs entries.now) }
    ensures block_legs { result.block_legs ≡ sums.capped (sums.block_legs entries.now) }
    ensures lots { result.lots ≡ sums.capped (sums.lots entries.now) }
{
    let mut legs = 0u64;
    let mut block_legs = 0u64;
    let mut lots = 0u64;
    for entry in entries {
        let events = events_of(entry);
        legs = legs.saturating_add(legs_in(events) as u64);
        block_legs = block_legs.saturating_add(block_legs_in(events) as u64);
        lots = lots.saturating_add(lots_in(events));
    }
    Traded {
        legs,
        block_legs,
        lots,
    }
}

// The events that an entry's command brought about: none, unless it was done.
fn events_of(entry: &Entry) -> &[Event]
    ensures { result.now ≡ histories.events_of entry.now.reply }
{
    match &entry.reply {
        Reply::Done(events) => events.as_slice(),
        Reply::Seen(_) | Reply::Refused(_) => &[],
    }
}

// How many of these events are legs of orders.
fn legs_in(events: &[Event]) -> usize
    ensures { result ≡ count_by sums.is_leg events.now }
{
    events
        .iter()
        .filter(|event| matches!(event, Event::Leg { .. }))
        .count()
}

// How many of these events are legs of blocks.
fn block_legs_in(events: &[Event]) -> usize
    ensures { result ≡ count_by sums.is_block_leg events.now }
{
    events
        .iter()
        .filter(|event| matches!(event, Event::BlockLeg { .. }))
        .count()
}

// The lots that these events trade, or 2^64 - 1 where they are more.
fn lots_in(events: &[Event]) -> u64
    ensures { result ≡ sums.capped (sum_by sums.lots_of events.now) }
{
    let mut lots = 0u64;
    for event in events {
        lots = lots.saturating_add(u64::from(lots_of(event)));
    }
    lots
}

// The lots that an event trades: none, unless it is a leg.
fn lots_of(event: &Event) -> u32
    ensures { result ≡ sums.lots_of event.now }
{
    match event {
        Event::Leg { leg, .. } | Event::BlockLeg { leg, .. } => leg.lots,
        _ => 0,
    }
}
