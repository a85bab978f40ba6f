//! Entries as lines.

ghost use Rattle.std.specs.Prelude.{◌≡◌, [], ◌∷◌, ◌++◌, IfOk, OnOk, All, codes, decimal};
ghost use Rattle.market_model.specs.Naming.{IsNamed, IsEventIn, IsRefusalIn, IsEntryIn};
ghost use Rattle.order_kinds.specs.Price.{price_text};
ghost use Rattle.journal_print.specs.Json.{quote, row, braces};
ghost use Rattle.journal_print.specs.Line as printed;

use crate::event::write_events;
use crate::names::caller_name;
use crate::refusal::write_refusal;
use crate::spelling::{Quantity, write_comma, write_next, write_number, write_spelled, write_word};
use market_model::{Entry, Event, Refusal, Reply, Setup, ViewRow};
use order_kinds::Price;
use std::alloc::{AllocError, Global};
use zone_graph::{NoMemory, Text};

// Room for a line of some length, so that most are written in one piece of memory.
const ROOM: usize = 256;

/// The line of an entry that stands at this place of the journal, counted from 1: JSON (RFC 8259)
/// without spaces, the keys in the order of bytes, and a line feed. Quantities are printed in MW
/// with one digit after the point, prices with two.
///
/// # Errors
///
/// Want of memory.
pub fn print_entry(
    alloc: Global,
    setup: &Setup,
    place: u64,
    entry: &Entry,
) -> Result<Text, NoMemory>
    requires named { IsNamed setup.now }
    requires within { IsEntryIn setup.now entry.now }
    ensures line { IfOk result (λ text. text ≡ printed.entry_line setup.now place entry.now) }
{
    let mut out = Vec::with_capacity(alloc, ROOM)?;
    write_entry(setup, place, entry, &mut out)?;
    out.push(b'\n')?;
    Ok(Text::from(out))
}

// An entry at its place of the journal, as an object.
fn write_entry(
    setup: &Setup,
    place: u64,
    entry: &Entry,
    out: &mut Vec<u8>,
) -> Result<(), AllocError>
    requires named { IsNamed setup.now }
    requires within { IsEntryIn setup.now entry.now }
    ensures { OnOk result (out.new.items ≡ out.old.items ++ braces (printed.entry_members setup.now place entry.now)) }
{
    let caller = caller_name(setup, entry.caller);
    let nth = entry.nth;
    match &entry.reply {
        Reply::Done(events) => write_done(setup, caller, nth, place, events.as_slice(), out),
        Reply::Seen(rows) => write_seen(caller, nth, place, rows.as_slice(), out),
        Reply::Refused(refusal) => write_refused(setup, caller, nth, place, refusal, out),
    }
}

// An entry with events.
#[tactic(auto, unfolding(crate::specs::Json::quote, crate::specs::Json::braces))]
fn write_done(
    setup: &Setup,
    caller: &[u8],
    nth: u32,
    place: u64,
    events: &[Event],
    out: &mut Vec<u8>,
) -> Result<(), AllocError>
    requires named { IsNamed setup.now }
    requires within { All (IsEventIn setup.now) events.now }
    ensures { OnOk result (out.new.items ≡ out.old.items ++ braces (printed.done_members caller.now nth place (printed.event_rows setup.now events.now))) }
{
    begin_line(caller, nth, out)?;
    out.extend_from_slice(b",\"done\":")?;
    write_events(setup, events, out)?;
    out.extend_from_slice(b",\"entry\":")?;
    write_number(place, out)?;
    out.push(b'}')?;
    Ok(())
}

// An entry with the rows of a view.
#[tactic(auto, unfolding(crate::specs::Json::quote, crate::specs::Json::braces))]
fn write_seen(
    caller: &[u8],
    nth: u32,
    place: u64,
    rows: &[ViewRow],
    out: &mut Vec<u8>,
) -> Result<(), AllocError>
    ensures { OnOk result (out.new.items ≡ out.old.items ++ braces (printed.seen_members caller.now nth place (printed.view_rows rows.now))) }
{
    begin_line(caller, nth, out)?;
    out.extend_from_slice(b",\"entry\":")?;
    write_number(place, out)?;
    out.extend_from_slice(b",\"rows\":")?;
    write_view(rows, out)?;
    out.push(b'}')?;
    Ok(())
}

// An entry with a refusal.
#[tactic(auto, unfolding(crate::specs::Json::quote, crate::specs::Json::braces))]
fn write_refused(
    setup: &Setup,
    caller: &[u8],
    nth: u32,
    place: u64,
    refusal: &Refusal,
    out: &mut Vec<u8>,
) -> Result<(), AllocError>
    requires { IsRefusalIn setup.now refusal.now }
    ensures { OnOk result (out.new.items ≡ out.old.items ++ braces (printed.refused_members caller.now nth place (printed.refusal_parts setup.now refusal.now))) }
{
    begin_line(caller, nth, out)?;
    out.extend_from_slice(b",\"entry\":")?;
    write_number(place, out)?;
    out.extend_from_slice(b",\"refused\":")?;
    write_refusal(setup, refusal, out)?;
    out.push(b'}')?;
    Ok(())
}

// The first half of a line's object: the caller, and which of the caller's entries it is.
fn begin_line(caller: &[u8], nth: u32, out: &mut Vec<u8>) -> Result<(), AllocError>
    ensures { OnOk result (out.new.items ≡ out.old.items ++ (codes "{\"caller\":" ++ (quote caller.now ++ (codes ",\"command\":" ++ decimal nth)))) }
{
    out.extend_from_slice(b"{\"caller\":")?;
    write_word(caller, out)?;
    out.extend_from_slice(b",\"command\":")?;
    write_number(nth, out)
}

// The rows of a view, each as an array of price and quantity.
fn write_view(rows: &[ViewRow], out: &mut Vec<u8>) -> Result<(), AllocError>
    ensures { OnOk result (out.new.items ≡ out.old.items ++ row (printed.view_rows rows.now)) }
{
    out.push(b'[')?;
    for (place, offer) in rows.iter().enumerate() {
        write_comma(place, out)?;
        write_offer(offer.price, offer.lots, out)?;
    }
    out.push(b']')?;
    Ok(())
}

// One row of a view.
#[tactic(auto, unfolding(crate::specs::Json::row))]
fn write_offer(price: Price, lots: u32, out: &mut Vec<u8>) -> Result<(), AllocError>
    ensures { OnOk result (out.new.items ≡ out.old.items ++ row (quote (price_text price) ∷ quote (printed.quantity_text lots) ∷ [])) }
{
    out.push(b'[')?;
    write_spelled(&price, out)?;
    write_next(&Quantity(lots as u64), out)?;
    out.push(b']')?;
    Ok(())
}
