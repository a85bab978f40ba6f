//! Events as arrays.

ghost use Rattle.std.specs.Prelude.{◌≡◌, [], ◌∷◌, ◌++◌, OnOk, map, All, codes, true};
ghost use Rattle.market_model.specs.Naming.{HasArcs, HasBorder, IsNamed, IsEventIn};
ghost use Rattle.journal_print.specs.Json.{quote, row};
ghost use Rattle.journal_print.specs.Line as printed;
ghost use Rattle.order_kinds.specs.Contract.{hour_text, quarter_text, contract_text};
ghost use Rattle.order_kinds.specs.Order.{name_text};
ghost use Rattle.order_kinds.specs.Phase.{phase_text};

use crate::names::write_arc;
use crate::spelling::{Hour, Quantity, begin_row, write_comma, write_next};
use market_model::{Event, Leg, Setup};
use order_kinds::{Contract, OrderName, Phase, Quarter};
use std::alloc::AllocError;
use zone_graph::Arc;

/// Writes events, each as an array.
pub(crate) fn write_events(
    setup: &Setup,
    events: &[Event],
    out: &mut Vec<u8>,
) -> Result<(), AllocError>
    requires named { IsNamed setup.now }
    requires within { All (IsEventIn setup.now) events.now }
    ensures { OnOk result (out.new.items ≡ out.old.items ++ row (printed.event_rows setup.now events.now)) }
{
    out.push(b'[')?;
    for (place, event) in events.iter().enumerate() {
        write_comma(place, out)?;
        write_event(setup, event, out)?;
    }
    out.push(b']')?;
    Ok(())
}

// Writes an event as the array of its kind and of what it concerns.
fn write_event(setup: &Setup, event: &Event, out: &mut Vec<u8>) -> Result<(), AllocError>
    requires named { IsNamed setup.now }
    requires within { IsEventIn setup.now event.now }
    ensures { OnOk result (out.new.items ≡ out.old.items ++ row (printed.event_parts setup.now event.now)) }
{
    match event {
        Event::Entered { name, order, .. } => write_entered(*name, order.contract, out),
        Event::EnteredBlock { name, order, .. } => {
            write_entered_block(*name, order.first, order.last, out)
        }
        Event::Leg { leg, .. } => write_trade(setup, b"leg", leg, out),
        Event::BlockLeg { leg, .. } => write_trade(setup, b"blockleg", leg, out),
        Event::Granted {
            arc,
            first,
            last,
            lots,
        } => write_capacity(setup, b"granted", *arc, *first, *last, *lots, out),
        Event::Offered {
            arc,
            first,
            last,
            lots,
        } => write_capacity(setup, b"offered", *arc, *first, *last, *lots, out),
        Event::Halted {
            border,
            first,
            last,
        } => write_border_hours(setup, b"halted", *border, *first, *last, out),
        Event::Resumed {
            border,
            first,
            last,
        } => write_border_hours(setup, b"resumed", *border, *first, *last, out),
        Event::Gated { hour, phase } => write_gated(*hour, *phase, out),
        Event::Withdrawn { name, lots } => write_order_change(b"withdrawn", *name, *lots, out),
        Event::Reduced { name, by } => write_order_change(b"reduced", *name, *by, out),
    }
}

// An order that was entered.
#[tactic(auto, unfolding(crate::specs::Json::row))]
fn write_entered(name: OrderName, contract: Contract, out: &mut Vec<u8>) -> Result<(), AllocError>
    ensures { OnOk result (out.new.items ≡ out.old.items ++ row (quote (codes "entered") ∷ quote (name_text name) ∷ quote (contract_text contract) ∷ [])) }
{
    begin_row(b"entered", out)?;
    write_next(&name, out)?;
    write_next(&contract, out)?;
    out.push(b']')?;
    Ok(())
}

// A block that was entered.
#[tactic(auto, unfolding(crate::specs::Json::row))]
fn write_entered_block(
    name: OrderName,
    first: u32,
    last: u32,
    out: &mut Vec<u8>,
) -> Result<(), AllocError>
    ensures { OnOk result (out.new.items ≡ out.old.items ++ row (quote (codes "entered") ∷ quote (name_text name) ∷ quote (hour_text first) ∷ quote (hour_text last) ∷ [])) }
{
    begin_row(b"entered", out)?;
    write_next(&name, out)?;
    write_next(&Hour(first), out)?;
    write_next(&Hour(last), out)?;
    out.push(b']')?;
    Ok(())
}

// A trade of two orders or of two blocks over one route.
#[tactic(auto, unfolding(crate::specs::Json::row))]
fn write_trade(setup: &Setup, kind: &[u8], leg: &Leg, out: &mut Vec<u8>) -> Result<(), AllocError>
    requires named { IsNamed setup.now }
    requires known { HasArcs setup.now leg.now.route }
    ensures { OnOk result (out.new.items ≡ out.old.items ++ row (quote kind.now ∷ printed.trade_parts setup.now leg.now)) }
{
    let route = leg.route.as_slice();
    begin_row(kind, out)?;
    write_next(&leg.taker, out)?;
    write_next(&leg.maker, out)?;
    write_next(&Quantity(leg.lots as u64), out)?;
    write_next(&leg.price, out)?;
    out.push(b',')?;
    write_route(setup, route, out)?;
    out.push(b']')?;
    Ok(())
}

// The arcs of a route, in order.
fn write_route(setup: &Setup, route: &[Arc], out: &mut Vec<u8>) -> Result<(), AllocError>
    requires named { IsNamed setup.now }
    requires known { HasArcs setup.now route.now }
    ensures { OnOk result (out.new.items ≡ out.old.items ++ row (map (λ arc. quote (printed.arc_text setup.now arc)) route.now)) }
{
    out.push(b'[')?;
    for (place, arc) in route.iter().enumerate() {
        write_comma(place, out)?;
        write_arc(setup, *arc, out)?;
    }
    out.push(b']')?;
    Ok(())
}

// Capacity that was granted or offered in a range of quarters.
#[tactic(auto, unfolding(crate::specs::Json::row))]
fn write_capacity(
    setup: &Setup,
    kind: &[u8],
    arc: Arc,
    first: Quarter,
    last: Quarter,
    lots: u32,
    out: &mut Vec<u8>,
) -> Result<(), AllocError>
    requires named { IsNamed setup.now }
    requires known { HasBorder setup.now arc.border }
    ensures { OnOk result (out.new.items ≡ out.old.items ++ row (quote kind.now ∷ quote (printed.arc_text setup.now arc) ∷ quote (quarter_text first) ∷ quote (quarter_text last) ∷ quote (printed.quantity_text lots) ∷ [])) }
{
    begin_row(kind, out)?;
    out.push(b',')?;
    write_arc(setup, arc, out)?;
    write_next(&first, out)?;
    write_next(&last, out)?;
    write_next(&Quantity(lots as u64), out)?;
    out.push(b']')?;
    Ok(())
}

// A border, by its forward arc, that was halted or resumed in a range of hours.
#[tactic(auto, unfolding(crate::specs::Json::row))]
fn write_border_hours(
    setup: &Setup,
    kind: &[u8],
    border: u32,
    first: u32,
    last: u32,
    out: &mut Vec<u8>,
) -> Result<(), AllocError>
    requires named { IsNamed setup.now }
    requires known { HasBorder setup.now border }
    ensures { OnOk result (out.new.items ≡ out.old.items ++ row (quote kind.now ∷ quote (printed.arc_text setup.now (record { border = border; forward = true })) ∷ quote (hour_text first) ∷ quote (hour_text last) ∷ [])) }
{
    let arc = Arc {
        border,
        forward: true,
    };
    begin_row(kind, out)?;
    out.push(b',')?;
    write_arc(setup, arc, out)?;
    write_next(&Hour(first), out)?;
    write_next(&Hour(last), out)?;
    out.push(b']')?;
    Ok(())
}

// An hour that went on to a phase.
#[tactic(auto, unfolding(crate::specs::Json::row))]
fn write_gated(hour: u32, phase: Phase, out: &mut Vec<u8>) -> Result<(), AllocError>
    ensures { OnOk result (out.new.items ≡ out.old.items ++ row (quote (codes "gated") ∷ quote (hour_text hour) ∷ quote (phase_text phase) ∷ [])) }
{
    begin_row(b"gated", out)?;
    write_next(&Hour(hour), out)?;
    write_next(&phase, out)?;
    out.push(b']')?;
    Ok(())
}

// An order or a block that left the order book, or became smaller.
#[tactic(auto, unfolding(crate::specs::Json::row))]
fn write_order_change(
    kind: &[u8],
    name: OrderName,
    lots: u32,
    out: &mut Vec<u8>,
) -> Result<(), AllocError>
    ensures { OnOk result (out.new.items ≡ out.old.items ++ row (quote kind.now ∷ quote (name_text name) ∷ quote (printed.quantity_text lots) ∷ [])) }
{
    begin_row(kind, out)?;
    write_next(&name, out)?;
    write_next(&Quantity(lots as u64), out)?;
    out.push(b']')?;
    Ok(())
}
