//! Refusals as arrays.

ghost use Rattle.std.specs.Prelude.{◌≡◌, [], ◌∷◌, ◌++◌, OnOk, All, codes};
ghost use Rattle.market_model.specs.Naming.{HasZone, IsRefusalIn};
ghost use Rattle.order_kinds.specs.Contract.{hour_text, quarter_text};
ghost use Rattle.order_kinds.specs.Phase.{phase_text};
ghost use Rattle.journal_print.specs.Json.{quote, row};
ghost use Rattle.journal_print.specs.Line as printed;

use crate::names::zone_name;
use crate::spelling::{Hour, Quantity, begin_row, write_comma, write_next, write_word};
use market_model::{Refusal, Setup};
use order_kinds::{Phase, Quarter};
use std::alloc::AllocError;

/// Writes a refusal as the array of its name and of what it carries.
pub(crate) fn write_refusal(
    setup: &Setup,
    refusal: &Refusal,
    out: &mut Vec<u8>,
) -> Result<(), AllocError>
    requires { IsRefusalIn setup.now refusal.now }
    ensures { OnOk result (out.new.items ≡ out.old.items ++ row (printed.refusal_parts setup.now refusal.now)) }
{
    match refusal {
        Refusal::WrongRole => write_name_alone(b"WrongRole", out),
        Refusal::UnknownHour => write_name_alone(b"UnknownHour", out),
        Refusal::UnknownContract => write_name_alone(b"UnknownContract", out),
        Refusal::UnknownZone => write_name_alone(b"UnknownZone", out),
        Refusal::UnknownBorder => write_name_alone(b"UnknownBorder", out),
        Refusal::BadPeriod => write_name_alone(b"BadPeriod", out),
        Refusal::BadBasket => write_name_alone(b"BadBasket", out),
        Refusal::PriceOutOfRange => write_name_alone(b"PriceOutOfRange", out),
        Refusal::QuantityOutOfRange => write_name_alone(b"QuantityOutOfRange", out),
        Refusal::BadPeak => write_name_alone(b"BadPeak", out),
        Refusal::Closed { hour } => write_closed(*hour, out),
        Refusal::GateBack { phase } => write_gate_back(*phase, out),
        Refusal::UnknownOrder => write_name_alone(b"UnknownOrder", out),
        Refusal::BelowFlow { quarter, flow } => write_shortage(b"BelowFlow", *quarter, *flow, out),
        Refusal::NoRoom { quarter, room } => write_shortage(b"NoRoom", *quarter, *room, out),
        Refusal::Unfilled { zones, bound } => write_unfilled(setup, zones.as_slice(), *bound, out),
        Refusal::BasketUnfilled { hour, zones, bound } => {
            write_basket_unfilled(setup, *hour, zones.as_slice(), *bound, out)
        }
        Refusal::DeskFull => write_name_alone(b"DeskFull", out),
    }
}

// A refusal that carries nothing.
#[tactic(auto, unfolding(crate::specs::Json::row))]
fn write_name_alone(name: &[u8], out: &mut Vec<u8>) -> Result<(), AllocError>
    ensures { OnOk result (out.new.items ≡ out.old.items ++ row (quote name.now ∷ [])) }
{
    begin_row(name, out)?;
    out.push(b']')?;
    Ok(())
}

// An hour is closed.
#[tactic(auto, unfolding(crate::specs::Json::row))]
fn write_closed(hour: u32, out: &mut Vec<u8>) -> Result<(), AllocError>
    ensures { OnOk result (out.new.items ≡ out.old.items ++ row (quote (codes "Closed") ∷ quote (hour_text hour) ∷ [])) }
{
    begin_row(b"Closed", out)?;
    write_next(&Hour(hour), out)?;
    out.push(b']')?;
    Ok(())
}

// An hour is in this phase, and goes to no earlier one and to none again.
#[tactic(auto, unfolding(crate::specs::Json::row))]
fn write_gate_back(phase: Phase, out: &mut Vec<u8>) -> Result<(), AllocError>
    ensures { OnOk result (out.new.items ≡ out.old.items ++ row (quote (codes "GateBack") ∷ quote (phase_text phase) ∷ [])) }
{
    begin_row(b"GateBack", out)?;
    write_next(&phase, out)?;
    out.push(b']')?;
    Ok(())
}

// A quarter has less room, or more flow, than was asked.
#[tactic(auto, unfolding(crate::specs::Json::row))]
fn write_shortage(
    name: &[u8],
    quarter: Quarter,
    lots: u32,
    out: &mut Vec<u8>,
) -> Result<(), AllocError>
    ensures { OnOk result (out.new.items ≡ out.old.items ++ row (quote name.now ∷ quote (quarter_text quarter) ∷ quote (printed.quantity_text lots) ∷ [])) }
{
    begin_row(name, out)?;
    write_next(&quarter, out)?;
    write_next(&Quantity(lots as u64), out)?;
    out.push(b']')?;
    Ok(())
}

// An order that cannot be filled: the zones that its taking could reach, and the bound on what any
// trading fills of it.
#[tactic(auto, unfolding(crate::specs::Json::row))]
fn write_unfilled(
    setup: &Setup,
    zones: &[u32],
    bound: u64,
    out: &mut Vec<u8>,
) -> Result<(), AllocError>
    requires { All (HasZone setup.now) zones.now }
    ensures { OnOk result (out.new.items ≡ out.old.items ++ row (quote (codes "Unfilled") ∷ printed.zones_row setup.now zones.now ∷ quote (printed.quantity_text bound) ∷ [])) }
{
    begin_row(b"Unfilled", out)?;
    out.push(b',')?;
    write_zones(setup, zones, out)?;
    write_next(&Quantity(bound), out)?;
    out.push(b']')?;
    Ok(())
}

// The same of an order of a basket, behind its hour.
#[tactic(auto, unfolding(crate::specs::Json::row))]
fn write_basket_unfilled(
    setup: &Setup,
    hour: u32,
    zones: &[u32],
    bound: u64,
    out: &mut Vec<u8>,
) -> Result<(), AllocError>
    requires { All (HasZone setup.now) zones.now }
    ensures { OnOk result (out.new.items ≡ out.old.items ++ row (quote (codes "BasketUnfilled") ∷ quote (hour_text hour) ∷ printed.zones_row setup.now zones.now ∷ quote (printed.quantity_text bound) ∷ [])) }
{
    begin_row(b"BasketUnfilled", out)?;
    write_next(&Hour(hour), out)?;
    out.push(b',')?;
    write_zones(setup, zones, out)?;
    write_next(&Quantity(bound), out)?;
    out.push(b']')?;
    Ok(())
}

// The names of zones, in order.
fn write_zones(setup: &Setup, zones: &[u32], out: &mut Vec<u8>) -> Result<(), AllocError>
    requires { All (HasZone setup.now) zones.now }
    ensures { OnOk result (out.new.items ≡ out.old.items ++ printed.zones_row setup.now zones.now) }
{
    out.push(b'[')?;
    for (place, zone) in zones.iter().enumerate() {
        write_comma(place, out)?;
        write_word(zone_name(setup, *zone), out)?;
    }
    out.push(b']')?;
    Ok(())
}
