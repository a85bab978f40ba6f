//! Numbers and names, as they are put at the end of a line.

ghost use Rattle.std.specs.Prelude.{◌≡◌, ℕ, List, ◌∷◌, ◌++◌, OnOk, decimal};
ghost use Rattle.order_kinds.specs.Contract.{hour_text, quarter_text, contract_text};
ghost use Rattle.order_kinds.specs.Order.{name_text};
ghost use Rattle.order_kinds.specs.Phase.{phase_text};
ghost use Rattle.order_kinds.specs.Price.{price_text, cents_text};
ghost use Rattle.journal_print.specs.Commas.{comma_before};
ghost use Rattle.journal_print.specs.Json.{quote};
ghost use Rattle.journal_print.specs.Line.{quantity_text};

use itoa::{Buffer, Integer};
use order_kinds::{Contract, OrderName, Part, Phase, Price, Quarter};
use std::alloc::AllocError;

/// What has a short plain text of its own.
pub(crate) trait Spelled {
    ghost spelling: { Self → List ℕ };

    /// Puts the text at the end.
    fn spell(&self, out: &mut Vec<u8>) -> Result<(), AllocError>
        ensures { OnOk result (out.new.items ≡ out.old.items ++ spelling self.now) };
}

/// Writes such a text in quotation marks.
#[tactic(auto, unfolding(crate::specs::Json::quote))]
pub(crate) fn write_spelled<T: Spelled>(value: &T, out: &mut Vec<u8>) -> Result<(), AllocError>
    ensures { OnOk result (out.new.items ≡ out.old.items ++ quote (T.Spelled.spelling value.now)) }
{
    out.push(b'"')?;
    value.spell(out)?;
    out.push(b'"')?;
    Ok(())
}

/// Writes such a text behind a comma.
#[tactic(auto, unfolding(crate::specs::Json::quote))]
pub(crate) fn write_next<T: Spelled>(value: &T, out: &mut Vec<u8>) -> Result<(), AllocError>
    ensures { OnOk result (out.new.items ≡ out.old.items ++ (44 ∷ quote (T.Spelled.spelling value.now))) }
{
    out.push(b',')?;
    write_spelled(value, out)
}

/// Begins an array whose first part is a plain text.
pub(crate) fn begin_row(word: &[u8], out: &mut Vec<u8>) -> Result<(), AllocError>
    ensures { OnOk result (out.new.items ≡ out.old.items ++ (91 ∷ quote word.now)) }
{
    out.push(b'[')?;
    write_word(word, out)
}

/// Writes a plain text in quotation marks.
#[tactic(auto, unfolding(crate::specs::Json::quote))]
pub(crate) fn write_word(word: &[u8], out: &mut Vec<u8>) -> Result<(), AllocError>
    ensures { OnOk result (out.new.items ≡ out.old.items ++ quote word.now) }
{
    out.push(b'"')?;
    out.extend_from_slice(word)?;
    out.push(b'"')?;
    Ok(())
}

/// Writes the comma in front of an item of this place, counted from 0, but none in front of the first.
pub(crate) fn write_comma(place: usize, out: &mut Vec<u8>) -> Result<(), AllocError>
    ensures { OnOk result (out.new.items ≡ out.old.items ++ comma_before place) }
{
    if place == 0 {
        return Ok(());
    }
    out.push(b',')?;
    Ok(())
}

/// Writes the digits of a number.
pub(crate) fn write_number<I: Integer>(number: I, out: &mut Vec<u8>) -> Result<(), AllocError>
    ensures { OnOk result (out.new.items ≡ out.old.items ++ I.text number) }
{
    out.extend_from_slice(Buffer::new().format(number).as_bytes())
}

/// An hour of the delivery day, by its number.
#[derive(Clone, Copy)]
pub(crate) struct Hour(pub u32);

impl Spelled for Hour {
    ghost spelling = { λ hour. hour_text hour.0 };

    fn spell(&self, out: &mut Vec<u8>) -> Result<(), AllocError> {
        write_hour(self.0, out)
    }
}

impl Spelled for Quarter {
    ghost spelling = { quarter_text };

    fn spell(&self, out: &mut Vec<u8>) -> Result<(), AllocError> {
        write_numbered(self.hour, b'q', self.number, out)
    }
}

impl Spelled for Contract {
    ghost spelling = { contract_text };

    fn spell(&self, out: &mut Vec<u8>) -> Result<(), AllocError> {
        match self.part {
            Part::Hour => write_hour(self.hour, out),
            Part::Quarter(number) => write_numbered(self.hour, b'q', number, out),
            Part::Half(number) => write_numbered(self.hour, b'f', number, out),
        }
    }
}

impl Spelled for OrderName {
    ghost spelling = { name_text };

    fn spell(&self, out: &mut Vec<u8>) -> Result<(), AllocError> {
        write_numbered(self.hour, b'#', self.number, out)
    }
}

impl Spelled for Phase {
    ghost spelling = { phase_text };

    fn spell(&self, out: &mut Vec<u8>) -> Result<(), AllocError> {
        match self {
            Phase::Open => out.extend_from_slice(b"open"),
            Phase::Local => out.extend_from_slice(b"local"),
            Phase::Closed => out.extend_from_slice(b"closed"),
        }
    }
}

impl Spelled for Price {
    ghost spelling = { price_text };

    fn spell(&self, out: &mut Vec<u8>) -> Result<(), AllocError> {
        let cents = self.0.unsigned_abs();
        if self.0 < 0 {
            out.push(b'-')?;
            write_cents(cents, out)
        } else {
            write_cents(cents, out)
        }
    }
}

/// A quantity in lots (tenths of a MW), which may be above any quantity of one order.
#[derive(Clone, Copy)]
pub(crate) struct Quantity(pub u64);

impl Spelled for Quantity {
    ghost spelling = { λ quantity. quantity_text quantity.0 };

    fn spell(&self, out: &mut Vec<u8>) -> Result<(), AllocError> {
        write_number(self.0 / 10, out)?;
        out.push(b'.')?;
        out.push(b'0' + (self.0 % 10) as u8)?;
        Ok(())
    }
}

// An hour by its number.
fn write_hour(hour: u32, out: &mut Vec<u8>) -> Result<(), AllocError>
    ensures { OnOk result (out.new.items ≡ out.old.items ++ hour_text hour) }
{
    out.push(b'h')?;
    write_number(hour, out)
}

// An hour, and behind a mark the number of what is of it.
fn write_numbered(hour: u32, mark: u8, number: u32, out: &mut Vec<u8>) -> Result<(), AllocError>
    ensures { OnOk result (out.new.items ≡ out.old.items ++ (hour_text hour ++ (mark ∷ decimal number))) }
{
    write_hour(hour, out)?;
    out.push(mark)?;
    write_number(number, out)
}

// An amount of cents, with two digits after the point.
fn write_cents(cents: u32, out: &mut Vec<u8>) -> Result<(), AllocError>
    ensures { OnOk result (out.new.items ≡ out.old.items ++ cents_text cents) }
{
    write_number(cents / 100, out)?;
    out.push(b'.')?;
    out.push(b'0' + (cents / 10 % 10) as u8)?;
    out.push(b'0' + (cents % 10) as u8)?;
    Ok(())
}
