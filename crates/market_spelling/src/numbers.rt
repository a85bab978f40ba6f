//! Numbers, quantities, amounts of cents and prices.

ghost use Rattle.std.specs.Prelude.{◌≡◌, ◌<◌, ◌≤◌, ◌^◌, IfSome};
ghost use Rattle.market_spelling.specs.Numbers as numbers;

use order_kinds::{Lots, Price};

/// A quantity in lots (tenths of a MW): megawatts of 1 to 7 digits, a point and one digit. No 0
/// stands in front of another digit of the whole part.
#[tactic(auto, unfolding(crate::specs::Numbers::quantity_of))]
pub fn read_quantity(bytes: &[u8]) -> Option<Lots>
    ensures { result ≡ numbers.quantity_of bytes.now }
{
    let [whole @ .., b'.', tenth] = bytes else {
        return None;
    };
    let whole = read_whole(whole)?;
    let tenth = read_digit(*tenth)?;
    Some(Lots(10 * whole + tenth))
}

/// A price in cents per MWh: an amount of cents, and a minus sign in front where it is below 0.
#[tactic(auto, unfolding(crate::specs::Numbers::price_of))]
pub fn read_price(bytes: &[u8]) -> Option<Price>
    ensures { result ≡ numbers.price_of bytes.now }
{
    match bytes {
        [b'-', amount @ ..] => {
            let cents = read_cents(amount)?;
            if cents == 0 {
                return None;
            }
            Some(Price(-(cents as i32)))
        }
        amount => {
            let cents = read_cents(amount)?;
            Some(Price(cents as i32))
        }
    }
}

/// An amount that is not below 0, in cents: 1 to 7 digits, a point and two digits. No 0 stands in
/// front of another digit of the whole part.
#[tactic(auto, unfolding(crate::specs::Numbers::cents_of))]
pub fn read_cents(bytes: &[u8]) -> Option<u32>
    ensures value { result ≡ numbers.cents_of bytes.now }
    ensures below { IfSome result (λ cents. cents < 1000000000) }
{
    let [whole @ .., b'.', tenth, hundredth] = bytes else {
        return None;
    };
    let whole = read_whole(whole)?;
    let tenth = read_digit(*tenth)?;
    let hundredth = read_digit(*hundredth)?;
    Some(100 * whole + 10 * tenth + hundredth)
}

// The whole part of a number with a point: one to seven digits, of which the first is 0 only where
// it is the only one.
#[tactic(auto, unfolding(crate::specs::Numbers::whole_of))]
fn read_whole(bytes: &[u8]) -> Option<u32>
    ensures value { result ≡ numbers.whole_of bytes.now }
    ensures below { IfSome result (λ whole. whole < 10000000) }
{
    match bytes {
        [b'0', _, ..] => None,
        digits => read_number(digits, 7),
    }
}

// The number of one to so many decimal digits.
#[tactic(auto, unfolding(crate::specs::Numbers::number_of))]
pub(crate) fn read_number(bytes: &[u8], most: usize) -> Option<u32>
    requires { most ≤ 9 }
    ensures value { result ≡ numbers.number_of most bytes.now }
    ensures below { IfSome result (λ number. number < 10 ^ most) }
{
    if bytes.is_empty() || bytes.len() > most {
        return None;
    }
    let mut value = 0;
    for byte in bytes {
        match read_digit(*byte) {
            Some(digit) => value = 10 * value + digit,
            None => return None,
        }
    }
    Some(value)
}

// The value of a decimal digit.
#[tactic(auto, unfolding(crate::specs::Numbers::digit_of))]
pub(crate) fn read_digit(byte: u8) -> Option<u32>
    ensures value { result ≡ numbers.digit_of byte }
    ensures below { IfSome result (λ digit. digit < 10) }
{
    if byte.is_ascii_digit() {
        Some(u32::from(byte - b'0'))
    } else {
        None
    }
}
