//! Hours, contracts, quarters and the names of orders.

ghost use Rattle.std.specs.Prelude.{◌≡◌, ◌<◌, IfSome};
ghost use Rattle.market_spelling.specs.Hours as hours;

use crate::numbers::{read_digit, read_number};
use crate::words::split_at_byte;
use order_kinds::{Contract, OrderName, Part, Quarter};

/// The number of an hour: `h` and one or two digits. The number may be of no hour of any day.
#[tactic(auto, unfolding(crate::specs::Hours::hour_of))]
pub fn read_hour(bytes: &[u8]) -> Option<u32>
    ensures value { result ≡ hours.hour_of bytes.now }
    ensures below { IfSome result (λ hour. hour < 100) }
{
    match bytes {
        [b'h', digits @ ..] => read_number(digits, 2),
        _ => None,
    }
}

/// A contract: an hour, or an hour with `q` and one of its quarters, or with `f` and one of its
/// halves. The number after the letter is one digit, which may be of no part that an hour has.
#[tactic(auto, unfolding(crate::specs::Hours::contract_of))]
pub fn read_contract(bytes: &[u8]) -> Option<Contract>
    ensures { result ≡ hours.contract_of bytes.now }
{
    let (hour, part) = match bytes {
        [hour @ .., b'q', number] => (hour, Part::Quarter(read_digit(*number)?)),
        [hour @ .., b'f', number] => (hour, Part::Half(read_digit(*number)?)),
        hour => (hour, Part::Hour),
    };
    Some(Contract {
        hour: read_hour(hour)?,
        part,
    })
}

/// A quarter of an hour: the hour, `q` and one digit, which may be of no quarter that it has.
#[tactic(auto, unfolding(crate::specs::Hours::quarter_of))]
pub fn read_quarter(bytes: &[u8]) -> Option<Quarter>
    ensures { result ≡ hours.quarter_of bytes.now }
{
    let [hour @ .., b'q', number] = bytes else {
        return None;
    };
    let number = read_digit(*number)?;
    let hour = read_hour(hour)?;
    Some(Quarter { hour, number })
}

/// The name of an order or a block: the hour, `#` and 1 to 9 digits.
#[tactic(auto, unfolding(crate::specs::Hours::order_name_of))]
pub fn read_order_name(bytes: &[u8]) -> Option<OrderName>
    ensures { result ≡ hours.order_name_of bytes.now }
{
    let (hour, number) = split_at_byte(bytes, b'#')?;
    let hour = read_hour(hour)?;
    let number = read_number(number, 9)?;
    Some(OrderName { hour, number })
}
