//! The parts of an hour by their numbers.

ghost use Rattle.std.specs.Prelude.{◌≡◌, ◌<◌, true};
ghost use Rattle.order_kinds.specs.Contract as contracts;
ghost use Rattle.order_kinds.specs.Period.{quarter_of, range_has};
ghost use Rattle.laws_of_hours.specs.FlowLaws.{IsRangeIn};
ghost use Rattle.laws_of_hours.specs.Standing.{IsSetOf};
ghost use Rattle.flow_netting.specs.QuarterSet.{has};
ghost use Rattle.kept_hour.specs.Bits.{bit};

use flow_netting::QuarterSet;
use market_model::{Contract, Part};
use order_kinds::Quarter;

/// The contract of the part of a number: 0 is the hour, 1 to 4 are its quarters, 5 and 6 its halves.
pub(crate) fn contract_at(hour: u32, number: u32) -> Contract
    requires number { number < 7 }
    ensures contract { result ≡ contracts.contract_at hour number }
{
    let part = match number {
        0 => Part::Hour,
        1..=4 => Part::Quarter(number),
        _ => Part::Half(number - 4),
    };
    Contract { hour, part }
}

/// The number of a part: the hour has 0, its quarters 1 to 4, its halves 5 and 6.
pub fn number_of(part: Part) -> u32
    requires known { contracts.is_known part ≡ true }
    ensures number { result ≡ contracts.part_number part }
    ensures few { result < 7 }
{
    match part {
        Part::Hour => 0,
        Part::Quarter(number) => number,
        Part::Half(number) => 4 + number,
    }
}

/// The quarters in which the part of a number delivers.
pub(crate) fn quarters_of(number: u32) -> QuarterSet
    requires number { number < 7 }
    ensures { IsSetOf result (contracts.part_at number) }
{
    let quarters = match number {
        0 => 15,
        1 => 1,
        2 => 2,
        3 => 4,
        4 => 8,
        5 => 3,
        _ => 12,
    };
    QuarterSet(quarters)
}

/// The quarters of an hour that are in a range.
pub fn quarters_in_range(hour: u32, first: Quarter, last: Quarter) -> QuarterSet
    ensures { IsRangeIn hour first last (has result) }
{
    let one = bit_in_range(hour, 1, first, last);
    let two = bit_in_range(hour, 2, first, last);
    let three = bit_in_range(hour, 3, first, last);
    let four = bit_in_range(hour, 4, first, last);
    QuarterSet(one + 2 * two + 4 * three + 8 * four)
}

// 1 where a quarter of an hour is in a range, and else 0.
fn bit_in_range(hour: u32, number: u32, first: Quarter, last: Quarter) -> u8
    ensures { result ≡ bit (range_has first last (quarter_of hour number)) }
{
    let quarter = Quarter { hour, number };
    u8::from(quarter.is_in_range(first, last))
}
