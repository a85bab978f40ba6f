//! An iceberg of each side, from its first peak to its last, and the greatest numbers.

ghost use Rattle.std.specs.Prelude.{◌<◌};

use crate::made::expect;
use iceberg_peak::{number_now, price_now, shown};
use std::process::Abort;

// What is filled of 100 lots in peaks of 30, the number of the peak then, its lots, and its price
// where the iceberg sells and where it buys.
const PEAKS: [(u32, u32, u32, i32, i32); 8] = [
    (0, 0, 30, 5000, 5000),
    (1, 0, 29, 5000, 5000),
    (29, 0, 1, 5000, 5000),
    (30, 1, 30, 5010, 4990),
    (60, 2, 30, 5020, 4980),
    (75, 2, 15, 5020, 4980),
    (90, 3, 10, 5030, 4970),
    (99, 3, 1, 5030, 4970),
];

fn expect_lots(rt: &impl Abort, filled: u32, number: u32, lots: u32)
    requires { filled < 100 }
{
    expect(rt, &filled, number_now(30, filled), number);
    expect(rt, &filled, shown(100, 30, filled), lots);
}

fn expect_prices(rt: &impl Abort, filled: u32, sells_at: i32, buys_at: i32)
    requires { filled < 100 }
{
    let sold = price_now(true, 5000, 30, 10, filled);
    expect(rt, &filled, sold, sells_at);
    let bought = price_now(false, 5000, 30, 10, filled);
    expect(rt, &filled, bought, buys_at);
}

#[test]
fn peaks_of_an_iceberg_of_each_side(rt: HostRuntime) {
    for (filled, number, lots, sells_at, buys_at) in PEAKS.as_slice() {
        assert!(rt; *filled < 100);
        expect_lots(&rt, *filled, *number, *lots);
        expect_prices(&rt, *filled, *sells_at, *buys_at);
    }
}

const MOST: u32 = u32::MAX;

#[test]
fn greatest_peaks(rt: HostRuntime) {
    assert_eq!(rt; number_now(1, MOST), MOST);
    assert_eq!(rt; number_now(MOST, MOST - 1), 0);
    assert_eq!(rt; shown(MOST, MOST, 0), MOST);
    assert_eq!(rt; shown(MOST, 1, MOST - 1), 1);
}

#[test]
fn prices_go_from_one_end_to_the_other(rt: HostRuntime) {
    assert_eq!(rt; price_now(true, -999900, 1, 1, 1999800), 999900);
    assert_eq!(rt; price_now(false, 999900, 1, 1999800, 1), -999900);
}

#[test]
fn prices_of_the_greatest_numbers(rt: HostRuntime) {
    assert_eq!(rt; price_now(true, i32::MIN, 1, 1, 2147483648), 0);
    assert_eq!(rt; price_now(false, i32::MAX, 1, 1, 2147483647), 0);
    assert_eq!(rt; price_now(true, 5000, 30, MOST, 29), 5000);
}
