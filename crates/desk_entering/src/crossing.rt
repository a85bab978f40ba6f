//! What crosses a taker's price of the orders that rest.

ghost use Rattle.std.specs.Prelude.{◌≡◌, ◌+◌, ◌*◌, ◌<◌, ◌≤◌};
ghost use Rattle.contract_book.specs.Book as books;
ghost use Rattle.contract_book.specs.Resting.{IsIceberg, IsSound};
ghost use Rattle.iceberg_peak.specs.Peak as peaks;
ghost use Rattle.order_kinds.specs.Order.{peak_count};
ghost use Rattle.order_kinds.specs.Side.{opposite};
ghost use Rattle.zone_graph.specs.Pour as pours;
ghost use Rattle.zone_graph.specs.Route as routes;
ghost use Rattle.desk_entering.specs.Crossing as crossing;

use contract_book::{ContractBook, Ice, Resting};
use iceberg_peak::{number_now, price_of_peak};
use market_model::{Order, Zones};

/// The lots of the orders of a part that rest on the side opposite to a taker's, in some zones, and
/// cross its price: of icebergs those of each peak, hidden ones too.
pub(crate) fn crossing_lots_inside(
    book: &ContractBook,
    part: u32,
    taker: &Order,
    zones: &Zones,
) -> u64
    requires { part < books.parts_of book.now }
    ensures lots { result ≡ crossing.crossing_in taker.now zones.now (books.line_of book.now part (opposite taker.now.side)) }
    ensures most { result ≤ 4096 * 4294967295 }
{
    // The count shows that no more than 4096 orders rest, each under a number of its own.
    let _ = book.len();
    let mut lots = 0;
    let mut next = book.first(part, taker.side.opposite());
    while let Some(order) = next {
        lots += u64::from(lots_inside(&order, taker, zones));
        next = book.after(order.number);
    }
    lots
}

// The lots of an order that cross a taker's price, if it rests in one of some zones.
fn lots_inside(order: &Resting, taker: &Order, zones: &Zones) -> u32
    requires { IsSound order.now }
    ensures { result ≡ crossing.lots_inside taker.now zones.now order.now }
{
    lots_if(
        is_inside(zones.as_slice(), order.zone),
        crossing_lots(order, taker),
    )
}

// Whether a zone is one of some zones.
fn is_inside(zones: &[u32], zone: u32) -> bool
    ensures { result ≡ routes.has zone zones.now }
{
    zones.contains(&zone)
}

// The lots, where a test holds.
fn lots_if(test: bool, lots: u32) -> u32
    ensures { result ≡ pours.lots_if test lots }
{
    if test { lots } else { 0 }
}

// The lots of an order that cross a taker's price.
fn crossing_lots(order: &Resting, taker: &Order) -> u32
    requires { IsSound order.now }
    ensures { result ≡ crossing.crossing_of taker.now order.now }
{
    match order.ice {
        Some(ice) => crossing_peaks(order, ice, taker),
        None => lots_if(taker.side.crosses(taker.price, order.price), order.left),
    }
}

// The lots of an iceberg that cross a taker's price: those of each peak that crosses, from the one that
// shows to the last.
fn crossing_peaks(order: &Resting, ice: Ice, taker: &Order) -> u32
    requires sound { IsIceberg order.now ice }
    requires some { 0 < order.now.left }
    ensures { result ≡ crossing.crossing_peaks taker.now order.now ice (peak_count (ice.filled + order.now.left) ice.peak) }
{
    let end = ice.filled + order.left;
    let mut lots = 0;
    for number in number_now(ice.peak, ice.filled)..number_now(ice.peak, end - 1) + 1 {
        let price = price_of_peak(order.side, ice.price, ice.delta, number);
        lots += lots_if(
            taker.side.crosses(taker.price, price),
            peak_left(end, ice.peak, ice.filled, number),
        );
    }
    lots
}

// The lots that are left of the peak of this number, counted from 0, of an iceberg whose last lot is
// the one before `end`, behind which the peak does not start.
fn peak_left(end: u32, peak: u32, filled: u32, number: u32) -> u32
    requires { peak * number ≤ end }
    ensures { result ≡ peaks.peak_left end peak filled number }
{
    let start = peak * number;
    start
        .saturating_add(peak)
        .min(end)
        .saturating_sub(start.max(filled))
}
