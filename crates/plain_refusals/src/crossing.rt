//! What crosses a taker's price.

ghost use Rattle.std.specs.Prelude.{◌≡◌, ◌+◌, ◌*◌, ◌^◌, ◌<◌, ◌≤◌, true, length};
ghost use Rattle.iceberg_peak.specs.Peak as peaks;
ghost use Rattle.order_kinds.specs.Order as orders;
ghost use Rattle.zone_graph.specs.Route as routes;
ghost use Rattle.zone_graph.specs.Pour as pours;
ghost use Rattle.market_model.specs.Certificate as certificates;
ghost use Rattle.plain_orders.specs.Histories.{HasSoundNumbers};
ghost use Rattle.plain_refusals.specs.Crossing as crossing;

use iceberg_peak::{number_now, price_of_peak};
use market_model::{Kind, Lots, Order, Zones};
use plain_orders::StandingOrder;

/// The lots of the orders of a line that stand in some zones and cross a taker's price: of icebergs
/// those of each peak, hidden ones too.
pub(crate) fn crossing_lots_inside(line: &[StandingOrder], taker: &Order, zones: &Zones) -> u64
    requires sound { crossing.AreSound line.now }
    requires few { length line.now < 2 ^ 32 }
    ensures lots { result ≡ crossing.crossing_in taker.now zones.now line.now }
    ensures most { result ≤ 999000 * length line.now }
{
    let mut lots = 0;
    for other in line {
        lots += u64::from(lots_inside(other, taker, zones));
    }
    lots
}

// The lots of an order that cross a taker's price, if it stands in one of some zones.
fn lots_inside(other: &StandingOrder, taker: &Order, zones: &Zones) -> u32
    requires { crossing.IsSound other.now }
    ensures lots { result ≡ crossing.lots_inside taker.now zones.now other.now }
    ensures most { result ≤ 999000 }
{
    lots_if(
        is_inside(zones.as_slice(), other.order().zone),
        crossing_lots(other, taker),
    )
}

// Whether a zone is one of some zones.
fn is_inside(zones: &[u32], zone: u32) -> bool
    ensures { result ≡ routes.has zone zones.now }
{
    zones.contains(&zone)
}

// The lots, where a test holds.
fn lots_if(test: bool, lots: u32) -> u32
    ensures { result ≡ pours.lots_if test lots }
{
    if test { lots } else { 0 }
}

// The lots of an order that cross a taker's price.
fn crossing_lots(other: &StandingOrder, taker: &Order) -> u32
    requires { crossing.IsSound other.now }
    ensures lots { result ≡ certificates.crossing_lots taker.now other.now }
    ensures most { result ≤ 999000 }
{
    let order = other.order();
    match order.kind {
        Kind::Iceberg { peak, delta } => {
            crossing_peaks(&order, peak, delta, other.filled(), other.left(), taker)
        }
        Kind::Limit | Kind::Ioc | Kind::Fok => lots_if(
            taker.side.crosses(taker.price, order.price),
            other.left(),
        ),
    }
}

// The lots of the peaks of an iceberg, of which so much is filled and left, that cross a taker's
// price.
fn crossing_peaks(
    order: &Order,
    peak: Lots,
    delta: u32,
    filled: u32,
    left: u32,
    taker: &Order,
) -> u32
    requires sound { HasSoundNumbers order.now }
    requires kind { order.now.kind ≡ Kind.Iceberg peak delta }
    requires within { filled + left ≤ order.now.quantity.0 }
    ensures lots { result ≡ crossing.crossing_peaks taker.now order.now peak.0 delta filled left (orders.peak_count (filled + left) peak.0) }
    ensures most { result ≤ 999000 }
{
    let end = filled + left;
    let mut lots = 0;
    for number in 0..number_now(peak.0, end.saturating_sub(1)) + 1 {
        let price = price_of_peak(order.side, order.price, delta, number);
        lots += lots_if(
            taker.side.crosses(taker.price, price),
            peak_left(end, peak.0, filled, number),
        );
    }
    lots
}

// The lots that are left of the peak of this number, counted from 0, of an iceberg whose last lot is
// the one before `end`.
fn peak_left(end: u32, peak: u32, filled: u32, number: u32) -> u32
    requires number { number < 100 }
    requires last { peak * (number + 1) ≤ 999000 }
    ensures lots { result ≡ peaks.peak_left end peak filled number }
    ensures most { result ≤ end }
{
    (peak * (number + 1))
        .min(end)
        .saturating_sub((peak * number).max(filled))
}
