//! The commands of a generated session, and the lines that give them.

ghost use Rattle.std.specs.Prelude.{◌≡◌, Some};
ghost use Rattle.std.specs.Fmt.{DisplaysOnOk};
ghost use Rattle.order_kinds.specs.Price.{cents_text};
ghost use Rattle.load_maker.specs.Lines as lines;

use market_model::{BlockOrder, Kind, Lots, Order, Quarter};
use std::fmt;

/// A command with its caller.
///
/// It prints as the line of a session that gives it, without the line feed.
#[derive(Clone, Copy)]
pub(crate) enum Given {
    /// The operator offers capacity.
    Offer {
        /// The number of the zone that it leads from.
        from: u32,
        /// The number of the zone that it leads to.
        to: u32,
        /// The first quarter for which it is offered.
        first: Quarter,
        /// The last one.
        last: Quarter,
        /// How much is offered in each quarter.
        lots: Lots,
    },

    /// A trader enters an order.
    Order {
        /// The number of the trader.
        trader: u32,
        /// What is entered.
        order: Order,
    },

    /// A trader enters a block.
    Block {
        /// The number of the trader.
        trader: u32,
        /// What is entered.
        order: BlockOrder,
    },
}

impl fmt::Display for Given {
    ghost output = { λ given. Some (lines.line_of given) };

    fn fmt<W: fmt::Write>(&self, f: &mut fmt::Formatter<W>) -> fmt::Result {
        match self {
            Given::Offer {
                from,
                to,
                first,
                last,
                lots,
            } => {
                let from = ZoneName(*from);
                let to = ZoneName(*to);
                write!(f, "tso offer {from}>{to} {first} {last} {lots}")
            }
            Given::Order { trader, order } => write_order(*trader, order, f),
            Given::Block { trader, order } => write_block(*trader, order, f),
        }
    }
}

// Writes the line of an order.
fn write_order<W: fmt::Write>(trader: u32, order: &Order, f: &mut fmt::Formatter<W>) -> fmt::Result
    ensures { DisplaysOnOk W.write_str_gives f.old result (Some (lines.order_line trader order.now)) f.new }
{
    let side = order.side;
    let contract = order.contract;
    let zone = ZoneName(order.zone);
    let quantity = order.quantity;
    let price = order.price;
    write!(f, "t{trader} {side} {contract} {zone} {quantity} {price}")?;
    match order.kind {
        Kind::Limit => Ok(()),
        Kind::Ioc => f.write_str(" ioc"),
        Kind::Fok => f.write_str(" fok"),
        Kind::Iceberg { peak, delta } => {
            let delta = Cents(delta);
            write!(f, " iceberg {peak} {delta}")
        }
    }
}

// Writes the line of a block.
fn write_block<W: fmt::Write>(
    trader: u32,
    order: &BlockOrder,
    f: &mut fmt::Formatter<W>,
) -> fmt::Result
    ensures { DisplaysOnOk W.write_str_gives f.old result (Some (lines.block_line trader order.now)) f.new }
{
    let side = order.side;
    let first = order.first;
    let last = order.last;
    let zone = ZoneName(order.zone);
    let quantity = order.quantity;
    let price = order.price;
    write!(
        f,
        "t{trader} {side}block h{first} h{last} {zone} {quantity} {price}"
    )
}

// The name of the zone of a number: it prints as `Z` and two digits, which count from `Z01`.
#[derive(Clone, Copy)]
struct ZoneName(u32);

impl fmt::Display for ZoneName {
    ghost output = { λ zone. Some (lines.zone_name zone.0) };

    #[tactic(auto, using(std::proofs::lemmas::Fmt::decimal_digit))]
    fn fmt<W: fmt::Write>(&self, f: &mut fmt::Formatter<W>) -> fmt::Result {
        let number = u64::from(self.0) + 1;
        write!(f, "Z{}{}", number / 10, number % 10)
    }
}

// An amount of cents: it prints with two digits after the point.
#[derive(Clone, Copy)]
struct Cents(u32);

impl fmt::Display for Cents {
    ghost output = { λ cents. Some (cents_text cents.0) };

    #[tactic(auto, using(std::proofs::lemmas::Fmt::decimal_digit))]
    fn fmt<W: fmt::Write>(&self, f: &mut fmt::Formatter<W>) -> fmt::Result {
        write!(f, "{}.{}{}", self.0 / 100, self.0 / 10 % 10, self.0 % 10)
    }
}
