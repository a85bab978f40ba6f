//! An hour as those that match its orders see it.

ghost use Rattle.std.specs.Prelude.{◌≡◌, ℕ, ◌<◌, ◌≤◌, OnErr, OnOk, length};
ghost use Rattle.order_kinds.specs.declared.side.Side.{Side};
ghost use Rattle.order_kinds.specs.Contract.{contract_at};
ghost use Rattle.order_kinds.specs.Period.{contract_quarters};
ghost use Rattle.quarter_capacity.specs.Capacity.{most_remaining};
ghost use Rattle.zone_graph.specs.declared.route.Arc.{Arc};
ghost use Rattle.zone_graph.specs.Graph.{border_count};
ghost use Rattle.zone_graph.specs.Rooms.{room_of};
ghost use Rattle.market_model.specs.Board.{BoardState, CanBeMade, IsBoard, Rests, RestsIn, after_leg, first_shown, resting_line, shown_behind};
ghost use Rattle.market_model.specs.Room.{room};

use crate::event::Leg;
use order_kinds::{Price, Side};
use zone_graph::{NoMemory, Rooms};

/// A resting order, as a board shows it.
#[derive(Clone, Copy, Debug, PartialEq, Eq)]
pub struct Shown {
    /// Its number in the hour.
    pub number: u32,
    /// Its zone.
    pub zone: u32,
    /// Its side.
    pub side: Side,
    /// Its price now, in cents per MWh: an iceberg's is that of its showing peak.
    pub price: Price,
    /// What it shows, in lots (tenths of a MW).
    pub lots: u32,
    /// Its place in time: where among the hour's events it entered, or where a leg last emptied one
    /// of its peaks.
    pub moment: u64,
}

/// An hour as those that match its orders see it: its resting orders, the rooms of its parts, and
/// the legs that are made in it.
///
/// A board stands for the events of the hour, and for an order in hand or none: one that has entered
/// and does not rest yet. Parts have numbers: 0 is the hour, 1 to 4 are its quarters, 5 and 6 its
/// halves. Lots are tenths of a MW.
pub trait Board {
    /// All else that contracts see of a board.
    type Rest;

    /// What the board stands for.
    ghost state: { Self → BoardState };

    /// All else.
    ghost rest: { Self → Self.Rest };

    /// The first order of a part and side in priority: `None` exactly where none rests there.
    fn first(&self, part: u32, side: Side) -> Option<Shown>
        requires part { part < (state self.now).parts }
        ensures first { result ≡ first_shown (resting_line (state self.now) part side) }
        ensures board { IsBoard (state self.now) };

    /// The order behind an order that rests, in its line: `None` exactly at the end.
    fn after(&self, number: u32) -> Option<Shown>
        requires rests { Rests (state self.now) number }
        ensures next { (part : ℕ) (side : Side) → RestsIn (state self.now) part side number
            → result ≡ shown_behind number (resting_line (state self.now) part side) }
        ensures board { IsBoard (state self.now) };

    /// Writes the room of each arc over the quarters of a part.
    fn rooms(&self, part: u32, into: &mut Rooms)
        requires part { part < (state self.now).parts }
        requires size { length into.old ≡ border_count (state self.now).grid }
        ensures size { length into.new ≡ length into.old }
        ensures rooms { (arc : Arc) → arc.border < border_count (state self.now).grid
            → room_of into.new arc ≡ room (state self.now).events (contract_quarters (contract_at (state self.now).hour part)) arc }
        ensures most { (arc : Arc) → arc.border < border_count (state self.now).grid → room_of into.new arc ≤ most_remaining }
        ensures board { IsBoard (state self.now) };

    /// Makes a leg in a part: it fills each of its two orders that rests, and carries its route.
    ///
    /// The leg is one that can be made: of two opposite orders of the part, each of which rests or is
    /// in hand, for at least a lot and no more than each shows, at the maker's price, and over a
    /// route from the seller's zone to the buyer's that has room for these lots.
    ///
    /// # Errors
    ///
    /// [`NoMemory`] where memory runs out, and then the board is as before.
    fn make(&mut self, part: u32, leg: &Leg) -> Result<(), NoMemory>
        requires part { part < (state self.old).parts }
        requires fits { CanBeMade (state self.old) part leg.now }
        ensures made { OnOk result (state self.new ≡ after_leg (state self.old) part leg.now) }
        ensures kept { rest self.new ≡ rest self.old }
        ensures unchanged { OnErr result (self.new ≡ self.old) };
}
