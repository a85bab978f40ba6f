//! Where the orders of a line are replaced by others, and where that moves cuts to.

ghost use Rattle.std.specs.Prelude.{◌≡◌, ◌+◌, ◌<◌, ◌≤◌, ℕ, IfSome, IsTrue, length, take};
ghost use Rattle.zone_graph.specs.Route.{IsIn};
ghost use Rattle.local_view.specs.declared.whole.LineOrder.{LineOrder as ALineOrder};
ghost use Rattle.local_view.specs.Moved.{AreBehindCuts, IsMoved, IsReplaced, cut_in};

use crate::whole::LineOrder;
use zone_graph::MOST_ZONES;

/// The orders of a line that others replace: from the first place up to the last one of the old line, and up to the next one
/// of the new line.
#[derive(Clone, Copy)]
pub(crate) struct Replaced {
    /// Where both begin.
    pub(crate) first: usize,
    /// Where they end in the old line.
    pub(crate) last: usize,
    /// Where the others end in the new line.
    pub(crate) next: usize,
}

impl Replaced {
    /// Whether no order is replaced.
    pub(crate) fn is_nothing(self) -> bool
        ensures { IsTrue result → (self.last ≡ self.first) × (self.next ≡ self.first) }
    {
        self.first == self.last && self.first == self.next
    }
}

/// Which orders of a line are replaced in a new one: all between those with which both begin and those with which both end.
pub(crate) fn find_replaced(old: &[LineOrder], new: &[LineOrder]) -> Replaced
    ensures { IsReplaced old.now new.now result.first result.last result.next }
{
    let first = same_at_start(old, new);
    let mut last = old.len();
    let mut next = new.len();
    while last > first && next > first && is_same(&old[last - 1], &new[next - 1]) {
        last -= 1;
        next -= 1;
    }
    Replaced { first, last, next }
}

// With how many orders both lines begin.
fn same_at_start(old: &[LineOrder], new: &[LineOrder]) -> usize
    ensures old { result ≤ length old.now }
    ensures new { result ≤ length new.now }
    ensures same { take result old.now ≡ take result new.now }
{
    let most = old.len().min(new.len());
    for place in 0..most {
        if !is_same(&old[place], &new[place]) {
            return place;
        }
    }
    most
}

// Whether two orders are the same.
fn is_same(order: &LineOrder, other: &LineOrder) -> bool
    ensures { IsTrue result → order.now ≡ other.now }
{
    order.zone == other.zone && order.price == other.price && order.lots == other.lots
}

/// Whether the zones of the orders from a first place up to a last one have their cuts before the first.
pub(crate) fn are_behind(
    cuts: &[usize; MOST_ZONES],
    orders: &[LineOrder],
    first: usize,
    last: usize,
) -> bool
    requires zones { (order : ALineOrder) → IsIn order orders.now → order.zone < 64 }
    requires last { last ≤ length orders.now }
    ensures { IsTrue result → AreBehindCuts orders.now first last (cut_in cuts.now) }
{
    for place in first..last {
        if cuts[orders[place].zone as usize] >= first {
            return false;
        }
    }
    true
}

/// Moves the cuts of so many zones to where their places are in a new line. Where a number would be too great, answers that
/// they could not be moved, and leaves some where they were.
pub(crate) fn move_cuts(cuts: &mut [usize; MOST_ZONES], zones: u32, replaced: Replaced) -> bool
    requires zones { zones ≤ 64 }
    requires replaced { replaced.first ≤ replaced.last }
    ensures { IsTrue result → (zone : ℕ) → zone < zones → IsMoved replaced.first replaced.last replaced.next (cut_in cuts.old zone) (cut_in cuts.new zone) }
{
    if replaced.is_nothing() {
        return true;
    }
    for zone in 0..zones as usize {
        let Some(moved) = moved(cuts[zone], replaced) else {
            return false;
        };
        cuts[zone] = moved;
    }
    true
}

// Where a place of the old line is in the new one, as far as numbers go.
fn moved(place: usize, replaced: Replaced) -> Option<usize>
    requires { replaced.first ≤ replaced.last }
    ensures { IfSome result (IsMoved replaced.first replaced.last replaced.next place) }
{
    if place < replaced.first {
        Some(place)
    } else if place < replaced.last {
        Some(replaced.first)
    } else {
        (place - replaced.last).checked_add(replaced.next)
    }
}
