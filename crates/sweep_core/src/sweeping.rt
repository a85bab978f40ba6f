//! The sweep of an hour.

ghost use Rattle.std.specs.Prelude.{◌≡◌, ℕ, ◌<◌, ◌≤◌, None, OnErr, OnOk, true, if◌then◌else◌};
ghost use Rattle.sweep_core.specs.Parts.{has_part};
ghost use Rattle.sweep_core.specs.Sweeping as sweeping;

use crate::part_set::PartSet;
use crate::parts::next_leg;
use market_model::Board;
use std::alloc::Global;
use zone_graph::{Grid, NoMemory};

/// Sweeps an hour: resting orders that can trade do, until none can. The parts are tried in order, the
/// hour first, then its halves, then its quarters; in the first that has one a leg is made, between
/// the first buy in priority that can trade and the first sell that it can trade with, at the price of
/// the one that was there earlier; then they are tried anew.
///
/// The board has all seven parts of the hour, and no order is in hand.
///
/// # Errors
///
/// [`NoMemory`] where memory runs out: then the first legs of the sweep were made, and no others.
pub fn sweep<B: Board>(alloc: Global, board: &mut B, grid: &Grid, hour: u32) -> Result<(), NoMemory>
    requires grid { grid.now ≡ (B.state board.old).grid }
    requires hour { hour ≡ (B.state board.old).hour }
    requires parts { 7 ≤ (B.state board.old).parts }
    requires no_hand { (B.state board.old).hand ≡ None }
    ensures made { OnOk result (B.state board.new ≡ sweeping.swept (B.state board.old)) }
    ensures some { OnErr result (sweeping.IsSweptInPart (B.state board.old) (B.state board.new)) }
    ensures done { OnOk result (sweeping.NothingTrades (B.state board.new)) }
    ensures kept { B.rest board.new ≡ B.rest board.old }
{
    sweep_opened(alloc, board, grid, hour, PartSet::all())
}

/// Sweeps an hour of which only some parts can have a leg, as `sweep` does: no other part is looked at
/// unless an arc gets its first room.
///
/// The board has all seven parts of the hour, and no order is in hand. The parts that are not in the
/// set have no leg.
///
/// # Errors
///
/// [`NoMemory`] where memory runs out: then the first legs of the sweep were made, and no others.
pub fn sweep_opened<B: Board>(
    alloc: Global,
    board: &mut B,
    grid: &Grid,
    hour: u32,
    opened: PartSet,
) -> Result<(), NoMemory>
    requires grid { grid.now ≡ (B.state board.old).grid }
    requires hour { hour ≡ (B.state board.old).hour }
    requires parts { 7 ≤ (B.state board.old).parts }
    requires no_hand { (B.state board.old).hand ≡ None }
    requires quiet { sweeping.OthersAreQuiet (B.state board.old) opened }
    ensures made { OnOk result (B.state board.new ≡ sweeping.swept (B.state board.old)) }
    ensures some { OnErr result (sweeping.IsSweptInPart (B.state board.old) (B.state board.new)) }
    ensures done { OnOk result (sweeping.NothingTrades (B.state board.new)) }
    ensures kept { B.rest board.new ≡ B.rest board.old }
{
    let mut rooms = None;
    let mut parts = opened;
    while let Some(next) = next_leg(alloc, board, grid, hour, &mut rooms, &mut parts)? {
        parts = opened_by(parts, next.opens);
        board.make(next.part, &next.leg)?;
    }
    Ok(())
}

// The parts that may have a leg after one: the same, unless the leg may give an arc its first room, and
// then all.
fn opened_by(parts: PartSet, opens: bool) -> PartSet
    ensures { (part : ℕ) → part < 7 → has_part result part ≡ (if opens then true else has_part parts part) }
{
    if opens { PartSet::all() } else { parts }
}
