//! Whether a flow and cuts that certified rows over some rooms and borders stand over others.

ghost use Rattle.std.specs.Prelude.{◌≡◌, ◌⊎◌, ◌+◌, ◌<◌, ◌≤◌, IsTrue, OnOk, length};
ghost use Rattle.zone_graph.specs.Graph.{HasArc, border_count};
ghost use Rattle.zone_graph.specs.Rooms.{room_of};
ghost use Rattle.zone_graph.specs.declared.route.Arc.{Arc as AnArc};
ghost use Rattle.local_view.specs.Certified.{lots_from, lots_to};
ghost use Rattle.local_view.specs.Drafts.{IsFlow};
ghost use Rattle.local_view.specs.Moved.{AreBorders, AreSameBut, StandOver, StandsOver, cut_in, flow_in};

use crate::draft::Flow;
use market_model::{NoMemory, Side};
use zone_graph::{Arc, Grid, MOST_ZONES, Rooms};

/// Lists the borders whose rooms are others in new rooms, in place of those that were listed.
///
/// # Errors
///
/// [`NoMemory`], where there is no memory for a border.
pub(crate) fn find_changed(
    grid: &Grid,
    old: &Rooms,
    new: &Rooms,
    changed: &mut Vec<u32>,
) -> Result<(), NoMemory>
    requires old { length old.now ≡ border_count grid.now }
    requires new { length new.now ≡ border_count grid.now }
    ensures within { OnOk result (AreBorders grid.now changed.new.items) }
    ensures same { OnOk result (AreSameBut grid.now changed.new.items (room_of old.now) (room_of new.now)) }
{
    changed.clear();
    for border in 0..grid.borders() {
        if !are_same(old, new, border) {
            changed.push(border)?;
        }
    }
    Ok(())
}

/// Whether both arcs over a border have the same room in both.
pub(crate) fn are_same(old: &Rooms, new: &Rooms, border: u32) -> bool
    requires old { border < length old.now }
    requires new { border < length new.now }
    ensures { IsTrue result → (arc : AnArc) → arc.border ≡ border → room_of new.now arc ≡ room_of old.now arc }
{
    let forward = Arc::over(border, true);
    let backward = Arc::over(border, false);
    new.at(forward) == old.at(forward) && new.at(backward) == old.at(backward)
}

/// Whether a flow and cuts stand over new rooms of some borders: no arc carries more than these and
/// what flows back allow, and where they leave room to spare over an arc, the zone that lots come to
/// over it has its cut no later than the one that they come from.
pub(crate) fn stand_over(
    grid: &Grid,
    changed: &[u32],
    new: &Rooms,
    flow: &Flow,
    cuts: &[usize; MOST_ZONES],
    side: Side,
) -> bool
    requires changed { AreBorders grid.now changed.now }
    requires new { length new.now ≡ border_count grid.now }
    requires flow { IsFlow (border_count grid.now) flow.now }
    ensures { IsTrue result → StandOver grid.now changed.now (room_of new.now) side (flow_in flow.now) (cut_in cuts.now) }
{
    for place in 0..changed.len() {
        if !stands_over(grid, new, flow, cuts, side, changed[place]) {
            return false;
        }
    }
    true
}

// Whether the flow and cuts stand over the room of both arcs of a border.
fn stands_over(
    grid: &Grid,
    new: &Rooms,
    flow: &Flow,
    cuts: &[usize; MOST_ZONES],
    side: Side,
    border: u32,
) -> bool
    requires border { border < border_count grid.now }
    requires new { length new.now ≡ border_count grid.now }
    requires flow { IsFlow (border_count grid.now) flow.now }
    ensures { IsTrue result → (arc : AnArc) → arc.border ≡ border → StandsOver grid.now (room_of new.now) side (flow_in flow.now) (cut_in cuts.now) arc }
{
    let forward = Arc::over(border, true);
    let (of, left) = (flow.of.at(forward), flow.left.at(forward));
    let arc = if of < left {
        forward.opposite()
    } else {
        forward
    };
    let back = arc.opposite();
    let (lots, most) = (of.abs_diff(left), new.at(arc));
    let is_full = lots == most || (lots < most && comes_no_later(grid, cuts, side, arc));
    is_full && ((lots == 0 && new.at(back) == 0) || comes_no_later(grid, cuts, side, back))
}

/// Whether the zone that lots come to over an arc has its cut no later than the one that they come from.
#[inline(always)]
pub(crate) fn comes_no_later(grid: &Grid, cuts: &[usize; MOST_ZONES], side: Side, arc: Arc) -> bool
    requires { HasArc grid.now arc }
    ensures { IsTrue result → cut_in cuts.now (lots_to grid.now side arc) ≤ cut_in cuts.now (lots_from grid.now side arc) }
{
    let (start, end) = grid.ends(arc);
    let (start, end) = (cuts[start as usize], cuts[end as usize]);
    match side {
        Side::Buy => start <= end,
        Side::Sell => end <= start,
    }
}

/// Whether these are the two zones of each border of a grid.
pub(crate) fn are_borders(grid: &Grid, ends: &[(u32, u32)]) -> bool
    ensures { IsTrue result → ends.now ≡ grid.now.borders }
{
    let borders = grid.borders();
    if ends.len() != borders as usize {
        return false;
    }
    for border in 0..borders {
        if ends[border as usize] != grid.ends(Arc::over(border, true)) {
            return false;
        }
    }
    true
}

/// Notes the two zones of each border of a grid, in place of others.
///
/// # Errors
///
/// [`NoMemory`], where there is no memory for a border.
pub(crate) fn note_borders(grid: &Grid, ends: &mut Vec<(u32, u32)>) -> Result<(), NoMemory>
    ensures { OnOk result (ends.new.items ≡ grid.now.borders) }
{
    ends.clear();
    for border in 0..grid.borders() {
        ends.push(grid.ends(Arc::over(border, true)))?;
    }
    Ok(())
}
