//! The parts of the hours of a row are planned.

ghost use Rattle.std.specs.Prelude.{◌≡◌, ◌<◌, ◌≤◌, ◌-◌, [], ◌∷◌, ◌++◌, ℕ, IfOk, List, OnErr, OnOk, Some, drop, flat_map, length, map, slice_get, slice_set, take};
ghost use Rattle.zone_graph.specs.Route.{IsIn};
ghost use Rattle.market_model.specs.declared.event.Event.{Event as AnEvent};
ghost use Rattle.laws_of_joint_commands.specs.MatchingBlocks.{legs_of};
ghost use Rattle.hour_desk.specs.Desk.{DeskState, with_nothing_planned};
ghost use Rattle.hour_desk.specs.Shared.{part_events, shared_events};
ghost use Rattle.joint_plan.specs.Rows.{dropped};
ghost use Rattle.joint_plan.specs.Works as works;

use crate::desks::Desks;
use block_match::BlockDeal;
use hour_desk::PartWork;
use market_model::{Event, Events};
use std::alloc::Global;
use zone_graph::{Grid, NoMemory};

/// Plans the same work in each hour, and answers its events: those of the first hour, and then the sweeps of the
/// others. What an hour shares is one event.
///
/// # Errors
///
/// [`NoMemory`] where memory runs out; some hours may have their part planned then.
pub(crate) fn plan_over<D: Desks>(
    alloc: Global,
    row: &mut D,
    grid: &Grid,
    work: &PartWork,
) -> Result<Events, NoMemory>
    requires some { 0 < length (D.desks row.old) }
    requires can { (desk : DeskState) → IsIn desk (D.desks row.old) → works.CanPlanPart grid.now work.now desk }
    requires one { (events : List AnEvent) → length (shared_events events work.now) ≡ 1 }
    ensures events { IfOk result (λ events. events ≡ works.events_over work.now (D.desks row.old)) }
    ensures planned { OnOk result (D.desks row.new ≡ map (works.with_part work.now) (D.desks row.old)) }
    ensures failed { OnErr result (dropped (D.desks row.new) ≡ dropped (D.desks row.old)) }
    ensures rest { D.rest row.new ≡ D.rest row.old }
{
    let first = plan_at(row, grid, 0, work)?;
    plan_others(alloc, row, grid, work, 1, first)
}

/// Plans the part of each hour but the first, and answers some events with the sweeps of these hours behind them.
/// What an hour shares is so many events.
///
/// # Errors
///
/// [`NoMemory`] where memory runs out; some hours may have their part planned then.
pub(crate) fn plan_others<D: Desks>(
    alloc: Global,
    row: &mut D,
    grid: &Grid,
    work: &PartWork,
    shared: usize,
    first: Events,
) -> Result<Events, NoMemory>
    requires can { (desk : DeskState) → IsIn desk (drop 1 (D.desks row.old)) → works.CanPlanPart grid.now work.now desk }
    requires shared { (events : List AnEvent) → length (shared_events events work.now) ≡ shared }
    ensures events { IfOk result (λ events. events ≡ first ++ flat_map (works.swept work.now) (drop 1 (D.desks row.old))) }
    ensures planned { OnOk result (D.desks row.new ≡ take 1 (D.desks row.old) ++ map (works.with_part work.now) (drop 1 (D.desks row.old))) }
    ensures failed { OnErr result (dropped (D.desks row.new) ≡ dropped (D.desks row.old)) }
    ensures rest { D.rest row.new ≡ D.rest row.old }
{
    let mut made = first;
    for i in 1..row.len() {
        let events = plan_at(row, grid, i, work)?;
        append_from(&mut made, events, shared)?;
    }
    Ok(made)
}

/// Plans the part of the hour at a place, and answers its events.
///
/// # Errors
///
/// [`NoMemory`] where memory runs out; nothing is planned there then.
pub(crate) fn plan_at<D: Desks>(
    row: &mut D,
    grid: &Grid,
    i: usize,
    work: &PartWork,
) -> Result<Events, NoMemory>
    requires within { i < length (D.desks row.old) }
    requires can { (desk : DeskState) → slice_get (D.desks row.old) i ≡ Some desk → works.CanPlanPart grid.now work.now desk }
    ensures events { (desk : DeskState) → slice_get (D.desks row.old) i ≡ Some desk → IfOk result (λ events. events ≡ part_events desk work.now) }
    ensures planned { (desk : DeskState) → slice_get (D.desks row.old) i ≡ Some desk → OnOk result (D.desks row.new ≡ slice_set (D.desks row.old) i (works.with_part work.now desk)) }
    ensures failed { (desk : DeskState) → slice_get (D.desks row.old) i ≡ Some desk → OnErr result (D.desks row.new ≡ slice_set (D.desks row.old) i (with_nothing_planned desk)) }
    ensures rest { D.rest row.new ≡ D.rest row.old }
{
    row.desk_mut(i).plan_part(grid, work)
}

/// How many legs some deals of a period have: no more than `most`.
pub(crate) fn legs_in(first: u32, last: u32, deals: &[BlockDeal], most: usize) -> usize
    requires { length (legs_of first last deals.now) ≤ most }
    ensures { result ≡ length (legs_of first last deals.now) }
{
    let mut legs = 0;
    for deal in deals {
        legs += deal.legs.len();
    }
    legs
}

// Puts the events from a place on behind others.
fn append_from(made: &mut Events, events: Events, place: usize) -> Result<(), NoMemory>
    ensures { OnOk result (made.new ≡ made.old ++ drop place events) }
{
    let mut before = place;
    for event in events.into_vec() {
        before = put_behind(made, event, before)?;
    }
    Ok(())
}

// Puts an event behind others, where none is to be left out before it, and answers how many are then to be left
// out.
fn put_behind(made: &mut Events, event: Event, before: usize) -> Result<usize, NoMemory>
    ensures left { IfOk result (λ left. left ≡ before - 1) }
    ensures left_out { 0 < before → OnOk result (made.new ≡ made.old) }
    ensures put { before ≡ 0 → OnOk result (made.new ≡ made.old ++ event ∷ []) }
{
    if before > 0 {
        return Ok(before - 1);
    }
    made.push(event)?;
    Ok(0)
}
