//! The rules on offers and requests: the first quarter of a range in which more flows than is
//! offered, or in which there is less room than is asked for.

ghost use Rattle.std.specs.Prelude.{◌≡◌, ◌≤◌, ◌<◌, IfOk, IfSome};
ghost use Rattle.quarter_capacity.specs.Capacity.{most_offered};
ghost use Rattle.zone_graph.specs.Graph.{HasArc};
ghost use Rattle.market_model.specs.StateRules as state;
ghost use Rattle.market_model.specs.WellFormed.{IsLegalOver};
ghost use Rattle.plain_capacity.specs.Hour as hours;
ghost use Rattle.market_model.specs.Asked as ranges;
ghost use Rattle.plain_refusals.specs.Asked as range;

use event_history::History;
use market_model::{Asked, Command, NoMemory, Quarter, Refusal};
use plain_capacity::{HourCapacity, hour_capacity};
use std::alloc::Global;
use zone_graph::Grid;

// The rule on each quarter of a range.
#[derive(Clone, Copy, Debug)]
enum Rule {
    // An offer is not below what flows.
    Offer,
    // A request finds room.
    Request,
}

/// The refusal of an offer that is below what flows in one of its quarters, or of a request that does not
/// find room in one of its.
#[tactic(auto, unfolding(market_model::specs::StateRules::capacity_refusal))]
pub(crate) fn refuse_by_capacity(
    alloc: Global,
    grid: &Grid,
    events: &History,
    command: &Command,
) -> Result<Option<Refusal>, NoMemory>
    requires { IsLegalOver grid.now events.now }
    ensures { IfOk result (λ refusal. refusal ≡ state.capacity_refusal grid.now events.now command.now) }
{
    match command {
        Command::Offer {
            from,
            to,
            first,
            last,
            lots,
        } => match asked_between(grid, *from, *to, *first, *last, *lots) {
            Some(offer) => first_refusal(alloc, grid, events, Rule::Offer, &offer),
            None => Ok(None),
        },
        Command::Request {
            from,
            to,
            first,
            last,
            lots,
        } => match asked_between(grid, *from, *to, *first, *last, *lots) {
            Some(request) => first_refusal(alloc, grid, events, Rule::Request, &request),
            None => Ok(None),
        },
        _ => Ok(None),
    }
}

// What is asked over the arc from a zone to a zone, if a border joins them.
fn asked_between(
    grid: &Grid,
    from: u32,
    to: u32,
    first: Quarter,
    last: Quarter,
    lots: u32,
) -> Option<Asked>
    ensures asked { result ≡ range.asked_between grid.now from to first last lots }
    ensures there { IfSome result (λ made. HasArc grid.now made.arc) }
{
    let arc = grid.arc(from, to)?;
    Some(Asked {
        arc,
        first,
        last,
        lots,
    })
}

// The first quarter of a range that breaks a rule.
fn first_refusal(
    alloc: Global,
    grid: &Grid,
    events: &History,
    rule: Rule,
    asked: &Asked,
) -> Result<Option<Refusal>, NoMemory>
    requires legal { IsLegalOver grid.now events.now }
    requires there { HasArc grid.now asked.now.arc }
    ensures { IfOk result (λ refusal. refusal ≡ range.first_refusal rule events.now asked.now) }
{
    for hour in asked.first.hour..=asked.last.hour {
        let capacity = hour_capacity(alloc, grid, events, hour)?;
        if let Some(refusal) = refusal_in(&capacity, hour, rule, asked) {
            return Ok(Some(refusal));
        }
    }
    Ok(None)
}

// The first quarter of an hour that breaks a rule.
#[tactic(auto, using(crate::proofs::Quarters::answered, crate::proofs::Quarters::not_passed, crate::proofs::Quarters::no_answer, crate::proofs::Quarters::from_first))]
fn refusal_in(capacity: &HourCapacity, hour: u32, rule: Rule, asked: &Asked) -> Option<Refusal>
    requires border { asked.now.arc.border < hours.size_of capacity.now }
    requires most { range.FlowsAtMost most_offered capacity.now asked.now.arc }
    ensures { result ≡ ranges.first_in_hour (range.refusal_at rule capacity.now asked.now) asked.now hour }
{
    for number in 1..5 {
        let quarter = Quarter { hour, number };
        if is_asked(asked, quarter) {
            if let Some(refusal) = refusal_at(capacity, rule, asked, quarter) {
                return Some(refusal);
            }
        }
    }
    None
}

// The refusal of what is asked, if a quarter breaks a rule.
fn refusal_at(
    capacity: &HourCapacity,
    rule: Rule,
    asked: &Asked,
    quarter: Quarter,
) -> Option<Refusal>
    requires border { asked.now.arc.border < hours.size_of capacity.now }
    requires first { 1 ≤ quarter.number }
    requires last { quarter.number ≤ 4 }
    requires most { range.FlowsAtMost most_offered capacity.now asked.now.arc }
    ensures { result ≡ range.refusal_at rule capacity.now asked.now quarter }
{
    match rule {
        Rule::Offer => below_flow(capacity, asked, quarter),
        Rule::Request => no_room(capacity, asked, quarter),
    }
}

// The refusal of an offer in a quarter in which more flows.
fn below_flow(capacity: &HourCapacity, offer: &Asked, quarter: Quarter) -> Option<Refusal>
    requires border { offer.now.arc.border < hours.size_of capacity.now }
    requires first { 1 ≤ quarter.number }
    requires last { quarter.number ≤ 4 }
    requires most { range.FlowsAtMost most_offered capacity.now offer.now.arc }
    ensures { result ≡ range.refusal_at Rule.Offer capacity.now offer.now quarter }
{
    let flow = capacity.flow(offer.arc, quarter.number);
    if i64::from(offer.lots) < flow {
        Some(Refusal::BelowFlow {
            quarter,
            flow: flow as u32,
        })
    } else {
        None
    }
}

// The refusal of a request in a quarter in which there is less room.
fn no_room(capacity: &HourCapacity, request: &Asked, quarter: Quarter) -> Option<Refusal>
    requires border { request.now.arc.border < hours.size_of capacity.now }
    requires first { 1 ≤ quarter.number }
    requires last { quarter.number ≤ 4 }
    ensures { result ≡ range.refusal_at Rule.Request capacity.now request.now quarter }
{
    let room = capacity.room(request.arc, quarter.number);
    if request.lots <= room {
        None
    } else {
        Some(Refusal::NoRoom { quarter, room })
    }
}

// Whether a quarter is one of those from the first to the last.
fn is_asked(asked: &Asked, quarter: Quarter) -> bool
    ensures { result ≡ ranges.is_asked asked.now quarter }
{
    asked.first.is_not_after(quarter) && quarter.is_not_after(asked.last)
}
