//! Changes of the flows in the quarters of a set.

ghost use Rattle.std.specs.Prelude.{◌≡◌, ◌≤◌, ◌<◌, ◌==◌, ◌&&◌, pos, ◌≤ℤ◌, true};
ghost use Rattle.zone_graph.specs.Pour.{same_arc};
ghost use Rattle.quarter_capacity.specs.Capacity.{most_offered};
ghost use Rattle.flow_netting.specs.Flows as flow;
ghost use Rattle.flow_netting.specs.QuarterSet.{has};
ghost use Rattle.laws_of_hours.specs.Standing.{IsCarried, IsHaltSet, IsOffered};
ghost use Rattle.hour_store.specs.TakenBack.{CanFlow, CanOfferIn};

use flow_netting::{HourFlows, QuarterSet};
use zone_graph::Arc;

/// Has so many lots flow over an arc in each quarter of a set.
pub fn grant_in(flows: &mut HourFlows, arc: Arc, set: QuarterSet, lots: u32)
    requires { CanFlow flows.old arc set lots }
    ensures { IsCarried (same_arc arc) (has set) lots flows.old flows.new }
{
    for number in 1..5 {
        grant_if(flows, set.contains(number), arc, number, lots);
    }
}

// Has so many lots flow over an arc in a quarter, if it counts.
fn grant_if(flows: &mut HourFlows, counts: bool, arc: Arc, number: u32, lots: u32)
    requires border { arc.border < flow.border_count flows.old }
    requires first { 1 ≤ number }
    requires last { number ≤ 4 }
    requires room { counts ≡ true → pos lots ≤ℤ flow.remaining_of flows.old arc number }
    ensures { IsCarried (same_arc arc) (λ quarter. (quarter == number) && counts) lots flows.old flows.new }
{
    if counts {
        flows.grant(arc, number, lots);
    }
}

/// The lots that are offered on an arc in a quarter.
pub fn offered(flows: &HourFlows, arc: Arc, number: u32) -> u32
    requires border { arc.border < flow.border_count flows.now }
    requires first { 1 ≤ number }
    requires last { number ≤ 4 }
    requires most { flow.offered_of flows.now arc number ≤ most_offered }
    ensures { result ≡ flow.offered_of flows.now arc number }
{
    (i64::from(flows.remaining(arc, number)) + flows.flow(arc, number)) as u32
}

/// Offers so many lots on an arc in a quarter.
pub fn offer_one(flows: &mut HourFlows, arc: Arc, number: u32, lots: u32)
    requires { CanOfferIn flows.old arc number lots }
    ensures { IsOffered arc (λ quarter. quarter == number) lots flows.old flows.new }
{
    let Ok(()) = flows.offer(arc, number, lots) else {
        unreachable!();
    };
}

/// Halts trade over a border, or lets it go on.
pub fn set_halt(flows: &mut HourFlows, border: u32, halted: bool)
    requires { border < flow.border_count flows.old }
    ensures { IsHaltSet border halted flows.old flows.new }
{
    if halted {
        flows.halt(border);
    } else {
        flows.resume(border);
    }
}
