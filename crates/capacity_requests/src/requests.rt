//! The first quarter that refuses an offer or a request.

ghost use Rattle.std.specs.Prelude.{◌≡◌, ◌<◌, ◌≤◌};
ghost use Rattle.flow_netting.specs.Flows.{border_count};
ghost use Rattle.capacity_requests.specs.Requests.{first_flow_above, first_room_below, flow_above, room_below, room_in};

use flow_netting::{HourFlows, QuarterSet};
use order_kinds::Phase;
use zone_graph::Arc;

/// The first quarter of a set in which more flows over an arc than is offered there, and what flows,
/// in lots: `None` exactly where the offer covers the flow in each of them.
#[tactic(auto, using(crate::proofs::Quarters::answered, crate::proofs::Quarters::not_in_set, crate::proofs::Quarters::no_answer))]
pub fn test_offer(flows: &HourFlows, arc: Arc, set: QuarterSet, lots: u32) -> Option<(u32, u32)>
    requires { arc.border < border_count flows.now }
    ensures { result ≡ first_flow_above flows.now arc set lots }
{
    for number in 1..5 {
        if set.contains(number) {
            if let Some(refused) = offer_in(flows, arc, number, lots) {
                return Some(refused);
            }
        }
    }
    None
}

/// The first quarter of a set in which an arc has less room than is requested, and its room, in
/// lots: `None` exactly where each of them has that room. There is no room on a halted border, nor
/// in an hour that is not open.
#[tactic(auto, using(crate::proofs::Quarters::answered, crate::proofs::Quarters::not_in_set, crate::proofs::Quarters::no_answer))]
pub fn test_request(flows: &HourFlows, arc: Arc, set: QuarterSet, lots: u32) -> Option<(u32, u32)>
    requires { arc.border < border_count flows.now }
    ensures { result ≡ first_room_below flows.now arc set lots }
{
    for number in 1..5 {
        if set.contains(number) {
            if let Some(refused) = request_in(flows, arc, number, lots) {
                return Some(refused);
            }
        }
    }
    None
}

// A quarter, and what flows over an arc in it, where that is more than is offered.
fn offer_in(flows: &HourFlows, arc: Arc, number: u32, lots: u32) -> Option<(u32, u32)>
    requires border { arc.border < border_count flows.now }
    requires first { 1 ≤ number }
    requires last { number ≤ 4 }
    ensures { result ≡ flow_above flows.now arc lots number }
{
    let flow = flows.flow(arc, number);
    if i64::from(lots) < flow {
        Some((number, flow as u32))
    } else {
        None
    }
}

// A quarter, and the room of an arc in it, where that is less than is requested.
fn request_in(flows: &HourFlows, arc: Arc, number: u32, lots: u32) -> Option<(u32, u32)>
    requires border { arc.border < border_count flows.now }
    requires first { 1 ≤ number }
    requires last { number ≤ 4 }
    ensures { result ≡ room_below flows.now arc lots number }
{
    let room = room_in_quarter(flows, arc, number);
    if room < lots {
        Some((number, room))
    } else {
        None
    }
}

// The room of an arc in one quarter.
fn room_in_quarter(flows: &HourFlows, arc: Arc, number: u32) -> u32
    requires border { arc.border < border_count flows.now }
    requires first { 1 ≤ number }
    requires last { number ≤ 4 }
    ensures { result ≡ room_in flows.now arc number }
{
    if flows.phase() == Phase::Open && !flows.halted(arc.border) {
        flows.remaining(arc, number)
    } else {
        0
    }
}
