//! The capacity of one border, step by step: in a quarter, and in the quarters of an hour as it is
//! offered, asked for, granted and carried.

ghost use Rattle.std.specs.Prelude.{◌≡◌, ◌<◌, ◌∷◌, [], true, length, pos, ◌≤ℤ◌};
ghost use Rattle.flow_netting.specs.Flows.{border_count, remaining_of};

use crate::made::{expect, made, put};
use capacity_requests::{test_offer, test_request};
use flow_netting::{HourFlows, QuarterSet};
use order_kinds::Phase;
use quarter_capacity::{BelowFlow, QuarterRow};
use std::alloc::Global;
use std::process::Abort;
use tests_of_shared_grids::two_zones;
use zone_graph::{Arc, Rooms, Route};

const HOUR: u8 = 15;

// What is offered on the forward arc of a row and on the opposite one, what flows over the forward
// arc, and what remains on each.
fn seen(row: &QuarterRow) -> (u32, u32, i64, u32, u32) {
    (
        row.offered(true),
        row.offered(false),
        row.flow(true),
        row.remaining(true),
        row.remaining(false),
    )
}

// An offer in a direction, what is answered, what is then taken there, and what is seen after it.
type Taking = (
    bool,
    u32,
    Result<(), BelowFlow>,
    u32,
    (u32, u32, i64, u32, u32),
);

const TAKINGS: [Taking; 11] = [
    (true, 100, Ok(()), 0, (100, 0, 0, 100, 0)),
    (false, 50, Ok(()), 0, (100, 50, 0, 100, 50)),
    (true, 100, Ok(()), 50, (100, 50, 50, 50, 100)),
    (
        true,
        40,
        Err(BelowFlow { flow: 50 }),
        0,
        (100, 50, 50, 50, 100),
    ),
    (true, 50, Ok(()), 0, (50, 50, 50, 0, 100)),
    (false, 0, Ok(()), 0, (50, 0, 50, 0, 50)),
    (false, 1000000, Ok(()), 100, (50, 1000000, -50, 100, 999950)),
    (
        false,
        49,
        Err(BelowFlow { flow: 50 }),
        0,
        (50, 1000000, -50, 100, 999950),
    ),
    (
        true,
        1000000,
        Ok(()),
        50,
        (1000000, 1000000, 0, 1000000, 1000000),
    ),
    (
        true,
        1000000,
        Ok(()),
        1000000,
        (1000000, 1000000, 1000000, 0, 2000000),
    ),
    (
        false,
        1000000,
        Ok(()),
        2000000,
        (1000000, 1000000, -1000000, 2000000, 0),
    ),
];

// Offers lots in a direction.
fn offer_lots(
    rt: &impl Abort,
    row: &mut QuarterRow,
    forward: bool,
    lots: u32,
) -> Result<(), BelowFlow> {
    assert!(rt; lots <= 1000000);
    row.offer(forward, lots)
}

// Takes lots that remain in a direction.
fn take_lots(rt: &impl Abort, row: &mut QuarterRow, forward: bool, lots: u32) {
    let remaining = row.remaining(forward);
    assert!(rt; lots <= remaining, "{lots} of {remaining}, {forward}");
    row.take(forward, lots);
}

fn offer_and_take(rt: &impl Abort, row: &mut QuarterRow, taking: &Taking) {
    let (forward, lots, answer, taken, after) = *taking;
    expect(rt, taking, offer_lots(rt, row, forward, lots), answer);
    take_lots(rt, row, forward, taken);
    expect(rt, taking, seen(row), after);
}

#[test]
fn offers_and_takings_of_a_quarter(rt: HostRuntime) {
    let mut row = QuarterRow::new();
    assert_eq!(rt; seen(&row), (0, 0, 0, 0, 0));
    for taking in TAKINGS.as_slice() {
        offer_and_take(&rt, &mut row, taking);
    }
}

// What happens in an hour over the border of two zones, forward or not, and what is looked at.
#[derive(Clone, Copy, Debug)]
enum Step {
    // So many lots are offered in a quarter; the flow that is above them, if one is.
    Offer(bool, u32, u32, Option<u32>),
    // So many lots are granted in a quarter.
    Grant(bool, u32, u32),
    // So many lots are carried in each quarter of the hour; whether they remained there.
    Carry(bool, u32, bool),
    // The border is halted, or resumed.
    Halt(bool),
    // The hour has another phase.
    Gate(Phase),
    // The room of a set of quarters.
    Room(bool, u8, u32),
    // What flows and what remains in a quarter.
    Flow(bool, u32, i64, u32),
    // The first quarter of a set that refuses an offer of so many lots, with its flow.
    Refused(bool, u8, u32, Option<(u32, u32)>),
    // The first quarter of a set that refuses a request of so many lots, with its room.
    Wanting(bool, u8, u32, Option<(u32, u32)>),
}

fn over(forward: bool) -> Arc
    ensures { result ≡ record { border = 0; forward = forward } }
{
    Arc::over(0, forward)
}

// Asserts whether so many lots remain on an arc in each quarter of the hour.
fn expect_remaining(rt: &impl Abort, flows: &HourFlows, arc: Arc, lots: u32, wanted: bool)
    requires { arc.border < border_count flows.now }
    ensures first { wanted ≡ true → pos lots ≤ℤ remaining_of flows.now arc 1 }
    ensures second { wanted ≡ true → pos lots ≤ℤ remaining_of flows.now arc 2 }
    ensures third { wanted ≡ true → pos lots ≤ℤ remaining_of flows.now arc 3 }
    ensures fourth { wanted ≡ true → pos lots ≤ℤ remaining_of flows.now arc 4 }
{
    let first = flows.remaining(arc, 1);
    let second = flows.remaining(arc, 2);
    let third = flows.remaining(arc, 3);
    let fourth = flows.remaining(arc, 4);
    let remain = lots <= first && lots <= second && lots <= third && lots <= fourth;
    assert!(rt;
        remain == wanted,
        "{lots} of {first} {second} {third} {fourth}"
    );
}

// The route of one arc.
fn route_over(rt: &impl Abort, alloc: Global, arc: Arc) -> Route
    ensures { result ≡ arc ∷ [] }
{
    let mut route = Route::new(alloc);
    put(rt, &mut route, arc);
    route
}

// Carries lots that remain over one arc in each quarter of the hour.
#[tactic(auto, using(flow_netting::proofs::OneArc::one_arc_left))]
fn carry_over(rt: &impl Abort, alloc: Global, flows: &mut HourFlows, arc: Arc, lots: u32)
    requires border { arc.border < border_count flows.old }
    requires first { pos lots ≤ℤ remaining_of flows.old arc 1 }
    requires second { pos lots ≤ℤ remaining_of flows.old arc 2 }
    requires third { pos lots ≤ℤ remaining_of flows.old arc 3 }
    requires fourth { pos lots ≤ℤ remaining_of flows.old arc 4 }
    ensures { border_count flows.new ≡ border_count flows.old }
{
    let route = route_over(rt, alloc, arc);
    flows.carry(&route, QuarterSet(HOUR), lots);
}

// Lots are offered over the border in a quarter.
fn offer(rt: &impl Abort, flows: &mut HourFlows, arc: Arc, number: u32, lots: u32) -> Option<u32>
    requires { arc.border < border_count flows.old }
    ensures { border_count flows.new ≡ border_count flows.old }
{
    assert!(rt; 1 <= number && number <= 4 && lots <= 1000000);
    match flows.offer(arc, number, lots) {
        Ok(()) => None,
        Err(below) => Some(below.flow),
    }
}

// Lots that remain are granted over the border in a quarter.
fn grant(rt: &impl Abort, flows: &mut HourFlows, arc: Arc, number: u32, lots: u32)
    requires { arc.border < border_count flows.old }
    ensures { border_count flows.new ≡ border_count flows.old }
{
    assert!(rt; 1 <= number && number <= 4);
    let remaining = flows.remaining(arc, number);
    assert!(rt; lots <= remaining, "{lots} of {remaining} in {number}");
    flows.grant(arc, number, lots);
}

// Makes the changes of a step.
fn change<R: Abort + AllocGlobal>(rt: &R, flows: &mut HourFlows, step: Step)
    requires { border_count flows.old ≡ 1 }
    ensures { border_count flows.new ≡ 1 }
{
    match step {
        Step::Offer(forward, number, lots, below) => {
            let answer = offer(rt, flows, over(forward), number, lots);
            expect(rt, &step, answer, below);
        }
        Step::Grant(forward, number, lots) => grant(rt, flows, over(forward), number, lots),
        Step::Carry(forward, lots, carried) => {
            expect_remaining(rt, flows, over(forward), lots, carried);
            if carried {
                carry_over(rt, rt.alloc(), flows, over(forward), lots);
            }
        }
        Step::Halt(true) => flows.halt(0),
        Step::Halt(false) => flows.resume(0),
        Step::Gate(phase) => flows.set_phase(phase),
        _ => {}
    }
}

// What flows over an arc in a quarter, and what remains.
fn flow_of(rt: &impl Abort, flows: &HourFlows, arc: Arc, number: u32) -> (i64, u32)
    requires { arc.border < border_count flows.now }
{
    assert!(rt; 1 <= number && number <= 4);
    (flows.flow(arc, number), flows.remaining(arc, number))
}

// The room of a set of quarters on an arc.
fn room_of(rt: &impl Abort, flows: &HourFlows, rooms: &mut Rooms, arc: Arc, set: u8) -> u32
    requires arc { arc.border ≡ 0 }
    requires flows { border_count flows.now ≡ 1 }
    requires rooms { length rooms.old ≡ 1 }
    ensures { length rooms.new ≡ 1 }
{
    assert!(rt; set < 16);
    flows.rooms(QuarterSet(set), rooms);
    rooms.at(arc)
}

// A set of quarters that are not none.
fn some_quarters(rt: &impl Abort, set: u8) -> QuarterSet {
    assert!(rt; 0 < set && set < 16);
    QuarterSet(set)
}

// Looks at what a step looks at.
fn look<R: Abort>(rt: &R, flows: &HourFlows, rooms: &mut Rooms, step: Step)
    requires flows { border_count flows.now ≡ 1 }
    requires rooms { length rooms.old ≡ 1 }
    ensures { length rooms.new ≡ 1 }
{
    match step {
        Step::Room(forward, set, room) => {
            let found = room_of(rt, flows, rooms, over(forward), set);
            expect(rt, &step, found, room);
        }
        Step::Flow(forward, number, flow, remaining) => {
            let found = flow_of(rt, flows, over(forward), number);
            expect(rt, &step, found, (flow, remaining));
        }
        Step::Refused(forward, set, lots, refused) => {
            let found = test_offer(flows, over(forward), some_quarters(rt, set), lots);
            expect(rt, &step, found, refused);
        }
        Step::Wanting(forward, set, lots, refused) => {
            let found = test_request(flows, over(forward), some_quarters(rt, set), lots);
            expect(rt, &step, found, refused);
        }
        _ => {}
    }
}

// Takes the steps one after the other.
fn take_all<R: Abort + AllocGlobal>(
    rt: &R,
    flows: &mut HourFlows,
    rooms: &mut Rooms,
    steps: &[Step],
)
    requires flows { border_count flows.old ≡ 1 }
    requires rooms { length rooms.old ≡ 1 }
    ensures { border_count flows.new ≡ 1 }
{
    for step in steps {
        change(rt, flows, *step);
        look(rt, flows, rooms, *step);
    }
}

// Takes the steps in a new hour.
fn play<R: Abort + AllocGlobal>(rt: &R, steps: &[Step]) -> HourFlows
    ensures { border_count result ≡ 1 }
{
    let grid = made(rt, two_zones(rt.alloc()));
    let mut flows = HourFlows::new(rt.alloc(), &grid).expect(rt, "memory");
    let mut rooms = Rooms::new(&grid).expect(rt, "memory");
    take_all(rt, &mut flows, &mut rooms, steps);
    flows
}

const THE_SCARCEST_QUARTER: [Step; 9] = [
    Step::Offer(true, 1, 80, None),
    Step::Offer(true, 2, 80, None),
    Step::Offer(true, 3, 30, None),
    Step::Offer(true, 4, 80, None),
    Step::Room(true, HOUR, 30),
    Step::Room(false, HOUR, 0),
    Step::Room(true, 1, 80),
    Step::Room(true, 12, 30),
    Step::Room(true, 0, 0),
];

const A_GRANT_OPENS_THE_OTHER_WAY: [Step; 8] = [
    Step::Offer(true, 2, 50, None),
    Step::Grant(true, 2, 50),
    Step::Flow(true, 2, 50, 0),
    Step::Flow(false, 2, -50, 50),
    Step::Flow(false, 1, 0, 0),
    Step::Offer(true, 2, 40, Some(50)),
    Step::Flow(true, 2, 50, 0),
    Step::Room(false, 2, 50),
];

const WHAT_FLOWS_ONE_WAY_REMAINS_THE_OTHER_WAY: [Step; 11] = [
    Step::Offer(true, 1, 50, None),
    Step::Offer(true, 2, 50, None),
    Step::Offer(true, 3, 50, None),
    Step::Offer(true, 4, 50, None),
    Step::Carry(false, 1, false),
    Step::Carry(true, 50, true),
    Step::Flow(true, 3, 50, 0),
    Step::Flow(false, 3, -50, 50),
    Step::Carry(false, 50, true),
    Step::Flow(true, 3, 0, 50),
    Step::Flow(true, 4, 0, 50),
];

const AN_OFFER_BELOW_THE_FLOW: [Step; 10] = [
    Step::Offer(true, 2, 100, None),
    Step::Offer(true, 3, 100, None),
    Step::Grant(true, 2, 50),
    Step::Grant(true, 3, 60),
    Step::Refused(true, HOUR, 60, None),
    Step::Refused(true, HOUR, 59, Some((3, 60))),
    Step::Refused(true, HOUR, 40, Some((2, 50))),
    Step::Refused(true, 4, 40, Some((3, 60))),
    Step::Refused(true, 9, 0, None),
    Step::Refused(false, HOUR, 0, None),
];

const A_REQUEST_WITHOUT_ROOM: [Step; 15] = [
    Step::Offer(true, 1, 80, None),
    Step::Offer(true, 2, 30, None),
    Step::Wanting(true, 3, 30, None),
    Step::Wanting(true, 3, 31, Some((2, 30))),
    Step::Wanting(true, HOUR, 31, Some((2, 30))),
    Step::Wanting(true, HOUR, 30, Some((3, 0))),
    Step::Wanting(false, HOUR, 1, Some((1, 0))),
    Step::Grant(true, 2, 30),
    Step::Wanting(false, 2, 30, None),
    Step::Halt(true),
    Step::Wanting(true, 1, 1, Some((1, 0))),
    Step::Halt(false),
    Step::Gate(Phase::Local),
    Step::Wanting(true, 1, 1, Some((1, 0))),
    Step::Refused(true, 2, 20, Some((2, 30))),
];

const HALTED_AND_LOCAL: [Step; 9] = [
    Step::Offer(true, 4, 70, None),
    Step::Halt(true),
    Step::Room(true, 8, 0),
    Step::Halt(false),
    Step::Room(true, 8, 70),
    Step::Gate(Phase::Local),
    Step::Room(true, 8, 0),
    Step::Flow(true, 4, 0, 70),
    Step::Halt(true),
];

#[test]
fn an_hour_over_one_border_step_by_step(rt: HostRuntime) {
    let _ = play(&rt, THE_SCARCEST_QUARTER.as_slice());
    let _ = play(&rt, A_GRANT_OPENS_THE_OTHER_WAY.as_slice());
    let _ = play(&rt, WHAT_FLOWS_ONE_WAY_REMAINS_THE_OTHER_WAY.as_slice());
    let _ = play(&rt, AN_OFFER_BELOW_THE_FLOW.as_slice());
    let _ = play(&rt, A_REQUEST_WITHOUT_ROOM.as_slice());
}

#[test]
fn halted_borders_and_local_hours_have_no_room_and_are_copied(rt: HostRuntime) {
    let flows = play(&rt, HALTED_AND_LOCAL.as_slice());
    let copy = flows.copy().expect(&rt, "memory");
    assert!(rt; copy.halted(0));
    assert_eq!(rt; copy.phase(), Phase::Local);
    assert_eq!(rt; copy.remaining(over(true), 4), 70);
}
