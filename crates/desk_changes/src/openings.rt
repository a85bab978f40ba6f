//! The parts of an hour over which an arc has room, and those over which it got its first.

ghost use Rattle.std.specs.Prelude.{◌≡◌, ℕ, ◌<◌, ◌≤◌, nat_lt};
ghost use Rattle.order_kinds.specs.Period.{quarter_of};
ghost use Rattle.zone_graph.specs.Graph.{HasArc, border_count};
ghost use Rattle.market_model.specs.Room.{is_open_phase, quarter_room};
ghost use Rattle.sweep_core.specs.Parts.{has_part};
ghost use Rattle.desk_changes.specs.Openings as openings;

use kept_hour::KeptHour;
use order_kinds::Phase;
use sweep_core::PartSet;
use zone_graph::Arc;

/// The parts of an hour over which each of the two arcs of a border has room.
#[derive(Clone, Copy)]
pub(crate) struct PartsWithRoom {
    pub forward: PartSet,
    pub backward: PartSet,
}

/// The parts of an hour over which the arcs of a border have room.
pub(crate) fn parts_with_room(hour: &KeptHour, border: u32) -> PartsWithRoom
    requires { border < border_count hour.now.board.grid }
    ensures { openings.AreWithRoom hour.now.board border result }
{
    PartsWithRoom {
        forward: parts_of_arc(hour, Arc::over(border, true)),
        backward: parts_of_arc(hour, Arc::over(border, false)),
    }
}

// The parts over which an arc has room.
fn parts_of_arc(hour: &KeptHour, arc: Arc) -> PartSet
    requires { HasArc hour.now.board.grid arc }
    ensures { openings.HaveRoom hour.now.board arc result }
{
    let one = has_room_in(hour, arc, 1);
    let two = has_room_in(hour, arc, 2);
    let three = has_room_in(hour, arc, 3);
    let four = has_room_in(hour, arc, 4);
    let first = one && two;
    let second = three && four;
    let all = first && second;
    PartSet {
        parts: [all, one, two, three, four, first, second],
    }
}

/// Whether an arc has room in a quarter of an hour, as its planned events leave it.
pub(crate) fn has_room_in(hour: &KeptHour, arc: Arc, number: u32) -> bool
    requires arc { HasArc hour.now.board.grid arc }
    requires first { 1 ≤ number }
    requires last { number ≤ 4 }
    ensures { result ≡ nat_lt 0 (quarter_room hour.now.board.events arc (quarter_of hour.now.board.hour number)) }
{
    let flows = hour.flows();
    let open = is_open(flows.phase());
    let halted = flows.halted(arc.border);
    let lots = flows.remaining(arc, number);
    open && !halted && lots > 0
}

// Whether orders match across zones in a phase.
fn is_open(phase: Phase) -> bool
    ensures { result ≡ is_open_phase phase }
{
    matches!(phase, Phase::Open)
}

/// The parts over which an arc of a border has room now, and had none before.
pub(crate) fn opened_since(was: &PartsWithRoom, now: &PartsWithRoom) -> PartSet
    ensures { (part : ℕ) → part < 7 → has_part result part ≡ openings.opens was.now now.now part }
{
    PartSet {
        parts: [
            opens(was, now, 0),
            opens(was, now, 1),
            opens(was, now, 2),
            opens(was, now, 3),
            opens(was, now, 4),
            opens(was, now, 5),
            opens(was, now, 6),
        ],
    }
}

// Whether an arc of a border has room over a part now, and had none before.
fn opens(was: &PartsWithRoom, now: &PartsWithRoom, part: u32) -> bool
    requires { part < 7 }
    ensures { result ≡ openings.opens was.now now.now part }
{
    gets_room(was.forward, now.forward, part) || gets_room(was.backward, now.backward, part)
}

// Whether a part is in a set now, and was not before.
fn gets_room(was: PartSet, now: PartSet, part: u32) -> bool
    requires { part < 7 }
    ensures { result ≡ openings.gets_room was now part }
{
    now.contains(part) && !was.contains(part)
}
