//! The last clock line of each caller, and the gates for which a clock line stands.

ghost use Rattle.std.specs.Prelude.{◌≡◌, ◌<◌, ◌≤◌, ◌∷◌, ◌++◌, [], None, Some, length, slice_set, get_or, OnOk, IfOk, option_map};
ghost use Rattle.std.specs.Option.{option_to_list};
ghost use Rattle.order_kinds.specs.Phase.{is_later};
ghost use Rattle.command_lines.specs.Clocks as clocks;

use contract_calendar::Day;
use jiff::Timestamp;
use market_model::{Command, Commands, NoMemory, Phase};
use std::alloc::Global;
use std::marker::Model;

/// The instant of each caller's last clock line, if it had one. Contracts see the nanoseconds from
/// 1970-01-01T00:00:00Z.
#[derive(Drop)]
pub struct ClockTable {
    instants: Vec<Option<Timestamp>>,
}

impl Model for ClockTable {
    ghost use Rattle.std.specs.Prelude.{List, Option, ℤ, map, option_map};

    ghost Value = { List (Option ℤ) };

    ghost view = { λ table. map (option_map (λ instant. instant.nanosecond)) table.instants.items };
}

impl ClockTable {
    /// No caller.
    pub fn new(alloc: Global) -> ClockTable
        ensures { result ≡ [] }
    {
        ClockTable {
            instants: Vec::new(alloc),
        }
    }

    /// Puts a caller at the end that has had no clock line yet.
    pub fn add_caller(&mut self) -> Result<(), NoMemory>
        ensures { OnOk result (self.new ≡ self.old ++ None ∷ []) }
    {
        self.instants.push(None)?;
        Ok(())
    }

    /// The instant of a caller's last clock line.
    pub fn last(&self, caller: usize) -> Option<Timestamp>
        requires { caller < length self.now }
        ensures { option_map (λ instant. instant.nanosecond) result ≡ clocks.last_clock self.now caller }
    {
        self.instants[caller]
    }

    /// Sets the instant of a caller's last clock line.
    pub fn set(&mut self, caller: usize, instant: Timestamp)
        requires { caller < length self.old }
        ensures { self.new ≡ slice_set self.old caller (Some instant.nanosecond) }
    {
        self.instants[caller] = Some(instant);
    }
}

/// The gates for which a clock line stands: for each hour of the day, ascending, whose phase at
/// the line's instant is later than at the caller's last one, or than open where it had none.
pub fn list_gates(
    alloc: Global,
    day: &Day,
    last: &Option<Timestamp>,
    instant: Timestamp,
) -> Result<Commands, NoMemory>
    ensures { IfOk result (λ gates. gates ≡ clocks.gates_of day.now (option_map (λ instant. instant.nanosecond) last.now) instant.nanosecond) }
{
    let mut gates = Commands::new(alloc);
    for hour in 1..day.hours() + 1 {
        add_gate(&mut gates, day, hour, last, instant)?;
    }
    Ok(gates)
}

// Puts the gate of one hour at the end, where its phase is later than it was.
fn add_gate(
    gates: &mut Commands,
    day: &Day,
    hour: u32,
    last: &Option<Timestamp>,
    instant: Timestamp,
) -> Result<(), NoMemory>
    requires first { 1 ≤ hour }
    requires most { hour ≤ day.now.hours }
    ensures { OnOk result (gates.new ≡ gates.old ++ clocks.gate_of day.now (option_map (λ instant. instant.nanosecond) last.now) instant.nanosecond hour) }
{
    match find_gate(day, hour, last, instant) {
        Some(gate) => gates.push(gate),
        None => Ok(()),
    }
}

// The gate of one hour, where its phase is later than it was.
fn find_gate(day: &Day, hour: u32, last: &Option<Timestamp>, instant: Timestamp) -> Option<Command>
    requires first { 1 ≤ hour }
    requires most { hour ≤ day.now.hours }
    ensures { option_to_list result ≡ clocks.gate_of day.now (option_map (λ instant. instant.nanosecond) last.now) instant.nanosecond hour }
{
    let phase = day.phase_at(hour, instant);
    if is_later(phase, phase_before(day, hour, last)) {
        Some(Command::Gate { hour, phase })
    } else {
        None
    }
}

// The phase of an hour at the last clock line, which is open where there was none.
fn phase_before(day: &Day, hour: u32, last: &Option<Timestamp>) -> Phase
    requires first { 1 ≤ hour }
    requires most { hour ≤ day.now.hours }
    ensures { result ≡ clocks.phase_before day.now hour (option_map (λ instant. instant.nanosecond) last.now) }
{
    match last {
        Some(instant) => day.phase_at(hour, *instant),
        None => Phase::Open,
    }
}

// Whether one phase comes after another: open comes first, and closed last.
fn is_later(one: Phase, other: Phase) -> bool
    ensures { result ≡ is_later one other }
{
    match one {
        Phase::Open => false,
        Phase::Local => matches!(other, Phase::Open),
        Phase::Closed => !matches!(other, Phase::Closed),
    }
}
