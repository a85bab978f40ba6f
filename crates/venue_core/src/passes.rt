//! The passes of all callers, and their seats.

ghost use Rattle.std.specs.Prelude.{◌≡◌, ◌≤◌, [], IfOk, length, map};
ghost use Rattle.std.specs.Vec.{vec_capacity};
ghost use Rattle.trader_pass.specs.Passes.{pass_of_seat};

use journal_front::{PassSeat, PassSeats};
use market_model::Sequence;
use std::alloc::Global;
use trader_pass::Pass;
use zone_graph::NoMemory;

/// The passes of a venue's callers, by ascending caller.
pub type Passes = Sequence<Pass>;

// The passes of seats, in their order.
pub(crate) fn passes_of(alloc: Global, seats: PassSeats) -> Result<Passes, NoMemory>
    ensures { IfOk result (λ passes. passes ≡ map pass_of_seat seats) }
{
    let mut passes = Passes::new(alloc);
    for seat in seats.into_vec() {
        passes.push(Pass::new(seat))?;
    }
    Ok(passes)
}

// The seats of passes, in their order. They are put where there is room for them: it takes no memory.
pub(crate) fn seats_of(passes: Passes, mut seats: Vec<PassSeat>) -> PassSeats
    requires none { seats.items ≡ [] }
    requires room { length passes ≤ vec_capacity seats }
    ensures { map pass_of_seat result ≡ passes }
{
    for pass in passes.into_vec() {
        seats.push_reserved(pass.into_seat());
    }
    PassSeats::from(seats)
}
