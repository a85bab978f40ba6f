//! The pass.

ghost use Rattle.std.specs.Prelude.{◌≡◌, ◌<◌, ◌≤◌, ◌^◌, length};
ghost use Rattle.std.specs.Borrow.{Lends, sem};
ghost use Rattle.market_model.specs.Concerned.{entries_by};
ghost use Rattle.journal_front.specs.contracts.seats.PassSeat as seat;
ghost use Rattle.trader_pass.specs.contracts.pass.Pass.{the_row};
ghost use Rattle.trader_pass.specs.Passes.{pass_of_seat};

use journal_front::PassSeat;
use std::marker::Model;

/// The pass of a caller, with which it meets the market. It has the caller's seat on the journal's
/// word.
///
/// Contracts see which front it is of and the setup, the caller, the entries that the pass has seen,
/// which are a beginning of the journal, those of them that are the caller's own, and the greatest
/// number of entries that the pass was told.
pub struct Pass {
    seat: PassSeat,
}

impl Model for Pass {
    ghost use Rattle.trader_pass.specs.Passes.{PassState, pass_of_seat};

    ghost Value = { PassState };

    ghost view = { λ pass. pass_of_seat pass.seat };
}

// Written out: a crate that drops one need not know what it is made of.
impl Drop for Pass {
    fn drop(self) {
        let Pass { seat: _ } = self;
    }
}

impl Pass {
    /// The pass of a seat.
    pub fn new(seat: PassSeat) -> Pass
        ensures { result ≡ pass_of_seat seat }
    {
        Pass { seat }
    }

    /// The seat of a pass that is not needed any more.
    pub fn into_seat(self) -> PassSeat
        ensures { self ≡ pass_of_seat result }
    {
        let Pass { seat } = self;
        seat
    }

    /// The caller.
    pub fn caller(&self) -> u32
        ensures caller { result ≡ self.now.caller }
        ensures known { result < length self.now.setup.callers }
    {
        self.seat.caller()
    }

    /// How many of the entries that the pass has seen are the caller's own.
    pub fn made(&self) -> u32
        ensures made { result ≡ length self.now.mine }
        ensures own { self.now.mine ≡ entries_by self.now.caller self.now.seen }
        ensures short { length self.now.seen ≤ 2 ^ 31 }
    {
        self.seat.made()
    }

    /// Lends the seat. The pass is then that of the seat as it was left.
    pub fn seat_mut(&mut self) -> &mut PassSeat
        ensures* writes_back { sem 𝓛 (Lends the_row seat.the_row self.entry result pass_of_seat) }
        ensures value { self.old ≡ pass_of_seat result.now }
    {
        &mut self.seat
    }
}
