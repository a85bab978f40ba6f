//! The trait of a market that plays a session.

ghost use Rattle.std.specs.Prelude.{◌≡◌, ◌<◌, length, nat_lt, OnOk};
ghost use Rattle.market_text.specs.Commands.{commands_of};
ghost use Rattle.trade_journal.specs.Journals.{made_by, room_of_caller};
ghost use Rattle.session_storing.specs.Playing.{IsAfterNext, PlayState};

use market_model::{Entry, NoMemory, Setup};
use std::alloc::Global;

/// A market to which the callers of a session give their commands, each in its order.
///
/// For clauses, `state` is what is fixed, the commands that each caller has still to give, and the entries so far.
pub trait Player {
    ghost state: { Self → PlayState };

    /// What is fixed for the session.
    fn setup(&self) -> &Setup
        ensures { result.now ≡ (state self.now).setup };

    /// Lends the entries so far.
    fn entries(&self) -> &[Entry]
        ensures { result.now ≡ (state self.now).entries };

    /// Whether a caller has a command still to give.
    fn has_next(&self, caller: u32) -> bool
        requires { caller < length (state self.now).setup.callers }
        ensures { result ≡ nat_lt (made_by (state self.now).entries caller) (room_of_caller (state self.now).setup caller) };

    /// Gives the market a caller's next command: its entry, with the market's reply, goes behind the others.
    ///
    /// # Errors
    ///
    /// [`NoMemory`] where memory runs out. The player is of no use then.
    fn give_next(&mut self, alloc: Global, caller: u32) -> Result<(), NoMemory>
        requires known { caller < length (state self.old).setup.callers }
        requires waits { caller < length (state self.old).waiting }
        requires some { 0 < length (commands_of (state self.old).waiting caller) }
        requires room { made_by (state self.old).entries caller < room_of_caller (state self.old).setup caller }
        ensures { OnOk result (IsAfterNext (state self.old) caller (state self.new)) };
}
