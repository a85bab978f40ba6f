//! Commands are planned, carried and taken back.

ghost use Rattle.std.specs.Prelude.{◌≡◌, ℕ, ◌∷◌, ◌<◌, ◌-◌, ◌^◌, List, [], None, IfOk, OnErr, OnOk, count_by, length};
ghost use Rattle.market_model.specs.declared.refusal.Refusal.TheVariants as refusals;
ghost use Rattle.market_model.specs.declared.reply.Reply.TheVariants as replies;
ghost use Rattle.market_model.specs.Board.{IsBoard};
ghost use Rattle.market_model.specs.Grid.{graph_of};
ghost use Rattle.market_model.specs.History.{enters_in, events_of};
ghost use Rattle.market_model.specs.Market.{reply_to};
ghost use Rattle.market_model.specs.Rules.{early_refusal, touched_hours};
ghost use Rattle.laws_of_maximum.specs.Unfilled.{IsUnfilledOrder};
ghost use Rattle.desk_changes.specs.State.{settled_now, undone};
ghost use Rattle.desk_views.specs.Desk.{adopted, forgotten};
ghost use Rattle.hour_desk.specs.Desk as states;

use crate::desk::HourDesk;
use crate::replying::reply_and_refresh;
use desk_changes::KeptHour;
use desk_views::DeskViews;
use market_model::{Command, Reply, Setup};
use zone_graph::{Grid, NoMemory};

impl HourDesk {
    /// Plans a caller's command that touches this hour alone and breaks no rule by itself, and answers the
    /// market's reply to it after the settled events. What was planned before is dropped first.
    ///
    /// It refuses as [`Unfilled`](market_model::Refusal::Unfilled) a fill-or-kill order alone, with the zones
    /// that are still in reach where its taking would end, and with their bound: it is below the order's
    /// quantity, and so is the value of every flow plan for it.
    ///
    /// The setup's zones and borders are the desk's grid.
    ///
    /// # Errors
    ///
    /// [`NoMemory`] where memory runs out; nothing is planned then.
    pub fn plan(
        &mut self,
        grid: &Grid,
        setup: &Setup,
        caller: u32,
        command: &Command,
    ) -> Result<Reply, NoMemory>
        requires grid { grid.now ≡ self.old.grid }
        requires setup { graph_of setup.now ≡ self.old.grid }
        requires known { caller < length setup.now.callers }
        requires alone { touched_hours setup.now caller command.now ≡ self.old.hour ∷ [] }
        requires early { early_refusal setup.now caller command.now ≡ None }
        requires few { count_by (enters_in self.old.hour) self.old.settled < 2 ^ 32 - 1 }
        ensures reply { IfOk result (λ reply. reply ≡ reply_to setup.now self.old.settled caller command.now) }
        ensures certified { IfOk result (λ reply. (zones : List ℕ) (bound : ℕ) → reply ≡ replies.Refused (refusals.Unfilled zones bound)
            → IsUnfilledOrder self.old.grid self.old.settled caller command.now zones bound) }
        ensures planned { OnOk result (self.new ≡ states.planning self.old (events_of (reply_to setup.now self.old.settled caller command.now))) }
        ensures failed { OnErr result (self.new ≡ states.with_nothing_planned self.old) }
    {
        let hour = &mut self.kept;
        let views = &mut self.views;
        drop_plan(hour, views);
        match reply_and_refresh(self.alloc, hour, views, grid, setup, caller, command) {
            Ok(reply) => {
                self.is_planned = true;
                Ok(reply)
            }
            Err(error) => {
                self.is_planned = false;
                Err(error)
            }
        }
    }

    /// What is planned is settled. Where nothing is planned nothing changes. It takes no memory.
    pub fn carry(&mut self)
        ensures { self.new ≡ states.carried self.old }
    {
        if self.is_planned {
            carry_plan(&mut self.kept, &mut self.views);
            self.is_planned = false;
        }
    }

    /// Drops what is planned. It takes no memory.
    pub fn undo(&mut self)
        ensures { self.new ≡ states.with_nothing_planned self.old }
    {
        drop_plan(&mut self.kept, &mut self.views);
        self.is_planned = false;
    }
}

// Settles what an hour has planned, with what is next for its views.
fn carry_plan(hour: &mut KeptHour, views: &mut DeskViews)
    requires { hour.old.board.hand ≡ None }
    ensures hour { hour.new ≡ settled_now hour.old }
    ensures views { views.new ≡ adopted views.old }
{
    hour.settle();
    views.adopt();
}

/// Drops what an hour has planned, with what is next for its views. It takes no memory.
pub(crate) fn drop_plan(hour: &mut KeptHour, views: &mut DeskViews)
    ensures hour { hour.new ≡ undone hour.old }
    ensures views { views.new ≡ forgotten views.old }
    ensures board { IsBoard hour.new.board }
{
    hour.undo();
    views.forget();
    // It shows that the hour stands.
    let _events = hour.events();
}
