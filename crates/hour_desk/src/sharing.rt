//! One hour's part of what happens in several hours is planned.

ghost use Rattle.std.specs.Prelude.{◌≡◌, ◌<◌, ◌-◌, ◌^◌, [], None, IfOk, OnErr, OnOk, count_by, length};
ghost use Rattle.market_model.specs.History.{enters_in};
ghost use Rattle.laws_of_joint_commands.specs.MatchingBlocks.{legs_of};
ghost use Rattle.zone_graph.specs.Graph.{border_count};
ghost use Rattle.desk_changes.specs.Periods as periods;
ghost use Rattle.hour_desk.specs.Desk as states;
ghost use Rattle.hour_desk.specs.Shared as shared;

use crate::desk::HourDesk;
use crate::part::{match_and_refresh, share_and_refresh};
use crate::part_work::{BlockDeals, PartWork};
use crate::planning::drop_plan;
use market_model::Events;
use zone_graph::{Grid, NoMemory, Rooms};

impl HourDesk {
    /// Plans no event: the settled events stand alone, as after a refusal. What was planned before is
    /// dropped. It takes no memory.
    pub fn plan_nothing(&mut self)
        ensures { self.new ≡ states.planning self.old [] }
    {
        drop_plan(&mut self.kept, &mut self.views);
        self.is_planned = true;
    }

    /// Plans this hour's part of a command that touches several hours: the events that it shares with them,
    /// and then its own sweep. Answers them. What was planned before is dropped first.
    ///
    /// The hour can go on with what it shares. A block enters its first hour alone, and each deal closes its
    /// two blocks there.
    ///
    /// # Errors
    ///
    /// [`NoMemory`] where memory runs out; nothing is planned then.
    pub fn plan_part(&mut self, grid: &Grid, work: &PartWork) -> Result<Events, NoMemory>
        requires grid { grid.now ≡ self.old.grid }
        requires few { count_by (enters_in self.old.hour) self.old.settled < 2 ^ 32 - 1 }
        requires can { shared.CanShare self.old work.now }
        ensures events { IfOk result (λ events. events ≡ shared.part_events self.old work.now) }
        ensures planned { OnOk result (self.new ≡ states.planning self.old (shared.part_events self.old work.now)) }
        ensures failed { OnErr result (self.new ≡ states.with_nothing_planned self.old) }
    {
        drop_plan(&mut self.kept, &mut self.views);
        match share_and_refresh(self.alloc, &mut self.kept, &mut self.views, grid, work) {
            Ok(events) => {
                self.is_planned = true;
                Ok(events)
            }
            Err(error) => {
                self.is_planned = false;
                Err(error)
            }
        }
    }

    /// Finds the deals of the resting blocks of the period from this hour to a last one, one after the other
    /// within the rooms of the period, and plans their legs and then the sweep of this hour. Answers the
    /// deals; the rooms are left as these leave them. What was planned before is dropped first.
    ///
    /// # Errors
    ///
    /// [`NoMemory`] where memory runs out; nothing is planned then, and the rooms may be those after some of
    /// the deals.
    pub fn match_blocks(
        &mut self,
        grid: &Grid,
        rooms: &mut Rooms,
        last: u32,
    ) -> Result<BlockDeals, NoMemory>
        requires grid { grid.now ≡ self.old.grid }
        requires few { count_by (enters_in self.old.hour) self.old.settled < 2 ^ 32 - 1 }
        requires size { length rooms.old ≡ border_count self.old.grid }
        requires period { periods.IsFirstOfPeriod self.old.grid self.old.hour last self.old.settled rooms.old }
        ensures deals { IfOk result (λ deals. periods.AreDealsOf self.old.grid self.old.hour last self.old.settled rooms.old deals) }
        ensures planned { IfOk result (λ deals. self.new ≡ states.planning self.old (shared.then_swept self.old (legs_of self.old.hour last deals))) }
        ensures rooms { IfOk result (λ deals. periods.AreRoomsAfter self.old.grid self.old.hour last self.old.settled rooms.old deals rooms.new) }
        ensures size { length rooms.new ≡ length rooms.old }
        ensures failed { OnErr result (self.new ≡ states.with_nothing_planned self.old) }
    {
        drop_plan(&mut self.kept, &mut self.views);
        match match_and_refresh(
            self.alloc,
            &mut self.kept,
            &mut self.views,
            grid,
            rooms,
            last,
        ) {
            Ok(deals) => {
                self.is_planned = true;
                Ok(deals)
            }
            Err(error) => {
                self.is_planned = false;
                Err(error)
            }
        }
    }
}
