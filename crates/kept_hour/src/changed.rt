//! What an hour's planned events have changed of what its views see.

ghost use Rattle.std.specs.Prelude.{◌≡◌, ◌≤◌, None, false, true};
ghost use Rattle.std.specs.List.{list_any};
ghost use Rattle.zone_graph.specs.Graph.{border_count, most_borders, most_zones, zone_count};
ghost use Rattle.hour_store.specs.Changed.{no_zones};
ghost use Rattle.kept_hour.specs.Changed.{AreBoards, AreRoomsSettled, AreRoomsSettledBut, AreSeenElsewhere, AreZonesPlanned};
ghost use Rattle.kept_hour.specs.Planned.{moves_flows, planned_of};

use crate::hour::KeptHour;
use hour_store::{ChangedBorders, ChangedZones};

impl KeptHour {
    /// In which zones the orders of each part and side have changed since the hour was settled: elsewhere
    /// they are seen as settled, and no zone is told but those of orders that the planned events name. It
    /// takes no memory.
    ///
    /// No order is in hand, and the grid has at most 64 zones, as every one has.
    pub fn changed_zones(&self) -> ChangedZones
        requires free { self.now.board.hand ≡ None }
        requires zones { zone_count self.now.board.grid ≤ most_zones }
        ensures boards { AreBoards self.now }
        ensures seen { AreSeenElsewhere self.now result }
        ensures named { AreZonesPlanned self.now result }
        ensures unplanned { self.now.board.events ≡ self.now.settled → result ≡ no_zones }
    {
        if self.settled == self.events.len() {
            return ChangedZones::none();
        }
        self.store.changed_zones()
    }

    /// Whether the flows of the hour have changed since it was settled: an offer, what flows, a halt or the
    /// phase. Where they have not, each arc has the room that it had; where they have, a planned event is of
    /// them.
    pub fn flows_changed(&self) -> bool
        ensures rooms { result ≡ false → AreRoomsSettled self.now }
        ensures planned { result ≡ true → list_any moves_flows (planned_of self.now) ≡ true }
        ensures unplanned { self.now.board.events ≡ self.now.settled → result ≡ false }
    {
        self.settled < self.events.len() && self.store.flows_changed()
    }

    /// Over which borders the flows of the hour have changed since it was settled: the arcs over the others have
    /// the room that they had. It takes no memory.
    ///
    /// The grid has at most 128 borders, as every one has.
    pub fn changed_borders(&self) -> ChangedBorders
        requires { border_count self.now.board.grid ≤ most_borders }
        ensures { AreRoomsSettledBut self.now result }
    {
        self.store.changed_borders()
    }
}
