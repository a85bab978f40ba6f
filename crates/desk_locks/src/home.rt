//! What the lock of an hour keeps.

ghost use Rattle.std.specs.Prelude.{◌≡◌, ℕ, [], IfOk};
ghost use Rattle.std.specs.Arc.{arc_value};
ghost use Rattle.journal_front.specs.Fronts.{FrontState, desk_of};
ghost use Rattle.desk_locks.specs.Places.{AreInPlace, IsGridOf, place_of_seat};

use joint_plan::HourDesk;
use journal_front::DeskSeat;
use kept_lock::{Duty, Kept, KeptLock};
use std::alloc::Global;
use std::snapshot::Snapshot;
use std::sync::Arc;
use zone_graph::{Grid, NoMemory};

/// A desk and its seat.
#[derive(Drop)]
pub(crate) struct Seated {
    pub(crate) desk: HourDesk,
    pub(crate) seat: DeskSeat,
}

// The key tells the seat as it was at first: its front and its hour.
impl Kept<Snapshot<DeskSeat>> for Seated {
    ghost keeps = { λ first seated. AreInPlace (place_of_seat first.value) seated.desk seated.seat };
}

/// The lock of an hour, which its row shares with those who hold the desk.
pub(crate) type HourLock = Arc<KeptLock<Seated, Snapshot<DeskSeat>>, Global>;

/// The duty to give it back.
pub(crate) type HourDuty = Duty<Seated, Snapshot<DeskSeat>>;

/// An hour and its lock.
#[derive(Drop)]
pub(crate) struct Home {
    pub(crate) hour: u32,
    pub(crate) lock: HourLock,
    ghost same_hour: { hour ≡ (arc_value lock).key.value.hour },
}

impl Home {
    // The desk of a seat over a grid, without events, under a free lock. The seat has the empty list.
    pub(crate) fn new(alloc: Global, grid: &Grid, seat: DeskSeat) -> Result<Home, NoMemory>
        requires { (front : FrontState) × (hour : ℕ) × (seat ≡ desk_of front [] hour) × IsGridOf front grid.now }
        ensures { IfOk result (λ home. (arc_value home.lock).key.value ≡ seat) }
    {
        let first = Snapshot::of(&seat);
        let hour = seat.hour();
        let desk = HourDesk::new(alloc, hour, grid)?;
        let Ok(lock) = KeptLock::new(alloc, &first, Seated { desk, seat }) else {
            return Err(NoMemory);
        };
        let lock = Arc::new(alloc, lock)?;
        Ok(Home { hour, lock })
    }
}

/// A lock that is taken, and the duty to give it back.
pub(crate) struct Taken {
    pub(crate) lock: HourLock,
    pub(crate) duty: HourDuty,
    ghost same_lock: { duty ≡ arc_value lock },
}
