//! The rooms of a period.

ghost use Rattle.laws_of_joint_commands.specs.PeriodRooms.{PeriodRoomsAreTheLeastOfHours};

/// The room of an arc over the quarters of a period is the least of its rooms in the hours, each by the hour's
/// own events.
pub fn period_rooms_are_the_least_of_hours()
    ensures { PeriodRoomsAreTheLeastOfHours }
{}
