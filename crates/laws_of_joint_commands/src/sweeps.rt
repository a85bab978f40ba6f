//! The sweeps of several hours.

ghost use Rattle.laws_of_joint_commands.specs.Sweeps.{SweepsAreHourByHour, SweepsOfAnHour};

/// The sweeps of hours that ascend, one after the other, are the sweep of each by its own events.
pub fn sweeps_are_hour_by_hour()
    ensures { SweepsAreHourByHour }
{}

/// What they have of one of these hours is its own sweep, and of any other hour nothing.
pub fn sweeps_of_an_hour()
    ensures { SweepsOfAnHour }
{}
