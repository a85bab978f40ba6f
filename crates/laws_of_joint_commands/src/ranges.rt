//! Commands over a range of hours: offers, requests, halts and resumptions.

ghost use Rattle.laws_of_joint_commands.specs.Ranges.{RangesAreDoneHourByHour, RangesOfAnHour, RangesTouchTheirHours, SharedEventsAreSweptHourByHour, SharedEventsOfAnHour};

/// The event of such a command touches the hours that the command concerns and no others, and they ascend.
pub fn ranges_touch_their_hours()
    ensures { RangesTouchTheirHours }
{}

/// An event that some hours share and the sweeps after it are the event and the sweep of each hour, after
/// the hour's own events and that one.
pub fn shared_events_are_swept_hour_by_hour()
    ensures { SharedEventsAreSweptHourByHour }
{}

/// Of these each of the hours has the event and its own sweep, and any other hour nothing.
pub fn shared_events_of_an_hour()
    ensures { SharedEventsOfAnHour }
{}

/// Where no rule refuses such a command, its reply is the event once, and then the sweep of each hour of
/// the range, after the hour's own events and that one.
pub fn ranges_are_done_hour_by_hour()
    ensures { RangesAreDoneHourByHour }
{}

/// Of the reply each hour of the range has the event and its own sweep, and any other hour nothing.
pub fn ranges_of_an_hour()
    ensures { RangesOfAnHour }
{}
