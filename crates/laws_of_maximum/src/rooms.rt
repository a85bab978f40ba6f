//! What legs leave of the rooms of a history.

ghost use Rattle.laws_of_maximum.specs.Rooms.{LegsLeaveTheRooms, TakingsLeaveTheRooms, TakingsOpenNoWay};

/// A leg that fits a history lowers the rooms of its arcs by its lots, and raises those of
/// the opposite arcs, over the quarters of its contract.
pub fn legs_leave_the_rooms()
    ensures { LegsLeaveTheRooms }
{}

/// A taking leaves the rooms that its legs leave, one after the other.
pub fn takings_leave_the_rooms()
    ensures { TakingsLeaveTheRooms }
{}

/// A taking opens no way: a zone that is in reach of its taker when it ends was so when it began.
pub fn takings_open_no_way()
    ensures { TakingsOpenNoWay }
{}
