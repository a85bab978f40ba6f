//! The next event of an hour.

ghost use Rattle.laws_of_hours.specs.NextEvents.{FirstOfManyAreHours, FirstPartsAreHours, HoursBeginEmpty, NextEventsFit};

/// The last event of an hour fits a history whose hour the events before it are.
pub fn next_events_fit()
    ensures { NextEventsFit }
{}

/// The events of an hour but the last are an hour's by themselves.
pub fn first_parts_are_hours()
    ensures { FirstPartsAreHours }
{}

/// So are the first of them, however many follow.
pub fn first_of_many_are_hours()
    ensures { FirstOfManyAreHours }
{}

/// No event is an hour of each grid.
pub fn hours_begin_empty()
    ensures { HoursBeginEmpty }
{}
