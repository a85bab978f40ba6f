//! Resting blocks that are matched.

ghost use Rattle.laws_of_joint_commands.specs.MatchingBlocks.{BlocksMatchHourByHour, MatchesAreTheReply, MatchesOfAnHour, NextDealsGoOnInHours, PeriodDealsGoOnInHours, PeriodsFindTheirNextDeal, PeriodsHaveTheirDeals};

/// The next deal of a period is found in the block book of its first hour and its rooms, each by the hour's own
/// events; and there is none exactly where the market has none.
pub fn periods_find_their_next_deal()
    ensures { PeriodsFindTheirNextDeal }
{}

/// The history and each hour of the period go on with the legs of this deal, and both blocks are closed.
pub fn next_deals_go_on_in_hours()
    ensures { NextDealsGoOnInHours }
{}

/// Each period has its deals, one after the other by the hours' own events, until there is none.
pub fn periods_have_their_deals()
    ensures { PeriodsHaveTheirDeals }
{}

/// The history and each hour of the period go on with the legs of all of them.
pub fn period_deals_go_on_in_hours()
    ensures { PeriodDealsGoOnInHours }
{}

/// Matching the blocks of a period is these legs, and then the sweep of each hour, after its own events and the
/// legs.
pub fn blocks_match_hour_by_hour()
    ensures { BlocksMatchHourByHour }
{}

/// Of it each hour of the period has the legs and its own sweep, and any other hour nothing.
pub fn matches_of_an_hour()
    ensures { MatchesOfAnHour }
{}

/// The reply to a command to match blocks that no rule refuses is this matching.
pub fn matches_are_the_reply()
    ensures { MatchesAreTheReply }
{}
