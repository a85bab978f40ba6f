//! Blocks that enter.

ghost use Rattle.laws_of_joint_commands.specs.EnteringBlocks.{BlocksEnterHourByHour, BlocksFindRoomInTheirFirstHour, EntriesGoOnInHours, EntriesOfAnHour, EntryDealsCloseBoth};

/// Whether a block that enters has room to rest is told by the events of its first hour and by whether it finds
/// a deal, in the block book of that hour and the rooms of its period.
pub fn blocks_find_room_in_their_first_hour()
    ensures { BlocksFindRoomInTheirFirstHour }
{}

/// A history goes on with the entry of a block that no early rule refuses and the legs of its deal, and so does
/// each hour of its period with what it has of them.
pub fn entries_go_on_in_hours()
    ensures { EntriesGoOnInHours }
{}

/// Then both blocks of the deal are closed.
pub fn entry_deals_close_both()
    ensures { EntryDealsCloseBoth }
{}

/// Where no rule refuses a block, the reply is its entry, the legs of its deal, and then the sweep of each hour
/// of its period, after the hour's own events and what it has of these.
pub fn blocks_enter_hour_by_hour()
    ensures { BlocksEnterHourByHour }
{}

/// Of the reply the first hour has the entry, the legs and its own sweep, each later hour of the period the legs
/// and its own sweep, and any other hour nothing.
pub fn entries_of_an_hour()
    ensures { EntriesOfAnHour }
{}
