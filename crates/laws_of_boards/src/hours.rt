//! What may come next in an hour: theorems about the definitions, the contracts of functions that do
//! nothing.

ghost use Rattle.laws_of_boards.specs.Hours.{EntriesStayHours, FitsInItsHour, PrefixesAreHours, RepliesStayHours, SweepsStayHours, TakingsStayHours, WithdrawalsStayHours};

/// An event of one hour alone that fits the hour's events fits the history whose hour they are, and the
/// two go on with it.
pub fn fits_in_its_hour()
    ensures { FitsInItsHour }
{}

/// The two go on with each first part of the legs that an order of the hour takes after the hour's
/// events, whatever its kind: a fill-or-kill order's too that is refused in the end.
pub fn takings_stay_hours()
    ensures { TakingsStayHours }
{}

/// So they do with the entry of an order that may enter, and each first part of the legs that it takes.
pub fn entries_stay_hours()
    ensures { EntriesStayHours }
{}

/// And then with the withdrawal of all that is left of it, where something is.
pub fn withdrawals_stay_hours()
    ensures { WithdrawalsStayHours }
{}

/// And with each first part of the sweep of the hour.
pub fn sweeps_stay_hours()
    ensures { SweepsStayHours }
{}

/// And with each first part of the reply to a command that touches no other hour.
pub fn prefixes_are_hours()
    ensures { PrefixesAreHours }
{}

/// The reply to such a command after the hour's events is its reply after the whole history: the two go on
/// with its events, and open blocks stay whole.
pub fn replies_stay_hours()
    ensures { RepliesStayHours }
{}
