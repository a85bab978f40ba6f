//! What changes the place of an order.

ghost use Rattle.laws_of_market.specs.QueueOrder.{MomentsAreKept, NobodyOvertakes, RepliesKeepMoments};

/// An order keeps its moment, whatever happens, until a leg empties one of its peaks.
pub fn moments_are_kept()
    ensures { MomentsAreKept }
{}

/// An order keeps its moment whatever command any caller gives, unless a leg empties one of its
/// peaks.
pub fn replies_keep_moments()
    ensures { RepliesKeepMoments }
{}

/// Whoever was there no earlier than an order that keeps its moment, or was not there yet, has no
/// earlier moment than it.
pub fn nobody_overtakes()
    ensures { NobodyOvertakes }
{}
