//! Whom an entry of the journal concerns.

ghost use Rattle.market_model.specs.Concerned.{CurrentForCallers, CurrentForHours};

/// Someone whom entries of the journal concern.
#[derive(Clone, Copy, Debug, PartialEq, Eq)]
pub enum Who {
    /// The hour of this number: an entry concerns each hour that its command touches.
    Hour(u32),
    /// The caller of this number: an entry concerns its caller.
    Caller(u32),
}

/// A list of entries that is current for someone in a journal misses nothing of theirs: for a caller
/// it has all of the caller's entries, and for an hour it leaves all of the hour's events, where the
/// journal's entries have no event of an hour that they do not touch.
pub fn current_lists_miss_nothing()
    ensures callers { CurrentForCallers }
    ensures hours { CurrentForHours }
{}
