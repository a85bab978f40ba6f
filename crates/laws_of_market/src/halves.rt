//! What half hours change.

ghost use Rattle.laws_of_market.specs.HalfHours.{HalvesChangeNoOtherReply, RepliesStayHalfless};
ghost use Rattle.market_model.specs.HistoryLaws.{HalvesChangeNothingElse};

/// After a history without orders of half hours, the reply to a command that names none is the same
/// in a market whose sweeps know none.
pub fn halves_change_no_other_reply()
    ensures { HalvesChangeNoOtherReply }
{}

/// By the reply to a command that names no half hour no order of one enters.
pub fn replies_stay_halfless()
    ensures { RepliesStayHalfless }
{}

/// Commands that name no half hour have the same journal in a market whose sweeps know none.
pub fn halves_change_nothing_else()
    ensures { HalvesChangeNothingElse }
{}
