//! What bounds every reply.

ghost use Rattle.laws_of_market.specs.ReplyBounds.{RepliesEnterFew, RepliesNameTheSetup};

/// A reply enters at most eight orders and blocks, whatever came before it.
pub fn replies_enter_few()
    ensures { RepliesEnterFew }
{}

/// A reply after a well-formed history names zones and borders of the setup alone: those of the
/// routes of its legs, of what is offered, granted, halted and resumed, and of its refusal.
pub fn replies_name_the_setup()
    ensures { RepliesNameTheSetup }
{}
