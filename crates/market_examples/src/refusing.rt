//! Refusals by name.

ghost use Rattle.std.specs.Prelude.{◌≡◌};
ghost use Rattle.market_examples.specs.Refusing as session;
ghost use Rattle.market_examples.specs.Words.{journal_lines, two_zones};

/// The first rule that a command breaks names its refusal.
pub fn named_refusals()
    ensures { journal_lines two_zones session.named_refusals ≡ session.named_refusals_journal }
{}
