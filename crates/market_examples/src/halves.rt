//! Contracts for half hours.

ghost use Rattle.std.specs.Prelude.{◌≡◌};
ghost use Rattle.market_examples.specs.Halves as session;
ghost use Rattle.market_examples.specs.Words.{journal_lines, two_zones};

/// A half hour uses the two quarters that it has.
pub fn half_hours()
    ensures { journal_lines two_zones session.half_hours ≡ session.half_hours_journal }
{}

/// A sweep tries the halves before the quarters.
pub fn halves_before_quarters()
    ensures { journal_lines two_zones session.halves_before_quarters ≡ session.halves_before_quarters_journal }
{}
