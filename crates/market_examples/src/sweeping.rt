//! What resting orders trade once room is there.

ghost use Rattle.std.specs.Prelude.{◌≡◌};
ghost use Rattle.market_examples.specs.Sweeping as session;
ghost use Rattle.market_examples.specs.Words.{journal_lines, two_zones};

/// A trade over a border opens the other direction, and the sweep trades the quarter that waited for it.
pub fn sweep_after_netting()
    ensures { journal_lines two_zones session.sweep_after_netting ≡ session.sweep_after_netting_journal }
{}

/// A halted border has no room; once it is resumed the sweep trades what waited.
pub fn halt_and_resume()
    ensures { journal_lines two_zones session.halt_and_resume ≡ session.halt_and_resume_journal }
{}
