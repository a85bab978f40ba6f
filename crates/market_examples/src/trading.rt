//! Trades within a zone.

ghost use Rattle.std.specs.Prelude.{◌≡◌};
ghost use Rattle.market_examples.specs.Trading as session;
ghost use Rattle.market_examples.specs.Words.{journal_lines, one_zone};

/// A sale within one zone, at the resting order's price.
pub fn one_sale()
    ensures { journal_lines one_zone session.one_sale ≡ session.one_sale_journal }
{}
