//! How orders are filled, shown, changed and refused.

ghost use Rattle.std.specs.Prelude.{◌≡◌};
ghost use Rattle.market_examples.specs.Filling as session;
ghost use Rattle.market_examples.specs.Words.{journal_lines, four_zones, two_zones};

/// A fill-or-kill order that cannot be filled leaves nothing but its certificate: the zones in reach and the bound.
pub fn unfilled_fill_or_kill()
    ensures { journal_lines two_zones session.unfilled_fill_or_kill ≡ session.unfilled_fill_or_kill_journal }
{}

/// An iceberg shows one peak at a time, and a new peak goes behind the orders of its price.
pub fn iceberg_peaks()
    ensures { journal_lines two_zones session.iceberg_peaks ≡ session.iceberg_peaks_journal }
{}

/// Each peak of an iceberg with a delta has its own price.
pub fn iceberg_with_a_delta()
    ensures { journal_lines two_zones session.iceberg_with_a_delta ≡ session.iceberg_with_a_delta_journal }
{}

/// A view shows what a taker of any quantity would take, of what is shown.
pub fn views()
    ensures { journal_lines two_zones session.views ≡ session.views_journal }
{}

/// What is left of an order is withdrawn or reduced by its owner alone.
pub fn cancel_and_reduce()
    ensures { journal_lines two_zones session.cancel_and_reduce ≡ session.cancel_and_reduce_journal }
{}

/// What an immediate-or-cancel order leaves is withdrawn.
pub fn immediate_or_cancel()
    ensures { journal_lines two_zones session.immediate_or_cancel ≡ session.immediate_or_cancel_journal }
{}

/// The zones in reach and their bound on four zones.
pub fn zones_of_an_unfilled_order()
    ensures { journal_lines four_zones session.zones_of_an_unfilled_order ≡ session.zones_of_an_unfilled_order_journal }
{}

/// The orders of a basket are all filled or all refused.
pub fn baskets()
    ensures { journal_lines two_zones session.baskets ≡ session.baskets_journal }
{}
