//! Blocks, which trade wholly or not at all.

ghost use Rattle.std.specs.Prelude.{◌≡◌};
ghost use Rattle.market_examples.specs.Blocks as session;
ghost use Rattle.market_examples.specs.Words.{journal_lines, four_zones, two_zones};

/// Blocks that rest trade once capacity is there in every quarter, when they are asked to.
pub fn blocks_matched_later()
    ensures { journal_lines two_zones session.blocks_matched_later ≡ session.blocks_matched_later_journal }
{}

/// A block is poured over as many routes as it takes, or does not trade.
pub fn block_over_two_routes()
    ensures { journal_lines four_zones session.block_over_two_routes ≡ session.block_over_two_routes_journal }
{}
