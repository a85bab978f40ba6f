//! Trades across borders, and the capacity that they use.

ghost use Rattle.std.specs.Prelude.{◌≡◌};
ghost use Rattle.market_examples.specs.Routes as session;
ghost use Rattle.market_examples.specs.Words.{journal_lines, four_zones, two_zones};

/// A buyer takes over the best route until it is full, and then over the next best.
pub fn two_routes()
    ensures { journal_lines four_zones session.two_routes ≡ session.two_routes_journal }
{}

/// A trade in one direction opens the other one, and the flow is netted.
pub fn netting()
    ensures { journal_lines two_zones session.netting ≡ session.netting_journal }
{}

/// An hour goes over a border as far as its tightest quarter lets it, and its quarters over what is left.
pub fn quarters_share_a_border()
    ensures { journal_lines two_zones session.quarters_share_a_border ≡ session.quarters_share_a_border_journal }
{}

/// A dearer order at home is taken before a cheaper one that no capacity reaches, and then the remote one.
pub fn local_and_remote()
    ensures { journal_lines two_zones session.local_and_remote ≡ session.local_and_remote_journal }
{}

/// An offer is not lowered below what flows.
pub fn below_the_flow()
    ensures { journal_lines two_zones session.below_the_flow ≡ session.below_the_flow_journal }
{}
