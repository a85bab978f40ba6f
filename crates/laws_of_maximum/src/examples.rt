//! What is not claimed, by an example.

ghost use Rattle.laws_of_maximum.specs.Shortfall.{StopsShort};

/// An iceberg that enters, and each of whose further peaks buys at a lower price, can stop below the
/// value of a flow plan: its first peak takes the cheap order, and its second cannot pay the dear one.
pub fn falling_iceberg_stops_short()
    ensures { StopsShort }
{}
