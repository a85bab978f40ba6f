//! Laws of schedules: theorems about the definitions, the contracts of functions that do nothing.

ghost use Rattle.ship_schedule.specs.ScheduleLaws.{ExchangesAreTheFlow, PositionsAddUpToNothing, PositionsAreWhatBordersCarry};

/// The net position of a zone in a quarter, what it has sold less what it has bought, is what the
/// borders whose forward arc starts there carry, less what those carry whose forward arc ends there.
pub fn positions_are_what_borders_carry()
    ensures { PositionsAreWhatBordersCarry }
{}

/// In each quarter the net positions of all zones add up to nothing.
pub fn positions_add_up_to_nothing()
    ensures { PositionsAddUpToNothing }
{}

/// What trades and grants carry over a border is together the flow of its forward arc: at most what is
/// offered on that arc and, the other way, at most what is offered on the other one.
pub fn exchanges_are_the_flow()
    ensures { ExchangesAreTheFlow }
{}
