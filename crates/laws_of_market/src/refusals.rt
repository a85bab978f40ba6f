//! Which rules refuse which commands.

ghost use Rattle.market_model.specs.StateRules.{StateComesSecond};
ghost use Rattle.laws_of_market.specs.RefusalLaws.{OnlyItsRulesRefuse};

/// A command is refused only by the rules that the table has for it.
pub fn only_its_rules_refuse()
    ensures { OnlyItsRulesRefuse }
{}

/// All rules are those that a command can break by itself, then those on the state of orders, hours and
/// capacity, then those on orders that are filled and on what rests.
pub fn state_comes_second()
    ensures { StateComesSecond }
{}
