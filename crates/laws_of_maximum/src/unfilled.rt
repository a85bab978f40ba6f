//! What a refusal as unfilled says.

ghost use Rattle.laws_of_maximum.specs.Unfilled.{BasketUnfilledIsCertified, JournalsRefuseAsCertified, JournalsRefuseBasketsAsCertified, UnfilledIsCertified};

/// A reply after a well-formed history that refuses a command as `Unfilled` certifies that no flow
/// plan fills its order: the zones have the order's own, the bound is theirs, and it is below the
/// quantity. It comes for fill-or-kill orders alone.
pub fn unfilled_is_certified()
    ensures { UnfilledIsCertified }
{}

/// A reply after a well-formed history that refuses a command as `BasketUnfilled` certifies that no
/// flow plan fills an order of its basket, of the hour that is named.
pub fn basket_unfilled_is_certified()
    ensures { BasketUnfilledIsCertified }
{}

/// So in every journal each entry that refuses a command as `Unfilled` certifies that no flow plan
/// fills its order, after the entries before it.
pub fn journals_refuse_as_certified()
    ensures { JournalsRefuseAsCertified }
{}

/// And each entry that refuses a basket as `BasketUnfilled` certifies it of an order of the basket.
pub fn journals_refuse_baskets_as_certified()
    ensures { JournalsRefuseBasketsAsCertified }
{}
