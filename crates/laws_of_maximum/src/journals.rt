//! What orders obtain in journals.

ghost use Rattle.laws_of_maximum.specs.Entering.{JournalsObtainTheMost};

/// In every journal each order that an entry enters, alone or in a basket, obtains its whole quantity,
/// or exactly the bound of the zones that are still in reach when its taking ends; and no flow plan for
/// it is worth more, unless it is filled.
/// Of an iceberg this holds where its peaks are all at one price.
pub fn journals_obtain_the_most()
    ensures { JournalsObtainTheMost }
{}
