//! What a deal of two blocks makes of the books of the hours.

ghost use Rattle.laws_of_books.specs.DealLaws.{DealsTakeBothOut, EnteringDealsTakeTheMakerOut, PartnersMakeDeals};

/// After a well-formed history the legs of two open blocks of one period and quantity and of opposite
/// sides, of which they carry all, take both out of the book of the hour in which the two start, and
/// leave the books of the other hours as they were.
pub fn deals_take_both_out()
    ensures { DealsTakeBothOut }
{}

/// After a well-formed history an open block and the partner that the market finds for it are two such
/// blocks, and the legs carry all of them whichever of the two is the taker.
pub fn partners_make_deals()
    ensures { PartnersMakeDeals }
{}

/// A block that enters after a well-formed history and is so dealt at once takes its maker out of the
/// book that it found, and is in none itself.
pub fn entering_deals_take_the_maker_out()
    ensures { EnteringDealsTakeTheMakerOut }
{}
