//! Laws of stored lines: theorems about the definitions, each the contract of a function that does
//! nothing.

ghost use Rattle.durable_journal.specs.Laws.{DamageIsUnique, ImagesStoreTheirLines, StoredLinesAreUnique};

/// The image of lines stores these lines, and they end at the closed gate behind them.
pub fn images_store_their_lines()
    ensures { ImagesStoreTheirLines }
{}

/// An image stores no other lines than those that it stores, and they end at one place.
pub fn stored_lines_are_unique()
    ensures { StoredLinesAreUnique }
{}

/// An image that is damaged is so at one place, and it stores no lines.
pub fn damage_is_unique()
    ensures { DamageIsUnique }
{}
