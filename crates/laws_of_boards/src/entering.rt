//! What may enter: theorems about the definitions, the contracts of functions that do nothing.

ghost use Rattle.laws_of_boards.specs.Entering.{BasketEntriesFit, BlockEntriesFit, EntriesFit};

/// An order that no early rule refuses fits as it enters, under the next name of its hour.
pub fn entries_fit()
    ensures { EntriesFit }
{}

/// So does a block, under the next name of its first hour.
pub fn block_entries_fit()
    ensures { BlockEntriesFit }
{}

/// And each order of a basket, under the next name of its own hour.
pub fn basket_entries_fit()
    ensures { BasketEntriesFit }
{}
