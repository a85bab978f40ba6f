//! The book.

ghost use Rattle.std.specs.Prelude.{◌≡◌, ◌↔◌, ◌==◌, [], length, None, IsErr, IsSome, IfOk, IfSome, OnOk, OnErr};

use crate::block::RestingBlock;
use crate::faults::Full;
use crate::ladder::Ladder;
use crate::line_key::{Grain, LineKey};
use order_kinds::Side;
use record_pool::KeyedPool;
use std::alloc::Global;
use std::marker::Model;
use zone_graph::NoMemory;

/// The blocks that rest and start in one hour: contracts see them by ascending number, and for each
/// period and side the line of its blocks in priority.
///
/// A block is found by its number over an index. A line is found in a ring, whose number is computed
/// from what the blocks of the line have in common, and which may have blocks of other lines of the
/// same side besides. No call but [`BlockBook::new`] and [`BlockBook::copy`] takes memory. The steps
/// of [`BlockBook::rest`] grow with how far the block's places in its two rings are from the nearer
/// ends of those rings. The steps of the other calls are independent of how many blocks rest, but
/// for the blocks of other lines that the calls which answer a line's block pass over in its ring.
/// For a line of all quantities there are none, as long as no period is longer than 2048 hours. For
/// one of a quantity they are those whose period and quantity fall to the same of 2048 rings.
#[derive(Drop)]
pub struct BlockBook {
    blocks: KeyedPool<RestingBlock>,
    by_period: Ladder,
    by_quantity: Ladder,
}

impl Model for BlockBook {
    ghost use Rattle.std.specs.Prelude.{List};
    ghost use Rattle.block_book.specs.declared.block.RestingBlock.{RestingBlock};

    ghost Value = { List RestingBlock };

    ghost use Rattle.block_book.specs.Inside.{book_in, IsInside};

    ghost view = { λ a. book_in a.blocks };

    ghost invariant = { λ a. IsInside a.blocks a.by_period a.by_quantity };
}

impl BlockBook {
    ghost use Rattle.block_book.specs.Book as books;

    /// A book in which no block rests.
    ///
    /// # Errors
    ///
    /// [`NoMemory`] where memory runs out.
    pub fn new(alloc: Global) -> Result<BlockBook, NoMemory>
        ensures empty { IfOk result (λ book. book ≡ []) }
        ensures sound { IfOk result (λ book. books.IsBook book) }
    {
        Ok(BlockBook {
            blocks: KeyedPool::new(alloc)?,
            by_period: Ladder::new(alloc, Grain::Period)?,
            by_quantity: Ladder::new(alloc, Grain::Quantity)?,
        })
    }

    /// A book in which the same blocks rest.
    ///
    /// # Errors
    ///
    /// [`NoMemory`] where memory runs out.
    pub fn copy(&self) -> Result<BlockBook, NoMemory>
        ensures same { IfOk result (λ book. book ≡ self.now) }
        ensures sound { IfOk result (λ book. books.IsBook book) }
    {
        Ok(BlockBook {
            blocks: self.blocks.copy()?,
            by_period: self.by_period.copy()?,
            by_quantity: self.by_quantity.copy()?,
        })
    }

    /// How many blocks rest.
    pub fn len(&self) -> u32
        ensures count { result ≡ length self.now }
        ensures sound { books.IsBook self.now }
    {
        // The fields show what every book keeps.
        let _ = &self.by_period;
        self.blocks.len()
    }

    /// Whether no block rests.
    pub fn is_empty(&self) -> bool
        ensures { result ≡ (length self.now == 0) }
    {
        self.len() == 0
    }

    /// Puts a block in priority into the lines of its period and side.
    ///
    /// # Errors
    ///
    /// [`Full`] exactly where 4096 blocks rest, and then nothing changes.
    pub fn rest(&mut self, block: RestingBlock) -> Result<(), Full>
        requires { books.block_of self.old block.number ≡ None }
        ensures full { IsErr result ↔ (length self.old ≡ 4096) }
        ensures unchanged { OnErr result (self.new ≡ self.old) }
        ensures rests { OnOk result (self.new ≡ books.with_block self.old block) }
        ensures sound { books.IsBook self.new }
    {
        let Ok(place) = self.blocks.put(block) else {
            return Err(Full);
        };
        self.by_period.join(&self.blocks, place);
        self.by_quantity.join(&self.blocks, place);
        Ok(())
    }

    /// Takes the block of a number out, and answers it: `None` exactly where no block has it, and
    /// then nothing changes.
    pub fn withdraw(&mut self, number: u32) -> Option<RestingBlock>
        ensures block { result ≡ books.block_of self.old number }
        ensures without { self.new ≡ books.without self.old number }
        ensures sound { books.IsBook self.new }
    {
        let place = self.blocks.find(number)?;
        self.by_period.leave(place);
        self.by_quantity.leave(place);
        Some(self.blocks.take(place))
    }

    /// The block of a number: `None` exactly where no block has it.
    pub fn get(&self, number: u32) -> Option<RestingBlock>
        ensures { result ≡ books.block_of self.now number }
    {
        let place = self.blocks.find(number)?;
        Some(*self.blocks.get(place))
    }

    /// The first block of a quantity of a period and side in priority, or `None` where none rests.
    pub fn first(&self, last: u32, quantity: u32, side: Side) -> Option<RestingBlock>
        ensures { result ≡ books.first_of (books.quantity_line self.now last quantity side) }
    {
        let key = LineKey {
            last,
            side,
            quantity: Some(quantity),
        };
        self.by_quantity.first(&self.blocks, key)
    }

    /// The next block of the same period, quantity and side behind a block, or `None` where it is
    /// the last.
    pub fn after(&self, number: u32) -> Option<RestingBlock>
        requires { IsSome (books.block_of self.now number) }
        ensures { IfSome (books.block_of self.now number) (λ block.
            result ≡ books.after_in number (books.quantity_line self.now block.last block.quantity block.side)) }
    {
        let Some(place) = self.blocks.find(number) else {
            unreachable!();
        };
        self.by_quantity.after(&self.blocks, place)
    }

    /// The first block of a period and side in priority, of whatever quantity, or `None` where none
    /// rests.
    pub fn first_any(&self, last: u32, side: Side) -> Option<RestingBlock>
        ensures { result ≡ books.first_of (books.line_of self.now last side) }
    {
        let key = LineKey {
            last,
            side,
            quantity: None,
        };
        self.by_period.first(&self.blocks, key)
    }

    /// The next block of the same period and side behind a block, of whatever quantity, or `None`
    /// where it is the last.
    pub fn after_any(&self, number: u32) -> Option<RestingBlock>
        requires { IsSome (books.block_of self.now number) }
        ensures { IfSome (books.block_of self.now number) (λ block.
            result ≡ books.after_in number (books.line_of self.now block.last block.side)) }
    {
        let Some(place) = self.blocks.find(number) else {
            unreachable!();
        };
        self.by_period.after(&self.blocks, place)
    }
}
