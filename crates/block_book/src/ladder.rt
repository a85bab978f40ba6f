//! Lines of blocks, found by what their blocks have in common.

ghost use Rattle.std.specs.Prelude.{◌≡◌, ℕ, List, Option, replicate, None, IsSome, IfOk, IfSome, slice_set};
ghost use Rattle.std.specs.Option.{ForSome};
ghost use Rattle.order_pool.specs.Lines.{StandsIn};
ghost use Rattle.record_pool.specs.Keyed.{held_at, AreKeyed};
ghost use Rattle.block_book.specs.declared.block.RestingBlock.{RestingBlock as Block};
ghost use Rattle.block_book.specs.Blocks.{number_of};
ghost use Rattle.block_book.specs.Book.{after_in, first_of};
ghost use Rattle.block_book.specs.Inside.{IsLadder, book_in, first_from, key_by, key_ring, line_by};

use crate::block::RestingBlock;
use crate::line_key::{Grain, LineKey};
use order_pool::{PLACES, Rings};
use record_pool::{KeyedPool, spot};
use std::alloc::Global;
use zone_graph::NoMemory;

/// Lines of blocks. A line is in the ring whose number its key tells: the ring has the blocks of
/// all keys of that number, in priority, so that those of one key are met in it in their order.
#[derive(Drop)]
pub struct Ladder {
    pub grain: Grain,
    pub rings: Rings,
}

impl Ladder {
    /// Lines in which no block stands.
    pub fn new(alloc: Global, grain: Grain) -> Result<Ladder, NoMemory>
        ensures grain { IfOk result (λ ladder. ladder.grain ≡ grain) }
        ensures sound { IfOk result (λ ladder. IsLadder (replicate 4096 None) ladder) }
    {
        let Ok(rings) = Rings::new(alloc, PLACES) else {
            return Err(NoMemory);
        };
        Ok(Ladder { grain, rings })
    }

    /// The same lines.
    pub fn copy(&self) -> Result<Ladder, NoMemory>
        ensures same { IfOk result (λ ladder. ladder ≡ self.now) }
    {
        let Ok(rings) = self.rings.copy() else {
            return Err(NoMemory);
        };
        Ok(Ladder {
            grain: self.grain,
            rings,
        })
    }

    /// Puts the block of a place in priority into its line.
    pub fn join(&mut self, blocks: &KeyedPool<RestingBlock>, place: u32)
        requires sound { IsLadder (slice_set blocks.now place None) self.old }
        requires keyed { AreKeyed number_of blocks.now }
        requires held { IsSome (held_at blocks.now place) }
        ensures grain { self.new.grain ≡ self.old.grain }
        ensures sound { IsLadder blocks.now self.new }
    {
        let block = *blocks.get(place);
        let ring = self.grain.key_of(&block).ring();
        let before = spot(blocks, &self.rings, ring, block.side, &block);
        self.rings.insert(ring, before, place);
    }

    /// Takes the block of a place out of its line.
    pub fn leave(&mut self, place: u32)
        requires { (ring : ℕ) × StandsIn self.old.rings ring place }
        ensures grain { self.new.grain ≡ self.old.grain }
        ensures sound { (places : List (Option Block)) → IsLadder places self.old → IsSome (held_at places place)
            → IsLadder (slice_set places place None) self.new }
    {
        self.rings.remove(place);
    }

    /// The first block of the line of a key.
    pub fn first(&self, blocks: &KeyedPool<RestingBlock>, key: LineKey) -> Option<RestingBlock>
        requires sound { IsLadder blocks.now self.now }
        requires keyed { AreKeyed number_of blocks.now }
        ensures { result ≡ first_of (line_by self.now.grain (book_in blocks.now) key) }
    {
        self.find_from(blocks, key, self.rings.first(key.ring()))
    }

    /// The block behind that of a place in its line.
    pub fn after(&self, blocks: &KeyedPool<RestingBlock>, place: u32) -> Option<RestingBlock>
        requires sound { IsLadder blocks.now self.now }
        requires keyed { AreKeyed number_of blocks.now }
        requires held { IsSome (held_at blocks.now place) }
        ensures { IfSome (held_at blocks.now place) (λ block.
            result ≡ after_in block.number (line_by self.now.grain (book_in blocks.now) (key_by self.now.grain block))) }
    {
        let key = self.grain.key_of(blocks.get(place));
        self.find_from(blocks, key, self.rings.next(place))
    }

    // The first block of a key from a place of the key's ring on.
    fn find_from(
        &self,
        blocks: &KeyedPool<RestingBlock>,
        key: LineKey,
        from: Option<u32>,
    ) -> Option<RestingBlock>
        requires sound { IsLadder blocks.now self.now }
        requires from { ForSome from (λ place. StandsIn self.now.rings (key_ring key) place) }
        ensures { result ≡ first_from self.now blocks.now key from }
    {
        let mut at = from;
        while let Some(place) = at {
            let block = blocks.get(place);
            if self.grain.is_key_of(key, block) {
                return Some(*block);
            }
            at = self.rings.next(place);
        }
        None
    }
}
