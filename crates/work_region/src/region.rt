// A region: all words in one list, taken once. Blocks are carved from its front, one behind another.
ghost use Rattle.std.specs.Prelude.{◌≡◌, ◌↔◌, ◌+◌, ◌<◌, ◌≤◌, pos, None, [], length, replicate, slice_index_or, slice_set, IfOk, IfSome, IsNone};
ghost use Rattle.std.specs.Borrow.{sem};

use crate::block::Block;
use std::alloc::{AllocError, Global};
use std::marker::Model;

/// The most words of one region.
pub const REGION_MOST: usize = 1 << 26;

/// Words that are taken once and given out in blocks.
#[derive(Drop)]
pub struct Region {
    words: Vec<i64>,
    // how many words lie in blocks: the first ones
    carved: usize,
    ghost within: { carved ≤ length words.items },
}

impl Model for Region {
    ghost use Rattle.std.specs.Prelude.{◌-◌, take, length};
    ghost use Rattle.work_region.specs.Words.{Words};

    ghost Value = { Words };

    ghost view = { λ region. record {
      carved = take region.carved region.words.items;
      left = length region.words.items - region.carved;
    } };
}

impl Region {
    ghost use Rattle.work_region.specs.Blocks.{IsBlockOf, IsCarved, IsWritten, block_words, reverse_front};
    ghost use Rattle.work_region.specs.Lending.{LendsBlock};

    /// A region of this many words.
    pub fn take(alloc: Global, words: usize) -> Result<Region, AllocError>
        requires { words ≤ REGION_MOST }
        ensures { IfOk result (λ region. (region.carved ≡ []) × (region.left ≡ words)) }
    {
        Ok(Region {
            words: vec![in alloc; 0i64; words]?,
            carved: 0,
        })
    }

    /// How many words lie in no block.
    pub fn left(&self) -> usize
        ensures { result ≡ self.now.left }
    {
        self.words.len() - self.carved
    }

    /// A block of words that lay in no block; they are 0. None where too few are left.
    pub fn carve(&mut self, len: usize) -> Option<Block>
        ensures refused { IsNone result ↔ self.old.left < len }
        ensures stays { result ≡ None → self.new ≡ self.old }
        ensures carved { IfSome result (IsCarved self.old self.new len) }
    {
        if len > self.left() {
            return None;
        }
        let start = self.carved;
        let end = start + len;
        self.words.slice_mut(start..end).fill(0);
        self.carved = end;
        Some(Block { start, len })
    }

    // Where word `i` of the block stands among all words, and where the block ends.
    fn place(&self, block: &Block, i: usize) -> usize
        requires carved { IsBlockOf self.now block.now }
        requires there { i ≤ block.now.len }
        ensures { result ≡ block.now.start + i }
    {
        let _carved = self.carved;
        block.start + i
    }

    pub fn get(&self, block: &Block, i: usize) -> i64
        requires carved { IsBlockOf self.now block.now }
        requires there { i < block.now.len }
        ensures { result ≡ slice_index_or (block_words self.now block.now) i (pos 0) }
    {
        self.words[self.place(block, i)]
    }

    pub fn set(&mut self, block: &Block, i: usize, word: i64)
        requires carved { IsBlockOf self.old block.now }
        requires there { i < block.now.len }
        ensures { IsWritten self.old self.new block.now (slice_set (block_words self.old block.now) i word) }
    {
        let place = self.place(block, i);
        self.words[place] = word;
    }

    /// Writes the word to each place of the block.
    pub fn fill(&mut self, block: &Block, word: i64)
        requires { IsBlockOf self.old block.now }
        ensures { IsWritten self.old self.new block.now (replicate block.now.len word) }
    {
        let end = self.place(block, block.len);
        self.words.slice_mut(block.start..end).fill(word);
    }

    /// Turns the first words of the block round, this many.
    pub fn reverse(&mut self, block: &Block, count: usize)
        requires carved { IsBlockOf self.old block.now }
        requires there { count ≤ block.now.len }
        ensures { IsWritten self.old self.new block.now (reverse_front count (block_words self.old block.now)) }
    {
        let end = self.place(block, count);
        self.words.slice_mut(block.start..end).reverse();
    }

    /// Writes the words of one block to another of the same length.
    pub fn copy_between(&mut self, from: &Block, to: &Block)
        requires from_carved { IsBlockOf self.old from.now }
        requires to_carved { IsBlockOf self.old to.now }
        requires same_length { from.now.len ≡ to.now.len }
        ensures { IsWritten self.old self.new to.now (block_words self.old from.now) }
    {
        let end = self.place(from, from.len);
        self.words.copy_within(from.start..end, to.start);
    }

    /// The words of the block.
    pub fn words(&self, block: &Block) -> &[i64]
        requires { IsBlockOf self.now block.now }
        ensures { result.now ≡ block_words self.now block.now }
    {
        let end = self.place(block, block.len);
        &self.words[block.start..end]
    }

    /// Lends the words of the block.
    pub fn words_mut(&mut self, block: &Block) -> &mut [i64]
        requires { IsBlockOf self.old block.now }
        ensures* writes_back { sem 𝓛 (LendsBlock self.entry block.now result) }
        ensures words { result.now ≡ block_words self.old block.now }
    {
        let end = self.place(block, block.len);
        self.words.slice_mut(block.start..end)
    }
}
