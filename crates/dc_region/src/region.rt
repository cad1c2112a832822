//! A region: a row of words that can be read, set and copied by the line.
ghost use Rattle.std.specs.Prelude.{◌≡◌, ◌+◌, ◌*◌, ◌^◌, ◌<◌, ◌≤◌, Some, length, replicate, IfOk, slice_index, slice_set};
ghost use Rattle.dc_media.specs.Stores.{AreSameOrApart, copied, set_words};

use crate::block::{Base, Deed, Words, allocate, deallocate};
use std::alloc::{AllocError, Global};
use std::marker::Model;
use std::mem::size_of;

/// How many words a line has.
const LINE: usize = 16;

/// The most words that a block can have, since its size in bytes fits an `isize`.
const MOST_WORDS: usize = isize::MAX as usize / size_of::<u32>();

/// A row of words in memory of its own, which is freed at its end.
///
/// The words lie in one block from the allocator and are reached through a pointer. Contracts see a region as the list of its words.
pub struct Region {
    base: Base,
    len: usize,
    words: Words,
    deed: Deed<Global>,
    alloc: Global,
}

impl Model for Region {
    ghost use Rattle.std.specs.Prelude.{ℕ, List};
    ghost use Rattle.dc_region.specs.Cells.{held};
    ghost use Rattle.dc_region.specs.Block.{IsBlock};

    ghost Value = { List ℕ };

    ghost view = { λ r. held r.words.slots };

    ghost invariant = { λ r. IsBlock r.base r.len r.words r.deed r.alloc };
}

/// Puts a zero into each of the cells.
fn fill(words: &mut Words, base: Base, len: usize)
    requires { (base.ptr ≡ words.old.at) × (length words.old.slots ≡ len) }
    ensures { (words.new.at ≡ words.old.at) × (words.new.slots ≡ replicate len (Some 0)) }
{
    for i in 0..len {
        words.put(base, i, 0);
    }
}

impl Region {
    /// So many words, each zero.
    pub fn new(alloc: Global, words: usize) -> Result<Region, AllocError>
        ensures { IfOk result (λ region. region ≡ replicate words 0) }
    {
        if words > MOST_WORDS {
            return Err(AllocError);
        }
        let (base, mut cells, deed) = allocate(&alloc, words)?;
        fill(&mut cells, base, words);
        Ok(Region {
            base,
            len: words,
            words: cells,
            deed,
            alloc,
        })
    }

    /// The words, first to last.
    pub fn words(&self) -> &[u32]
        ensures { result.now ≡ self.now }
    {
        self.words.all(self.base, self.len)
    }

    /// The word at an index.
    pub fn load(&self, i: usize) -> u32
        requires { i < length self.now }
        ensures { result ≡ slice_index self.now i }
    {
        self.words.get(self.base, i)
    }

    /// Sets the word at an index.
    pub fn store(&mut self, i: usize, word: u32)
        requires { i < length self.old }
        ensures { self.new ≡ slice_set self.old i word }
    {
        self.words.put(self.base, i, word);
    }

    /// Sets words in a row from an index on.
    pub fn store_words(&mut self, i: usize, words: &[u32])
        requires { i + length words.now ≤ length self.old }
        ensures { self.new ≡ set_words (length words.now) i words.now self.old }
    {
        // so the indices below fit
        prove!(i <= self.len && words.len() <= self.len - i);
        for k in 0..words.len() {
            self.store(i + k, words[k]);
        }
    }

    /// Copies a line of 16 words to a cell that is the same or lies apart.
    pub fn copy_line(&mut self, from: usize, to: usize)
        requires source { from + 16 ≤ length self.old }
        requires index { to + 16 ≤ length self.old }
        requires apart { AreSameOrApart from to }
        ensures { self.new ≡ copied 16 from to self.old }
    {
        self.copy_front(from, to, LINE);
    }

    /// Copies only the first words of a line.
    pub fn copy_front(&mut self, from: usize, to: usize, count: usize)
        requires few { count ≤ 16 }
        requires source { from + 16 ≤ length self.old }
        requires index { to + 16 ≤ length self.old }
        requires apart { AreSameOrApart from to }
        ensures { self.new ≡ copied count from to self.old }
    {
        // so the indices below fit
        prove!(from < self.len && to < self.len);
        for k in 0..count {
            let word = self.load(from + k);
            self.store(to + k, word);
        }
    }
}

impl Drop for Region {
    fn drop(self) {
        let Region {
            base,
            len,
            words,
            deed,
            alloc,
        } = self;
        deallocate(&alloc, base, len, words, deed);
    }
}
