ghost use Rattle.std.specs.Prelude.{refl, ◌≡◌, ◌+◌, ◌<◌, ◌≤◌, ◌^◌, List, ℕ, Option, length, IfSome, OnOk, slice_index, replicate};
ghost use Rattle.std.proofs.Common.{◌∙◌};
ghost use Rattle.dc_media.specs.Calls.{IsCall, IsMaking};
ghost use Rattle.dc_media.specs.Causes.{AreCounted, counted};
ghost use Rattle.dc_media.specs.Stores.{AreSameOrApart, CopiesLine, SetsWord, SetsWords};
ghost use Rattle.dc_media.specs.Told.{showing};

use crate::{DeviceFault, MakeFault, STORES};
use std::alloc::Global;

/// Stores of words, written through: what is stored stays, in the order of the calls.
///
/// Each process has the store of its number. A call touches that store and its counts alone.
pub trait Keeps {
    /// The words of a store, where they are told.
    ghost told: { Self → ℕ → Option (List ℕ) };

    /// How many words a store has, told or not.
    ghost extent: { Self → ℕ → ℕ };

    /// How many calls on a store were stopped.
    ghost stops: { Self → ℕ → ℕ };

    /// How many calls on a store failed.
    ghost faults: { Self → ℕ → ℕ };

    /// How many calls of `store` and `copy_line` were made, refused ones too. Words that are set in a row count as stores of each.
    ghost calls: { Self → ℕ → ℕ };

    /// Whether the second is a later state of the first: what was lent to it stays lent to it.
    ghost continues: { Self → Self → Type 0 };

    /// Makes a store of zeros.
    fn format(&mut self, alloc: Global, p: u32, words: u32) -> Result<(), MakeFault>
        requires { p < STORES }
        ensures making { IsMaking (showing told extent stops faults calls continues) p words self.old self.new result }
        ensures zeros { OnOk result (IfSome (told self.new p) (λ ws. ws ≡ replicate words 0)) };

    /// The word at an index.
    fn load(&self, p: u32, i: u32) -> u32
        requires { i < extent self.now p }
        ensures { IfSome (told self.now p) (λ ws. result ≡ slice_index ws i) };

    /// Sets the word at an index. A refused call leaves it old or new.
    fn store(&mut self, p: u32, i: u32, w: u32) -> Result<(), DeviceFault>
        requires { i < extent self.old p }
        ensures call { IsCall (showing told extent stops faults calls continues) p self.old self.new result }
        ensures word { SetsWord i w result (told self.old p) (told self.new p) }
        ensures calls { calls self.new p ≡ counted (calls self.old p) };

    /// Sets words in a row from an index on, as stores of one after the other would. At a refused one the first of them are set.
    fn store_words(&mut self, p: u32, i: u32, words: &[u32]) -> Result<(), DeviceFault>
        requires { i + length words.now ≤ extent self.old p }
        ensures call { IsCall (showing told extent stops faults calls continues) p self.old self.new result }
        ensures words { SetsWords i words.now result (told self.old p) (told self.new p) }
        ensures calls { AreCounted (length words.now) result (calls self.old p) (calls self.new p) };

    /// Copies a line of 16 words to an index that is the same or lies apart. A refused call copies the first of them, in order.
    fn copy_line(&mut self, p: u32, from: u32, to: u32) -> Result<(), DeviceFault>
        requires source { from + 16 ≤ extent self.old p }
        requires index { to + 16 ≤ extent self.old p }
        requires apart { AreSameOrApart from to }
        ensures call { IsCall (showing told extent stops faults calls continues) p self.old self.new result }
        ensures line { CopiesLine from to result (told self.old p) (told self.new p) }
        ensures calls { calls self.new p ≡ counted (calls self.old p) };

    /// A told store has its extent.
    ghost told_extent: { (s : Self) (p : ℕ) → IfSome (told s p) (λ ws. length ws ≡ extent s p) };

    /// An index of a word fits 32 bits.
    ghost extent_fits: { (s : Self) (p : ℕ) → extent s p < 2 ^ 32 };

    /// A device continues itself.
    ghost continues_self: { (s : Self) → continues s s };

    /// What continues a later state continues the first.
    ghost continues_on: { (s t u : Self) → continues s t → continues t u → continues s u };
}

/// Stores that are lent are stores.
impl<K: Keeps> Keeps for &mut K {
    ghost told = { λ s. K.told s.now };

    ghost extent = { λ s. K.extent s.now };

    ghost stops = { λ s. K.stops s.now };

    ghost faults = { λ s. K.faults s.now };

    ghost calls = { λ s. K.calls s.now };

    ghost continues = { λ s t. s.ghost_name ≡ t.ghost_name };

    ghost told_extent = { λ s. K.told_extent s.now };

    ghost extent_fits = { λ s. K.extent_fits s.now };

    ghost continues_self = { λ s. refl };

    ghost continues_on = { λ s t u first then. first ∙ then };

    fn format(&mut self, alloc: Global, p: u32, words: u32) -> Result<(), MakeFault> {
        (**self).format(alloc, p, words)
    }

    fn load(&self, p: u32, i: u32) -> u32 {
        (**self).load(p, i)
    }

    fn store(&mut self, p: u32, i: u32, w: u32) -> Result<(), DeviceFault> {
        (**self).store(p, i, w)
    }

    fn store_words(&mut self, p: u32, i: u32, words: &[u32]) -> Result<(), DeviceFault> {
        (**self).store_words(p, i, words)
    }

    fn copy_line(&mut self, p: u32, from: u32, to: u32) -> Result<(), DeviceFault> {
        (**self).copy_line(p, from, to)
    }
}
