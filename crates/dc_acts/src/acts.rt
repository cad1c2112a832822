ghost use Rattle.std.specs.Prelude.{◌≡◌, ◌≢◌, ◌<◌, ◌≤◌, ◌+◌, ◌-◌, ◌^◌, ◌++◌, ℕ, [], ◌∷◌, OnErr, OnOk, length, min, take, slice_index, slice_index_or};
ghost use Rattle.dc_acts.specs.Counted.{acts_of, cut_acts};

use crate::Reserved;
use dc_limits::PROCESSES;
use dc_model::Taken;
use std::alloc::{AllocError, Global};
use std::marker::Model;

/// The acts of a run, in order. It is seen as their list and the room that was made for it.
#[derive(Drop)]
pub struct Acts {
    items: Reserved<Taken>,
    counts: [u32; PROCESSES],
}

impl Model for Acts {
    ghost use Rattle.dc_acts.specs.Reserved.{Listed};
    ghost use Rattle.dc_acts.specs.Counted.{AreCounted};
    ghost use Rattle.dc_model.specs.declared.act.Taken.{Taken};

    ghost Value = { Listed Taken };

    ghost view = { λ a. a.items };

    ghost invariant = { λ a. AreCounted a.counts a.items.items };
}

impl Acts {
    /// No acts, and no room.
    pub fn new(alloc: Global) -> Acts
        ensures { result.items ≡ [] }
    {
        Acts {
            items: Reserved::new(alloc),
            counts: [0; PROCESSES],
        }
    }

    /// Makes room for more acts.
    pub fn reserve(&mut self, more: usize) -> Result<(), AllocError>
        ensures items { self.new.items ≡ self.old.items }
        ensures room { OnOk result (length self.old.items + more ≤ self.new.room) }
        ensures refused { OnErr result (self.new.room ≡ self.old.room) }
    {
        self.items.reserve(more)
    }

    /// Adds an act where there is room.
    pub fn push(&mut self, taken: Taken)
        requires room { length self.old.items < self.old.room }
        requires process { taken.p < PROCESSES }
        requires few { length self.old.items < 2 ^ 32 - 1 }
        ensures items { self.new.items ≡ self.old.items ++ taken ∷ [] }
        ensures room { self.old.room ≤ self.new.room }
    {
        self.counts[taken.p as usize] += 1;
        self.items.push(taken);
    }

    /// Takes out all acts of a process after its first `reach`. It looks at no act before the first that it takes out.
    pub fn cut(&mut self, p: u32, reach: u32)
        ensures items { self.new.items ≡ cut_acts p reach self.old.items }
        ensures room { self.new.room ≡ self.old.room }
    {
        let count = self.count_of(p);
        if count <= reach {
            return;
        }
        let start = last_from(self.items.as_slice(), p, count - reach);
        cut_items(&mut self.items, p, start);
        cut_count(&mut self.counts, p, reach);
    }

    /// How many acts a process has.
    pub fn count_of(&self, p: u32) -> u32
        ensures { result ≡ acts_of p self.now.items }
    {
        count_in(&self.counts, p)
    }

    /// How many acts there are.
    pub fn len(&self) -> u32
        ensures { result ≡ length self.now.items }
    {
        self.items.len() as u32
    }

    /// The i-th act.
    pub fn at(&self, i: u32) -> &Taken
        requires { i < length self.now.items }
        ensures { result.now ≡ slice_index_or self.now.items i result.now }
    {
        &self.items.as_slice()[i as usize]
    }

    /// The acts.
    pub fn as_slice(&self) -> &[Taken]
        ensures { result.now ≡ self.now.items }
    {
        self.items.as_slice()
    }
}

/// The count of a process; 0 where it has none.
fn count_in(counts: &[u32; PROCESSES], p: u32) -> u32
    ensures { result ≡ slice_index counts.now p }
{
    match counts.get(p as usize) {
        Some(count) => *count,
        None => 0,
    }
}

/// Lowers the count of a process to `reach`.
fn cut_count(counts: &mut [u32; PROCESSES], p: u32, reach: u32)
    ensures own { slice_index counts.new p ≡ min (slice_index counts.old p) reach }
    ensures others { (q : ℕ) → q ≢ p → slice_index counts.new q ≡ slice_index counts.old q }
{
    let i = p as usize;
    if i < PROCESSES && reach < counts[i] {
        counts[i] = reach;
    }
}

/// From where on a process has so many acts, its last ones.
fn last_from(acts: &[Taken], p: u32, count: u32) -> usize
    requires { count ≤ acts_of p acts.now }
    ensures within { result ≤ length acts.now }
    ensures count { acts_of p (take result acts.now) + count ≡ acts_of p acts.now }
{
    let mut left = count;
    for i in (0..acts.len()).rev() {
        if left == 0 {
            return i + 1;
        }
        if acts[i].p == p {
            left -= 1;
        }
    }
    0
}

/// Takes out all acts of a process from the act `start` on, those that stay moving up in order.
fn cut_items(acts: &mut Reserved<Taken>, p: u32, start: usize)
    requires { start ≤ length acts.old.items }
    ensures items { acts.new.items ≡ cut_acts p (acts_of p (take start acts.old.items)) acts.old.items }
    ensures room { acts.new.room ≡ acts.old.room }
{
    let mut kept = start;
    for i in start..acts.len() {
        let taken = acts.as_slice()[i];
        if taken.p != p {
            acts.set(kept, taken);
            kept += 1;
        }
    }
    acts.truncate(kept);
}
