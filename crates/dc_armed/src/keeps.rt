ghost use Rattle.std.specs.Prelude.{◌≡◌, ◌≢◌, ◌+◌, ◌<◌, ◌≤◌, ℕ, false, length, None, IfSome, OnOk, replicate};
ghost use Rattle.dc_media.specs.Calls.{IsCall, IsMaking, Touches};
ghost use Rattle.dc_media.specs.Causes.{AreCounted, counted, counted_by};
ghost use Rattle.dc_media.specs.Stores.{AreSameOrApart, CopiesLine, SetsWord, SetsWords, copied};
ghost use Rattle.dc_media.specs.Devices.{of_words};
ghost use Rattle.dc_media.specs.Told.{showing};
ghost use Rattle.dc_armed.specs.Armed.{all_calls, all_stops, armed, within, ComesOrRefused, IsPassedOn, IsPlannedAlone, IsLater};
ghost use Rattle.dc_armed.specs.Torn.{at_once, copy_calls, kept_words, torn_store};
ghost use Rattle.dc_armed.specs.Rows.{AreCountedDown, ComesInRow, due_within, row_calls};
ghost use Rattle.dc_armed.specs.Stops.{after_answer, calls_to, came_to, due, fewer_by, one_fewer, waiting_for, waits_within, Waits};
ghost use Rattle.dc_armed.specs.Laws.{later_on, later_self};

use crate::Armed;
use crate::torn::{torn_copy, torn_store};
use dc_media::{DeviceFault, Keeps, MakeFault, STORES};
use std::alloc::Global;

/// Stores of words with planned stops. A store and a copied line are counted as calls, and words in a row as stores of each.
impl<K: Keeps> Keeps for Armed<K> {
    ghost told = { within K.told };

    ghost extent = { within K.extent };

    ghost stops = { all_stops K.stops };

    ghost faults = { within K.faults };

    ghost calls = { all_calls };

    ghost continues = { λ s t. IsLater (of_words K.Keeps) s t };

    ghost told_extent = { λ a. K.told_extent a.device };

    ghost extent_fits = { λ a. K.extent_fits a.device };

    ghost continues_self = { λ s. later_self (showing K.told K.extent K.stops K.faults K.calls K.continues) K.continues_self s };

    ghost continues_on = { λ s t u first then. later_on (showing K.told K.extent K.stops K.faults K.calls K.continues) K.continues_on s t u first then };

    fn format(&mut self, alloc: Global, p: u32, words: u32) -> Result<(), MakeFault>
        requires { p < STORES }
        ensures making { IsMaking (armed (of_words K.Keeps)) p words self.old self.new result }
        ensures zeros { OnOk result (IfSome (K.told self.new.device p) (λ ws. ws ≡ replicate words 0)) }

        // the device within
        ensures touches { Touches (of_words K.Keeps) p self.old.device self.new.device }
        ensures uncounted { K.calls self.new.device p ≡ K.calls self.old.device p }

        // no planned stop comes
        ensures plan { self.new.plan ≡ self.old.plan }
    {
        self.device.format(alloc, p, words)
    }

    fn load(&self, p: u32, i: u32) -> u32 {
        self.device.load(p, i)
    }

    /// At a planned stop the word stays where nothing is kept, and is set otherwise.
    ///
    /// The answer is then `Stopped`, unless the device refuses the call, which is handed on.
    fn store(&mut self, p: u32, i: u32, w: u32) -> Result<(), DeviceFault>
        requires { i < K.extent self.old.device p }
        ensures call { IsCall (armed (of_words K.Keeps)) p self.old self.new result }
        ensures word { SetsWord i w result (K.told self.old.device p) (K.told self.new.device p) }
        ensures calls { calls_to self.new.plan p ≡ counted (calls_to self.old.plan p) }

        // the device within
        ensures touches { Touches (of_words K.Keeps) p self.old.device self.new.device }

        // what a planned stop does, and what waits after a call
        ensures once { due self.old.plan p ≡ None → K.calls self.new.device p ≡ counted (K.calls self.old.device p) }
        ensures passes { due self.old.plan p ≡ None → IsPassedOn (of_words K.Keeps) p result self.old self.new }
        ensures stops { IfSome (due self.old.plan p) (λ tear. ComesOrRefused (of_words K.Keeps) p (record { leaves = torn_store tear i w; calls = at_once tear.keep }) result self.old self.new) }
        ensures unmade { IfSome (due self.old.plan p) (λ tear. tear.keep ≡ 0 → IsPlannedAlone p result self.old self.new) }
        ensures parts { IfSome (due self.old.plan p) (λ tear. K.calls self.new.device p ≡ counted_by (at_once tear.keep) (K.calls self.old.device p)) }
        ensures waits { Waits p (after_answer result (one_fewer (waiting_for self.old.plan p))) self.old.plan self.new.plan }
        ensures elsewhere { (q : ℕ) → q ≢ p → came_to self.new.plan q ≡ came_to self.old.plan q }
    {
        match self.plan.call(p) {
            None => {
                let done = self.device.store(p, i, w);
                self.plan.heeded(p, done)
            }
            Some(tear) => {
                let done = torn_store(&mut self.device, tear, p, i, w);
                self.plan.comes(p, done)
            }
        }
    }

    /// Where no planned stop waits for one of these stores, the words are set by one call of the device; else by a store of each.
    fn store_words(&mut self, p: u32, i: u32, words: &[u32]) -> Result<(), DeviceFault>
        requires { i + length words.now ≤ K.extent self.old.device p }
        ensures call { IsCall (armed (of_words K.Keeps)) p self.old self.new result }
        ensures words { SetsWords i words.now result (K.told self.old.device p) (K.told self.new.device p) }
        ensures calls { AreCounted (length words.now) result (calls_to self.old.plan p) (calls_to self.new.plan p) }

        // the device within
        ensures touches { Touches (of_words K.Keeps) p self.old.device self.new.device }

        // what a planned stop does, and what waits after it
        ensures stops { IfSome (due_within (length words.now) (waiting_for self.old.plan p)) (λ stop. ComesInRow (of_words K.Keeps) p stop (record { index = i; words = words.now }) result self.old self.new) }
        ensures parts { IfSome (due_within (length words.now) (waiting_for self.old.plan p)) (λ stop. (made : ℕ) × (made ≤ row_calls stop) × (K.calls self.new.device p ≡ counted_by made (K.calls self.old.device p))) }
        ensures left { IfSome (due_within (length words.now) (waiting_for self.old.plan p)) (λ stop. AreCountedDown stop.calls p result self.old.plan self.new.plan) }
        ensures elsewhere { (q : ℕ) → q ≢ p → came_to self.new.plan q ≡ came_to self.old.plan q }

        // where no stop waits for one of them: the device's own answer and calls, and what waits then
        ensures passes { waits_within (length words.now) (waiting_for self.old.plan p) ≡ false → IsPassedOn (of_words K.Keeps) p result self.old self.new }
        ensures once { waits_within (length words.now) (waiting_for self.old.plan p) ≡ false → AreCounted (length words.now) result (K.calls self.old.device p) (K.calls self.new.device p) }
        ensures waits { waits_within (length words.now) (waiting_for self.old.plan p) ≡ false → Waits p (after_answer result (fewer_by (length words.now) (waiting_for self.old.plan p))) self.old.plan self.new.plan }
    {
        let count = words.len() as u64;
        if self.plan.waits_within(p, count) {
            return self.store_each(p, i, words);
        }
        self.plan.call_in_row(p, count);
        let done = self.device.store_words(p, i, words);
        self.plan.heeded(p, done)
    }

    /// At a planned stop as many words are copied as are kept, one by one, or all of them by one call.
    ///
    /// The answer is then `Stopped`, unless the device refuses a call, which is handed on.
    fn copy_line(&mut self, p: u32, from: u32, to: u32) -> Result<(), DeviceFault>
        requires source { from + 16 ≤ K.extent self.old.device p }
        requires index { to + 16 ≤ K.extent self.old.device p }
        requires apart { AreSameOrApart from to }
        ensures call { IsCall (armed (of_words K.Keeps)) p self.old self.new result }
        ensures line { CopiesLine from to result (K.told self.old.device p) (K.told self.new.device p) }
        ensures calls { calls_to self.new.plan p ≡ counted (calls_to self.old.plan p) }

        // the device within
        ensures touches { Touches (of_words K.Keeps) p self.old.device self.new.device }

        // what a planned stop does, and what waits after a call
        ensures once { due self.old.plan p ≡ None → K.calls self.new.device p ≡ counted (K.calls self.old.device p) }
        ensures passes { due self.old.plan p ≡ None → IsPassedOn (of_words K.Keeps) p result self.old self.new }
        ensures stops { IfSome (due self.old.plan p) (λ tear. ComesOrRefused (of_words K.Keeps) p (record { leaves = copied (kept_words tear) from to; calls = copy_calls (kept_words tear) }) result self.old self.new) }
        ensures unmade { IfSome (due self.old.plan p) (λ tear. tear.keep ≡ 0 → IsPlannedAlone p result self.old self.new) }
        ensures parts { IfSome (due self.old.plan p) (λ tear. (made : ℕ) × (made ≤ copy_calls (kept_words tear)) × (K.calls self.new.device p ≡ counted_by made (K.calls self.old.device p))) }
        ensures waits { Waits p (after_answer result (one_fewer (waiting_for self.old.plan p))) self.old.plan self.new.plan }
        ensures elsewhere { (q : ℕ) → q ≢ p → came_to self.new.plan q ≡ came_to self.old.plan q }
    {
        match self.plan.call(p) {
            None => {
                let done = self.device.copy_line(p, from, to);
                self.plan.heeded(p, done)
            }
            Some(tear) => {
                let done = torn_copy(&mut self.device, tear, p, from, to);
                self.plan.comes(p, done)
            }
        }
    }
}

impl<K: Keeps> Armed<K> {
    /// Sets words in a row by a store of each, until one is refused.
    ///
    /// What is told stays told also where so many planned stops came that their count stands still.
    fn store_each(&mut self, p: u32, i: u32, words: &[u32]) -> Result<(), DeviceFault>
        requires { i + length words.now ≤ K.extent self.old.device p }
        ensures call { IsCall (armed (of_words K.Keeps)) p self.old self.new result }
        ensures words { SetsWords i words.now result (K.told self.old.device p) (K.told self.new.device p) }
        ensures calls { AreCounted (length words.now) result (calls_to self.old.plan p) (calls_to self.new.plan p) }

        // the device within
        ensures touches { Touches (of_words K.Keeps) p self.old.device self.new.device }

        // what a planned stop does, and what waits after it
        ensures stops { IfSome (due_within (length words.now) (waiting_for self.old.plan p)) (λ stop. ComesInRow (of_words K.Keeps) p stop (record { index = i; words = words.now }) result self.old self.new) }
        ensures parts { IfSome (due_within (length words.now) (waiting_for self.old.plan p)) (λ stop. (made : ℕ) × (made ≤ row_calls stop) × (K.calls self.new.device p ≡ counted_by made (K.calls self.old.device p))) }
        ensures left { IfSome (due_within (length words.now) (waiting_for self.old.plan p)) (λ stop. AreCountedDown stop.calls p result self.old.plan self.new.plan) }
        ensures elsewhere { (q : ℕ) → q ≢ p → came_to self.new.plan q ≡ came_to self.old.plan q }
    {
        let mut at = i;
        for word in words {
            let done = self.store(p, at, *word);
            if done.is_err() {
                return done;
            }
            at += 1;
        }
        Ok(())
    }
}
