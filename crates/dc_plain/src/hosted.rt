ghost use Rattle.std.specs.Prelude.{◌≡◌, ◌≢◌, ◌≤◌, ◌<◌, ◌*◌, ◌%◌, ◌^◌, false, IfSome, Some, length};
ghost use Rattle.dc_plain.specs.Playing.{ending_of, regs_of};
ghost use Rattle.dc_calls.specs.Calls.{Fits};
ghost use Rattle.dc_guest.specs.Answers.{answer_of, effect_of};
ghost use Rattle.dc_guest.specs.Guest.{after_answer, coming, next_of, started};
ghost use Rattle.dc_guest.specs.Nexts.{IfRetired, IfWaits, IsSentBy, IsToAnother, NextFits, Waits, called_by};
ghost use Rattle.dc_model.specs.Guests.Answer.{Plain};
ghost use Rattle.dc_words.specs.Words.{bytes_in};

use crate::memory::Memory;
use dc_calls::Call;
use dc_events::Next;
use dc_guest::{Answer, Effect, Guest};
use dc_isa::Regs;
use dc_rv32::Bus;
use std::marker::Model;

/// A guest with a memory of its own, which never stops.
#[derive(Drop)]
pub struct HostedGuest {
    guest: Guest,
    memory: Memory,
    /// What it did last, where that ended it.
    last: Next,
}

impl Model for HostedGuest {
    ghost use Rattle.std.specs.Prelude.{◌≡◌, true};
    ghost use Rattle.dc_guest.specs.Guest as model;

    ghost Value = { model.Guest };

    ghost view = { λ h. model.over h.guest h.memory.words.items };

    ghost invariant = { λ h. h.guest.ended ≡ true → model.next_of (model.over h.guest h.memory.words.items) ≡ h.last };
}

impl HostedGuest {
    /// Guest `number` of `count`, that begins with these words as its memory at this entry.
    #[tactic(auto, using(dc_words::proofs::Bytes::bytes_long))]
    pub fn new(number: u32, count: u32, words: Vec<u32>, entry: u32) -> HostedGuest
        requires long { 4 ≤ length words.items }
        requires short { 4 * length words.items < 2 ^ 32 }
        requires aligned { entry % 4 ≡ 0 }
        ensures { result ≡ started number count (Some (record { memory = bytes_in words.items; entry = entry })) }
    {
        let memory = Memory { words };
        let guest = Guest::new(number, count, memory.size(), entry);
        HostedGuest {
            guest,
            memory,
            last: Next::Retire,
        }
    }

    /// Whether it has ended.
    pub fn has_ended(&self) -> bool
        ensures { result ≡ self.now.ended }
    {
        self.guest.has_ended()
    }

    /// What it did last, where that ended it.
    pub fn ending(&self) -> Option<Next>
        ensures { result ≡ ending_of self.now }
    {
        if self.guest.has_ended() {
            Some(self.last)
        } else {
            None
        }
    }

    /// Its registers.
    pub fn regs(&self) -> &Regs
        ensures { result.now ≡ regs_of self.now }
    {
        self.guest.regs()
    }

    /// The words of its memory.
    pub fn words(&self) -> &[u32]
        ensures { bytes_in result.now ≡ self.now.machine.memory }
    {
        &self.memory.words
    }

    /// The call that it makes next, if its next event is one. Nothing is run.
    #[tactic(auto, using(dc_words::proofs::Bytes::bytes_long))]
    pub fn next_call(&self) -> Option<Call>
        ensures exact { result ≡ called_by (next_of self.now) }
        ensures fits { IfSome result (Fits (length self.now.machine.memory) self.now.number self.now.count) }
    {
        self.guest.next_call(&self.memory)
    }

    /// What it does next. An instruction that retires is taken at once; a call or a trap waits to be taken.
    #[tactic(auto, using(dc_words::proofs::Bytes::bytes_long))]
    pub fn next(&mut self) -> Next
        requires { self.old.ended ≡ false }
        ensures next { result ≡ next_of self.old }
        ensures fits { NextFits (length self.old.machine.memory) self.old.number self.old.count result }
        ensures taken { IfRetired result (self.new ≡ after_answer self.old Plain) }
        ensures waits { IfWaits result (self.new ≡ self.old) }
    {
        match self.guest.next(&mut self.memory) {
            Ok(next) => next,
            Err(never) => match never {},
        }
    }

    /// Takes a call or a trap that waits, with its answer, and says what others see of it.
    #[tactic(auto, using(dc_words::proofs::Bytes::bytes_long))]
    pub fn take(&mut self, next: &Next, answer: &Answer) -> Effect
        requires runs { self.old.ended ≡ false }
        requires next { next.now ≡ next_of self.old }
        requires fits { NextFits (length self.old.machine.memory) self.old.number self.old.count next.now }
        requires waits { Waits next.now }
        ensures after { self.new ≡ after_answer self.old (answer_of answer.now) }
        ensures effect { result ≡ effect_of (coming self.old) }
        ensures sent { IsSentBy next.now result }
    {
        match self.guest.take(&mut self.memory, next, answer) {
            Ok(effect) => {
                self.last = *next;
                effect
            }
            Err(never) => match never {},
        }
    }

    /// Takes its next event with this answer, and says what others see of it.
    pub fn turn(&mut self, answer: &Answer) -> Effect
        requires { self.old.ended ≡ false }
        ensures after { self.new ≡ after_answer self.old (answer_of answer.now) }
        ensures effect { result ≡ effect_of (coming self.old) }
        ensures receiver { IsToAnother self.old result }
    {
        match self.next() {
            Next::Retire => Effect::Nothing,
            next => self.take(&next, answer),
        }
    }
}
