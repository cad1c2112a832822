ghost use Rattle.std.specs.Prelude.{◌≡◌, ◌≤◌, ◌<◌, ◌*◌, ◌%◌, ◌^◌, ℕ, List, false, IfErr, IfOk, IfSome, OnErr, OnOk, Some, length, slice_index, true};
ghost use Rattle.dc_guest.specs.Answers.{answer_of, effect_of};
ghost use Rattle.dc_guest.specs.Guest.{after_next, call_at, ends, event_of, machine_over, next_of, over, started};
ghost use Rattle.dc_guest.specs.Nexts.{IfRetired, IfWaits, IsSameGuest, IsSentBy, NextFits, Waits, called_by, stored_by};
ghost use Rattle.dc_media.specs.Told.{Becomes};
ghost use Rattle.dc_model.specs.Guests.Answer.{Plain};
ghost use Rattle.dc_rv32.specs.Machine.{stores};
ghost use Rattle.dc_rv32.specs.Stores.{BreakOff, Follow, OnceAtMost};
ghost use Rattle.dc_words.specs.Words.{bytes_in};

use crate::answer::Answer;
use crate::effect::Effect;
use crate::seeing::{message, text};
use crate::taking::{hand_over, reply_to};
use dc_calls::{Call, read_call};
use dc_events::Next;
use dc_isa::Regs;
use dc_model::Body;
use dc_rv32::{Bus, Stepped, is_call, step};
use std::marker::Model;

/// A guest beside its memory: its number, how many there are, its registers, and whether it has ended.
#[derive(Drop)]
pub struct Guest {
    number: u32,
    count: u32,
    regs: Regs,
    ended: bool,
}

impl Model for Guest {
    ghost use Rattle.std.specs.Prelude.{◌≡◌, ◌%◌, slice_index};
    ghost use Rattle.dc_guest.specs.Guest.{Bare};

    ghost Value = { Bare };

    ghost view = { λ g. record { number = g.number; count = g.count; registers = g.regs.x; pc = g.regs.pc; ended = g.ended } };

    ghost invariant = { λ g. (g.regs.pc % 4 ≡ 0) × (slice_index g.regs.x 0 ≡ 0) };
}

impl Guest {
    /// Guest `number` of `count`, that begins at this entry in a memory of so many bytes, its stack pointer 16 below the size.
    pub fn new(number: u32, count: u32, size: u32, entry: u32) -> Guest
        requires long { 16 ≤ size }
        requires aligned { entry % 4 ≡ 0 }
        ensures { (words : List ℕ) → length (bytes_in words) ≡ size → over result words ≡ started number count (Some (record { memory = bytes_in words; entry = entry })) }
    {
        let mut x = [0; 32];
        x[2] = size - 16;
        Guest {
            number,
            count,
            regs: Regs { x, pc: entry },
            ended: false,
        }
    }

    /// Guest `number` of `count` at these registers.
    pub fn at(number: u32, count: u32, regs: Regs, ended: bool) -> Guest
        requires aligned { regs.pc % 4 ≡ 0 }
        requires zero { slice_index regs.x 0 ≡ 0 }
        ensures { result ≡ record { number = number; count = count; registers = regs.x; pc = regs.pc; ended = ended } }
    {
        Guest {
            number,
            count,
            regs,
            ended,
        }
    }

    /// Its registers.
    pub fn regs(&self) -> &Regs
        ensures regs { result.now ≡ record { x = self.now.registers; pc = self.now.pc } }
        ensures aligned { result.now.pc % 4 ≡ 0 }
        ensures zero { slice_index result.now.x 0 ≡ 0 }
    {
        &self.regs
    }

    /// Whether it has ended.
    pub fn has_ended(&self) -> bool
        ensures { result ≡ self.now.ended }
    {
        self.ended
    }

    /// The call that it makes next, if its next event is one. Nothing is run.
    pub fn next_call<B: Bus>(&self, bus: &B) -> Option<Call>
        requires { B.live bus.now }
        ensures exact { IfSome (B.told bus.now) (λ words. result ≡ called_by (next_of (over self.now words))) }
        ensures fits { IfSome result (λ call. NextFits (4 * B.count bus.now) self.now.number self.now.count (Next.Call call)) }
    {
        if is_call(&self.regs, bus) {
            Some(self.asked(bus))
        } else {
            None
        }
    }

    /// What it does next. An instruction that retires is taken at once; at a call or a trap nothing changes, and it waits to be
    /// taken. Where the memory stops a store the guest is as it was.
    pub fn next<B: Bus>(&mut self, bus: &mut B) -> Result<Next, B::Stop>
        requires runs { self.old.ended ≡ false }
        requires live { B.live bus.old }
        ensures next { IfOk result (λ next. IfSome (B.told bus.old) (λ words. next ≡ next_of (over self.old words))) }
        ensures fits { IfOk result (NextFits (4 * B.count bus.old) self.old.number self.old.count) }
        ensures taken { IfOk result (λ next. IfRetired next (Becomes (B.told bus.old) (B.told bus.new) (λ before after.
            over self.new after ≡ after_next next Plain (over self.old before)))) }
        ensures waits { IfOk result (λ next. IfWaits next ((self.new ≡ self.old) × (bus.new ≡ bus.old))) }
        ensures same { IsSameGuest self.old self.new }
        ensures runs { self.new.ended ≡ false }
        ensures kept { OnErr result (self.new ≡ self.old) }

        // what became of the memory
        ensures count { B.count bus.new ≡ B.count bus.old }
        ensures live { OnOk result (B.live bus.new) }
        ensures once { OnOk result (OnceAtMost B.made bus.old bus.new) }
        ensures refused { IfErr result (λ why. (i : ℕ) × B.refused bus.old i bus.new why) }
        ensures reached { OnErr result (IfSome (B.told bus.old) (λ words. next_of (over self.old words) ≡ Next.Retire)) }
        ensures storing { OnErr result (IfSome (B.told bus.old) (λ words. stores (machine_over self.old words) ≡ true)) }
    {
        match step(&mut self.regs, bus) {
            Ok(Stepped::Retired) => Ok(Next::Retire),
            Ok(Stepped::Call) => Ok(Next::Call(self.asked(bus))),
            Ok(Stepped::Trap(cause)) => Ok(Next::Trap(cause)),
            Err(stop) => Err(stop),
        }
    }

    /// Takes a call or a trap that waits, with its answer, and says what others see of it. What is shown or sent is as it was before the
    /// answer. Where the memory stops a store the guest is as it was, and the first bytes may be there.
    pub fn take<B: Bus>(
        &mut self,
        bus: &mut B,
        next: &Next,
        answer: &Answer,
    ) -> Result<Effect, B::Stop>
        requires runs { self.old.ended ≡ false }
        requires live { B.live bus.old }
        requires waits { Waits next.now }
        requires fits { NextFits (4 * B.count bus.old) self.old.number self.old.count next.now }
        ensures effect { IfOk result (λ effect. IfSome (B.told bus.old) (λ words. effect ≡ effect_of (event_of next.now (machine_over self.old words)))) }
        ensures sent { IfOk result (IsSentBy next.now) }
        ensures taken { OnOk result (Becomes (B.told bus.old) (B.told bus.new) (λ before after. over self.new after ≡ after_next next.now (answer_of answer.now) (over self.old before))) }
        ensures ended { OnOk result (self.new.ended ≡ ends next.now) }
        ensures same { IsSameGuest self.old self.new }
        ensures kept { OnErr result (self.new ≡ self.old) }

        // what became of the memory
        ensures count { B.count bus.new ≡ B.count bus.old }
        ensures live { OnOk result (B.live bus.new) }
        ensures made { OnOk result (Follow B.made (stored_by next.now (answer_of answer.now)) bus.old bus.new) }
        ensures refused { IfErr result (λ why. BreakOff B.made B.refused (stored_by next.now (answer_of answer.now)) bus.old bus.new why) }
    {
        let effect = self.effect(bus, next);
        self.advance(bus, next, answer)?;
        Ok(effect)
    }

    /// Goes past a call or a trap that waits, with its answer: `take` without what others see of it, for a caller that asked before.
    pub fn advance<B: Bus>(
        &mut self,
        bus: &mut B,
        next: &Next,
        answer: &Answer,
    ) -> Result<(), B::Stop>
        requires runs { self.old.ended ≡ false }
        requires live { B.live bus.old }
        requires waits { Waits next.now }
        requires fits { NextFits (4 * B.count bus.old) self.old.number self.old.count next.now }
        ensures taken { OnOk result (Becomes (B.told bus.old) (B.told bus.new) (λ before after. over self.new after ≡ after_next next.now (answer_of answer.now) (over self.old before))) }
        ensures ended { OnOk result (self.new.ended ≡ ends next.now) }
        ensures same { IsSameGuest self.old self.new }
        ensures kept { OnErr result (self.new ≡ self.old) }

        // what became of the memory
        ensures count { B.count bus.new ≡ B.count bus.old }
        ensures live { OnOk result (B.live bus.new) }
        ensures made { OnOk result (Follow B.made (stored_by next.now (answer_of answer.now)) bus.old bus.new) }
        ensures refused { IfErr result (λ why. BreakOff B.made B.refused (stored_by next.now (answer_of answer.now)) bus.old bus.new why) }
    {
        match *next {
            Next::Retire => Ok(()),
            Next::Trap(_) => {
                self.ended = true;
                Ok(())
            }
            Next::Call(call) => self.take_call(bus, call, answer),
        }
    }

    /// The call that its registers make.
    fn asked<B: Bus>(&self, bus: &B) -> Call
        requires { B.live bus.now }
        ensures exact { (words : List ℕ) → length words ≡ B.count bus.now → result ≡ call_at (over self.now words) }
        ensures fits { NextFits (4 * B.count bus.now) self.now.number self.now.count (Next.Call result) }
    {
        read_call(&self.regs, bus.size(), self.number, self.count)
    }

    /// What others see of a call or a trap that waits.
    pub fn effect<B: Bus>(&self, bus: &B, next: &Next) -> Effect
        requires live { B.live bus.now }
        requires fits { NextFits (4 * B.count bus.now) self.now.number self.now.count next.now }
        ensures effect { IfSome (B.told bus.now) (λ words. result ≡ effect_of (event_of next.now (machine_over self.now words))) }
        ensures sent { IsSentBy next.now result }
    {
        match *next {
            Next::Trap(cause) => Effect::Shows(Body::Trap(cause, self.regs.pc)),
            Next::Call(Call::Exit(code)) => Effect::Shows(Body::End(code)),
            Next::Call(Call::Output(from, count)) => {
                Effect::Shows(Body::Out(text(bus, from, count)))
            }
            Next::Call(Call::Send(to, from, count)) => {
                Effect::Sends(to, message(bus, from, count))
            }
            _ => Effect::Nothing,
        }
    }

    /// Takes a call with its answer.
    fn take_call<B: Bus>(&mut self, bus: &mut B, call: Call, answer: &Answer) -> Result<(), B::Stop>
        requires runs { self.old.ended ≡ false }
        requires live { B.live bus.old }
        requires fits { NextFits (4 * B.count bus.old) self.old.number self.old.count (Next.Call call) }
        ensures taken { OnOk result (Becomes (B.told bus.old) (B.told bus.new) (λ before after. over self.new after ≡ after_next (Next.Call call) (answer_of answer.now) (over self.old before))) }
        ensures ended { OnOk result (self.new.ended ≡ ends (Next.Call call)) }
        ensures same { IsSameGuest self.old self.new }
        ensures kept { OnErr result (self.new ≡ self.old) }
        ensures count { B.count bus.new ≡ B.count bus.old }
        ensures live { OnOk result (B.live bus.new) }
        ensures made { OnOk result (Follow B.made (stored_by (Next.Call call) (answer_of answer.now)) bus.old bus.new) }
        ensures refused { IfErr result (λ why. BreakOff B.made B.refused (stored_by (Next.Call call) (answer_of answer.now)) bus.old bus.new why) }
    {
        match (call, *answer) {
            (Call::Input(to, _), Answer::InputNext(message)) => {
                hand_over(&mut self.regs, bus, to, &message, None)
            }
            (Call::Receive(to, _), Answer::ReceiveFrom(sender, message)) => {
                hand_over(&mut self.regs, bus, to, &message, Some(sender))
            }
            (Call::Exit(_), _) => {
                self.ended = true;
                Ok(())
            }
            _ => {
                reply_to(&mut self.regs, self.number, self.count, call, answer);
                Ok(())
            }
        }
    }
}
