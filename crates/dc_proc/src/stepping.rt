//! The guest of a process steps over the memory of its store.

ghost use Rattle.std.specs.Prelude.{◌≡◌, ◌&&◌, ◌*◌, ℕ, false, IfOk, IfSome, OnErr, OnOk, true};
ghost use Rattle.dc_events.specs.Kinds.{kind_of};
ghost use Rattle.dc_guest.specs.Answers.{answer_of, effect_of, may_answer};
ghost use Rattle.dc_guest.specs.Guest.{after_next, ends, event_of, machine_over, next_of, over, stores_next};
ghost use Rattle.dc_guest.specs.Nexts.{IfRetired, IfWaits, IsSameGuest, NextFits, Waits, called_by};
ghost use Rattle.dc_media.specs.Told.{Becomes};
ghost use Rattle.dc_model.specs.Guests.Answer.{Plain};
ghost use Rattle.dc_checkpoint.specs.Calls.{on};
ghost use Rattle.dc_proc.specs.Calls.{Stores};
ghost use Rattle.dc_proc.specs.Events.{HasNextRoom, HasRoom};
ghost use Rattle.dc_recovery.specs.Parts.{may_store};
ghost use Rattle.dc_rv32.specs.Machine.{Machine, stores};

use crate::lent::{Lent, Looked};
use crate::up::Up;
use dc_calls::Call;
use dc_checkpoint::{CheckFault, Checkpoint};
use dc_events::{Kind, Next};
use dc_guest::{Answer, Effect, Guest};

impl Up {
    /// What its guest does next. An instruction that retires is taken at once; at a call or a trap nothing changes.
    pub(crate) fn step<C: Checkpoint>(
        &mut self,
        store: &mut C,
        dev: &mut C::Device,
    ) -> Result<Next, CheckFault>
        requires lent { C.lent store.old dev.old }
        requires ready { C.ready store.old dev.old }
        requires sized { self.old.size ≡ 4 * C.size store.old }
        requires runs { self.old.guest.ended ≡ false }
        ensures stores { Stores C.Checkpoint (on store.old dev.old) (on store.new dev.new) result }
        ensures ready { OnOk result (C.ready store.new dev.new) }
        ensures next { IfOk result (λ next. IfSome (C.contents store.old dev.old) (λ words. next ≡ next_of (over self.old.guest words))) }
        ensures fits { IfOk result (NextFits (4 * C.size store.old) self.old.guest.number self.old.guest.count) }
        ensures taken { IfOk result (λ next. IfRetired next (Becomes (C.contents store.old dev.old) (C.contents store.new dev.new) (λ before after.
            over self.new.guest after ≡ after_next next Plain (over self.old.guest before)))) }
        ensures waits { IfOk result (λ next. IfWaits next ((self.new ≡ self.old) × (store.new ≡ store.old) × (dev.new ≡ dev.old))) }
        ensures runs { self.new.guest.ended ≡ false }
        ensures rest { self.new ≡ record self.old { guest = self.new.guest } }
        ensures same { IsSameGuest self.old.guest self.new.guest }
        ensures kept { OnErr result (self.new ≡ self.old) }
        ensures reached { OnErr result (IfSome (C.contents store.old dev.old) (λ words. next_of (over self.old.guest words) ≡ Next.Retire)) }
        ensures storing { OnErr result (IfSome (C.contents store.old dev.old) (λ words. stores (machine_over self.old.guest words) ≡ true)) }
    {
        let mut bus = Lent {
            store,
            dev,
            size: self.size,
        };
        self.guest.next(&mut bus)
    }

    /// Takes a call or a trap that waits, with its answer.
    pub(crate) fn advance<C: Checkpoint>(
        &mut self,
        next: &Next,
        answer: &Answer,
        store: &mut C,
        dev: &mut C::Device,
    ) -> Result<(), CheckFault>
        requires lent { C.lent store.old dev.old }
        requires ready { C.ready store.old dev.old }
        requires sized { self.old.size ≡ 4 * C.size store.old }
        requires runs { self.old.guest.ended ≡ false }
        requires waits { Waits next.now }
        requires fits { NextFits (4 * C.size store.old) self.old.guest.number self.old.guest.count next.now }
        ensures stores { Stores C.Checkpoint (on store.old dev.old) (on store.new dev.new) result }
        ensures ready { OnOk result (C.ready store.new dev.new) }
        ensures taken { OnOk result (Becomes (C.contents store.old dev.old) (C.contents store.new dev.new) (λ before after.
            over self.new.guest after ≡ after_next next.now (answer_of answer.now) (over self.old.guest before))) }
        ensures ended { OnOk result (self.new.guest.ended ≡ ends next.now) }
        ensures rest { self.new ≡ record self.old { guest = self.new.guest } }
        ensures same { IsSameGuest self.old.guest self.new.guest }
        ensures kept { OnErr result (self.new ≡ self.old) }
        ensures may { OnErr result ((m : Machine) → (stores_next next.now (answer_of answer.now) m && may_store (event_of next.now m) (answer_of answer.now)) ≡ true) }
    {
        let mut bus = Lent {
            store,
            dev,
            size: self.size,
        };
        self.guest.advance(&mut bus, next, answer)
    }

    /// What others see of a call or a trap that waits, before it is answered.
    pub(crate) fn effect<C: Checkpoint>(&self, next: &Next, store: &C, dev: &C::Device) -> Effect
        requires lent { C.lent store.now dev.now }
        requires ready { C.ready store.now dev.now }
        requires sized { self.now.size ≡ 4 * C.size store.now }
        requires fits { NextFits (4 * C.size store.now) self.now.guest.number self.now.guest.count next.now }
        requires number { self.now.guest.number ≡ self.now.kernel.p }
        requires count { self.now.guest.count ≡ self.now.kernel.n }
        requires room { HasNextRoom self.now.kernel next.now }
        ensures effect { IfSome (C.contents store.now dev.now) (λ words. result ≡ effect_of (event_of next.now (machine_over self.now.guest words))) }
        ensures room { HasRoom self.now.kernel result }
    {
        let bus = Looked {
            store,
            dev,
            size: self.size,
        };
        self.guest.effect(&bus, next)
    }

    /// The call that its guest makes next, if its next event is one. Nothing is run.
    pub fn next_call<C: Checkpoint>(&self, store: &C, dev: &C::Device) -> Option<Call>
        requires lent { C.lent store.now dev.now }
        requires ready { C.ready store.now dev.now }
        requires sized { self.now.size ≡ 4 * C.size store.now }
        ensures exact { IfSome (C.contents store.now dev.now) (λ words. result ≡ called_by (next_of (over self.now.guest words))) }
        ensures fits { IfSome result (λ call. NextFits (4 * C.size store.now) self.now.guest.number self.now.guest.count (Next.Call call)) }
    {
        let bus = Looked {
            store,
            dev,
            size: self.size,
        };
        self.guest.next_call(&bus)
    }

    /// The kind of its next event. Nothing is run.
    pub fn next_kind<C: Checkpoint>(&self, store: &C, dev: &C::Device) -> Kind
        requires lent { C.lent store.now dev.now }
        requires ready { C.ready store.now dev.now }
        requires sized { self.now.size ≡ 4 * C.size store.now }
        requires number { self.now.guest.number ≡ self.now.kernel.p }
        requires count { self.now.guest.count ≡ self.now.kernel.n }
        requires runs { self.now.guest.ended ≡ false }
        ensures { IfSome (C.contents store.now dev.now) (λ words. result ≡ kind_of (next_of (over self.now.guest words))) }
    {
        // What comes is found by a guest that steps over a memory that stores nothing.
        let mut guest = Guest::at(self.kernel.p(), self.kernel.n(), *self.guest.regs(), false);
        let mut bus = Looked {
            store,
            dev,
            size: self.size,
        };
        match guest.next(&mut bus) {
            Ok(next) => next.kind(),
            Err(_) => Kind::Internal,
        }
    }

    /// Whether its next event is a send for whose receiver as many messages are kept as there may be. Nothing is run.
    pub fn is_full<C: Checkpoint>(&self, store: &C, dev: &C::Device) -> bool
        requires lent { C.lent store.now dev.now }
        requires ready { C.ready store.now dev.now }
        requires sized { self.now.size ≡ 4 * C.size store.now }
        requires number { self.now.guest.number ≡ self.now.kernel.p }
        requires count { self.now.guest.count ≡ self.now.kernel.n }
        ensures room { result ≡ false → IfSome (C.contents store.now dev.now) (λ words. HasNextRoom self.now.kernel (next_of (over self.now.guest words))) }
        ensures full { result ≡ true → IfSome (C.contents store.now dev.now) (λ words. HasNextRoom self.now.kernel (next_of (over self.now.guest words)) → ⊥) }
    {
        match self.next_call(store, dev) {
            Some(Call::Send(q, _, _)) => self.kernel.links().is_full(q),
            _ => false,
        }
    }

    /// Whether its next event may be answered so, whatever is handed over. Nothing is run.
    pub fn may_take<C: Checkpoint>(&self, answer: &Answer, store: &C, dev: &C::Device) -> bool
        requires lent { C.lent store.now dev.now }
        requires ready { C.ready store.now dev.now }
        requires sized { self.now.size ≡ 4 * C.size store.now }
        ensures { IfSome (C.contents store.now dev.now) (λ words. result ≡ may_answer (answer_of answer.now) (kind_of (next_of (over self.now.guest words)))) }
    {
        match self.next_call(store, dev) {
            Some(call) => answer.may_answer(Next::Call(call).kind()),
            None => answer.may_answer(Kind::Internal),
        }
    }
}
