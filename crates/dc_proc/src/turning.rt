//! A turn of one process: the commit before, the act, the log record, the event, the commit after.

ghost use Rattle.std.specs.Prelude.{◌≡◌, ◌<◌, ◌≤◌, ◌+◌, ◌*◌, ◌-◌, ◌^◌, ◌&&◌, not, ℕ, false, true, None, IfOk, IfSome, OnErr, OnOk, length};
ghost use Rattle.dc_checkpoint.specs.Calls.{AreAmong, IsCall, Narrows, on};
ghost use Rattle.dc_events.specs.Kinds.{kind_of};
ghost use Rattle.dc_guest.specs.Answers.{answer_of, effect_of, may_answer};
ghost use Rattle.dc_guest.specs.Guest.{event_of, machine_over, next_of, over};
ghost use Rattle.dc_guest.specs.Nexts.{NextFits, Waits};
ghost use Rattle.dc_checkpoint.specs.Handles.{showing_of};
ghost use Rattle.dc_proc.specs.Carried.{process};
ghost use Rattle.dc_proc.specs.Events.{HasCounts, HasCountsFor, HasNextReceiver, HasNextRoom, IsSender};
ghost use Rattle.dc_proc.specs.Processes.{IsNumbered, IsPaired};
ghost use Rattle.dc_proc.specs.Turns.{IsShown, StopsTurn, TakesTurn, acts_with, is_none, makes_eight, shown_of, since_of};
ghost use Rattle.dc_proc.specs.Ups.{IsSameUp, IsWhole, held};
ghost use Rattle.dc_protocols.specs.Rules.{at_inputs, is_joint, rule_of};
ghost use Rattle.dc_recovery.specs.Alone.{without_commits};

use crate::answered::Answered;
use crate::shown::hand_on;
use crate::up::Up;
use dc_acts::Acts;
use dc_calls::Call;
use dc_checkpoint::{CheckFault, Checkpoint};
use dc_events::{Kind, Next};
use dc_guest::Answer;
use dc_kernel::Kernel;
use dc_limits::KEPT_MESSAGES;
use dc_model::{Mark, Taken, Visible};
use dc_protocols::{Rule, Since, is_joint, rule};

/// Whether an answer makes eight uncommitted receipts from one sender.
fn makes_eight(kernel: &Kernel, based: &[u32], answer: &Answer) -> bool
    requires sender { IsSender kernel.now (answer_of answer.now) }
    requires long { length based.now ≡ kernel.now.n }
    ensures { result ≡ makes_eight kernel.now.received based.now (answer_of answer.now) }
{
    match *answer {
        Answer::ReceiveFrom(sender, _) => {
            u64::from(kernel.received(sender)) + 1
                == u64::from(based[sender as usize]) + KEPT_MESSAGES as u64
        }
        _ => false,
    }
}

/// Whether an event asks for input or for a message.
fn asks(kind: Kind) -> bool
    ensures { result ≡ at_inputs kind }
{
    matches!(kind, Kind::Input | Kind::Receive)
}

impl Up {
    /// Whether the answer comes from the log.
    fn replays(&self, kind: Kind) -> bool
        ensures { result ≡ (at_inputs kind && not (is_none (held self.now).unread)) }
    {
        asks(kind) && self.read < self.log.len()
    }

    /// What its protocol asks at an event of this kind that is answered so; `any` is what it does not know by itself: whether an
    /// unlogged nondeterministic event matters to it that some process had since its last commit.
    pub fn asked(&self, kind: Kind, answer: &Answer, any: bool) -> Rule
        requires { IsSender self.now.kernel (answer_of answer.now) }
        ensures { result ≡ rule_of self.now.protocol kind (since_of self.now kind (answer_of answer.now) any) }
    {
        let since = Since {
            unlogged: self.unlogged,
            any,
            full: self.log_left == 0,
            eighth: makes_eight(&self.kernel, &self.based, answer),
            replay: self.replays(kind),
        };
        rule(self.protocol, kind, &since)
    }

    /// What its protocol asks of the process itself: where all fall together, no commit.
    fn rule(&self, kind: Kind, answer: &Answer) -> Rule
        requires { IsSender self.now.kernel (answer_of answer.now) }
        ensures { result ≡ without_commits (is_joint self.now.protocol) (rule_of self.now.protocol kind (since_of self.now kind (answer_of answer.now) false)) }
    {
        let asked = self.asked(kind, answer, false);
        if is_joint(self.protocol) {
            return Rule {
                before: false,
                log: asked.log,
                after: false,
            };
        }
        asked
    }

    /// Whether a send finds that as many messages are kept for its receiver as there may be.
    fn is_blocked(&self, next: &Next) -> bool
        requires { HasNextReceiver self.now.kernel next.now }
        ensures blocked { result ≡ true → HasNextRoom self.now.kernel next.now → ⊥ }
        ensures room { result ≡ false → HasNextRoom self.now.kernel next.now }
    {
        match *next {
            Next::Call(Call::Send(q, _, _)) => self.kernel.links().is_full(q),
            _ => false,
        }
    }

    /// Adds the act of a turn, where the event is one that the process has no act of.
    fn add_act(&self, answered: &Answered, acts: &mut Acts)
        requires room { length acts.old.items < acts.old.room }
        requires few { length acts.old.items < 2 ^ 32 - 1 }
        ensures acts { acts.new.items ≡ acts_with acts.old.items self.now.kernel answered.now.t (answer_of answered.now.answer) }
        ensures room { acts.old.room ≤ acts.new.room }
        ensures grown { length acts.new.items ≤ length acts.old.items + 1 }
    {
        let p = self.kernel.p();
        // For the proof: there are at most 8 processes.
        let _n = self.kernel.n();
        if self.kernel.position() == acts.count_of(p) {
            acts.push(Taken {
                t: answered.t,
                p,
                act: answered.answer.act(),
            });
        }
    }

    /// Takes a call or a trap that waits, with its answer, with all that its protocol asks for.
    fn take<C: Checkpoint>(
        &mut self,
        next: &Next,
        store: &mut C,
        dev: &mut C::Device,
        answered: &Answered,
        acts: &mut Acts,
        shown: &mut Option<Visible>,
    ) -> Result<Mark, CheckFault>
        requires lent { C.lent store.old dev.old }
        requires ready { C.ready store.old dev.old }
        requires sized { self.old.size ≡ 4 * C.size store.old }
        requires paired { IsPaired (held self.old) (C.form store.old) (C.number store.old) (C.logged store.old) }
        requires whole { IsWhole self.old }
        requires runs { self.old.guest.ended ≡ false }
        requires waits { Waits next.now }
        requires fits { NextFits (4 * C.size store.old) self.old.guest.number self.old.guest.count next.now }
        requires found { IfSome (C.contents store.old dev.old) (λ words. next.now ≡ next_of (over self.old.guest words)) }
        requires free { HasNextRoom self.old.kernel next.now }
        requires kind { IfSome (C.contents store.old dev.old) (λ words. may_answer (answer_of answered.now.answer) (kind_of next.now) ≡ true) }
        requires sender { IsSender self.old.kernel (answer_of answered.now.answer) }
        requires counts { HasCounts self.old.kernel }
        requires number { self.old.kernel.commit < 2 ^ 32 - 2 }
        requires room { length acts.old.items < acts.old.room }
        requires few { length acts.old.items < 2 ^ 32 - 1 }
        requires nothing { shown.old ≡ None }
        ensures call { IsCall (showing_of C.Checkpoint) (on store.old dev.old) (on store.new dev.new) result }
        ensures ready { OnOk result (C.ready store.new dev.new) }
        ensures paired { OnOk result (IsPaired (held self.new) (C.form store.new) (C.number store.new) (C.logged store.new)) }
        ensures whole { IsWhole self.new }
        ensures steady { is_joint self.old.protocol ≡ true → C.steady store.old dev.old → C.steady store.new dev.new × AreAmong (C.numbers store.old dev.old) (C.numbers store.new dev.new) }
        ensures uncommitted { is_joint self.old.protocol ≡ true → OnOk result ((held self.new).kernel.commit ≡ (held self.old).kernel.commit) }
        ensures narrows { is_joint self.old.protocol ≡ true → Narrows (C.floor store.old) (C.leaves store.old dev.old) (C.leaves store.new dev.new) }
        ensures quiet { OnOk result ((held self.new).kernel.commit ≡ (held self.old).kernel.commit → (held self.new).based ≡ (held self.old).based) }
        ensures counts { OnOk result ((turns : ℕ) → HasCountsFor (turns + 1) self.old.kernel → HasCountsFor turns self.new.kernel) }
        ensures numbered { (d most : ℕ) → C.floor store.old ≤ d → self.old.kernel.commit ≤ most → IsNumbered most (C.leaves store.old dev.old d) → IsNumbered (most + 2) (C.leaves store.new dev.new d) }
        ensures same { IsSameUp self.old self.new }
        ensures room { acts.old.room ≤ acts.new.room }
        ensures grown { length acts.new.items ≤ length acts.old.items + 1 }
        ensures goes { OnOk result (TakesTurn C.Checkpoint self.old.protocol (answer_of answered.now.answer) (process store.old dev.old (held self.old)) (process store.new dev.new (held self.new))) }
        ensures acts { OnOk result (acts.new.items ≡ acts_with acts.old.items self.old.kernel answered.now.t (answer_of answered.now.answer)) }
        ensures showed { IfOk result (λ mark. IsShown self.old.kernel.p mark shown.new (λ done. IfSome (C.contents store.old dev.old) (λ words. done ≡ shown_of (effect_of (event_of next.now (machine_over self.old.guest words))) self.old.kernel.visible))) }
        ensures unshown { OnErr result (shown.new ≡ None) }
        ensures stopped { OnErr result (StopsTurn C.Checkpoint self.old.protocol (answer_of answered.now.answer) (process store.old dev.old (held self.old)) (process store.new dev.new (held self.new)) (record {
          before = acts.old.items;
          more = acts_with acts.old.items self.old.kernel answered.now.t (answer_of answered.now.answer);
          after = acts.new.items;
        })) }
    {
        let effect = self.effect(next, store, dev);
        let kind = next.kind();
        let replay = self.replays(kind);
        let answer = &answered.answer;
        let asked = self.rule(kind, answer);
        self.commit_if(asked.before, store, dev)?;
        self.add_act(answered, acts);
        let rec = self.record_of(answer);
        self.append_if(asked.log, &rec, store, dev)?;
        self.advance(next, answer, store, dev)?;
        let done = self.note_event(next, answer, effect, replay, asked.log);
        self.commit_if(asked.after, store, dev)?;
        Ok(hand_on(done, self.kernel.p(), shown))
    }

    /// Takes the next event with this answer, with all that the protocol asks for: a commit before it, its act, where the process has
    /// none of it yet, a log record of the answer, the event, a commit after it. What it shows is handed on once all of it was done.
    ///
    /// Stopped or failed, it was so in one of these, and only `fall` may follow. Where all processes fall together no commit is made.
    /// Where the memory is not told a send may find that it has no room: then nothing is done.
    pub fn turn<C: Checkpoint>(
        &mut self,
        store: &mut C,
        dev: &mut C::Device,
        answered: &Answered,
        acts: &mut Acts,
        shown: &mut Option<Visible>,
    ) -> Result<Mark, CheckFault>
        requires lent { C.lent store.old dev.old }
        requires ready { C.ready store.old dev.old }
        requires sized { self.old.size ≡ 4 * C.size store.old }
        requires paired { IsPaired (held self.old) (C.form store.old) (C.number store.old) (C.logged store.old) }
        requires whole { IsWhole self.old }
        requires runs { self.old.guest.ended ≡ false }
        requires free { IfSome (C.contents store.old dev.old) (λ words. HasNextRoom self.old.kernel (next_of (over self.old.guest words))) }
        requires kind { IfSome (C.contents store.old dev.old) (λ words. may_answer (answer_of answered.now.answer) (kind_of (next_of (over self.old.guest words))) ≡ true) }
        requires sender { IsSender self.old.kernel (answer_of answered.now.answer) }
        requires counts { HasCounts self.old.kernel }
        requires number { self.old.kernel.commit < 2 ^ 32 - 2 }
        requires room { length acts.old.items < acts.old.room }
        requires few { length acts.old.items < 2 ^ 32 - 1 }
        requires nothing { shown.old ≡ None }
        ensures call { IsCall (showing_of C.Checkpoint) (on store.old dev.old) (on store.new dev.new) result }
        ensures ready { OnOk result (C.ready store.new dev.new) }
        ensures paired { OnOk result (IsPaired (held self.new) (C.form store.new) (C.number store.new) (C.logged store.new)) }
        ensures whole { IsWhole self.new }
        ensures steady { is_joint self.old.protocol ≡ true → C.steady store.old dev.old → C.steady store.new dev.new × AreAmong (C.numbers store.old dev.old) (C.numbers store.new dev.new) }
        ensures uncommitted { is_joint self.old.protocol ≡ true → OnOk result ((held self.new).kernel.commit ≡ (held self.old).kernel.commit) }
        ensures narrows { is_joint self.old.protocol ≡ true → Narrows (C.floor store.old) (C.leaves store.old dev.old) (C.leaves store.new dev.new) }
        ensures quiet { OnOk result ((held self.new).kernel.commit ≡ (held self.old).kernel.commit → (held self.new).based ≡ (held self.old).based) }
        ensures counts { OnOk result ((turns : ℕ) → HasCountsFor (turns + 1) self.old.kernel → HasCountsFor turns self.new.kernel) }
        ensures numbered { (d most : ℕ) → C.floor store.old ≤ d → self.old.kernel.commit ≤ most → IsNumbered most (C.leaves store.old dev.old d) → IsNumbered (most + 2) (C.leaves store.new dev.new d) }
        ensures same { IsSameUp self.old self.new }
        ensures room { acts.old.room ≤ acts.new.room }
        ensures grown { length acts.new.items ≤ length acts.old.items + 1 }
        ensures goes { OnOk result (TakesTurn C.Checkpoint self.old.protocol (answer_of answered.now.answer) (process store.old dev.old (held self.old)) (process store.new dev.new (held self.new))) }
        ensures acts { OnOk result (IfSome (C.contents store.old dev.old) (λ words. acts.new.items ≡ acts_with acts.old.items self.old.kernel answered.now.t (answer_of answered.now.answer))) }
        ensures showed { IfOk result (λ mark. IsShown self.old.kernel.p mark shown.new (λ done. IfSome (C.contents store.old dev.old) (λ words. done ≡ shown_of (effect_of (event_of (next_of (over self.old.guest words)) (machine_over self.old.guest words))) self.old.kernel.visible))) }
        ensures unshown { OnErr result (shown.new ≡ None) }
        ensures stopped { OnErr result (StopsTurn C.Checkpoint self.old.protocol (answer_of answered.now.answer) (process store.old dev.old (held self.old)) (process store.new dev.new (held self.new)) (record {
          before = acts.old.items;
          more = acts_with acts.old.items self.old.kernel answered.now.t (answer_of answered.now.answer);
          after = acts.new.items;
        })) }
    {
        match self.step(store, dev) {
            Ok(Next::Retire) => {
                self.add_act(answered, acts);
                self.note_retired();
                Ok(Mark::Stepped)
            }
            Ok(next) => {
                if self.is_blocked(&next) {
                    return Ok(Mark::Stepped);
                }
                self.take(&next, store, dev, answered, acts, shown)
            }
            Err(fault) => {
                self.add_act(answered, acts);
                Err(fault)
            }
        }
    }
}
