//! The planned stops of a device, and how its calls are counted against them.

ghost use Rattle.std.specs.Prelude.{◌≡◌, ◌<◌, ◌-◌, ℕ, false, None, Err, IsSome, OnOk, OnErr, get_or};
ghost use Rattle.dc_media.specs.declared.faults.DeviceFault.TheVariants.{Stopped};
ghost use Rattle.dc_media.specs.Causes.{counted_by};
ghost use Rattle.dc_armed.specs.Turns.{WaitFirst, WaitNone};
ghost use Rattle.dc_armed.specs.Stops.{after_answer, calls_to, came_to, due, due_of, fewer_by, one_fewer, waiting_for, waits_within, Calls, CallsInRow, Comes, Waits};

use crate::arming::{arm, next_turn, none_waiting};
use crate::stop::Waiting;
use dc_media::{DeviceFault, PlannedStop, STORES, Tear};
use std::marker::Model;

/// The planned stops, those that wait in the turn that runs, how many came, and how many calls were made.
#[derive(Drop)]
pub(crate) struct StopPlan {
    stops: Vec<PlannedStop>,
    waiting: [Option<Waiting>; STORES as usize],
    came: [u64; STORES as usize],
    calls: [u64; STORES as usize],
    /// Whether any stop waits.
    armed: bool,
    /// No stop is planned for the turns from this one on, and before `quiet_until`.
    quiet_from: u64,
    quiet_until: u64,
}

impl Model for StopPlan {
    ghost use Rattle.std.specs.Prelude.{◌≡◌, false};
    ghost use Rattle.dc_armed.specs.Stops.{StopsSoFar};
    ghost use Rattle.dc_armed.specs.Turns.{ComesNone, WaitNone};

    ghost Value = { StopsSoFar };

    ghost view = { λ s. record { stops = s.stops.items; waiting = s.waiting; came = s.came; calls = s.calls } };

    ghost invariant = { λ s. ComesNone s.stops.items s.quiet_from s.quiet_until × (s.armed ≡ false → WaitNone s.waiting) };
}

/// Nothing is counted yet.
fn none_counted() -> [u64; STORES as usize]
    ensures { (p : ℕ) → get_or result p 0 ≡ 0 }
{
    [0; STORES as usize]
}

/// Counts a call down, and gives the tear of a stop that comes at it.
fn count_down(slot: &mut Option<Waiting>) -> Option<Tear>
    ensures due { result ≡ due_of slot.old }
    ensures fewer { slot.new ≡ one_fewer slot.old }
{
    let waiting = slot.as_mut()?;
    if waiting.calls > 1 {
        waiting.calls -= 1;
        return None;
    }
    let tear = (waiting.calls == 1).then_some(waiting.tear);
    *slot = None;
    tear
}

/// A count of calls, counted on by so many.
#[tactic(auto, using(dc_media::proofs::Storing::counted_at_most))]
fn counted_on(calls: u64, n: u64) -> u64
    ensures { result ≡ counted_by n calls }
{
    calls.saturating_add(n)
}

/// What is left of a number of calls.
fn fewer(calls: u32, n: u64) -> u32
    requires { n < calls }
    ensures { result ≡ calls - n }
{
    calls - n as u32
}

/// Lets what waits wait for fewer calls, of which it waited for none.
fn wait_less(slot: &mut Option<Waiting>, n: u64)
    requires { waits_within n slot.old ≡ false }
    ensures { slot.new ≡ fewer_by n slot.old }
{
    if let Some(waiting) = slot.as_mut() {
        waiting.calls = fewer(waiting.calls, n);
    }
}

impl StopPlan {
    /// No stop waits, and none came yet.
    pub(crate) fn new(stops: Vec<PlannedStop>) -> StopPlan
        ensures stops { result.stops ≡ stops.items }
        ensures waits { WaitNone result.waiting }
        ensures came { (p : ℕ) → came_to result p ≡ 0 }
        ensures calls { (p : ℕ) → p < STORES → calls_to result p ≡ 0 }
    {
        StopPlan {
            stops,
            waiting: none_waiting(),
            came: none_counted(),
            calls: none_counted(),
            armed: false,
            quiet_from: 0,
            quiet_until: 0,
        }
    }

    /// Nothing waits for any process any more.
    fn clear(&mut self)
        ensures none { WaitNone self.new.waiting }
        ensures stops { self.new.stops ≡ self.old.stops }
        ensures came { self.new.came ≡ self.old.came }
        ensures calls { self.new.calls ≡ self.old.calls }
    {
        if self.armed {
            self.waiting = none_waiting();
            self.armed = false;
        }
    }

    /// Begins a turn: its stops wait, and no other.
    pub(crate) fn at_turn(&mut self, turn: u32)
        ensures waits { WaitFirst self.old.stops turn self.new.waiting }
        ensures stops { self.new.stops ≡ self.old.stops }
        ensures came { self.new.came ≡ self.old.came }
        ensures calls { self.new.calls ≡ self.old.calls }
    {
        self.clear();
        let number = u64::from(turn);
        if self.quiet_from <= number && number < self.quiet_until {
            return;
        }
        self.armed = arm(&mut self.waiting, &self.stops, turn);
        self.quiet_from = if self.armed { number + 1 } else { number };
        self.quiet_until = next_turn(&self.stops, turn);
    }

    /// How many calls a process made. Past the last process the count stands at its last value.
    pub(crate) fn calls(&self, p: u32) -> u64
        ensures { result ≡ calls_to self.now p }
    {
        self.calls.get(p as usize).copied().unwrap_or(u64::MAX)
    }

    /// Counts a call of a process.
    fn count_call(&mut self, p: u32)
        ensures calls { Calls p self.old self.new }
        ensures same { self.new ≡ record self.old { calls = self.new.calls } }
    {
        if p >= STORES {
            return;
        }
        let calls = &mut self.calls[p as usize];
        *calls = calls.saturating_add(1);
    }

    /// Counts a call of a process, and gives the tear of a stop that comes at it.
    pub(crate) fn call(&mut self, p: u32) -> Option<Tear>
        ensures due { result ≡ due self.old p }
        ensures within { IsSome result → p < STORES }
        ensures waits { Waits p (one_fewer (waiting_for self.old p)) self.old self.new }
        ensures came { self.new.came ≡ self.old.came }
        ensures calls { Calls p self.old self.new }
    {
        self.count_call(p);
        if !self.armed || p >= STORES {
            return None;
        }
        count_down(&mut self.waiting[p as usize])
    }

    /// Whether a stop waits for one of the next calls of a process.
    pub(crate) fn waits_within(&self, p: u32, n: u64) -> bool
        ensures { result ≡ waits_within n (waiting_for self.now p) }
    {
        if !self.armed {
            return false;
        }
        match self.waiting.get(p as usize) {
            Some(Some(waiting)) => u64::from(waiting.calls) <= n,
            _ => false,
        }
    }

    /// Counts calls of a process in a row.
    #[tactic(auto, using(dc_media::proofs::Storing::counted_at_most))]
    fn count_calls(&mut self, p: u32, n: u64)
        ensures calls { CallsInRow n p self.old self.new }
        ensures same { self.new ≡ record self.old { calls = self.new.calls } }
    {
        if p >= STORES {
            return;
        }
        let calls = &mut self.calls[p as usize];
        *calls = counted_on(*calls, n);
    }

    /// Counts calls of a process in a row, where no stop comes at any of them.
    pub(crate) fn call_in_row(&mut self, p: u32, n: u64)
        requires { waits_within n (waiting_for self.old p) ≡ false }
        ensures waits { Waits p (fewer_by n (waiting_for self.old p)) self.old self.new }
        ensures came { self.new.came ≡ self.old.came }
        ensures calls { CallsInRow n p self.old self.new }
    {
        self.count_calls(p, n);
        if self.armed && p < STORES {
            wait_less(&mut self.waiting[p as usize], n);
        }
    }

    /// Nothing waits for a process any more.
    fn stopped(&mut self, p: u32)
        ensures waits { Waits p None self.old self.new }
        ensures came { self.new.came ≡ self.old.came }
        ensures calls { self.new.calls ≡ self.old.calls }
    {
        if self.armed && p < STORES {
            self.waiting[p as usize] = None;
        }
    }

    /// Heeds the answer of a device: nothing waits for a process that was stopped.
    pub(crate) fn heeded(
        &mut self,
        p: u32,
        answer: Result<(), DeviceFault>,
    ) -> Result<(), DeviceFault>
        ensures answer { result ≡ answer }
        ensures waits { Waits p (after_answer result (waiting_for self.old p)) self.old self.new }
        ensures came { self.new.came ≡ self.old.came }
        ensures calls { self.new.calls ≡ self.old.calls }
    {
        match answer {
            Ok(()) => Ok(()),
            Err(DeviceFault::Stopped) => {
                self.stopped(p);
                Err(DeviceFault::Stopped)
            }
            Err(DeviceFault::Failed) => Err(DeviceFault::Failed),
        }
    }

    /// A planned stop comes to a process.
    fn count(&mut self, p: u32)
        requires { p < STORES }
        ensures comes { Comes p self.old self.new }
        ensures waits { Waits p None self.old self.new }
        ensures calls { self.new.calls ≡ self.old.calls }
    {
        let came = &mut self.came[p as usize];
        *came = came.saturating_add(1);
        self.waiting[p as usize] = None;
    }

    /// A planned stop comes to a process where its work was done as far as it goes; else the refusal is the answer.
    #[cold]
    pub(crate) fn comes(&mut self, p: u32, done: Result<(), DeviceFault>) -> Result<(), DeviceFault>
        requires { p < STORES }
        ensures comes { OnOk done ((result ≡ Err Stopped) × Comes p self.old self.new) }
        ensures refused { OnErr done ((result ≡ done) × (self.new.came ≡ self.old.came)) }
        ensures waits { Waits p (after_answer result (waiting_for self.old p)) self.old self.new }
        ensures calls { self.new.calls ≡ self.old.calls }
    {
        if done.is_ok() {
            self.count(p);
            return Err(DeviceFault::Stopped);
        }
        self.heeded(p, done)
    }
}
