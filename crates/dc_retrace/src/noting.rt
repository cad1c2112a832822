//! How a play of acts notes what it sees of a process.

ghost use Rattle.std.specs.Prelude.{◌≡◌, ◌<◌, ◌≤◌, ◌+◌, ◌-◌, ◌^◌, ◌||◌, ◌&&◌, ℕ, List, [], ◌∷◌, false, if◌then◌else◌, IfOk, length, map, max, nat_le, not, slice_index};
ghost use Rattle.dc_guest.specs.Answers.{answer_of};
ghost use Rattle.dc_guest.specs.Guest.{Guest};
ghost use Rattle.dc_model.specs.Guests.{Answer as Answers, is_plain};
ghost use Rattle.dc_model.specs.Process.{comes, local};
ghost use Rattle.dc_plain.specs.Playing.{world_in};
ghost use Rattle.dc_proc.specs.Processes.{Stored};
ghost use Rattle.dc_protocols.specs.Rules.{is_causal as causal, is_joint as joint};
ghost use Rattle.dc_recovery.specs.Saves.{Save, is_empty_log};
ghost use Rattle.dc_recovery.specs.Systems.{System};
ghost use Rattle.dc_resume.specs.Deciding.{told_of};
ghost use Rattle.dc_resume.specs.Suited.{save_in};
ghost use Rattle.dc_retrace.specs.Trails.{IsCounted, IsKept};

use crate::trail::Trail;
use dc_guest::Answer;
use dc_kernel::Saved;
use dc_limits::{LOGGED_EVENTS, PROCESSES};
use dc_plain::{Applied, Plain};
use dc_protocols::{Protocol, is_joint};
use dc_resume::{Told, log_end};
use std::alloc::{AllocError, Global};

/// So many things told decide: one more than a log has records.
const TOLD_ROOM: usize = LOGGED_EVENTS as usize + 1;

/// Whether an answer tells anything.
fn is_told(answer: &Answer) -> bool
    ensures { result ≡ not (is_plain (answer_of answer.now)) }
{
    !matches!(answer, Answer::Plain)
}

/// Whether nothing was told.
fn is_nothing(told: &[Told]) -> bool
    ensures { result ≡ is_empty_log (map told_of told.now) }
{
    match told {
        [] => true,
        [..] => false,
    }
}

/// Whether only those processes commit together that matter.
fn is_causal(protocol: Protocol) -> bool
    ensures { result ≡ causal protocol }
{
    protocol == Protocol::Cbndv2pcCausal
}

/// Whether others hold a process to an act, where nothing was told it since its save or something was.
fn is_exposed(protocol: Protocol, applied: &Applied, nothing: bool) -> bool
    ensures { result ≡ ((if joint protocol then applied.now.shows else (applied.now.shows || applied.now.sends)) || ((causal protocol && applied.now.sends) && nothing)) }
{
    if is_joint(protocol) {
        return applied.shows || (is_causal(protocol) && applied.sends && nothing);
    }
    applied.shows || applied.sends
}

/// Counts what a played process has sent to each.
fn count_sent(sent: &mut [usize; PROCESSES], plain: &Plain, p: u32)
    requires process { p < length plain.now.processes }
    requires few { length plain.now.processes ≤ PROCESSES }
    ensures { (q : ℕ) → q < length plain.now.processes → slice_index sent.new q ≡ length (((world_in plain.now).procs p).sent q) }
{
    for q in 0..plain.count() {
        sent[q] = plain.sent(p, q as u32).len();
    }
}

impl Trail {
    /// That of a process before its first act.
    pub fn new(alloc: Global, saved: &Saved) -> Result<Trail, AllocError>
        ensures counted { IfOk result (λ trail. (S : System Guest) (p : ℕ) (x : Stored) → x.kernel ≡ saved.now.kernel → x.log ≡ saved.now.log.items
            → IsCounted S p [] (save_in x) trail) }
        ensures same { IfOk result (λ trail. trail.same ≡ false) }
    {
        let position = saved.kernel.position();
        Ok(Trail {
            position,
            base: log_end(&saved.log).max(u64::from(position)),
            count: 0,
            exposed: 0,
            same: false,
            told: Vec::with_capacity(alloc, TOLD_ROOM)?,
            sent: [0; PROCESSES],
        })
    }

    /// Keeps what an act told, where it came at the save's position or later and there is room.
    fn keep(&mut self, answer: &Answer)
        ensures told { (answers : List Answers) → length answers ≡ self.old.count → IsKept answers self.old.position (answer_of answer.now) self.old self.new }
        ensures same { (self.new.position ≡ self.old.position) × (self.new.base ≡ self.old.base) × (self.new.count ≡ self.old.count) × (self.new.exposed ≡ self.old.exposed)
            × (self.new.same ≡ self.old.same) × (self.new.sent ≡ self.old.sent) }
    {
        if !is_told(answer) {
            return;
        }
        if self.count < self.position {
            return;
        }
        if self.told.len() >= TOLD_ROOM {
            return;
        }
        let _ = self.told.push(Told {
            position: self.count,
            answer: *answer,
        });
    }

    /// One act more, which was this.
    fn add(&mut self, protocol: Protocol, applied: &Applied)
        requires few { self.old.count < 2 ^ 32 - 1 }
        ensures told { (answers : List Answers) → length answers ≡ self.old.count → IsKept answers self.old.position (answer_of applied.now.answer) self.old self.new }
        ensures count { self.new.count ≡ self.old.count + 1 }
        ensures exposed { self.new.exposed ≡ (if (if joint protocol then applied.now.shows else (applied.now.shows || applied.now.sends)) || ((causal protocol && applied.now.sends) && is_empty_log (map told_of self.old.told.items))
            then self.old.count + 1 else self.old.exposed) }
        ensures same { (self.new.position ≡ self.old.position) × (self.new.base ≡ self.old.base) × (self.new.same ≡ self.old.same) × (self.new.sent ≡ self.old.sent) }
    {
        let exposed = is_exposed(protocol, applied, is_nothing(&self.told));
        self.keep(&applied.answer);
        self.count += 1;
        if exposed {
            self.exposed = self.count;
        }
    }

    /// Counts what process `p` has sent to each, where the save reaches to its last act.
    fn reach_on(&mut self, plain: &Plain, p: u32)
        requires process { p < length plain.now.processes }
        requires few { length plain.now.processes ≤ PROCESSES }
        ensures sent { (q : ℕ) → q < length plain.now.processes → slice_index self.new.sent q
            ≡ (if nat_le self.old.count (max self.old.base self.old.exposed) then length (((world_in plain.now).procs p).sent q) else slice_index self.old.sent q) }
        ensures same { (self.new.position ≡ self.old.position) × (self.new.base ≡ self.old.base) × (self.new.count ≡ self.old.count) × (self.new.exposed ≡ self.old.exposed)
            × (self.new.same ≡ self.old.same) × (self.new.told.items ≡ self.old.told.items) }
    {
        if u64::from(self.count) <= self.base.max(u64::from(self.exposed)) {
            count_sent(&mut self.sent, plain, p);
        }
    }

    /// Counts one act more of process `p`, which was this and has been played.
    pub(crate) fn count_act(&mut self, plain: &Plain, protocol: Protocol, p: u32, applied: &Applied)
        requires process { p < length plain.now.processes }
        requires processes { length plain.now.processes ≤ PROCESSES }
        requires few { self.old.count < 2 ^ 32 - 1 }
        ensures counted { (S : System Guest) (answers : List Answers) (s : Save) → S.guests.count ≡ length plain.now.processes
            → (if joint protocol then applied.now.shows else (applied.now.shows || applied.now.sends)) ≡ S.exposes (comes S.guests (local S.guests p answers) (answer_of applied.now.answer))
            → (causal protocol && applied.now.sends) ≡ S.exposes_sure (comes S.guests (local S.guests p answers) (answer_of applied.now.answer))
            → (world_in plain.now).procs p ≡ local S.guests p (answer_of applied.now.answer ∷ answers)
            → IsCounted S p answers s self.old → IsCounted S p (answer_of applied.now.answer ∷ answers) s self.new }
        ensures same { self.new.same ≡ self.old.same }
    {
        self.add(protocol, applied);
        self.reach_on(plain, p);
    }
}
