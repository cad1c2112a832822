//! One play of a run's acts.

ghost use Rattle.std.specs.Prelude.{◌≡◌, ◌<◌, ◌≤◌, ◌+◌, ◌-◌, ◌^◌, [], ◌∷◌, ℕ, All, Err, IfOk, IfSome, List, None, OnOk, false, length, map, slice_get};
ghost use Rattle.dc_elf.specs.Images.{Image as Images};
ghost use Rattle.dc_elf.specs.Loaded.{CanStart, seen_image};
ghost use Rattle.dc_guest.specs.Answers.{answer_of};
ghost use Rattle.dc_guest.specs.Guest.{guests_of};
ghost use Rattle.dc_kernel.specs.Kernels.{IsKernel};
ghost use Rattle.dc_model.specs.Guests.{Answer as Answers};
ghost use Rattle.dc_model.specs.Process.{local};
ghost use Rattle.dc_model.specs.Runs.{Given, IsRun};
ghost use Rattle.dc_model.specs.FailureFree.{act_of, apply, reported, run};
ghost use Rattle.dc_plain.specs.Playing.{world_in};
ghost use Rattle.dc_proc.specs.Carried.{system};
ghost use Rattle.dc_proc.specs.Processes.{Stored};
ghost use Rattle.dc_protocols.specs.declared.protocol.Protocol.{Protocol as Protocols};
ghost use Rattle.dc_retrace.specs.Read.{AreReadOf, stored_in};
ghost use Rattle.dc_retrace.specs.Trails.{AreBegun, AreTrails, HasWalked, IsCompared, IsSeenAs, IsTrail, WasCompared};
ghost use Rattle.dc_words.specs.Lists.{lists_of};

use crate::comparing::is_at;
use crate::trail::Trail;
use dc_elf::Image;
use dc_kernel::{Kernel, Saved};
use dc_limits::PROCESSES;
use dc_links::Message;
use dc_model::Taken;
use dc_plain::{Applied, ApplyFault, Plain};
use dc_protocols::Protocol;
use std::alloc::{AllocError, Global};

/// Compares a process with what its store stands for, where it has the position of that.
fn compare(trail: &mut Trail, plain: &Plain, p: u32, words: &[u32], kernel: &Kernel)
    requires process { p < length plain.now.processes }
    requires kernel { IsKernel (length plain.now.processes) p kernel.now }
    ensures compared { (images : List Images) (inputs : List (List (List ℕ))) (protocol : Protocols) (answers : List Answers) (x : Stored) → length images ≡ length plain.now.processes
        → x.words ≡ words.now → x.kernel ≡ kernel.now → length answers ≡ trail.old.count → (world_in plain.now).procs p ≡ local (guests_of images inputs) p answers
        → WasCompared (system images inputs protocol) p answers x trail.old → IsCompared (system images inputs protocol) p answers x trail.new }
    ensures same { (trail.new.position ≡ trail.old.position) × (trail.new.base ≡ trail.old.base) × (trail.new.count ≡ trail.old.count) × (trail.new.exposed ≡ trail.old.exposed)
        × (trail.new.told.items ≡ trail.old.told.items) × (trail.new.sent ≡ trail.old.sent) }
{
    if trail.count == kernel.position() {
        trail.same = is_at(plain, p, words, kernel);
    }
}

/// Notes an act of process `p`, which was this.
fn note(
    trail: &mut Trail,
    plain: &Plain,
    protocol: Protocol,
    p: u32,
    applied: &Applied,
    words: &[u32],
    kernel: &Kernel,
)
    requires process { p < length plain.now.processes }
    requires processes { length plain.now.processes ≤ PROCESSES }
    requires kernel { IsKernel (length plain.now.processes) p kernel.now }
    requires few { trail.old.count < 2 ^ 32 - 1 }
    ensures noted { (images : List Images) (inputs : List (List (List ℕ))) (answers : List Answers) (x : Stored) → length images ≡ length plain.now.processes
        → x.words ≡ words.now → x.kernel ≡ kernel.now → IsSeenAs (guests_of images inputs) p answers applied.now
        → (world_in plain.now).procs p ≡ local (guests_of images inputs) p (answer_of applied.now.answer ∷ answers)
        → IsTrail (system images inputs protocol) p answers x trail.old → IsTrail (system images inputs protocol) p (answer_of applied.now.answer ∷ answers) x trail.new }
{
    trail.count_act(plain, protocol, p, applied);
    compare(trail, plain, p, words, kernel);
}

/// The trail of a process before its first act.
fn first_of(
    alloc: Global,
    plain: &Plain,
    p: u32,
    words: &[u32],
    saved: &Saved,
) -> Result<Trail, AllocError>
    requires process { p < length plain.now.processes }
    requires kernel { IsKernel (length plain.now.processes) p saved.now.kernel }
    ensures noted { IfOk result (λ trail. (images : List Images) (inputs : List (List (List ℕ))) (protocol : Protocols) (x : Stored) → length images ≡ length plain.now.processes
        → x.words ≡ words.now → x.kernel ≡ saved.now.kernel → x.log ≡ saved.now.log.items → (world_in plain.now).procs p ≡ local (guests_of images inputs) p []
        → IsTrail (system images inputs protocol) p [] x trail) }
{
    let mut trail = Trail::new(alloc, saved)?;
    compare(&mut trail, plain, p, words, &saved.kernel);
    Ok(trail)
}

/// The trail of each process before the first act.
fn first_trails(
    alloc: Global,
    plain: &Plain,
    memories: &[Vec<u32>],
    saved: &[Saved],
) -> Result<Vec<Trail>, AllocError>
    requires memories { length memories.now ≡ length plain.now.processes }
    requires saved { length saved.now ≡ length plain.now.processes }
    requires few { length plain.now.processes ≤ PROCESSES }
    requires read { AreReadOf (length plain.now.processes) saved.now }
    ensures count { IfOk result (λ trails. length trails.items ≡ length plain.now.processes) }
    ensures noted { IfOk result (λ trails. AreBegun plain.now memories.now saved.now (length plain.now.processes) trails.items) }
{
    let mut trails = Vec::with_capacity(alloc, saved.len())?;
    for p in 0..saved.len() as u32 {
        let words = &memories[p as usize];
        let there = &saved[p as usize];
        trails.push(first_of(alloc, plain, p, words, there)?)?;
    }
    Ok(trails)
}

/// Plays one act more.
fn step(
    plain: &mut Plain,
    trails: &mut [Trail],
    protocol: Protocol,
    taken: &Taken,
    memories: &[Vec<u32>],
    saved: &[Saved],
) -> Result<(), ApplyFault>
    requires process { taken.now.p < length plain.old.processes }
    requires processes { length plain.old.processes ≤ PROCESSES }
    requires count { length trails.old ≡ length plain.old.processes }
    requires memories { length memories.now ≡ length plain.old.processes }
    requires saved { length saved.now ≡ length plain.old.processes }
    requires read { AreReadOf (length plain.old.processes) saved.now }
    requires visible { ((world_in plain.old).procs taken.now.p).visible < 2 ^ 32 - 1 }
    requires few { IfSome (slice_get trails.old taken.now.p) (λ trail. trail.count < 2 ^ 32 - 1) }
    ensures goes { OnOk result ((images : List Images) (inputs : List (List (List ℕ))) (acts : List Given) → length images ≡ length plain.old.processes
        → HasWalked images inputs protocol memories.now saved.now acts plain.old trails.old
        → (a : Answers) × (act_of a ≡ taken.now.act) × HasWalked images inputs protocol memories.now saved.now (record { t = taken.now.t; p = taken.now.p; answer = a } ∷ acts) plain.new trails.new) }
    ensures illegal { result ≡ Err ApplyFault.Illegal → (images : List Images) → apply (guests_of images plain.old.inputs) (world_in plain.old) taken.now.p taken.now.act ≡ None }
    ensures processes { length plain.new.processes ≡ length plain.old.processes }
    ensures count { length trails.new ≡ length trails.old }
    ensures inputs { plain.new.inputs ≡ plain.old.inputs }
{
    let p = taken.p;
    match plain.apply(p, &taken.act) {
        Ok(applied) => {
            plain.forget_visibles();
            let words = &memories[p as usize];
            let kernel = &saved[p as usize].kernel;
            note(
                &mut trails[p as usize],
                plain,
                protocol,
                p,
                &applied,
                words,
                kernel,
            );
            Ok(())
        }
        Err(fault) => Err(fault),
    }
}

/// Plays the acts that a run reported, and notes of each process what decides whether its store suits them. The processes are those
/// of these images with these inputs; `memories` and `saved` are what was read of their stores. Illegal is answered only where the acts
/// are no run.
pub fn walk(
    alloc: Global,
    images: &[Image],
    inputs: &[Vec<Message>],
    protocol: Protocol,
    acts: &[Taken],
    memories: &[Vec<u32>],
    saved: &[Saved],
) -> Result<Vec<Trail>, ApplyFault>
    requires images { length images.now ≤ PROCESSES }
    requires good { All CanStart images.now }
    requires processes { All (λ x. x.p < length images.now) acts.now }
    requires few { length acts.now < 2 ^ 32 - 1 }
    requires memories { length memories.now ≡ length images.now }
    requires saved { length saved.now ≡ length images.now }
    requires read { AreReadOf (length images.now) saved.now }
    ensures walked { IfOk result (λ trails. (given : List Given) × IsRun (guests_of (map seen_image images.now) (lists_of inputs.now)) given × (reported given ≡ acts.now)
        × AreTrails (system (map seen_image images.now) (lists_of inputs.now) protocol) given (stored_in memories.now saved.now) trails.items) }
    ensures count { IfOk result (λ trails. length trails.items ≡ length images.now) }
    ensures illegal { result ≡ Err ApplyFault.Illegal → run (guests_of (map seen_image images.now) (lists_of inputs.now)) acts.now ≡ None }
{
    let Ok(mut plain) = Plain::open(alloc, images, inputs) else {
        return Err(ApplyFault::Memory);
    };
    let Ok(mut trails) = first_trails(alloc, &plain, memories, saved) else {
        return Err(ApplyFault::Memory);
    };
    let mut rest = acts;
    while let [taken, after @ ..] = rest {
        match step(&mut plain, &mut trails, protocol, taken, memories, saved) {
            Ok(()) => {}
            Err(fault) => return Err(fault),
        }
        rest = after;
    }
    Ok(trails)
}
