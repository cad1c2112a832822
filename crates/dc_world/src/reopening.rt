//! A world over stores that are there, beside the acts that an earlier part of its run reported.

ghost use Rattle.std.specs.Prelude.{◌≡◌, ◌<◌, ◌≤◌, ◌+◌, ◌*◌, ℕ, All, List, None, Some, IfOk, IsErrOf, OnOk, false, true, length, map, slice_get, slice_index, vec_capacity};
ghost use Rattle.dc_checkpoint.specs.Calls.{FallsStore};
ghost use Rattle.dc_checkpoint.specs.Handles.{IsSame, showing_of};
ghost use Rattle.dc_checkpoint.specs.declared.faults.StoreFault.{StoreFault as StoreFaults};
ghost use Rattle.dc_elf.specs.declared.image.Image.{Image as Images};
ghost use Rattle.dc_kernel.specs.Kernels.{IsKernel};
ghost use Rattle.dc_media.specs.Causes.{Rose};
ghost use Rattle.dc_model.specs.FailureFree.{run};
ghost use Rattle.dc_model.specs.declared.visible.Visible.{Visible as Visibles};
ghost use Rattle.dc_proc.specs.Downs.{IsOf as IsDownOf};
ghost use Rattle.dc_processes.specs.Stages.{IsWorld, KeepsTelling, stage_of};
ghost use Rattle.dc_protocols.specs.Rules.{is_causal};
ghost use Rattle.dc_recovery.specs.Recoveries.{resumed_core};
ghost use Rattle.dc_reread.specs.Faults.{recovery_in};
ghost use Rattle.dc_reread.specs.Pasts.{CanPlay, system_in};
ghost use Rattle.dc_reread.specs.declared.faults.RereadFault.TheVariants as faults;
ghost use Rattle.dc_retrace.specs.Read.{kernel_at};
ghost use Rattle.dc_resume.specs.Suited.{AreSuited, IsFirstUnsuited, saves_in};
ghost use Rattle.dc_together.specs.Joints.{whose};
ghost use Rattle.dc_twophase.specs.Stores.{At, Each, EachPair};
ghost use Rattle.dc_world.specs.Openable.{CanOpen};
ghost use Rattle.dc_world.specs.Opened.{AreMadeFor, AreOver, system_for};
ghost use Rattle.dc_world.specs.Reopened.{AreAttached, AreDownAt, AreExposed, AreLeftDown, AreRead, HasHandle, HasNumber, IsAgain, IsAttached, IsFirstSteady, IsReadBeside, Refuses, Stood};
ghost use Rattle.dc_world.specs.Worlds.{IsReady};

use crate::opening::{acts_for, first_kernel, joint_for, saved_for, text_of};
use crate::setup::Setup;
use crate::world::World;
use dc_acts::Acts;
use dc_checkpoint::Checkpoint;
use dc_elf::Image;
use dc_kernel::Saved;
use dc_limits::{ENTRIES, LOGGED_EVENTS, PROCESSES};
use dc_model::Taken;
use dc_proc::{Down, Up};
use dc_processes::{Processes, Slot};
use dc_protocols::Protocol;
use dc_reread::{Past, Reread, RereadFault, read_all};
use dc_retrace::Trail;
use dc_words::to_words;
use std::alloc::{AllocError, Global};

/// What an earlier part of a run reported of itself.
#[derive(Clone, Copy)]
pub struct Earlier<'a> {
    /// Its acts, in order.
    pub acts: &'a [Taken],
    /// How many entries were dealt with.
    pub entries: u32,
    /// How many whole lines were written.
    pub lines: u32,
}

/// The acts of an earlier part of a run, with room for those of so many entries more.
fn acts_again(alloc: Global, earlier: &Earlier, entries: u32) -> Result<Acts, AllocError>
    requires few { earlier.now.entries + entries ≤ ENTRIES }
    requires acts { length earlier.now.acts.now ≤ earlier.now.entries }
    requires processes { All (λ x. x.p < PROCESSES) earlier.now.acts.now }
    ensures items { IfOk result (λ acts. acts.items ≡ earlier.now.acts.now) }
    ensures room { IfOk result (λ acts. earlier.now.entries + entries ≤ acts.room) }
{
    let mut acts = acts_for(alloc, earlier.entries + entries)?;
    for act in earlier.acts {
        acts.push(*act);
    }
    Ok(acts)
}

/// One past the last act of each process that was exposed, by its trail.
fn exposed_of(alloc: Global, trails: &[Trail]) -> Result<Vec<u32>, AllocError>
    ensures { IfOk result (λ exposed. exposed.items ≡ map (λ t. t.exposed) trails.now) }
{
    let mut exposed = Vec::with_capacity(alloc, trails.len())?;
    for trail in trails {
        exposed.push(trail.exposed)?;
    }
    Ok(exposed)
}

/// A handle over the store of process `p` of `n` that is there.
fn attach<C: Checkpoint + Drop>(
    alloc: Global,
    n: u32,
    p: u32,
    image: &Image,
    dev: &C::Device,
) -> Result<C, AllocError>
    requires few { n ≤ PROCESSES }
    requires one_of { p < n }
    requires good { CanOpen image.now }
    requires there { (words : ℕ) → 4 * words ≡ length image.now.memory.items → C.fits dev.now p words (whose n p) }
    ensures { IfOk result (IsAttached C.Checkpoint n p image.now dev.now) }
{
    let size = image.memory.len() as u32;
    let kernel = first_kernel(alloc, n, p, size, image.entry)?;
    let text = text_of(alloc, &kernel)?;
    let words = to_words(alloc, &image.memory)?;
    C::attach(alloc, dev, p, words, text)
}

/// What is left of process `p` of `n` whose store was read: it knows what it had received by its last commit. It makes no call of the
/// device, and the store owes a recovery.
fn down_at<C: Checkpoint>(
    alloc: Global,
    protocol: Protocol,
    n: u32,
    p: u32,
    image: &Image,
    saved: &mut Saved,
    store: &mut C,
) -> Result<Down, AllocError>
    requires few { n ≤ PROCESSES }
    requires one_of { p < n }
    requires good { CanOpen image.now }
    requires kernel { IsKernel n p saved.old.kernel }
    requires log { length saved.old.log.items ≤ LOGGED_EVENTS }
    requires room { LOGGED_EVENTS ≤ vec_capacity saved.old.log }
    ensures based { IfOk result (λ down. (s : ℕ) → s < n → slice_index down.based s ≡ slice_index saved.old.kernel.received s) }
    ensures of { IfOk result (IsDownOf n p protocol (length image.now.memory.items)) }
    ensures falls { OnOk result (FallsStore (showing_of C.Checkpoint) store.old store.new) }
{
    let size = image.memory.len() as u32;
    let kernel = first_kernel(alloc, n, p, size, image.entry)?;
    let down = Up::new(alloc, protocol, size, kernel)?.fall(store);
    let up = down.rise(saved);
    Ok(up.fall(store))
}

/// A handle over the store of each process that is there.
fn attach_each<C: Checkpoint + Drop>(
    alloc: Global,
    images: &[Image],
    dev: &C::Device,
) -> Result<Vec<C>, AllocError>
    requires few { length images.now ≤ PROCESSES }
    requires good { All CanOpen images.now }
    requires there { (p : ℕ) (words : ℕ) (image : Images) → slice_get images.now p ≡ Some image → 4 * words ≡ length image.memory.items → C.fits dev.now p words (whose (length images.now) p) }
    ensures long { IfOk result (λ stores. length stores.items ≡ length images.now) }
    ensures attached { IfOk result (λ stores. AreAttached C.Checkpoint images.now dev.now stores.items) }
{
    let n = images.len() as u32;
    let mut stores = Vec::with_capacity(alloc, images.len())?;
    for p in 0..n {
        stores.push(attach(alloc, n, p, &images[p as usize], dev)?)?;
    }
    Ok(stores)
}

/// What is left of each process whose store was read.
fn down_each<C: Checkpoint>(
    alloc: Global,
    protocol: Protocol,
    images: &[Image],
    saved: &mut [Saved],
    stores: &mut [C],
) -> Result<Vec<Option<Slot>>, AllocError>
    requires few { length images.now ≤ PROCESSES }
    requires good { All CanOpen images.now }
    requires saved { length saved.old ≡ length images.now }
    requires stores { length stores.old ≡ length images.now }
    requires read { AreRead (length images.now) saved.old }
    ensures long { IfOk result (λ slots. length slots.items ≡ length images.now) }
    ensures down { IfOk result (λ slots. AreLeftDown protocol images.now saved.old slots.items) }
    ensures falls { OnOk result (EachPair stores.old stores.new (λ i. FallsStore (showing_of C.Checkpoint))) }
{
    let n = images.len() as u32;
    let mut slots = Vec::with_capacity(alloc, images.len())?;
    for p in 0..n {
        let at = p as usize;
        let down = down_at(
            alloc,
            protocol,
            n,
            p,
            &images[at],
            &mut saved[at],
            &mut stores[at],
        )?;
        slots.push(Some(Slot::Down(down)))?;
    }
    Ok(slots)
}

/// Reads the stores that were attached, beside the acts.
fn read_beside<C: Checkpoint>(
    alloc: Global,
    past: &Past,
    stores: &mut [C],
    dev: &mut C::Device,
    saved: &mut [Saved],
) -> Result<Reread, RereadFault>
    requires past { CanPlay past.now }
    requires stores { length stores.old ≡ length past.now.images.now }
    requires attached { AreAttached C.Checkpoint past.now.images.now dev.old stores.old }
    requires saved { length saved.old ≡ length past.now.images.now }
    requires fit { AreMadeFor (length past.now.images.now) saved.old }
    ensures same { EachPair stores.old stores.new (λ i. IsSame C.Checkpoint) }
    ensures lent { Each stores.new (λ i c. C.lent c dev.new) }
    ensures steady { OnOk result (At 0 stores.new (λ c. C.steady c dev.new)) }
    ensures handed { OnOk result (AreRead (length past.now.images.now) saved.new) }
    ensures long { IfOk result (λ reread. length reread.trails.items ≡ length past.now.images.now) }
    ensures read { IfOk result (λ reread. (x : IsReadBeside C.Checkpoint (system_in past.now) past.now.images.now past.now.acts.now dev.old dev.new)
        × AreSuited (system_in past.now) x.given x.decided x.stored × ((p : ℕ) → (x.stored p).kernel ≡ kernel_at saved.new p)
        × (is_causal past.now.protocol ≡ false → AreExposed (system_in past.now) x.given (map (λ t. t.exposed) reread.trails.items))) }
    ensures unsuited { (p : ℕ) → IsErrOf result (faults.Unsuited p) → (x : IsReadBeside C.Checkpoint (system_in past.now) past.now.images.now past.now.acts.now dev.old dev.new)
        × IsFirstUnsuited (system_in past.now) x.given x.decided x.stored p }
    ensures unsteady { IsErrOf result faults.Unsteady → C.told dev.new 0 → ¬ IsFirstSteady C.Checkpoint past.now.images.now dev.old }
    ensures illegal { IsErrOf result faults.Illegal → run (system_in past.now).guests past.now.acts.now ≡ None }
    ensures refused { (p : ℕ) (fault : StoreFaults) → IsErrOf result (faults.Refused p fault) → (d : ℕ) × Refuses C.Checkpoint past.now.images.now d dev.new p fault }
    ensures refused_under { (d : ℕ) → HasNumber C.Checkpoint past.now.images.now dev.new d
        → (p : ℕ) (fault : StoreFaults) → IsErrOf result (faults.Refused p fault) → Refuses C.Checkpoint past.now.images.now d dev.new p fault }
    ensures stood { (d : ℕ) → HasNumber C.Checkpoint past.now.images.now dev.new d
        → HasNumber C.Checkpoint past.now.images.now dev.old d × Stood C.Checkpoint past.now.images.now d dev.old dev.new }
    ensures stopped { (p : ℕ) → IsErrOf result (faults.Stopped p) → (p < length past.now.images.now) × Rose (C.stops dev.old p) (C.stops dev.new p) }
    ensures failed { (p : ℕ) → IsErrOf result (faults.Failed p) → (p < length past.now.images.now) × Rose (C.faults dev.old p) (C.faults dev.new p) }
    ensures calm { OnOk (recovery_in result) ((p : ℕ) → (C.stops dev.new p ≡ C.stops dev.old p) × (C.faults dev.new p ≡ C.faults dev.old p)) }
    ensures later { (p : ℕ) → (C.stops dev.old p ≤ C.stops dev.new p) × (C.faults dev.old p ≤ C.faults dev.new p) }
    ensures tells { (p : ℕ) → KeepsTelling C.Checkpoint dev.old dev.new p }
    ensures others { (q : ℕ) → length past.now.images.now ≤ q → C.untouched dev.old dev.new q }
    ensures continues { C.continues dev.old dev.new }
{
    read_all(alloc, past, stores, dev, saved)
}

/// What is left of each process once its store was read beside the acts, with one past its last act that was exposed.
fn read_down<C: Checkpoint>(
    alloc: Global,
    past: &Past,
    stores: &mut [C],
    dev: &mut C::Device,
    saved: &mut [Saved],
) -> Result<(Vec<Option<Slot>>, Vec<u32>), RereadFault>
    requires past { CanPlay past.now }
    requires good { All CanOpen past.now.images.now }
    requires stores { length stores.old ≡ length past.now.images.now }
    requires attached { AreAttached C.Checkpoint past.now.images.now dev.old stores.old }
    requires saved { length saved.old ≡ length past.now.images.now }
    requires fit { AreMadeFor (length past.now.images.now) saved.old }
    ensures over { OnOk result (AreOver C.Checkpoint past.now.images.now stores.new) }
    ensures lent { OnOk result (Each stores.new (λ i c. C.lent c dev.new)) }
    ensures steady { OnOk result (At 0 stores.new (λ c. C.steady c dev.new)) }
    ensures long { IfOk result (λ made. (length made.0.items ≡ length past.now.images.now) × (length made.1.items ≡ length past.now.images.now)) }
    ensures read { IfOk result (λ made. (x : IsReadBeside C.Checkpoint (system_in past.now) past.now.images.now past.now.acts.now dev.old dev.new)
        × AreSuited (system_in past.now) x.given x.decided x.stored × AreDownAt past.now.protocol past.now.images.now x.stored made.0.items
        × (is_causal past.now.protocol ≡ false → AreExposed (system_in past.now) x.given made.1.items)) }
    ensures unsuited { (p : ℕ) → IsErrOf result (faults.Unsuited p) → (x : IsReadBeside C.Checkpoint (system_in past.now) past.now.images.now past.now.acts.now dev.old dev.new)
        × IsFirstUnsuited (system_in past.now) x.given x.decided x.stored p }
    ensures unsteady { IsErrOf result faults.Unsteady → C.told dev.new 0 → ¬ IsFirstSteady C.Checkpoint past.now.images.now dev.old }
    ensures illegal { IsErrOf result faults.Illegal → run (system_in past.now).guests past.now.acts.now ≡ None }
    ensures refused { (p : ℕ) (fault : StoreFaults) → IsErrOf result (faults.Refused p fault) → (d : ℕ) × Refuses C.Checkpoint past.now.images.now d dev.new p fault }
    ensures refused_under { (d : ℕ) → HasNumber C.Checkpoint past.now.images.now dev.new d
        → (p : ℕ) (fault : StoreFaults) → IsErrOf result (faults.Refused p fault) → Refuses C.Checkpoint past.now.images.now d dev.new p fault }
    ensures stood { (d : ℕ) → HasNumber C.Checkpoint past.now.images.now dev.new d
        → HasNumber C.Checkpoint past.now.images.now dev.old d × Stood C.Checkpoint past.now.images.now d dev.old dev.new }
    ensures stopped { (p : ℕ) → IsErrOf result (faults.Stopped p) → (p < length past.now.images.now) × Rose (C.stops dev.old p) (C.stops dev.new p) }
    ensures failed { (p : ℕ) → IsErrOf result (faults.Failed p) → (p < length past.now.images.now) × Rose (C.faults dev.old p) (C.faults dev.new p) }
    ensures calm { OnOk (recovery_in result) ((p : ℕ) → (C.stops dev.new p ≡ C.stops dev.old p) × (C.faults dev.new p ≡ C.faults dev.old p)) }
    ensures later { (p : ℕ) → (C.stops dev.old p ≤ C.stops dev.new p) × (C.faults dev.old p ≤ C.faults dev.new p) }
    ensures tells { (p : ℕ) → KeepsTelling C.Checkpoint dev.old dev.new p }
    ensures others { (q : ℕ) → length past.now.images.now ≤ q → C.untouched dev.old dev.new q }
    ensures continues { C.continues dev.old dev.new }
{
    let reread = read_beside(alloc, past, stores, dev, saved)?;
    let slots = down_each(alloc, past.protocol, past.images, saved, stores)?;
    let exposed = exposed_of(alloc, &reread.trails)?;
    Ok((slots, exposed))
}

impl<C: Checkpoint + Drop> World<C> {
    /// Each process as its store has it, over the stores that an earlier part of the run left: all are down, and each recovers in its
    /// next turn. All room for so many entries more is taken here.
    ///
    /// The stores may hold anything. They are read under the decided number that the first one holds, and beside the acts that the
    /// earlier part reported; where both suit each other, the run goes on as one whose power failed there. A process that is stopped,
    /// a device that fails, a decided number that is not steady and a store that holds no checkpoint are named first; then acts that are no run are told; then the first
    /// process whose store does not suit them. From then on no store is touched, so each stands for what it stood for. Memory may be
    /// wanting before any store is read and after all were.
    pub fn reopen(
        alloc: Global,
        setup: Setup,
        entries: u32,
        earlier: &Earlier,
        dev: &mut C::Device,
    ) -> Result<World<C>, RereadFault>
        requires processes { All (λ x. x.p < length setup.images.items) earlier.now.acts.now }
        requires acts { length earlier.now.acts.now ≤ earlier.now.entries }
        requires lines { earlier.now.lines ≤ earlier.now.entries }
        requires entries { earlier.now.entries + entries ≤ ENTRIES }
        requires there { (p : ℕ) (words : ℕ) (image : Images) → slice_get setup.images.items p ≡ Some image → 4 * words ≡ length image.memory.items → C.fits dev.old p words (whose (length setup.images.items) p) }
        ensures ready { IfOk result (λ w. IsReady C.Checkpoint w.stores.items dev.new w.processes) }
        ensures begins { IfOk result (λ w. IsAgain setup earlier.now entries w.processes) }
        ensures over { IfOk result (λ w. AreOver C.Checkpoint setup.images.items w.stores.items) }
        ensures unstopped { IfOk result (λ w. w.stopped ≡ None) }
        ensures reopened { IfOk result (λ w. (x : IsReadBeside C.Checkpoint (system_for setup) setup.images.items earlier.now.acts.now dev.old dev.new)
            × AreSuited (system_for setup) x.given x.decided x.stored
            × (is_causal setup.protocol ≡ false → (lines : List Visibles) → length lines ≡ earlier.now.lines
            → IsWorld C.Checkpoint (system_for setup)
            (resumed_core x.given lines (saves_in (system_for setup) x.stored)) (stage_of w.stores.items dev.new w.processes))) }
        ensures unsuited { (p : ℕ) → IsErrOf result (faults.Unsuited p)
            → (x : IsReadBeside C.Checkpoint (system_for setup) setup.images.items earlier.now.acts.now dev.old dev.new)
            × IsFirstUnsuited (system_for setup) x.given x.decided x.stored p }
        ensures unsteady { IsErrOf result faults.Unsteady → C.told dev.new 0 → ¬ IsFirstSteady C.Checkpoint setup.images.items dev.old }
        ensures illegal { IsErrOf result faults.Illegal → run (system_for setup).guests earlier.now.acts.now ≡ None }
        ensures refused { (p : ℕ) (fault : StoreFaults) → IsErrOf result (faults.Refused p fault) → (d : ℕ) × Refuses C.Checkpoint setup.images.items d dev.new p fault }
        ensures refused_under { (d : ℕ) → HasNumber C.Checkpoint setup.images.items dev.new d
            → (p : ℕ) (fault : StoreFaults) → IsErrOf result (faults.Refused p fault) → Refuses C.Checkpoint setup.images.items d dev.new p fault }
        ensures handles { (IsErrOf result faults.Memory → ⊥) → (p : ℕ) → HasHandle C.Checkpoint setup.images.items p }
        ensures stood { (d : ℕ) → HasNumber C.Checkpoint setup.images.items dev.new d
            → HasNumber C.Checkpoint setup.images.items dev.old d × Stood C.Checkpoint setup.images.items d dev.old dev.new }
        ensures stopped { (p : ℕ) → IsErrOf result (faults.Stopped p) → (p < length setup.images.items) × Rose (C.stops dev.old p) (C.stops dev.new p) }
        ensures failed { (p : ℕ) → IsErrOf result (faults.Failed p) → (p < length setup.images.items) × Rose (C.faults dev.old p) (C.faults dev.new p) }
        ensures calm { OnOk (recovery_in result) ((p : ℕ) → (C.stops dev.new p ≡ C.stops dev.old p) × (C.faults dev.new p ≡ C.faults dev.old p)) }
        ensures later { (p : ℕ) → (C.stops dev.old p ≤ C.stops dev.new p) × (C.faults dev.old p ≤ C.faults dev.new p) }
        ensures tells { (p : ℕ) → KeepsTelling C.Checkpoint dev.old dev.new p }
        ensures others { (q : ℕ) → length setup.images.items ≤ q → C.untouched dev.old dev.new q }
        ensures continues { C.continues dev.old dev.new }
    {
        let n = setup.images.len() as u32;
        let acts = acts_again(alloc, earlier, entries)?;
        let joint = joint_for(alloc, setup.protocol, n)?;
        let mut saved = saved_for(alloc, n, n)?;
        let mut stores = attach_each(alloc, &setup.images, dev)?;
        let past = Past {
            protocol: setup.protocol,
            images: &setup.images,
            inputs: &setup.inputs,
            acts: earlier.acts,
        };
        let (slots, exposed) = read_down(alloc, &past, &mut stores, dev, &mut saved)?;
        let processes = Processes {
            protocol: setup.protocol,
            slots,
            inputs: setup.inputs,
            acts,
            exposed,
            lines: earlier.lines,
            entries: earlier.entries,
            left: entries,
            joint,
        };
        Ok(World {
            processes,
            stores,
            stopped: None,
        })
    }
}
