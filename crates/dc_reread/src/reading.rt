ghost use Rattle.std.specs.Prelude.{◌≡◌, ◌≤◌, ℕ, All, Err, List, None, Vec, IfOk, IfSome, IsErrOf, OnOk, length};
ghost use Rattle.std.specs.declared.alloc.Global.{Global};
ghost use Rattle.dc_checkpoint.specs.Handles.{IsSame};
ghost use Rattle.dc_elf.specs.Loaded.{CanStart};
ghost use Rattle.dc_model.specs.Runs.{Given};
ghost use Rattle.dc_model.specs.FailureFree.{run};
ghost use Rattle.dc_retrace.specs.Read.{AreReadOf};
ghost use Rattle.dc_twophase.specs.Commits.{AllOld};
ghost use Rattle.dc_twophase.specs.Counts.{IsJoint};
ghost use Rattle.dc_twophase.specs.Recoveries.{AreFit, IsAllRecovered, IsCause, IsSomeCause, always};
ghost use Rattle.dc_twophase.specs.Stores.{At, AtPair, Each, EachPair, IsNoIndex, on};
ghost use Rattle.dc_reread.specs.Faults.{recovery_in};
ghost use Rattle.dc_reread.specs.Loaded.{AreLoaded, AreStoresOf};
ghost use Rattle.dc_reread.specs.Pasts.{CanPlay, system_in};
ghost use Rattle.dc_reread.specs.Reread.{IsFoundUnsuited, IsReread, IsRetraced};
ghost use Rattle.dc_reread.specs.declared.faults.RereadFault.TheVariants as faults;

use crate::faults::RereadFault;
use crate::past::Past;
use dc_checkpoint::{Checkpoint, Saved};
use dc_elf::Image;
use dc_limits::PROCESSES;
use dc_plain::ApplyFault;
use dc_retrace::{Trail, first_unsuited, walk};
use dc_twophase::recover_steady;
use std::alloc::{AllocError, Global};

/// The words of a store's memory, of which there are so many.
fn load_one<C: Checkpoint>(
    alloc: Global,
    store: &C,
    dev: &C::Device,
    count: u32,
) -> Result<Vec<u32>, AllocError>
    requires lent { C.lent store.now dev.now }
    requires ready { C.ready store.now dev.now }
    requires count { C.size store.now ≡ count }
    ensures { IfOk result (λ words. IfSome (C.contents store.now dev.now) (λ told. told ≡ words.items)) }
{
    let mut words = Vec::with_capacity(alloc, count as usize)?;
    for i in 0..count {
        words.push(store.load(dev, i))?;
    }
    Ok(words)
}

/// The words of the memory of each store.
fn load_each<C: Checkpoint>(
    alloc: Global,
    images: &[Image],
    stores: &[C],
    dev: &C::Device,
) -> Result<Vec<Vec<u32>>, AllocError>
    requires few { length images.now ≤ PROCESSES }
    requires good { All CanStart images.now }
    requires of { AreStoresOf C.Checkpoint images.now stores.now }
    requires lent { Each stores.now (λ i c. C.lent c dev.now) }
    requires ready { Each stores.now (λ i c. C.ready c dev.now) }
    ensures count { IfOk result (λ memories. length memories.items ≡ length images.now) }
    ensures loaded { IfOk result (λ memories. AreLoaded C.Checkpoint (on stores.now dev.now) (length images.now) memories.items) }
{
    let mut memories = Vec::with_capacity(alloc, images.len())?;
    for p in 0..images.len() {
        let count = images[p].memory.len() as u32 / 4;
        memories.push(load_one(alloc, &stores[p], dev, count)?)?;
    }
    Ok(memories)
}

/// Walks over the acts beside what was read of the stores, whose memories are loaded for that.
fn retrace<C: Checkpoint>(
    alloc: Global,
    past: &Past,
    stores: &[C],
    dev: &C::Device,
    saved: &[Saved],
) -> Result<Vec<Trail>, ApplyFault>
    requires past { CanPlay past.now }
    requires of { AreStoresOf C.Checkpoint past.now.images.now stores.now }
    requires lent { Each stores.now (λ i c. C.lent c dev.now) }
    requires ready { Each stores.now (λ i c. C.ready c dev.now) }
    requires saved { length saved.now ≡ length past.now.images.now }
    requires read { AreReadOf (length past.now.images.now) saved.now }
    ensures retraced { IfOk result (λ trails. (given : List Given) × (memories : List (Vec ℕ Global)) × IsRetraced past.now saved.now given memories trails.items
        × AreLoaded C.Checkpoint (on stores.now dev.now) (length past.now.images.now) memories) }
    ensures illegal { result ≡ Err ApplyFault.Illegal → run (system_in past.now).guests past.now.acts.now ≡ None }
{
    let Ok(memories) = load_each(alloc, past.images, stores, dev) else {
        return Err(ApplyFault::Memory);
    };
    walk(
        alloc,
        past.images,
        past.inputs,
        past.protocol,
        past.acts,
        &memories,
        saved,
    )
}

/// What was read of stores that suit the acts of their run.
#[derive(Drop)]
pub struct Reread {
    /// The decided number under which they were read.
    pub decided: u32,
    /// What the walk over the acts noted of each process.
    pub trails: Vec<Trail>,
}

/// Reads all stores of a run's processes, under the decided number that the first one holds, and answers that number with the trails of
/// the processes where the stores suit the acts of the run. What each stands for beside its memory is handed out in the p-th of `saved`.
///
/// It may be called whatever the devices hold. A process that is stopped, a device that fails and a store that holds no checkpoint
/// end it at once; each names the process. So does a decided number that is not steady, and then no store is recovered: a run leaves none.
/// Then it is seen whether the acts are a run at all, and at last whether each store suits
/// them: the first process whose store does not is named. Memory may be wanting once all are recovered. From then on no store is
/// touched, so each stands for what it stood for, under the number under which it was read.
pub fn read_all<C: Checkpoint>(
    alloc: Global,
    past: &Past,
    stores: &mut [C],
    dev: &mut C::Device,
    saved: &mut [Saved],
) -> Result<Reread, RereadFault>
    requires past { CanPlay past.now }
    requires of { AreStoresOf C.Checkpoint past.now.images.now stores.old }
    requires lent { Each stores.old (λ i c. C.lent c dev.old) }
    requires saved { length saved.old ≡ length past.now.images.now }
    requires fit { AreFit C.Checkpoint stores.old saved.old }
    ensures same { EachPair stores.old stores.new (λ i. IsSame C.Checkpoint) }
    ensures lent { Each stores.new (λ i c. C.lent c dev.new) }
    ensures fit { AreFit C.Checkpoint stores.old saved.new }
    ensures stands { AtPair 0 stores.old stores.new (λ b z. (d : ℕ) → C.numbers z dev.new d
        → C.numbers b dev.old d × AllOld C.Checkpoint (on stores.old dev.old) (on stores.new dev.new) d) }
    ensures steady { OnOk result (At 0 stores.new (λ z. C.steady z dev.new)) }
    ensures reread { IfOk result (λ reread. IsReread C.Checkpoint past.now (on stores.new dev.new) saved.new reread) }
    ensures decided { IfOk result (λ reread. IsAllRecovered C.Checkpoint always reread.decided (on stores.old dev.old) (on stores.new dev.new) saved.new) }
    ensures recovered { ¬ IsErrOf result faults.Unsteady → OnOk (recovery_in result) ((d : ℕ) × IsAllRecovered C.Checkpoint always d (on stores.old dev.old) (on stores.new dev.new) saved.new) }
    ensures unsteady { IsErrOf result faults.Unsteady → AtPair 0 stores.old stores.new (λ b z. C.told dev.new (C.index b) → ¬ C.steady b dev.old) }
    ensures unsuited { (p : ℕ) → IsErrOf result (faults.Unsuited p) → (d : ℕ) × IsAllRecovered C.Checkpoint always d (on stores.old dev.old) (on stores.new dev.new) saved.new
        × IsFoundUnsuited C.Checkpoint past.now d (on stores.new dev.new) saved.new p }
    ensures illegal { IsErrOf result faults.Illegal → run (system_in past.now).guests past.now.acts.now ≡ None }
    ensures refused { At 0 stores.new (λ z. (d : ℕ) → C.numbers z dev.new d → IsCause C.Checkpoint d (on stores.new dev.new) (recovery_in result)) }
    ensures refused_under { IsSomeCause C.Checkpoint (on stores.old dev.old) (on stores.new dev.new) (recovery_in result) }
    ensures joint { IsJoint C.Checkpoint stores.old dev.old dev.new (recovery_in result) }
    ensures others { (q : ℕ) → IsNoIndex C.Checkpoint stores.old q → C.untouched dev.old dev.new q }
    ensures continues { C.continues dev.old dev.new }
{
    let recovered = recover_steady(stores, dev, saved)?;
    let Some(decided) = recovered else {
        return Err(RereadFault::Unsteady);
    };
    let trails = retrace(alloc, past, stores, dev, saved)?;
    match first_unsuited(past.protocol, decided, saved, &trails) {
        Some(p) => Err(RereadFault::Unsuited(p)),
        None => Ok(Reread { decided, trails }),
    }
}
