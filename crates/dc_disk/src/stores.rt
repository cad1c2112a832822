//! Stores of a process's state on disks that stop as planned.

ghost use Rattle.std.specs.Prelude.{◌≡◌, ◌≤◌, ◌<◌, ◌+◌, ◌-◌, ◌^◌, ℕ, IfSome, false};
ghost use Rattle.dc_armed.specs.Armed.{IsUnrefused};
ghost use Rattle.dc_armed.specs.Stops.{capped};
ghost use Rattle.dc_armed.specs.Turns.{WaitNone};
ghost use Rattle.dc_course.specs.Planned.{Lasts, lasts_on, lasts_self, lasts_within, none_within, stopped_within};
ghost use Rattle.dc_media.specs.Devices.{of_disks};
ghost use Rattle.dc_media.specs.Told.{showing};

use dc_armed::Armed;
use dc_checkpoint::{CheckFault, Checkpoint, Decided};
use dc_course::Planned;
use dc_kernel::{LogRecord, Saved};
use dc_media::{Disks, MakeFault};
use dc_redo::Redo;
use std::alloc::{AllocError, Global};

/// A store on disks that stop as planned. It is the store within, and does what that does.
#[derive(Drop)]
pub struct OnDisks<C> {
    store: C,
}

impl<C: Checkpoint> Checkpoint for OnDisks<C> {
    type Device = C::Device;

    ghost index = { λ s. C.index s.store };

    ghost size = { λ s. C.size s.store };

    ghost form = { λ s. C.form s.store };

    ghost first = { λ s. C.first s.store };

    ghost number = { λ s. C.number s.store };

    ghost logged = { λ s. C.logged s.store };

    ghost floor = { λ s. C.floor s.store };

    ghost fits = { C.fits };

    ghost lent = { λ s dev. C.lent s.store dev };

    ghost ready = { λ s dev. C.ready s.store dev };

    ghost prepared = { λ s dev g. C.prepared s.store dev g };

    ghost decidable = { λ s dev g. C.decidable s.store dev g };

    ghost loggable = { λ s. C.loggable s.store };

    ghost steady = { λ s dev. C.steady s.store dev };

    ghost outlasts = { λ s dev g. C.outlasts s.store dev g };

    ghost leaves = { λ s dev d reading. C.leaves s.store dev d reading };

    ghost numbers = { λ s dev e. C.numbers s.store dev e };

    ghost contents = { λ s dev. C.contents s.store dev };

    ghost told = { C.told };

    ghost stops = { C.stops };

    ghost faults = { C.faults };

    ghost untouched = { C.untouched };

    ghost continues = { C.continues };

    fn format(
        alloc: Global,
        dev: &mut C::Device,
        p: u32,
        memory: Vec<u32>,
        kernel: Vec<u32>,
    ) -> Result<(Self, bool), MakeFault> {
        match C::format(alloc, dev, p, memory, kernel) {
            Ok(made) => Ok((OnDisks { store: made.0 }, made.1)),
            Err(fault) => Err(fault),
        }
    }

    fn attach(
        alloc: Global,
        dev: &C::Device,
        p: u32,
        memory: Vec<u32>,
        kernel: Vec<u32>,
    ) -> Result<Self, AllocError> {
        let store = C::attach(alloc, dev, p, memory, kernel)?;
        Ok(OnDisks { store })
    }

    fn load(&self, dev: &C::Device, i: u32) -> u32 {
        self.store.load(dev, i)
    }

    fn store(&mut self, dev: &mut C::Device, i: u32, w: u32, mask: u32) -> Result<(), CheckFault> {
        self.store.store(dev, i, w, mask)
    }

    fn commit(&mut self, dev: &mut C::Device, kernel: &[u32]) -> Result<(), CheckFault> {
        self.store.commit(dev, kernel)
    }

    fn append_log(&mut self, dev: &mut C::Device, rec: &LogRecord) -> Result<(), CheckFault> {
        self.store.append_log(dev, rec)
    }

    fn prepare(&mut self, dev: &mut C::Device, kernel: &[u32], g: u32) -> Result<(), CheckFault> {
        self.store.prepare(dev, kernel, g)
    }

    fn decide(&mut self, dev: &mut C::Device, g: u32) -> Result<(), CheckFault> {
        self.store.decide(dev, g)
    }

    fn finish(&mut self, dev: &mut C::Device, g: u32) -> Result<(), CheckFault> {
        self.store.finish(dev, g)
    }

    fn decided(&mut self, dev: &mut C::Device) -> Result<Decided, CheckFault> {
        self.store.decided(dev)
    }

    fn recover(
        &mut self,
        dev: &mut C::Device,
        decided: u32,
        saved: &mut Saved,
    ) -> Result<(), CheckFault> {
        self.store.recover(dev, decided, saved)
    }

    fn fall(&mut self) {
        self.store.fall();
    }

    ghost may_log = { λ s dev ready. C.may_log s.store dev ready };

    ghost from_outlasts = { λ s dev g from. C.from_outlasts s.store dev g from };

    ghost none_waits = { λ s dev ready d e r low high. C.none_waits s.store dev ready d e r low high };

    ghost some_reading = { λ s dev told. C.some_reading s.store dev told };

    ghost some_number = { λ s dev told. C.some_number s.store dev told };

    ghost contents_long = { λ s dev lent. C.contents_long s.store dev lent };

    ghost contents_told = { λ s dev is. C.contents_told s.store dev is };

    ghost told_contents = { λ s dev ready told. C.told_contents s.store dev ready told };

    ghost leaves_alike = { λ a b dev same d r left. C.leaves_alike a.store b.store dev (record { index_same = same.index_same; size_same = same.size_same; form_same = same.form_same; first_same = same.first_same }) d r left };

    ghost numbers_alike = { λ a b dev same d is. C.numbers_alike a.store b.store dev (record { index_same = same.index_same; size_same = same.size_same; form_same = same.form_same; first_same = same.first_same }) d is };

    ghost lent_fits = { λ s dev lent. C.lent_fits s.store dev lent };

    ghost untouched_self = { C.untouched_self };

    ghost untouched_on = { C.untouched_on };

    ghost untouched_back = { C.untouched_back };

    ghost told_still = { C.told_still };

    ghost counts_same = { C.counts_same };

    ghost lent_still = { λ s old new a is. C.lent_still s.store old new a is };

    ghost ready_still = { λ s old new a is. C.ready_still s.store old new a is };

    ghost prepared_still = { λ s old new g a is. C.prepared_still s.store old new g a is };

    ghost decidable_still = { λ s old new g a is. C.decidable_still s.store old new g a is };

    ghost steady_still = { λ s old new a is. C.steady_still s.store old new a is };

    ghost leaves_still = { λ s old new d r a is. C.leaves_still s.store old new d r a is };

    ghost numbers_still = { λ s old new e a is. C.numbers_still s.store old new e a is };

    ghost contents_still = { λ s old new a. C.contents_still s.store old new a };

    ghost continues_self = { C.continues_self };

    ghost continues_on = { C.continues_on };
}

impl<D: Disks> Planned for OnDisks<Redo<Armed<D>>> {
    ghost planned = { λ dev. dev.plan.stops };

    ghost unplanned = { λ dev p. D.stops dev.device p };

    ghost calls = { λ dev p. capped (D.calls dev.device p) };

    ghost lasts = { λ old new. Lasts (of_disks D.Disks) old new };

    ghost loan = { λ old new. D.continues old.device new.device };

    ghost idle = { λ dev. WaitNone dev.plan.waiting };

    #[tactic(auto, using(dc_course::proofs::Arming::fewer_at, dc_course::proofs::Arming::punctual_at))]
    fn at_turn(dev: &mut Armed<D>, turn: u32) {
        dev.at_turn(turn);
    }

    ghost idle_none = { λ old new p none later. none_within (showing D.told D.extent D.stops D.faults D.calls D.continues) old new p none later };

    ghost idle_stopped = { λ old new p none later rose less. stopped_within (showing D.told D.extent D.stops D.faults D.calls D.continues) old new p none later rose less };

    ghost lasts_within = { λ old new later. lasts_within (showing D.told D.extent D.stops D.faults D.calls D.continues) old new later };

    ghost lasts_self = { λ dev. lasts_self (showing D.told D.extent D.stops D.faults D.calls D.continues) D.continues_self dev };

    ghost lasts_on = { λ old mid new first then. lasts_on (showing D.told D.extent D.stops D.faults D.calls D.continues) D.continues_on old mid new first then };

    ghost loan_same = { λ old new last. last.later };

    ghost planned_same = { λ old new last. last.stops_same };

    ghost unplanned_later = { λ old new p last. last.stopped p };

    ghost faults_later = { λ old new p last. last.failed p };

    ghost calls_later = { λ old new p last. last.called p };
}
