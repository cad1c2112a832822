ghost use Rattle.std.specs.Prelude.{◌≡◌, ◌≢◌, ◌+◌, ◌<◌, ◌≤◌, ℕ, None, IfSome, OnOk, length};
ghost use Rattle.dc_media.specs.Calls.{IsCall, IsMaking, Touches};
ghost use Rattle.dc_media.specs.Causes.{counted, counted_by};
ghost use Rattle.dc_media.specs.Disk.{Reads, Syncs, Writes, blank};
ghost use Rattle.dc_media.specs.Devices.{of_disks};
ghost use Rattle.dc_media.specs.Told.{showing};
ghost use Rattle.dc_armed.specs.Armed.{all_calls, all_stops, armed, within, ComesOrRefused, IsPassedOn, IsPlannedAlone, IsLater};
ghost use Rattle.dc_armed.specs.Torn.{torn_calls, torn_disk};
ghost use Rattle.dc_armed.specs.Stops.{after_answer, calls_to, came_to, due, one_fewer, waiting_for, Waits};
ghost use Rattle.dc_armed.specs.Laws.{later_on, later_self};

use crate::Armed;
use crate::torn::torn_write;
use dc_media::{DeviceFault, Disks, MakeFault, STORES};
use std::alloc::Global;

/// Disks with planned stops. A write and a sync are counted as calls.
impl<D: Disks> Disks for Armed<D> {
    ghost told = { within D.told };

    ghost extent = { within D.extent };

    ghost stops = { all_stops D.stops };

    ghost faults = { within D.faults };

    ghost calls = { all_calls };

    ghost continues = { λ s t. IsLater (of_disks D.Disks) s t };

    ghost told_extent = { λ a. D.told_extent a.device };

    ghost extent_fits = { λ a. D.extent_fits a.device };

    ghost continues_self = { λ s. later_self (showing D.told D.extent D.stops D.faults D.calls D.continues) D.continues_self s };

    ghost continues_on = { λ s t u first then. later_on (showing D.told D.extent D.stops D.faults D.calls D.continues) D.continues_on s t u first then };

    fn format(&mut self, alloc: Global, p: u32, bytes: u64) -> Result<(), MakeFault>
        requires { p < STORES }
        ensures making { IsMaking (armed (of_disks D.Disks)) p bytes self.old self.new result }
        ensures zeros { OnOk result (IfSome (D.told self.new.device p) (λ disk. disk ≡ blank bytes)) }

        // the device within
        ensures touches { Touches (of_disks D.Disks) p self.old.device self.new.device }
        ensures uncounted { D.calls self.new.device p ≡ D.calls self.old.device p }

        // no planned stop comes
        ensures plan { self.new.plan ≡ self.old.plan }
    {
        self.device.format(alloc, p, bytes)
    }

    fn size(&self, p: u32) -> u64 {
        self.device.size(p)
    }

    /// No planned stop comes at it, and it is not counted.
    fn read(&mut self, p: u32, at: u64, to: &mut [u8]) -> Result<(), DeviceFault>
        requires { at + length to.old ≤ D.extent self.old.device p }
        ensures call { IsCall (armed (of_disks D.Disks)) p self.old self.new result }
        ensures bytes { Reads at to.new result (D.told self.old.device p) (D.told self.new.device p) }
        ensures calls { calls_to self.new.plan p ≡ calls_to self.old.plan p }

        // the device within
        ensures touches { Touches (of_disks D.Disks) p self.old.device self.new.device }
        ensures uncounted { D.calls self.new.device p ≡ D.calls self.old.device p }

        // the answer is the device's, and what waits after it
        ensures passes { IsPassedOn (of_disks D.Disks) p result self.old self.new }
        ensures waits { Waits p (after_answer result (waiting_for self.old.plan p)) self.old.plan self.new.plan }
    {
        let done = self.device.read(p, at, to);
        self.plan.heeded(p, done)
    }

    /// At a planned stop as many bytes are written as are kept, and the others stay or are filled; all of them are pending.
    ///
    /// The answer is then `Stopped`, unless the device refuses a part, which is handed on.
    #[tactic(auto, using(crate::proofs::Counting::capped_later))]
    fn write(&mut self, p: u32, at: u64, from: &[u8]) -> Result<(), DeviceFault>
        requires { at + length from.now ≤ D.extent self.old.device p }
        ensures call { IsCall (armed (of_disks D.Disks)) p self.old self.new result }
        ensures bytes { Writes at from.now result (D.told self.old.device p) (D.told self.new.device p) }
        ensures calls { calls_to self.new.plan p ≡ counted (calls_to self.old.plan p) }

        // the device within
        ensures touches { Touches (of_disks D.Disks) p self.old.device self.new.device }

        // what a planned stop does, and what waits after a call
        ensures once { due self.old.plan p ≡ None → D.calls self.new.device p ≡ counted (D.calls self.old.device p) }
        ensures passes { due self.old.plan p ≡ None → IsPassedOn (of_disks D.Disks) p result self.old self.new }
        ensures stops { IfSome (due self.old.plan p) (λ tear. ComesOrRefused (of_disks D.Disks) p (record { leaves = torn_disk tear at from.now; calls = torn_calls tear (length from.now) }) result self.old self.new) }
        ensures parts { IfSome (due self.old.plan p) (λ tear. D.calls self.new.device p ≡ counted_by (torn_calls tear (length from.now)) (D.calls self.old.device p)) }
        ensures waits { Waits p (after_answer result (one_fewer (waiting_for self.old.plan p))) self.old.plan self.new.plan }
        ensures elsewhere { (q : ℕ) → q ≢ p → came_to self.new.plan q ≡ came_to self.old.plan q }
    {
        match self.plan.call(p) {
            None => {
                let done = self.device.write(p, at, from);
                self.plan.heeded(p, done)
            }
            Some(tear) => {
                let done = torn_write(&mut self.device, tear, p, at, from);
                self.plan.comes(p, done)
            }
        }
    }

    /// At a planned stop nothing is made sure of, and the answer is `Stopped`.
    fn sync(&mut self, p: u32) -> Result<(), DeviceFault>
        ensures call { IsCall (armed (of_disks D.Disks)) p self.old self.new result }
        ensures bytes { Syncs result (D.told self.old.device p) (D.told self.new.device p) }
        ensures calls { calls_to self.new.plan p ≡ counted (calls_to self.old.plan p) }

        // the device within
        ensures touches { Touches (of_disks D.Disks) p self.old.device self.new.device }

        // what a planned stop does, and what waits after a call
        ensures once { due self.old.plan p ≡ None → D.calls self.new.device p ≡ counted (D.calls self.old.device p) }
        ensures passes { due self.old.plan p ≡ None → IsPassedOn (of_disks D.Disks) p result self.old self.new }
        ensures stops { IfSome (due self.old.plan p) (λ tear. IsPlannedAlone p result self.old self.new) }
        ensures waits { Waits p (after_answer result (one_fewer (waiting_for self.old.plan p))) self.old.plan self.new.plan }
        ensures elsewhere { (q : ℕ) → q ≢ p → came_to self.new.plan q ≡ came_to self.old.plan q }
    {
        match self.plan.call(p) {
            None => {
                let done = self.device.sync(p);
                self.plan.heeded(p, done)
            }
            Some(_) => self.plan.comes(p, Ok(())),
        }
    }
}
