//! Runs on disks that go on from an earlier part.

ghost use Rattle.std.specs.Prelude.{◌≡◌, ◌<◌, ◌≤◌, ◌+◌, ℕ, All, IfErr, IfOk, IsErrOf, IsSome, List, None, OnErr, false, length, reverse};
ghost use Rattle.dc_checkpoint.specs.declared.faults.StoreFault.{StoreFault as StoreFaults};
ghost use Rattle.dc_course.specs.Continued.{IsCourseOn, IsEarlier, setting_from};
ghost use Rattle.dc_course.specs.Courses.{account_of, counts_of};
ghost use Rattle.dc_course.specs.Headline.{system_in};
ghost use Rattle.dc_course.specs.Lent.{AreLeftFrom, KeepsTold, TellsStores, capped_by};
ghost use Rattle.dc_course.specs.Running.{output};
ghost use Rattle.dc_course.specs.declared.ending.Ending.TheVariants as endings;
ghost use Rattle.dc_disk.specs.Logs.{AreLeftAt, AreLogsRead, FirstLogHas, IsFirstLogSteady, LogRefuses, LogsLeft, LogsStood, comes_of_content};
ghost use Rattle.dc_media.specs.Causes.{Rose};
ghost use Rattle.dc_media.specs.Devices.{of_disks};
ghost use Rattle.dc_media.specs.Told.{TellsOn};
ghost use Rattle.dc_model.specs.FailureFree.{run as run_of};
ghost use Rattle.dc_model.specs.declared.visible.Visible.{Visible as Visibles};
ghost use Rattle.dc_recovery.specs.Recoveries.{resumed_core};
ghost use Rattle.dc_reread.specs.declared.faults.RereadFault.TheVariants as faults;
ghost use Rattle.dc_resume.specs.Suited.{IsFirstUnsuited, saves_in};
ghost use Rattle.dc_world.specs.Opened.{IsCalmUnlessStopped};

use crate::stores::OnDisks;
use dc_armed::Armed;
use dc_course::{Course, Setting, go_on};
use dc_media::{Disks, Sink};
use dc_redo::Redo;
use dc_reread::RereadFault;
use dc_world::Earlier;
use std::alloc::Global;

/// Goes on with a run on disks behind its earlier part: the store of each process is the redo log that this left on the disk of its
/// number, which is lent, and stops as planned.
pub fn go_on_disks<D: Disks, O: Sink>(
    alloc: Global,
    setting: Setting,
    earlier: &Earlier,
    disks: &mut D,
    out: &mut O,
) -> Result<Course, RereadFault>
    requires taken { earlier.now.entries ≤ length setting.scheduled.schedule.items }
    requires takers { All (λ x. x.p < length setting.scheduled.setup.images.items) earlier.now.acts.now }
    requires acts { length earlier.now.acts.now ≤ earlier.now.entries }
    requires lines { earlier.now.lines ≤ earlier.now.entries }
    ensures headline { IfOk result (λ course. TellsStores (of_disks D.Disks) (length setting.scheduled.setup.images.items) disks.old disks.new
        → (lines : List Visibles) → IsEarlier (setting_from setting.scheduled setting.stops.items earlier.now.entries) earlier.now lines
        → (read : D) × ((p : ℕ) → p < length setting.scheduled.setup.images.items → IsSome (D.told read p)) × (x : AreLogsRead D.Disks (system_in (setting_from setting.scheduled setting.stops.items earlier.now.entries)) setting.scheduled.setup.images.items earlier.now.acts.now disks.old read)
        × IsCourseOn (setting_from setting.scheduled setting.stops.items earlier.now.entries) lines
        (resumed_core x.given (reverse lines) (saves_in (system_in (setting_from setting.scheduled setting.stops.items earlier.now.entries)) x.stored)) (account_of course) course.ending
        (output (O.held out.old) (O.held out.new)) (counts_of D.stops (capped_by D.calls) disks.old disks.new) (λ core lent. LogsLeft D.Disks (setting_from setting.scheduled setting.stops.items earlier.now.entries) core lent)) }
    ensures device { IfOk result (λ course. (p : ℕ) → course.ending ≡ endings.Device p → Rose (D.faults disks.old p) (D.faults disks.new p)) }
    ensures sink { IfOk result (λ course. course.ending ≡ endings.Sink → Rose (O.faults out.old) (O.faults out.new)) }
    ensures unkept { IfOk result (λ course. course.journal.kept ≡ false) }
    ensures unstopped { IfOk result (λ course. (p : ℕ) → ¬ (course.ending ≡ endings.Stopped p)) }
    ensures marks { IfOk result (λ course. earlier.now.entries + length course.marks.items ≤ length setting.scheduled.schedule.items) }
    // Nothing was run.
    ensures unsuited { (p : ℕ) → IsErrOf result (faults.Unsuited p)
        → (x : AreLogsRead D.Disks (system_in (setting_from setting.scheduled setting.stops.items earlier.now.entries)) setting.scheduled.setup.images.items earlier.now.acts.now disks.old disks.new)
        × IsFirstUnsuited (system_in (setting_from setting.scheduled setting.stops.items earlier.now.entries)) x.given x.decided x.stored p }
    ensures unsteady { IsErrOf result faults.Unsteady → IsSome (D.told disks.new 0) → ¬ IsFirstLogSteady D.Disks setting.scheduled.setup.images.items disks.old }
    ensures illegal { IsErrOf result faults.Illegal → run_of (system_in (setting_from setting.scheduled setting.stops.items earlier.now.entries)).guests earlier.now.acts.now ≡ None }
    ensures refused { (p : ℕ) (fault : StoreFaults) → IsErrOf result (faults.Refused p fault) → (d : ℕ) × LogRefuses D.Disks setting.scheduled.setup.images.items d disks.new p fault }
    ensures refused_under { (d : ℕ) → FirstLogHas D.Disks setting.scheduled.setup.images.items disks.new d
        → (p : ℕ) (fault : StoreFaults) → IsErrOf result (faults.Refused p fault) → LogRefuses D.Disks setting.scheduled.setup.images.items d disks.new p fault }
    ensures stood { (IsErrOf result faults.Memory → ⊥) → OnErr result ((d : ℕ) → FirstLogHas D.Disks setting.scheduled.setup.images.items disks.new d
        → FirstLogHas D.Disks setting.scheduled.setup.images.items disks.old d × LogsStood D.Disks setting.scheduled.setup.images.items d disks.old disks.new) }
    ensures resumable { AreLeftAt D.Disks (setting_from setting.scheduled setting.stops.items earlier.now.entries) earlier.now.entries earlier.now.lines earlier.now.acts.now disks.old
        → ((p : ℕ) → p < length setting.scheduled.setup.images.items → IsSome (D.told disks.new p)) → IfErr result (λ fault. comes_of_content fault ≡ false) }
    ensures stopped { (p : ℕ) → IsErrOf result (faults.Stopped p) → (p < length setting.scheduled.setup.images.items) × Rose (D.stops disks.old p) (D.stops disks.new p) }
    ensures failed { (p : ℕ) → IsErrOf result (faults.Failed p) → (p < length setting.scheduled.setup.images.items) × Rose (D.faults disks.old p) (D.faults disks.new p) }
    ensures wanting { IsErrOf result faults.Memory → (p : ℕ) → IsCalmUnlessStopped D.stops D.faults p disks.old disks.new }
    ensures unopened { OnErr result (out.new ≡ out.old) }
    // What becomes of what was lent.
    ensures later { (p : ℕ) → (D.stops disks.old p ≤ D.stops disks.new p) × (D.faults disks.old p ≤ D.faults disks.new p) }
    ensures tells { (p : ℕ) → KeepsTold (of_disks D.Disks) disks.old disks.new p }
    ensures others { AreLeftFrom (length setting.scheduled.setup.images.items) (of_disks D.Disks) disks.old disks.new }
    ensures out_tells { TellsOn 0 (O.faults out.new) (O.held out.old) (O.held out.new) }
    ensures out_later { O.faults out.old ≤ O.faults out.new }
{
    let Setting { scheduled, stops } = setting;
    let mut armed = Armed::new(disks, stops);
    let course = go_on::<OnDisks<Redo<Armed<&mut D>>>, O>(
        alloc, scheduled, earlier, &mut armed, out,
    );
    let _lent = armed.into_device();
    course
}
