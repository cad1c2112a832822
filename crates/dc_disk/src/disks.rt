//! Runs on disks.

ghost use Rattle.std.specs.Prelude.{◌≡◌, ◌<◌, ◌≤◌, ℕ, [], All, Err, IfOk, OnErr, length, false};
ghost use Rattle.dc_audit.specs.Journals.{IsOfSixteen};
ghost use Rattle.dc_course.specs.Courses.{IsCourse, account_of, counts_of, setting_of};
ghost use Rattle.dc_course.specs.Running.{output};
ghost use Rattle.dc_course.specs.Lent.{AreLeftFrom, KeepsTold, capped_by, TellsStores};
ghost use Rattle.dc_course.specs.declared.ending.Ending.TheVariants as endings;
ghost use Rattle.dc_media.specs.Causes.{Rose};
ghost use Rattle.dc_media.specs.Devices.{of_disks};
ghost use Rattle.dc_media.specs.Told.{TellsOn};
ghost use Rattle.dc_world.specs.Opened.{IsCalmUnlessStopped};
ghost use Rattle.dc_disk.specs.Logs.{LogsLeft};
ghost use Rattle.dc_world.specs.declared.faults.OpenFault.TheVariants as opening;

use crate::stores::OnDisks;
use dc_armed::Armed;
use dc_course::{Course, Setting, run};
use dc_media::{Disks, Sink};
use dc_redo::Redo;
use dc_world::OpenFault;
use std::alloc::Global;

/// Runs a schedule on disks: the store of each process is a redo log on the disk of its number that is lent, which stops as planned.
/// Where its journal is kept it ends at its first stop.
pub fn run_on_disks<D: Disks, O: Sink>(
    alloc: Global,
    setting: Setting,
    kept: bool,
    disks: &mut D,
    out: &mut O,
) -> Result<Course, OpenFault>
    ensures headline { IfOk result (λ course. TellsStores (of_disks D.Disks) (length setting.scheduled.setup.images.items) disks.old disks.new →
        IsCourse (setting_of setting) (account_of course) course.ending (output (O.held out.old) (O.held out.new)) (counts_of D.stops (capped_by D.calls) disks.old disks.new)
        (λ core lent. LogsLeft D.Disks (setting_of setting) core lent)) }
    ensures device { IfOk result (λ course. (p : ℕ) → course.ending ≡ endings.Device p → Rose (D.faults disks.old p) (D.faults disks.new p)) }
    ensures stop { IfOk result (λ course. setting.stops.items ≡ [] → (p : ℕ) → course.ending ≡ endings.Stopped p → (p < length setting.scheduled.setup.images.items) × Rose (D.stops disks.old p) (D.stops disks.new p)) }
    ensures kept { IfOk result (λ course. course.journal.kept ≡ kept) }
    ensures sixteen { IfOk result (λ course. All IsOfSixteen course.journal.lines.items) }
    ensures unkept { IfOk result (λ course. kept ≡ false → (p : ℕ) → ¬ (course.ending ≡ endings.Stopped p)) }
    ensures sink { IfOk result (λ course. course.ending ≡ endings.Sink → Rose (O.faults out.old) (O.faults out.new)) }
    ensures marks { IfOk result (λ course. length course.marks.items ≤ length setting.scheduled.schedule.items) }
    ensures failed { (p : ℕ) → result ≡ Err (opening.Failed p) → (p < length setting.scheduled.setup.images.items) × Rose (D.faults disks.old p) (D.faults disks.new p) }
    ensures wanting { result ≡ Err opening.Memory → (p : ℕ) → IsCalmUnlessStopped D.stops D.faults p disks.old disks.new }
    ensures unopened { OnErr result (out.new ≡ out.old) }
    ensures later { (p : ℕ) → (D.stops disks.old p ≤ D.stops disks.new p) × (D.faults disks.old p ≤ D.faults disks.new p) }
    ensures tells { (p : ℕ) → KeepsTold (of_disks D.Disks) disks.old disks.new p }
    ensures others { AreLeftFrom (length setting.scheduled.setup.images.items) (of_disks D.Disks) disks.old disks.new }
    ensures out_tells { TellsOn 0 (O.faults out.new) (O.held out.old) (O.held out.new) }
    ensures out_later { O.faults out.old ≤ O.faults out.new }
{
    let Setting { scheduled, stops } = setting;
    let mut armed = Armed::new(disks, stops);
    let course = run::<OnDisks<Redo<Armed<&mut D>>>, O>(alloc, scheduled, kept, &mut armed, out);
    let _lent = armed.into_device();
    course
}
