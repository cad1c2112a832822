//! A part of a run that goes on from an earlier part, to its end.

ghost use Rattle.std.specs.Prelude.{◌≡◌, ◌<◌, ◌≤◌, ◌+◌, ◌*◌, ℕ, All, Err, IfOk, IsErrOf, List, None, OnErr, Some, false, length, reverse, slice_get};
ghost use Rattle.dc_checkpoint.specs.declared.faults.StoreFault.{StoreFault as StoreFaults};
ghost use Rattle.dc_course.specs.Continued.{IsCourseOn, IsEarlier, setting_from};
ghost use Rattle.dc_course.specs.Courses.{StoresLeft, TellsThroughout, account_of, counts_of};
ghost use Rattle.dc_course.specs.Headline.{system_in};
ghost use Rattle.dc_course.specs.Running.{output};
ghost use Rattle.dc_course.specs.declared.ending.Ending.TheVariants as endings;
ghost use Rattle.dc_elf.specs.declared.image.Image.{Image as Images};
ghost use Rattle.dc_media.specs.Causes.{Rose};
ghost use Rattle.dc_media.specs.Told.{TellsOn};
ghost use Rattle.dc_model.specs.FailureFree.{run as run_of};
ghost use Rattle.dc_model.specs.declared.visible.Visible.{Visible as Visibles};
ghost use Rattle.dc_processes.specs.Stages.{KeepsTelling};
ghost use Rattle.dc_recovery.specs.Recoveries.{resumed_core};
ghost use Rattle.dc_reread.specs.declared.faults.RereadFault.TheVariants as faults;
ghost use Rattle.dc_resume.specs.Suited.{IsFirstUnsuited, saves_in};
ghost use Rattle.dc_together.specs.Joints.{whose};
ghost use Rattle.dc_world.specs.Reopened.{HasHandle, HasNumber, IsFirstSteady, IsReadBeside, Refuses, Stood};

use crate::course::{Course, ended, ended_by, marks_for};
use crate::leaving::Journal;
use crate::planned::Planned;
use crate::running::Running;
use crate::setting::Scheduled;
use dc_media::Sink;
use dc_reread::RereadFault;
use dc_world::{Earlier, World};
use std::alloc::Global;

/// Goes on with a run behind its earlier part, over the stores that this left, up to the end of the schedule or to a fault, and writes the
/// lines of what its processes show. The schedule is the whole one; the entries that the earlier part took are not run again.
///
/// The device is lent with the stops that are planned for it; turns count from the opening of the first part on. Nothing was run where
/// the stores were not read beside the earlier part's acts. All room is taken before the first entry.
pub fn go_on<C: Planned + Drop, O: Sink>(
    alloc: Global,
    scheduled: Scheduled,
    earlier: &Earlier,
    dev: &mut C::Device,
    out: &mut O,
) -> Result<Course, RereadFault>
    requires taken { earlier.now.entries ≤ length scheduled.schedule.items }
    requires takers { All (λ x. x.p < length scheduled.setup.images.items) earlier.now.acts.now }
    requires acts { length earlier.now.acts.now ≤ earlier.now.entries }
    requires lines { earlier.now.lines ≤ earlier.now.entries }
    requires there { (p : ℕ) (words : ℕ) (image : Images) → slice_get scheduled.setup.images.items p ≡ Some image → 4 * words ≡ length image.memory.items → C.fits dev.old p words (whose (length scheduled.setup.images.items) p) }
    requires idle { C.idle dev.old }
    // Where the devices tell what they hold, the promise over both parts; and what a fault of a device or of the output says.
    ensures headline { IfOk result (λ course. TellsThroughout C.Checkpoint (length scheduled.setup.images.items) dev.old dev.new
        → (lines : List Visibles) → IsEarlier (setting_from scheduled (C.planned dev.old) earlier.now.entries) earlier.now lines
        → (read : C.Device) × C.continues dev.old read × ((p : ℕ) → p < length scheduled.setup.images.items → C.told read p) × (x : IsReadBeside C.Checkpoint (system_in (setting_from scheduled (C.planned dev.old) earlier.now.entries)) scheduled.setup.images.items earlier.now.acts.now dev.old read)
        × IsCourseOn (setting_from scheduled (C.planned dev.old) earlier.now.entries) lines
        (resumed_core x.given (reverse lines) (saves_in (system_in (setting_from scheduled (C.planned dev.old) earlier.now.entries)) x.stored)) (account_of course) course.ending
        (output (O.held out.old) (O.held out.new)) (counts_of C.unplanned C.calls dev.old dev.new) (λ core lent. StoresLeft C.Checkpoint (setting_from scheduled (C.planned dev.old) earlier.now.entries) core lent)) }
    ensures device { IfOk result (λ course. (p : ℕ) → course.ending ≡ endings.Device p → Rose (C.faults dev.old p) (C.faults dev.new p)) }
    ensures sink { IfOk result (λ course. course.ending ≡ endings.Sink → Rose (O.faults out.old) (O.faults out.new)) }
    ensures unkept { IfOk result (λ course. course.journal.kept ≡ false) }
    ensures unstopped { IfOk result (λ course. (p : ℕ) → ¬ (course.ending ≡ endings.Stopped p)) }
    ensures marks { IfOk result (λ course. earlier.now.entries + length course.marks.items ≤ length scheduled.schedule.items) }
    // Nothing was run.
    ensures unsuited { (p : ℕ) → IsErrOf result (faults.Unsuited p)
        → (x : IsReadBeside C.Checkpoint (system_in (setting_from scheduled (C.planned dev.old) earlier.now.entries)) scheduled.setup.images.items earlier.now.acts.now dev.old dev.new)
        × IsFirstUnsuited (system_in (setting_from scheduled (C.planned dev.old) earlier.now.entries)) x.given x.decided x.stored p }
    ensures unsteady { IsErrOf result faults.Unsteady → C.told dev.new 0 → ¬ IsFirstSteady C.Checkpoint scheduled.setup.images.items dev.old }
    ensures illegal { IsErrOf result faults.Illegal → run_of (system_in (setting_from scheduled (C.planned dev.old) earlier.now.entries)).guests earlier.now.acts.now ≡ None }
    ensures refused { (p : ℕ) (fault : StoreFaults) → IsErrOf result (faults.Refused p fault) → (d : ℕ) × Refuses C.Checkpoint scheduled.setup.images.items d dev.new p fault }
    ensures stopped { (p : ℕ) → IsErrOf result (faults.Stopped p) → (p < length scheduled.setup.images.items) × Rose (C.stops dev.old p) (C.stops dev.new p) }
    ensures failed { (p : ℕ) → IsErrOf result (faults.Failed p) → (p < length scheduled.setup.images.items) × Rose (C.faults dev.old p) (C.faults dev.new p) }
    ensures refused_under { (d : ℕ) → HasNumber C.Checkpoint scheduled.setup.images.items dev.new d
        → (p : ℕ) (fault : StoreFaults) → IsErrOf result (faults.Refused p fault) → Refuses C.Checkpoint scheduled.setup.images.items d dev.new p fault }
    ensures handles { (IsErrOf result faults.Memory → ⊥) → OnErr result ((p : ℕ) → HasHandle C.Checkpoint scheduled.setup.images.items p) }
    ensures stood { OnErr result ((d : ℕ) → HasNumber C.Checkpoint scheduled.setup.images.items dev.new d
        → HasNumber C.Checkpoint scheduled.setup.images.items dev.old d × Stood C.Checkpoint scheduled.setup.images.items d dev.old dev.new) }
    ensures wanting { IsErrOf result faults.Memory → (p : ℕ) → (C.stops dev.new p ≡ C.stops dev.old p) × (C.faults dev.new p ≡ C.faults dev.old p) }
    ensures unplanned { OnErr result ((p : ℕ) → C.stops dev.new p + C.unplanned dev.old p ≤ C.unplanned dev.new p + C.stops dev.old p) }
    ensures unopened { OnErr result (out.new ≡ out.old) }
    // What becomes of what was lent.
    ensures planned { (p : ℕ) → C.stops dev.new p + C.unplanned dev.old p + earlier.now.entries ≤ C.unplanned dev.new p + C.stops dev.old p + length scheduled.schedule.items }
    ensures loan { C.loan dev.old dev.new }
    ensures lasts { C.lasts dev.old dev.new }
    ensures tells { (p : ℕ) → KeepsTelling C.Checkpoint dev.old dev.new p }
    ensures others { (q : ℕ) → length scheduled.setup.images.items ≤ q → C.untouched dev.old dev.new q }
    ensures out_tells { TellsOn 0 (O.faults out.new) (O.held out.old) (O.held out.new) }
    ensures out_later { O.faults out.old ≤ O.faults out.new }
{
    let Scheduled { setup, schedule } = scheduled;
    let rest = &schedule[earlier.entries as usize..];
    let marks = marks_for(alloc, rest.len())?;
    let journal = Journal::new(alloc, false, 0)?;
    let world = World::<C>::reopen(alloc, setup, rest.len() as u32, earlier, dev)?;
    let mut running = Running {
        world,
        marks,
        journal,
        from: earlier.entries,
    };
    let ending = match running.run(rest, dev, out) {
        Ok(()) => ended(running.world.ended()),
        Err(fault) => ended_by(fault),
    };
    Ok(running.course(ending))
}
