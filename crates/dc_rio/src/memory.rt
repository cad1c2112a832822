//! Runs over recoverable memory.

ghost use Rattle.std.specs.Prelude.{◌≡◌, ◌<◌, ◌≤◌, ℕ, [], All, Err, IfOk, OnErr, length, false};
ghost use Rattle.dc_audit.specs.Journals.{IsOfSixteen};
ghost use Rattle.dc_course.specs.Courses.{IsCourse, account_of, counts_of, setting_of};
ghost use Rattle.dc_course.specs.Running.{output};
ghost use Rattle.dc_course.specs.Lent.{AreLeftFrom, KeepsTold, capped_by, TellsStores};
ghost use Rattle.dc_course.specs.declared.ending.Ending.TheVariants as endings;
ghost use Rattle.dc_media.specs.Causes.{Rose};
ghost use Rattle.dc_media.specs.Devices.{of_words};
ghost use Rattle.dc_media.specs.Told.{TellsOn};
ghost use Rattle.dc_world.specs.Opened.{IsCalmUnlessStopped};
ghost use Rattle.dc_rio.specs.Segments.{SegmentsLeft};
ghost use Rattle.dc_world.specs.declared.faults.OpenFault.TheVariants as opening;

use crate::words::OnWords;
use dc_armed::Armed;
use dc_course::{Course, Setting, run};
use dc_media::{Keeps, Sink};
use dc_vista::Segment;
use dc_world::OpenFault;
use std::alloc::Global;

/// Runs a schedule over recoverable memory: the store of each process is a segment of the words that are lent, which stop as planned.
/// Where its journal is kept it ends at its first stop.
pub fn run_on_memory<K: Keeps, O: Sink>(
    alloc: Global,
    setting: Setting,
    kept: bool,
    keeps: &mut K,
    out: &mut O,
) -> Result<Course, OpenFault>
    ensures headline { IfOk result (λ course. TellsStores (of_words K.Keeps) (length setting.scheduled.setup.images.items) keeps.old keeps.new →
        IsCourse (setting_of setting) (account_of course) course.ending (output (O.held out.old) (O.held out.new)) (counts_of K.stops (capped_by K.calls) keeps.old keeps.new)
        (λ core lent. SegmentsLeft K.Keeps (setting_of setting) core lent)) }
    ensures device { IfOk result (λ course. (p : ℕ) → course.ending ≡ endings.Device p → Rose (K.faults keeps.old p) (K.faults keeps.new p)) }
    ensures stop { IfOk result (λ course. setting.stops.items ≡ [] → (p : ℕ) → course.ending ≡ endings.Stopped p → (p < length setting.scheduled.setup.images.items) × Rose (K.stops keeps.old p) (K.stops keeps.new p)) }
    ensures kept { IfOk result (λ course. course.journal.kept ≡ kept) }
    ensures sixteen { IfOk result (λ course. All IsOfSixteen course.journal.lines.items) }
    ensures unkept { IfOk result (λ course. kept ≡ false → (p : ℕ) → ¬ (course.ending ≡ endings.Stopped p)) }
    ensures sink { IfOk result (λ course. course.ending ≡ endings.Sink → Rose (O.faults out.old) (O.faults out.new)) }
    ensures marks { IfOk result (λ course. length course.marks.items ≤ length setting.scheduled.schedule.items) }
    ensures failed { (p : ℕ) → result ≡ Err (opening.Failed p) → (p < length setting.scheduled.setup.images.items) × Rose (K.faults keeps.old p) (K.faults keeps.new p) }
    ensures wanting { result ≡ Err opening.Memory → (p : ℕ) → IsCalmUnlessStopped K.stops K.faults p keeps.old keeps.new }
    ensures unopened { OnErr result (out.new ≡ out.old) }
    ensures later { (p : ℕ) → (K.stops keeps.old p ≤ K.stops keeps.new p) × (K.faults keeps.old p ≤ K.faults keeps.new p) }
    ensures tells { (p : ℕ) → KeepsTold (of_words K.Keeps) keeps.old keeps.new p }
    ensures others { AreLeftFrom (length setting.scheduled.setup.images.items) (of_words K.Keeps) keeps.old keeps.new }
    ensures out_tells { TellsOn 0 (O.faults out.new) (O.held out.old) (O.held out.new) }
    ensures out_later { O.faults out.old ≤ O.faults out.new }
{
    let Setting { scheduled, stops } = setting;
    let mut armed = Armed::new(keeps, stops);
    let course = run::<OnWords<Segment<Armed<&mut K>>>, O>(alloc, scheduled, kept, &mut armed, out);
    let _lent = armed.into_device();
    course
}
