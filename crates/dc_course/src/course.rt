//! A run, from its opening to its end.

ghost use Rattle.std.specs.Prelude.{◌≡◌, ◌<◌, ◌≤◌, ◌+◌, ◌-◌, ℕ, All, Err, IfOk, OnErr, [], length, false};
ghost use Rattle.dc_audit.specs.Journals.{IsOfSixteen};
ghost use Rattle.dc_course.specs.Courses.{IsCourse, StoresLeft, TellsThroughout, account_of, counts_of, ending_by, ending_of, setting_on};
ghost use Rattle.dc_course.specs.Running.{output};
ghost use Rattle.dc_course.specs.declared.ending.Ending.TheVariants as endings;
ghost use Rattle.dc_media.specs.Causes.{Rose};
ghost use Rattle.dc_media.specs.Told.{TellsOn};
ghost use Rattle.dc_world.specs.Opened.{IsCalmUnlessStopped};
ghost use Rattle.dc_processes.specs.Stages.{KeepsTelling};
ghost use Rattle.dc_world.specs.declared.faults.OpenFault.TheVariants as opening;

use crate::ending::Ending;
use crate::leaving::Journal;
use crate::planned::Planned;
use crate::running::Running;
use crate::setting::Scheduled;
use dc_acts::{Acts, Reserved};
use dc_media::Sink;
use dc_model::Mark;
use dc_world::{OpenFault, TurnFault, World};
use std::alloc::{AllocError, Global};

/// What a run did, and how it ended.
#[derive(Drop)]
pub struct Course {
    /// The acts that count, in order.
    pub acts: Acts,
    /// The mark of each entry, in order. An entry that a fault ended has none.
    pub marks: Reserved<Mark>,
    /// How many whole lines were written, repeats counted.
    pub lines: u32,
    /// The journal, if one was kept.
    pub journal: Journal,
    pub ending: Ending,
}

impl<C: Planned + Drop> Running<C> {
    /// What the run did, when no more of it is needed.
    pub(crate) fn course(self, ending: Ending) -> Course
        ensures { result ≡ record { acts = self.world.processes.acts; marks = self.marks; lines = self.world.processes.lines; journal = self.journal; ending = ending } }
    {
        let Running {
            world,
            marks,
            journal,
            from: _,
        } = self;
        let lines = world.lines();
        Course {
            acts: world.into_acts(),
            marks,
            lines,
            journal,
            ending,
        }
    }
}

/// No marks, and room for so many.
pub(crate) fn marks_for(alloc: Global, entries: usize) -> Result<Reserved<Mark>, AllocError>
    ensures items { IfOk result (λ marks. marks.items ≡ []) }
    ensures room { IfOk result (λ marks. entries ≤ marks.room) }
{
    let mut marks = Reserved::new(alloc);
    marks.reserve(entries)?;
    Ok(marks)
}

/// What a fault of a world ends a run with.
pub(crate) fn ended_by(fault: TurnFault) -> Ending
    ensures { result ≡ ending_by fault }
{
    match fault {
        TurnFault::Device(p) => Ending::Device(p),
        TurnFault::Store(p, why) => Ending::Store(p, why),
        TurnFault::Sink => Ending::Sink,
    }
}

/// What a run ends with whose schedule is used up.
pub(crate) fn ended(all: bool) -> Ending
    ensures { result ≡ ending_of all }
{
    if all {
        Ending::Done
    } else {
        Ending::Unfinished
    }
}

/// Runs a schedule over a world that is opened for it, up to its end or to a fault, and writes the lines of what its processes show.
///
/// The device is lent with the stops that are planned for it. All room is taken in the opening; after it no want of memory is answered. Where a
/// journal is kept the run ends at its first stop.
/// `Failed(p)`: the device of that process's store failed as it was made, and nothing was run.
pub fn run<C: Planned + Drop, O: Sink>(
    alloc: Global,
    scheduled: Scheduled,
    kept: bool,
    dev: &mut C::Device,
    out: &mut O,
) -> Result<Course, OpenFault>
    requires idle { C.idle dev.old }
    // Where the devices tell what they hold, the promise; and what a fault of a device or of the output says.
    ensures headline { IfOk result (λ course. TellsThroughout C.Checkpoint (length scheduled.setup.images.items) dev.old dev.new →
        IsCourse (setting_on scheduled (C.planned dev.old)) (account_of course) course.ending (output (O.held out.old) (O.held out.new)) (counts_of C.unplanned C.calls dev.old dev.new)
        (λ core lent. StoresLeft C.Checkpoint (setting_on scheduled (C.planned dev.old)) core lent)) }
    ensures device { IfOk result (λ course. (p : ℕ) → course.ending ≡ endings.Device p → Rose (C.faults dev.old p) (C.faults dev.new p)) }
    ensures stop { IfOk result (λ course. (p : ℕ) → course.ending ≡ endings.Stopped p → (p < length scheduled.setup.images.items) × (C.planned dev.old ≡ [] → C.stops dev.old p ≡ C.unplanned dev.old p → Rose (C.unplanned dev.old p) (C.unplanned dev.new p))) }
    ensures kept { IfOk result (λ course. course.journal.kept ≡ kept) }
    ensures sixteen { IfOk result (λ course. All IsOfSixteen course.journal.lines.items) }
    ensures unkept { IfOk result (λ course. kept ≡ false → (p : ℕ) → ¬ (course.ending ≡ endings.Stopped p)) }
    ensures sink { IfOk result (λ course. course.ending ≡ endings.Sink → Rose (O.faults out.old) (O.faults out.new)) }
    ensures marks { IfOk result (λ course. length course.marks.items ≤ length scheduled.schedule.items) }
    // Nothing was run.
    ensures failed { (p : ℕ) → result ≡ Err (opening.Failed p) → (p < length scheduled.setup.images.items) × Rose (C.faults dev.old p) (C.faults dev.new p) }
    ensures wanting { result ≡ Err opening.Memory → (p : ℕ) → IsCalmUnlessStopped C.stops C.faults p dev.old dev.new }
    ensures unplanned { result ≡ Err opening.Memory → (p : ℕ) → C.stops dev.new p + C.unplanned dev.old p ≤ C.unplanned dev.new p + C.stops dev.old p }
    ensures unopened { OnErr result (out.new ≡ out.old) }
    // What becomes of what was lent.
    ensures planned { (p : ℕ) → C.stops dev.new p + C.unplanned dev.old p ≤ C.unplanned dev.new p + C.stops dev.old p + length scheduled.schedule.items }
    ensures loan { C.loan dev.old dev.new }
    ensures lasts { C.lasts dev.old dev.new }
    ensures tells { (p : ℕ) → KeepsTelling C.Checkpoint dev.old dev.new p }
    ensures others { (q : ℕ) → length scheduled.setup.images.items ≤ q → C.untouched dev.old dev.new q }
    ensures out_tells { TellsOn 0 (O.faults out.new) (O.held out.old) (O.held out.new) }
    ensures out_later { O.faults out.old ≤ O.faults out.new }
{
    let Scheduled { setup, schedule } = scheduled;
    let marks = marks_for(alloc, schedule.len())?;
    let journal = Journal::new(alloc, kept, schedule.len())?;
    let world = match World::<C>::open(alloc, setup, schedule.len() as u32, dev) {
        Ok(world) => world,
        Err(fault) => return Err(fault),
    };
    let mut running = Running {
        world,
        marks,
        journal,
        from: 0,
    };
    let ending = match running.run(&schedule, dev, out) {
        Ok(()) => match running.cut_by() {
            Some(p) => Ending::Stopped(p),
            None => ended(running.world.ended()),
        },
        Err(fault) => ended_by(fault),
    };
    Ok(running.course(ending))
}
