//! A run that was opened: one entry after the other.

ghost use Rattle.std.specs.Prelude.{◌≡◌, ◌⊎◌, ◌<◌, ◌≤◌, ◌+◌, ◌*◌, ◌-◌, ◌^◌, ◌++◌, ◌∷◌, [], ℕ, All, IfOk, IfSome, IsErrOf, IsOk, IsSomeAnd, OnErr, OnOk, None, Some, false, true, length, slice_get};
ghost use Rattle.dc_armed.specs.Armed.{IsUnrefused};
ghost use Rattle.dc_audit.specs.Journals.{IsOfSixteen};
ghost use Rattle.dc_armed.specs.Stops.{first_stop};
ghost use Rattle.dc_course.specs.Headline.{IsCountedOn, is_planned, is_stopped, turn_after};
ghost use Rattle.dc_course.specs.Headline.{Setting as Settings};
ghost use Rattle.dc_course.specs.Journals.{AreCutAtStop, KeepsJournal, cut_by, noted_of};
ghost use Rattle.dc_course.specs.Running.{IsRest, IsSettingOf, RunsOff, RunsOn, StepsOff, StepsOn, moment_of};
ghost use Rattle.dc_course.specs.Traces.{RunsBy};
ghost use Rattle.dc_media.specs.Causes.{Rose};
ghost use Rattle.dc_media.specs.Told.{TellsOn};
ghost use Rattle.dc_media.specs.declared.planned.PlannedStop.{PlannedStop as PlannedStops};
ghost use Rattle.dc_model.specs.declared.mark.Mark.TheVariants as marks;
ghost use Rattle.dc_recovery.specs.Core.{Core};
ghost use Rattle.dc_recovery.specs.Unstopped.{Unstopped};
ghost use Rattle.dc_processes.specs.Stages.{KeepsTelling};
ghost use Rattle.dc_world.specs.Worlds.{IsOfProcesses, IsPartOf, MayRun};
ghost use Rattle.dc_world.specs.declared.faults.TurnFault.TheVariants as faults;
ghost use Rattle.dc_world.specs.declared.faults.TurnFault.{TurnFault as TurnFaults};

use crate::leaving::Journal;
use crate::planned::Planned;
use dc_acts::Reserved;
use dc_limits::ENTRIES;
use dc_media::Sink;
use dc_model::{Entry, Mark};
use dc_world::{TurnFault, World};

/// A run that was opened: its world, the marks of its entries, its journal, and how many entries an earlier part of it took.
#[derive(Drop)]
pub struct Running<C: Drop> {
    pub world: World<C>,
    pub marks: Reserved<Mark>,
    pub journal: Journal,
    pub from: u32,
}

/// Begins a turn of a world.
fn begin<C: Planned + Drop>(world: &World<C>, dev: &mut C::Device, turn: u32)
    requires ready { MayRun C.Checkpoint world.now dev.old }
    ensures ready { MayRun C.Checkpoint world.now dev.new }
    ensures untouched { (q : ℕ) → C.untouched dev.old dev.new q }
    ensures same { (q : ℕ) → (C.stops dev.new q ≡ C.stops dev.old q) × (C.faults dev.new q ≡ C.faults dev.old q) }
    ensures tells { (q : ℕ) → C.told dev.old q → C.told dev.new q }
    ensures lasts { (now : C.Device) → C.continues dev.new now → C.lasts dev.old now }
    ensures once { (now : C.Device) (p : ℕ) → C.continues dev.new now → C.stops now p + C.unplanned dev.old p ≤ C.unplanned now p + C.stops dev.old p + 1 }
    ensures stopped { (now : C.Device) (p : ℕ) → C.continues dev.new now → is_planned (C.planned dev.old) turn p ≡ false
        → Rose (C.stops dev.old p) (C.stops now p) → C.stops now p < 2 ^ 64 - 1 → C.unplanned dev.old p < C.unplanned now p }
    ensures alone { (now : C.Device) (p : ℕ) → C.continues dev.new now → is_planned (C.planned dev.old) turn p ≡ false → C.stops now p + C.unplanned dev.old p ≤ C.unplanned now p + C.stops dev.old p }
    ensures comes { (now : C.Device) (p : ℕ) → C.continues dev.new now → IsUnrefused C.stops C.faults p dev.old now
        → IfSome (first_stop (C.planned dev.old) turn p) (λ stop. C.calls now p < C.calls dev.old p + stop.call) }
    ensures punctual { (now : C.Device) (p : ℕ) (stop : PlannedStops) → C.continues dev.new now → first_stop (C.planned dev.old) turn p ≡ Some stop → C.faults now p ≡ C.faults dev.old p → C.faults now p < 2 ^ 64 - 1
        → C.calls now p < 2 ^ 64 - 1 → C.stops dev.old p + C.unplanned now p < C.stops now p + C.unplanned dev.old p → C.calls dev.old p + stop.call ≤ C.calls now p + 1 }
{
    C::at_turn(dev, turn);
}

impl<C: Planned + Drop> Running<C> {
    /// The number of the turn that comes next.
    fn next_turn(&self) -> u32
        requires few { self.now.from + length self.now.marks.items < 2 ^ 32 }
        ensures { result ≡ self.now.from + length self.now.marks.items }
    {
        self.from + self.marks.len() as u32
    }

    /// Runs one entry, and notes and answers its mark. At a fault it has none.
    pub fn entry<O: Sink>(
        &mut self,
        entry: &Entry,
        dev: &mut C::Device,
        out: &mut O,
    ) -> Result<Mark, TurnFault>
        requires ready { MayRun C.Checkpoint self.old.world dev.old }
        requires left { 0 < self.old.world.processes.left }
        requires process { IsOfProcesses (length self.old.world.processes.slots.items) entry.now }
        requires room { length self.old.marks.items < self.old.marks.room }
        requires few { self.old.from + length self.old.marks.items < 2 ^ 32 }
        ensures ready { MayRun C.Checkpoint self.new.world dev.new }
        ensures left { self.new.world.processes.left + 1 ≡ self.old.world.processes.left }
        ensures from { self.new.from ≡ self.old.from }
        ensures journal { self.new.journal ≡ self.old.journal }
        ensures protocol { self.new.world.processes.protocol ≡ self.old.world.processes.protocol }
        ensures long { length self.new.world.processes.slots.items ≡ length self.old.world.processes.slots.items }
        ensures room { self.old.marks.room ≤ self.new.marks.room }
        ensures noted { IfOk result (λ mark. self.new.marks.items ≡ self.old.marks.items ++ mark ∷ []) }
        ensures unmarked { OnErr result (self.new.marks.items ≡ self.old.marks.items) }
        ensures steps_on { OnOk result (StepsOn C.Checkpoint entry.now (moment_of self.old dev.old (O.held out.old)) (moment_of self.new dev.new (O.held out.new))) }
        ensures steps_off { (fault : TurnFaults) → IsErrOf result fault → StepsOff C.Checkpoint entry.now fault (moment_of self.old dev.old (O.held out.old)) (moment_of self.new dev.new (O.held out.new)) }
        ensures device { (p : ℕ) → IsErrOf result (faults.Device p) → IsPartOf self.old.world p entry.now × Rose (C.faults dev.old p) (C.faults dev.new p) }
        ensures sink { IsErrOf result faults.Sink → Rose (O.faults out.old) (O.faults out.new) }
        ensures lasts { C.lasts dev.old dev.new }
        ensures stops { (setting : Settings) (p : ℕ) → IsSettingOf self.old setting → setting.stops ≡ C.planned dev.old → slice_get setting.schedule (turn_after setting self.old.marks.items) ≡ Some entry.now → ((q : ℕ) → q < length setting.images → C.stops dev.new q < 2 ^ 64 - 1)
            → IsCountedOn setting p self.old.marks.items self.new.marks.items (C.unplanned dev.old) (C.unplanned dev.new) }
        // Between the devices before and after: no stop that was planned was left out, and none came sooner than at its call.
        ensures come { IfOk result (λ mark. (p : ℕ) → is_stopped mark ≡ false → IsPartOf self.old.world p entry.now → C.stops dev.new p < 2 ^ 64 - 1 → C.faults dev.new p < 2 ^ 64 - 1
            → IfSome (first_stop (C.planned dev.old) (self.old.from + length self.old.marks.items) p) (λ stop. C.calls dev.new p < C.calls dev.old p + stop.call)) }
        ensures punctual { (p : ℕ) (stop : PlannedStops) → first_stop (C.planned dev.old) (self.old.from + length self.old.marks.items) p ≡ Some stop → C.faults dev.new p ≡ C.faults dev.old p → C.faults dev.new p < 2 ^ 64 - 1
            → C.calls dev.new p < 2 ^ 64 - 1 → C.stops dev.old p + C.unplanned dev.new p < C.stops dev.new p + C.unplanned dev.old p → C.calls dev.old p + stop.call ≤ C.calls dev.new p + 1 }
        ensures stopped { IfOk result (λ mark. mark ≡ marks.Stopped → IsSomeAnd self.new.world.stopped (λ p. IsPartOf self.old.world p entry.now × Rose (C.stops dev.old p) (C.stops dev.new p))) }
        ensures unstopped { IfOk result (λ mark. (mark ≡ marks.Stopped → ⊥) → self.new.world.stopped ≡ self.old.world.stopped) }
        ensures unplanned { IfOk result (λ mark. mark ≡ marks.Stopped → ((p : ℕ) → IsPartOf self.old.world p entry.now → (is_planned (C.planned dev.old) (self.old.from + length self.old.marks.items) p ≡ false) × (C.stops dev.new p < 2 ^ 64 - 1))
            → (p : ℕ) × IsPartOf self.old.world p entry.now × (C.unplanned dev.old p < C.unplanned dev.new p)) }
        ensures once { (p : ℕ) → C.stops dev.new p + C.unplanned dev.old p ≤ C.unplanned dev.new p + C.stops dev.old p + 1 }
        ensures alone { C.planned dev.old ≡ [] → (p : ℕ) → C.stops dev.new p + C.unplanned dev.old p ≤ C.unplanned dev.new p + C.stops dev.old p }
        ensures later { (p : ℕ) → (C.stops dev.old p ≤ C.stops dev.new p) × (C.faults dev.old p ≤ C.faults dev.new p) }
        ensures tells { (p : ℕ) → KeepsTelling C.Checkpoint dev.old dev.new p }
        ensures others { (q : ℕ) → length self.old.world.processes.slots.items ≤ q → C.untouched dev.old dev.new q }
        ensures out_tells { TellsOn 0 (O.faults out.new) (O.held out.old) (O.held out.new) }
        ensures out_later { O.faults out.old ≤ O.faults out.new }
    {
        begin(&self.world, dev, self.next_turn());
        match self.world.turn(entry, dev, out) {
            Ok(mark) => {
                self.marks.push(mark);
                Ok(mark)
            }
            Err(fault) => Err(fault),
        }
    }

    /// The process whose stop ends the run: where it keeps a journal it ends at the first.
    pub fn cut_by(&self) -> Option<u32>
        ensures { result ≡ cut_by self.now }
    {
        if self.journal.kept {
            self.world.stopped()
        } else {
            None
        }
    }

    /// The rest of a schedule, entry by entry, up to a fault, or up to a stop where a journal is kept.
    pub fn run<O: Sink>(
        &mut self,
        schedule: &[Entry],
        dev: &mut C::Device,
        out: &mut O,
    ) -> Result<(), TurnFault>
        requires ready { MayRun C.Checkpoint self.old.world dev.old }
        requires begun { self.old.marks.items ≡ [] }
        requires left { length schedule.now ≤ self.old.world.processes.left }
        requires processes { All (IsOfProcesses (length self.old.world.processes.slots.items)) schedule.now }
        requires room { length schedule.now ≤ self.old.marks.room }
        requires few { self.old.from + length schedule.now ≤ ENTRIES }
        requires journal { self.old.journal.kept ≡ true → length self.old.journal.lines.items + 2 * length schedule.now ≤ self.old.journal.lines.room }
        ensures ready { MayRun C.Checkpoint self.new.world dev.new }
        ensures long { length self.new.world.processes.slots.items ≡ length self.old.world.processes.slots.items }
        ensures used { OnOk result (cut_by self.new ≡ None → length self.new.marks.items ≡ length schedule.now) }
        ensures whole { OnOk result (self.new.world.stopped ≡ None → (self.old.world.stopped ≡ None) × Unstopped self.new.marks.items) }
        ensures broken { OnErr result (self.old.journal.kept ≡ true → (self.old.world.stopped ≡ None) × Unstopped self.new.marks.items) }
        ensures stop { OnOk result (self.old.journal.kept ≡ true → IfSome self.new.world.stopped (λ p. ((self.old.world.stopped ≡ Some p) × (self.new.marks.items ≡ []))
            ⊎ ((self.old.world.stopped ≡ None) × (p < length self.old.world.processes.slots.items) × Rose (C.stops dev.old p) (C.stops dev.new p) × AreCutAtStop self.new.marks.items))) }
        ensures kept { self.new.journal.kept ≡ self.old.journal.kept }
        ensures sixteen { All IsOfSixteen self.old.journal.lines.items → All IsOfSixteen self.new.journal.lines.items }
        ensures journal { self.old.journal.kept ≡ true → KeepsJournal C.Checkpoint schedule.now (noted_of self.old dev.old (O.held out.old)) (noted_of self.new dev.new (O.held out.new)) }
        ensures few { length self.new.marks.items ≤ length schedule.now }
        ensures runs_on { OnOk result (RunsOn C.Checkpoint schedule.now (moment_of self.old dev.old (O.held out.old)) (moment_of self.new dev.new (O.held out.new))) }
        ensures runs_off { (fault : TurnFaults) → IsErrOf result fault → RunsOff C.Checkpoint schedule.now fault (moment_of self.old dev.old (O.held out.old)) (moment_of self.new dev.new (O.held out.new)) }
        ensures device { (p : ℕ) → IsErrOf result (faults.Device p) → Rose (C.faults dev.old p) (C.faults dev.new p) }
        ensures sink { IsErrOf result faults.Sink → Rose (O.faults out.old) (O.faults out.new) }
        ensures lasts { C.lasts dev.old dev.new }
        ensures stops { (setting : Settings) (p : ℕ) → IsSettingOf self.old setting → setting.stops ≡ C.planned dev.old → IsRest setting schedule.now → ((q : ℕ) → q < length setting.images → C.stops dev.new q < 2 ^ 64 - 1)
            → IsCountedOn setting p self.old.marks.items self.new.marks.items (C.unplanned dev.old) (C.unplanned dev.new) }
        ensures come { (setting : Settings) (begun : Core) → IsSettingOf self.old setting → setting.stops ≡ C.planned dev.old → IsRest setting schedule.now
            → RunsBy C.Checkpoint C.calls setting begun (moment_of self.old dev.old (O.held out.old)) (moment_of self.new dev.new (O.held out.new)) (IsOk result) }
        ensures planned { (p : ℕ) → C.stops dev.new p + C.unplanned dev.old p ≤ C.unplanned dev.new p + C.stops dev.old p + length schedule.now }
        ensures alone { C.planned dev.old ≡ [] → (p : ℕ) → C.stops dev.new p + C.unplanned dev.old p ≤ C.unplanned dev.new p + C.stops dev.old p }
        ensures later { (p : ℕ) → (C.stops dev.old p ≤ C.stops dev.new p) × (C.faults dev.old p ≤ C.faults dev.new p) }
        ensures tells { (p : ℕ) → KeepsTelling C.Checkpoint dev.old dev.new p }
        ensures others { (q : ℕ) → length self.old.world.processes.slots.items ≤ q → C.untouched dev.old dev.new q }
        ensures out_tells { TellsOn 0 (O.faults out.new) (O.held out.old) (O.held out.new) }
        ensures out_later { O.faults out.old ≤ O.faults out.new }
    {
        for entry in schedule {
            if self.cut_by().is_some() {
                return Ok(());
            }
            let count = self.journal.leave(&self.world, entry, dev);
            match self.entry(entry, dev, out) {
                Ok(mark) => self.journal.settle(mark, count),
                Err(fault) => {
                    self.journal.cut_off(count);
                    return Err(fault);
                }
            }
        }
        Ok(())
    }
}
