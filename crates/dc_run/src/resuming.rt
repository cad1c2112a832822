//! Going on with a run that was halted.

ghost use Rattle.std.specs.Prelude.{◌≡◌, ◌⊎◌, ◌≤◌, ◌<◌, ◌+◌, ◌^◌, ℕ, All, IfErr, IfOk, IfSome, IsErrOf, IsOkAnd, None, Ok, OnErr, Some, false, true, length, map};
ghost use Rattle.dc_checkpoint.specs.declared.faults.StoreFault.{StoreFault as StoreFaults};
ghost use Rattle.dc_command.specs.Command.{halted_view};
ghost use Rattle.dc_course.specs.Courses.{account_of};
ghost use Rattle.dc_course.specs.Lent.{AreLeftFrom, KeepsTold, TellsStores};
ghost use Rattle.dc_course.specs.Running.{output};
ghost use Rattle.dc_course.specs.declared.ending.Ending.TheVariants as endings;
ghost use Rattle.dc_disk.specs.Logs.{comes_of_content};
ghost use Rattle.dc_elf.specs.Loaded.{seen_image};
ghost use Rattle.dc_limits.specs.declared.bounds.TheConstants.{ENTRIES};
ghost use Rattle.dc_limits.specs.declared.sizes.TheConstants.{PROCESSES};
ghost use Rattle.dc_media.specs.Causes.{Rose};
ghost use Rattle.dc_media.specs.Devices.{of_disks};
ghost use Rattle.dc_media.specs.Told.{TellsOn};
ghost use Rattle.dc_model.proofs.Rising.{TurnsBelow};
ghost use Rattle.dc_reread.specs.declared.faults.RereadFault.TheVariants as faults;
ghost use Rattle.dc_shows.specs.Typed.{IsGivenRun};
ghost use Rattle.dc_run.specs.Checking.{TellsLine};
ghost use Rattle.dc_command.specs.Command.Asked.{ToResume};
ghost use Rattle.dc_run.specs.Commands.{IsExact, IsOpenedFor, stores_used, work_by};
ghost use Rattle.dc_run.specs.Headline.{Reports, course, loan, verdict_at};
ghost use Rattle.dc_run.specs.Opening.{Files};
ghost use Rattle.dc_run.specs.Outcomes.{IsNothing, status_of};
ghost use Rattle.dc_run.specs.Passing.{WritesPassingOn};
ghost use Rattle.dc_run.specs.Resumed.{GoesOnKept, HaveStood, IsFoundUnsuited, IsRefusedStore, IsResumed, IsUnsteady, IsUnsuited, WereLeft, unresumed_by};
ghost use Rattle.dc_run.specs.Resuming.{AsksToResume, Going as Goings, IsBehind, IsRunOf, comes_before, going_in, going_with, was_halted};
ghost use Rattle.dc_run.specs.Again.{going_of};
ghost use Rattle.dc_run.specs.Settings.{Answers, LibraryKept, has_ended, is_refusal, may_have_run, setting_of};
ghost use Rattle.dc_report.specs.Reads.{seen};
ghost use Rattle.dc_report.specs.Reports.{report_text};
ghost use Rattle.dc_run.specs.declared.verdict.Outlet.TheVariants as Outlets;
ghost use Rattle.dc_run.specs.declared.verdict.Verdict.{Verdict as Verdicts};
ghost use Rattle.dc_run.specs.declared.verdict.Which.{Which as Whose};
ghost use Rattle.dc_words.specs.Lists.{lists_of};
ghost use Rattle.dc_world.specs.Opened.{IsCalmUnlessStopped};

use crate::checking::report_at;
use crate::halting::{halt_behind, leaves_over, part_run};
use crate::opening::open;
use crate::program::{unreported, verdict_at};
use crate::refusal::verdict_of;
use crate::setting::OpenedRun;
use crate::{Did, Outcome, Verdict};
use dc_check::first_stray;
use dc_command::{Halted, Ledger, Order};
use dc_course::Course;
use dc_disk::go_on_disks;
use dc_media::{Disks, Library, Sink, SinkFailed};
use dc_model::Entry;
use dc_report::{Report, write_report};
use dc_reread::RereadFault;
use dc_world::Earlier;
use std::alloc::{AllocError, Global};

/// A run that goes on: what its plan opens, the report of the part before, and the first entry that is not run, if it is to be halted
/// again.
#[derive(Drop)]
pub struct Going {
    pub opened: OpenedRun,
    pub report: Report,
    pub halt: Option<u32>,
}

/// The status of a run that was halted.
const HALTED: u32 = 15;

/// Whether a report is that of a run that was halted with entries of its schedule left over.
fn was_halted(schedule: &[Entry], report: &Report) -> bool
    ensures { result ≡ was_halted schedule.now (seen report.now) }
{
    report.status == HALTED && (report.entries as usize) < schedule.len()
}

/// With the setting and the report.
fn going_with(alloc: Global, opened: OpenedRun, report: Report) -> Result<Going, Verdict>
    requires takers { All (λ x. x.p < length opened.setting.scheduled.setup.images.items) report.acts.items }
    requires few { length report.acts.items ≤ ENTRIES }
    ensures told { Answers going_of result (going_with opened.halt (setting_of opened) (seen report)) }
    ensures same { IfOk result (λ g. (g.opened ≡ opened) × (g.report ≡ report)) }
    ensures halted { IfOk result (λ g. was_halted opened.setting.scheduled.schedule.items (seen report) ≡ true) }
    ensures behind { IfOk result (λ g. IsBehind report.entries g.halt) }
    ensures early { (v : Verdicts) → IsErrOf result v → comes_before v ≡ true }
    ensures own { (w : Whose) → ¬ IsErrOf result (Verdict.LibraryFault w) }
    ensures ran { IfOk result (λ g. IsRunOf (setting_of opened) report.acts.items) }
{
    if !was_halted(&opened.setting.scheduled.schedule, &report) {
        return Err(Verdict::NotHalted);
    }
    let stray = first_stray(
        alloc,
        &opened.setting.scheduled.setup.images,
        &opened.setting.scheduled.setup.inputs,
        &opened.setting.scheduled.schedule,
        report.acts.as_slice(),
    );
    match stray {
        Ok(None) => {
            let halt = halt_behind(report.entries, opened.halt);
            Ok(Going {
                opened,
                report,
                halt,
            })
        }
        Ok(Some(position)) => Err(Verdict::NotARun(position)),
        Err(AllocError) => Err(Verdict::WantOfMemory),
    }
}

/// What the told files go on with: the plan, its guests and its schedule, then the report.
fn going_at<L: Library>(alloc: Global, names: &Halted, lib: &mut L) -> Result<Going, Verdict>
    ensures told { (files : Files) → L.files lib.old ≡ Some files → Answers going_of result (going_in files (halted_view names.now)) }
    ensures early { (v : Verdicts) → IsErrOf result v → comes_before v ≡ true }
    ensures takers { IfOk result (λ g. All (λ x. x.p < length g.opened.setting.scheduled.setup.images.items) g.report.acts.items) }
    ensures acts { IfOk result (λ g. length g.report.acts.items ≤ g.report.entries) }
    ensures lines { IfOk result (λ g. g.report.lines ≤ g.report.entries) }
    ensures taken { IfOk result (λ g. (g.report.entries < length g.opened.setting.scheduled.schedule.items) × IsBehind g.report.entries g.halt) }
    ensures before { IfOk result (λ g. TurnsBelow g.report.entries g.report.acts.items) }
    ensures ran { IfOk result (λ g. IsRunOf (setting_of g.opened) g.report.acts.items) }
    ensures given { IfOk result (λ g. IsGivenRun (map seen_image g.opened.setting.scheduled.setup.images.items) (lists_of g.opened.setting.scheduled.setup.inputs.items) g.opened.setting.scheduled.schedule.items) }
    ensures reached { (files : Files) (w : Whose) → L.files lib.old ≡ Some files → IsErrOf result (Verdict.LibraryFault w) → AsksToResume files (halted_view names.now) w }
    ensures fault { (w : Whose) → IsErrOf result (Verdict.LibraryFault w) → Rose (L.faults lib.old) (L.faults lib.new) }
    ensures library { LibraryKept (L.files lib.old) (L.files lib.new) (L.faults lib.old) (L.faults lib.new) }
{
    let order = Order {
        plan: names.plan,
        ledger: Ledger::Total,
    };
    let opened = match open(alloc, &order, lib) {
        Ok(opened) => opened,
        Err(refusal) => return Err(verdict_of(refusal)),
    };
    let n = opened.setting.scheduled.setup.images.len() as u32;
    let report = match report_at(alloc, lib, n, names.report) {
        Ok(report) => report,
        Err(refusal) => return Err(verdict_of(refusal)),
    };
    going_with(alloc, opened, report)
}

/// Goes on over the disks, up to the end of the schedule, to the halt, or to a fault.
fn go_on_with<D: Disks, O: Sink>(
    alloc: Global,
    going: Going,
    disks: &mut D,
    out: &mut O,
) -> Result<Course, RereadFault>
    requires takers { All (λ x. x.p < length going.opened.setting.scheduled.setup.images.items) going.report.acts.items }
    requires acts { length going.report.acts.items ≤ going.report.entries }
    requires lines { going.report.lines ≤ going.report.entries }
    requires taken { (going.report.entries < length going.opened.setting.scheduled.schedule.items) × IsBehind going.report.entries going.halt }
    requires before { TurnsBelow going.report.entries going.report.acts.items }
    requires ran { IsRunOf (setting_of going.opened) going.report.acts.items }
    ensures kept { IfOk result (λ run. GoesOnKept D.Disks (going_of going) (account_of run) run.ending (output (O.held out.old) (O.held out.new)) (loan disks.old disks.new)) }
    ensures unkept { IfOk result (λ run. run.journal.kept ≡ false) }
    ensures unstopped { IfOk result (λ run. (p : ℕ) → ¬ (run.ending ≡ endings.Stopped p)) }
    ensures device { IfOk result (λ run. (p : ℕ) → run.ending ≡ endings.Device p → Rose (D.faults disks.old p) (D.faults disks.new p)) }
    ensures sink { IfOk result (λ run. run.ending ≡ endings.Sink → Rose (O.faults out.old) (O.faults out.new)) }
    ensures marks { IfOk result (λ run. going.report.entries + length run.marks.items < 2 ^ 32) }
    ensures unsuited { (p : ℕ) → IsErrOf result (faults.Unsuited p) → IsFoundUnsuited D.Disks (going_of going) (loan disks.old disks.new) p }
    ensures unsteady { IsErrOf result faults.Unsteady → IsUnsteady D.Disks (going_of going) (loan disks.old disks.new) }
    ensures legal { ¬ IsErrOf result faults.Illegal }
    ensures resumable { WereLeft D.Disks (going_of going) (loan disks.old disks.new) → IfErr result (λ fault. comes_of_content fault ≡ false) }
    ensures refused { (p : ℕ) (fault : StoreFaults) → IsErrOf result (faults.Refused p fault) → IsRefusedStore D.Disks (going_of going) (loan disks.old disks.new) p fault }
    ensures stood { (IsErrOf result faults.Memory → ⊥) → OnErr result (HaveStood D.Disks (going_of going) (loan disks.old disks.new)) }
    ensures stopped { (p : ℕ) → IsErrOf result (faults.Stopped p) → Rose (D.stops disks.old p) (D.stops disks.new p) }
    ensures failed { (p : ℕ) → IsErrOf result (faults.Failed p) → Rose (D.faults disks.old p) (D.faults disks.new p) }
    ensures wanting { IsErrOf result faults.Memory → (p : ℕ) → IsCalmUnlessStopped D.stops D.faults p disks.old disks.new }
    ensures unopened { OnErr result (out.new ≡ out.old) }
    ensures later { (p : ℕ) → (D.stops disks.old p ≤ D.stops disks.new p) × (D.faults disks.old p ≤ D.faults disks.new p) }
    ensures tells { (p : ℕ) → KeepsTold (of_disks D.Disks) disks.old disks.new p }
    ensures others { AreLeftFrom (length going.opened.setting.scheduled.setup.images.items) (of_disks D.Disks) disks.old disks.new }
    ensures out_tells { TellsOn 0 (O.faults out.new) (O.held out.old) (O.held out.new) }
    ensures out_later { O.faults out.old ≤ O.faults out.new }
{
    let Going {
        opened,
        report,
        halt,
    } = going;
    let OpenedRun {
        ledger: _,
        medium: _,
        setting,
        halt: _,
    } = opened;
    let part = part_run(halt, setting);
    let earlier = Earlier {
        acts: report.acts.as_slice(),
        entries: report.entries,
        lines: report.lines,
    };
    go_on_disks(alloc, part, &earlier, disks, out)
}

/// The outcome of a run that went on.
fn outcome_of(halted: bool, course: Course) -> Outcome
    ensures { result ≡ record { verdict = verdict_at halted course.ending; did = Did.Resumed; acts = course.acts; marks = course.marks; lines = course.lines; difference = None } }
{
    let Course {
        acts,
        marks,
        lines,
        journal: _,
        ending,
    } = course;
    Outcome {
        verdict: verdict_at(halted, ending),
        did: Did::Resumed,
        acts,
        marks,
        lines,
        difference: None,
    }
}

/// Writes the report of both parts, the first of which took so many entries.
fn reported<R: Sink>(outcome: Outcome, entries: u32, report: &mut R) -> Outcome
    requires few { entries + length outcome.marks.items < 2 ^ 32 }
    ensures reports { Reports outcome.verdict result.verdict (report_text (status_of outcome.verdict) (entries + length outcome.marks.items) outcome.acts.items outcome.lines)
        (course (R.held report.old) (R.held report.new) (R.faults report.old) (R.faults report.new)) }
    ensures acts { result.acts ≡ outcome.acts }
    ensures marks { result.marks ≡ outcome.marks }
    ensures lines { result.lines ≡ outcome.lines }
    ensures did { result.did ≡ outcome.did }
    ensures difference { result.difference ≡ outcome.difference }
    ensures later { R.faults report.old ≤ R.faults report.new }
    ensures tells { TellsOn 0 (R.faults report.new) (R.held report.old) (R.held report.new) }
{
    let written = write_report(
        report,
        u32::from(outcome.status()),
        entries + outcome.marks.as_slice().len() as u32,
        &outcome.acts,
        outcome.lines,
    );
    match written {
        Ok(()) => outcome,
        Err(SinkFailed) => Outcome {
            verdict: unreported(outcome.verdict),
            ..outcome
        },
    }
}

/// What a run is answered that did not go on.
fn unresumed(fault: RereadFault) -> Verdict
    requires { ¬ (fault ≡ faults.Illegal) }
    ensures { result ≡ unresumed_by fault }
{
    match fault {
        RereadFault::Memory => Verdict::WantOfMemory,
        RereadFault::Stopped(p) => Verdict::DeviceStopped(p),
        RereadFault::Failed(p) => Verdict::DeviceFault(p),
        RereadFault::Refused(p, fault) => Verdict::StoreRefused(p, fault),
        RereadFault::Unsteady => Verdict::StoreUnsuited(0),
        RereadFault::Unsuited(p) => Verdict::StoreUnsuited(p),
        RereadFault::Illegal => unreachable!(),
    }
}

/// Goes on with the run of the plan of that name, which was halted and left the report of that name and its stores on the disks, writes
/// the lines of what its guests show, and the report of both parts.
pub fn resume_run<L: Library, D: Disks, O: Sink, R: Sink>(
    alloc: Global,
    names: &Halted,
    lib: &mut L,
    disks: &mut D,
    out: &mut O,
    report: &mut R,
) -> Outcome
    ensures refused { (refusal : Verdicts) → is_refusal refusal ≡ true → IfSome (L.files lib.old) (λ files. IsExact result.verdict refusal (going_in files (halted_view names.now))) }
    ensures opened { IfSome (L.files lib.old) (λ files. IsOpenedFor (λ going v. may_have_run v) result.verdict (going_in files (halted_view names.now))) }
    ensures asked { ¬ (result.verdict ≡ Verdict.Usage) }
    ensures unsaved { (event line : ℕ) → ¬ (result.verdict ≡ Verdict.NotSaved event line) }
    ensures library_fault { (which : Whose) → result.verdict ≡ Verdict.LibraryFault which → Rose (L.faults lib.old) (L.faults lib.new) }
    ensures library_asked { (which : Whose) → IfSome (L.files lib.old) (λ files. result.verdict ≡ Verdict.LibraryFault which → AsksToResume files (halted_view names.now) which) }
    ensures device_fault { (p : ℕ) → result.verdict ≡ Verdict.DeviceFault p → Rose (D.faults disks.old p) (D.faults disks.new p) }
    ensures device_stop { (p : ℕ) → result.verdict ≡ Verdict.DeviceStopped p → Rose (D.stops disks.old p) (D.stops disks.new p) }
    ensures stopped_before { (p : ℕ) → result.verdict ≡ Verdict.DeviceStopped p → result.did ≡ Did.Nothing }
    ensures wanting { result.verdict ≡ Verdict.WantOfMemory → (p : ℕ) → IsCalmUnlessStopped D.stops D.faults p disks.old disks.new }
    ensures output_fault { result.verdict ≡ Verdict.SinkFault Outlets.Out → Rose (O.faults out.old) (O.faults out.new) }
    ensures report_fault { result.verdict ≡ Verdict.SinkFault Outlets.Report → Rose (R.faults report.old) (R.faults report.new) }
    ensures resumed { result.did ≡ Did.Resumed → IfSome (L.files lib.old) (λ files. IsOkAnd (going_in files (halted_view names.now)) (λ going.
        IsResumed going D.Disks result (loan disks.old disks.new) (course (O.held out.old) (O.held out.new) (O.faults out.old) (O.faults out.new)) (course (R.held report.old) (R.held report.new) (R.faults report.old) (R.faults report.new)))) }
    ensures went { result.did ≡ Did.Resumed → (going : Goings) × IsRunOf going.setting going.report.acts ×
        IsResumed going D.Disks result (loan disks.old disks.new) (course (O.held out.old) (O.held out.new) (O.faults out.old) (O.faults out.new)) (course (R.held report.old) (R.held report.new) (R.faults report.old) (R.faults report.new)) }
    ensures passes { result.did ≡ Did.Resumed → IfSome (L.files lib.old) (λ files. IsOkAnd (going_in files (halted_view names.now)) (λ going.
        TellsStores (of_disks D.Disks) (length going.setting.images) disks.old disks.new → WritesPassingOn going (course (O.held out.old) (O.held out.new) (O.faults out.old) (O.faults out.new))
        (course (R.held report.old) (R.held report.new) (R.faults report.old) (R.faults report.new)) result)) }
    ensures unsuited { (p : ℕ) → result.verdict ≡ Verdict.StoreUnsuited p → IfSome (L.files lib.old) (λ files. IsOkAnd (going_in files (halted_view names.now)) (λ going.
        IsUnsuited D.Disks going (loan disks.old disks.new) p)) }
    ensures store { (p : ℕ) (fault : StoreFaults) → result.verdict ≡ Verdict.StoreRefused p fault → result.did ≡ Did.Nothing → IfSome (L.files lib.old) (λ files. IsOkAnd (going_in files (halted_view names.now)) (λ going.
        IsRefusedStore D.Disks going (loan disks.old disks.new) p fault)) }
    ensures stood { result.did ≡ Did.Nothing → may_have_run result.verdict ≡ true → IfSome (L.files lib.old) (λ files. IsOkAnd (going_in files (halted_view names.now)) (λ going. HaveStood D.Disks going (loan disks.old disks.new))) }
    ensures did { (result.did ≡ Did.Resumed) ⊎ (result.did ≡ Did.Nothing) }
    ensures did_resume { has_ended result.verdict ≡ true → result.did ≡ Did.Resumed }
    ensures idle { may_have_run result.verdict ≡ false → result.did ≡ Did.Nothing }
    ensures line { TellsLine result }
    ensures unopened { result.did ≡ Did.Nothing → IsNothing result × (out.new ≡ out.old) × (report.new ≡ report.old) }
    ensures library { LibraryKept (L.files lib.old) (L.files lib.new) (L.faults lib.old) (L.faults lib.new) }
    ensures tells { TellsOn 0 (O.faults out.new) (O.held out.old) (O.held out.new) }
    ensures report_tells { TellsOn 0 (R.faults report.new) (R.held report.old) (R.held report.new) }
    ensures output_later { O.faults out.old ≤ O.faults out.new }
    ensures report_later { R.faults report.old ≤ R.faults report.new }
    ensures disks_refused { may_have_run result.verdict ≡ false → (result.verdict ≡ Verdict.WantOfMemory → ⊥) → disks.new ≡ disks.old }
    ensures disks_later { (p : ℕ) → (D.stops disks.old p ≤ D.stops disks.new p) × (D.faults disks.old p ≤ D.faults disks.new p) }
    ensures disks_tells { (p : ℕ) → KeepsTold (of_disks D.Disks) disks.old disks.new p }
    ensures disks_others { IfSome (L.files lib.old) (λ files. AreLeftFrom (stores_used (work_by files (ToResume (halted_view names.now)))) (of_disks D.Disks) disks.old disks.new) }
    ensures disks_beyond { AreLeftFrom PROCESSES (of_disks D.Disks) disks.old disks.new }
{
    let going = match going_at(alloc, names, lib) {
        Ok(going) => going,
        Err(verdict) => return Outcome::idle(alloc, verdict),
    };
    let entries = going.report.entries;
    let halted = leaves_over(going.halt, &going.opened.setting.scheduled.schedule);
    match go_on_with(alloc, going, disks, out) {
        Ok(course) => reported(outcome_of(halted, course), entries, report),
        Err(fault) => Outcome::idle(alloc, unresumed(fault)),
    }
}
