ghost use Rattle.std.specs.Prelude.{◌≡◌, [], ◌⊎◌, ◌≤◌, ◌<◌, ◌^◌, ℕ, All, Err, None, Some, false, true, IfOk, IfSome, IsOkAnd, IsSomeAnd, List, OnErr, length};
ghost use Rattle.dc_asm.specs.declared.forms.Meant.{Meant};
ghost use Rattle.dc_audit.specs.Journals.{IsOfSixteen};
ghost use Rattle.dc_audit.specs.Reading.{IsVerdict, Journal as Journals};
ghost use Rattle.dc_audit.specs.declared.verdict.Verdict.TheVariants as found;
ghost use Rattle.dc_course.specs.Courses.{account_of, journal_in, setting_of as given_of};
ghost use Rattle.dc_checkpoint.specs.declared.faults.StoreFault.{StoreFault as StoreFaults};
ghost use Rattle.dc_course.specs.Running.{output};
ghost use Rattle.dc_course.specs.Lent.{AreLeftFrom, KeepsTold, TellsStores};
ghost use Rattle.dc_course.specs.declared.ending.Ending.TheVariants as endings;
ghost use Rattle.dc_world.specs.Opened.{IsCalmUnlessStopped};
ghost use Rattle.dc_world.specs.declared.faults.OpenFault.TheVariants as opening;
ghost use Rattle.dc_limits.specs.declared.sizes.TheConstants.{PROCESSES};
ghost use Rattle.dc_media.specs.Causes.{HasCause, Rose};
ghost use Rattle.dc_media.specs.Sinks.{TakesWhole};
ghost use Rattle.dc_media.specs.Devices.{of_disks, of_words};
ghost use Rattle.dc_media.specs.Told.{TellsOn};
ghost use Rattle.dc_run.specs.Assembling.{IsAssembled};
ghost use Rattle.dc_run.specs.Auditing.{IsAudited};
ghost use Rattle.dc_run.specs.Checking.{Checked, IsChecked, TellsDifference, TellsLine};
ghost use Rattle.dc_command.specs.Command.{Names, asked_of, order_view, to_run};
ghost use Rattle.dc_command.specs.Command.{Order as Orders};
ghost use Rattle.dc_command.specs.Command.Asked.{ToAssemble, ToAudit, ToCheck, ToRun};
ghost use Rattle.dc_run.specs.Commands.{AreCalm, Asks, AsksToGoOn, AsksToRunPlan, IfAssembly, IfAudit, IfCheck, IfFound, IfResume, IfRun, IsCarriedOut, IsExact, IsOpenedFor, TellsFor, may_end, medium_of, stores_used, unasked_by, work_by, work_of};
ghost use Rattle.dc_run.specs.Headline.{account_of as outcome_account};
ghost use Rattle.dc_run.specs.Headline.{IsKept, IsReported, Reports, course, is_used_up, keeps_journal, ledger_text, loan, unopened_by, unreported, used_up_at, verdict_at};
ghost use Rattle.dc_run.specs.Media.{HasFailed, HasStopped, IsOtherSame, devices_of, lent};
ghost use Rattle.dc_run.specs.Opening.{AsksToRun, Task, medium_at, opening_of, task_in};
ghost use Rattle.dc_run.specs.Resumed.{HaveStood, IsRefusedStore, IsResumed, IsUnsuited};
ghost use Rattle.dc_run.specs.Resuming.{Going as Goings, IsRunOf};
ghost use Rattle.dc_run.specs.Outcomes.{IsNothing};
ghost use Rattle.dc_run.specs.Passing.{WritesPassing, WritesPassingOn, WritesSaved};
ghost use Rattle.dc_run.specs.Refusals.{as_verdict};
ghost use Rattle.dc_run.specs.Settings.{LibraryKept, has_ended, has_run, is_of_going_on, is_of_run, is_refusal, may_have_run, was_opened};
ghost use Rattle.dc_plan.specs.declared.plan.Medium.{Medium as Media};
ghost use Rattle.dc_run.specs.declared.verdict.Verdict.{Verdict as Verdicts};
ghost use Rattle.dc_run.specs.declared.verdict.Which.{Which as Whose};

use crate::assembling::assemble_source;
use crate::auditing::audit_journal;
use crate::checking::check_output;
use crate::halting::{leaves_over, part_run};
use crate::opening::open;
use crate::outcome::Outcome;
use crate::refusal::verdict_of;
use crate::resuming::resume_run;
use crate::setting::OpenedRun;
use crate::{Did, Outlet, Verdict};
use dc_command::{Asked, CommandFault, Ledger, Order, command_in};
use dc_course::{Course, Ending, Journal, Setting};
use dc_disk::run_on_disks;
use dc_journal::write_journal;
use dc_media::{Disks, Keeps, Library, Sink, SinkFailed};
use dc_plan::Medium;
use dc_report::write_report;
use dc_rio::run_on_memory;
use dc_world::OpenFault;
use std::alloc::Global;

/// Carries out the command that the words give; the first word is the program's name.
///
/// `run PLAN` fetches the plan, its guests and its schedule from the library, or draws the schedule from a seed, makes a store for each
/// guest in `keeps` or on `disks`, as the plan's medium says, runs the entries in order, lets processes stop where the plan or the schedule
/// says so and recover, writes the lines of their visible records to `out`, and last the report of the run to `report`. `journal PLAN` does
/// the same with the journal of the run in place of its report: it takes turns alone, of a schedule without stops, and ends at the first
/// stop of a device. `check PLAN REPORT OUT` fetches what a run is opened with, then a report and an output, plays the report's acts in the
/// failure-free world, compares the output's lines with those that they show, and writes `ok`, the counts of acts and of visible records to
/// `out` where both belong together. `asm SOURCE` fetches the source, assembles it and writes the ELF file to `out`. `audit JOURNAL`
/// fetches the journal, and writes `ok` and the count of its events to `out` where it has Save-work. `resume PLAN REPORT` goes on with a
/// run on disks that its plan halted: it fetches what a run is opened with and the report of the part before, reads the store of each
/// process and compares it with the report's acts, and runs what the halt left over, with turns counted from the first entry of all.
pub fn dc<L: Library, K: Keeps, D: Disks, O: Sink, R: Sink>(
    alloc: Global,
    words: &[String],
    lib: &mut L,
    keeps: &mut K,
    disks: &mut D,
    out: &mut O,
    report: &mut R,
) -> Outcome
    // A refusal (usage, a refused plan, guest, schedule or source, a missing file) comes exactly where it is the first that the words and
    // the told files give. Want of memory may take the place of any, and a fault of the library of any but the words'.
    ensures usage { result.verdict ≡ Verdict.Usage → asked_of words.now ≡ None }
    ensures unasked { asked_of words.now ≡ None → (result.verdict ≡ Verdict.Usage) ⊎ (result.verdict ≡ Verdict.WantOfMemory) }
    ensures refused { (refusal : Verdicts) → is_refusal refusal ≡ true → IfSome (L.files lib.old) (λ files. IsExact result.verdict refusal (work_of files words.now)) }
    ensures opened { IfSome (L.files lib.old) (λ files. IsOpenedFor may_end result.verdict (work_of files words.now)) }

    // What is not refused is carried out, where its stores are told and no count of faults rose, but for want of memory.
    ensures complete { IfSome (L.files lib.old) (λ files. IfOk (work_of files words.now) (λ work.
        AreCalm (devices_of K.Keeps D.Disks (medium_of files words.now)) (lent keeps.old disks.old) (lent keeps.new disks.new) (L.faults lib.old) (L.faults lib.new) (course (O.held out.old) (O.held out.new) (O.faults out.old) (O.faults out.new))
        (course (R.held report.old) (R.held report.new) (R.faults report.old) (R.faults report.new)) →
        TellsFor (devices_of K.Keeps D.Disks (medium_of files words.now)) (lent keeps.old disks.old) (lent keeps.new disks.new) work → IsCarriedOut work result.verdict ⊎ (result.verdict ≡ Verdict.WantOfMemory))) }

    // Faults, only where the count of the object that was handed in rose, and at a file only where the command asks for it.
    ensures library_fault { (which : Whose) → result.verdict ≡ Verdict.LibraryFault which → Rose (L.faults lib.old) (L.faults lib.new) }
    ensures library_asked { (which : Whose) → IfSome (L.files lib.old) (λ files. result.verdict ≡ Verdict.LibraryFault which → Asks files words.now which) }
    ensures device_fault { (p : ℕ) → result.verdict ≡ Verdict.DeviceFault p → Rose (K.faults keeps.old p) (K.faults keeps.new p) ⊎ Rose (D.faults disks.old p) (D.faults disks.new p) }
    ensures medium_fault { IfSome (L.files lib.old) (λ files. (p : ℕ) → result.verdict ≡ Verdict.DeviceFault p → HasFailed (devices_of K.Keeps D.Disks (medium_of files words.now)) (lent keeps.old disks.old) (lent keeps.new disks.new) p) }
    ensures stopped_alone { (p : ℕ) → result.verdict ≡ Verdict.DeviceStopped p → ((plan : List ℕ) × (asked_of words.now ≡ Some (to_run Ledger.Journal plan))) ⊎ AsksToGoOn words.now }
    ensures wanting { result.verdict ≡ Verdict.WantOfMemory → (p : ℕ) → IsCalmUnlessStopped K.stops K.faults p keeps.old keeps.new × IsCalmUnlessStopped D.stops D.faults p disks.old disks.new }
    ensures device_stop { (p : ℕ) → result.verdict ≡ Verdict.DeviceStopped p → Rose (K.stops keeps.old p) (K.stops keeps.new p) ⊎ Rose (D.stops disks.old p) (D.stops disks.new p) }
    ensures stopped_before { (p : ℕ) → result.verdict ≡ Verdict.DeviceStopped p → AsksToGoOn words.now → result.did ≡ Did.Nothing }
    ensures medium_stop { IfSome (L.files lib.old) (λ files. (p : ℕ) → result.verdict ≡ Verdict.DeviceStopped p → HasStopped (devices_of K.Keeps D.Disks (medium_of files words.now)) (lent keeps.old disks.old) (lent keeps.new disks.new) p) }
    ensures output_fault { result.verdict ≡ Verdict.SinkFault Outlet.Out → Rose (O.faults out.old) (O.faults out.new) }
    ensures report_fault { result.verdict ≡ Verdict.SinkFault Outlet.Report → Rose (R.faults report.old) (R.faults report.new) }

    // What users see of a run that was opened, and its report.
    ensures headline { result.did ≡ Did.Run → IfSome (L.files lib.old) (λ files. IsOkAnd (work_of files words.now) (λ work. IfRun work (λ task.
        IsReported task (devices_of K.Keeps D.Disks (medium_of files words.now)) result (loan (lent keeps.old disks.old) (lent keeps.new disks.new)) (course (O.held out.old) (O.held out.new) (O.faults out.old) (O.faults out.new))
        (course (R.held report.old) (R.held report.new) (R.faults report.old) (R.faults report.new))))) }

    // What a run wrote on sinks that held nothing and did not fail passes the check of it, wherever files hold it, and where it was halted its report is gone on with.
    // So does what a run wrote that went on, behind what the parts before it wrote, whatever lines they may have shown.
    // The journal that it wrote in place of its report, where its schedule was used up, has Save-work: an audit of it answers so.
    ensures passes { result.did ≡ Did.Run → IfSome (L.files lib.old) (λ files. IsOkAnd (work_of files words.now) (λ work. IfRun work (λ task.
        task.ledger ≡ Ledger.Report → (devices_of K.Keeps D.Disks (medium_of files words.now)).tell (length task.setting.images) (lent keeps.old disks.old) (lent keeps.new disks.new) → WritesPassing task.setting 0 [] (course (O.held out.old) (O.held out.new) (O.faults out.old) (O.faults out.new))
        (course (R.held report.old) (R.held report.new) (R.faults report.old) (R.faults report.new)) result))) }

    ensures passes_on { result.did ≡ Did.Resumed → IfSome (L.files lib.old) (λ files. IsOkAnd (work_of files words.now) (λ work. IfResume work (λ going.
        TellsStores (of_disks D.Disks) (length going.setting.images) disks.old disks.new → WritesPassingOn going (course (O.held out.old) (O.held out.new) (O.faults out.old) (O.faults out.new))
        (course (R.held report.old) (R.held report.new) (R.faults report.old) (R.faults report.new)) result))) }

    ensures saves { result.did ≡ Did.Run → IfSome (L.files lib.old) (λ files. IsOkAnd (work_of files words.now) (λ work. IfRun work (λ task.
        task.ledger ≡ Ledger.Journal → (devices_of K.Keeps D.Disks (medium_of files words.now)).tell (length task.setting.images) (lent keeps.old disks.old) (lent keeps.new disks.new) → is_used_up result.verdict ≡ true →
        WritesSaved task.setting (course (R.held report.old) (R.held report.new) (R.faults report.old) (R.faults report.new))))) }

    // The same where the files are not told: there is a medium and a setting of which it holds, and what is lent of the other medium is untouched. Words that ask to run a plan do a run or nothing: a
    // run wherever the verdict is one of a run and no fault of a device. No other words come to a run, or to a verdict that only runs have.
    ensures ran { result.did ≡ Did.Run → (order : Orders) × (asked_of words.now ≡ Some (ToRun order)) × (medium : Media) × (task : Task) × (task.ledger ≡ order.ledger) ×
        IsOtherSame medium (lent keeps.old disks.old) (lent keeps.new disks.new) ×
        IsReported task (devices_of K.Keeps D.Disks medium) result (loan (lent keeps.old disks.old) (lent keeps.new disks.new)) (course (O.held out.old) (O.held out.new) (O.faults out.old) (O.faults out.new))
        (course (R.held report.old) (R.held report.new) (R.faults report.old) (R.faults report.new)) }
    ensures did { AsksToRunPlan words.now → has_run result.verdict ≡ true → result.did ≡ Did.Run }
    ensures did_run { AsksToRunPlan words.now → (result.did ≡ Did.Run) ⊎ (result.did ≡ Did.Nothing) }
    ensures runs_alone { is_of_run result.verdict ≡ true → AsksToRunPlan words.now ⊎ AsksToGoOn words.now }
    ensures goes_on_alone { (result.did ≡ Did.Resumed) ⊎ (is_of_going_on result.verdict ≡ true) → AsksToGoOn words.now }
    ensures did_resumed { AsksToGoOn words.now → has_ended result.verdict ≡ true → result.did ≡ Did.Resumed }
    ensures did_go_on { AsksToGoOn words.now → (result.did ≡ Did.Resumed) ⊎ (result.did ≡ Did.Nothing) }
    ensures idle { may_have_run result.verdict ≡ false → result.did ≡ Did.Nothing }

    // What users see of a run that went on behind a part that was halted, over both parts, and its report, of both. The same where the files are not told.
    ensures resumed { result.did ≡ Did.Resumed → IfSome (L.files lib.old) (λ files. IsOkAnd (work_of files words.now) (λ work. IfResume work (λ going.
        IsResumed going D.Disks result (loan disks.old disks.new) (course (O.held out.old) (O.held out.new) (O.faults out.old) (O.faults out.new)) (course (R.held report.old) (R.held report.new) (R.faults report.old) (R.faults report.new))))) }
    ensures went { result.did ≡ Did.Resumed → (going : Goings) × IsRunOf going.setting going.report.acts ×
        IsResumed going D.Disks result (loan disks.old disks.new) (course (O.held out.old) (O.held out.new) (O.faults out.old) (O.faults out.new)) (course (R.held report.old) (R.held report.new) (R.faults report.old) (R.faults report.new)) }
    // One that did not go on: its stores stand, under the decided number, for what they stood for; one that is refused, or that is the first that does not
    // belong to the run, is so by what it holds.
    ensures unsuited { (p : ℕ) → result.verdict ≡ Verdict.StoreUnsuited p → IfSome (L.files lib.old) (λ files. IsOkAnd (work_of files words.now) (λ work. IfResume work (λ going.
        IsUnsuited D.Disks going (loan disks.old disks.new) p))) }
    ensures store { (p : ℕ) (fault : StoreFaults) → result.verdict ≡ Verdict.StoreRefused p fault → result.did ≡ Did.Nothing → IfSome (L.files lib.old) (λ files. IsOkAnd (work_of files words.now) (λ work. IfResume work (λ going.
        IsRefusedStore D.Disks going (loan disks.old disks.new) p fault))) }
    ensures stood { result.did ≡ Did.Nothing → may_have_run result.verdict ≡ true → IfSome (L.files lib.old) (λ files. IsOkAnd (work_of files words.now) (λ work. IfResume work (λ going.
        HaveStood D.Disks going (loan disks.old disks.new)))) }

    // An output that passes: `ok`, the counts of its report's acts and of the visible records that they show; and how another differs.
    // The same where the files are not told: some acts and some count. A difference is told exactly where a line differs, of that line.
    ensures checked { was_opened result.verdict ≡ true → IfSome (L.files lib.old) (λ files. IsOkAnd (work_of files words.now) (λ work. IfCheck work (λ checked.
        IsChecked checked result (O.held out.old) (O.held out.new) × (report.new ≡ report.old)))) }
    ensures passed { (names : Names) → asked_of words.now ≡ Some (ToCheck names) → was_opened result.verdict ≡ true →
        (checked : Checked) × IsChecked checked result (O.held out.old) (O.held out.new) × (report.new ≡ report.old) }
    ensures difference { (line : ℕ) → result.verdict ≡ Verdict.Differs line → IfSome (L.files lib.old) (λ files. IsSomeAnd (asked_of words.now) (λ asked.
        IfFound files asked (TellsDifference result.difference))) }
    ensures line { TellsLine result }

    // The file of a source that was assembled; its report stays. The same where the files are not told: the file of some program.
    ensures assembled { was_opened result.verdict ≡ true → IfSome (L.files lib.old) (λ files. IsOkAnd (work_of files words.now) (λ work. IfAssembly work (λ program.
        IsAssembled program result (O.held out.old) (O.held out.new) × (report.new ≡ report.old)))) }
    ensures assembly { (source : List ℕ) → asked_of words.now ≡ Some (ToAssemble source) → was_opened result.verdict ≡ true →
        (program : List Meant) × IsAssembled program result (O.held out.old) (O.held out.new) × (report.new ≡ report.old) }

    // A journal that has Save-work: `ok` and the count of its events; its report stays. One that has not: where it fails first, which no other
    // command answers. The same where the files are not told: of some journal.
    ensures audited { was_opened result.verdict ≡ true → IfSome (L.files lib.old) (λ files. IsOkAnd (work_of files words.now) (λ work. IfAudit work (λ said.
        IsAudited said result (O.held out.old) (O.held out.new) × (report.new ≡ report.old)))) }
    ensures audit { (journal : List ℕ) → asked_of words.now ≡ Some (ToAudit journal) → was_opened result.verdict ≡ true →
        (said : Journals) × IsAudited said result (O.held out.old) (O.held out.new) × (report.new ≡ report.old) }
    ensures unsaved { (event line : ℕ) → result.verdict ≡ Verdict.NotSaved event line → IfSome (L.files lib.old) (λ files. IsOkAnd (work_of files words.now) (λ work. IfAudit work (λ said.
        IsVerdict said (found.NotSaved event line)))) }
    ensures unsaved_alone { (event line : ℕ) → result.verdict ≡ Verdict.NotSaved event line → (journal : List ℕ) × (asked_of words.now ≡ Some (ToAudit journal)) ×
        ((said : Journals) × IsVerdict said (found.NotSaved event line)) }

    // What stays.
    ensures unopened { result.did ≡ Did.Nothing → IsNothing result × (out.new ≡ out.old) × (report.new ≡ report.old) }
    ensures library { LibraryKept (L.files lib.old) (L.files lib.new) (L.faults lib.old) (L.faults lib.new) }
    ensures tells { TellsOn 0 (O.faults out.new) (O.held out.old) (O.held out.new) }
    ensures report_tells { TellsOn 0 (R.faults report.new) (R.held report.old) (R.held report.new) }
    ensures output_later { O.faults out.old ≤ O.faults out.new }
    ensures report_later { R.faults report.old ≤ R.faults report.new }
    // Of the stores of words and the disks those of one medium alone are called.
    ensures other { IfSome (L.files lib.old) (λ files. IsOtherSame (medium_of files words.now) (lent keeps.old disks.old) (lent keeps.new disks.new)) }
    ensures either { (keeps.new ≡ keeps.old) ⊎ (disks.new ≡ disks.old) }
    ensures keeps { (AsksToRunPlan words.now → ⊥) → keeps.new ≡ keeps.old }
    ensures keeps_refused { may_have_run result.verdict ≡ false → (result.verdict ≡ Verdict.WantOfMemory → ⊥) → keeps.new ≡ keeps.old }
    ensures keeps_later { (p : ℕ) → (K.stops keeps.old p ≤ K.stops keeps.new p) × (K.faults keeps.old p ≤ K.faults keeps.new p) }
    ensures keeps_tells { (p : ℕ) → KeepsTold (of_words K.Keeps) keeps.old keeps.new p }
    ensures keeps_others { IfSome (L.files lib.old) (λ files. AreLeftFrom (stores_used (work_of files words.now)) (of_words K.Keeps) keeps.old keeps.new) }
    ensures keeps_beyond { AreLeftFrom PROCESSES (of_words K.Keeps) keeps.old keeps.new }
    ensures disks { (AsksToRunPlan words.now → ⊥) → (AsksToGoOn words.now → ⊥) → disks.new ≡ disks.old }
    ensures disks_refused { may_have_run result.verdict ≡ false → (result.verdict ≡ Verdict.WantOfMemory → ⊥) → disks.new ≡ disks.old }
    ensures disks_later { (p : ℕ) → (D.stops disks.old p ≤ D.stops disks.new p) × (D.faults disks.old p ≤ D.faults disks.new p) }
    ensures disks_tells { (p : ℕ) → KeepsTold (of_disks D.Disks) disks.old disks.new p }
    ensures disks_others { IfSome (L.files lib.old) (λ files. AreLeftFrom (stores_used (work_of files words.now)) (of_disks D.Disks) disks.old disks.new) }
    ensures disks_beyond { AreLeftFrom PROCESSES (of_disks D.Disks) disks.old disks.new }
{
    match command_in(alloc, words) {
        Ok(Asked::Run(order)) => run_plan(alloc, &order, lib, keeps, disks, out, report),
        Ok(Asked::Check(names)) => check_output(alloc, &names, lib, out),
        Ok(Asked::Assemble(source)) => assemble_source(alloc, source, lib, out),
        Ok(Asked::Audit(journal)) => audit_journal(alloc, journal, lib, out),
        Ok(Asked::Resume(names)) => resume_run(alloc, &names, lib, disks, out, report),
        Err(fault) => Outcome::idle(alloc, unasked(fault)),
    }
}

/// What words are answered that are no command's.
fn unasked(fault: CommandFault) -> Verdict
    ensures meant { result ≡ unasked_by fault }
    ensures usage { result ≡ Verdict.Usage → fault ≡ CommandFault.Usage }
    ensures either { (result ≡ Verdict.Usage) ⊎ (result ≡ Verdict.WantOfMemory) }
{
    match fault {
        CommandFault::Usage => Verdict::Usage,
        CommandFault::Memory => Verdict::WantOfMemory,
    }
}

/// The verdict of a run whose entries are used up: where it was halted there are more.
fn used_up_at(halted: bool, verdict: Verdict) -> Verdict
    ensures { result ≡ used_up_at halted verdict }
{
    if halted { Verdict::Halted } else { verdict }
}

/// The verdict of a run that ended so, by whether it is halted before its schedule is used up.
pub fn verdict_at(halted: bool, ending: Ending) -> Verdict
    ensures { result ≡ verdict_at halted ending }
{
    match ending {
        Ending::Done => used_up_at(halted, Verdict::Done),
        Ending::Unfinished => used_up_at(halted, Verdict::Unfinished),
        Ending::Device(p) => Verdict::DeviceFault(p),
        Ending::Store(p, fault) => Verdict::StoreRefused(p, fault),
        Ending::Sink => Verdict::SinkFault(Outlet::Out),
        Ending::Stopped(p) => Verdict::DeviceStopped(p),
    }
}

/// The outcome of a run, by whether it is halted before its schedule is used up, and its journal.
fn outcome_of(halted: bool, course: Course) -> (Outcome, Journal)
    ensures outcome { result.0 ≡ record { verdict = verdict_at halted course.ending; did = Did.Run; acts = course.acts; marks = course.marks; lines = course.lines; difference = None } }
    ensures journal { result.1 ≡ course.journal }
{
    let Course {
        acts,
        marks,
        lines,
        journal,
        ending,
    } = course;
    let outcome = Outcome {
        verdict: verdict_at(halted, ending),
        did: Did::Run,
        acts,
        marks,
        lines,
        difference: None,
    };
    (outcome, journal)
}

/// What a run is answered that was not opened.
fn unopened(fault: OpenFault) -> Verdict
    ensures { result ≡ unopened_by fault }
{
    match fault {
        OpenFault::Memory => Verdict::WantOfMemory,
        OpenFault::Failed(p) => Verdict::DeviceFault(p),
    }
}

/// Whether a run that is to write this keeps its journal.
fn keeps_journal(ledger: Ledger) -> bool
    ensures { result ≡ keeps_journal ledger }
{
    ledger == Ledger::Journal
}

/// Runs on a medium.
fn run_on<K: Keeps, D: Disks, O: Sink>(
    alloc: Global,
    medium: Medium,
    setting: Setting,
    kept: bool,
    keeps: &mut K,
    disks: &mut D,
    out: &mut O,
) -> Result<Course, OpenFault>
    ensures headline { IfOk result (λ run. IsKept (devices_of K.Keeps D.Disks medium) (given_of setting) (account_of run) run.ending (output (O.held out.old) (O.held out.new)) (loan (lent keeps.old disks.old) (lent keeps.new disks.new))) }
    ensures stop { IfOk result (λ run. setting.stops.items ≡ [] → (p : ℕ) → run.ending ≡ endings.Stopped p → HasStopped (devices_of K.Keeps D.Disks medium) (lent keeps.old disks.old) (lent keeps.new disks.new) p) }
    ensures kept { IfOk result (λ run. run.journal.kept ≡ kept) }
    ensures sixteen { IfOk result (λ run. All IsOfSixteen run.journal.lines.items) }
    ensures unkept { IfOk result (λ run. kept ≡ false → (p : ℕ) → ¬ (run.ending ≡ endings.Stopped p)) }
    ensures device { IfOk result (λ run. (p : ℕ) → run.ending ≡ endings.Device p → HasFailed (devices_of K.Keeps D.Disks medium) (lent keeps.old disks.old) (lent keeps.new disks.new) p) }
    ensures sink { IfOk result (λ run. run.ending ≡ endings.Sink → Rose (O.faults out.old) (O.faults out.new)) }
    ensures few { IfOk result (λ run. length run.marks.items < 2 ^ 32) }
    ensures failed { (p : ℕ) → result ≡ Err (opening.Failed p) → HasFailed (devices_of K.Keeps D.Disks medium) (lent keeps.old disks.old) (lent keeps.new disks.new) p }
    ensures wanting { result ≡ Err opening.Memory → (p : ℕ) → IsCalmUnlessStopped K.stops K.faults p keeps.old keeps.new × IsCalmUnlessStopped D.stops D.faults p disks.old disks.new }
    ensures unopened { OnErr result (out.new ≡ out.old) }
    ensures keeps_later { (p : ℕ) → (K.stops keeps.old p ≤ K.stops keeps.new p) × (K.faults keeps.old p ≤ K.faults keeps.new p) }
    ensures disks_later { (p : ℕ) → (D.stops disks.old p ≤ D.stops disks.new p) × (D.faults disks.old p ≤ D.faults disks.new p) }
    ensures later { O.faults out.old ≤ O.faults out.new }
    ensures tells { TellsOn 0 (O.faults out.new) (O.held out.old) (O.held out.new) }
    ensures keeps_tells { (p : ℕ) → KeepsTold (of_words K.Keeps) keeps.old keeps.new p }
    ensures keeps_others { AreLeftFrom (length (given_of setting).images) (of_words K.Keeps) keeps.old keeps.new }
    ensures keeps_beyond { AreLeftFrom PROCESSES (of_words K.Keeps) keeps.old keeps.new }
    ensures disks_tells { (p : ℕ) → KeepsTold (of_disks D.Disks) disks.old disks.new p }
    ensures disks_others { AreLeftFrom (length (given_of setting).images) (of_disks D.Disks) disks.old disks.new }
    ensures disks_beyond { AreLeftFrom PROCESSES (of_disks D.Disks) disks.old disks.new }
    ensures other { IsOtherSame medium (lent keeps.old disks.old) (lent keeps.new disks.new) }
{
    match medium {
        Medium::Rio => run_on_memory(alloc, setting, kept, keeps, out),
        Medium::Disk => run_on_disks(alloc, setting, kept, disks, out),
    }
}

/// Runs the plan of an order, and writes what it asks for.
fn run_plan<L: Library, K: Keeps, D: Disks, O: Sink, R: Sink>(
    alloc: Global,
    order: &Order,
    lib: &mut L,
    keeps: &mut K,
    disks: &mut D,
    out: &mut O,
    report: &mut R,
) -> Outcome
    ensures refused { (refusal : Verdicts) → is_refusal refusal ≡ true → IfSome (L.files lib.old) (λ files. IsExact result.verdict refusal (as_verdict (opening_of files (order_view order.now)))) }
    ensures opened { IfSome (L.files lib.old) (λ files. IsOpenedFor (λ setting v. may_have_run v) result.verdict (as_verdict (opening_of files (order_view order.now)))) }
    ensures asked { ¬ (result.verdict ≡ Verdict.Usage) }
    ensures unsaved { (event line : ℕ) → ¬ (result.verdict ≡ Verdict.NotSaved event line) }
    ensures library_fault { (which : Whose) → result.verdict ≡ Verdict.LibraryFault which → Rose (L.faults lib.old) (L.faults lib.new) }
    ensures library_asked { (which : Whose) → IfSome (L.files lib.old) (λ files. result.verdict ≡ Verdict.LibraryFault which → AsksToRun files (order_view order.now) which) }
    ensures device_fault { (p : ℕ) → result.verdict ≡ Verdict.DeviceFault p → Rose (K.faults keeps.old p) (K.faults keeps.new p) ⊎ Rose (D.faults disks.old p) (D.faults disks.new p) }
    ensures medium_fault { IfSome (L.files lib.old) (λ files. (p : ℕ) → result.verdict ≡ Verdict.DeviceFault p → HasFailed (devices_of K.Keeps D.Disks (medium_at files (order_view order.now))) (lent keeps.old disks.old) (lent keeps.new disks.new) p) }
    ensures wanting { result.verdict ≡ Verdict.WantOfMemory → (p : ℕ) → IsCalmUnlessStopped K.stops K.faults p keeps.old keeps.new × IsCalmUnlessStopped D.stops D.faults p disks.old disks.new }
    ensures device_stop { (p : ℕ) → result.verdict ≡ Verdict.DeviceStopped p → Rose (K.stops keeps.old p) (K.stops keeps.new p) ⊎ Rose (D.stops disks.old p) (D.stops disks.new p) }
    ensures medium_stop { IfSome (L.files lib.old) (λ files. (p : ℕ) → result.verdict ≡ Verdict.DeviceStopped p → HasStopped (devices_of K.Keeps D.Disks (medium_at files (order_view order.now))) (lent keeps.old disks.old) (lent keeps.new disks.new) p) }
    ensures output_fault { result.verdict ≡ Verdict.SinkFault Outlet.Out → Rose (O.faults out.old) (O.faults out.new) }
    ensures report_fault { result.verdict ≡ Verdict.SinkFault Outlet.Report → Rose (R.faults report.old) (R.faults report.new) }
    ensures headline { result.did ≡ Did.Run → IfSome (L.files lib.old) (λ files. IsOkAnd (as_verdict (opening_of files (order_view order.now))) (λ setting.
        IsReported (task_in files (order_view order.now) setting) (devices_of K.Keeps D.Disks (medium_at files (order_view order.now))) result (loan (lent keeps.old disks.old) (lent keeps.new disks.new)) (course (O.held out.old) (O.held out.new) (O.faults out.old) (O.faults out.new))
        (course (R.held report.old) (R.held report.new) (R.faults report.old) (R.faults report.new)))) }
    ensures saves { result.did ≡ Did.Run → IfSome (L.files lib.old) (λ files. IsOkAnd (as_verdict (opening_of files (order_view order.now))) (λ setting.
        order.now.ledger ≡ Ledger.Journal → (devices_of K.Keeps D.Disks (medium_at files (order_view order.now))).tell (length setting.images) (lent keeps.old disks.old) (lent keeps.new disks.new) → is_used_up result.verdict ≡ true →
        WritesSaved setting (course (R.held report.old) (R.held report.new) (R.faults report.old) (R.faults report.new)))) }
    ensures stopped_alone { (p : ℕ) → result.verdict ≡ Verdict.DeviceStopped p → order.now.ledger ≡ Ledger.Journal }
    ensures begun { is_of_going_on result.verdict ≡ false }
    ensures passes { result.did ≡ Did.Run → IfSome (L.files lib.old) (λ files. IsOkAnd (as_verdict (opening_of files (order_view order.now))) (λ setting.
        order.now.ledger ≡ Ledger.Report → (devices_of K.Keeps D.Disks (medium_at files (order_view order.now))).tell (length setting.images) (lent keeps.old disks.old) (lent keeps.new disks.new) → WritesPassing setting 0 [] (course (O.held out.old) (O.held out.new) (O.faults out.old) (O.faults out.new))
        (course (R.held report.old) (R.held report.new) (R.faults report.old) (R.faults report.new)) result)) }
    ensures ran { result.did ≡ Did.Run → (medium : Media) × (task : Task) × (task.ledger ≡ order.now.ledger) ×
        IsOtherSame medium (lent keeps.old disks.old) (lent keeps.new disks.new) ×
        IsReported task (devices_of K.Keeps D.Disks medium) result (loan (lent keeps.old disks.old) (lent keeps.new disks.new)) (course (O.held out.old) (O.held out.new) (O.faults out.old) (O.faults out.new))
        (course (R.held report.old) (R.held report.new) (R.faults report.old) (R.faults report.new)) }
    ensures did { has_run result.verdict ≡ true → result.did ≡ Did.Run }
    ensures did_run { (result.did ≡ Did.Run) ⊎ (result.did ≡ Did.Nothing) }
    ensures idle { may_have_run result.verdict ≡ false → result.did ≡ Did.Nothing }
    ensures line { TellsLine result }
    ensures unopened { result.did ≡ Did.Nothing → IsNothing result × (out.new ≡ out.old) × (report.new ≡ report.old) }
    ensures library { LibraryKept (L.files lib.old) (L.files lib.new) (L.faults lib.old) (L.faults lib.new) }
    ensures tells { TellsOn 0 (O.faults out.new) (O.held out.old) (O.held out.new) }
    ensures report_tells { TellsOn 0 (R.faults report.new) (R.held report.old) (R.held report.new) }
    ensures output_later { O.faults out.old ≤ O.faults out.new }
    ensures report_later { R.faults report.old ≤ R.faults report.new }
    ensures other { IfSome (L.files lib.old) (λ files. IsOtherSame (medium_at files (order_view order.now)) (lent keeps.old disks.old) (lent keeps.new disks.new)) }
    ensures either { (keeps.new ≡ keeps.old) ⊎ (disks.new ≡ disks.old) }
    ensures keeps_refused { may_have_run result.verdict ≡ false → (result.verdict ≡ Verdict.WantOfMemory → ⊥) → keeps.new ≡ keeps.old }
    ensures keeps_later { (p : ℕ) → (K.stops keeps.old p ≤ K.stops keeps.new p) × (K.faults keeps.old p ≤ K.faults keeps.new p) }
    ensures keeps_tells { (p : ℕ) → KeepsTold (of_words K.Keeps) keeps.old keeps.new p }
    ensures keeps_others { IfSome (L.files lib.old) (λ files. AreLeftFrom (stores_used (work_by files (ToRun (order_view order.now)))) (of_words K.Keeps) keeps.old keeps.new) }
    ensures keeps_beyond { AreLeftFrom PROCESSES (of_words K.Keeps) keeps.old keeps.new }
    ensures disks_refused { may_have_run result.verdict ≡ false → (result.verdict ≡ Verdict.WantOfMemory → ⊥) → disks.new ≡ disks.old }
    ensures disks_later { (p : ℕ) → (D.stops disks.old p ≤ D.stops disks.new p) × (D.faults disks.old p ≤ D.faults disks.new p) }
    ensures disks_tells { (p : ℕ) → KeepsTold (of_disks D.Disks) disks.old disks.new p }
    ensures disks_others { IfSome (L.files lib.old) (λ files. AreLeftFrom (stores_used (work_by files (ToRun (order_view order.now)))) (of_disks D.Disks) disks.old disks.new) }
    ensures disks_beyond { AreLeftFrom PROCESSES (of_disks D.Disks) disks.old disks.new }
{
    let opened = match open(alloc, order, lib) {
        Ok(opened) => opened,
        Err(refusal) => return Outcome::idle(alloc, verdict_of(refusal)),
    };
    let n = opened.setting.scheduled.setup.images.len() as u32;
    let halted = leaves_over(opened.halt, &opened.setting.scheduled.schedule);
    let OpenedRun {
        ledger,
        medium,
        setting,
        halt,
    } = opened;
    let kept = keeps_journal(ledger);
    let part = part_run(halt, setting);
    match run_on(alloc, medium, part, kept, keeps, disks, out) {
        Ok(course) => {
            let (outcome, journal) = outcome_of(halted, course);
            reported(outcome, &journal, n, report)
        }
        Err(fault) => Outcome::idle(alloc, unopened(fault)),
    }
}

/// The verdict of a run whose report was not written whole.
pub fn unreported(verdict: Verdict) -> Verdict
    ensures { result ≡ unreported verdict }
{
    match verdict {
        Verdict::Done => Verdict::SinkFault(Outlet::Report),
        Verdict::Unfinished => Verdict::SinkFault(Outlet::Report),
        Verdict::Halted => Verdict::SinkFault(Outlet::Report),
        stood => stood,
    }
}

/// Whether the schedule of a run that came to this was used up.
fn is_used_up(verdict: Verdict) -> bool
    ensures { result ≡ is_used_up verdict }
{
    matches!(verdict, Verdict::Done | Verdict::Unfinished)
}

/// Writes what a run leaves at its end: its journal, if it kept one, or its report.
fn write_ledger<R: Sink>(
    outcome: &Outcome,
    journal: &Journal,
    n: u32,
    to: &mut R,
) -> Result<(), SinkFailed>
    requires few { length outcome.now.marks.items < 2 ^ 32 }
    requires sixteen { All IsOfSixteen journal.now.lines.items }
    ensures held { TakesWhole (ledger_text n outcome.now.verdict (outcome_account outcome.now (journal_in journal.now))) result (R.held to.old) (R.held to.new) }
    ensures tells { TellsOn 0 (R.faults to.new) (R.held to.old) (R.held to.new) }
    ensures cause { HasCause (R.faults to.old) (R.faults to.new) result }
{
    if journal.kept {
        let whole = is_used_up(outcome.verdict);
        return write_journal(to, n, false, journal.lines.as_slice(), whole);
    }
    write_report(
        to,
        u32::from(outcome.status()),
        outcome.marks.as_slice().len() as u32,
        &outcome.acts,
        outcome.lines,
    )
}

/// Writes the report of a run, or its journal.
fn reported<R: Sink>(outcome: Outcome, journal: &Journal, n: u32, report: &mut R) -> Outcome
    requires few { length outcome.marks.items < 2 ^ 32 }
    requires sixteen { All IsOfSixteen journal.now.lines.items }
    ensures reports { Reports outcome.verdict result.verdict (ledger_text n outcome.verdict (outcome_account outcome (journal_in journal.now)))
        (course (R.held report.old) (R.held report.new) (R.faults report.old) (R.faults report.new)) }
    ensures acts { result.acts ≡ outcome.acts }
    ensures marks { result.marks ≡ outcome.marks }
    ensures lines { result.lines ≡ outcome.lines }
    ensures did { result.did ≡ outcome.did }
    ensures difference { result.difference ≡ outcome.difference }
    ensures later { R.faults report.old ≤ R.faults report.new }
    ensures tells { TellsOn 0 (R.faults report.new) (R.held report.old) (R.held report.new) }
{
    match write_ledger(&outcome, journal, n, report) {
        Ok(()) => outcome,
        Err(SinkFailed) => Outcome {
            verdict: unreported(outcome.verdict),
            ..outcome
        },
    }
}
