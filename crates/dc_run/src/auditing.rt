ghost use Rattle.std.specs.Prelude.{◌≡◌, ◌≤◌, ◌⊎◌, ℕ, Err, Some, false, true, IfErr, IfOk, IfSome, IsErrOf, IsSome, IsOkAnd, OnOk};
ghost use Rattle.dc_audit.specs.Reading.{IsVerdict, Journal};
ghost use Rattle.dc_audit.specs.declared.verdict.Verdict.TheVariants as found;
ghost use Rattle.dc_media.specs.Causes.{Rose};
ghost use Rattle.dc_media.specs.Told.{TellsOn};
ghost use Rattle.dc_run.specs.Auditing.{IsAudited, IsJudged, IsSaved, TellsFound, journal_in, saved_text};
ghost use Rattle.dc_run.specs.Checking.{TellsLine};
ghost use Rattle.dc_run.specs.Commands.{IsExact, IsOpenedFor};
ghost use Rattle.dc_run.specs.Opening.{Files};
ghost use Rattle.dc_run.specs.Outcomes.{IsNothing};
ghost use Rattle.dc_run.specs.Settings.{IsEarly, LibraryKept, has_ended, is_of_run, is_refusal, was_opened};
ghost use Rattle.dc_run.specs.declared.verdict.Verdict.{Verdict as Verdicts};
ghost use Rattle.dc_run.specs.declared.verdict.Which.{Which as Whose};

use crate::opening::fetch;
use crate::refusal::verdict_of;
use crate::{Did, Outcome, Outlet, Verdict, Which};
use dc_acts::Line;
use dc_audit::{AuditError, Verdict as Finding, audit};
use dc_media::{Library, Sink, write_whole};
use std::alloc::Global;

/// What the audit of the journal of that name finds.
fn find<L: Library>(alloc: Global, journal: &str, lib: &mut L) -> Result<Finding, Verdict>
    ensures told { (files : Files) → L.files lib.old ≡ Some files → IsJudged result (journal_in files journal.now) }
    ensures some { IfOk result (λ finding. (said : Journal) × IsVerdict said finding) }
    ensures early { IfErr result IsEarly }
    ensures ended { IfErr result (λ v. has_ended v ≡ false) }
    ensures runs { IfErr result (λ v. is_of_run v ≡ false) }
    ensures which { (w : Whose) → IsErrOf result (Verdict.LibraryFault w) → w ≡ Which.Journal }
    ensures there { (files : Files) (w : Whose) → L.files lib.old ≡ Some files → IsErrOf result (Verdict.LibraryFault w) → IsSome (files journal.now) }
    ensures fault { (w : Whose) → IsErrOf result (Verdict.LibraryFault w) → Rose (L.faults lib.old) (L.faults lib.new) }
    ensures asked { ¬ (result ≡ Err Verdict.Usage) }
    ensures device { (p : ℕ) → ¬ (result ≡ Err (Verdict.DeviceFault p)) }
    ensures library { LibraryKept (L.files lib.old) (L.files lib.new) (L.faults lib.old) (L.faults lib.new) }
{
    let text = match fetch(alloc, lib, Which::Journal, journal) {
        Ok(text) => text,
        Err(refusal) => return Err(verdict_of(refusal)),
    };
    match audit(alloc, &text) {
        Ok(finding) => Ok(finding),
        Err(AuditError::Refused(fault)) => Err(Verdict::JournalRefused(fault)),
        Err(AuditError::Memory) => Err(Verdict::WantOfMemory),
    }
}

/// The line of a journal that has Save-work: `ok` and how many events it has.
fn saved_line(events: u32) -> Line
    ensures { result ≡ saved_text events }
{
    let mut line = Line::new();
    line.push(b"ok ");
    line.push_number(u64::from(events));
    line.push(b"\n");
    line
}

/// Writes that a journal has Save-work.
fn write_saved<O: Sink>(alloc: Global, events: u32, out: &mut O) -> Outcome
    ensures saved { IsSaved events result (O.held out.old) (O.held out.new) }
    ensures opened { was_opened result.verdict ≡ true }
    ensures own { ¬ (result.verdict ≡ Verdict.SinkFault Outlet.Report) }
    ensures device { (p : ℕ) → ¬ (result.verdict ≡ Verdict.DeviceFault p) }
    ensures fault { result.verdict ≡ Verdict.SinkFault Outlet.Out → Rose (O.faults out.old) (O.faults out.new) }
    ensures runs { is_of_run result.verdict ≡ false }
    ensures line { TellsLine result }
    ensures later { O.faults out.old ≤ O.faults out.new }
    ensures tells { TellsOn 0 (O.faults out.new) (O.held out.old) (O.held out.new) }
{
    let line = saved_line(events);
    let verdict = match write_whole(out, line.as_slice()) {
        Ok(()) => Verdict::Done,
        Err(_) => Verdict::SinkFault(Outlet::Out),
    };
    Outcome {
        did: Did::Audited(events),
        ..Outcome::idle(alloc, verdict)
    }
}

/// The outcome of what an audit found.
fn conclude_audit<O: Sink>(alloc: Global, finding: Finding, out: &mut O) -> Outcome
    ensures exact { TellsFound finding result (O.held out.old) (O.held out.new) }
    ensures ended { has_ended result.verdict ≡ true }
    ensures own { ¬ (result.verdict ≡ Verdict.SinkFault Outlet.Report) }
    ensures device { (p : ℕ) → ¬ (result.verdict ≡ Verdict.DeviceFault p) }
    ensures fault { result.verdict ≡ Verdict.SinkFault Outlet.Out → Rose (O.faults out.old) (O.faults out.new) }
    ensures unopened { was_opened result.verdict ≡ false → IsNothing result × (out.new ≡ out.old) }
    ensures runs { is_of_run result.verdict ≡ false }
    ensures line { TellsLine result }
    ensures later { O.faults out.old ≤ O.faults out.new }
    ensures tells { TellsOn 0 (O.faults out.new) (O.held out.old) (O.held out.new) }
{
    match finding {
        Finding::Saved(events) => write_saved(alloc, events, out),
        Finding::NotSaved(event, line) => Outcome::idle(alloc, Verdict::NotSaved(event, line)),
    }
}

/// Audits the journal of that name, and writes to `out` that it has Save-work, where it has.
pub fn audit_journal<L: Library, O: Sink>(
    alloc: Global,
    journal: &str,
    lib: &mut L,
    out: &mut O,
) -> Outcome
    ensures refused { (refusal : Verdicts) → is_refusal refusal ≡ true → IfSome (L.files lib.old) (λ files. IsExact result.verdict refusal (journal_in files journal.now)) }
    ensures opened { IfSome (L.files lib.old) (λ files. IsOpenedFor (λ said v. has_ended v) result.verdict (journal_in files journal.now)) }
    ensures audited { was_opened result.verdict ≡ true → IfSome (L.files lib.old) (λ files. IsOkAnd (journal_in files journal.now) (λ said.
        IsAudited said result (O.held out.old) (O.held out.new))) }
    ensures some { was_opened result.verdict ≡ true → (said : Journal) × IsAudited said result (O.held out.old) (O.held out.new) }
    ensures unsaved { (event line : ℕ) → result.verdict ≡ Verdict.NotSaved event line → IfSome (L.files lib.old) (λ files. IsOkAnd (journal_in files journal.now) (λ said.
        IsVerdict said (found.NotSaved event line))) }
    ensures unsaved_some { (event line : ℕ) → result.verdict ≡ Verdict.NotSaved event line → (said : Journal) × IsVerdict said (found.NotSaved event line) }
    ensures asked { ¬ (result.verdict ≡ Verdict.Usage) }
    ensures which { (w : Whose) → result.verdict ≡ Verdict.LibraryFault w → w ≡ Which.Journal }
    ensures there { (w : Whose) → IfSome (L.files lib.old) (λ files. result.verdict ≡ Verdict.LibraryFault w → IsSome (files journal.now)) }
    ensures library_fault { (w : Whose) → result.verdict ≡ Verdict.LibraryFault w → Rose (L.faults lib.old) (L.faults lib.new) }
    ensures output_fault { result.verdict ≡ Verdict.SinkFault Outlet.Out → Rose (O.faults out.old) (O.faults out.new) }
    ensures own { ¬ (result.verdict ≡ Verdict.SinkFault Outlet.Report) }
    ensures device { (p : ℕ) → ¬ (result.verdict ≡ Verdict.DeviceFault p) }
    ensures unopened { was_opened result.verdict ≡ false → IsNothing result × (out.new ≡ out.old) }
    ensures did { was_opened result.verdict ≡ true → ¬ (result.did ≡ Did.Run) }
    ensures runs { is_of_run result.verdict ≡ false }
    ensures line { TellsLine result }
    ensures library { LibraryKept (L.files lib.old) (L.files lib.new) (L.faults lib.old) (L.faults lib.new) }
    ensures later { O.faults out.old ≤ O.faults out.new }
    ensures tells { TellsOn 0 (O.faults out.new) (O.held out.old) (O.held out.new) }
{
    match find(alloc, journal, lib) {
        Ok(finding) => conclude_audit(alloc, finding, out),
        Err(verdict) => Outcome::idle(alloc, verdict),
    }
}
