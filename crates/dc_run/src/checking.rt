ghost use Rattle.std.specs.Prelude.{◌≡◌, ◌≤◌, ◌<◌, ℕ, All, Ok, Some, false, true, IfOk, IfSome, IsErrOf, IsSome, IsOkAnd, OnOk, length};
ghost use Rattle.dc_report.specs.Reading.{IsReport};
ghost use Rattle.dc_report.specs.Reads.{seen};
ghost use Rattle.dc_media.specs.Causes.{Rose};
ghost use Rattle.dc_media.specs.Told.{TellsOn};
ghost use Rattle.dc_run.specs.Checking.{AsksToCheck, Checked as Passed, Concluded, IsChecked, TellsDifference, TellsLine, checked_in, found_at_end, found_in, found_view, passed_by, passed_text, report_in};
ghost use Rattle.dc_command.specs.Command.{names_view};
ghost use Rattle.dc_run.specs.Commands.{IsExact, IsOpenedFor};
ghost use Rattle.dc_run.specs.Opening.{Files};
ghost use Rattle.dc_run.specs.Outcomes.{IsNothing};
ghost use Rattle.dc_run.specs.Settings.{Agrees, LibraryKept, is_of_run, is_refusal, setting_of, was_opened};
ghost use Rattle.dc_run.specs.declared.verdict.Verdict.{Verdict as Verdicts};
ghost use Rattle.dc_run.specs.declared.verdict.Which.{Which as Whose};

use crate::opening::{fetch, open};
use crate::refusal::{Refusal, verdict_of};
use crate::setting::OpenedRun;
use crate::{Did, Outcome, Outlet, Verdict, Which};
use dc_acts::{Acts, Line};
use dc_check::{Finding, check};
use dc_command::{Ledger, Names, Order};
use dc_limits::{ENTRIES, PROCESSES};
use dc_media::{Library, Sink, write_whole};
use dc_report::{ReadError, Report, read_report};
use std::alloc::{AllocError, Global};

/// The acts of a report, and what comes of checking an output against them.
#[derive(Drop)]
pub struct Found {
    pub acts: Acts,
    pub finding: Finding,
}

/// The report of that name, for `n` guests.
pub fn report_at<L: Library>(
    alloc: Global,
    lib: &mut L,
    n: u32,
    name: &str,
) -> Result<Report, Refusal>
    requires some { 0 < n }
    requires few { n ≤ PROCESSES }
    ensures told { (files : Files) → L.files lib.old ≡ Some files → Agrees seen result (report_in files n name.now) }
    ensures is { IfOk result (λ report. IsReport n (seen report)) }
    ensures processes { IfOk result (λ report. All (λ x. x.p < n) report.acts.items) }
    ensures few { IfOk result (λ report. length report.acts.items ≤ ENTRIES) }
    ensures which { (w : Whose) → IsErrOf result (Refusal.Library w) → w ≡ Which.Report }
    ensures there { (files : Files) (w : Whose) → L.files lib.old ≡ Some files → IsErrOf result (Refusal.Library w) → IsSome (files name.now) }
    ensures files { OnOk result (L.files lib.new ≡ L.files lib.old) }
    ensures fault { (w : Whose) → IsErrOf result (Refusal.Library w) → Rose (L.faults lib.old) (L.faults lib.new) }
    ensures library { LibraryKept (L.files lib.old) (L.files lib.new) (L.faults lib.old) (L.faults lib.new) }
{
    let text = fetch(alloc, lib, Which::Report, name)?;
    match read_report(alloc, &text, n) {
        Ok(report) => Ok(report),
        Err(ReadError::Refused(fault)) => Err(Refusal::Report(fault)),
        Err(ReadError::Memory) => Err(Refusal::Memory),
    }
}

/// What comes of checking an output, where the setting and the report are there.
fn find(alloc: Global, opened: &OpenedRun, report: Report, out: &[u8]) -> Result<Found, AllocError>
    requires processes { All (λ x. x.p < length opened.now.setting.scheduled.setup.images.items) report.acts.items }
    requires few { length report.acts.items ≤ ENTRIES }
    ensures { IfOk result (λ found. Ok (found_view found) ≡ found_at_end (setting_of opened.now) (seen report) out.now) }
{
    let finding = check(
        alloc,
        &opened.setting.scheduled.setup.images,
        &opened.setting.scheduled.setup.inputs,
        &opened.setting.scheduled.schedule,
        report.acts.as_slice(),
        out,
    )?;
    Ok(Found {
        acts: report.acts,
        finding,
    })
}

/// What comes of checking the output of that name.
fn find_in<L: Library>(alloc: Global, names: &Names, lib: &mut L) -> Result<Found, Refusal>
    ensures told { (files : Files) → L.files lib.old ≡ Some files → Agrees found_view result (found_in files (names_view names.now)) }
    ensures reached { (files : Files) (w : Whose) → L.files lib.old ≡ Some files → IsErrOf result (Refusal.Library w) →
        AsksToCheck files (names_view names.now) w }
    ensures fault { (w : Whose) → IsErrOf result (Refusal.Library w) → Rose (L.faults lib.old) (L.faults lib.new) }
    ensures library { LibraryKept (L.files lib.old) (L.files lib.new) (L.faults lib.old) (L.faults lib.new) }
{
    let order = Order {
        plan: names.plan,
        ledger: Ledger::Report,
    };
    let opened = open(alloc, &order, lib)?;
    let n = opened.setting.scheduled.setup.images.len() as u32;
    let report = report_at(alloc, lib, n, names.report)?;
    let out = fetch(alloc, lib, Which::Out, names.out)?;
    match find(alloc, &opened, report, &out) {
        Ok(found) => Ok(found),
        Err(AllocError) => Err(Refusal::Memory),
    }
}

/// The line of an output that passes: `ok`, how many acts its report has, and how many visible records they show.
fn passed_line(acts: u32, visibles: u32) -> Line
    ensures { result ≡ passed_text acts visibles }
{
    let mut line = Line::new();
    line.push(b"ok ");
    line.push_number(u64::from(acts));
    line.push(b" ");
    line.push_number(u64::from(visibles));
    line.push(b"\n");
    line
}

/// Writes that an output passed.
fn write_passed<O: Sink>(alloc: Global, acts: Acts, visibles: u32, out: &mut O) -> Outcome
    ensures checked { IsChecked (record { acts = acts.items; visibles = visibles }) result (O.held out.old) (O.held out.new) }
    ensures opened { was_opened result.verdict ≡ true }
    ensures line { TellsLine result }
    ensures own { ¬ (result.verdict ≡ Verdict.SinkFault Outlet.Report) }
    ensures runs { is_of_run result.verdict ≡ false }
    ensures device { (p : ℕ) → ¬ (result.verdict ≡ Verdict.DeviceFault p) }
    ensures fault { result.verdict ≡ Verdict.SinkFault Outlet.Out → Rose (O.faults out.old) (O.faults out.new) }
    ensures later { O.faults out.old ≤ O.faults out.new }
    ensures tells { TellsOn 0 (O.faults out.new) (O.held out.old) (O.held out.new) }
{
    let line = passed_line(acts.len(), visibles);
    let verdict = match write_whole(out, line.as_slice()) {
        Ok(()) => Verdict::Done,
        Err(_) => Verdict::SinkFault(Outlet::Out),
    };
    Outcome {
        did: Did::Checked(visibles),
        acts,
        ..Outcome::idle(alloc, verdict)
    }
}

/// The outcome of what was found.
fn conclude_check<O: Sink>(alloc: Global, found: Found, out: &mut O) -> Outcome
    ensures exact { Concluded (passed_by (found_view found)) result (O.held out.old) (O.held out.new) }
    ensures difference { (line : ℕ) → result.verdict ≡ Verdict.Differs line → TellsDifference result.difference (found_view found) }
    ensures unsaved { (event line : ℕ) → ¬ (result.verdict ≡ Verdict.NotSaved event line) }
    ensures line { TellsLine result }
    ensures own { ¬ (result.verdict ≡ Verdict.SinkFault Outlet.Report) }
    ensures runs { is_of_run result.verdict ≡ false }
    ensures device { (p : ℕ) → ¬ (result.verdict ≡ Verdict.DeviceFault p) }
    ensures fault { result.verdict ≡ Verdict.SinkFault Outlet.Out → Rose (O.faults out.old) (O.faults out.new) }
    ensures unopened { was_opened result.verdict ≡ false → IsNothing result × (out.new ≡ out.old) }
    ensures later { O.faults out.old ≤ O.faults out.new }
    ensures tells { TellsOn 0 (O.faults out.new) (O.held out.old) (O.held out.new) }
{
    let Found { acts, finding } = found;
    match finding {
        Finding::Passes(visibles) => write_passed(alloc, acts, visibles, out),
        Finding::NotARun(position) => Outcome::idle(alloc, Verdict::NotARun(position)),
        Finding::Differs(difference) => {
            let verdict = Verdict::Differs(difference.line);
            Outcome {
                difference: Some(difference),
                ..Outcome::idle(alloc, verdict)
            }
        }
    }
}

/// Checks the output of that name against the report of that name, by a plan with its guests and its schedule.
pub fn check_output<L: Library, O: Sink>(
    alloc: Global,
    names: &Names,
    lib: &mut L,
    out: &mut O,
) -> Outcome
    ensures refused { (refusal : Verdicts) → is_refusal refusal ≡ true → IfSome (L.files lib.old) (λ files. IsExact result.verdict refusal (checked_in files (names_view names.now))) }
    ensures opened { IfSome (L.files lib.old) (λ files. IsOpenedFor (λ checked v. was_opened v) result.verdict (checked_in files (names_view names.now))) }
    ensures checked { was_opened result.verdict ≡ true → IfSome (L.files lib.old) (λ files. IsOkAnd (checked_in files (names_view names.now)) (λ checked.
        IsChecked checked result (O.held out.old) (O.held out.new))) }
    ensures some { was_opened result.verdict ≡ true → (checked : Passed) × IsChecked checked result (O.held out.old) (O.held out.new) }
    ensures difference { (line : ℕ) → result.verdict ≡ Verdict.Differs line → IfSome (L.files lib.old) (λ files.
        IsOkAnd (found_in files (names_view names.now)) (TellsDifference result.difference)) }
    ensures line { TellsLine result }
    ensures asked { ¬ (result.verdict ≡ Verdict.Usage) }
    ensures unsaved { (event line : ℕ) → ¬ (result.verdict ≡ Verdict.NotSaved event line) }
    ensures library_asked { (which : Whose) → IfSome (L.files lib.old) (λ files. result.verdict ≡ Verdict.LibraryFault which → AsksToCheck files (names_view names.now) which) }
    ensures library_fault { (which : Whose) → result.verdict ≡ Verdict.LibraryFault which → Rose (L.faults lib.old) (L.faults lib.new) }
    ensures output_fault { result.verdict ≡ Verdict.SinkFault Outlet.Out → Rose (O.faults out.old) (O.faults out.new) }
    ensures own { ¬ (result.verdict ≡ Verdict.SinkFault Outlet.Report) }
    ensures runs { is_of_run result.verdict ≡ false }
    ensures device { (p : ℕ) → ¬ (result.verdict ≡ Verdict.DeviceFault p) }
    ensures unopened { was_opened result.verdict ≡ false → IsNothing result × (out.new ≡ out.old) }
    ensures library { LibraryKept (L.files lib.old) (L.files lib.new) (L.faults lib.old) (L.faults lib.new) }
    ensures later { O.faults out.old ≤ O.faults out.new }
    ensures tells { TellsOn 0 (O.faults out.new) (O.held out.old) (O.held out.new) }
{
    match find_in(alloc, names, lib) {
        Ok(found) => conclude_check(alloc, found, out),
        Err(refusal) => Outcome::idle(alloc, verdict_of(refusal)),
    }
}
