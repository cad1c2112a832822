ghost use Rattle.std.specs.Prelude.{◌≡◌, ◌≤◌, ◌⊎◌, ℕ, Err, Some, false, true, List, IfErr, IfOk, IfSome, IsErrOf, IsSome, IsOkAnd, OnOk};
ghost use Rattle.dc_asm.specs.Program.{IsFileOf};
ghost use Rattle.dc_asm.specs.declared.forms.Meant.{Meant};
ghost use Rattle.dc_media.specs.Causes.{Rose};
ghost use Rattle.dc_media.specs.Told.{TellsOn};
ghost use Rattle.dc_run.specs.Assembling.{IsAssembled, IsMade, IsWritten, program_in};
ghost use Rattle.dc_run.specs.Checking.{TellsLine};
ghost use Rattle.dc_run.specs.Commands.{IsExact, IsOpenedFor};
ghost use Rattle.dc_run.specs.Opening.{Files};
ghost use Rattle.dc_run.specs.Outcomes.{IsNothing};
ghost use Rattle.dc_run.specs.Settings.{IsEarly, LibraryKept, is_of_run, is_refusal, was_opened};
ghost use Rattle.dc_run.specs.declared.verdict.Verdict.{Verdict as Verdicts};
ghost use Rattle.dc_run.specs.declared.verdict.Which.{Which as Whose};

use crate::opening::fetch;
use crate::refusal::verdict_of;
use crate::{Did, Outcome, Outlet, Verdict, Which};
use dc_asm::{AsmError, assemble};
use dc_media::{Library, Sink, write_whole};
use std::alloc::Global;

/// The ELF file of the source of that name.
fn file_of<L: Library>(alloc: Global, source: &str, lib: &mut L) -> Result<Vec<u8>, Verdict>
    ensures told { (files : Files) → L.files lib.old ≡ Some files → IsMade result (program_in files source.now) }
    ensures some { IfOk result (λ file. (program : List Meant) × IsFileOf program file.items) }
    ensures early { IfErr result IsEarly }
    ensures runs { IfErr result (λ v. is_of_run v ≡ false) }
    ensures which { (w : Whose) → IsErrOf result (Verdict.LibraryFault w) → w ≡ Which.Source }
    ensures there { (files : Files) (w : Whose) → L.files lib.old ≡ Some files → IsErrOf result (Verdict.LibraryFault w) → IsSome (files source.now) }
    ensures fault { (w : Whose) → IsErrOf result (Verdict.LibraryFault w) → Rose (L.faults lib.old) (L.faults lib.new) }
    ensures asked { ¬ (result ≡ Err Verdict.Usage) }
    ensures unsaved { (event line : ℕ) → ¬ (result ≡ Err (Verdict.NotSaved event line)) }
    ensures device { (p : ℕ) → ¬ (result ≡ Err (Verdict.DeviceFault p)) }
    ensures library { LibraryKept (L.files lib.old) (L.files lib.new) (L.faults lib.old) (L.faults lib.new) }
{
    let text = match fetch(alloc, lib, Which::Source, source) {
        Ok(text) => text,
        Err(refusal) => return Err(verdict_of(refusal)),
    };
    match assemble(alloc, &text) {
        Ok(file) => Ok(file),
        Err(AsmError::Refused(fault)) => Err(Verdict::AsmRefused(fault)),
        Err(AsmError::Memory) => Err(Verdict::WantOfMemory),
    }
}

/// Writes an assembled file.
fn write_file<O: Sink>(alloc: Global, file: &[u8], out: &mut O) -> Outcome
    ensures written { IsWritten file.now result (O.held out.old) (O.held out.new) }
    ensures opened { was_opened result.verdict ≡ true }
    ensures own { ¬ (result.verdict ≡ Verdict.SinkFault Outlet.Report) }
    ensures device { (p : ℕ) → ¬ (result.verdict ≡ Verdict.DeviceFault p) }
    ensures fault { result.verdict ≡ Verdict.SinkFault Outlet.Out → Rose (O.faults out.old) (O.faults out.new) }
    ensures did { ¬ (result.did ≡ Did.Run) }
    ensures runs { is_of_run result.verdict ≡ false }
    ensures line { TellsLine result }
    ensures later { O.faults out.old ≤ O.faults out.new }
    ensures tells { TellsOn 0 (O.faults out.new) (O.held out.old) (O.held out.new) }
{
    let verdict = match write_whole(out, file) {
        Ok(()) => Verdict::Done,
        Err(_) => Verdict::SinkFault(Outlet::Out),
    };
    Outcome {
        did: Did::Assembled(file.len() as u64),
        ..Outcome::idle(alloc, verdict)
    }
}

/// Assembles the source of that name to `out`.
pub fn assemble_source<L: Library, O: Sink>(
    alloc: Global,
    source: &str,
    lib: &mut L,
    out: &mut O,
) -> Outcome
    ensures refused { (refusal : Verdicts) → is_refusal refusal ≡ true → IfSome (L.files lib.old) (λ files. IsExact result.verdict refusal (program_in files source.now)) }
    ensures opened { IfSome (L.files lib.old) (λ files. IsOpenedFor (λ program v. was_opened v) result.verdict (program_in files source.now)) }
    ensures assembled { was_opened result.verdict ≡ true → IfSome (L.files lib.old) (λ files. IsOkAnd (program_in files source.now) (λ program.
        IsAssembled program result (O.held out.old) (O.held out.new))) }
    ensures some { was_opened result.verdict ≡ true → (program : List Meant) × IsAssembled program result (O.held out.old) (O.held out.new) }
    ensures asked { ¬ (result.verdict ≡ Verdict.Usage) }
    ensures unsaved { (event line : ℕ) → ¬ (result.verdict ≡ Verdict.NotSaved event line) }
    ensures which { (w : Whose) → result.verdict ≡ Verdict.LibraryFault w → w ≡ Which.Source }
    ensures there { (w : Whose) → IfSome (L.files lib.old) (λ files. result.verdict ≡ Verdict.LibraryFault w → IsSome (files source.now)) }
    ensures library_fault { (w : Whose) → result.verdict ≡ Verdict.LibraryFault w → Rose (L.faults lib.old) (L.faults lib.new) }
    ensures output_fault { result.verdict ≡ Verdict.SinkFault Outlet.Out → Rose (O.faults out.old) (O.faults out.new) }
    ensures own { ¬ (result.verdict ≡ Verdict.SinkFault Outlet.Report) }
    ensures device { (p : ℕ) → ¬ (result.verdict ≡ Verdict.DeviceFault p) }
    ensures unopened { was_opened result.verdict ≡ false → IsNothing result × (out.new ≡ out.old) }
    ensures did { was_opened result.verdict ≡ true → ¬ (result.did ≡ Did.Run) }
    ensures runs { is_of_run result.verdict ≡ false }
    ensures line { TellsLine result }
    ensures library { LibraryKept (L.files lib.old) (L.files lib.new) (L.faults lib.old) (L.faults lib.new) }
    ensures later { O.faults out.old ≤ O.faults out.new }
    ensures tells { TellsOn 0 (O.faults out.new) (O.held out.old) (O.held out.new) }
{
    match file_of(alloc, source, lib) {
        Ok(file) => write_file(alloc, &file, out),
        Err(verdict) => Outcome::idle(alloc, verdict),
    }
}
