ghost use Rattle.std.specs.Prelude.{◌≡◌, ◌≤◌, ◌<◌, ◌^◌, All, Ok, Some, true, List, ℕ, length, reverse};
ghost use Rattle.std.specs.List.{AllByRecursion};
ghost use Rattle.dc_report.specs.Reading.{AreActs, Report, is_status, report_of, text_of_report};
ghost use Rattle.dc_acts.specs.Lines.{text_of};
ghost use Rattle.dc_check.specs.Findings.{finding_of};
ghost use Rattle.dc_check.specs.Findings.Finding.{Passes};
ghost use Rattle.dc_elf.specs.Images.{Image};
ghost use Rattle.dc_guest.specs.Guest.{Guest, guests_of};
ghost use Rattle.dc_limits.specs.declared.bounds.TheConstants.{ENTRIES};
ghost use Rattle.dc_model.specs.Drawn.{Drawn};
ghost use Rattle.dc_model.specs.Repeats.{RepeatsAgree};
ghost use Rattle.dc_model.specs.FailureFree.{FailureFree, run, thin};
ghost use Rattle.dc_rv32.specs.Machine.{Machine, stepped};
ghost use Rattle.dc_schedule.specs.Entries.{IsSchedule};
ghost use Rattle.dc_shows.specs.Typed.{CanWrite, IsGivenRun, IsHanded, IsImage, IsMachine, IsStep};

use dc_model::{Entry, Taken, Visible};

/// A step leaves words in the registers and in the pc, and bytes in memory.
pub fn steps_stay_machines()
    ensures { (m : Machine) → IsMachine m → IsStep (stepped m) }
{}

/// A failure-free run whose acts were drawn shows only what can be written, and its acts can be listed in a report.
pub fn runs_can_be_written()
    ensures { (images : List Image) (inputs : List (List (List ℕ))) (schedule : List Entry) (acts : List Taken) (w : FailureFree Guest) →
        length images < 2 ^ 32 → AllByRecursion IsImage images → AllByRecursion (AllByRecursion IsHanded) inputs → IsSchedule (length images) schedule →
        Drawn (length images) schedule acts → run (guests_of images inputs) acts ≡ Some w →
        AllByRecursion (CanWrite (length images) (length acts)) w.visibles × AreActs (length images) 0 acts }
{}

/// What a drawn run lists is read back from its report, where a halted one, of status 15, took the entries of all its acts; and what it
/// shows, with repeats that agree, passes the check.
pub fn drawn_runs_pass()
    ensures listed { (images : List Image) (inputs : List (List (List ℕ))) (schedule : List Entry) (report : Report) (w : FailureFree Guest) → IsGivenRun images inputs schedule →
        Drawn (length images) schedule report.acts → run (guests_of images inputs) report.acts ≡ Some w →
        is_status report.status ≡ true → report.entries ≤ ENTRIES → report.lines ≤ report.entries →
        (report.status ≡ 15 → All (λ x. x.t < report.entries) report.acts) → report_of (length images) (text_of_report report) ≡ Ok report }
    ensures shown { (images : List Image) (inputs : List (List (List ℕ))) (schedule : List Entry) (acts : List Taken) (w : FailureFree Guest) (records : List Visible) → IsGivenRun images inputs schedule →
        Drawn (length images) schedule acts → run (guests_of images inputs) acts ≡ Some w → thin records ≡ w.visibles → RepeatsAgree (reverse records) →
        finding_of (guests_of images inputs) schedule acts (text_of records) ≡ Passes (length w.visibles) }
{}
