ghost use Rattle.std.specs.Prelude.{◌≡◌};
ghost use Rattle.dc_run.specs.Refusals.{verdict_of};

use crate::{Verdict, Which};
use dc_elf::ElfFault;
use dc_plan::PlanFault;
use dc_report::ReportFault;
use dc_schedule::ScheduleFault;

/// Why a run was not opened, or an output not compared: the first that stood in the way.
#[derive(Clone, Copy, Debug, PartialEq, Eq)]
pub enum Refusal {
    /// The plan breaks that rule first.
    Plan(PlanFault),
    /// The file of that guest breaks that rule first.
    Guest(u32, ElfFault),
    /// The library has no file of that name.
    Missing(Which),
    /// The library failed at that file.
    Library(Which),
    /// The schedule's first faulty line.
    Schedule(ScheduleFault),
    /// The report's first faulty line.
    Report(ReportFault),
    /// There was no memory.
    Memory,
}

/// The verdict of a call that is refused so.
pub fn verdict_of(refusal: Refusal) -> Verdict
    ensures { result ≡ verdict_of refusal }
{
    match refusal {
        Refusal::Plan(fault) => Verdict::PlanRefused(fault),
        Refusal::Guest(p, fault) => Verdict::GuestRefused(p, fault),
        Refusal::Missing(which) => Verdict::Missing(which),
        Refusal::Library(which) => Verdict::LibraryFault(which),
        Refusal::Schedule(fault) => Verdict::ScheduleRefused(fault),
        Refusal::Report(fault) => Verdict::ReportRefused(fault),
        Refusal::Memory => Verdict::WantOfMemory,
    }
}
