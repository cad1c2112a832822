use dc_asm::AsmFault;
use dc_audit::AuditFault;
use dc_checkpoint::StoreFault;
use dc_elf::ElfFault;
use dc_plan::PlanFault;
use dc_report::ReportFault;
use dc_schedule::ScheduleFault;

/// A file of a command.
#[derive(Clone, Copy, Debug, PartialEq, Eq)]
pub enum Which {
    /// The plan.
    Plan,
    /// The file of the guest of that number.
    Guest(u32),
    /// The schedule.
    Schedule,
    /// The report of a run.
    Report,
    /// The output of a run.
    Out,
    /// The source of a guest.
    Source,
    /// The journal of a run, by whatever system.
    Journal,
}

/// A sink of a command.
#[derive(Clone, Copy, Debug, PartialEq, Eq)]
pub enum Outlet {
    /// The sink of the lines, or of an assembled file.
    Out,
    /// The sink of the report, or of the journal.
    Report,
}

/// What a call of the program did.
#[derive(Clone, Copy, Debug, PartialEq, Eq)]
pub enum Did {
    /// It came to no work.
    Nothing,
    /// It ran a plan, and wrote its report or its journal.
    Run,
    /// It went on with a run that was halted, and wrote the report of both parts.
    Resumed,
    /// It checked an output, and found so many visible records in it.
    Checked(u32),
    /// It assembled a source to a file of so many bytes.
    Assembled(u64),
    /// It audited a journal of so many events, which has Save-work.
    Audited(u32),
}

/// What a call of the program came to.
#[derive(Clone, Copy, Debug, PartialEq, Eq)]
pub enum Verdict {
    /// A run's schedule is used up and every guest has ended; an output passed the check; a source was assembled and its file
    /// written; or a journal has Save-work.
    Done,
    /// The schedule is used up and some guest has not ended.
    Unfinished,
    /// The run was halted as its plan asks, with entries of its schedule left over.
    Halted,
    /// The report is not that of a run that was halted with entries of its schedule left over.
    NotHalted,
    /// The words are not those of a command.
    Usage,
    /// The plan breaks that rule first.
    PlanRefused(PlanFault),
    /// The file of that guest breaks that rule first.
    GuestRefused(u32, ElfFault),
    /// The library has no file of that name.
    Missing(Which),
    /// The library failed at that file.
    LibraryFault(Which),
    /// The device of that process failed.
    DeviceFault(u32),
    /// The device of that process was stopped, in a run that was to leave its journal and ended there, or before a run went on.
    DeviceStopped(u32),
    /// That sink failed.
    SinkFault(Outlet),
    /// The act at that position of the report, from 0 on, is the first that was not drawn at its turn or does not apply.
    NotARun(u32),
    /// That line of the output is the first that differs; `Outcome::difference` has what stands there and what would.
    Differs(u64),
    /// There was no memory to open the run or to go on with it, to check the output, to assemble the source, or to audit the journal.
    WantOfMemory,
    /// The schedule's first faulty line.
    ScheduleRefused(ScheduleFault),
    /// The checkpoint in the store of that process is refused, by the first thing that is wrong with it.
    StoreRefused(u32, StoreFault),
    /// The checkpoint in the store of that process does not belong to the run that was to go on; those of the processes before it do.
    StoreUnsuited(u32),
    /// The report's first faulty line.
    ReportRefused(ReportFault),
    /// The source's first faulty line.
    AsmRefused(AsmFault),
    /// The journal's first faulty line.
    JournalRefused(AuditFault),
    /// The journal has no Save-work: the event of the first line was unsaved at the second line. No earlier line has such an event, and of those
    /// that this one has it is the earliest. Lines are numbered from 1.
    NotSaved(u32, u32),
}
