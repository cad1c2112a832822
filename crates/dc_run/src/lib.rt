//! The program's call: guests run under a schedule, are stopped and recover, and what users see is what the guests show when nothing
//! fails, but for repeats; an output is checked against a report; a source is assembled; a journal is audited.
#![tactic(auto)]

mod assembling;
mod auditing;
mod checking;
mod halting;
mod opening;
mod outcome;
mod program;
mod refusal;
mod resuming;
mod setting;
mod verdict;
mod words;

pub use dc_acts::{Acts, Reserved};
pub use dc_asm::{AsmFault, AsmKind};
pub use dc_audit::{AuditFault, AuditKind};
pub use dc_check::Difference;
pub use dc_checkpoint::StoreFault;
pub use dc_elf::ElfFault;
pub use dc_plan::{Key, PlanFault};
pub use dc_report::{ReportFault, ReportKind};
pub use dc_schedule::{ScheduleFault, ScheduleKind};
pub use outcome::{Outcome, conclude};
pub use program::dc;
pub use verdict::{Did, Outlet, Verdict, Which};
pub use words::words_of;
