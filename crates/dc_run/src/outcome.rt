ghost use Rattle.std.specs.Prelude.{◌≡◌, ◌≤◌, ◌⊎◌, ◌+◌, ◌++◌, Option, None, length, codes, decimal};
ghost use Rattle.dc_report.specs.Reading.{kind_text as report_kind_text};
ghost use Rattle.dc_asm.specs.Faults.{kind_text as asm_kind_text};
ghost use Rattle.dc_command.specs.declared.meaning.CommandName.{CommandName as CommandNames};
ghost use Rattle.dc_audit.specs.Reading.{kind_text as journal_kind_text};
ghost use Rattle.dc_elf.specs.Faults.{fault_text as elf_fault_text};
ghost use Rattle.dc_checkpoint.specs.StoreFaults.{store_fault_text};
ghost use Rattle.dc_media.specs.Causes.{HasCause};
ghost use Rattle.dc_media.specs.Sinks.{TakesWhole};
ghost use Rattle.dc_media.specs.Told.{TellsOn};
ghost use Rattle.dc_plan.specs.Faults.{fault_text as plan_fault_text};
ghost use Rattle.dc_schedule.specs.Schedules.{kind_text as schedule_kind_text};
ghost use Rattle.dc_run.specs.Headline.{Concludes, course};
ghost use Rattle.dc_run.specs.Outcomes.{IsNothing, counts_text, device_fault_text, device_stop_text, done_text, meant_for, meant_text, not_saved_text, outcome_line, outlet_text, refused_guest_text, refused_store_text, refused_text, status_of, unsuited_store_text, verdict_text, which_text};

use crate::{
    AsmFault, AuditFault, Did, ElfFault, Outlet, PlanFault, ReportFault, ScheduleFault, StoreFault,
    Verdict, Which,
};
use dc_acts::{Acts, Line, Reserved};
use dc_check::Difference;
use dc_command::{CommandName, meant};
use dc_media::{Sink, SinkFailed, write_whole};
use dc_model::Mark;
use std::alloc::Global;

/// What a call of the program came to, and what the run did up to then.
#[derive(Drop)]
pub struct Outcome {
    pub verdict: Verdict,
    pub did: Did,
    /// The acts that count, in order: those of the run, or of the report that was checked.
    pub acts: Acts,
    /// The mark of each entry, in order. An entry at which the run ended has none.
    pub marks: Reserved<Mark>,
    /// How many whole lines of records were written, repeats counted.
    pub lines: u32,
    /// How the output differs that was checked, where the verdict is that a line differs.
    pub difference: Option<Difference>,
}

impl Outcome {
    /// The outcome of a call that came to no work.
    pub fn idle(alloc: Global, verdict: Verdict) -> Outcome
        ensures verdict { result.verdict ≡ verdict }
        ensures nothing { IsNothing result }
        ensures difference { result.difference ≡ None }
    {
        Outcome {
            verdict,
            did: Did::Nothing,
            acts: Acts::new(alloc),
            marks: Reserved::new(alloc),
            lines: 0,
            difference: None,
        }
    }

    /// The status with which the program ends.
    pub fn status(&self) -> u8
        ensures { result ≡ status_of self.now.verdict }
    {
        match self.verdict {
            Verdict::Done => 0,
            Verdict::Unfinished => 1,
            Verdict::Halted => 15,
            Verdict::NotHalted => 16,
            Verdict::Usage => 2,
            Verdict::PlanRefused(_) => 3,
            Verdict::GuestRefused(_, _) => 4,
            Verdict::Missing(_) => 5,
            Verdict::LibraryFault(_) => 6,
            Verdict::DeviceFault(_) => 7,
            Verdict::DeviceStopped(_) => 17,
            Verdict::SinkFault(_) => 8,
            Verdict::NotARun(_) => 9,
            Verdict::Differs(_) => 9,
            Verdict::WantOfMemory => 10,
            Verdict::ScheduleRefused(_) => 11,
            Verdict::StoreRefused(_, _) => 12,
            Verdict::StoreUnsuited(_) => 12,
            Verdict::ReportRefused(_) => 13,
            Verdict::AsmRefused(_) => 14,
            Verdict::JournalRefused(_) => 18,
            Verdict::NotSaved(_, _) => 19,
        }
    }

    /// Writes the line that says the outcome: `dc: `, the verdict in words, the command that was probably meant, and a line feed.
    fn write_line<R: Sink>(&self, meant: Option<CommandName>, to: &mut R) -> Result<(), SinkFailed>
        ensures held { TakesWhole (outcome_line self.now meant) result (R.held to.old) (R.held to.new) }
        ensures tells { TellsOn 0 (R.faults to.new) (R.held to.old) (R.held to.new) }
        ensures cause { HasCause (R.faults to.old) (R.faults to.new) result }
    {
        write_whole(to, self.line(meant).as_slice())
    }

    fn line(&self, meant: Option<CommandName>) -> Line
        ensures { result ≡ outcome_line self.now meant }
    {
        let mut line = Line::new();
        line.push(b"dc: ");
        self.push_verdict(&mut line);
        push_meant(&mut line, meant);
        line.push(b"\n");
        line
    }

    /// The verdict in words.
    fn push_verdict(&self, line: &mut Line)
        requires { length line.old ≤ 4 }
        ensures text { line.new ≡ line.old ++ verdict_text self.now.verdict self.now.did (length self.now.acts.items) self.now.lines }
        ensures length { length line.new ≤ length line.old + 130 }
    {
        match self.verdict {
            Verdict::Done => self.push_done(line),
            Verdict::Unfinished => self.push_counts(line, b"unfinished ", self.lines),
            Verdict::Halted => self.push_counts(line, b"halted ", self.lines),
            Verdict::NotHalted => line.push(b"not halted"),
            Verdict::Usage => {
                line.push(
                    b"usage: dc run PLAN | dc check PLAN REPORT OUT | dc asm SOURCE | dc resume PLAN REPORT | dc journal PLAN | dc audit JOURNAL",
                );
            }
            Verdict::PlanRefused(fault) => push_plan_fault(line, fault),
            Verdict::GuestRefused(p, fault) => push_guest_fault(line, p, fault),
            Verdict::Missing(which) => push_which(line, b"missing: ", which),
            Verdict::LibraryFault(which) => push_which(line, b"library failed: ", which),
            Verdict::DeviceFault(p) => push_device_fault(line, p),
            Verdict::DeviceStopped(p) => push_device_stop(line, p),
            Verdict::SinkFault(outlet) => push_both(line, b"sink failed: ", outlet_name(outlet)),
            Verdict::NotARun(position) => push_at(line, b"not a run: act ", u64::from(position)),
            Verdict::Differs(number) => push_at(line, b"differs: line ", number),
            Verdict::WantOfMemory => line.push(b"out of memory"),
            Verdict::ScheduleRefused(fault) => push_schedule_fault(line, fault),
            Verdict::StoreRefused(p, fault) => push_store_fault(line, p, fault),
            Verdict::StoreUnsuited(p) => push_unsuited(line, p),
            Verdict::ReportRefused(fault) => push_report_fault(line, fault),
            Verdict::AsmRefused(fault) => push_asm_fault(line, fault),
            Verdict::JournalRefused(fault) => push_journal_fault(line, fault),
            Verdict::NotSaved(event, at) => push_not_saved(line, u64::from(event), u64::from(at)),
        }
    }

    /// What was done.
    fn push_done(&self, line: &mut Line)
        requires { length line.old ≤ 4 }
        ensures text { line.new ≡ line.old ++ done_text self.now.did (length self.now.acts.items) self.now.lines }
        ensures length { length line.new ≤ length line.old + 100 }
    {
        match self.did {
            Did::Nothing => self.push_counts(line, b"done ", self.lines),
            Did::Run => self.push_counts(line, b"done ", self.lines),
            Did::Resumed => self.push_counts(line, b"done ", self.lines),
            Did::Checked(visibles) => self.push_counts(line, b"done ", visibles),
            Did::Assembled(bytes) => {
                line.push(b"done ");
                line.push_number(bytes);
                line.push(b" bytes");
            }
            Did::Audited(events) => {
                line.push(b"saved ");
                line.push_number(u64::from(events));
                line.push(b" events");
            }
        }
    }

    /// How many acts and lines there were, after a name.
    fn push_counts(&self, line: &mut Line, name: &[u8], lines: u32)
        requires line { length line.old ≤ 4 }
        requires name { length name.now ≤ 11 }
        ensures text { line.new ≡ line.old ++ counts_text name.now (length self.now.acts.items) lines }
        ensures length { length line.new ≤ length line.old + 100 }
    {
        line.push(name);
        line.push_number(u64::from(self.acts.len()));
        line.push(b" acts ");
        line.push_number(u64::from(lines));
        line.push(b" lines");
    }
}

/// What is said of the command that was probably meant.
fn push_meant(line: &mut Line, meant: Option<CommandName>)
    requires { length line.old ≤ 134 }
    ensures text { line.new ≡ line.old ++ meant_text meant }
    ensures length { length line.new ≤ length line.old + 30 }
{
    if let Some(name) = meant {
        line.push(b"; is ");
        line.push(name.text().as_bytes());
        line.push(b" meant?");
    }
}

/// Two texts, one after the other.
fn push_both(line: &mut Line, what: &[u8], name: &[u8])
    requires line { length line.old ≤ 4 }
    requires what { length what.now ≤ 16 }
    requires name { length name.now ≤ 16 }
    ensures text { line.new ≡ line.old ++ (what.now ++ name.now) }
    ensures length { length line.new ≤ length line.old + 100 }
{
    line.push(what);
    line.push(name);
}

/// A number after what is said of it.
fn push_at(line: &mut Line, what: &[u8], number: u64)
    requires line { length line.old ≤ 4 }
    requires what { length what.now ≤ 16 }
    ensures text { line.new ≡ line.old ++ (what.now ++ decimal number) }
    ensures length { length line.new ≤ length line.old + 100 }
{
    line.push(what);
    line.push_number(number);
}

/// The faulty line of a text, and what is wrong with it.
fn push_refused(line: &mut Line, what: &[u8], number: u64, kind: &[u8])
    requires line { length line.old ≤ 4 }
    requires what { length what.now ≤ 16 }
    requires kind { length kind.now ≤ 16 }
    ensures text { line.new ≡ line.old ++ refused_text what.now number kind.now }
    ensures length { length line.new ≤ length line.old + 100 }
{
    line.push(what);
    line.push(b" line ");
    line.push_number(number);
    line.push(b" refused: ");
    line.push(kind);
}

fn push_schedule_fault(line: &mut Line, fault: ScheduleFault)
    requires { length line.old ≤ 4 }
    ensures text { line.new ≡ line.old ++ refused_text (codes "schedule") fault.line (schedule_kind_text fault.kind) }
    ensures length { length line.new ≤ length line.old + 100 }
{
    let kind = fault.kind.text().as_bytes();
    push_refused(line, b"schedule", u64::from(fault.line), kind);
}

fn push_report_fault(line: &mut Line, fault: ReportFault)
    requires { length line.old ≤ 4 }
    ensures text { line.new ≡ line.old ++ refused_text (codes "report") fault.line (report_kind_text fault.kind) }
    ensures length { length line.new ≤ length line.old + 100 }
{
    let kind = fault.kind.text().as_bytes();
    push_refused(line, b"report", u64::from(fault.line), kind);
}

fn push_asm_fault(line: &mut Line, fault: AsmFault)
    requires { length line.old ≤ 4 }
    ensures text { line.new ≡ line.old ++ refused_text (codes "source") fault.line (asm_kind_text fault.kind) }
    ensures length { length line.new ≤ length line.old + 100 }
{
    let kind = fault.kind.text().as_bytes();
    push_refused(line, b"source", fault.line, kind);
}

fn push_journal_fault(line: &mut Line, fault: AuditFault)
    requires { length line.old ≤ 4 }
    ensures text { line.new ≡ line.old ++ refused_text (codes "journal") fault.line (journal_kind_text fault.kind) }
    ensures length { length line.new ≤ length line.old + 100 }
{
    let kind = fault.kind.text().as_bytes();
    push_refused(line, b"journal", u64::from(fault.line), kind);
}

fn push_not_saved(line: &mut Line, event: u64, at: u64)
    requires { length line.old ≤ 4 }
    ensures text { line.new ≡ line.old ++ not_saved_text event at }
    ensures length { length line.new ≤ length line.old + 100 }
{
    line.push(b"not saved: line ");
    line.push_number(event);
    line.push(b" before line ");
    line.push_number(at);
}

/// A file's name in the command, after what befell it.
fn push_which(line: &mut Line, what: &[u8], which: Which)
    requires line { length line.old ≤ 4 }
    requires what { length what.now ≤ 16 }
    ensures text { line.new ≡ line.old ++ what.now ++ which_text which }
    ensures length { length line.new ≤ length line.old + 100 }
{
    line.push(what);
    match which {
        Which::Plan => line.push(b"plan"),
        Which::Guest(p) => {
            line.push(b"guest ");
            line.push_number(u64::from(p));
        }
        Which::Schedule => line.push(b"schedule"),
        Which::Report => line.push(b"report"),
        Which::Out => line.push(b"out"),
        Which::Source => line.push(b"source"),
        Which::Journal => line.push(b"journal"),
    }
}

fn push_plan_fault(line: &mut Line, fault: PlanFault)
    requires { length line.old ≤ 4 }
    ensures text { line.new ≡ line.old ++ (codes "plan refused: " ++ plan_fault_text fault) }
    ensures length { length line.new ≤ length line.old + 100 }
{
    line.push(b"plan refused: ");
    push_plan_kind(line, fault);
}

fn push_plan_kind(line: &mut Line, fault: PlanFault)
    requires { length line.old ≤ 60 }
    ensures text { line.new ≡ line.old ++ plan_fault_text fault }
    ensures length { length line.new ≤ length line.old + 30 }
{
    line.push(fault.words().as_bytes());
    if let Some(key) = fault.key() {
        line.push(key.text().as_bytes());
    }
}

fn push_guest_fault(line: &mut Line, p: u32, fault: ElfFault)
    requires { length line.old ≤ 4 }
    ensures text { line.new ≡ line.old ++ refused_guest_text p fault }
    ensures length { length line.new ≤ length line.old + 100 }
{
    line.push(b"guest ");
    line.push_number(u64::from(p));
    line.push(b" refused: ");
    push_elf_fault(line, fault);
}

fn push_elf_fault(line: &mut Line, fault: ElfFault)
    requires { length line.old ≤ 60 }
    ensures text { line.new ≡ line.old ++ elf_fault_text fault }
    ensures length { length line.new ≤ length line.old + 30 }
{
    line.push(fault.words().as_bytes());
    if let Some(part) = fault.part() {
        line.push_number(u64::from(part));
    }
}

fn push_device_fault(line: &mut Line, p: u32)
    requires { length line.old ≤ 4 }
    ensures text { line.new ≡ line.old ++ device_fault_text p }
    ensures length { length line.new ≤ length line.old + 100 }
{
    line.push(b"device of ");
    line.push_number(u64::from(p));
    line.push(b" failed");
}

fn push_device_stop(line: &mut Line, p: u32)
    requires { length line.old ≤ 4 }
    ensures text { line.new ≡ line.old ++ device_stop_text p }
    ensures length { length line.new ≤ length line.old + 100 }
{
    line.push(b"device of ");
    line.push_number(u64::from(p));
    line.push(b" stopped");
}

fn push_store_fault(line: &mut Line, p: u32, fault: StoreFault)
    requires { length line.old ≤ 4 }
    ensures text { line.new ≡ line.old ++ refused_store_text p fault }
    ensures length { length line.new ≤ length line.old + 100 }
{
    line.push(b"store of ");
    line.push_number(u64::from(p));
    line.push(b" refused: ");
    push_store_kind(line, fault);
}

fn push_unsuited(line: &mut Line, p: u32)
    requires { length line.old ≤ 4 }
    ensures text { line.new ≡ line.old ++ unsuited_store_text p }
    ensures length { length line.new ≤ length line.old + 100 }
{
    line.push(b"store of ");
    line.push_number(u64::from(p));
    line.push(b" refused: strange");
}

fn push_store_kind(line: &mut Line, fault: StoreFault)
    requires { length line.old ≤ 60 }
    ensures text { line.new ≡ line.old ++ store_fault_text fault }
    ensures length { length line.new ≤ length line.old + 30 }
{
    line.push(fault.words().as_bytes());
    if let Some(number) = fault.record() {
        line.push_number(u64::from(number));
    }
}

fn outlet_name(outlet: Outlet) -> &'static [u8]
    ensures text { result.now ≡ outlet_text outlet }
    ensures short { length result.now ≤ 16 }
{
    match outlet {
        Outlet::Out => b"out",
        Outlet::Report => b"report",
    }
}

/// The command that was probably meant, where the words are no command's; none for want of memory.
fn meant_by(alloc: Global, verdict: Verdict, words: &[String]) -> Option<CommandName>
    ensures { (result ≡ meant_for verdict words.now) ⊎ (result ≡ None) }
{
    match verdict {
        Verdict::Usage => meant(alloc, words).unwrap_or(None),
        _ => None,
    }
}

/// The end of a call for these words: writes the line of its outcome to standard error, and gives the status. Of words that are no command's
/// the line ends with the command that was probably meant, where there is memory to find it.
pub fn conclude<E: Sink>(alloc: Global, words: &[String], outcome: &Outcome, error: &mut E) -> u8
    ensures status { result ≡ status_of outcome.now.verdict }
    ensures line { (meant : Option CommandNames) × ((meant ≡ meant_for outcome.now.verdict words.now) ⊎ (meant ≡ None)) ×
        Concludes (outcome_line outcome.now meant) (course (E.held error.old) (E.held error.new) (E.faults error.old) (E.faults error.new)) }
    ensures tells { TellsOn 0 (E.faults error.new) (E.held error.old) (E.held error.new) }
    ensures later { E.faults error.old ≤ E.faults error.new }
{
    let meant = meant_by(alloc, outcome.verdict, words);
    let _ = outcome.write_line(meant, error);
    outcome.status()
}
