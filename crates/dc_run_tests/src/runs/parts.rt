//! Runs in parts: each case is halted at an entry, resumed up to a later halt, and resumed to its end, over the same disks. The lines of
//! all parts together and the last report pass the check, and the run ends as it does without a halt, since enough turns are left.

use crate::runs::files::files;
use crate::runs::is_done;
use dc_cases::{holds, numbers, plan, schedule, value, words};
use dc_memmedia::{MemLibrary, MemSink};
use dc_trial::{Devices, called, called_aside};
use std::alloc::Global;
use std::test::Fail;

/// The files of a case, to which its parts add theirs, each under the next number.
#[derive(Drop)]
struct Parts {
    library: MemLibrary,
    plan: String,
    count: usize,
}

/// What the parts of a run wrote so far: the lines, and the name of the last report, empty where there is none.
#[derive(Drop)]
struct Written {
    lines: Vec<u8>,
    left: String,
}

/// The status of a run that was halted.
const HALTED: u8 = 15;

/// Behind each schedule.
const NO_HALT: u64 = 1_000_000;

impl Parts {
    /// The files of a case under its plan on disks.
    fn new(alloc: Global, case: &str) -> Result<Parts, Fail> {
        let plan = plan(alloc, case)?.replace(alloc, "\"rio\"", "\"disk\"")?;
        let own = String::from_str(alloc, &plan)?;
        let library = files(alloc, case, own, schedule(alloc, case)?)?;
        Ok(Parts {
            library,
            plan,
            count: 0,
        })
    }

    /// Adds a file: its name.
    fn add(&mut self, alloc: Global, bytes: Vec<u8>) -> Result<String, Fail> {
        self.count = self.count.saturating_add(1);
        let count = self.count;
        let name = format!(in alloc; "file{count}")?;
        self.library.add(String::from_str(alloc, &name)?, bytes)?;
        Ok(name)
    }

    /// Adds the plan that halts at this entry: its name.
    fn plan_to(&mut self, alloc: Global, halt: u64) -> Result<String, Fail> {
        let plan = &self.plan;
        let plan = format!(in alloc; "{plan}\nhalt = {halt}\n")?;
        self.add(alloc, plan.into_bytes())
    }
}

/// Runs a case up to this halt, or on to it where it was halted before: the status. What it wrote passes the check.
fn part(
    alloc: Global,
    case: &str,
    parts: &mut Parts,
    halt: u64,
    on: &mut Devices,
    written: &mut Written,
) -> Result<u8, Fail> {
    let plan = parts.plan_to(alloc, halt)?;
    let left = &written.left;
    let command = if left.is_empty() {
        format!(in alloc; "dc run {plan}")?
    } else {
        format!(in alloc; "dc resume {plan} {left}")?
    };
    let words = words(alloc, &command)?;
    let mut out = MemSink::new(alloc, 100_000, Vec::new(alloc))?;
    let mut report = MemSink::new(alloc, 100_000, Vec::new(alloc))?;
    let came = called(alloc, &words, &mut parts.library, on, &mut out, &mut report)?;
    written.lines.extend_from_slice(out.bytes())?;
    written.left = parts.add(alloc, report.bytes().to_vec(alloc)?)?;
    passes(alloc, case, parts, written, &plan)?;
    Ok(came.status)
}

/// What was written so far passes the check by this plan.
fn passes(
    alloc: Global,
    case: &str,
    parts: &mut Parts,
    written: &Written,
    plan: &str,
) -> Result<(), Fail> {
    let lines = parts.add(alloc, written.lines.to_vec(alloc)?)?;
    let left = &written.left;
    let command = format!(in alloc; "dc check {plan} {left} {lines}")?;
    let words = words(alloc, &command)?;
    let mut out = MemSink::new(alloc, 100, Vec::new(alloc))?;
    let came = called_aside(alloc, &words, &mut parts.library, &mut out)?;
    holds(is_done(came), case, "the parts pass the check")
}

/// The run of a case that is halted at two entries, of which the second is not the lesser: the status that it ends with.
fn parted(
    alloc: Global,
    case: &str,
    parts: &mut Parts,
    first: u64,
    second: u64,
) -> Result<u8, Fail> {
    let mut on = Devices::new(alloc)?;
    let mut written = Written {
        lines: Vec::new(alloc),
        left: String::new(alloc),
    };
    let mut status = HALTED;
    for halt in [first, second, NO_HALT] {
        if status == HALTED {
            status = part(alloc, case, parts, halt, &mut on, &mut written)?;
        }
    }
    Ok(status)
}

/// The runs of a case that is halted at each of its entries, and again five entries behind it, end as one without a halt.
pub fn parted_at_each(alloc: Global, case: &str) -> Result<(), Fail> {
    let mut parts = Parts::new(alloc, case)?;
    let whole = parted(alloc, case, &mut parts, NO_HALT, NO_HALT)?;
    holds(whole < 2, case, "it ends")?;
    for first in numbers(alloc, value(case, "halts", ""))? {
        let status = parted(alloc, case, &mut parts, first, first.saturating_add(5))?;
        holds(status == whole, case, "it ends as a whole run")?;
    }
    Ok(())
}

/// So do they under each of some protocols.
pub fn parted_under(alloc: Global, cases: &str, protocols: &str) -> Result<(), Fail> {
    for case in cases.split("* ") {
        for protocol in protocols.split_whitespace() {
            let case = case.replace(alloc, "EACH", protocol)?;
            if !value(&case, "protocol", "").is_empty() {
                parted_at_each(alloc, &case)?;
            }
        }
    }
    Ok(())
}
