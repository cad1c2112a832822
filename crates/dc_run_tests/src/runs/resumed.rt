//! A run that is halted and resumed, perhaps with another report, plan, schedule or disks than its own.
//!
//! A case may say the words of the second call; a text of the report and what stands in its place, and so of the plan; the schedule's lines; that there
//! are no disks. Of what comes of it: the status and the line on standard error, the output, and the report behind its first line.

use crate::runs::files::files;
use dc_cases::{holds, is_read, number, says, text, value, words};
use dc_memmedia::{MemLibrary, MemSink};
use dc_trial::{Devices, called};
use std::alloc::Global;
use std::test::Fail;

const KEYS: &str = "words before after old new lines disks status said out report";

/// The plan: `hi` on a disk.
const PLAN: &str =
    "protocol = \"cpvs\"\nmedium = \"disk\"\nmemory = 65536\nguests = [\"hi.elf\"]\nschedule = \"schedule\"\n";

/// A text of a case in the place of another one.
fn changed(alloc: Global, case: &str, old: &str, new: &str, whole: &str) -> Result<String, Fail> {
    if !says(case, old) {
        return Ok(String::from_str(alloc, whole)?);
    }
    let old = text(alloc, case, old, "")?;
    let new = text(alloc, case, new, "")?;
    Ok(whole.replace(alloc, &old, &new)?)
}

/// The files of a call with this plan and this schedule.
fn library(alloc: Global, plan: String, lines: &str) -> Result<MemLibrary, Fail> {
    let schedule = String::from_str(alloc, lines)?;
    files(alloc, "run\n", plan, schedule)
}

/// The report of the run that is halted, on these disks.
fn halted(alloc: Global, on: &mut Devices) -> Result<String, Fail> {
    let plan = format!(in alloc; "{PLAN}halt = 5\n")?;
    let lines = "0 0 0\n".repeat(alloc, 10)?;
    let mut library = library(alloc, plan, &lines)?;
    let mut out = MemSink::new(alloc, 1000, Vec::new(alloc))?;
    let mut report = MemSink::new(alloc, 1000, Vec::new(alloc))?;
    let words = words(alloc, "dc run plan")?;
    let came = called(alloc, &words, &mut library, on, &mut out, &mut report)?;
    holds(came.status == 15, "any", "it is halted")?;
    Ok(String::from_utf8(report.bytes().to_vec(alloc)?)?)
}

/// The files of a case's second call, with this report.
fn left(alloc: Global, case: &str, report: &str) -> Result<MemLibrary, Fail> {
    let plan = changed(alloc, case, "old", "new", PLAN)?;
    let lines = "0 0 0~".repeat(alloc, 10)?;
    let lines = text(alloc, case, "lines", &lines)?;
    let mut library = library(alloc, plan, &lines)?;
    let name = String::from_str(alloc, "left")?;
    let report = changed(alloc, case, "before", "after", report)?;
    library.add(name, report.into_bytes())?;
    Ok(library)
}

/// A case's second call over these files and disks comes to what it says.
fn resumed(
    alloc: Global,
    case: &str,
    library: &mut MemLibrary,
    on: &mut Devices,
) -> Result<(), Fail> {
    let mut out = MemSink::new(alloc, 1000, Vec::new(alloc))?;
    let mut report = MemSink::new(alloc, 1000, Vec::new(alloc))?;
    let words = words(alloc, value(case, "words", "dc resume plan left"))?;
    let came = called(alloc, &words, library, on, &mut out, &mut report)?;
    is_status(case, came.status)?;
    is_text(alloc, case, "said", "", came.said.bytes())?;
    is_text(alloc, case, "out", "", out.bytes())?;
    is_text(alloc, case, "report", "dc-report 1\n", report.bytes())
}

fn is_status(case: &str, status: u8) -> Result<(), Fail> {
    let wanted = number(case, "status", "0")?;
    holds(usize::from(status) == wanted, case, "the status")
}

/// What was written is the text of a case behind this; nothing where it says none.
fn is_text(alloc: Global, case: &str, key: &str, first: &str, found: &[u8]) -> Result<(), Fail> {
    if !says(case, key) {
        return holds(found.is_empty(), case, key);
    }
    let wanted = text(alloc, case, key, "")?;
    let rest = found.strip_prefix(first.as_bytes());
    holds(rest == Some(wanted.as_bytes()), case, key)
}

/// A case comes to what it says; where nothing was run, its own report then resumes the run.
fn tried(alloc: Global, case: &str) -> Result<(), Fail> {
    is_read(case, KEYS)?;
    let mut on = Devices::new(alloc)?;
    let report = halted(alloc, &mut on)?;
    let mut library = left(alloc, case, &report)?;
    if says(case, "disks") {
        return resumed(alloc, case, &mut library, &mut Devices::new(alloc)?);
    }
    resumed(alloc, case, &mut library, &mut on)?;
    if says(case, "report") {
        return Ok(());
    }
    let own = "own\nout=out 0 0 6869~end 0 1 0~\nsaid=dc: done 7 acts 3 lines~\n\
report=act 0 0 plain~act 1 0 plain~act 2 0 plain~act 3 0 plain~act 7 0 plain~act 8 0 plain~act 9 0 plain~close 0 10 7 3~\n";
    let mut library = left(alloc, own, &report)?;
    resumed(alloc, own, &mut library, &mut on)
}

/// Each of some cases does, of which each begins with `* `.
pub fn all_resumed(alloc: Global, cases: &str) -> Result<(), Fail> {
    for case in cases.split("* ") {
        if !case.is_empty() {
            tried(alloc, case)?;
        }
    }
    Ok(())
}
