//! Calls of the program over files, devices and sinks in memory: each case of text comes to what it says.
//!
//! Of the call a case may say the words; the protocol, the planned stops, and in what else the plan differs, as its medium; the guests by the names of
//! their sources, or one guest by its source, by the words of its code, by a count of zero words, or as the file of `hi` with another byte
//! or cut off, and the name of that file; how often a source to assemble is repeated; a journal; the schedule; the report and the output of a check;
//! which fetch, which write and which store call fail; the room of the output and the report.
//!
//! Of what comes of it: the line on standard error and the status; the output as text or as the file of code; the report by its close line,
//! the turns of its acts and those that are not plain, or the journal; the marks.
//!
//! A case of a table says with which statuses it may end, and is tried with each of the words that `each` and `first` offer in place of
//! EACH and FIRST, at each call of a span.

mod cases;
mod files;
mod guest_files;
mod parts;
mod planned;
mod resumed;

use cases::{
    ANSWERS, CALLS, CHECKS, COMMANDS, COMMITTED_TOGETHER, DECIDED_TOGETHER, DISKS, FAILING, GUESTS,
    JOURNALS, LONG, PARTED, PLANS, RECOVERED_TOGETHER, RESUMED, RUNS, SCHEDULES, SOURCES, STOPPED,
    STOPS, TOGETHER, TOO_LONG, WRITTEN,
};
use dc_cases::{
    coded, holds, is_read, number, numbers, passing, says, text, value, wanted_report, words,
};
use dc_memmedia::{MemDisks, MemKeeps, MemLibrary, MemSink};
use dc_trial::{Came, Devices, called, called_aside};
use parts::parted_under;
use planned::{library, refused, tried_calls};
use resumed::all_resumed;
use std::alloc::Global;
use std::test::Fail;

const KEYS: &str =
    "words plan protocol stops old new guests source copies journal code zeros offset byte cut name schedule report output fetch write \
device room report_room said status out elf close acts act marks written each first ends";

/// What a call left: what it came to and its two sinks.
#[derive(Drop)]
struct Left {
    came: Came,
    out: MemSink,
    report: MemSink,
}

/// The marks are those that the case says, if it says any.
fn marks_are(case: &str, marks: &[u8]) -> Result<(), Fail> {
    if !says(case, "marks") {
        return Ok(());
    }
    let want = value(case, "marks", "").as_bytes();
    holds(marks == want, case, "the marks")
}

/// What a run leaves by its case: its report, its journal, or nothing.
fn wanted(alloc: Global, case: &str) -> Result<String, Fail> {
    if says(case, "close") {
        return wanted_report(alloc, case);
    }
    Ok(text(alloc, case, "written", "")?)
}

/// The report is the one that the case says, cut off where there was no room; none where it says no close line and no journal.
fn report_is(alloc: Global, case: &str, report: &MemSink) -> Result<(), Fail> {
    let want = wanted(alloc, case)?;
    let room = number(case, "report_room", "100000")?;
    let front = want.as_bytes().get(..room).unwrap_or(want.as_bytes());
    holds(report.bytes() == front, case, "the report")
}

/// The output is the one that the case says: a text, or a file cut off where there was no room.
fn output_is(alloc: Global, case: &str, out: &MemSink) -> Result<(), Fail> {
    if !says(case, "elf") {
        let want = text(alloc, case, "out", "")?;
        return holds(out.bytes() == want.as_bytes(), case, "the output");
    }
    let want = coded(alloc, case, "elf")?;
    let room = number(case, "room", "100000")?;
    let front = want.get(..room).unwrap_or(&want);
    holds(out.bytes() == front, case, "the file")
}

/// The program ends with the status and the line that the case says.
fn ends_so(alloc: Global, case: &str, came: &Came) -> Result<(), Fail> {
    let status = usize::from(came.status);
    holds(number(case, "status", "0")? == status, case, "the status")?;
    let want = text(alloc, case, "said", "")?;
    holds(
        came.said.bytes() == want.as_bytes(),
        case,
        "the line on standard error",
    )
}

/// What comes of a call besides its status is what its case says.
fn comes_to(alloc: Global, case: &str, left: &Left) -> Result<(), Fail> {
    let runs = says(case, "close") || says(case, "written");
    holds(left.came.ran == runs, case, "whether it ran")?;
    output_is(alloc, case, &left.out)?;
    report_is(alloc, case, &left.report)?;
    marks_are(case, &left.came.marks)
}

/// The output of a case, with its room and the writes that fail.
fn output(alloc: Global, case: &str) -> Result<MemSink, Fail> {
    let failing = numbers(alloc, value(case, "write", ""))?;
    Ok(MemSink::new(alloc, number(case, "room", "100000")?, failing)?)
}

/// The call of a case over its files.
fn left_by(alloc: Global, case: &str, library: &mut MemLibrary) -> Result<Left, Fail> {
    let mut on = Devices {
        keeps: MemKeeps::new(alloc, refused(alloc, case)?)?,
        disks: MemDisks::new(alloc, refused(alloc, case)?)?,
    };
    let mut out = output(alloc, case)?;
    let room = number(case, "report_room", "100000")?;
    let mut report = MemSink::new(alloc, room, Vec::new(alloc))?;
    let words = words(alloc, value(case, "words", "dc run plan"))?;
    let came = called(alloc, &words, library, &mut on, &mut out, &mut report)?;
    Ok(Left { came, out, report })
}

/// A case comes to what it says, and what a run wrote passes the check.
fn tried(alloc: Global, case: &str) -> Result<(), Fail> {
    is_read(case, KEYS)?;
    let mut library = library(alloc, case)?;
    let left = left_by(alloc, case, &mut library)?;
    if says(case, "ends") {
        return ends_well(alloc, case, &mut library, &left);
    }
    ends_so(alloc, case, &left.came)?;
    comes_to(alloc, case, &left)?;
    if fails(case) {
        return Ok(());
    }
    if says(case, "close") {
        return passes(alloc, case, &mut library, &left);
    }
    saved(alloc, case, &mut library, &left)
}

/// Whether a fetch or a sink of the case fails.
fn fails(case: &str) -> bool {
    says(case, "fetch") || says(case, "write") || says(case, "room") || says(case, "report_room")
}

/// Whether a call touched no store, and ended with status 0.
fn is_done(came: Option<Came>) -> bool {
    match came {
        Some(came) => came.status == 0,
        None => false,
    }
}

/// The words of a check of what was written.
fn check_words(alloc: Global) -> Result<Vec<String>, Fail> {
    let mut words = words(alloc, "dc check plan")?;
    words.push(String::from_str(alloc, "written report")?)?;
    words.push(String::from_str(alloc, "written")?)?;
    Ok(words)
}

/// What the check of what a run wrote prints, which passes.
fn checked(
    alloc: Global,
    case: &str,
    library: &mut MemLibrary,
    left: &Left,
) -> Result<MemSink, Fail> {
    let name = String::from_str(alloc, "written report")?;
    library.add(name, left.report.bytes().to_vec(alloc)?)?;
    let name = String::from_str(alloc, "written")?;
    library.add(name, left.out.bytes().to_vec(alloc)?)?;
    let mut out = MemSink::new(alloc, 100, Vec::new(alloc))?;
    let words = check_words(alloc)?;
    let came = called_aside(alloc, &words, library, &mut out)?;
    holds(is_done(came), case, "the check passes")?;
    Ok(out)
}

/// What a run wrote passes the check, which counts what the case says.
fn passes(alloc: Global, case: &str, library: &mut MemLibrary, left: &Left) -> Result<(), Fail> {
    let out = checked(alloc, case, library, left)?;
    let line = passing(alloc, case)?;
    let is_same = out.bytes() == line.as_bytes();
    holds(is_same, case, "the line of the check")
}

/// A journal that was written whole is found to have Save-work.
fn saved(alloc: Global, case: &str, library: &mut MemLibrary, left: &Left) -> Result<(), Fail> {
    if !value(case, "written", "").ends_with("~end~") {
        return Ok(());
    }
    let name = String::from_str(alloc, "written")?;
    library.add(name, left.report.bytes().to_vec(alloc)?)?;
    let mut out = MemSink::new(alloc, 100, Vec::new(alloc))?;
    let words = words(alloc, "dc audit written")?;
    let came = called_aside(alloc, &words, library, &mut out)?;
    holds(is_done(came), case, "the journal is saved")
}

/// The status is one of those that the case says.
fn status_is(alloc: Global, case: &str, came: &Came) -> Result<(), Fail> {
    let status = u64::from(came.status);
    let ends = numbers(alloc, value(case, "ends", ""))?;
    holds(ends.contains(&status), case, "the status")
}

/// A call of a table ends as its case says; what a run wrote passes the check, or is a front of the case's output where that could not be
/// written; and a call that is no run writes nothing.
fn ends_well(alloc: Global, case: &str, library: &mut MemLibrary, left: &Left) -> Result<(), Fail> {
    status_is(alloc, case, &left.came)?;
    let shown = left.out.bytes();
    if says(case, "out") {
        let whole = text(alloc, case, "out", "")?;
        holds(whole.as_bytes().starts_with(shown), case, "a front")?;
    }
    if says(case, "written") {
        let whole = text(alloc, case, "written", "")?;
        let left = left.report.bytes();
        return holds(
            whole.as_bytes().starts_with(left),
            case,
            "a front of the journal",
        );
    }
    if says(case, "write") {
        return Ok(());
    }
    if left.came.ran {
        let line = checked(alloc, case, library, left)?;
        return holds(line.bytes().starts_with(b"ok "), case, "the line");
    }
    holds(shown.is_empty(), case, "no output")?;
    holds(left.report.bytes().is_empty(), case, "no report")
}

/// So it does at each of the calls that it names, if it names several.
fn tried_at_each(alloc: Global, case: &str) -> Result<(), Fail> {
    let Some(calls) = tried_calls(alloc, case)? else {
        return tried(alloc, case);
    };
    holds(calls.from <= calls.to, case, "no call to stop at")?;
    for call in calls.from..calls.to.saturating_add(1) {
        let call = format!(in alloc; "{call}")?;
        tried(alloc, &case.replace(alloc, calls.word, &call)?)?;
    }
    Ok(())
}

/// And with each of the words that it offers for FIRST.
fn tried_for_first(alloc: Global, case: &str) -> Result<(), Fail> {
    for word in value(case, "first", "").split("|") {
        tried_at_each(alloc, &case.replace(alloc, "FIRST", word)?)?;
    }
    Ok(())
}

/// And with each that it offers for EACH.
fn tried_for_each(alloc: Global, case: &str) -> Result<(), Fail> {
    for word in value(case, "each", "").split("|") {
        tried_for_first(alloc, &case.replace(alloc, "EACH", word)?)?;
    }
    Ok(())
}

/// Each of some cases does, of which each begins with `* `.
fn all(alloc: Global, cases: &str) -> Result<(), Fail> {
    for case in cases.split("* ") {
        if !case.is_empty() {
            tried_for_each(alloc, case)?;
        }
    }
    Ok(())
}

#[test]
fn runs(rt: HostRuntime) -> Result<(), Fail> {
    all(rt.alloc(), RUNS)
}

#[test]
fn guests(rt: HostRuntime) -> Result<(), Fail> {
    all(rt.alloc(), GUESTS)
}

#[test]
fn calls(rt: HostRuntime) -> Result<(), Fail> {
    all(rt.alloc(), CALLS)
}

#[test]
fn answers(rt: HostRuntime) -> Result<(), Fail> {
    all(rt.alloc(), ANSWERS)
}

#[test]
fn checks(rt: HostRuntime) -> Result<(), Fail> {
    all(rt.alloc(), CHECKS)
}

#[test]
fn commands(rt: HostRuntime) -> Result<(), Fail> {
    all(rt.alloc(), COMMANDS)
}

#[test]
fn plans(rt: HostRuntime) -> Result<(), Fail> {
    all(rt.alloc(), PLANS)
}

#[test]
fn schedules(rt: HostRuntime) -> Result<(), Fail> {
    all(rt.alloc(), SCHEDULES)
}

#[test]
fn a_long_schedule(rt: HostRuntime) -> Result<(), Fail> {
    all(rt.alloc(), LONG)
}

#[test]
fn a_schedule_too_long(rt: HostRuntime) -> Result<(), Fail> {
    all(rt.alloc(), TOO_LONG)
}

#[test]
fn stops(rt: HostRuntime) -> Result<(), Fail> {
    all(rt.alloc(), STOPS)
}

#[test]
fn together(rt: HostRuntime) -> Result<(), Fail> {
    all(rt.alloc(), TOGETHER)
}

#[test]
fn committed_together(rt: HostRuntime) -> Result<(), Fail> {
    all(rt.alloc(), COMMITTED_TOGETHER)
}

#[test]
fn decided_together(rt: HostRuntime) -> Result<(), Fail> {
    all(rt.alloc(), DECIDED_TOGETHER)
}

#[test]
fn recovered_together(rt: HostRuntime) -> Result<(), Fail> {
    all(rt.alloc(), RECOVERED_TOGETHER)
}

#[test]
fn runs_on_disks(rt: HostRuntime) -> Result<(), Fail> {
    all(rt.alloc(), DISKS)
}

#[test]
fn sources(rt: HostRuntime) -> Result<(), Fail> {
    all(rt.alloc(), SOURCES)
}

#[test]
fn journals(rt: HostRuntime) -> Result<(), Fail> {
    all(rt.alloc(), JOURNALS)
}

#[test]
fn journals_of_runs(rt: HostRuntime) -> Result<(), Fail> {
    all(rt.alloc(), WRITTEN)
}

#[test]
fn calls_stopped(rt: HostRuntime) -> Result<(), Fail> {
    all(rt.alloc(), STOPPED)
}

#[test]
fn calls_failing(rt: HostRuntime) -> Result<(), Fail> {
    all(rt.alloc(), FAILING)
}

#[test]
fn parts_alone(rt: HostRuntime) -> Result<(), Fail> {
    parted_under(rt.alloc(), PARTED, "cand cand-log cpvs cbndvs cbndvs-log")
}

#[test]
fn parts_together(rt: HostRuntime) -> Result<(), Fail> {
    parted_under(rt.alloc(), PARTED, "cpv-2pc cbndv-2pc")
}

#[test]
fn resumed_runs(rt: HostRuntime) -> Result<(), Fail> {
    all_resumed(rt.alloc(), RESUMED)
}

/// Each front of a text is tried as one of a case's, by a key.
fn fronts(alloc: Global, key: &str, whole: &str, ends: &str) -> Result<(), Fail> {
    for cut in 0..whole.len() {
        let Some(front) = whole.get(..cut) else {
            return Err(Fail::new("a front"));
        };
        let case = format!(in alloc; "cut\n{key}={front}\nends={ends}\n")?;
        tried(alloc, &case)?;
    }
    Ok(())
}

/// A plan that is cut off is refused; the last line feed may be missing.
#[test]
fn plans_cut_off(rt: HostRuntime) -> Result<(), Fail> {
    let plan =
        "protocol = \"cpvs\"~medium = \"rio\"~memory = 65536~guests = [\"hi.elf\"]~schedule = \"schedule\"";
    fronts(rt.alloc(), "plan", plan, "3")
}

/// A schedule that is cut off is one of fewer entries, or its last line is refused.
#[test]
fn schedules_cut_off(rt: HostRuntime) -> Result<(), Fail> {
    let schedule = "0 0 0~0 12 345~stop 0~power~0 0 0~";
    fronts(rt.alloc(), "schedule", schedule, "0 1 11")
}

/// A file cut off at each byte is refused for the first thing that is missing.
#[test]
fn files_cut_off(rt: HostRuntime) -> Result<(), Fail> {
    for cut in 0..116u32 {
        let fault = if cut < 52 {
            "short"
        } else if cut < 84 {
            "headers"
        } else {
            "segment 0"
        };
        let case = format!(in rt.alloc();
            "cut\ncut={cut}\nstatus=4\nsaid=dc: guest 0 refused: {fault}~\n"
        )?;
        tried(rt.alloc(), &case)?;
    }
    Ok(())
}

/// A report's sink of any room holds a front of the report. No report is shorter than its first and its last line: 12 and 14 bytes.
#[test]
fn reports_cut_off(rt: HostRuntime) -> Result<(), Fail> {
    for room in 0..26u32 {
        let ran = format!(in rt.alloc();
            "ran\nreport_room={room}\nstatus=8\nsaid=dc: sink failed: report~\nout=out 0 0 6869~end 0 1 0~\nacts=0-6\nclose=close 0 7 7 2\n"
        )?;
        tried(rt.alloc(), &ran)?;
        let idle = format!(in rt.alloc();
            "idle\nschedule=\nreport_room={room}\nstatus=8\nsaid=dc: sink failed: report~\nclose=close 1 0 0 0\n"
        )?;
        tried(rt.alloc(), &idle)?;
    }
    Ok(())
}

/// A report that is cut off lacks its close line, or ends in a line without its line feed.
#[test]
fn checked_reports_cut_off(rt: HostRuntime) -> Result<(), Fail> {
    let report = "dc-report 1~act 0 0 plain~act 1 0 plain~close 1 2 2 0~";
    for cut in 0..report.len() {
        let Some(front) = report.get(..cut) else {
            return Err(Fail::new("a front"));
        };
        let line = front.split("~").count();
        let kind = if front.is_empty() || front.ends_with("~") {
            "cut"
        } else {
            "form"
        };
        let case = format!(in rt.alloc();
            "cut\nwords=dc check plan report output\nreport={front}\noutput=\nstatus=13\nsaid=dc: report line {line} refused: {kind}~\n"
        )?;
        tried(rt.alloc(), &case)?;
    }
    Ok(())
}

/// An output that is cut off differs where its line is cut off, or where the next is missing. The last line feed may be missing.
#[test]
fn checked_outputs_cut_off(rt: HostRuntime) -> Result<(), Fail> {
    let output = "out 0 0 6869~end 0 1 0~";
    for cut in 0..output.len() - 1 {
        let Some(front) = output.get(..cut) else {
            return Err(Fail::new("a front"));
        };
        let line = if cut < 12 { 1 } else { 2 };
        let case = format!(in rt.alloc();
            "cut\nwords=dc check plan report output\nreport=%close 0 7 7 2~\noutput={front}\nstatus=9\nsaid=dc: differs: line {line}~\n"
        )?;
        tried(rt.alloc(), &case)?;
    }
    Ok(())
}

/// A report with one byte changed is refused in the line of that byte.
#[test]
fn checked_reports_changed(rt: HostRuntime) -> Result<(), Fail> {
    let report = "dc-report 1~act 0 0 plain~act 1 0 plain~close 1 2 2 0~";
    for at in 0..report.len() {
        let (Some(front), Some(rest)) = (report.get(..at), report.get(at + 1..)) else {
            return Err(Fail::new("two parts"));
        };
        let line = front.split("~").count();
        let case = format!(in rt.alloc();
            "changed\nwords=dc check plan report output\nreport={front}x{rest}\noutput=\nstatus=13\nsaid=dc: report line {line} refused: form~\n"
        )?;
        tried(rt.alloc(), &case)?;
    }
    Ok(())
}
