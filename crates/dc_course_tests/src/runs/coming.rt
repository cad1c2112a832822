//! What a run came to, held to what its case says.

use crate::runs::lists::at;
use crate::runs::runs::Ran;
use dc_acts::Acts;
use dc_cases::{as_usize, holds, numbers, text, value};
use dc_course::{Course, Ending};
use dc_memmedia::MemSink;
use dc_model::{Idle, Mark, Taken};
use dc_report::write_report;
use std::alloc::Global;
use std::test::Fail;

/// The letter of a mark.
fn letter(mark: &Mark) -> char {
    match *mark {
        Mark::Idle(Idle::Ended) => 'i',
        Mark::Idle(Idle::LinkFull) => 'f',
        Mark::Stepped => 's',
        Mark::Showed(k) => char::from_digit(k.min(9), 10).unwrap_or('?'),
        Mark::Stopped => 'x',
        Mark::Recovered(_) => 'r',
        Mark::Marked => 'm',
    }
}

/// The marks are those of the case, if it says all.
fn marks_are(alloc: Global, case: &str, marks: &[Mark]) -> Result<(), Fail> {
    let want = value(case, "marks", "any");
    if want == "any" {
        return Ok(());
    }
    let mut got = String::new(alloc);
    for mark in marks {
        got.push(letter(mark))?;
    }
    holds(got.as_str() == want, case, &got)
}

/// An entry has the mark that is said of it.
fn is_marked(
    alloc: Global,
    case: &str,
    marks: &[Mark],
    entry: &str,
    want: &str,
) -> Result<(), Fail> {
    match marks.get(as_usize(entry)?) {
        Some(mark) => {
            let got = format!(in alloc; "{mark:?}")?;
            holds(got.as_str() == want, case, &got)
        }
        None => holds(false, case, "no mark"),
    }
}

/// So have the entries that the case names.
fn some_are(alloc: Global, case: &str, marks: &[Mark]) -> Result<(), Fail> {
    for part in value(case, "some", "").split(", ") {
        let Some((entry, want)) = part.split_once(' ') else {
            return holds(part.is_empty(), case, "a mark");
        };
        is_marked(alloc, case, marks, entry, want)?;
    }
    Ok(())
}

/// Whether a turn is one of the text: numbers and ranges of them, as `0-3 7`.
fn is_turn(text: &str, turn: usize) -> Result<bool, Fail> {
    for part in text.split_whitespace() {
        let (first, last) = part.split_once('-').unwrap_or((part, part));
        if as_usize(first)? <= turn && turn <= as_usize(last)? {
            return Ok(true);
        }
    }
    Ok(false)
}

/// The acts are at the turns that the case says, if it says any.
fn turns_are(case: &str, acts: &[Taken], entries: usize) -> Result<(), Fail> {
    let text = value(case, "turns", "any");
    if text == "any" {
        return Ok(());
    }
    let mut index = 0usize;
    for turn in 0..entries {
        if !is_turn(text, turn)? {
            continue;
        }
        let Some(act) = acts.get(index) else {
            return holds(false, case, "fewer acts");
        };
        holds(act.t as usize == turn, case, "the turns of the acts")?;
        index = index.saturating_add(1);
    }
    holds(index == acts.len(), case, "more acts")
}

/// The report of the acts has the lines that the case says.
fn report_has(alloc: Global, case: &str, acts: &Acts) -> Result<(), Fail> {
    let mut report = MemSink::new(alloc, 1_000_000, Vec::new(alloc))?;
    if write_report(&mut report, 0, 0, acts, 0).is_err() {
        return holds(false, case, "a report");
    }
    let Ok(report) = str::from_utf8(report.bytes()) else {
        return holds(false, case, "a text");
    };
    for want in value(case, "has", "").split(", ") {
        let there = report.lines().any(|line| line == want);
        holds(want.is_empty() || there, case, "an act")?;
    }
    Ok(())
}

/// There are as many marks, acts and whole lines as the case says.
fn counts_are(alloc: Global, case: &str, course: &Course) -> Result<(), Fail> {
    let want = numbers(alloc, value(case, "counts", ""))?;
    let marks = course.marks.as_slice().len() as u64;
    let acts = course.acts.len() as u64;
    holds(want.len() == 3, case, "three counts")?;
    holds(at(&want, 0) == marks, case, "the count of the marks")?;
    holds(at(&want, 1) == acts, case, "the count of the acts")?;
    holds(
        at(&want, 2) == u64::from(course.lines),
        case,
        "the count of the lines",
    )
}

/// A run ended as its case says.
fn ends(alloc: Global, case: &str, ending: Ending) -> Result<(), Fail> {
    let got = format!(in alloc; "{ending:?}")?;
    holds(got.as_str() == value(case, "ending", ""), case, &got)
}

/// A course is that of its case.
fn course_is(alloc: Global, case: &str, course: &Course, entries: usize) -> Result<(), Fail> {
    let marks = course.marks.as_slice();
    marks_are(alloc, case, marks)?;
    some_are(alloc, case, marks)?;
    turns_are(case, course.acts.as_slice(), entries)?;
    report_has(alloc, case, &course.acts)?;
    counts_are(alloc, case, course)?;
    ends(alloc, case, course.ending)
}

/// A run through so many entries came to what its case says.
pub fn comes_to(alloc: Global, case: &str, ran: &Ran, entries: usize) -> Result<(), Fail> {
    let lines = text(alloc, case, "lines", "")?;
    holds(ran.out.bytes() == lines.as_bytes(), case, "the lines")?;
    match &ran.answer {
        Ok(course) => course_is(alloc, case, course, entries),
        Err(fault) => {
            let got = format!(in alloc; "{fault:?}")?;
            holds(got.as_str() == value(case, "ending", ""), case, &got)
        }
    }
}
