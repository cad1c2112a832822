//! The report of a case, and the line of a check.

use crate::case::{text, value};
use crate::spans::{Span, span_of, told};
use std::alloc::{AllocError, Global};
use std::test::Fail;

/// The acts of the guest that shows `hi`, with the first line of a report.
const HI_ACTS: &str =
    "dc-report 1\nact 0 0 plain\nact 1 0 plain\nact 2 0 plain\nact 3 0 plain\nact 4 0 plain\nact 5 0 plain\nact 6 0 plain\n";

/// Adds the acts of a process in these turns to a report.
fn add_acts(alloc: Global, case: &str, span: Span, want: &mut String) -> Result<(), Fail> {
    for turn in span.from..span.to.saturating_add(1) {
        let told = told(case, turn)?;
        let act = format!(in alloc; "act {turn} {} {told}\n", span.process)?;
        want.push_str(&act)?;
    }
    Ok(())
}

/// The report that a case says: its acts and the close line.
pub fn wanted_report(alloc: Global, case: &str) -> Result<String, Fail> {
    let mut want = String::from_str(alloc, "dc-report 1\n")?;
    for turns in value(case, "acts", "").split_whitespace() {
        add_acts(alloc, case, span_of(turns)?, &mut want)?;
    }
    want.push_str(value(case, "close", ""))?;
    want.push_str("\n")?;
    Ok(want)
}

/// The report of a case that checks one, with the acts of `hi` where it says so.
pub fn reported(alloc: Global, case: &str) -> Result<String, AllocError> {
    text(alloc, case, "report", "none")?.replace(alloc, "%", HI_ACTS)
}

/// How many lines of a text are not as one before.
fn count_of_new(text: &str) -> usize {
    let mut count = 0usize;
    for (index, line) in text.lines().enumerate() {
        if !text.lines().take(index).any(|before| before == line) {
            count = count.saturating_add(1);
        }
    }
    count
}

/// The line of a check that passes: the count of acts, and that of the lines without repeats.
pub fn passing(alloc: Global, case: &str) -> Result<String, Fail> {
    let acts = wanted_report(alloc, case)?
        .lines()
        .count()
        .saturating_sub(2);
    let lines = count_of_new(&text(alloc, case, "out", "")?);
    Ok(format!(in alloc; "ok {acts} {lines}\n")?)
}
