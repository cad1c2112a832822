ghost use Rattle.std.specs.Prelude.{◌≡◌, ◌<◌, ◌≤◌, ◌+◌, [], Err, IfSome, length, replicate};
ghost use Rattle.dc_words.specs.Texts.{fields_of};
ghost use Rattle.dc_audit.specs.Clocks.{no_way, nothing};
ghost use Rattle.dc_audit.specs.Reading.{Audits, Closes, Judges, Tells, journal_of, journal_with, lines_from};
ghost use Rattle.dc_audit.specs.Reading as reading;
ghost use Rattle.dc_audit.specs.declared.fault.AuditError.TheVariants.{Refused};

use crate::clock::{Clock, NOTHING};
use crate::failure::Failure;
use crate::fault::{AuditError, AuditFault, AuditKind};
use crate::journal::Line;
use crate::lines::{judge_line, no_clocks, no_links};
use crate::link::Link;
use crate::reading::{heading, next_line};
use crate::said::Said;
use crate::verdict::Verdict;
use dc_words::first_field;
use std::alloc::Global;

/// The most lines that a journal's text may have, its heading and its end with them.
const LINES: u32 = 4_000_000;

/// Refuses this line.
fn refused(line: u32, kind: AuditKind) -> Result<Verdict, AuditError>
    ensures { result ≡ Err (Refused (record { line = line; kind = kind })) }
{
    Err(AuditError::Refused(AuditFault { line, kind }))
}

/// Refuses this line, for being one too many before anything else.
fn fault_at(line: u32, kind: AuditKind) -> Result<Verdict, AuditError>
    ensures { Judges result (reading.fault_at line kind) }
{
    if line > LINES {
        return refused(line, AuditKind::TooMany);
    }
    refused(line, kind)
}

/// What is wrong behind the last line feed of a text that has not ended: its end is missing, or a line has no line feed.
fn cut_off(line: u32, rest: &[u8]) -> Result<Verdict, AuditError>
    ensures { Judges result (reading.cut_off line rest.now) }
{
    if rest.is_empty() {
        return refused(line, AuditKind::Cut);
    }
    fault_at(line, AuditKind::Form)
}

/// The verdict on a journal of so many events, in lines of its text: its first line behind the heading is line 2.
fn verdict(failure: Option<Failure>, events: u32) -> Verdict
    requires { IfSome failure (λ f. (f.event < 4000000) × (f.line < 4000000)) }
    ensures { Tells failure events result }
{
    match failure {
        None => Verdict::Saved(events),
        Some(failure) => Verdict::NotSaved(failure.event + 2, failure.line + 2),
    }
}

/// The verdict where nothing stands behind the end, whose next line has this number.
fn ended(
    number: u32,
    after: &[u8],
    failure: Option<Failure>,
    events: u32,
) -> Result<Verdict, AuditError>
    requires { IfSome failure (λ f. (f.event < 4000000) × (f.line < 4000000)) }
    ensures { Closes number after.now failure events result }
{
    if !after.is_empty() {
        return fault_at(number, AuditKind::Form);
    }
    Ok(verdict(failure, events))
}

/// The count of events, with this line.
fn events_with(events: u32, line: &Line) -> u32
    requires { events < 4000000 }
    ensures { result ≡ events + reading.events_of line.now }
{
    match *line {
        Line::Does(_, _) => events + 1,
        Line::Commits(_) => events,
    }
}

/// Reads and judges the lines behind the heading, one after the other.
fn read_lines(
    n: u32,
    causal: bool,
    clocks: &mut [Clock],
    links: &mut [Link],
    text: &[u8],
) -> Result<Verdict, AuditError>
    requires clocks { clocks.old ≡ replicate 16 (replicate 16 nothing) }
    requires links { links.old ≡ replicate 256 no_way }
    requires few { n ≤ 16 }
    ensures { Audits result (journal_with n causal (lines_from n 2 [] (fields_of 10 text.now))) }
{
    let mut last = [NOTHING; 16];
    let mut failure = None;
    let mut index: u32 = 0;
    let mut events: u32 = 0;
    let mut rest = text;
    while let Some((line, after)) = first_field(b'\n', rest) {
        if index + 2 > LINES {
            return refused(index + 2, AuditKind::TooMany);
        }
        match next_line(n, links, line) {
            Err(kind) => return refused(index + 2, kind),
            Ok(Said::End) => return ended(index + 3, after, failure, events),
            Ok(Said::Says(line)) => {
                let Ok(()) = judge_line(
                    causal,
                    index,
                    clocks,
                    links,
                    &mut last,
                    &mut failure,
                    &line,
                ) else {
                    return Err(AuditError::Memory);
                };
                events = events_with(events, &line);
                index += 1;
                rest = after;
            }
        }
    }
    cut_off(index + 2, rest)
}

/// Audits the text of a journal: whether it has Save-work, or where it fails first, or the first line that is faulty.
///
/// The text has a heading `dc-journal 1 N FORM`, with 1 to 16 processes and the form `plain` or `causal`, then a line for each event and
/// each commit, in the order in which they happened, and last `end`; each ends in a line feed, and there are at most 4,000,000:
///
/// - `e P nd`: process P was told something that could have come otherwise, and that no log has; `e P logged`: that a log has.
/// - `e P visible`: it showed something.
/// - `e P send Q K`: it sent message K to Q; messages from P to Q are numbered from 0.
/// - `e P receive Q K nd`, `e P receive Q K logged`: it received message K of Q, and no log has that, or a log has it.
/// - `commit LIST`: these processes committed together, in rising order, with commas between them.
///
/// In the causal form each commit happens before the commits after it. Events of other kinds have no line. Of a faulty line the first fault
/// counts, in the order of `AuditKind`. An error without a line is want of memory for the messages on their way, 128 bytes for each.
pub fn audit(alloc: Global, bytes: &[u8]) -> Result<Verdict, AuditError>
    ensures { Audits result (journal_of bytes.now) }
{
    let Some((first, rest)) = first_field(b'\n', bytes) else {
        return cut_off(1, bytes);
    };
    let Some((n, causal)) = heading(first) else {
        return refused(1, AuditKind::Form);
    };
    let mut clocks = no_clocks();
    let Ok(mut links) = no_links(alloc) else {
        return Err(AuditError::Memory);
    };
    read_lines(n, causal, &mut clocks, &mut links, rest)
}
