use crate::cases::{BAD_FORMS, BAD_HEADINGS, BAD_LINES, ENDS, FIRST_FAULTS, SAVED_OR_NOT};
use crate::holding::holds;
use dc_audit::{AuditError, AuditFault, AuditKind, Verdict, audit};
use std::alloc::Global;
use std::test::Fail;

/// What an audit answers, in words.
pub fn told(alloc: Global, text: &[u8]) -> Result<String, Fail> {
    match audit(alloc, text) {
        Ok(Verdict::Saved(events)) => Ok(format!(in alloc; "saved {events}")?),
        Ok(Verdict::NotSaved(e, x)) => Ok(format!(in alloc; "not saved {e} {x}")?),
        Err(error) => Ok(format!(in alloc; "{error}")?),
    }
}

/// The text of a case.
pub fn text_of(alloc: Global, case: &str) -> Result<Vec<u8>, Fail> {
    let mut text = Vec::new(alloc);
    for c in case.as_bytes() {
        text.push(if *c == b'~' { b'\n' } else { *c })?;
    }
    Ok(text)
}

fn comes_to(alloc: Global, row: &str) -> Result<(), Fail> {
    let Some((want, case)) = row.split_once('=') else {
        return Err(Fail::new(row));
    };
    let text = text_of(alloc, case)?;
    let told = told(alloc, &text)?;
    holds(told.as_str() == want, row)
}

fn come_to(alloc: Global, rows: &str) -> Result<(), Fail> {
    for row in rows.lines() {
        comes_to(alloc, row)?;
    }
    Ok(())
}

#[test]
fn journals_have_save_work_or_not(rt: HostRuntime) -> Result<(), Fail> {
    come_to(rt.alloc(), SAVED_OR_NOT)
}

#[test]
fn headings_have_a_form(rt: HostRuntime) -> Result<(), Fail> {
    come_to(rt.alloc(), BAD_HEADINGS)
}

#[test]
fn lines_have_a_form(rt: HostRuntime) -> Result<(), Fail> {
    come_to(rt.alloc(), BAD_FORMS)
}

#[test]
fn processes_and_messages_are_there(rt: HostRuntime) -> Result<(), Fail> {
    come_to(rt.alloc(), BAD_LINES)
}

#[test]
fn the_first_fault_decides(rt: HostRuntime) -> Result<(), Fail> {
    come_to(rt.alloc(), FIRST_FAULTS)
}

#[test]
fn a_journal_ends_once(rt: HostRuntime) -> Result<(), Fail> {
    come_to(rt.alloc(), ENDS)
}

fn says(alloc: Global, error: AuditError, text: &str) -> Result<(), Fail> {
    let told = format!(in alloc; "{error}")?;
    holds(told.as_str() == text, text)
}

#[test]
fn an_error_says_what_is_wrong(rt: HostRuntime) -> Result<(), Fail> {
    let line = 4_000_001;
    let kind = AuditKind::TooMany;
    let fault = AuditFault { line, kind };
    says(
        rt.alloc(),
        AuditError::Refused(fault),
        "line 4000001: too many",
    )?;
    says(rt.alloc(), AuditError::Memory, "out of memory")
}
