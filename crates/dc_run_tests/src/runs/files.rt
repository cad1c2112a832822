//! The files of a case.

use crate::runs::guest_files::add_guests;
use dc_cases::{number, numbers, reported, text, value};
use dc_memmedia::MemLibrary;
use std::alloc::{AllocError, Global};
use std::test::Fail;

/// Adds a text, where it is not `none`.
fn add(
    alloc: Global,
    library: &mut MemLibrary,
    name: &str,
    text: String,
) -> Result<(), AllocError> {
    if text.as_str() == "none" {
        return Ok(());
    }
    library.add(String::from_str(alloc, name)?, text.into_bytes())
}

/// The files of a case that audits its journal.
pub fn journal(alloc: Global, case: &str) -> Result<MemLibrary, Fail> {
    let mut library = MemLibrary::new(alloc, numbers(alloc, value(case, "fetch", ""))?);
    let journal = text(alloc, case, "journal", "none")?;
    add(alloc, &mut library, "journal", journal)?;
    Ok(library)
}

/// The files of a case that assembles its source.
pub fn source(alloc: Global, case: &str) -> Result<MemLibrary, Fail> {
    let mut library = MemLibrary::new(alloc, numbers(alloc, value(case, "fetch", ""))?);
    let source = text(alloc, case, "source", "")?;
    let copies = number(case, "copies", "1")?;
    add(alloc, &mut library, "source", source.repeat(alloc, copies)?)?;
    Ok(library)
}

/// The files of any other case with this plan and this schedule.
pub fn files(
    alloc: Global,
    case: &str,
    plan: String,
    schedule: String,
) -> Result<MemLibrary, Fail> {
    let mut library = MemLibrary::new(alloc, numbers(alloc, value(case, "fetch", ""))?);
    add(alloc, &mut library, "plan", plan)?;
    add(alloc, &mut library, "schedule", schedule)?;
    add_guests(alloc, case, &mut library)?;
    add(alloc, &mut library, "report", reported(alloc, case)?)?;
    let output = text(alloc, case, "output", "none")?;
    add(alloc, &mut library, "output", output)?;
    Ok(library)
}
