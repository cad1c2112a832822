//! The plan and the schedule of a case.

use crate::case::{as_usize, text, value};
use std::alloc::{AllocError, Global};
use std::test::Fail;

const PLAN: &str =
    "protocol = \"cpvs\"~medium = \"rio\"~memory = 65536~guests = [\"hi.elf\"]~schedule = \"schedule\"~";

/// The names of the guests' files, as in a plan.
fn names(alloc: Global, case: &str) -> Result<String, Fail> {
    let mut names = String::new(alloc);
    for name in value(case, "guests", "hi").split_whitespace() {
        if !names.is_empty() {
            names.push_str(", ")?;
        }
        names.push_str(&format!(in alloc; "\"{name}.elf\"")?)?;
    }
    Ok(names)
}

/// The plan, but for its planned stops: that of `hi` with the case's protocol and guests, and one text in place of another, unless the
/// case says it.
pub fn plan(alloc: Global, case: &str) -> Result<String, Fail> {
    let plan = text(alloc, case, "plan", PLAN)?;
    let plan = plan.replace(alloc, "cpvs", value(case, "protocol", "cpvs"))?;
    let plan = plan.replace(alloc, "\"hi.elf\"", &names(alloc, case)?)?;
    let old = text(alloc, case, "old", "cpvs")?;
    let new = text(alloc, case, "new", "cpvs")?;
    Ok(plan.replace(alloc, &old, &new)?)
}

/// The lines of a part of a schedule: an entry, perhaps so many times, as `4 x 0 0 0`.
fn lines_of(alloc: Global, part: &str) -> Result<String, Fail> {
    let (times, line) = part.split_once(" x ").unwrap_or(("1", part));
    let times = as_usize(times)?;
    let line = format!(in alloc; "{line}\n")?;
    Ok(line.repeat(alloc, times)?)
}

/// The schedule: a text, or entries with `, ` between two, each perhaps so many times, as `4 x 0 0 0`.
pub fn schedule(alloc: Global, case: &str) -> Result<String, Fail> {
    let said = value(case, "schedule", "7 x 0 0 0");
    if said.split_once(" x ").is_none() {
        return Ok(text(alloc, case, "schedule", "")?);
    }
    let mut schedule = String::new(alloc);
    for part in said.split(", ") {
        schedule.push_str(&lines_of(alloc, part)?)?;
    }
    Ok(schedule)
}

/// The first lines of a text.
pub fn front(alloc: Global, text: &str, count: usize) -> Result<String, AllocError> {
    let mut front = String::new(alloc);
    for line in text.lines().take(count) {
        front.push_str(line)?;
        front.push_str("\n")?;
    }
    Ok(front)
}
