//! Runs over stores in memory: each case of text comes to what it says.

mod cases;
mod coming;
mod guests;
mod lists;
mod parts;
mod runs;
mod setting;
mod spoiled;
mod stops;
mod walk;

use cases::{
    ENTRIES, FAULTS, LOGS, MESSAGES, OPENINGS, ROWS, SPOILED, TOGETHER, TOGETHER_TORN, TORN,
};
use coming::comes_to;
use dc_cases::is_read;
use dc_media::PlannedStop;
use dc_memmedia::ListedCall;
use dc_model::Entry;
use dc_processes::processes_learn;
use runs::{run_lent, run_refused};
use setting::schedule;
use spoiled::run_spoiled;
use std::alloc::{AllocError, Global};
use std::test::Fail;
use stops::{Tried, stops};

/// What a case may say. Of the run: the protocol, the guests and their inputs, the schedule, the stops, and which calls of the output fail.
/// Of what comes of it: the lines, the marks or some of them, the turns of the acts, lines of the report, the counts of the marks, the acts
/// and the lines, and the ending.
pub const KEYS: &str =
    "protocol guests inputs schedule stops unwritten lines marks some turns has counts ending";

/// The run of a case through its entries comes to what it says over memory that refuses these calls, and over such memory that is lent.
fn refused(
    alloc: Global,
    case: &str,
    entries: &[Entry],
    refused: &[ListedCall],
) -> Result<(), Fail> {
    let ran = run_refused(alloc, case, entries, refused)?;
    comes_to(alloc, case, &ran, entries.len())?;
    let ran = run_lent(alloc, case, entries, refused, &[])?;
    comes_to(alloc, case, &ran, entries.len())
}

/// The same over memory that is lent, with these stops planned.
fn planned(
    alloc: Global,
    case: &str,
    entries: &[Entry],
    stops: &[PlannedStop],
) -> Result<(), Fail> {
    let ran = run_lent(alloc, case, entries, &[], stops)?;
    comes_to(alloc, case, &ran, entries.len())
}

/// The calls that are refused where the last of the stops is tried at this one.
fn refused_at(
    alloc: Global,
    before: &[Tried],
    last: &Tried,
    call: u64,
) -> Result<Vec<ListedCall>, AllocError> {
    let mut list = Vec::new(alloc);
    for stop in before {
        list.push(stop.refused(stop.first))?;
    }
    list.push(last.refused(call))?;
    Ok(list)
}

/// The stops as they are planned; none where one of them cannot be.
fn planned_at(
    alloc: Global,
    before: &[Tried],
    last: &Tried,
    call: u64,
) -> Result<Option<Vec<PlannedStop>>, AllocError> {
    let mut list = Vec::new(alloc);
    for stop in before {
        let Some(one) = stop.planned(stop.first) else {
            return Ok(None);
        };
        list.push(one)?;
    }
    let Some(one) = last.planned(call) else {
        return Ok(None);
    };
    list.push(one)?;
    Ok(Some(list))
}

/// A run with stops comes to what its case says, the last of them at this call: refused by the device, and as planned where it can be.
fn stopped(
    alloc: Global,
    case: &str,
    entries: &[Entry],
    before: &[Tried],
    last: &Tried,
    call: u64,
) -> Result<(), Fail> {
    refused(
        alloc,
        case,
        entries,
        &refused_at(alloc, before, last, call)?,
    )?;
    if let Some(list) = planned_at(alloc, before, last, call)? {
        planned(alloc, case, entries, &list)?;
    }
    Ok(())
}

/// A case comes to what it says, the last of its stops at each of its calls.
fn tried(alloc: Global, case: &str) -> Result<(), Fail> {
    is_read(case, KEYS)?;
    let entries = schedule(alloc, case)?;
    let stops = stops(alloc, case, &entries)?;
    let Some((last, before)) = stops.split_last() else {
        return refused(alloc, case, &entries, &[]);
    };
    for call in last.first..last.last.saturating_add(1) {
        stopped(alloc, case, &entries, before, last, call)?;
    }
    Ok(())
}

/// Each of some cases does, of which each begins with `* `.
fn all(alloc: Global, cases: &str) -> Result<(), Fail> {
    for case in cases.split("* ") {
        if !case.is_empty() {
            tried(alloc, case)?;
        }
    }
    Ok(())
}

#[test]
fn rows(rt: HostRuntime) -> Result<(), Fail> {
    all(rt.alloc(), ROWS)
}

#[test]
fn torn(rt: HostRuntime) -> Result<(), Fail> {
    all(rt.alloc(), TORN)
}

#[test]
fn together(rt: HostRuntime) -> Result<(), Fail> {
    all(rt.alloc(), TOGETHER)
}

#[test]
fn together_torn(rt: HostRuntime) -> Result<(), Fail> {
    all(rt.alloc(), TOGETHER_TORN)
}

#[test]
fn logs(rt: HostRuntime) -> Result<(), Fail> {
    all(rt.alloc(), LOGS)
}

#[test]
fn messages(rt: HostRuntime) -> Result<(), Fail> {
    all(rt.alloc(), MESSAGES)
}

#[test]
fn entries(rt: HostRuntime) -> Result<(), Fail> {
    all(rt.alloc(), ENTRIES)
}

#[test]
fn faults(rt: HostRuntime) -> Result<(), Fail> {
    all(rt.alloc(), FAULTS)
}

#[test]
fn openings(rt: HostRuntime) -> Result<(), Fail> {
    all(rt.alloc(), OPENINGS)
}

#[test]
fn a_store_that_another_hand_changed(rt: HostRuntime) -> Result<(), Fail> {
    let entries = schedule(rt.alloc(), SPOILED)?;
    let ran = run_spoiled(rt.alloc(), SPOILED, &entries)?;
    comes_to(rt.alloc(), SPOILED, &ran, entries.len())
}

#[test]
fn the_law_is_called() {
    processes_learn();
}
