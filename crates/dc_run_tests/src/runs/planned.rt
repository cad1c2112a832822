//! The stops of a case: planned ones, and calls that the device itself refuses.

use crate::runs::files::{files, journal, source};
use dc_cases::{as_u32, as_u64, as_usize, front, plan, schedule, value, words};
use dc_media::{DeviceFault, Tear};
use dc_memmedia::{ListedCall, MemLibrary};
use dc_trial::calls_of;
use std::alloc::{AllocError, Global};
use std::test::Fail;

/// How many calls the device of a process takes in a run of the case by this plan, through its first entries.
fn made(alloc: Global, case: &str, plan: &str, entries: usize, process: u32) -> Result<u64, Fail> {
    let schedule = front(alloc, &schedule(alloc, case)?, entries)?;
    let plan = String::from_str(alloc, plan)?;
    let mut library = files(alloc, case, plan, schedule)?;
    let words = words(alloc, "dc run plan")?;
    match calls_of(alloc, &words, &mut library, process)? {
        Some(calls) => Ok(calls),
        None => Err(Fail::new(case)),
    }
}

/// That number, or so many more as stand behind `+`, or fewer as behind `-`.
fn moved(number: u64, by: &str) -> Result<u64, Fail> {
    if let Some(more) = by.strip_prefix("+") {
        return Ok(number.saturating_add(as_u64(more)?));
    }
    match by.strip_prefix("-") {
        Some(fewer) => Ok(number.saturating_sub(as_u64(fewer)?)),
        None => Ok(number),
    }
}

/// The number of a call among so many: `middle`, or from the last one on.
fn call_among(calls: u64, call: &str) -> Result<u64, Fail> {
    match call.strip_prefix("last") {
        Some(back) => moved(calls, back),
        None => Ok(calls.saturating_add(1) / 2),
    }
}

/// The number of a call of a stop's turn: `last` is the last one that its process makes in a run by this plan, `last-1` the one before, and
/// `middle` lies half way.
fn call_of(alloc: Global, case: &str, plan: &str, stop: &str, call: &str) -> Result<u64, Fail> {
    if !call.starts_with("last") && call != "middle" {
        return as_u64(call);
    }
    let mut words = stop.split_whitespace();
    let (Some(turn), Some(process)) = (words.next(), words.next()) else {
        return Err(Fail::new(stop));
    };
    let turn = as_usize(turn)?;
    let process = as_u32(process)?;
    let before = made(alloc, case, plan, turn, process)?;
    let after = made(alloc, case, plan, turn.saturating_add(1), process)?;
    call_among(after.saturating_sub(before), call)
}

/// Adds a planned stop to a plan, as a table: turn, process, call, what it keeps, and on a disk the byte that fills the rest.
fn add_stop(alloc: Global, case: &str, stop: &str, plan: &mut String) -> Result<(), Fail> {
    let mut table = String::from_str(alloc, "[[stop]]\n")?;
    for (key, word) in ["turn", "process", "call", "keep", "fill"]
        .iter()
        .zip(stop.split_whitespace())
    {
        let number = call_of(alloc, case, plan, stop, word)?;
        table.push_str(&format!(in alloc; "{key} = {number}\n")?)?;
    }
    plan.push_str(&table)?;
    Ok(())
}

/// The plan of a case with its planned stops.
fn planned(alloc: Global, case: &str, stops: &str) -> Result<String, Fail> {
    let mut plan = plan(alloc, case)?;
    for stop in stops.split(", ") {
        if !stop.is_empty() {
            add_stop(alloc, case, stop, &mut plan)?;
        }
    }
    Ok(plan)
}

/// The calls that a case is tried at: the word `FROM..TO` that names them, and its two numbers.
#[derive(Clone, Copy, Drop)]
pub struct Calls<'a> {
    pub word: &'a str,
    pub from: u64,
    pub to: u64,
}

/// These calls, if the case says a span of them.
fn stopped_calls<'a>(alloc: Global, case: &'a str) -> Result<Option<Calls<'a>>, Fail> {
    let stops = value(case, "stops", "");
    let (before, stop) = stops.rsplit_once(", ").unwrap_or(("", stops));
    let Some(word) = stop.split_whitespace().nth(2) else {
        return Ok(None);
    };
    let Some((from, to)) = word.split_once("..") else {
        return Ok(None);
    };
    let plan = planned(alloc, case, before)?;
    let from = call_of(alloc, case, &plan, stop, from)?;
    let to = call_of(alloc, case, &plan, stop, to)?;
    Ok(Some(Calls { word, from, to }))
}

/// The files of a case.
pub fn library(alloc: Global, case: &str) -> Result<MemLibrary, Fail> {
    if value(case, "words", "").starts_with("dc asm") {
        return source(alloc, case);
    }
    if value(case, "words", "").starts_with("dc audit") {
        return journal(alloc, case);
    }
    let plan = planned(alloc, case, value(case, "stops", ""))?;
    let schedule = schedule(alloc, case)?;
    files(alloc, case, plan, schedule)
}

/// That call of the device of process 0, which fails or is stopped.
fn listed(alloc: Global, call: u64, fault: DeviceFault) -> Result<Vec<ListedCall>, AllocError> {
    let tear = Tear {
        keep: 0,
        fill: None,
    };
    let mut list = Vec::new(alloc);
    list.push(ListedCall {
        process: 0,
        call,
        fault,
        tear,
    })?;
    Ok(list)
}

/// The number of a call of process 0's device in the run of a case: it; `opened` is the last one before the first entry, and `last` the last
/// one of all.
fn call_in(alloc: Global, case: &str, call: &str) -> Result<u64, Fail> {
    let plan = plan(alloc, case)?;
    if let Some(by) = call.strip_prefix("opened") {
        return moved(made(alloc, case, &plan, 0, 0)?, by);
    }
    if let Some(by) = call.strip_prefix("last") {
        return moved(made(alloc, case, &plan, 1_000_000, 0)?, by);
    }
    if let Some(entries) = call.strip_prefix("after ") {
        let made = made(alloc, case, &plan, as_usize(entries)?, 0)?;
        return Ok(made.saturating_add(1));
    }
    as_u64(call)
}

/// The calls that a case has refused one after the other, if it says a span of them.
fn failed_calls<'a>(alloc: Global, case: &'a str) -> Result<Option<Calls<'a>>, Fail> {
    let Some((_, word)) = value(case, "device", "").split_once(' ') else {
        return Ok(None);
    };
    let Some((from, to)) = word.split_once("..") else {
        return Ok(None);
    };
    let from = call_in(alloc, case, from)?;
    let to = call_in(alloc, case, to)?;
    Ok(Some(Calls { word, from, to }))
}

/// The calls that a case is tried at, stopped or refused, if it says a span of them.
pub fn tried_calls<'a>(alloc: Global, case: &'a str) -> Result<Option<Calls<'a>>, Fail> {
    match stopped_calls(alloc, case)? {
        Some(calls) => Ok(Some(calls)),
        None => failed_calls(alloc, case),
    }
}

/// What a refused call answers.
fn fault_of(how: &str) -> Result<DeviceFault, Fail> {
    match how {
        "failed" => Ok(DeviceFault::Failed),
        "stopped" => Ok(DeviceFault::Stopped),
        _ => Err(Fail::new(how)),
    }
}

/// The call that a case has refused: `failed` or `stopped` and its number.
pub fn refused(alloc: Global, case: &str) -> Result<Vec<ListedCall>, Fail> {
    let Some((how, call)) = value(case, "device", "").split_once(' ') else {
        return Ok(Vec::new(alloc));
    };
    let fault = fault_of(how)?;
    let call = call_in(alloc, case, call)?;
    Ok(listed(alloc, call, fault)?)
}
