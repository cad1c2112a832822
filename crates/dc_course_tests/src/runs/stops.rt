//! Stops that are written as a call of a process's device within a turn or the opening, and how many calls each makes.

use crate::runs::runs::run_refused;
use dc_cases::{as_u32, as_u64, holds, value};
use dc_media::{DeviceFault, PlannedStop, Tear};
use dc_memmedia::ListedCall;
use dc_model::Entry;
use std::alloc::Global;
use std::test::Fail;

/// The calls of the device of a stop: from the first to the last that it is tried at.
#[derive(Clone, Copy, Drop)]
pub struct Tried {
    /// Its turn; none where it comes as the stores are made.
    pub turn: Option<u32>,
    /// How many calls come before the turn.
    pub before: u64,
    pub first: u64,
    pub last: u64,
    pub listed: ListedCall,
}

/// How many calls of a process's device a run through these entries makes.
fn made(
    alloc: Global,
    case: &str,
    entries: &[Entry],
    refused: &[ListedCall],
    p: u32,
) -> Result<u64, Fail> {
    let ran = run_refused(alloc, case, entries, refused)?;
    Ok(ran.keeps.calls(p))
}

/// How many calls of a process's device come before a turn, and how many within it; where it is none, how many the opening makes.
fn calls(
    alloc: Global,
    case: &str,
    entries: &[Entry],
    refused: &[ListedCall],
    turn: Option<u32>,
    p: u32,
) -> Result<(u64, u64), Fail> {
    let Some(turn) = turn else {
        return Ok((0, made(alloc, case, &[], refused, p)?));
    };
    let turn = turn as usize;
    let (Some(first), Some(upto)) = (entries.get(..turn), entries.get(..turn.saturating_add(1)))
    else {
        return Err(Fail::new(case));
    };
    let before = made(alloc, case, first, refused, p)?;
    let all = made(alloc, case, upto, refused, p)?;
    Ok((before, all.saturating_sub(before)))
}

/// The number of a call, where a turn makes so many: it, or `L` for the last, or `L-1` and `L-2`.
fn number(word: &str, last: u64) -> Result<u64, Fail> {
    let back = match word {
        "L" => 0,
        "L-1" => 1,
        "L-2" => 2,
        _ => return as_u64(word),
    };
    holds(last > back, word, "too few calls in the turn of the stop")?;
    Ok(last.saturating_sub(back))
}

/// The turn of a stop; none where it comes as the stores are made.
fn turn_of(word: &str) -> Result<Option<u32>, Fail> {
    if word == "open" {
        return Ok(None);
    }
    Ok(Some(as_u32(word)?))
}

/// What a refused call answers.
fn fault_of(word: Option<&str>) -> Result<DeviceFault, Fail> {
    match word {
        None => Ok(DeviceFault::Stopped),
        Some("failed") => Ok(DeviceFault::Failed),
        Some(other) => Err(Fail::new(other)),
    }
}

/// A stop as it is written: turn, process, call or calls, what it keeps, and `failed` where it is a failure.
fn stop(
    alloc: Global,
    case: &str,
    entries: &[Entry],
    refused: &[ListedCall],
    text: &str,
) -> Result<Tried, Fail> {
    let mut words = text.split_whitespace();
    let (Some(turn), Some(p), Some(call), Some(keep)) = (
        words.next(),
        words.next(),
        words.next(),
        words.next(),
    ) else {
        return Err(Fail::new(text));
    };
    let turn = turn_of(turn)?;
    let process = as_u32(p)?;
    let (before, made) = calls(alloc, case, entries, refused, turn, process)?;
    let (first, last) = call.split_once("..").unwrap_or((call, call));
    Ok(Tried {
        turn,
        before,
        first: before.saturating_add(number(first, made)?),
        last: before.saturating_add(number(last, made)?),
        listed: ListedCall {
            process,
            call: 0,
            fault: fault_of(words.next())?,
            tear: Tear {
                keep: as_u32(keep)?,
                fill: None,
            },
        },
    })
}

impl Tried {
    /// The call of the device that is refused, where the stop is tried at this one.
    pub fn refused(&self, call: u64) -> ListedCall {
        ListedCall {
            call,
            ..self.listed
        }
    }

    /// The stop at a call as it is planned within its turn; none where it is no turn's, or a failure.
    pub fn planned(&self, call: u64) -> Option<PlannedStop> {
        let turn = self.turn?;
        if self.listed.fault == DeviceFault::Failed {
            return None;
        }
        Some(PlannedStop {
            turn,
            process: self.listed.process,
            call: call.saturating_sub(self.before).min(0xffff_ffff) as u32,
            tear: self.listed.tear,
        })
    }
}

/// The stops of a case, in the order of their turns. All but the last are at one call.
pub fn stops(alloc: Global, case: &str, entries: &[Entry]) -> Result<Vec<Tried>, Fail> {
    let mut refused: Vec<ListedCall> = Vec::new(alloc);
    let mut list = Vec::new(alloc);
    for text in value(case, "stops", "").split(", ") {
        if text.is_empty() {
            return Ok(list);
        }
        let one = stop(alloc, case, entries, &refused, text)?;
        list.push(one)?;
        refused.push(one.refused(one.first))?;
    }
    Ok(list)
}
