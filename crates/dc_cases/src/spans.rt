//! Which turns a case speaks of.

use crate::case::{as_usize, value};
use std::test::Fail;

/// Turns of a process, from one to another, of which each so many-th is meant.
#[derive(Clone, Copy, Drop)]
pub struct Span {
    pub process: usize,
    pub from: usize,
    pub to: usize,
    step: usize,
}

/// The turns of a word `P:FROM-TO/STEP`, in which the process may be left out where it is 0, the end where it is the beginning, and the
/// step where it is 1.
pub fn span_of(word: &str) -> Result<Span, Fail> {
    let (process, turns) = word.split_once(':').unwrap_or(("0", word));
    let (turns, step) = turns.split_once('/').unwrap_or((turns, "1"));
    let (from, to) = turns.split_once('-').unwrap_or((turns, turns));
    Ok(Span {
        process: as_usize(process)?,
        from: as_usize(from)?,
        to: as_usize(to)?,
        step: as_usize(step)?,
    })
}

/// Whether a turn is one of these.
fn has(span: Span, turn: usize) -> bool {
    if span.step == 0 || turn < span.from || turn > span.to {
        return false;
    }
    (turn - span.from) % span.step == 0
}

/// What a case says that the act of a turn was told: `plain` where it says nothing of it.
pub fn told<'a>(case: &'a str, turn: usize) -> Result<&'a str, Fail> {
    for part in value(case, "act", "").split(", ") {
        if let Some((turns, told)) = part.split_once(' ') {
            if has(span_of(turns)?, turn) {
                return Ok(told);
            }
        }
    }
    Ok("plain")
}
