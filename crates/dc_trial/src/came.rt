//! What a call came to.

use dc_memmedia::MemSink;
use dc_model::{Idle, Mark};
use dc_run::{Did, Outcome, conclude};
use std::alloc::{AllocError, Global};

/// What a call came to.
#[derive(Drop)]
pub struct Came {
    /// Whether it ran a plan from its opening.
    pub ran: bool,
    /// The status with which the program ends.
    pub status: u8,
    /// The line on standard error.
    pub said: MemSink,
    /// The marks, a letter each.
    pub marks: Vec<u8>,
}

/// The letter of a mark: `i` where the guest had ended, `f` where its link was full, `s` where it stepped, the number of what it showed,
/// `x` where it was stopped in its turn, `m` where it was stopped between turns, `r` where it recovered.
fn letter(mark: &Mark) -> u8 {
    match *mark {
        Mark::Idle(Idle::Ended) => b'i',
        Mark::Idle(Idle::LinkFull) => b'f',
        Mark::Stepped => b's',
        Mark::Showed(k) if k < 10 => b'0' + k as u8,
        Mark::Showed(_) => b'+',
        Mark::Recovered(_) => b'r',
        Mark::Stopped => b'x',
        Mark::Marked => b'm',
    }
}

/// The letters of some marks.
fn letters(alloc: Global, marks: &[Mark]) -> Result<Vec<u8>, AllocError> {
    let mut list = Vec::with_capacity(alloc, marks.len())?;
    for mark in marks {
        list.push(letter(mark))?;
    }
    Ok(list)
}

/// What a call by these words came to, by its outcome.
pub fn told_of(alloc: Global, words: &[String], outcome: &Outcome) -> Result<Came, AllocError> {
    let mut said = MemSink::new(alloc, 300, Vec::new(alloc))?;
    let status = conclude(alloc, words, outcome, &mut said);
    let marks = letters(alloc, outcome.marks.as_slice())?;
    Ok(Came {
        ran: outcome.did == Did::Run,
        status,
        said,
        marks,
    })
}
