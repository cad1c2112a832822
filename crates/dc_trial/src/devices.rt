//! A call of the program over devices in memory.

use crate::came::{Came, told_of};
use dc_memmedia::{MemDisks, MemKeeps, MemLibrary, MemSink};
use dc_run::{Outcome, dc};
use std::alloc::{AllocError, Global};

/// Stores of words and disks.
#[derive(Drop)]
pub struct Devices {
    pub keeps: MemKeeps,
    pub disks: MemDisks,
}

impl Devices {
    /// Of no words and no bytes, of which none fails.
    pub fn new(alloc: Global) -> Result<Devices, AllocError> {
        Ok(Devices {
            keeps: MemKeeps::new(alloc, Vec::new(alloc))?,
            disks: MemDisks::new(alloc, Vec::new(alloc))?,
        })
    }

    /// How many calls those of a process took, of whichever medium.
    pub fn calls(&self, process: u32) -> u64 {
        self.keeps.calls(process).max(self.disks.calls(process))
    }
}

/// The outcome of a call over these devices.
fn outcome_of(
    alloc: Global,
    words: &[String],
    library: &mut MemLibrary,
    on: &mut Devices,
    out: &mut MemSink,
    report: &mut MemSink,
) -> Outcome {
    let Devices { keeps, disks } = on;
    dc(alloc, words, library, keeps, disks, out, report)
}

/// A call over these devices.
pub fn called(
    alloc: Global,
    words: &[String],
    library: &mut MemLibrary,
    on: &mut Devices,
    out: &mut MemSink,
    report: &mut MemSink,
) -> Result<Came, AllocError> {
    let outcome = outcome_of(alloc, words, library, on, out, report);
    told_of(alloc, words, &outcome)
}

/// How many calls a device of a process takes in a run by a plan, of whichever medium that is.
pub fn calls_of(
    alloc: Global,
    words: &[String],
    library: &mut MemLibrary,
    process: u32,
) -> Result<Option<u64>, AllocError> {
    let mut on = Devices::new(alloc)?;
    let mut out = MemSink::new(alloc, 100_000, Vec::new(alloc))?;
    let mut report = MemSink::new(alloc, 100_000, Vec::new(alloc))?;
    let came = called(alloc, words, library, &mut on, &mut out, &mut report)?;
    if !came.ran {
        return Ok(None);
    }
    Ok(Some(on.calls(process)))
}

/// A call over stores of no words that touches none of them; None where it touched one.
pub fn called_aside(
    alloc: Global,
    words: &[String],
    library: &mut MemLibrary,
    out: &mut MemSink,
) -> Result<Option<Came>, AllocError> {
    let mut on = Devices::new(alloc)?;
    let mut none = MemSink::new(alloc, 0, Vec::new(alloc))?;
    let came = called(alloc, words, library, &mut on, out, &mut none)?;
    if on.calls(0) != 0 {
        return Ok(None);
    }
    Ok(Some(came))
}
