//! A run of a case: over memory that refuses calls, and over memory that is lent, which may do so too, with planned stops.

use crate::runs::setting::{may_run, setup};
use dc_armed::Armed;
use dc_cases::{numbers, value};
use dc_course::{Course, Scheduled, Setting, run};
use dc_media::PlannedStop;
use dc_memmedia::{ListedCall, MemKeeps, MemSink};
use dc_model::Entry;
use dc_rio::{OnWords, run_on_memory};
use dc_vista::Segment;
use dc_world::OpenFault;
use std::alloc::Global;
use std::test::Fail;

/// What a run answered, its memory, and its output.
#[derive(Drop)]
pub struct Ran {
    pub answer: Result<Course, OpenFault>,
    pub keeps: MemKeeps,
    pub out: MemSink,
}

/// The output of a case.
pub fn output_of(alloc: Global, case: &str) -> Result<MemSink, Fail> {
    let failing = numbers(alloc, value(case, "unwritten", ""))?;
    Ok(MemSink::new(alloc, 1_000_000, failing)?)
}

/// A case with these entries, where they name its processes.
pub fn scheduled(alloc: Global, case: &str, entries: &[Entry]) -> Result<Scheduled, Fail> {
    let setup = setup(alloc, case)?;
    let schedule = entries.to_vec(alloc)?;
    if schedule.len() > 1_000_000 || !may_run(&schedule, setup.images.len()) {
        return Err(Fail::new(case));
    }
    Ok(Scheduled { setup, schedule })
}

/// The run of a case through these entries, over memory that refuses these calls.
pub fn run_refused(
    alloc: Global,
    case: &str,
    entries: &[Entry],
    refused: &[ListedCall],
) -> Result<Ran, Fail> {
    let scheduled = scheduled(alloc, case, entries)?;
    let mut out = output_of(alloc, case)?;
    let keeps = MemKeeps::new(alloc, refused.to_vec(alloc)?)?;
    let mut dev = Armed::new(keeps, Vec::new(alloc));
    let answer = run::<OnWords<Segment<Armed<MemKeeps>>>, MemSink>(
        alloc, scheduled, false, &mut dev, &mut out,
    );
    Ok(Ran {
        answer,
        keeps: dev.into_device(),
        out,
    })
}

/// The same over memory that is lent, with these stops planned besides.
pub fn run_lent(
    alloc: Global,
    case: &str,
    entries: &[Entry],
    refused: &[ListedCall],
    stops: &[PlannedStop],
) -> Result<Ran, Fail> {
    let setting = Setting {
        scheduled: scheduled(alloc, case, entries)?,
        stops: stops.to_vec(alloc)?,
    };
    let mut out = output_of(alloc, case)?;
    let mut keeps = MemKeeps::new(alloc, refused.to_vec(alloc)?)?;
    let answer = run_on_memory(alloc, setting, false, &mut keeps, &mut out);
    Ok(Ran { answer, keeps, out })
}
