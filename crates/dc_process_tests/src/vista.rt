//! Segments on a device in memory: their calls, contents that nobody wrote so, and every stop.

pub mod calling;
mod cases;
mod contents;
mod device;
mod filled;
mod hostile;
pub mod inputs;
pub mod rig;
mod stopped;
pub mod stops;
pub mod texts;
pub mod trial;

use cases::CALLS;
use contents::{BASE, FULL_ROWS, LARGE_BASE, LARGE_ROWS, ROWS};
use filled::FULL;
use hostile::rows_hold;
use rig::Rig;
use std::test::Fail;
use stopped::{MAKING, STOPS};
use stops::{makings_hold, stops_hold};
use trial::cases_hold;

#[test]
fn calls_answer_as_told(rt: HostRuntime) -> Result<(), Fail> {
    cases_hold::<Rig>(rt.alloc(), CALLS)
}

#[test]
fn a_log_is_filled(rt: HostRuntime) -> Result<(), Fail> {
    cases_hold::<Rig>(rt.alloc(), FULL)
}

#[test]
fn a_recovery_reads_any_content(rt: HostRuntime) -> Result<(), Fail> {
    rows_hold::<Rig>(rt.alloc(), BASE, ROWS)?;
    rows_hold::<Rig>(rt.alloc(), FULL, FULL_ROWS)?;
    rows_hold::<Rig>(rt.alloc(), LARGE_BASE, LARGE_ROWS)
}

#[test]
fn a_stop_leaves_the_old_state_or_the_new(rt: HostRuntime) -> Result<(), Fail> {
    stops_hold::<Rig>(rt.alloc(), STOPS)
}

#[test]
fn a_making_that_is_stopped_is_made_anew(rt: HostRuntime) -> Result<(), Fail> {
    makings_hold::<Rig>(rt.alloc(), MAKING)
}
