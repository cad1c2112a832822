//! Redo logs on disks in memory: their calls, contents that nobody wrote so, and every stop.

mod calling;
mod cases;
mod contents;
mod filling;
mod image;
mod joint;
mod programs;
mod rig;
mod rows;
mod stopped;
mod stops;

use crate::vista::rig::Rig as Segments;
use crate::vista::trial::cases_hold;
use cases::CALLS;
use contents::{CLOSINGS, FIRST_ROWS, LATER_ROWS};
use filling::{AGAIN, FILLED, fills};
use programs::PROGRAMS;
use rig::Rig;
use rows::{closings_hold, rows_hold};
use std::test::Fail;
use stopped::{MAKING, RECOVERIES, STOPS, WHOLES};
use stops::{makings_hold, stops_hold};

#[test]
fn calls_answer_as_told(rt: HostRuntime) -> Result<(), Fail> {
    cases_hold::<Rig>(rt.alloc(), CALLS)
}

#[test]
fn a_half_is_filled_and_the_other_one_begun(rt: HostRuntime) -> Result<(), Fail> {
    fills::<Rig>(rt.alloc(), FILLED, AGAIN)
}

#[test]
fn a_segment_and_a_redo_log_go_on_alike(rt: HostRuntime) -> Result<(), Fail> {
    cases_hold::<Segments>(rt.alloc(), PROGRAMS)?;
    cases_hold::<Rig>(rt.alloc(), PROGRAMS)
}

#[test]
fn a_recovery_reads_any_content(rt: HostRuntime) -> Result<(), Fail> {
    rows_hold(rt.alloc(), FIRST_ROWS)?;
    rows_hold(rt.alloc(), LATER_ROWS)
}

#[test]
fn gates_are_closed_the_lowest_first(rt: HostRuntime) -> Result<(), Fail> {
    closings_hold(rt.alloc(), CLOSINGS)
}

#[test]
fn a_stop_leaves_the_old_state_or_the_new(rt: HostRuntime) -> Result<(), Fail> {
    stops_hold::<Rig>(rt.alloc(), STOPS)
}

#[test]
fn a_stop_in_a_whole_state_leaves_the_old_state_or_the_new(rt: HostRuntime) -> Result<(), Fail> {
    stops_hold::<Rig>(rt.alloc(), WHOLES)
}

#[test]
fn a_recovery_that_is_stopped_changes_no_state(rt: HostRuntime) -> Result<(), Fail> {
    stops_hold::<Rig>(rt.alloc(), RECOVERIES)
}

#[test]
fn a_making_that_is_stopped_is_made_anew(rt: HostRuntime) -> Result<(), Fail> {
    makings_hold::<Rig>(rt.alloc(), MAKING)
}
