//! Schedules: their text, and the ones that are drawn from a seed.
#![tactic(auto)]

mod fault;
mod generator;
mod laws;
mod lines;
mod reading;

pub use fault::{ReadError, ScheduleFault, ScheduleKind};
pub use generator::generate;
pub use laws::{lines_read_back, texts_are_written_once, turns_are_a_schedule};
pub use lines::entry_line;
pub use reading::{read, read_turns};
