//! The course of a run: the entries of a schedule over a world of processes whose devices stop as planned, up to the end of the schedule or
//! a fault, and what users are promised of it.
#![tactic(auto)]

mod continuing;
mod course;
mod ending;
mod leaving;
mod planned;
mod running;
mod setting;

pub use continuing::go_on;
pub use course::{Course, run};
pub use ending::Ending;
pub use leaving::Journal;
pub use planned::Planned;
pub use running::Running;
pub use setting::{Scheduled, Setting};
