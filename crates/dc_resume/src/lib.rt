//! Going on with a run: when what the stores of its processes stand for suits the acts that it reported, that a run may then go on from
//! there, and that so it is wherever a run was halted.
//!
//! The definitions and laws know no code but what a store holds of a process. What decides of one process's log whether it makes its
//! store a save looks at each act once.
#![tactic(auto)]

mod laws;
mod log;
mod told;

pub use laws::{logs_make_saves, runs_resume};
pub use log::{has_few, is_log, is_save, log_end};
pub use told::Told;
