//! A call of the program over files, devices and sinks in memory, and what it came to in plain values. Tests and examples stand on it: a
//! function that calls `dc` pays for reading all its clauses, and this is the only one of theirs.
#![tactic(auto)]

mod came;
mod devices;

pub use came::Came;
pub use devices::{Devices, called, called_aside, calls_of};
