//! The limits of a run, each said once: clauses, definitions and code cite them from here.
#![tactic(auto)]

mod bounds;
mod sizes;

pub use bounds::{ENTRIES, INPUT_BYTES, LOGGED_EVENTS};
pub use sizes::{KEPT_MESSAGES, MESSAGE_BYTES, PROCESSES};
