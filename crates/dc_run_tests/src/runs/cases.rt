//! The cases, by subject.

mod answers;
mod calls;
mod checks;
mod commands;
mod disks;
mod guests;
mod journals;
mod parts;
mod plans;
mod runs;
mod schedules;
mod sources;
mod stops;
mod tables;
mod together;
mod written;

pub use answers::ANSWERS;
pub use calls::CALLS;
pub use checks::CHECKS;
pub use commands::COMMANDS;
pub use disks::DISKS;
pub use guests::GUESTS;
pub use journals::JOURNALS;
pub use parts::{PARTED, RESUMED};
pub use plans::PLANS;
pub use runs::RUNS;
pub use schedules::{LONG, SCHEDULES, TOO_LONG};
pub use sources::SOURCES;
pub use stops::STOPS;
pub use tables::{FAILING, STOPPED};
pub use together::{COMMITTED_TOGETHER, DECIDED_TOGETHER, RECOVERED_TOGETHER, TOGETHER};
pub use written::WRITTEN;
