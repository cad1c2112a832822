//! Plans: what a run is to be, as a TOML document.
#![tactic(auto)]

mod command;
mod fault;
mod inputs;
mod keys;
mod laws;
mod parts;
mod plan;
mod planned;
mod reading;
mod rows;
mod stops;
mod values;

pub use command::Command;
pub use fault::{PlanError, PlanFault};
pub use keys::Key;
pub use laws::a_stop_says_its_numbers;
pub use plan::{Medium, Plan, ScheduleSource, Seed};
pub use reading::read_plan;
