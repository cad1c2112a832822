//! Cases of tests as text, and the files that they speak of. A library by itself, since its proofs are cheaper the less stands below them.
#![tactic(auto)]

mod case;
mod code;
mod command;
mod plans;
mod reports;
mod spans;

pub use case::{as_u32, as_u64, as_usize, holds, is_read, number, numbers, says, text, value};
pub use code::{coded, hi, zeros};
pub use command::words;
pub use plans::{front, plan, schedule};
pub use reports::{passing, reported, wanted_report};
