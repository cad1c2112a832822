//! Devices that stop as a plan says, and pass everything else on.
#![tactic(auto)]

mod armed;
mod arming;
mod disks;
mod keeps;
mod plan;
mod stop;
mod torn;

pub use armed::Armed;
