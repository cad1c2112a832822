//! The acts of a run in a list that never allocates while it runs, and the lines of its visible records.
#![tactic(auto)]

mod acts;
mod laws;
mod line;
mod reserved;

pub use acts::Acts;
pub use laws::cuts_are_of_one_process;
pub use line::{Line, line_of};
pub use reserved::Reserved;
