//! Whether an output and a report belong together: the report's acts are played in the failure-free world, and the output's lines
//! compared with those that it shows.
#![tactic(auto)]

mod checking;
mod comparing;
mod finding;
mod laws;
mod playing;
mod records;
mod seen;

pub use checking::{check, first_stray};
pub use finding::{Difference, Finding};
pub use laws::{
    findings_mean, passing_acts_are_a_drawn_run, passing_outputs_are_the_run,
    passing_outputs_thin_to_the_run, records_have_their_numbers, shown_lines_pass,
};
