//! What the next turn of a process leaves in the journal of its run, told before the turn is taken.
//!
//! A turn that nothing stops leaves at most two lines: its event, unless that is internal, and a commit before it or after it. All that
//! they say is known before: the process holds its counts of messages, what its protocol goes by and what it has yet to read of its log,
//! and the turn's word and clock draw the rest.
#![tactic(auto)]

mod leaving;
mod marking;
mod telling;

pub use leaving::leave_lines;
