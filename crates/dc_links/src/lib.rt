//! The messages that a process has sent and still keeps, by receiver and number.
#![tactic(auto)]

mod link;
mod links;
mod message;

pub use links::Links;
pub use message::Message;
