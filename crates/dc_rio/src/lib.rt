//! Runs over recoverable memory: the store of each process is a segment of words that are lent, which stop as planned.
#![tactic(auto)]

mod memory;
mod words;

pub use memory::run_on_memory;
pub use words::OnWords;
