//! The journal of a run as text: written, and read back as it was.
//!
//! What the text says is `dc_audit`'s to read; here it is written, and the law says that the two agree.
#![tactic(auto)]

mod laws;
mod writing;

pub use laws::texts_are_read_back;
pub use writing::write_journal;
