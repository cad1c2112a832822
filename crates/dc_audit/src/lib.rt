//! The audit of Save-work: whether all that could have come otherwise was committed before anybody could hold a process to it
//! (Lowell, Chandra and Chen, "Exploring Failure Transparency and the Limits of Generic Recovery", OSDI 2000).
//!
//! A journal has a line for each event that counts and for each commit, in the order in which they happened. `audit` reads its text,
//! and answers that it has Save-work or the first line before which something was unsaved; `audit_lines` does the same of lines. The
//! code carries a vector of counts for each process and each message over the lines; the contracts speak of happens before as the
//! least transitive relation, and know no vectors.
#![tactic(auto)]

mod advancing;
mod clock;
mod failure;
mod fault;
mod fields;
mod journal;
mod lines;
mod link;
mod members;
mod reading;
mod said;
mod text;
mod verdict;

pub use failure::Failure;
pub use fault::{AuditError, AuditFault, AuditKind};
pub use journal::{Deed, Line};
pub use lines::audit_lines;
pub use text::audit;
pub use verdict::Verdict;
