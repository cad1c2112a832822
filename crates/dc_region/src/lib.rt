//! A region of words over raw memory.
#![tactic(auto)]

mod block;
mod region;

// A crate can name a region in a contract only if the types of its fields are exported.
#[doc(hidden)]
pub use block::{Base, Deed, Words};
pub use region::Region;
