//! Stores, disks, a library and a sink in memory, which stop and fail where they are told to.
#![tactic(auto)]

mod bytes;
mod disks;
mod failing;
mod keeps;
mod library;
mod listed;
mod sink;

pub use disks::MemDisks;
pub use keeps::MemKeeps;
pub use library::MemLibrary;
pub use listed::ListedCall;
pub use sink::MemSink;
