//! Files and streams of the host as disks, as a library and as sinks, and what stands beside the program. They tell nothing of what they hold.
#![tactic(auto)]

mod beside;
mod disk;
mod disks;
mod late;
mod library;
mod stream;

pub use beside::beside_program;
pub use disks::FileDisks;
pub use late::LateFile;
pub use library::FileLibrary;
pub use stream::StreamSink;
