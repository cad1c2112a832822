//! How much a run keeps, and so how large its worlds, kernels and stores are. All else is said over these, whatever they are.

/// How many processes a run has at most.
pub const PROCESSES: usize = 8;

/// How many bytes a message has at most, and the least room that a guest gives for one.
pub const MESSAGE_BYTES: usize = 64;

/// How many messages a process keeps at most of those that it sent to another and that the other may have to be sent again.
/// So a process commits at the latest when it has received so many from one sender since its last commit.
pub const KEPT_MESSAGES: usize = 8;
