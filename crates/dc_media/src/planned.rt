use crate::Tear;

/// A stop that is planned at a call of a process's device within a turn.
///
/// Calls are numbered from 1 in each turn; a store, a copied line, a write and a sync are counted, and words in a row as stores of each.
/// Where the call does not come, nothing stops.
#[derive(Clone, Copy)]
pub struct PlannedStop {
    /// The turn in which it comes.
    pub turn: u32,
    /// The process that it stops. It never comes where this is `STORES` or more.
    pub process: u32,
    /// At which of the process's calls in the turn it comes. It never comes where this is 0.
    pub call: u32,
    /// What the call leaves.
    pub tear: Tear,
}
