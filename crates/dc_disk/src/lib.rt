//! Runs on disks: the store of each process is a redo log on a disk that is lent, which stops as planned.
#![tactic(auto)]

mod continuing;
mod disks;
mod stores;

pub use continuing::go_on_disks;
pub use disks::run_on_disks;
pub use stores::OnDisks;
