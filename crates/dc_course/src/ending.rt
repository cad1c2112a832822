use dc_checkpoint::StoreFault;

/// How a run ended.
#[derive(Clone, Copy, Debug, PartialEq, Eq)]
pub enum Ending {
    /// Its schedule is used up, and every process is up and has ended.
    Done,
    /// Its schedule is used up, and some process is down or has not ended.
    Unfinished,
    /// The device of that process's store failed.
    Device(u32),
    /// What that process's store held is no checkpoint. It never comes where the devices tell what they hold.
    Store(u32, StoreFault),
    /// The output failed.
    Sink,
    /// The device of that process was stopped, in a run that keeps a journal: it ends at its first stop.
    Stopped(u32),
}
