use dc_links::Message;
use dc_media::PlannedStop;
use dc_protocols::Protocol;

/// Where checkpoints are kept.
#[derive(Clone, Copy, Debug, PartialEq, Eq)]
pub enum Medium {
    /// Rio, memory that outlives the process.
    Rio,
    /// A disk.
    Disk,
}

/// From what the entries of a schedule are drawn.
#[derive(Clone, Copy, Debug, PartialEq, Eq)]
pub struct Seed {
    /// What the generator begins with.
    pub start: u64,
    /// How many entries are drawn.
    pub turns: u32,
}

/// Where the schedule comes from.
#[derive(Debug, Drop)]
pub enum ScheduleSource {
    /// It is in that file.
    File(String),
    /// It is drawn from a seed.
    Seed(Seed),
}

/// What a run is to be.
#[derive(Drop)]
pub struct Plan {
    /// When processes commit and what they log.
    pub protocol: Protocol,
    /// Where checkpoints are kept.
    pub medium: Medium,
    /// The size of each guest's memory in bytes, a multiple of 4,096.
    pub memory: u32,
    /// The file of each guest.
    pub guests: Vec<String>,
    /// The records that each guest reads, one list for each.
    pub inputs: Vec<Vec<Message>>,
    /// Where the schedule comes from.
    pub schedule: ScheduleSource,
    /// The calls at which processes are stopped.
    pub stops: Vec<PlannedStop>,
    /// The first entry that is not run, if the run is to be halted before its schedule is used up.
    pub halt: Option<u32>,
}
