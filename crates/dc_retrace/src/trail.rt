ghost use Rattle.std.specs.Prelude.{◌≤◌, ◌+◌, length, vec_capacity};
ghost use Rattle.dc_limits.specs.declared.bounds.TheConstants.{LOGGED_EVENTS};

use dc_limits::PROCESSES;
use dc_resume::Told;

/// What one play of a run's acts noted of a process, beside what its store stands for.
#[derive(Drop)]
pub struct Trail {
    /// The position of the store's save.
    pub position: u32,
    /// How far the save reaches by itself: to its position, or to the end of its log.
    pub base: u64,
    /// How many acts the process took.
    pub count: u32,
    /// One past the last that is exposed for the save.
    pub exposed: u32,
    /// Whether it was what its store stands for, where it had the save's position.
    pub same: bool,
    /// The first things that it was told from that position on: one more than a log has records.
    pub told: Vec<Told>,
    /// How many messages it has sent to each process, as far as the save reaches.
    pub sent: [usize; PROCESSES],
    ghost room: { LOGGED_EVENTS + 1 ≤ vec_capacity told },
    ghost few: { length told.items ≤ LOGGED_EVENTS + 1 },
}
