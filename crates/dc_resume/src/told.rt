use dc_guest::Answer;

/// What an act told a process, with its position among the acts of the process.
#[derive(Clone, Copy, Debug, PartialEq, Eq)]
pub struct Told {
    pub position: u32,
    pub answer: Answer,
}
