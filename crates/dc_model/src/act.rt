/// What a guest was told where its next event asked for something: an act of a run, as a report has it.
#[derive(Clone, Copy, Debug, PartialEq, Eq)]
pub enum Act {
    /// Nothing: the event is internal, visible or a send.
    Plain,
    /// The clock.
    Clock(u64),
    /// A random word.
    Random(u32),
    /// That there is no input yet.
    InputNone,
    /// The next record of its input.
    InputNext,
    /// That its input has ended.
    InputEnd,
    /// That there is no message yet.
    ReceiveNone,
    /// The next message of that process.
    ReceiveFrom(u32),
}

/// An act with its turn of the schedule and its process.
#[derive(Clone, Copy, Debug, PartialEq, Eq)]
pub struct Taken {
    pub t: u32,
    pub p: u32,
    pub act: Act,
}
