/// A line of an output that differs from what would stand there.
#[derive(Drop)]
pub struct Difference {
    /// The number of the line, from 1 on; one past the last line where a record is missing.
    pub line: u64,
    /// What stands there, without its line feed; empty where a record is missing.
    pub found: Vec<u8>,
    /// What would stand there: the earlier line of its process and number, else the line of the next visible record, which is
    /// empty where no record is left.
    pub wanted: Vec<u8>,
}

/// What comes of checking an output against a report.
#[derive(Drop)]
pub enum Finding {
    /// They belong together, and so many visible records are shown.
    Passes(u32),
    /// The act at that position, from 0 on, is the first that was not drawn at its turn or does not apply.
    NotARun(u32),
    /// The first line that differs.
    Differs(Difference),
}
