/// What an audit found of a journal's text, whose heading is line 1.
#[derive(Clone, Copy, Debug, PartialEq, Eq)]
pub enum Verdict {
    /// All that had to be saved was, in a journal of so many events; commits are none.
    Saved(u32),
    /// The event of the first line was unsaved at the second line: a visible event or a commit that it happens before. No earlier line
    /// has such an event, and of those that this one has it is the earliest.
    NotSaved(u32, u32),
}
