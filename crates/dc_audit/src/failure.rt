/// Where Save-work fails: an event, and the line before which no commit had saved it. Lines are numbered from 0.
#[derive(Clone, Copy, Debug, PartialEq, Eq)]
pub struct Failure {
    pub event: u32,
    pub line: u32,
}
