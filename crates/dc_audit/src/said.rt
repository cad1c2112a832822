use crate::journal::Line;

/// What a line behind the heading says: that the journal ends there, or what happened.
#[derive(Clone, Copy)]
pub enum Said {
    End,
    Says(Line),
}
