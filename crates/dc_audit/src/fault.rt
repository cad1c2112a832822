ghost use Rattle.std.specs.Prelude.{◌≡◌, ◌≤◌, Some, length};
ghost use Rattle.dc_audit.specs.Reading.{kind_text};

use std::fmt;
use thiserror::Error;

/// What is wrong with a line of a journal's text, in the order in which a line is tested.
#[derive(Clone, Copy, Debug, PartialEq, Eq, Error)]
pub enum AuditKind {
    /// It is one line more than 4,000,000.
    TooMany,
    /// It is not the text of a line, has no line feed, or stands behind the end.
    Form,
    /// It names a process that is not there, or a message of a process to itself.
    Process,
    /// It sends a message under another number than the next.
    Number,
    /// It receives a message under another number than the next, or before that was sent.
    Unsent,
    /// It is missing: the text stops before the journal ends.
    Cut,
}

impl AuditKind {
    /// The kind in words, as a message has it.
    pub fn text(self) -> &'static str
        ensures text { result.now ≡ kind_text self }
        ensures length { length result.now ≤ 16 }
    {
        match self {
            AuditKind::TooMany => "too many",
            AuditKind::Form => "form",
            AuditKind::Process => "process",
            AuditKind::Number => "number",
            AuditKind::Unsent => "unsent",
            AuditKind::Cut => "cut",
        }
    }
}

impl fmt::Display for AuditKind {
    ghost output = { λ kind. Some (kind_text kind) };

    fn fmt<W: fmt::Write>(&self, f: &mut fmt::Formatter<W>) -> fmt::Result {
        f.write_str(self.text())
    }
}

/// The first faulty line of a journal's text. Lines are numbered from 1.
#[derive(Clone, Copy, Debug, PartialEq, Eq, Error)]
#[error("line {line}: {kind}")]
pub struct AuditFault {
    pub line: u32,
    pub kind: AuditKind,
}

/// Why a text was not judged.
#[derive(Clone, Copy, Debug, PartialEq, Eq, Error)]
pub enum AuditError {
    /// There was no memory for the messages on their way.
    #[error("out of memory")]
    Memory,
    /// The text is no journal.
    #[error("{0}")]
    Refused(AuditFault),
}
