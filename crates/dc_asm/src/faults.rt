ghost use Rattle.std.specs.Prelude.{◌≡◌, ◌≤◌, Some, length};
ghost use Rattle.dc_asm.specs.Faults.{kind_text};

use std::fmt;
use thiserror::Error;

/// What is wrong with a line, in the order of testing.
#[derive(Clone, Copy, Debug, PartialEq, Eq, Error)]
pub enum AsmKind {
    /// It is no instruction: another mnemonic, another count of operands, no parentheses, or a byte over 126.
    Word,
    /// An operand that has to be a register is none.
    Register,
    /// An immediate is neither a number nor a name that may stand there, or it is out of its range or odd.
    Immediate,
    /// It uses a name that no line defines.
    Label,
    /// It defines a name that an earlier line defines.
    Twice,
    /// Its word is one too many.
    TooLong,
}

impl AsmKind {
    /// The kind in words, as a message has it.
    pub fn text(self) -> &'static str
        ensures text { result.now ≡ kind_text self }
        ensures length { length result.now ≤ 16 }
    {
        match self {
            AsmKind::Word => "word",
            AsmKind::Register => "register",
            AsmKind::Immediate => "immediate",
            AsmKind::Label => "label",
            AsmKind::Twice => "twice",
            AsmKind::TooLong => "too long",
        }
    }
}

impl fmt::Display for AsmKind {
    ghost output = { λ kind. Some (kind_text kind) };

    fn fmt<W: fmt::Write>(&self, f: &mut fmt::Formatter<W>) -> fmt::Result {
        f.write_str(self.text())
    }
}

/// The first faulty line of a source, numbered from 1, and what is wrong with it.
#[derive(Clone, Copy, Debug, PartialEq, Eq, Error)]
#[error("line {line}: {kind}")]
pub struct AsmFault {
    /// The number of the line, from 1 on.
    pub line: u64,
    /// What is wrong with it.
    pub kind: AsmKind,
}

/// Why a source was not assembled.
#[derive(Clone, Copy, Debug, PartialEq, Eq, Error)]
pub enum AsmError {
    /// There was no memory for the file.
    #[error("out of memory")]
    Memory,
    /// A line is faulty.
    #[error("{0}")]
    Refused(AsmFault),
}
