ghost use Rattle.std.specs.Prelude.{◌≡◌, ◌≤◌, Some, length};
ghost use Rattle.dc_elf.specs.Faults.{fault_part, fault_text, fault_words};

use std::fmt;
use thiserror::Error;

/// The first thing that is wrong with a file, in the order of testing (Executable and Linkable Format, 32 bits; RISC-V ELF psABI).
#[derive(Clone, Copy, Debug, PartialEq, Eq, Error)]
pub enum ElfFault {
    /// It is shorter than an ELF header.
    Short,
    /// It does not begin with the magic bytes.
    Magic,
    /// It is not of 32 bits.
    Class,
    /// It is not little-endian.
    Order,
    /// It is not an executable.
    FileType,
    /// It is not for RISC-V.
    Machine,
    /// It has compressed instructions, 16 registers or a floating-point calling convention.
    Flags,
    /// Its program headers are too many, of another size, or past the file.
    Headers,
    /// The part of that number is the first with more bytes in the file than in memory, bytes past the file, or memory past the size.
    Segment(u32),
    /// Its entry is no word's address, or past the memory.
    Entry,
}

impl ElfFault {
    /// The fault in words, as a message has it. Where it is of a part, they end in a blank, and the part's number stands behind them.
    pub fn words(self) -> &'static str
        ensures text { result.now ≡ fault_words self }
        ensures length { length result.now ≤ 10 }
    {
        match self {
            ElfFault::Short => "short",
            ElfFault::Magic => "magic",
            ElfFault::Class => "class",
            ElfFault::Order => "order",
            ElfFault::FileType => "file type",
            ElfFault::Machine => "machine",
            ElfFault::Flags => "flags",
            ElfFault::Headers => "headers",
            ElfFault::Segment(_) => "segment ",
            ElfFault::Entry => "entry",
        }
    }

    /// The number of the part that it is of.
    pub fn part(self) -> Option<u32>
        ensures { result ≡ fault_part self }
    {
        match self {
            ElfFault::Segment(part) => Some(part),
            _ => None,
        }
    }
}

impl fmt::Display for ElfFault {
    ghost output = { λ fault. Some (fault_text fault) };

    fn fmt<W: fmt::Write>(&self, f: &mut fmt::Formatter<W>) -> fmt::Result {
        match self.part() {
            Some(part) => write!(f, "{}{part}", self.words()),
            None => f.write_str(self.words()),
        }
    }
}

/// Why a file was not loaded.
#[derive(Clone, Copy, Debug, PartialEq, Eq, Error)]
pub enum LoadFault {
    /// There was no memory for the image.
    #[error("out of memory")]
    Memory,
    /// The file is no guest.
    #[error("{0}")]
    Refused(ElfFault),
}
