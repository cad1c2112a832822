ghost use Rattle.std.specs.Prelude.{◌≡◌, ◌≤◌, ◌+◌, length};
ghost use Rattle.dc_elf.specs.Files.{part_at};
ghost use Rattle.dc_words.specs.Words.{half_at, word_at};

use crate::part::Part;
use byteorder::{ByteOrder, LittleEndian};

/// The number of two bytes at an offset, the lowest first.
pub fn half_at(file: &[u8], at: usize) -> u16
    requires { at + 2 ≤ length file.now }
    ensures { result ≡ half_at file.now at }
{
    LittleEndian::read_u16(&file[at..])
}

/// The number of four bytes at an offset, the lowest first.
pub fn word_at(file: &[u8], at: usize) -> u32
    requires { at + 4 ≤ length file.now }
    ensures { result ≡ word_at file.now at }
{
    LittleEndian::read_u32(&file[at..])
}

/// The program header at an offset.
pub fn part_at(file: &[u8], at: usize) -> Part
    requires { at + 32 ≤ length file.now }
    ensures { result ≡ part_at file.now at }
{
    Part {
        kind: word_at(file, at),
        offset: word_at(file, at + 4),
        address: word_at(file, at + 8),
        filed: word_at(file, at + 16),
        sized: word_at(file, at + 20),
    }
}
