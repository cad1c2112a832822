ghost use Rattle.std.specs.Prelude.{◌≡◌, ◌≤◌, ◌+◌, ◌*◌, None, length};
ghost use Rattle.dc_elf.specs.Files.{has_bad_entry, has_bad_headers, has_other_flags, header_fault, part_count};
ghost use Rattle.dc_words.specs.Words.{word_at};

use crate::ElfFault;
use crate::fields::{half_at, word_at};

const MAGIC: [u8; 4] = [0x7f, b'E', b'L', b'F'];

/// The class and the order of bytes: 32 bits, the lowest byte first.
const CLASS_32: u8 = 1;

const LOWEST_FIRST: u8 = 1;

const EXECUTABLE: u16 = 2;

const RISC_V: u16 = 243;

/// The program headers cannot be counted in two bytes.
const UNCOUNTED: u16 = 65535;

/// The size of a program header.
const PART_BYTES: u16 = 32;

fn has_other_flags(flags: u32) -> bool
    ensures { result ≡ has_other_flags flags }
{
    flags % 2 != 0 || flags / 8 % 2 != 0 || flags / 2 % 4 != 0
}

/// How many program headers there are.
pub fn part_count(file: &[u8]) -> u16
    requires { 52 ≤ length file.now }
    ensures { result ≡ part_count file.now }
{
    half_at(file, 44)
}

fn has_bad_headers(file: &[u8]) -> bool
    requires { 52 ≤ length file.now }
    ensures { result ≡ has_bad_headers file.now }
{
    let count = part_count(file);
    let end = u64::from(word_at(file, 28)) + 32 * u64::from(count);
    count == UNCOUNTED || count != 0 && (half_at(file, 42) != PART_BYTES || end > file.len() as u64)
}

/// The entry is no word's address, or past a memory of this size.
pub fn has_bad_entry(file: &[u8], size: u32) -> bool
    requires { 52 ≤ length file.now }
    ensures { result ≡ has_bad_entry file.now size }
{
    let entry = word_at(file, 24);
    entry % 4 != 0 || u64::from(entry) + 4 > u64::from(size)
}

/// What is wrong with the header of a file that is long enough for one.
pub fn header_fault(file: &[u8]) -> Option<ElfFault>
    requires { 52 ≤ length file.now }
    ensures { result ≡ header_fault file.now }
{
    if !file.starts_with(&MAGIC) {
        return Some(ElfFault::Magic);
    }
    if file[4] != CLASS_32 {
        return Some(ElfFault::Class);
    }
    if file[5] != LOWEST_FIRST {
        return Some(ElfFault::Order);
    }
    if half_at(file, 16) != EXECUTABLE {
        return Some(ElfFault::FileType);
    }
    if half_at(file, 18) != RISC_V {
        return Some(ElfFault::Machine);
    }
    if has_other_flags(word_at(file, 36)) {
        return Some(ElfFault::Flags);
    }
    if has_bad_headers(file) {
        return Some(ElfFault::Headers);
    }
    None
}
