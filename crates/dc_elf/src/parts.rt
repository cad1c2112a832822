ghost use Rattle.std.specs.Prelude.{◌≡◌, ◌≤◌, ◌<◌, ◌+◌, ◌*◌, length, false};
ghost use Rattle.dc_elf.specs.Files.{faulty_from, has_bad_headers, is_faulty, is_loaded, part_at, part_count, parts_of};
ghost use Rattle.dc_words.specs.Words.{word_at};

use crate::ElfFault;
use crate::fields::{part_at, word_at};
use crate::header::part_count;
use crate::part::Part;

/// The kind of a part that is loaded.
const LOADED: u32 = 1;

/// Whether a part is loaded.
pub fn is_loaded(part: &Part) -> bool
    ensures { result ≡ is_loaded part.now }
{
    part.kind == LOADED
}

/// The program header of a number.
pub fn part(file: &[u8], i: u16) -> Part
    requires long { 52 ≤ length file.now }
    requires headers { has_bad_headers file.now ≡ false }
    requires counted { i < part_count file.now }
    ensures { result ≡ part_at file.now (word_at file.now 28 + 32 * i) }
{
    part_at(file, word_at(file, 28) as usize + 32 * usize::from(i))
}

fn is_faulty(file: &[u8], size: u32, part: &Part) -> bool
    ensures { result ≡ is_faulty file.now size part.now }
{
    if !is_loaded(part) {
        return false;
    }
    if part.sized == 0 && part.filed == 0 {
        return false;
    }
    part.filed > part.sized
        || u64::from(part.offset) + u64::from(part.filed) > file.len() as u64
        || u64::from(part.address) + u64::from(part.sized) > u64::from(size)
}

/// The first part of a file that cannot be loaded into a memory of this size.
pub fn faulty_part(file: &[u8], size: u32) -> Option<ElfFault>
    requires long { 52 ≤ length file.now }
    requires headers { has_bad_headers file.now ≡ false }
    ensures { result ≡ faulty_from file.now size 0 (parts_of file.now) }
{
    let count = part_count(file);
    for i in 0..count {
        if is_faulty(file, size, &part(file, i)) {
            return Some(ElfFault::Segment(u32::from(i)));
        }
    }
    None
}
