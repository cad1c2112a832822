ghost use Rattle.std.specs.Prelude.{◌≡◌, ◌↔◌, ◌%◌, ◌^◌, ◌+◌, ◌≤◌, ◌<◌, ◌∷◌, [], Err, IfOk, List, None, Some, false, length, map, true};
ghost use Rattle.std.specs.List.{range_with_len};
ghost use Rattle.dc_elf.specs.Files.{file_fault, faulty_from, has_bad_headers, is_faulty, is_loaded, parts_of};
ghost use Rattle.dc_elf.specs.Filling.{Filled, everywhere};
ghost use Rattle.dc_elf.specs.Images.{byte_in, byte_of, image_of};
ghost use Rattle.dc_elf.specs.declared.faults.ElfFault.{ElfFault as Faults};
ghost use Rattle.dc_elf.specs.declared.part.Part.{Part as Parts};

use crate::fields::word_at;
use crate::header::{has_bad_entry, header_fault, part_count};
use crate::part::Part;
use crate::parts::{faulty_part, is_loaded, part};
use crate::{ElfFault, LoadFault};
use std::alloc::{AllocError, Global};

/// A guest before its first instruction: its memory's bytes from address 0, and the address of its first instruction.
#[derive(Drop)]
pub struct Image {
    /// The bytes, from address 0 on.
    pub memory: Vec<u8>,
    /// Where the guest begins, a multiple of 4 (ELF e_entry).
    pub entry: u32,
}

/// The length of an ELF header.
const HEADER: usize = 52;

/// The byte of a part at an address that it covers.
fn byte_in(file: &[u8], part: &Part, at: u32) -> u8
    requires from { part.now.address ≤ at }
    requires filed { part.now.offset + part.now.filed ≤ length file.now }
    ensures { result ≡ byte_in file.now at (Some part.now) }
{
    let i = at - part.address;
    if i < part.filed {
        file[part.offset as usize + i as usize]
    } else {
        0
    }
}

/// Lays a part below the parts that were laid before: fills its bytes where none of theirs lies.
/// `next` of an address leads past bytes that are filled, so that none is visited again and again.
fn lay(file: &[u8], part: &Part, memory: &mut [u8], next: &mut [u32])
    requires loaded { is_loaded part.now ≡ true }
    requires filed { part.now.offset + part.now.filed ≤ length file.now }
    requires room { part.now.address + part.now.sized ≤ length memory.old }
    requires short { length memory.old < 2 ^ 32 }
    requires next_long { length next.old ≡ length memory.old }
    ensures memory_long { length memory.new ≡ length memory.old }
    ensures next_long { length next.new ≡ length memory.old }
    ensures laid { (parts : List Parts) → Filled file.now (length memory.old) (everywhere parts) memory.old next.old
        → Filled file.now (length memory.old) (everywhere (part.now ∷ parts)) memory.new next.new }
{
    let end = part.address + part.sized;
    let mut at = part.address;
    while at < end {
        let past = next[at as usize];
        if past > at {
            next[at as usize] = past.max(end);
            at = past;
        } else {
            next[at as usize] = end;
            memory[at as usize] = byte_in(file, part, at);
            at += 1;
        }
    }
}

/// Lays a part below the parts that were laid before, where it is loaded and has bytes.
fn lay_right(file: &[u8], part: &Part, memory: &mut [u8], next: &mut [u32])
    requires right { is_faulty file.now (length memory.old) part.now ≡ false }
    requires short { length memory.old < 2 ^ 32 }
    requires next_long { length next.old ≡ length memory.old }
    ensures memory_long { length memory.new ≡ length memory.old }
    ensures next_long { length next.new ≡ length memory.old }
    ensures laid { (parts : List Parts) → Filled file.now (length memory.old) (everywhere parts) memory.old next.old
        → Filled file.now (length memory.old) (everywhere (part.now ∷ parts)) memory.new next.new }
{
    if !is_loaded(part) {
        return;
    }
    if part.sized == 0 {
        return;
    }
    lay(file, part, memory, next);
}

/// Lays the parts of a file, from the last on.
fn lay_parts(file: &[u8], memory: &mut [u8], next: &mut [u32])
    requires long { 52 ≤ length file.now }
    requires headers { has_bad_headers file.now ≡ false }
    requires right { faulty_from file.now (length memory.old) 0 (parts_of file.now) ≡ None }
    requires short { length memory.old < 2 ^ 32 }
    requires next_long { length next.old ≡ length memory.old }
    ensures laid { Filled file.now (length memory.old) (everywhere []) memory.old next.old
        → Filled file.now (length memory.old) (everywhere (parts_of file.now)) memory.new next.new }
{
    let mut i = part_count(file);
    while i > 0 {
        i -= 1;
        lay_right(file, &part(file, i), memory, next);
    }
}

/// The memory that a file's parts make, the last of them on top.
fn memory_of(alloc: Global, file: &[u8], size: u32) -> Result<Vec<u8>, AllocError>
    requires long { 52 ≤ length file.now }
    requires headers { has_bad_headers file.now ≡ false }
    requires right { faulty_from file.now size 0 (parts_of file.now) ≡ None }
    ensures { IfOk result (λ memory. memory.items ≡ map (byte_of file.now (parts_of file.now)) (range_with_len 0 size)) }
{
    let mut memory = vec![in alloc; 0; size as usize]?;
    let mut next = vec![in alloc; 0; size as usize]?;
    lay_parts(file, &mut memory, &mut next);
    Ok(memory)
}

/// The first thing that is wrong with a file as the guest of a memory of this size.
fn fault_in(file: &[u8], size: u32) -> Option<ElfFault>
    ensures { result ≡ file_fault file.now size }
{
    if file.len() < HEADER {
        return Some(ElfFault::Short);
    }
    if let Some(fault) = header_fault(file) {
        return Some(fault);
    }
    if let Some(fault) = faulty_part(file, size) {
        return Some(fault);
    }
    if has_bad_entry(file, size) {
        return Some(ElfFault::Entry);
    }
    None
}

/// Loads a guest's file into a memory of this many bytes. What is wrong with the file comes before want of memory.
pub fn load(alloc: Global, file: &[u8], size: u32) -> Result<Image, LoadFault>
    ensures refused { (fault : Faults) → (result ≡ Err (LoadFault.Refused fault)) ↔ (file_fault file.now size ≡ Some fault) }
    ensures image { IfOk result (λ image. record { memory = image.memory.items; entry = image.entry } ≡ image_of size file.now) }
    ensures aligned { IfOk result (λ image. image.entry % 4 ≡ 0) }
{
    if let Some(fault) = fault_in(file, size) {
        return Err(LoadFault::Refused(fault));
    }
    match memory_of(alloc, file, size) {
        Ok(memory) => Ok(Image {
            memory,
            entry: word_at(file, 24),
        }),
        Err(AllocError) => Err(LoadFault::Memory),
    }
}
