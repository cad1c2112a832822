//! Files written by the rules of the Executable and Linkable Format, and what each comes to. The rows of the tables are
//! `what|fault`: a file with such fields or program headers has that fault, or none, in a memory of 64 bytes. A field is
//! `offset=word`. Numbers are hexadecimal, but for offsets of fields.

use crate::holding::holds;
use dc_elf::{ElfFault, LoadFault, load};
use std::alloc::Global;
use std::test::Fail;

/// The header of a guest with no program headers, and its entry at 0.
const HEADER: [u8; 52] = [
    // magic, class, order
    0x7f, 0x45, 0x4c, 0x46, 0x01, 0x01, 0x01, 0x00, 0x00, 0x00, 0x00, 0x00, 0x00, 0x00, 0x00, 0x00,
    // file type, machine, version, entry, offset of the program headers
    0x02, 0x00, 0xf3, 0x00, 0x01, 0x00, 0x00, 0x00, 0x00, 0x00, 0x00, 0x00, 0x34, 0x00, 0x00, 0x00,
    // flags from byte 36 on, then the sizes of headers and their number
    0x00, 0x00, 0x00, 0x00, 0x00, 0x00, 0x00, 0x00, 0x34, 0x00, 0x20, 0x00, 0x00, 0x00, 0x00, 0x00,
    0x00, 0x00, 0x00, 0x00,
];

/// A guest with its entry at 8, five program headers from byte 52 on, and 17 bytes from byte 212 (0xd4) on.
const GUEST: [u8; 229] = [
    0x7f, 0x45, 0x4c, 0x46, 0x01, 0x01, 0x01, 0x00, 0x00, 0x00, 0x00, 0x00, 0x00, 0x00, 0x00, 0x00,
    0x02, 0x00, 0xf3, 0x00, 0x01, 0x00, 0x00, 0x00, 0x08, 0x00, 0x00, 0x00, 0x34, 0x00, 0x00, 0x00,
    0x00, 0x00, 0x00, 0x00, 0x00, 0x00, 0x00, 0x00, 0x34, 0x00, 0x20, 0x00, 0x05, 0x00, 0x00, 0x00,
    0x00, 0x00, 0x00, 0x00,
    // eight bytes from 0xd4 at 8
    0x01, 0x00, 0x00, 0x00, 0xd4, 0x00, 0x00, 0x00, 0x08, 0x00, 0x00, 0x00, 0x00, 0x10, 0x00, 0x00,
    0x08, 0x00, 0x00, 0x00, 0x08, 0x00, 0x00, 0x00, 0x05, 0x00, 0x00, 0x00, 0x04, 0x00, 0x00, 0x00,
    // two bytes from 0xdc at 12, and four zeros
    0x01, 0x00, 0x00, 0x00, 0xdc, 0x00, 0x00, 0x00, 0x0c, 0x00, 0x00, 0x00, 0x00, 0x00, 0x00, 0x00,
    0x02, 0x00, 0x00, 0x00, 0x06, 0x00, 0x00, 0x00, 0x06, 0x00, 0x00, 0x00, 0x01, 0x00, 0x00, 0x00,
    // of another type: four bytes from 0xde at 8
    0x03, 0x00, 0x00, 0x00, 0xde, 0x00, 0x00, 0x00, 0x08, 0x00, 0x00, 0x00, 0x00, 0x00, 0x00, 0x00,
    0x04, 0x00, 0x00, 0x00, 0x04, 0x00, 0x00, 0x00, 0x04, 0x00, 0x00, 0x00, 0x01, 0x00, 0x00, 0x00,
    // three bytes from 0xe2 at 61
    0x01, 0x00, 0x00, 0x00, 0xe2, 0x00, 0x00, 0x00, 0x3d, 0x00, 0x00, 0x00, 0x00, 0x00, 0x00, 0x00,
    0x03, 0x00, 0x00, 0x00, 0x03, 0x00, 0x00, 0x00, 0x04, 0x00, 0x00, 0x00, 0x01, 0x00, 0x00, 0x00,
    // a byte from 0xd5 at 10
    0x01, 0x00, 0x00, 0x00, 0xd5, 0x00, 0x00, 0x00, 0x0a, 0x00, 0x00, 0x00, 0x00, 0x00, 0x00, 0x00,
    0x01, 0x00, 0x00, 0x00, 0x01, 0x00, 0x00, 0x00, 0x04, 0x00, 0x00, 0x00, 0x01, 0x00, 0x00, 0x00,
    0x11, 0x12, 0x13, 0x14, 0x15, 0x16, 0x17, 0x18, // 0xd4
    0x21, 0x22, // 0xdc
    0x31, 0x32, 0x33, 0x34, // 0xde
    0x41, 0x42, 0x43, // 0xe2
];

/// What the guest's memory of 64 bytes holds.
const GUEST_MEMORY: [u8; 64] = [
    0x00, 0x00, 0x00, 0x00, 0x00, 0x00, 0x00, 0x00, 0x11, 0x12, 0x12, 0x14, 0x21, 0x22, 0x00, 0x00,
    0x00, 0x00, 0x00, 0x00, 0x00, 0x00, 0x00, 0x00, 0x00, 0x00, 0x00, 0x00, 0x00, 0x00, 0x00, 0x00,
    0x00, 0x00, 0x00, 0x00, 0x00, 0x00, 0x00, 0x00, 0x00, 0x00, 0x00, 0x00, 0x00, 0x00, 0x00, 0x00,
    0x00, 0x00, 0x00, 0x00, 0x00, 0x00, 0x00, 0x00, 0x00, 0x00, 0x00, 0x00, 0x00, 0x41, 0x42, 0x43,
];

/// Flags, at 36: those of another instruction set are refused.
const FLAGS: &str = "\
36=0|
36=1|flags
36=2|flags
36=4|flags
36=6|flags
36=8|flags
36=9|flags
36=10|
36=10000|
36=fffffff0|
36=80000001|flags
36=80000008|flags
";

/// Program headers are of 32 bytes and in the file, which has 100. At 28 stands where they begin, at 42 their size and above
/// it their number.
const HEADERS: &str = "\
28=34 42=10020|
28=34 42=1001f|headers
28=34 42=10021|headers
28=34 42=10120|headers
28=34 42=20020|headers
28=44 42=10020|
28=45 42=10020|headers
28=64 42=10020|headers
28=64 42=20|
28=34 42=1f|
28=ffffffff 42=0|
28=0 42=10020|
28=4 42=30020|
28=5 42=30020|headers
28=ffffffe0 42=10020|headers
28=fffffff0 42=10020|headers
28=fff80000 42=40000020|headers
28=34 42=fffe0020|headers
28=34 42=ffff0020|headers
28=0 42=ffff001f|headers
";

/// The entry, at 24, is a word of the memory, whose size is in front.
const ENTRIES: &str = "\
4 24=0|
3 24=0|entry
0 24=0|entry
40 24=38|
40 24=39|entry
40 24=3a|entry
40 24=3b|entry
40 24=3c|
40 24=3d|entry
3f 24=3c|entry
40 24=40|entry
40 24=fffffffc|entry
10000 24=ffff|entry
";

/// A segment, by its type, offset, address, size in the file and size in memory, keeps to the file, which has 100 bytes, and to the memory.
const SEGMENTS: &str = "\
1 54 0 10 10|
1 54 0 10 f|segment 0
1 54 0 f 10|
1 55 0 10 10|segment 0
1 55 0 f f|
1 64 0 0 10|
1 65 0 0 10|segment 0
1 fffffff0 0 20 20|segment 0
1 fffffff0 0 10 10|segment 0
1 54 30 10 10|
1 54 31 10 10|segment 0
1 0 0 0 40|
1 0 0 0 41|segment 0
1 0 40 0 1|segment 0
1 0 fffffff0 0 20|segment 0
1 0 fffffff0 0 10|segment 0
1 fffffff0 fffffff0 0 0|
1 54 0 1 0|segment 0
0 fffffff0 fffffff0 20 10|
101 fffffff0 fffffff0 20 10|
";

/// The first faulty segment is told. The file has 164 bytes.
const FIRST: &str = "\
1 94 0 10 10; 1 94 0 10 10; 1 94 0 10 10|
2 95 31 10 f; 2 95 31 10 f; 2 95 31 10 f|
1 94 0 10 10; 1 94 0 10 f; 1 94 31 10 10|segment 1
1 94 31 10 10; 1 95 0 10 10; 1 94 0 10 10|segment 0
2 95 31 10 f; 1 94 0 10 10; 1 95 0 10 10|segment 2
2 95 31 10 f; 1 94 31 10 10; 1 94 0 10 f|segment 1
";

/// A byte of the guest and another instead of it, with the fault that comes of it, in the order of testing.
const CHANGES: [(usize, u8, &str); 16] = [
    (0, 0x7e, "magic"),
    (1, 0x65, "magic"),
    (2, 0x6c, "magic"),
    (3, 0x66, "magic"),
    (4, 2, "class"),
    (5, 2, "order"),
    (16, 3, "file type"),
    (17, 1, "file type"),
    (18, 0xf2, "machine"),
    (19, 1, "machine"),
    (36, 1, "flags"),
    (42, 0x1f, "headers"),
    (43, 1, "headers"),
    (72, 7, "segment 0"),
    (101, 1, "segment 1"),
    (24, 10, "entry"),
];

/// The text of what is wrong with a file, empty where nothing is.
fn said(alloc: Global, file: &[u8], size: u32) -> Result<String, Fail> {
    match load(alloc, file, size) {
        Ok(_) => Ok(String::new(alloc)),
        Err(fault) => Ok(format!(in alloc; "{fault}")?),
    }
}

fn is_told(alloc: Global, file: &[u8], size: u32, fault: &str, what: &str) -> Result<(), Fail> {
    let told = said(alloc, file, size)?;
    holds(told.as_str() == fault, what)
}

fn is_image(alloc: Global, file: &[u8], memory: &[u8], entry: u32) -> Result<(), Fail> {
    let image = load(alloc, file, u32::try_from(memory.len())?)?;
    holds(image.memory.as_slice() == memory, "the memory")?;
    holds(image.entry == entry, "the entry")
}

/// Writes bytes over those from an offset on.
fn put(file: &mut [u8], at: usize, bytes: &[u8]) {
    for (i, byte) in bytes.iter().enumerate() {
        if let Some(slot) = file.get_mut(at.saturating_add(i)) {
            *slot = *byte;
        }
    }
}

/// Adds a program header: its type, offset, address, size in the file and size in memory. All else in it is ones.
fn push_part(file: &mut Vec<u8>, part: &[u32; 5]) -> Result<(), Fail> {
    let [kind, offset, address, filed, sized] = *part;
    let ones = u32::MAX;
    for word in [kind, offset, address, ones, filed, sized, ones, ones] {
        file.extend_from_slice(&word.to_le_bytes())?;
    }
    Ok(())
}

/// A guest with these program headers from byte 52 on, and 16 bytes after them.
fn file_of(alloc: Global, parts: &[[u32; 5]]) -> Result<Vec<u8>, Fail> {
    let mut file = HEADER.to_vec(alloc)?;
    put(&mut file, 44, &u16::try_from(parts.len())?.to_le_bytes());
    for part in parts {
        push_part(&mut file, part)?;
    }
    file.extend_from_slice(&[1, 2, 3, 4, 5, 6, 7, 8, 9, 10, 11, 12, 13, 14, 15, 16])?;
    Ok(file)
}

fn word_of(digits: &str) -> Result<u32, Fail> {
    Ok(u32::from_str_radix(digits, 16)?)
}

fn put_field(file: &mut [u8], field: &str) -> Result<(), Fail> {
    let Some((at, word)) = field.split_once('=') else {
        return Err(Fail::new(field));
    };
    put(file, at.parse::<usize>()?, &word_of(word)?.to_le_bytes());
    Ok(())
}

fn has_fields(alloc: Global, base: &[u8], size: u32, row: &str) -> Result<(), Fail> {
    let Some((fields, fault)) = row.split_once('|') else {
        return Err(Fail::new(row));
    };
    let mut file = base.to_vec(alloc)?;
    for field in fields.split(' ') {
        put_field(&mut file, field)?;
    }
    is_told(alloc, &file, size, fault, row)
}

fn each_has_fields(alloc: Global, base: &[u8], rows: &str) -> Result<(), Fail> {
    for row in rows.lines() {
        has_fields(alloc, base, 64, row)?;
    }
    Ok(())
}

fn has_entry(alloc: Global, row: &str) -> Result<(), Fail> {
    let Some((size, fields)) = row.split_once(' ') else {
        return Err(Fail::new(row));
    };
    has_fields(alloc, &HEADER, word_of(size)?, fields)
}

fn part_of(text: &str) -> Result<[u32; 5], Fail> {
    let mut part = [0; 5];
    for (slot, digits) in part.iter_mut().zip(text.split_whitespace()) {
        *slot = word_of(digits)?;
    }
    Ok(part)
}

fn has_parts(alloc: Global, row: &str) -> Result<(), Fail> {
    let Some((texts, fault)) = row.split_once('|') else {
        return Err(Fail::new(row));
    };
    let mut parts = Vec::new(alloc);
    for text in texts.split(';') {
        parts.push(part_of(text)?)?;
    }
    let file = file_of(alloc, &parts)?;
    is_told(alloc, &file, 64, fault, row)
}

fn each_has_parts(alloc: Global, rows: &str) -> Result<(), Fail> {
    for row in rows.lines() {
        has_parts(alloc, row)?;
    }
    Ok(())
}

#[test]
fn a_guest_is_laid_by_its_headers(rt: HostRuntime) -> Result<(), Fail> {
    is_image(rt.alloc(), &GUEST, &GUEST_MEMORY, 8)?;
    is_image(rt.alloc(), &HEADER, &[0, 0, 0, 0], 0)
}

fn fill(file: &mut [u8], from: usize, end: usize) {
    for at in from..end {
        put(file, at, &[0xff]);
    }
}

#[test]
fn other_fields_are_of_no_account(rt: HostRuntime) -> Result<(), Fail> {
    let mut file = GUEST;
    for (from, end) in [(6, 16), (20, 24), (32, 36), (40, 42), (46, 52)] {
        fill(&mut file, from, end);
    }
    is_image(rt.alloc(), &file, &GUEST_MEMORY, 8)
}

/// What is wrong with so many bytes of the guest.
fn fault_of_front(end: usize) -> &'static str {
    match end {
        0..=51 => "short",
        52..=211 => "headers",
        212..=219 => "segment 0",
        220..=221 => "segment 1",
        _ => "segment 3",
    }
}

#[test]
fn a_front_of_a_guest_is_refused(rt: HostRuntime) -> Result<(), Fail> {
    for end in 0..229usize {
        is_told(
            rt.alloc(),
            &GUEST[..end],
            64,
            fault_of_front(end),
            "a front",
        )?;
    }
    // shortness comes before all else
    is_told(rt.alloc(), &[0; 51], 64, "short", "51 zeros")?;
    is_told(rt.alloc(), &[0; 52], 64, "magic", "52 zeros")
}

/// The guest with one byte changed, in a memory of its size and in the largest.
fn change_is_told(alloc: Global, at: usize, byte: u8, fault: &str) -> Result<(), Fail> {
    let mut file = GUEST;
    put(&mut file, at, &[byte]);
    is_told(alloc, &file, 64, fault, fault)?;
    is_told(alloc, &file, u32::MAX, fault, fault)
}

fn earlier_is_told(
    alloc: Global,
    first: &(usize, u8, &str),
    later: &(usize, u8, &str),
) -> Result<(), Fail> {
    let mut file = GUEST;
    put(&mut file, first.0, &[first.1]);
    put(&mut file, later.0, &[later.1]);
    is_told(alloc, &file, 64, first.2, later.2)
}

fn comes_first(
    alloc: Global,
    first: &(usize, u8, &str),
    others: &[(usize, u8, &str)],
) -> Result<(), Fail> {
    change_is_told(alloc, first.0, first.1, first.2)?;
    for later in others {
        earlier_is_told(alloc, first, later)?;
    }
    Ok(())
}

#[test]
fn the_first_fault_of_two_is_told(rt: HostRuntime) -> Result<(), Fail> {
    for i in 0..16usize {
        if let [first, others @ ..] = &CHANGES[i..] {
            comes_first(rt.alloc(), first, others)?;
        }
    }
    Ok(())
}

#[test]
fn flags_of_other_instructions_are_refused(rt: HostRuntime) -> Result<(), Fail> {
    each_has_fields(rt.alloc(), &HEADER, FLAGS)
}

#[test]
fn program_headers_are_of_32_bytes_and_in_the_file(rt: HostRuntime) -> Result<(), Fail> {
    let base = file_of(rt.alloc(), &[[1, 0, 0, 0, 0]])?;
    each_has_fields(rt.alloc(), &base, HEADERS)
}

#[test]
fn a_segment_keeps_to_the_file_and_the_memory(rt: HostRuntime) -> Result<(), Fail> {
    each_has_parts(rt.alloc(), SEGMENTS)
}

#[test]
fn the_first_faulty_segment_is_told(rt: HostRuntime) -> Result<(), Fail> {
    each_has_parts(rt.alloc(), FIRST)
}

#[test]
fn the_number_of_a_segment_is_told(rt: HostRuntime) -> Result<(), Fail> {
    let mut parts = vec![in rt.alloc(); [2, 149, 49, 16, 15]; 299]?;
    parts.push([1, 0, 64, 0, 1])?;
    let file = file_of(rt.alloc(), &parts)?;
    is_told(rt.alloc(), &file, 64, "segment 299", "past the memory")?;
    is_told(rt.alloc(), &file, 65, "", "in the memory")
}

#[test]
fn the_entry_is_a_word_of_the_memory(rt: HostRuntime) -> Result<(), Fail> {
    for row in ENTRIES.lines() {
        has_entry(rt.alloc(), row)?;
    }
    Ok(())
}

#[test]
fn the_entry_is_that_of_the_header(rt: HostRuntime) -> Result<(), Fail> {
    let mut file = HEADER;
    put(&mut file, 24, &[0xfc, 0xff, 0x01, 0x00]);
    let image = load(rt.alloc(), &file, 0x20000)?;
    holds(image.entry == 0x1fffc, "the entry")
}

/// A file with 65,534 program headers. Each covers the whole memory, and has the magic bytes at 0; the last has two bytes from the end of
/// the file.
fn full(alloc: Global) -> Result<Vec<u8>, Fail> {
    let mut file = HEADER.to_vec(alloc)?;
    put(&mut file, 44, &[0xfe, 0xff]);
    for _ in 0..65533u32 {
        push_part(&mut file, &[1, 0, 0, 4, 0x10000])?;
    }
    push_part(&mut file, &[1, 52 + 65534 * 32, 0, 2, 0x10000])?;
    file.extend_from_slice(&[0xde, 0xad])?;
    Ok(file)
}

#[test]
fn as_many_headers_as_may_be_load(rt: HostRuntime) -> Result<(), Fail> {
    let file = full(rt.alloc())?;
    let mut want = vec![in rt.alloc(); 0; 0x10000]?;
    put(&mut want, 0, &[0xde, 0xad]);
    is_image(rt.alloc(), &file, &want, 0)
}

#[test]
fn one_header_more_cannot_be_counted(rt: HostRuntime) -> Result<(), Fail> {
    let mut file = full(rt.alloc())?;
    // it would end within the file
    put(&mut file, 28, &[0, 0, 0, 0]);
    put(&mut file, 44, &[0xff, 0xff]);
    is_told(rt.alloc(), &file, 0x10000, "headers", "65,535 headers")
}

fn has_text(alloc: Global, fault: LoadFault, text: &str) -> Result<(), Fail> {
    let told = format!(in alloc; "{fault}")?;
    holds(told.as_str() == text, text)
}

#[test]
fn faults_have_their_texts(rt: HostRuntime) -> Result<(), Fail> {
    has_text(rt.alloc(), LoadFault::Memory, "out of memory")?;
    let segment = LoadFault::Refused(ElfFault::Segment(299));
    has_text(rt.alloc(), segment, "segment 299")?;
    let file_type = format!(in rt.alloc(); "{}", ElfFault::FileType)?;
    holds(file_type.as_str() == "file type", "file type")
}
