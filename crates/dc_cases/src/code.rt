//! Guests as ELF files: that of `hi`, and those of code.

use crate::case::{number, value};
use std::alloc::Global;
use std::test::Fail;

/// A guest's file: the guest shows `hi` and ends with code 0.
const HI: [u8; 116] = [
    0x7f, 0x45, 0x4c, 0x46, 0x01, 0x01, 0x01, 0x00, 0x00, 0x00, 0x00, 0x00, 0x00, 0x00, 0x00, 0x00,
    0x02, 0x00, 0xf3, 0x00, 0x01, 0x00, 0x00, 0x00, 0x00, 0x04, 0x00, 0x00, 0x34, 0x00, 0x00, 0x00,
    0x00, 0x00, 0x00, 0x00, 0x00, 0x00, 0x00, 0x00, 0x34, 0x00, 0x20, 0x00, 0x01, 0x00, 0x00, 0x00,
    0x00, 0x00, 0x00, 0x00, 0x01, 0x00, 0x00, 0x00, 0x54, 0x00, 0x00, 0x00, 0x00, 0x04, 0x00, 0x00,
    0x00, 0x04, 0x00, 0x00, 0x20, 0x00, 0x00, 0x00, 0x20, 0x00, 0x00, 0x00, 0x07, 0x00, 0x00, 0x00,
    0x04, 0x00, 0x00, 0x00, 0x93, 0x08, 0x20, 0x00, 0x13, 0x05, 0xc0, 0x41, 0x93, 0x05, 0x20, 0x00,
    0x73, 0x00, 0x00, 0x00, 0x93, 0x08, 0x10, 0x00, 0x13, 0x05, 0x00, 0x00, 0x73, 0x00, 0x00, 0x00,
    0x68, 0x69, 0x00, 0x00,
];

/// A word of code.
fn hexadecimal(word: &str) -> Result<u32, Fail> {
    Ok(u32::from_str_radix(word, 16)?)
}

/// The words of code, in hexadecimal.
fn code(alloc: Global, code: &str) -> Result<Vec<u32>, Fail> {
    let mut list = Vec::new(alloc);
    for word in code.split_whitespace() {
        list.push(hexadecimal(word)?)?;
    }
    Ok(list)
}

/// A guest's file with this code.
fn file_of(alloc: Global, words: &[u32]) -> Result<Vec<u8>, Fail> {
    if words.len() > 20000 {
        return Err(Fail::new("too much code"));
    }
    let count = (words.len() as u32 * 4).to_le_bytes();
    let mut file = HI[..68].to_vec(alloc)?;
    file.extend_from_slice(&count)?;
    file.extend_from_slice(&count)?;
    file.extend_from_slice(&HI[76..84])?;
    for word in words {
        file.extend_from_slice(&word.to_le_bytes())?;
    }
    Ok(file)
}

/// The file of a case's code.
pub fn coded(alloc: Global, case: &str, key: &str) -> Result<Vec<u8>, Fail> {
    let words = code(alloc, value(case, key, ""))?;
    file_of(alloc, &words)
}

/// The file of the guest that shows `hi`, with another byte or cut off where the case says so.
pub fn hi(alloc: Global, case: &str) -> Result<Vec<u8>, Fail> {
    let offset = number(case, "offset", "0")?;
    let Ok(changed) = u8::try_from(number(case, "byte", "127")?) else {
        return Err(Fail::new(case));
    };
    let cut = number(case, "cut", "116")?;
    let mut file = HI.to_vec(alloc)?;
    if let Some(byte) = file.get_mut(offset) {
        *byte = changed;
    }
    file.truncate(cut);
    Ok(file)
}

/// A file of so many zero words.
pub fn zeros(alloc: Global, case: &str) -> Result<Vec<u8>, Fail> {
    file_of(alloc, &vec![in alloc; 0; number(case, "zeros", "0")?]?)
}
