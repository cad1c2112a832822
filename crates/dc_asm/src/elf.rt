ghost use Rattle.std.specs.Prelude.{◌≡◌, ◌*◌, ◌≤◌, IfOk, length};
ghost use Rattle.dc_asm.specs.Elf.{elf_of, header};

use dc_words::bytes_of;
use std::alloc::{AllocError, Global};

/// The headers' words, of a file with so many words.
fn header(count: u32) -> [u32; 21]
    requires { count ≤ 16000 }
    ensures { result ≡ header count }
{
    let size = 4 * count;
    [
        // magic, class, order, version
        0x464c_457f,
        0x0001_0101,
        0,
        0,
        // file type and machine, version, entry, offset of the program header, no sections, no flags
        0x00f3_0002,
        1,
        1024,
        52,
        0,
        0,
        // the sizes of both headers, one program header
        0x0020_0034,
        1,
        0,
        // the part: loaded, offset, address twice, size twice, access, alignment
        1,
        84,
        1024,
        1024,
        size,
        size,
        7,
        4,
    ]
}

/// The file of words.
#[tactic(auto, unfolding(crate::specs::Elf::elf_of))]
pub fn elf_of(alloc: Global, words: &[u32]) -> Result<Vec<u8>, AllocError>
    requires { length words.now ≤ 16000 }
    ensures { IfOk result (λ file. file.items ≡ elf_of words.now) }
{
    let mut all = Vec::from_slice(alloc, &header(words.len() as u32))?;
    all.extend_from_slice(words)?;
    let mut bytes = vec![in alloc; 0; 4 * all.len()]?;
    bytes_of(&all, &mut bytes);
    Ok(bytes)
}
