//! The guests of a case.

use crate::runs::is_done;
use dc_cases::{coded, hi, holds, says, text, value, words, zeros};
use dc_memmedia::{MemLibrary, MemSink};
use dc_trial::called_aside;
use std::alloc::Global;
use std::test::Fail;

/// The sources of the guests by name, with `;` for a line feed.
///
/// `hi` shows two bytes and ends, and `twice` does so after showing them once more. `clock` shows a byte of the clock and ends. `reader`
/// shows an input and ends; `timed` asks for the clock before; `asker` asks for inputs for ever. `sender` sends two bytes to process 1 and
/// ends; `flooder` sends them for ever. `taker` takes messages for ever, and `teller` shows them too. `passer` sends to the next process, or
/// from the last one to process 0, waits for a message and shows it, for ever.
const SOURCES: &str = "\
hi=addi x17,x0,2;addi x10,x0,msg;addi x11,x0,2;ecall;addi x17,x0,1;addi x10,x0,0;ecall;msg:;.word 26984
clock=addi x17,x0,4;ecall;sw x10,512(x0);addi x17,x0,2;addi x10,x0,512;addi x11,x0,1;ecall;addi x17,x0,1;addi x10,x0,0;ecall
twice=addi x17,x0,2;addi x10,x0,msg;addi x11,x0,2;ecall;addi x10,x0,msg;ecall;addi x17,x0,1;addi x10,x0,0;ecall;msg:;.word 26984
reader=addi x17,x0,3;addi x10,x0,512;addi x11,x0,64;ecall;addi x11,x10,0;addi x10,x0,512;addi x17,x0,2;ecall;addi x17,x0,1;addi x10,x0,0;ecall
timed=addi x17,x0,4;ecall;addi x17,x0,3;addi x10,x0,512;addi x11,x0,64;ecall;addi x11,x10,0;addi x10,x0,512;addi x17,x0,2;ecall;addi x17,x0,1;addi x10,x0,0;ecall
asker=addi x17,x0,3;loop:;addi x10,x0,512;addi x11,x0,64;ecall;jal x0,loop
sender=addi x17,x0,6;addi x10,x0,1;addi x11,x0,msg;addi x12,x0,2;ecall;addi x17,x0,1;addi x10,x0,0;ecall;msg:;.word 26984
teller=loop:;addi x17,x0,7;addi x10,x0,512;addi x11,x0,64;ecall;blt x10,x0,loop;addi x11,x10,0;addi x10,x0,512;addi x17,x0,2;ecall;jal x0,loop
flooder=addi x17,x0,6;loop:;addi x10,x0,1;addi x11,x0,msg;addi x12,x0,2;ecall;jal x0,loop;msg:;.word 26984
taker=addi x17,x0,7;loop:;addi x10,x0,512;addi x11,x0,64;ecall;jal x0,loop
passer=loop:;addi x17,x0,8;ecall;addi x10,x10,1;blt x10,x11,go;addi x10,x0,0;go:;addi x11,x0,512;addi x12,x0,4;addi x17,x0,6;ecall;addi x17,x0,4;ecall;sw x10,512(x0);recv:;addi x17,x0,7;addi x10,x0,576;addi x11,x0,64;ecall;blt x10,x0,recv;addi x11,x10,0;addi x10,x0,576;addi x17,x0,2;ecall;jal x0,loop
";

/// The file of a source.
fn assembled(alloc: Global, case: &str, source: String) -> Result<Vec<u8>, Fail> {
    let mut library = MemLibrary::new(alloc, Vec::new(alloc));
    library.add(String::from_str(alloc, "source")?, source.into_bytes())?;
    let mut out = MemSink::new(alloc, 100_000, Vec::new(alloc))?;
    let words = words(alloc, "dc asm source")?;
    let came = called_aside(alloc, &words, &mut library, &mut out)?;
    holds(is_done(came), case, "assembled")?;
    Ok(out.bytes().to_vec(alloc)?)
}

/// The guest's file.
fn guest(alloc: Global, case: &str) -> Result<Vec<u8>, Fail> {
    if says(case, "source") {
        return assembled(alloc, case, text(alloc, case, "source", "")?);
    }
    if says(case, "zeros") {
        return zeros(alloc, case);
    }
    if says(case, "code") {
        return coded(alloc, case, "code");
    }
    hi(alloc, case)
}

/// Adds the files of a case's guests, each named as its source, or else of its one guest.
pub fn add_guests(alloc: Global, case: &str, library: &mut MemLibrary) -> Result<(), Fail> {
    if !says(case, "guests") {
        library.add(text(alloc, case, "name", "hi.elf")?, guest(alloc, case)?)?;
        return Ok(());
    }
    for name in value(case, "guests", "").split_whitespace() {
        let source = value(SOURCES, name, "no guest").replace(alloc, ";", "\n")?;
        let file = assembled(alloc, case, source)?;
        library.add(format!(in alloc; "{name}.elf")?, file)?;
    }
    Ok(())
}
