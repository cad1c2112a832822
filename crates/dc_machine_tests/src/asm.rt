//! Sources and what they come to. The rows of a listing are `line|word`, the word in hexadecimal or none: the lines are a
//! source, with a line feed between two, and the words are its program. The rows of faults are `source|fault`. In a source `~`
//! stands for a line feed, `^` for the byte 128 and `!` for the byte 255.

use crate::holding::holds;
use dc_asm::{AsmError, AsmFault, AsmKind, assemble};
use dc_elf::load;
use std::alloc::{AllocError, Global};
use std::test::Fail;

/// The words are as the instruction tables give them.
const SOURCES: &str = "\
add x1,x2,x3|003100b3
sub x31,x30,x29|41df0fb3
sll x4,x5,x6|00629233
slt x7,x8,x9|009423b3
sltu x10,x11,x12|00c5b533
xor x13,x14,x15|00f746b3
srl x16,x17,x18|0128d833
sra x19,x20,x21|415a59b3
or x22,x23,x24|018beb33
and x25,x26,x27|01bd7cb3
addi x1,x2,-2048|80010093
slti x3,x4,2047|7ff22193
sltiu x5,x6,-1|fff33293
xori x7,x8,1365|55544393
ori x9,x10,0|00056493
andi x11,x12,-1366|aaa67593
slli x13,x14,31|01f71693
srli x15,x16,1|00185793
srai x17,x18,17|41195893
lb x1,-1(x2)|fff10083
lh x3,2(x4)|00221183
lw x5,2047(x6)|7ff32283
lbu x7,-2048(x8)|80044383
lhu x9,0(x10)|00055483
jalr x11,-4(x12)|ffc605e7
sb x1,-1(x2)|fe110fa3
sh x3,1026(x4)|40321123
sw x31,-2048(x30)|81ff2023
beq x1,x2,4094|7e208fe3
bne x3,x4,-4096|80419063
blt x5,x6,2|0062c163
bge x7,x8,-2|fe83dfe3
bltu x9,x10,1366|54a4eb63
bgeu x11,x12,2048|00c5f0e3
jal x1,1048574|7ffff0ef
jal x31,-1048576|80000fef
jal x10,2048|0010056f
lui x1,1048575|fffff0b7
auipc x2,74565|12345117
fence|0ff0000f
ecall|00000073
ebreak|00100073
.word 4294967295|ffffffff
|

addi x5,x0,3|00300293
top:|
beq x5,x0,done|00028663
addi x5,x5,-1|fff28293
jal x0,top|ff9ff06f
done:|
ebreak|00100073
|

addi x17,x0,2|00200893
addi x10,x0,msg|41c00513
addi x11,x0,2|00200593
ecall|00000073
addi x17,x0,1|00100893
addi x10,x0,0|00000513
ecall|00000073
msg:|
.word 26984|00006968
|

lw x1,at(x0)|40402083
at:|
sw x1,at(x0)|40102223
|

|
# a comment: ^|
 \t|
\t addi  x10 ,\tx0, 1 # and !|00100513
A_z9: #here|
\tecall \t#|00000073
  _:|
 jal x0, A_z9|ffdff06f

|

#|

addi x1,x0,-0|00000093
lui x1,-0|000000b7

abcdefghijklmnopqrstuvwxyz01234:|
jal x0,abcdefghijklmnopqrstuvwxyz01234|0000006f
";

/// Guests and their words, as GNU as 2.40 and GNU ld 2.40 give them with the code at 1024 (an immediate's name written out as its address).
const GUESTS: &str = "\
addi x17,x0,2|00200893
addi x10,x0,msg|41c00513
addi x11,x0,2|00200593
ecall|00000073
addi x17,x0,1|00100893
addi x10,x0,0|00000513
ecall|00000073
msg:|
.word 26984|00006968

addi x17,x0,4|00400893
ecall|00000073
sw x10,512(x0)|20a02023
addi x17,x0,2|00200893
addi x10,x0,512|20000513
addi x11,x0,1|00100593
ecall|00000073
addi x17,x0,1|00100893
addi x10,x0,0|00000513
ecall|00000073

addi x17,x0,2|00200893
addi x10,x0,512|20000513
addi x11,x0,0|00000593
ecall|00000073
addi x10,x0,512|20000513
addi x11,x0,256|10000593
ecall|00000073
addi x10,x0,512|20000513
addi x11,x0,257|10100593
ecall|00000073
addi x17,x0,1|00100893
ecall|00000073

addi x17,x0,2|00200893
addi x10,x0,msg|42400513
addi x11,x0,2|00200593
ecall|00000073
addi x10,x0,msg|42400513
ecall|00000073
addi x17,x0,1|00100893
addi x10,x0,0|00000513
ecall|00000073
msg:|
.word 26984|00006968

addi x17,x0,3|00300893
addi x10,x0,512|20000513
addi x11,x0,64|04000593
ecall|00000073
addi x11,x10,0|00050593
addi x10,x0,512|20000513
addi x17,x0,2|00200893
ecall|00000073
addi x17,x0,1|00100893
addi x10,x0,0|00000513
ecall|00000073

addi x17,x0,4|00400893
ecall|00000073
addi x17,x0,3|00300893
addi x10,x0,512|20000513
addi x11,x0,64|04000593
ecall|00000073
addi x11,x10,0|00050593
addi x10,x0,512|20000513
addi x17,x0,2|00200893
ecall|00000073
addi x17,x0,1|00100893
addi x10,x0,0|00000513
ecall|00000073

addi x17,x0,6|00600893
addi x10,x0,1|00100513
addi x11,x0,msg|42000593
addi x12,x0,2|00200613
ecall|00000073
addi x17,x0,1|00100893
addi x10,x0,0|00000513
ecall|00000073
msg:|
.word 26984|00006968

loop:|
addi x17,x0,7|00700893
addi x10,x0,512|20000513
addi x11,x0,64|04000593
ecall|00000073
blt x10,x0,loop|fe0548e3
addi x11,x10,0|00050593
addi x10,x0,512|20000513
addi x17,x0,2|00200893
ecall|00000073
jal x0,loop|fddff06f

addi x17,x0,6|00600893
loop:|
addi x10,x0,1|00100513
addi x11,x0,msg|41800593
addi x12,x0,2|00200613
ecall|00000073
jal x0,loop|ff1ff06f
msg:|
.word 26984|00006968

addi x17,x0,7|00700893
loop:|
addi x10,x0,512|20000513
addi x11,x0,64|04000593
ecall|00000073
jal x0,loop|ff5ff06f

loop:|
addi x17,x0,8|00800893
ecall|00000073
addi x10,x10,1|00150513
blt x10,x11,go|00b54463
addi x10,x0,0|00000513
go:|
addi x11,x0,512|20000593
addi x12,x0,4|00400613
addi x17,x0,6|00600893
ecall|00000073
addi x17,x0,4|00400893
ecall|00000073
sw x10,512(x0)|20a02023
recv:|
addi x17,x0,7|00700893
addi x10,x0,576|24000513
addi x11,x0,64|04000593
ecall|00000073
blt x10,x0,recv|fe0548e3
addi x11,x10,0|00050593
addi x10,x0,576|24000513
addi x17,x0,2|00200893
ecall|00000073
jal x0,loop|fadff06f
";

/// Faults of one line, in order: mnemonics and operands, parentheses, registers, immediates, names, and two in one line.
const LINES: &str = "\
addi x10,x0,2048|line 1: immediate
jal x0,away|line 1: label
addi x1,x2|line 1: word
addi x32,x0,0|line 1: register
ADD x1,x2,x3|line 1: word
add|line 1: word
add\tx1,x2,x3|line 1: word
add x1,x2,x3,x4|line 1: word
add x1,x2,|line 1: register
ecall x1|line 1: word
ecall ,|line 1: word
.word|line 1: word
.word 1,2|line 1: word
jal x1|line 1: word
lui x1,1,1|line 1: word
ecall\r|line 1: word
addi x1,x2,\x7f|line 1: word
addi x1,x2,^|line 1: word
na^me:|line 1: word
a b:|line 1: word
name :|line 1: word
1name:|line 1: word
:|line 1: word
name: ecall|line 1: word
lw x1,4|line 1: word
lw x1,4(x2) 5|line 1: word
lw x1,4 x2)|line 1: word
lw x1,4(x2|line 1: word
lw x1,4 (x2)|line 1: immediate
lw x1,4( x2)|line 1: register
lw x1,4(x2)(x3)|line 1: register
lw x1,(x2)|line 1: immediate
lw x1,4()|line 1: register
add X1,x2,x3|line 1: register
add x01,x2,x3|line 1: register
add x1,x,x3|line 1: register
add x1,x2,3|line 1: register
sw x32,0(x1)|line 1: register
beq x1,y,2|line 1: register
addi x1,x2,-2049|line 1: immediate
addi x1,x2,01|line 1: immediate
addi x1,x2,+1|line 1: immediate
addi x1,x2,0x1|line 1: immediate
addi x1,x2,|line 1: immediate
addi x1,x2,-|line 1: immediate
addi x1,x2,--1|line 1: immediate
addi x1,x2,9name|line 1: immediate
addi x1,x2,99999999999999999999999|line 1: immediate
slli x1,x2,32|line 1: immediate
slli x1,x2,-1|line 1: immediate
slli x1,x2,away|line 1: immediate
lui x1,1048576|line 1: immediate
lui x1,away|line 1: immediate
auipc x1,-1|line 1: immediate
.word 4294967296|line 1: immediate
.word -1|line 1: immediate
.word away|line 1: immediate
beq x1,x2,4095|line 1: immediate
beq x1,x2,4096|line 1: immediate
beq x1,x2,-4098|line 1: immediate
beq x1,x2,3|line 1: immediate
jal x1,1048576|line 1: immediate
jal x1,-1048578|line 1: immediate
jal x1,-1|line 1: immediate
jal x1,abcdefghijklmnopqrstuvwxyz012345|line 1: immediate
jal x1,abcdefghijklmnopqrstuvwxyz01234|line 1: label
addi x1,x2,_|line 1: label
lb x1,away(x2)|line 1: label
addi x1,x32|line 1: word
lw x32,4|line 1: word
addi x1,y^,5000|line 1: word
addi x32,x1,5000|line 1: register
lw x1,5000(x32)|line 1: register
jal y,away|line 1: register
";

/// The first faulty line, and names that are defined twice or are too long.
const FIRST: &str = "\
a:~~ecall~a:~|line 4: twice
a:~b:~a:~a:~|line 3: twice
ecall~jal x0,away~addi~|line 2: label
ecall~~#~add x1,x2,2~jal x0,away|line 4: register
a:~a:~none~b:~jal x0,b|line 2: twice
abcdefghijklmnopqrstuvwxyz012345:~|line 1: word
";

/// The byte that a byte of a row stands for.
fn stood_for(byte: u8) -> u8 {
    match byte {
        b'~' => b'\n',
        b'^' => 128,
        b'!' => 255,
        _ => byte,
    }
}

fn push_text(source: &mut Vec<u8>, text: &str) -> Result<(), AllocError> {
    for byte in text.bytes() {
        source.push(stood_for(byte))?;
    }
    Ok(())
}

fn word_of(digits: &str) -> Result<u32, Fail> {
    Ok(u32::from_str_radix(digits, 16)?)
}

fn push_word(code: &mut Vec<u8>, word: &str) -> Result<(), Fail> {
    if !word.is_empty() {
        code.extend_from_slice(&word_of(word)?.to_le_bytes())?;
    }
    Ok(())
}

fn push_row(source: &mut Vec<u8>, code: &mut Vec<u8>, row: &str) -> Result<(), Fail> {
    let Some((line, word)) = row.split_once('|') else {
        return Err(Fail::new(row));
    };
    push_text(source, line)?;
    source.push(b'\n')?;
    push_word(code, word)
}

/// Fails where the file does not load at 1024 as its code.
fn loads(alloc: Global, file: &[u8], code: &[u8], what: &str) -> Result<(), Fail> {
    let image = load(alloc, file, 4096)?;
    holds(image.entry == 1024, what)?;
    match image.memory.get(1024..) {
        Some(memory) => holds(memory.starts_with(code), what),
        None => Err(Fail::new(what)),
    }
}

fn has_code(alloc: Global, source: &[u8], code: &[u8], what: &str) -> Result<(), Fail> {
    let file = assemble(alloc, source)?;
    holds(file.get(84..) == Some(code), what)?;
    loads(alloc, &file, code, what)
}

fn listing_holds(alloc: Global, listing: &str) -> Result<(), Fail> {
    let mut source = Vec::new(alloc);
    let mut code = Vec::new(alloc);
    for row in listing.lines() {
        push_row(&mut source, &mut code, row)?;
    }
    source.pop();
    has_code(alloc, &source, &code, listing)
}

fn each_listing(alloc: Global, listings: &str) -> Result<(), Fail> {
    for listing in listings.split("\n\n") {
        listing_holds(alloc, listing)?;
    }
    Ok(())
}

#[test]
fn sources_have_their_words(rt: HostRuntime) -> Result<(), Fail> {
    each_listing(rt.alloc(), SOURCES)
}

#[test]
fn guests_have_their_words_and_load(rt: HostRuntime) -> Result<(), Fail> {
    each_listing(rt.alloc(), GUESTS)
}

/// The text of what is wrong with a source, empty where nothing is.
fn said(alloc: Global, source: &[u8]) -> Result<String, Fail> {
    match assemble(alloc, source) {
        Ok(_) => Ok(String::new(alloc)),
        Err(error) => Ok(format!(in alloc; "{error}")?),
    }
}

fn is_refused(alloc: Global, source: &[u8], fault: &str, what: &str) -> Result<(), Fail> {
    let told = said(alloc, source)?;
    holds(told.as_str() == fault, what)
}

fn row_holds(alloc: Global, row: &str) -> Result<(), Fail> {
    let Some((text, fault)) = row.split_once('|') else {
        return Err(Fail::new(row));
    };
    let mut source = Vec::new(alloc);
    push_text(&mut source, text)?;
    is_refused(alloc, &source, fault, row)
}

fn each_row(alloc: Global, rows: &str) -> Result<(), Fail> {
    for row in rows.lines() {
        row_holds(alloc, row)?;
    }
    Ok(())
}

#[test]
fn each_fault_has_its_kind(rt: HostRuntime) -> Result<(), Fail> {
    each_row(rt.alloc(), LINES)
}

#[test]
fn the_first_faulty_line_is_told(rt: HostRuntime) -> Result<(), Fail> {
    each_row(rt.alloc(), FIRST)
}

/// So many calls between two texts.
fn calls(alloc: Global, front: &str, count: u32, back: &str) -> Result<Vec<u8>, AllocError> {
    let mut source = Vec::new(alloc);
    push_text(&mut source, front)?;
    for _ in 0..count {
        source.extend_from_slice(b"ecall\n")?;
    }
    push_text(&mut source, back)?;
    Ok(source)
}

fn are_refused(
    alloc: Global,
    front: &str,
    count: u32,
    back: &str,
    fault: &str,
) -> Result<(), Fail> {
    let source = calls(alloc, front, count, back)?;
    is_refused(alloc, &source, fault, back)
}

#[test]
fn a_source_has_at_most_16000_words(rt: HostRuntime) -> Result<(), Fail> {
    let alloc = rt.alloc();
    are_refused(alloc, "", 16000, "a:~~ecall~", "line 16003: too long")?;
    // its other faults come first
    are_refused(alloc, "", 16000, "jal x0,away~", "line 16001: label")?;
    // an address over the immediates of 12 bits, and an offset over a branch's
    are_refused(alloc, "", 256, "a:~addi x1,x0,a~", "line 258: immediate")?;
    are_refused(alloc, "beq x0,x0,a~", 1023, "a:~", "line 1: immediate")
}

#[test]
fn a_source_may_have_16000_words(rt: HostRuntime) -> Result<(), Fail> {
    let source = calls(rt.alloc(), "", 16000, "")?;
    let file = assemble(rt.alloc(), &source)?;
    holds(file.len() == 64084, "the size of the file")
}

#[test]
fn one_word_makes_a_file_of_88_bytes(rt: HostRuntime) -> Result<(), Fail> {
    let file = assemble(rt.alloc(), b"addi x10,x0,1")?;
    let want = [
        // magic, class, order, version
        0x7f, 0x45, 0x4c, 0x46, 1, 1, 1, 0, 0, 0, 0, 0, 0, 0, 0, 0,
        // file type, machine, version, entry, offset of the program header
        2, 0, 243, 0, 1, 0, 0, 0, 0, 4, 0, 0, 52, 0, 0, 0,
        // sections, flags, sizes of the headers and their number
        0, 0, 0, 0, 0, 0, 0, 0, 52, 0, 32, 0, 1, 0, 0, 0, 0, 0, 0, 0,
        // kind, offset, two addresses
        1, 0, 0, 0, 84, 0, 0, 0, 0, 4, 0, 0, 0, 4, 0, 0,
        // two sizes, access, alignment
        4, 0, 0, 0, 4, 0, 0, 0, 7, 0, 0, 0, 4, 0, 0, 0,
        // the word
        0x13, 0x05, 0x10, 0x00,
    ];
    holds(file.as_slice() == want.as_slice(), "the file")
}

#[test]
fn a_file_loads_at_1024(rt: HostRuntime) -> Result<(), Fail> {
    let file = assemble(rt.alloc(), b"addi x10,x0,1\n.word 26984")?;
    let image = load(rt.alloc(), &file, 1036)?;
    let want = [
        0x13, 0x05, 0x10, 0x00, 0x68, 0x69, 0x00, 0x00, 0x00, 0x00, 0x00, 0x00,
    ];
    holds(image.entry == 1024, "the entry")?;
    holds(image.memory.len() == 1036, "the size")?;
    holds(
        image.memory.get(1024..) == Some(want.as_slice()),
        "the memory",
    )
}

#[test]
fn a_fault_is_told_in_words(rt: HostRuntime) -> Result<(), Fail> {
    let fault = AsmFault {
        line: 7,
        kind: AsmKind::TooLong,
    };
    let told = format!(in rt.alloc(); "{}", AsmError::Refused(fault))?;
    holds(told.as_str() == "line 7: too long", "the text of a fault")
}
