//! Guests by name, assembled from their sources.

ghost use Rattle.std.specs.Prelude.{◌<◌, ◌≤◌, All, IfOk};
ghost use Rattle.dc_elf.specs.Loaded.{CanStart};
ghost use Rattle.dc_world.specs.Openable.{CanOpen};

use dc_asm::assemble;
use dc_cases::value;
use dc_elf::{Image, load};
use std::alloc::Global;
use std::test::Fail;

/// The sources, with `;` for a line feed.
///
/// `hi` shows two bytes and ends. `clock` shows a byte of the clock and ends. `sizes` shows none, 256 and then too many bytes, and
/// ends with what it was answered. `twice` shows two bytes two times and ends. `echo` shows its input and ends, `late` asks for the
/// clock before. `sender` sends two bytes to process 1 and ends, `flood` does so for ever. `teller` shows each message, `taker` takes
/// messages and shows none. `poller` asks for input for ever. `talker` tells process 1 the clock and shows it, for ever, and
/// `gossip` sends what it hears on to process 2, asks for a random word and its input, and shows both, for ever.
const SOURCES: &str = "\
hi=addi x17,x0,2;addi x10,x0,msg;addi x11,x0,2;ecall;addi x17,x0,1;addi x10,x0,0;ecall;msg:;.word 26984
clock=addi x17,x0,4;ecall;sw x10,512(x0);addi x17,x0,2;addi x10,x0,512;addi x11,x0,1;ecall;addi x17,x0,1;addi x10,x0,0;ecall
sizes=addi x17,x0,2;addi x10,x0,512;addi x11,x0,0;ecall;addi x10,x0,512;addi x11,x0,256;ecall;addi x10,x0,512;addi x11,x0,257;ecall;addi x17,x0,1;ecall
twice=addi x17,x0,2;addi x10,x0,msg;addi x11,x0,2;ecall;addi x10,x0,msg;ecall;addi x17,x0,1;addi x10,x0,0;ecall;msg:;.word 26984
echo=addi x17,x0,3;addi x10,x0,512;addi x11,x0,64;ecall;addi x11,x10,0;addi x10,x0,512;addi x17,x0,2;ecall;addi x17,x0,1;addi x10,x0,0;ecall
late=addi x17,x0,4;ecall;addi x17,x0,3;addi x10,x0,512;addi x11,x0,64;ecall;addi x11,x10,0;addi x10,x0,512;addi x17,x0,2;ecall;addi x17,x0,1;addi x10,x0,0;ecall
sender=addi x17,x0,6;addi x10,x0,1;addi x11,x0,msg;addi x12,x0,2;ecall;addi x17,x0,1;addi x10,x0,0;ecall;msg:;.word 26984
teller=loop:;addi x17,x0,7;addi x10,x0,512;addi x11,x0,64;ecall;blt x10,x0,loop;addi x11,x10,0;addi x10,x0,512;addi x17,x0,2;ecall;jal x0,loop
flood=addi x17,x0,6;loop:;addi x10,x0,1;addi x11,x0,msg;addi x12,x0,2;ecall;jal x0,loop;msg:;.word 26984
taker=addi x17,x0,7;loop:;addi x10,x0,512;addi x11,x0,64;ecall;jal x0,loop
talker=loop:;addi x17,x0,4;ecall;sw x10,512(x0);addi x17,x0,6;addi x10,x0,1;addi x11,x0,512;addi x12,x0,4;ecall;addi x17,x0,2;addi x10,x0,512;addi x11,x0,4;ecall;jal x0,loop
gossip=loop:;addi x17,x0,7;addi x10,x0,512;addi x11,x0,64;ecall;blt x10,x0,ask;addi x12,x10,0;addi x17,x0,6;addi x10,x0,2;addi x11,x0,512;ecall;ask:;addi x17,x0,5;ecall;sw x10,600(x0);addi x17,x0,3;addi x10,x0,604;addi x11,x0,64;ecall;addi x17,x0,2;addi x10,x0,600;addi x11,x0,8;ecall;jal x0,loop
poller=addi x17,x0,3;loop:;addi x10,x0,512;addi x11,x0,64;ecall;jal x0,loop
";

/// How many pages of memory each guest has.
const PAGES: u32 = 16;

/// The image of a guest in a memory of so many pages of 4096 bytes.
fn image(alloc: Global, name: &str, pages: u32) -> Result<Image, Fail>
    requires pages { (0 < pages) × (pages ≤ 256) }
    ensures good { IfOk result CanOpen }
{
    let source = value(SOURCES, name, "no guest").replace(alloc, ";", "\n")?;
    let Ok(file) = assemble(alloc, source.as_bytes()) else {
        return Err(Fail::new(name));
    };
    let Ok(image) = load(alloc, &file, 4096 * pages) else {
        return Err(Fail::new(name));
    };
    if image.memory.len() != 4096 * pages as usize || image.entry % 4 != 0 {
        return Err(Fail::new(name));
    }
    Ok(image)
}

/// The images of guests.
pub fn images(alloc: Global, names: &str) -> Result<Vec<Image>, Fail>
    ensures good { IfOk result (λ images. All CanOpen images.items) }
    ensures start { IfOk result (λ images. All CanStart images.items) }
{
    let mut images = Vec::new(alloc);
    for name in names.split_whitespace() {
        images.push(image(alloc, name, PAGES)?)?;
    }
    Ok(images)
}
