//! Entries of a world of processes over their stores, each at the same guest.

ghost use Rattle.std.specs.Prelude.{◌≡◌, ◌<◌, ◌≤◌, ◌+◌, ◌*◌, All, IfOk, IfSome, OnOk, false, length};
ghost use Rattle.dc_protocols.specs.Rules.{is_joint};
ghost use Rattle.dc_world.specs.Openable.{CanOpen};
ghost use Rattle.dc_world.specs.Worlds.{MayRun};

use dc_checkpoint::Checkpoint;
use dc_elf::Image;
use dc_limits::{ENTRIES, PROCESSES};
use dc_memmedia::MemSink;
use dc_model::{Entry, Turn};
use dc_protocols::Protocol;
use dc_words::bytes_of;
use dc_world::{Setup, World};
use std::alloc::{AllocError, Global};

/// A guest that ends at once.
pub const ENDING: [u32; 4] = [0x0010_0893, 0x0000_0073, 0, 0];

/// So many bytes that begin with these words.
fn memory_of(alloc: Global, words: &[u32; 4], size: usize) -> Result<Vec<u8>, AllocError>
    requires { 16 ≤ size }
    ensures { IfOk result (λ memory. length memory.items ≡ size) }
{
    let mut memory = vec![in alloc; 0u8; size]?;
    bytes_of(words, &mut memory[..16]);
    Ok(memory)
}

/// The memory of a guest, of so many pages, that begins with these words, at the first of them.
fn image_of(alloc: Global, words: &[u32; 4], pages: u32) -> Result<Image, AllocError>
    requires { (1 ≤ pages) × (pages ≤ 256) }
    ensures { IfOk result CanOpen }
{
    let memory = memory_of(alloc, words, 4096 * pages as usize)?;
    Ok(Image { memory, entry: 0 })
}

/// So many guests, without inputs.
fn setup_of(
    alloc: Global,
    protocol: Protocol,
    words: &[u32; 4],
    n: u32,
) -> Result<Setup, AllocError>
    requires some { 0 < n }
    requires few { n ≤ PROCESSES }
    ensures images { IfOk result (λ setup. length setup.images.items ≡ n) }
    ensures protocol { IfOk result (λ setup. setup.protocol ≡ protocol) }
{
    let mut images = Vec::new(alloc);
    let mut inputs = Vec::new(alloc);
    for _ in 0..n {
        images.push(image_of(alloc, words, 16)?)?;
        inputs.push(Vec::new(alloc))?;
    }
    Ok(Setup {
        protocol,
        images,
        inputs,
    })
}

/// A turn of a process.
fn turn<C: Checkpoint + Drop>(
    world: &mut World<C>,
    p: u32,
    dev: &mut C::Device,
    out: &mut MemSink,
) -> Option<()>
    requires ready { MayRun C.Checkpoint world.old dev.old }
    requires left { 0 < world.old.processes.left }
    requires process { p < length world.old.processes.slots.items }
    ensures ready { MayRun C.Checkpoint world.new dev.new }
    ensures left { world.new.processes.left + 1 ≡ world.old.processes.left }
    ensures long { length world.new.processes.slots.items ≡ length world.old.processes.slots.items }
{
    let turn = Turn {
        p,
        word: 0,
        clock: 0,
    };
    world.turn(&Entry::Turn(turn), dev, out).ok()?;
    Some(())
}

/// So many entries of so many processes, one process after the other.
pub fn entries<C: Checkpoint + Drop>(
    alloc: Global,
    dev: &mut C::Device,
    words: &[u32; 4],
    n: u32,
    count: u32,
) -> Option<()>
    requires some { 0 < n }
    requires few { n ≤ PROCESSES }
    requires turns { count ≤ ENTRIES }
{
    let Ok(setup) = setup_of(alloc, Protocol::Cpvs, words, n) else {
        return None;
    };
    let Ok(mut world) = World::<C>::open(alloc, setup, count, dev) else {
        return None;
    };
    let mut out = MemSink::new(alloc, 4096, Vec::new(alloc)).ok()?;
    for t in 0..count {
        turn(&mut world, t % n, dev, &mut out)?;
    }
    Some(())
}
