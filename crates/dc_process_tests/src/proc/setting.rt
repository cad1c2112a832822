//! A process at the beginning of a guest, over a store of its own.

ghost use Rattle.std.specs.Prelude.{◌≡◌, ◌<◌, ◌≤◌, None, IfOk, IfSome, length, slice_index};
ghost use Rattle.dc_kernel.specs.Faults.{kernel_fault};
ghost use Rattle.dc_kernel.specs.Layout.{commit_at, n_at, p_at};
ghost use Rattle.dc_proc.specs.Ups.{IsFit};

use dc_checkpoint::Checkpoint;
use dc_kernel::{Kernel, kernel_words};
use dc_proc::Up;
use dc_protocols::Protocol;
use std::alloc::{AllocError, Global};

/// The kernel of process `p` of `n`, before its first event.
fn kernel(alloc: Global, n: u32, p: u32) -> Result<Kernel, AllocError>
    requires few { n ≤ 8 }
    requires one_of { p < n }
    ensures process { IfOk result (λ kernel. (kernel.n ≡ n) × (kernel.p ≡ p)) }
    ensures number { IfOk result (λ kernel. kernel.commit ≡ 1) }
{
    let mut kernel = Kernel::new(alloc, n, p)?;
    kernel.set_commit(1);
    Ok(kernel)
}

/// The text of that kernel.
fn text_of(alloc: Global, kernel: &Kernel) -> Result<Vec<u32>, AllocError>
    ensures fault { IfOk result (λ text. kernel_fault kernel.now.n kernel.now.p text.items ≡ None) }
    ensures process { IfOk result (λ text. (slice_index text.items n_at ≡ kernel.now.n) × (slice_index text.items p_at ≡ kernel.now.p)) }
    ensures number { IfOk result (λ text. slice_index text.items commit_at ≡ kernel.now.commit) }
{
    let mut text = vec![in alloc; 0; kernel_words(kernel.n())]?;
    kernel.encode(&mut text);
    Ok(text)
}

/// A memory of a page with these words in front.
fn memory_of(alloc: Global, words: &[u32]) -> Result<Vec<u32>, AllocError>
    requires short { length words.now ≤ 64 }
    ensures long { IfOk result (λ memory. length memory.items ≡ 1024) }
{
    let mut memory = vec![in alloc; 0; 1024]?;
    memory[..words.len()].copy_from_slice(words);
    Ok(memory)
}

/// Process `p` of `n` at these words, and its store.
pub fn begin<C: Checkpoint + Drop>(
    alloc: Global,
    dev: &mut C::Device,
    protocol: Protocol,
    n: u32,
    p: u32,
    words: &[u32],
) -> Option<(Up, C)>
    requires few { n ≤ 8 }
    requires one_of { p < n }
    requires short { length words.now ≤ 64 }
    ensures fit { IfSome result (λ made. IsFit C.Checkpoint made.0 made.1 dev.new) }
{
    let Ok(kernel) = kernel(alloc, n, p) else {
        return None;
    };
    let Ok(text) = text_of(alloc, &kernel) else {
        return None;
    };
    let Ok(memory) = memory_of(alloc, words) else {
        return None;
    };
    let Ok(up) = Up::new(alloc, protocol, 4096, kernel) else {
        return None;
    };
    match C::format(alloc, dev, p, memory, text) {
        Ok((store, false)) => Some((up, store)),
        _ => None,
    }
}
