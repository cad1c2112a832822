//! What segments are made with, committed with and read into.

ghost use Rattle.std.specs.Prelude.{◌≡◌, ◌*◌, ◌<◌, ◌≤◌, IfOk, length, None, vec_capacity};
ghost use Rattle.dc_kernel.specs.Faults.{kernel_fault};
ghost use Rattle.dc_kernel.specs.Layout.{kernel_words};
ghost use Rattle.dc_checkpoint.specs.States.{form_in, number_in};

use dc_kernel::{Kernel, Saved, kernel_words};
use std::alloc::{AllocError, Global};

/// Writes the text of a kernel.
fn write(kernel: &Kernel, to: &mut [u32])
    requires { length to.old ≡ kernel_words kernel.now.n }
    ensures text { kernel_fault kernel.now.n kernel.now.p to.new ≡ None }
    ensures form { form_in to.new ≡ record { n = kernel.now.n; p = kernel.now.p } }
    ensures number { number_in to.new ≡ kernel.now.commit }
    ensures long { length to.new ≡ length to.old }
{
    kernel.encode(to);
}

/// The text of a kernel that has this commit number, ten events for each commit, and nothing else.
pub fn text(alloc: Global, n: u32, p: u32, number: u32) -> Result<Vec<u32>, AllocError>
    requires few { n ≤ 8 }
    requires one_of { p < n }
    ensures text { IfOk result (λ text. kernel_fault n p text.items ≡ None) }
    ensures form { IfOk result (λ text. form_in text.items ≡ record { n = n; p = p }) }
    ensures number { IfOk result (λ text. number_in text.items ≡ number) }
{
    let mut kernel = Kernel::new(alloc, n, p)?;
    kernel.set_commit(number);
    kernel.set_position(number.saturating_mul(10));
    let mut text = vec![in alloc; 0; kernel_words(n)]?;
    write(&kernel, &mut text);
    Ok(text)
}

/// What a recovery reads into.
pub fn saved(alloc: Global, n: u32, p: u32) -> Result<Saved, AllocError>
    requires few { n ≤ 8 }
    requires one_of { p < n }
    ensures process { IfOk result (λ saved. (saved.kernel.n ≡ n) × (saved.kernel.p ≡ p)) }
    ensures room { IfOk result (λ saved. 64 ≤ vec_capacity saved.log) }
{
    Saved::new(alloc, Kernel::new(alloc, n, p)?)
}

/// Memory of so many pages: zeros, but for a last word of 7.
pub fn memory(alloc: Global, pages: u32) -> Result<Vec<u32>, AllocError>
    requires some { 1 ≤ pages }
    requires few { pages ≤ 256 }
    ensures { IfOk result (λ memory. length memory.items ≡ 1024 * pages) }
{
    let size = 1024 * pages as usize;
    let mut memory = vec![in alloc; 0; size]?;
    memory[size - 1] = 7;
    Ok(memory)
}
