//! What is measured: loads of a store and of a vector, commits after so many lines were stored to, and recoveries.

ghost use Rattle.std.specs.Prelude.{◌≡◌, ◌+◌, ◌*◌, ◌<◌, ◌≤◌, ◌^◌, IfOk, IfSome, OnOk, length};
ghost use Rattle.dc_checkpoint.specs.Handles.{IsSame};
ghost use Rattle.dc_checkpoint.specs.States.{IsFit};
ghost use Rattle.dc_kernel.specs.Layout.{kernel_words};

use dc_checkpoint::{CheckFault, Checkpoint};
use dc_kernel::{Kernel, Saved, kernel_words};
use std::alloc::{AllocError, Global};

/// Loads so many words of a memory, each where the one before leads: its place, that word and one, added up.
pub fn loads<C: Checkpoint>(store: &C, dev: &C::Device, size: u32, count: u32) -> u32
    requires some { 0 < size }
    requires size { size ≤ C.size store.now }
    requires lent { C.lent store.now dev.now }
    requires ready { C.ready store.now dev.now }
{
    let mut at = 0u32;
    for _ in 0..count {
        at = store.load(dev, at % size).wrapping_add(at).wrapping_add(1);
    }
    at
}

/// Reads so many words of a vector in the same way.
pub fn reads(words: &[u32], size: u32, count: u32) -> u32
    requires some { 0 < size }
    requires size { size ≤ length words.now }
{
    let mut at = 0u32;
    for _ in 0..count {
        at = words[(at % size) as usize].wrapping_add(at).wrapping_add(1);
    }
    at
}

/// Stores to a word of each of the first lines.
fn touch<C: Checkpoint>(store: &mut C, dev: &mut C::Device, lines: u32) -> Result<(), CheckFault>
    requires fits { 16 * lines < 2 ^ 32 }
    requires lines { 16 * lines ≤ C.size store.old }
    requires lent { C.lent store.old dev.old }
    requires ready { C.ready store.old dev.old }
    ensures same { IsSame C.Checkpoint store.old store.new }
    ensures lent { C.lent store.new dev.new }
    ensures ready { OnOk result (C.ready store.new dev.new) }
    ensures number { OnOk result (C.number store.new ≡ C.number store.old) }
{
    for line in 0..lines {
        store.store(dev, 16 * line, line, u32::MAX)?;
    }
    Ok(())
}

/// Commits once more, with a kernel of the next number.
fn commit<C: Checkpoint>(
    store: &mut C,
    dev: &mut C::Device,
    kernel: &mut Kernel,
    text: &mut [u32],
    lines: u32,
) -> Result<(), CheckFault>
    requires fits { 16 * lines < 2 ^ 32 }
    requires lines { 16 * lines ≤ C.size store.old }
    requires lent { C.lent store.old dev.old }
    requires ready { C.ready store.old dev.old }
    requires process { (kernel.old.n ≡ (C.form store.old).n) × (kernel.old.p ≡ (C.form store.old).p) }
    requires long { length text.old ≡ kernel_words kernel.old.n }
    requires number { C.number store.old ≡ kernel.old.commit }
    requires more { kernel.old.commit + 1 < 2 ^ 32 }
    ensures same { IsSame C.Checkpoint store.old store.new }
    ensures lent { C.lent store.new dev.new }
    ensures ready { OnOk result (C.ready store.new dev.new) }
    ensures process { (kernel.new.n ≡ kernel.old.n) × (kernel.new.p ≡ kernel.old.p) }
    ensures long { length text.new ≡ length text.old }
    ensures number { OnOk result (C.number store.new ≡ kernel.new.commit) }
    ensures next { kernel.new.commit ≤ kernel.old.commit + 1 }
{
    touch(store, dev, lines)?;
    kernel.set_commit(kernel.commit() + 1);
    kernel.encode(text);
    store.commit(dev, text)
}

/// Commits so often, each time after so many lines were stored to.
pub fn commits<C: Checkpoint>(
    store: &mut C,
    dev: &mut C::Device,
    kernel: &mut Kernel,
    text: &mut [u32],
    lines: u32,
    count: u32,
) -> Result<(), CheckFault>
    requires fits { 16 * lines < 2 ^ 32 }
    requires lines { 16 * lines ≤ C.size store.old }
    requires lent { C.lent store.old dev.old }
    requires ready { C.ready store.old dev.old }
    requires process { (kernel.old.n ≡ (C.form store.old).n) × (kernel.old.p ≡ (C.form store.old).p) }
    requires long { length text.old ≡ kernel_words kernel.old.n }
    requires number { C.number store.old ≡ kernel.old.commit }
    requires more { kernel.old.commit + count < 2 ^ 32 }
    ensures same { IsSame C.Checkpoint store.old store.new }
    ensures lent { C.lent store.new dev.new }
{
    for _ in 0..count {
        commit(store, dev, kernel, text, lines)?;
    }
    Ok(())
}

/// A kernel of one process, of the first commit, with room for its text.
pub fn first(alloc: Global) -> Result<(Kernel, Vec<u32>), AllocError>
    ensures kernel { IfOk result (λ made. (made.0.n ≡ 1) × (made.0.p ≡ 0) × (made.0.commit ≡ 1)) }
    ensures long { IfOk result (λ made. length made.1.items ≡ kernel_words 1) }
{
    let mut kernel = Kernel::new(alloc, 1, 0)?;
    kernel.set_commit(1);
    Ok((kernel, vec![in alloc; 0; kernel_words(1)]?))
}

/// A store of one process with a memory of so many pages of 1024 words.
pub fn made<C: Checkpoint + Drop>(
    alloc: Global,
    dev: &mut C::Device,
    kernel: &Kernel,
    pages: u32,
) -> Option<C>
    requires kernel { (kernel.now.n ≡ 1) × (kernel.now.p ≡ 0) × (kernel.now.commit ≡ 1) }
    requires pages { pages ≤ 256 }
    ensures lent { IfSome result (λ store. C.lent store dev.new) }
    ensures ready { IfSome result (λ store. C.ready store dev.new) }
    ensures size { IfSome result (λ store. C.size store ≡ 1024 * pages) }
    ensures n { IfSome result (λ store. (C.form store).n ≡ 1) }
    ensures p { IfSome result (λ store. (C.form store).p ≡ 0) }
    ensures number { IfSome result (λ store. (C.number store ≡ 1) × (C.logged store ≡ 0)) }
{
    let Ok(mut text) = vec![in alloc; 0; kernel_words(1)] else {
        return None;
    };
    kernel.encode(&mut text);
    let Ok(memory) = vec![in alloc; 0; (1024 * pages) as usize] else {
        return None;
    };
    match C::format(alloc, dev, 0, memory, text) {
        Ok((store, false)) => Some(store),
        _ => None,
    }
}

/// Where so many loads of a store lead.
pub fn load<C: Checkpoint + Drop>(
    alloc: Global,
    dev: &mut C::Device,
    pages: u32,
    count: u32,
) -> Option<u32>
    requires some { 0 < pages }
    requires pages { pages ≤ 256 }
{
    let Ok((kernel, _text)) = first(alloc) else {
        return None;
    };
    let store = made::<C>(alloc, dev, &kernel, pages)?;
    Some(loads(&store, dev, 1024 * pages, count))
}

/// Where so many reads of a vector lead.
pub fn read(alloc: Global, pages: u32, count: u32) -> Option<u32>
    requires some { 0 < pages }
    requires pages { pages ≤ 256 }
{
    let Ok(words) = vec![in alloc; 0; (1024 * pages) as usize] else {
        return None;
    };
    Some(reads(&words, 1024 * pages, count))
}

/// The number of the last of so many commits, each after so many lines were stored to.
pub fn commit_often<C: Checkpoint + Drop>(
    alloc: Global,
    dev: &mut C::Device,
    pages: u32,
    lines: u32,
    count: u32,
) -> Option<u32>
    requires pages { pages ≤ 256 }
    requires lines { lines ≤ 64 * pages }
    requires count { count < 2 ^ 31 }
{
    let Ok((mut kernel, mut text)) = first(alloc) else {
        return None;
    };
    let mut store = made::<C>(alloc, dev, &kernel, pages)?;
    match commits(&mut store, dev, &mut kernel, &mut text, lines, count) {
        Ok(()) => Some(kernel.commit()),
        Err(_fault) => None,
    }
}

/// Recovers so often.
fn recoveries<C: Checkpoint>(
    store: &mut C,
    dev: &mut C::Device,
    saved: &mut Saved,
    count: u32,
) -> Result<(), CheckFault>
    requires lent { C.lent store.old dev.old }
    requires fit { IsFit (C.form store.old) saved.old }
{
    for _ in 0..count {
        store.recover(dev, 0, saved)?;
    }
    Ok(())
}

/// The number of the state that the last of so many recoveries found, after a commit with so many lines stored to.
pub fn recover_often<C: Checkpoint + Drop>(
    alloc: Global,
    dev: &mut C::Device,
    pages: u32,
    lines: u32,
    count: u32,
) -> Option<u32>
    requires pages { pages ≤ 256 }
    requires lines { lines ≤ 64 * pages }
{
    let Ok((mut kernel, mut text)) = first(alloc) else {
        return None;
    };
    let mut store = made::<C>(alloc, dev, &kernel, pages)?;
    if commits(&mut store, dev, &mut kernel, &mut text, lines, 1).is_err() {
        return None;
    }
    let Ok(again) = Kernel::new(alloc, 1, 0) else {
        return None;
    };
    let Ok(mut saved) = Saved::new(alloc, again) else {
        return None;
    };
    match recoveries(&mut store, dev, &mut saved, count) {
        Ok(()) => Some(saved.kernel.commit()),
        Err(_fault) => None,
    }
}
