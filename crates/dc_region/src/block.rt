//! The block that the words lie in: a row of cells, each empty or holding a word.
ghost use Rattle.std.specs.Prelude.{◌≡◌, ℕ, ◌*◌, ◌^◌, ◌<◌, List, Option, Some, None, map, length, replicate, get_or, slice_set, IfOk};
ghost use base.Fml.{ftrue};
ghost use denote.RawPtr.{Ptr};
ghost use Rattle.dc_region.specs.Ownership.{words_own, words_lent, deed_owns};
ghost use Rattle.dc_region.specs.Cells.{IsFilled, AreFilled};

use std::alloc::{AllocError, Allocator};
use std::marker::{Model, PhantomData};
use std::mem::{align_of, size_of};
use std::slice;

/// Where the block begins. It owns nothing.
#[derive(Clone, Copy)]
pub struct Base {
    ptr: *mut u32,
}

/// The owner of the cells. It takes no space: the region holds the pointer and the length.
pub struct Words {
    mark: PhantomData<*const u32>,
    ghost at: { Ptr },
    ghost slots: { List (Option ℕ) },
}

impl Model for Words {
    ghost also_owns = { λ w. words_own w.at w.slots };

    ghost also_shares = { λ w _ κ. words_lent w.at w.slots κ };
}

/// The right to give the block of `len` cells at `at` back to `alloc`. It takes no space.
pub struct Deed<A: Allocator> {
    mark: PhantomData<*const A>,
    ghost at: { Ptr },
    ghost len: { ℕ },
    ghost alloc: { A },
}

impl<A: Allocator> Model for Deed<A> {
    ghost also_owns = { λ d. deed_owns (A.dealloc_token d.alloc) d.at d.len };

    ghost also_shares = { λ _ _ _. ftrue };
}

/// Takes a block with room for `len` words. Each cell is empty.
pub(crate) fn allocate<A: Allocator>(
    alloc: &A,
    len: usize,
) -> Result<(Base, Words, Deed<A>), AllocError>
    requires { len * 4 < 2 ^ 63 }
    ensures { IfOk result (λ r. (r.1.at ≡ r.0.ptr) × (r.1.slots ≡ replicate len None) × (r.2.at ≡ r.0.ptr) × (r.2.len ≡ len) × (r.2.alloc ≡ alloc.now)) }
{
    match alloc.allocate(len * size_of::<u32>(), align_of::<u32>()) {
        Ok(block) => {
            let base = Base {
                ptr: block as *mut u32,
            };
            Ok((
                base,
                Words { mark: PhantomData },
                Deed { mark: PhantomData },
            ))
        }
        Err(error) => Err(error),
    }
}

/// Gives the block back, whatever its cells hold.
pub(crate) fn deallocate<A: Allocator>(
    alloc: &A,
    base: Base,
    len: usize,
    words: Words,
    deed: Deed<A>,
)
    requires { (words.at ≡ base.ptr) × (length words.slots ≡ len) × (deed.at ≡ base.ptr) × (deed.len ≡ len) × (deed.alloc ≡ alloc.now) }
{
    let Words { mark: _ } = words;
    let Deed { mark: _ } = deed;
    unsafe {
        alloc.deallocate(
            base.ptr as *mut u8,
            len * size_of::<u32>(),
            align_of::<u32>(),
        );
    }
}

impl Words {
    /// Puts a word into the cell at an index, which may hold one already.
    pub(crate) fn put(&mut self, base: Base, index: usize, word: u32)
        requires { (base.ptr ≡ self.old.at) × (index < length self.old.slots) }
        ensures { (self.new.at ≡ self.old.at) × (self.new.slots ≡ slice_set self.old.slots index (Some word)) }
    {
        unsafe { base.ptr.add(index).write(word) }
    }

    /// The word in the cell at an index.
    pub(crate) fn get(&self, base: Base, index: usize) -> u32
        requires { (base.ptr ≡ self.now.at) × IsFilled self.now.slots index }
        ensures { get_or self.now.slots index None ≡ Some result }
    {
        unsafe { *base.ptr.add(index) }
    }

    /// All the words, where each of the `len` cells holds one.
    pub(crate) fn all(&self, base: Base, len: usize) -> &[u32]
        requires { (base.ptr ≡ self.now.at) × AreFilled self.now.slots len }
        ensures { self.now.slots ≡ map Some result.now }
    {
        unsafe { slice::from_raw_parts(base.ptr, len) }
    }
}
