//! Numbers in lists.

/// The number at an index of a list, 0 where there is none.
pub fn at(list: &[u64], i: usize) -> u64 {
    list.get(i).copied().unwrap_or(0)
}

/// That number in 32 bits.
pub fn small(list: &[u64], i: usize) -> u32 {
    at(list, i).min(0xffff_ffff) as u32
}
