ghost use Rattle.std.specs.Prelude.{◌≡◌, ◌<◌, ◌≤◌, ◌*◌, length, drop};
ghost use Rattle.std.specs.List.{list_all};
ghost use Rattle.dc_kernel.specs.Faults.{kernel_fault, has_counts, has_status, is_entry, is_slot, is_status, is_zero};
ghost use Rattle.dc_kernel.specs.Layout.{entries_at, entry_words, kernel_words, parts, slot_words};
ghost use Rattle.dc_words.specs.Words.{bytes_in};

use crate::faults::KernelFault;
use crate::layout::{
    BYTES_AT, CODE_AT, ENTRIES_AT, ENTRY_WORDS, KEPT_AT, LENGTH_AT, N_AT, P_AT, PC_AT, SENT_AT,
    SLOT_COUNT, SLOT_WORDS, SLOTS_AT, STATUS_AT, VERSION, VERSION_AT, kernel_words,
};
use crate::status::GREATEST_CAUSE;
use dc_limits::{MESSAGE_BYTES, PROCESSES};
use dc_words::bytes_of;

fn is_zero(words: &[u32]) -> bool
    ensures { result ≡ is_zero words.now }
{
    words.iter().all(|word| *word == 0)
}

fn are_zero(bytes: &[u8]) -> bool
    ensures { result ≡ is_zero bytes.now }
{
    bytes.iter().all(|byte| *byte == 0)
}

/// The bytes of a slot.
pub fn slot_bytes(slot: &[u32]) -> [u8; MESSAGE_BYTES]
    requires { length slot.now ≡ slot_words }
    ensures { result ≡ bytes_in (drop 1 slot.now) }
{
    let mut bytes = [0; MESSAGE_BYTES];
    bytes_of(&slot[BYTES_AT..], &mut bytes);
    bytes
}

/// Whether a slot holds a message.
fn is_slot(slot: &[u32]) -> bool
    requires { length slot.now ≡ slot_words }
    ensures { result ≡ is_slot slot.now }
{
    let length = slot[LENGTH_AT] as usize;
    length <= MESSAGE_BYTES && are_zero(&slot_bytes(slot)[length..])
}

/// Whether each of the first slots holds a message.
fn are_slots(kept: u32, slots: &[u32]) -> bool
    requires { slot_words * kept ≤ length slots.now }
    ensures { result ≡ list_all is_slot (parts kept slot_words slots.now) }
{
    let mut rest = slots;
    for _ in 0..kept {
        let (slot, others) = rest.split_at(SLOT_WORDS);
        if !is_slot(slot) {
            return false;
        }
        rest = others;
    }
    true
}

/// Whether an entry has counts that fit, messages in its first slots, and zeros behind them.
fn is_entry(entry: &[u32]) -> bool
    requires { length entry.now ≡ entry_words }
    ensures { result ≡ is_entry entry.now }
{
    let kept = entry[KEPT_AT];
    if kept > SLOT_COUNT as u32 {
        return false;
    }
    if kept > entry[SENT_AT] {
        return false;
    }
    let end = SLOTS_AT + kept as usize * SLOT_WORDS;
    are_slots(kept, &entry[SLOTS_AT..]) && is_zero(&entry[end..])
}

/// Whether each of `n` entries is one.
fn are_entries(n: u32, entries: &[u32]) -> bool
    requires { length entries.now ≡ entry_words * n }
    ensures { result ≡ list_all is_entry (parts n entry_words entries.now) }
{
    let mut rest = entries;
    for _ in 0..n {
        let (entry, others) = rest.split_at(ENTRY_WORDS);
        if !is_entry(entry) {
            return false;
        }
        rest = others;
    }
    true
}

/// Whether words of the right number are of process `p` of `n`, with entries that are.
fn has_counts(n: u32, p: u32, words: &[u32]) -> bool
    requires few { n ≤ PROCESSES }
    requires one_of { p < n }
    requires long { length words.now ≡ kernel_words n }
    ensures { result ≡ has_counts n p words.now }
{
    if words[N_AT] != n {
        return false;
    }
    if words[P_AT] != p {
        return false;
    }
    let own = ENTRIES_AT + p as usize * ENTRY_WORDS;
    are_entries(n, &words[ENTRIES_AT..]) && is_zero(&words[own..own + ENTRY_WORDS])
}

fn is_status(status: u32, code: u32) -> bool
    ensures { result ≡ is_status status code }
{
    match status {
        0 => code == 0,
        1 => true,
        2 => code <= GREATEST_CAUSE,
        _ => false,
    }
}

fn has_status(words: &[u32]) -> bool
    requires { entries_at ≤ length words.now }
    ensures { result ≡ has_status words.now }
{
    is_status(words[STATUS_AT], words[CODE_AT]) && words[PC_AT] % 4 == 0
}

/// The first thing that is wrong with words as the text of a kernel of process `p` of `n`.
#[tactic(auto, unfolding(crate::specs::Faults::kernel_fault))]
pub fn fault_in(n: u32, p: u32, words: &[u32]) -> Option<KernelFault>
    requires few { n ≤ PROCESSES }
    requires one_of { p < n }
    ensures { result ≡ kernel_fault n p words.now }
{
    if words.len() != kernel_words(n) {
        return Some(KernelFault::Size);
    }
    if words[VERSION_AT] != VERSION {
        return Some(KernelFault::Version);
    }
    if !has_counts(n, p, words) {
        return Some(KernelFault::Count);
    }
    if !has_status(words) {
        return Some(KernelFault::Status);
    }
    None
}
