ghost use Rattle.std.specs.Prelude.{◌≡◌, ◌≤◌, ◌<◌, ◌+◌, ◌*◌, ◌/◌, ◌%◌, ◌^◌, IfErr, IfSome, OnOk, drop, length, slice_index, take};
ghost use Rattle.dc_media.specs.Told.{Becomes};
ghost use Rattle.dc_rv32.specs.Stores.{BreakOff, Follow, touched};
ghost use Rattle.dc_rv32.specs.Bytes.{with_bytes};
ghost use Rattle.dc_words.specs.Words.{bytes_in, word_at, word_bytes};

use crate::Bus;
use crate::memory::{bits_at, put};

/// The byte at an address.
fn byte_at<B: Bus>(bus: &B, at: u32) -> u8
    requires at { at < 4 * B.count bus.now }
    requires live { B.live bus.now }
    ensures { IfSome (B.told bus.now) (λ words. result ≡ slice_index (bytes_in words) at) }
{
    (bits_at(bus, at) & 0xff) as u8
}

/// Fills `to` with the bytes of the memory from an address on.
pub fn read_bytes<B: Bus>(bus: &B, from: u32, to: &mut [u8])
    requires within { from + length to.old ≤ 4 * B.count bus.now }
    requires short { from + length to.old < 2 ^ 32 }
    requires live { B.live bus.now }
    ensures { IfSome (B.told bus.now) (λ words. to.new ≡ take (length to.old) (drop from (bytes_in words))) }
{
    for (i, byte) in to.iter_mut().enumerate() {
        *byte = byte_at(bus, from + i as u32);
    }
}

/// The word at an address, the lowest byte first. Where the address is a multiple of four it is one word of the memory.
pub fn word_from<B: Bus>(bus: &B, at: u32) -> u32
    requires within { at + 4 ≤ 4 * B.count bus.now }
    requires short { at + 4 < 2 ^ 32 }
    requires live { B.live bus.now }
    ensures { IfSome (B.told bus.now) (λ words. result ≡ word_at (bytes_in words) at) }
{
    if at % 4 == 0 {
        return bits_at(bus, at);
    }
    let mut bytes = [0; 4];
    read_bytes(bus, at, &mut bytes);
    u32::from_le_bytes(bytes)
}

/// Stores bytes that lie in one word.
fn put_bytes<B: Bus>(bus: &mut B, at: u32, bytes: &[u8]) -> Result<(), B::Stop>
    requires some { 0 < length bytes.now }
    requires one_word { at % 4 + length bytes.now ≤ 4 }
    requires within { at < 4 * B.count bus.old }
    requires live { B.live bus.old }
    ensures written { OnOk result (Becomes (B.told bus.old) (B.told bus.new) (λ before after. bytes_in after ≡ with_bytes (bytes_in before) at bytes.now)) }
    ensures count { B.count bus.new ≡ B.count bus.old }
    ensures live { OnOk result (B.live bus.new) }
    ensures made { OnOk result (B.made bus.old (at / 4) bus.new) }
    ensures refused { IfErr result (λ why. B.refused bus.old (at / 4) bus.new why) }
{
    put(bus, at, packed(bytes), bytes.len() as u32)
}

/// The word whose first bytes these are, the lowest first, the others being zero.
fn packed(bytes: &[u8]) -> u32
    requires word { length bytes.now ≤ 4 }
    ensures { take (length bytes.now) (word_bytes result) ≡ bytes.now }
{
    match *bytes {
        [] => 0,
        [a] => u32::from_le_bytes([a, 0, 0, 0]),
        [a, b] => u32::from_le_bytes([a, b, 0, 0]),
        [a, b, c] => u32::from_le_bytes([a, b, c, 0]),
        [a, b, c, d, ..] => u32::from_le_bytes([a, b, c, d]),
    }
}

/// Puts bytes into the memory from an address on: one store for each word that they touch, the lowest first, up to one that is refused.
pub fn write_bytes<B: Bus>(bus: &mut B, at: u32, bytes: &[u8]) -> Result<(), B::Stop>
    requires within { at + length bytes.now ≤ 4 * B.count bus.old }
    requires short { at + length bytes.now < 2 ^ 32 }
    requires live { B.live bus.old }
    ensures written { OnOk result (Becomes (B.told bus.old) (B.told bus.new) (λ before after. bytes_in after ≡ with_bytes (bytes_in before) at bytes.now)) }
    ensures count { B.count bus.new ≡ B.count bus.old }
    ensures live { OnOk result (B.live bus.new) }
    ensures made { OnOk result (Follow B.made (touched at (length bytes.now)) bus.old bus.new) }
    ensures refused { IfErr result (λ why. BreakOff B.made B.refused (touched at (length bytes.now)) bus.old bus.new why) }
{
    let mut at = at;
    let mut rest = bytes;
    while !rest.is_empty() {
        let count = rest.len().min(4 - at as usize % 4);
        let (piece, after) = rest.split_at(count);
        put_bytes(bus, at, piece)?;
        at += count as u32;
        rest = after;
    }
    Ok(())
}
