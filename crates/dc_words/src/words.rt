ghost use Rattle.std.specs.Prelude.{◌≡◌, ◌*◌, ◌%◌, ◌^◌, IfOk, List, ℕ, length};
ghost use Rattle.dc_words.specs.Words.{AllBelow, bytes_in, words_in};

use byteorder::{ByteOrder, LittleEndian};
use std::alloc::{AllocError, Global};

/// Fills `to` with the words of the bytes, the lowest byte of each first.
pub fn words_of(bytes: &[u8], to: &mut [u32])
    requires { length bytes.now ≡ 4 * length to.old }
    ensures { to.new ≡ words_in bytes.now }
{
    LittleEndian::read_u32_into(bytes, to);
}

/// The words of the bytes, the lowest byte of each first.
pub fn to_words(alloc: Global, bytes: &[u8]) -> Result<Vec<u32>, AllocError>
    requires { length bytes.now % 4 ≡ 0 }
    ensures exact { IfOk result (λ words. words.items ≡ words_in bytes.now) }
    ensures words { IfOk result (λ words. bytes_in words.items ≡ bytes.now) }
    ensures long { IfOk result (λ words. 4 * length words.items ≡ length bytes.now) }
{
    let mut words = vec![in alloc; 0; bytes.len() / 4]?;
    words_of(bytes, &mut words);
    Ok(words)
}

/// Fills `to` with the bytes of the words, the lowest of each first.
pub fn bytes_of(words: &[u32], to: &mut [u8])
    requires { length to.old ≡ 4 * length words.now }
    ensures { to.new ≡ bytes_in words.now }
{
    LittleEndian::write_u32_into(words, to);
}

/// The words of the bytes of words are these words, and the bytes of the words of whole words are these bytes.
pub fn bytes_and_words_go_both_ways()
    ensures words { (words : List ℕ) → AllBelow (2 ^ 32) words → words_in (bytes_in words) ≡ words }
    ensures bytes { (bytes : List ℕ) → AllBelow (2 ^ 8) bytes → length bytes % 4 ≡ 0 → bytes_in (words_in bytes) ≡ bytes }
{}
