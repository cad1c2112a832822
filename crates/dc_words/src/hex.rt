ghost use Rattle.std.specs.Prelude.{◌≡◌, ◌*◌, ◌≤◌, ◌<◌, ◌^◌, List, ℕ, IfOk, IfErr, IfSome, IsOk, None, Some, length, take};
ghost use Rattle.dc_words.specs.Hex.{byte_of_digits, bytes_of_hex, hex_digit, hex_of, value_of};
ghost use Rattle.dc_words.specs.Words.{AllBelow};

use thiserror::Error;

/// A hexadecimal digit in lower case.
fn digit(n: u8) -> u8
    requires { n ≤ 15 }
    ensures { result ≡ hex_digit n }
{
    if n < 10 { b'0' + n } else { b'a' + (n - 10) }
}

/// Fills `to` with the bytes in hexadecimal, two digits each.
pub fn hex_line(bytes: &[u8], to: &mut [u8])
    requires { length to.old ≡ 2 * length bytes.now }
    ensures { to.new ≡ hex_of bytes.now }
{
    for (i, byte) in bytes.iter().enumerate() {
        to[2 * i] = digit(*byte / 16);
        to[2 * i + 1] = digit(*byte % 16);
    }
}

/// A text that is not the text of bytes in hexadecimal: it has a character outside `0` to `9` and `a` to `f`, or an odd count of them.
#[derive(Clone, Copy, Debug, PartialEq, Eq, Error)]
#[error("not hexadecimal")]
pub struct NotHex;

/// The value of a hexadecimal digit in lower case.
fn value(c: u8) -> Option<u8>
    ensures value { result ≡ value_of c }
    ensures small { IfSome result (λ n. n < 16) }
{
    match c {
        b'0'..=b'9' => Some(c - b'0'),
        b'a'..=b'f' => Some(c - b'a' + 10),
        _ => None,
    }
}

/// The byte of two digits, the higher first.
fn byte(high: u8, low: u8) -> Option<u8>
    ensures { result ≡ byte_of_digits (value_of high) (value_of low) }
{
    let high = value(high)?;
    let low = value(low)?;
    Some(16 * high + low)
}

/// Fills the front of `to` with the bytes of a hexadecimal text, and answers how many they are. Capitals are no hexadecimal digits.
/// Where the text is refused, the front of `to` may have changed.
pub fn read_hex(text: &[u8], to: &mut [u8]) -> Result<usize, NotHex>
    requires { length text.now ≤ 2 * length to.old }
    // What is read is written so, and what is written is read.
    ensures found { IfOk result (λ n. (text.now ≡ hex_of (take n to.new)) × (2 * n ≡ length text.now)) }
    ensures only { (bytes : List ℕ) → AllBelow (2 ^ 8) bytes → text.now ≡ hex_of bytes → IsOk result }
    ensures exact { IfOk result (λ n. bytes_of_hex text.now ≡ Some (take n to.new)) }
    ensures refused { IfErr result (λ _. bytes_of_hex text.now ≡ None) }
    ensures length { length to.new ≡ length to.old }
{
    read_pairs(text, to)
}

fn read_pairs(text: &[u8], to: &mut [u8]) -> Result<usize, NotHex>
    requires { length text.now ≤ 2 * length to.old }
    ensures exact { IfOk result (λ n. (bytes_of_hex text.now ≡ Some (take n to.new)) × (2 * n ≡ length text.now)) }
    ensures refused { IfErr result (λ _. bytes_of_hex text.now ≡ None) }
    ensures length { length to.new ≡ length to.old }
{
    let mut count = 0;
    let mut rest = text;
    while let [high, low, after @ ..] = rest {
        let Some(byte) = byte(*high, *low) else {
            return Err(NotHex);
        };
        to[count] = byte;
        count += 1;
        rest = after;
    }
    if rest.is_empty() {
        Ok(count)
    } else {
        Err(NotHex)
    }
}
