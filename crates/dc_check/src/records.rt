ghost use Rattle.std.specs.Prelude.{◌≡◌, ◌∷◌, [], IfSome, None, Some, is_some};
ghost use Rattle.dc_check.specs.Records.{is_body, is_hex, is_hex_text, is_hex_word, is_word, numbers_in};
ghost use Rattle.dc_words.specs.Hex.{value_of};
ghost use Rattle.dc_words.specs.Texts.{fields_of};

use dc_words::{first_field, read_number};

/// Whether all its bytes are hexadecimal digits in lower case.
fn is_hex(text: &[u8]) -> bool
    ensures { result ≡ is_hex text.now }
{
    text.iter().all(|c| is_digit(*c))
}

/// Whether a byte is a hexadecimal digit in lower case.
fn is_digit(c: u8) -> bool
    ensures { result ≡ is_some (value_of c) }
{
    matches!(c, b'0'..=b'9' | b'a'..=b'f')
}

/// Whether it is the text of an output of at most 256 bytes.
fn is_hex_text(text: &[u8]) -> bool
    ensures { result ≡ is_hex_text text.now }
{
    text == b"-".as_slice()
        || (is_hex(text) && text.len() % 2 == 0 && !text.is_empty() && text.len() <= 512)
}

/// Whether it is a word in hexadecimal.
fn is_hex_word(text: &[u8]) -> bool
    ensures { result ≡ is_hex_word text.now }
{
    is_hex(text) && text.len() == 8
}

/// Whether it is a word in decimal.
fn is_word(text: &[u8]) -> bool
    ensures { result ≡ is_word text.now }
{
    read_number(text, u64::from(u32::MAX)).is_ok()
}

/// Whether a record of that name may show this, where it has no blank.
fn is_alone(name: &[u8], body: &[u8]) -> bool
    ensures { result ≡ is_body name.now (body.now ∷ []) }
{
    (name == b"out".as_slice() && is_hex_text(body)) || (name == b"end".as_slice() && is_word(body))
}

/// Whether a record of that name may show this cause and pc.
fn is_trap(name: &[u8], cause: &[u8], pc: &[u8]) -> bool
    ensures { result ≡ is_body name.now (cause.now ∷ pc.now ∷ []) }
{
    name == b"trap".as_slice() && is_word(cause) && is_hex_word(pc)
}

/// Whether a record of that name may show this.
fn is_body(name: &[u8], body: &[u8]) -> bool
    ensures { result ≡ is_body name.now (fields_of 32 body.now) }
{
    let Some((cause, pc)) = first_field(b' ', body) else {
        return is_alone(name, body);
    };
    match first_field(b' ', pc) {
        Some(_) => false,
        None => is_trap(name, cause, pc),
    }
}

/// Process and number, as they are written, of the record whose line this is; nothing of a line that is no record's.
pub fn numbers_in(line: &[u8]) -> Option<&[u8]>
    ensures some { IfSome result (λ numbers. numbers_in line.now ≡ Some numbers.now) }
    ensures none { result ≡ None → numbers_in line.now ≡ None }
{
    let (name, rest) = first_field(b' ', line)?;
    let (p, after) = first_field(b' ', rest)?;
    let (k, body) = first_field(b' ', after)?;
    if is_word(p) && is_word(k) && is_body(name, body) {
        Some(&rest[..p.len() + 1 + k.len()])
    } else {
        None
    }
}
