ghost use Rattle.std.specs.Prelude.{◌≡◌, ◌<◌, ◌≤◌};
ghost use Rattle.dc_words.specs.Texts.{fields_of};
ghost use Rattle.dc_audit.specs.Reading as reading;

use crate::journal::Deed;
use dc_words::{NumberFault, first_field, read_number};

/// A number of any length. One of 2^32 - 1 or more counts as that, which is no process, and no message's number.
pub fn capped(text: &[u8]) -> Option<u32>
    ensures { result ≡ reading.capped text.now }
{
    match read_number(text, u64::from(u32::MAX)) {
        Ok(value) => Some(value as u32),
        Err(NumberFault::Range) => Some(u32::MAX),
        Err(NumberFault::NotNumber) => None,
    }
}

/// What a process did, where one field says it.
fn deed_of_one(text: &[u8]) -> Option<Deed>
    ensures { result ≡ reading.deed_of_one text.now }
{
    if text == b"nd".as_slice() {
        return Some(Deed::Chance);
    }
    if text == b"logged".as_slice() {
        return Some(Deed::Logged);
    }
    if text == b"visible".as_slice() {
        return Some(Deed::Visible);
    }
    None
}

/// Whether the receipt of a message was logged.
fn logging(text: &[u8]) -> Option<bool>
    ensures { result ≡ reading.logging_of text.now }
{
    if text == b"nd".as_slice() {
        return Some(false);
    }
    if text == b"logged".as_slice() {
        return Some(true);
    }
    None
}

/// What a process did, where three fields say it: it sent a message.
fn deed_of_three(name: &[u8], q: &[u8], k: &[u8]) -> Option<Deed>
    ensures { result ≡ reading.deed_of_three name.now q.now k.now }
{
    if name != b"send".as_slice() {
        return None;
    }
    let q = capped(q)?;
    let k = capped(k)?;
    Some(Deed::Sends(q, k))
}

/// What a process did, where four fields say it: it received a message.
fn deed_of_four(name: &[u8], s: &[u8], k: &[u8], logged: &[u8]) -> Option<Deed>
    ensures { result ≡ reading.deed_of_four name.now s.now k.now logged.now }
{
    if name != b"receive".as_slice() {
        return None;
    }
    let s = capped(s)?;
    let k = capped(k)?;
    let logged = logging(logged)?;
    Some(Deed::Receives(s, k, logged))
}

/// What a process did, by the text behind its number.
pub fn read_deed(text: &[u8]) -> Option<Deed>
    ensures { result ≡ reading.deed_of (fields_of 32 text.now) }
{
    let Some((name, rest)) = first_field(b' ', text) else {
        return deed_of_one(text);
    };
    let (second, rest) = first_field(b' ', rest)?;
    let Some((third, rest)) = first_field(b' ', rest) else {
        return deed_of_three(name, second, rest);
    };
    match first_field(b' ', rest) {
        Some(_) => None,
        None => deed_of_four(name, second, third, rest),
    }
}
