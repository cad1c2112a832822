ghost use Rattle.std.specs.Prelude.{◌≡◌, ◌≤◌, ◌<◌, ◌+◌, ◌*◌, ◌-◌, ◌^◌, ◌++◌, ◌∷◌, ℕ, List, None, Ok, Some, IfOk, IfSome, SomeIff, decimal, false, true};
ghost use Rattle.std.specs.List.{list_all};
ghost use Rattle.dc_words.specs.Numbers.{can_begin, is_digit, number_of, past_by, value};

use thiserror::Error;

/// Why a text was not read as a number.
#[derive(Clone, Copy, Debug, PartialEq, Eq, Error)]
pub enum NumberFault {
    /// It is neither `0` nor a digit from 1 to 9 followed by digits.
    #[error("not a number")]
    NotNumber,
    /// It is a number over the greatest that is allowed, of any length.
    #[error("out of range")]
    Range,
}

fn is_digit(c: u8) -> bool
    ensures { result ≡ is_digit c }
{
    c >= b'0' && c <= b'9'
}

fn has_digits(text: &[u8]) -> bool
    ensures { result ≡ list_all is_digit text.now }
{
    text.iter().all(|c| *c >= b'0' && *c <= b'9')
}

fn can_begin(text: &[u8]) -> bool
    ensures { result ≡ can_begin text.now }
{
    match text {
        [] => false,
        [c, rest @ ..] => rest.is_empty() || *c != b'0',
    }
}

/// A value with a digit behind it, where that is not past the greatest.
fn with_digit(value: u64, c: u8, max: u64) -> Option<u64>
    requires digit { is_digit c ≡ true }
    ensures { SomeIff result (value * 10 + (c - 48) ≤ max) (value * 10 + (c - 48)) }
{
    if value > u64::MAX / 10 {
        return None;
    }
    let next = (value * 10).checked_add(u64::from(c - b'0'))?;
    if next > max { None } else { Some(next) }
}

/// What is wrong with a number that is past the greatest, by the bytes behind it.
fn past(rest: &[u8]) -> NumberFault
    ensures { result ≡ past_by (list_all is_digit rest.now) }
{
    if has_digits(rest) {
        NumberFault::Range
    } else {
        NumberFault::NotNumber
    }
}

/// A number in decimal, without sign and without leading zeros, up to a greatest one.
pub fn read_number(text: &[u8], max: u64) -> Result<u64, NumberFault>
    // What is read is written so, and what is written is read.
    ensures found { IfOk result (λ n. (text.now ≡ decimal n) × (n ≤ max)) }
    ensures only { (n : ℕ) → n ≤ max → text.now ≡ decimal n → result ≡ Ok n }
    // Which fault it is.
    ensures exact { result ≡ number_of max text.now }
{
    number_in(text, max)
}

fn number_in(text: &[u8], max: u64) -> Result<u64, NumberFault>
    ensures { result ≡ number_of max text.now }
{
    if !can_begin(text) {
        return Err(NumberFault::NotNumber);
    }
    let mut value: u64 = 0;
    let mut rest = text;
    while let [c, after @ ..] = rest {
        if !is_digit(*c) {
            return Err(NumberFault::NotNumber);
        }
        let Some(next) = with_digit(value, *c, max) else {
            return Err(past(after));
        };
        value = next;
        rest = after;
    }
    Ok(value)
}

/// What stands behind that byte, where a text begins with it.
fn behind(stop: u8, text: &[u8]) -> Option<&[u8]>
    ensures some { IfSome result (λ rest. text.now ≡ stop ∷ rest.now) }
    ensures none { result ≡ None → (rest : List ℕ) → text.now ≡ stop ∷ rest → ⊥ }
{
    match text {
        [c, rest @ ..] if *c == stop => Some(rest),
        _ => None,
    }
}

/// The number of the digits up to that byte, and what stands behind the byte.
fn number_up_to(stop: u8, max: u64, text: &[u8]) -> Option<(u64, &[u8])>
    requires apart { is_digit stop ≡ false }
    requires short { max < 2 ^ 60 }
    ensures some { IfSome result (λ x. (digits : List ℕ) × (list_all is_digit digits ≡ true) × (text.now ≡ digits ++ stop ∷ x.1.now) × (value digits ≡ x.0) × (x.0 ≤ max)) }
    ensures none { result ≡ None → (digits rest : List ℕ) → list_all is_digit digits ≡ true → value digits ≤ max → text.now ≡ digits ++ stop ∷ rest → ⊥ }
{
    let mut value: u64 = 0;
    let mut rest = text;
    while let [c, after @ ..] = rest {
        if !is_digit(*c) {
            return if *c == stop {
                Some((value, after))
            } else {
                None
            };
        }
        value = value * 10 + u64::from(*c - b'0');
        if value > max {
            return None;
        }
        rest = after;
    }
    None
}

/// The number that a text begins with, where it is up to a greatest one and that byte follows it, and what stands behind the byte. It is
/// read in one pass.
pub fn first_number(stop: u8, max: u64, text: &[u8]) -> Option<(u64, &[u8])>
    requires apart { is_digit stop ≡ false }
    requires short { max < 2 ^ 60 }
    ensures some { IfSome result (λ x. (text.now ≡ decimal x.0 ++ stop ∷ x.1.now) × (x.0 ≤ max)) }
    ensures none { result ≡ None → (n : ℕ) (rest : List ℕ) → n ≤ max → text.now ≡ decimal n ++ stop ∷ rest → ⊥ }
{
    let [c, after @ ..] = text else {
        return None;
    };
    if *c == b'0' {
        return Some((0, behind(stop, after)?));
    }
    if !is_digit(*c) {
        return None;
    }
    number_up_to(stop, max, text)
}
