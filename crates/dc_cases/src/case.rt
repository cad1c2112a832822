//! A case of a test: a name, and then lines `key=value`. In a value `~` stands for a line feed and `@` for 512 zeros.

use std::alloc::{AllocError, Global};
use std::test::Fail;

/// Fails with the name of a case and what does not hold of it.
pub fn holds(ok: bool, case: &str, what: &str) -> Result<(), Fail> {
    if ok {
        return Ok(());
    }
    Err(Fail::new(format_args!("{what}: {case}")))
}

/// The value of a key, or another one where the case does not say it.
pub fn value<'a>(case: &'a str, key: &str, other: &'a str) -> &'a str {
    for line in case.lines() {
        if let Some((name, value)) = line.split_once('=') {
            if name == key {
                return value;
            }
        }
    }
    other
}

/// Whether a case says a key.
pub fn says(case: &str, key: &str) -> bool {
    value(case, key, "-") == value(case, key, "+")
}

/// The value of a key as text.
pub fn text(alloc: Global, case: &str, key: &str, other: &str) -> Result<String, AllocError> {
    let zeros = "0".repeat(alloc, 512)?;
    let lines = value(case, key, other).replace(alloc, "~", "\n")?;
    lines.replace(alloc, "@", &zeros)
}

/// A word as a number.
pub fn as_u32(word: &str) -> Result<u32, Fail> {
    Ok(word.parse::<u32>()?)
}

/// A word as a larger number.
pub fn as_u64(word: &str) -> Result<u64, Fail> {
    Ok(word.parse::<u64>()?)
}

/// A word as a count or an index.
pub fn as_usize(word: &str) -> Result<usize, Fail> {
    Ok(word.parse::<usize>()?)
}

/// The value of a key as a number.
pub fn number(case: &str, key: &str, other: &str) -> Result<usize, Fail> {
    as_usize(value(case, key, other))
}

/// The numbers of a text.
pub fn numbers(alloc: Global, text: &str) -> Result<Vec<u64>, Fail> {
    let mut list = Vec::new(alloc);
    for word in text.split_whitespace() {
        list.push(as_u64(word)?)?;
    }
    Ok(list)
}

/// Each line of a case has one of these keys.
pub fn is_read(case: &str, keys: &str) -> Result<(), Fail> {
    for line in case.lines().skip(1) {
        let Some((name, _)) = line.split_once('=') else {
            return holds(false, case, "a line without =");
        };
        let known = keys.split_whitespace().any(|key| key == name);
        holds(known, case, "an unknown key")?;
    }
    Ok(())
}
