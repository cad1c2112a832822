//! Numbers in texts.

use crate::holding::holds;
use dc_checkpoint::{CheckFault, StoreFault};
use std::alloc::Global;
use std::test::Fail;

/// A fault as a number.
pub fn code(fault: CheckFault) -> u64 {
    match fault {
        CheckFault::Stopped => 1,
        CheckFault::Failed => 2,
        CheckFault::Refused(StoreFault::Header) => 3,
        CheckFault::Refused(StoreFault::Kernel) => 4,
        CheckFault::Refused(StoreFault::Record(k)) => 10 + u64::from(k),
    }
}

/// A number, or an answer as one. `all` is the mask of all bits, and a record is told as `record-K`.
fn number(word: &str) -> Result<u64, Fail> {
    match word {
        "ok" => Ok(0),
        "stopped" => Ok(1),
        "failed" => Ok(2),
        "header" => Ok(3),
        "kernel" => Ok(4),
        "all" => Ok(0xffff_ffff),
        _ => record(word),
    }
}

fn record(word: &str) -> Result<u64, Fail> {
    match word.strip_prefix("record-") {
        Some(k) => Ok(10 + u64::from(k.parse::<u32>()?)),
        None => Ok(word.parse::<u64>()?),
    }
}

pub fn numbers(alloc: Global, text: &str) -> Result<Vec<u64>, Fail> {
    let mut list = Vec::new(alloc);
    for word in text.split_whitespace() {
        list.push(number(word)?)?;
    }
    Ok(list)
}

pub fn small(n: u64) -> u32 {
    n.min(0xffff_ffff) as u32
}

pub fn at(args: &[u64], i: usize) -> u64 {
    args.get(i).copied().unwrap_or(0)
}

/// What stands behind a key in a line of a case.
pub fn field<'a>(case: &'a str, key: &str) -> Result<&'a str, Fail> {
    for line in case.lines() {
        if let Some(value) = line.strip_prefix(key) {
            return Ok(value);
        }
    }
    Err(Fail::new(key))
}
