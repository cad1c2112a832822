//! Devices by calls and answers that are told as text. Each case has a name, its settings, and lines `call = answer`.

use dc_media::DeviceFault;
use std::alloc::Global;
use std::test::Fail;

pub fn holds(ok: bool, what: &str) -> Result<(), Fail> {
    if ok { Ok(()) } else { Err(Fail::new(what)) }
}

/// A number, or an answer as one.
fn number(word: &str) -> Result<u64, Fail> {
    match word {
        "ok" => Ok(0),
        "stopped" => Ok(1),
        "failed" => Ok(2),
        "memory" => Ok(3),
        _ => Ok(word.parse::<u64>()?),
    }
}

/// Adds a number, or one so many times, as `7*150`.
fn push_word(list: &mut Vec<u64>, word: &str) -> Result<(), Fail> {
    let (one, times) = word.split_once('*').unwrap_or((word, "1"));
    let one = number(one)?;
    for _ in 0..times.parse::<u32>()? {
        list.push(one)?;
    }
    Ok(())
}

pub fn numbers(alloc: Global, text: &str) -> Result<Vec<u64>, Fail> {
    let mut list = Vec::new(alloc);
    for word in text.split_whitespace() {
        push_word(&mut list, word)?;
    }
    Ok(list)
}

pub fn small(n: u64) -> u32 {
    n.min(0xffff_ffff) as u32
}

pub fn byte(n: u64) -> u8 {
    n.min(255) as u8
}

pub fn bytes(alloc: Global, numbers: &[u64]) -> Result<Vec<u8>, Fail> {
    let mut list = Vec::new(alloc);
    for n in numbers {
        list.push(byte(*n))?;
    }
    Ok(list)
}

pub fn words(alloc: Global, numbers: &[u64]) -> Result<Vec<u32>, Fail> {
    let mut list = Vec::new(alloc);
    for n in numbers {
        list.push(small(*n))?;
    }
    Ok(list)
}

/// An answer as a number.
pub fn code(answer: Result<(), DeviceFault>) -> u64 {
    match answer {
        Ok(()) => 0,
        Err(DeviceFault::Stopped) => 1,
        Err(DeviceFault::Failed) => 2,
    }
}

pub fn at(args: &[u64], i: usize) -> u64 {
    args.get(i).copied().unwrap_or(0)
}

/// The numbers behind each setting of this name.
pub fn settings(alloc: Global, lines: &str, name: &str) -> Result<Vec<Vec<u64>>, Fail> {
    let mut list = Vec::new(alloc);
    for line in lines.lines() {
        if let Some(args) = line.strip_prefix(name) {
            list.push(numbers(alloc, args)?)?;
        }
    }
    Ok(list)
}

/// A device that is called by name.
pub trait Rig: Sized + Drop {
    /// Before the calls of a case with these lines.
    fn new(alloc: Global, lines: &str) -> Result<Self, Fail>;

    /// The answer of a call.
    fn call(&mut self, alloc: Global, verb: &str, args: &[u64]) -> Result<Vec<u64>, Fail>;
}

/// One line of a case. A setting has no answer.
fn line_holds<R: Rig>(rig: &mut R, alloc: Global, line: &str) -> Result<(), Fail> {
    let Some((call, answer)) = line.split_once(" = ") else {
        let is_setting = ["listed ", "stop ", "refusal "]
            .iter()
            .any(|name| line.starts_with(*name));
        return holds(is_setting, line);
    };
    let (verb, args) = call.split_once(' ').unwrap_or((call, ""));
    let args = numbers(alloc, args)?;
    let want = numbers(alloc, answer)?;
    let got = rig.call(alloc, verb, &args)?;
    holds(got.as_slice() == want.as_slice(), line)
}

fn case_holds<R: Rig>(alloc: Global, lines: &str) -> Result<(), Fail> {
    let mut rig = R::new(alloc, lines)?;
    for line in lines.lines() {
        line_holds(&mut rig, alloc, line)?;
    }
    Ok(())
}

/// Each case of a text.
pub fn cases_hold<R: Rig>(alloc: Global, text: &str) -> Result<(), Fail> {
    for case in text.split("# ") {
        if let Some((_, lines)) = case.split_once('\n') {
            case_holds::<R>(alloc, lines)?;
        }
    }
    Ok(())
}
