//! Contents that nobody wrote so, and what a recovery makes of them.

use super::texts::numbers;
use super::trial::{Trial, answers, lines_hold, made_of};
use crate::holding::holds;
use std::alloc::Global;
use std::test::Fail;

/// Where the parts of a segment of one page and one process begin: the header, the body, the kernel, the log, the numbers of the undo lines,
/// and these.
fn part(letter: &str) -> Result<u32, Fail> {
    match letter {
        "h" => Ok(0),
        "b" => Ok(16),
        "k" => Ok(1040),
        "l" => Ok(1232),
        "n" => Ok(2640),
        "u" => Ok(2716),
        _ => Err(Fail::new(letter)),
    }
}

/// The index of a word that is told as its part and its index there.
fn index(at: &str) -> Result<u64, Fail> {
    let (letter, i) = at.split_at_checked(1).unwrap_or(("", ""));
    Ok(u64::from(part(letter)?) + u64::from(i.parse::<u32>()?))
}

fn put<T: Trial>(trial: &mut T, alloc: Global, i: u64, w: u64) -> Result<(), Fail>
    requires { T.fits trial.old }
    ensures { T.fits trial.new }
{
    let answer = trial.call(alloc, "put", &[i, w])?;
    holds(
        answer.as_slice() == [0].as_slice(),
        "a word that is written",
    )
}

/// One word in so many slots.
fn put_run<T: Trial>(trial: &mut T, alloc: Global, i: u64, w: u64, count: u32) -> Result<(), Fail>
    requires { T.fits trial.old }
    ensures { T.fits trial.new }
{
    for k in 0..count {
        put(trial, alloc, i.saturating_add(u64::from(k)), w)?;
    }
    Ok(())
}

/// A word of a row.
fn put_told<T: Trial>(trial: &mut T, alloc: Global, word: &str) -> Result<(), Fail>
    requires { T.fits trial.old }
    ensures { T.fits trial.new }
{
    let Some((at, value)) = word.split_once('=') else {
        return Err(Fail::new(word));
    };
    let (w, count) = value.split_once('*').unwrap_or((value, "1"));
    put_run(
        trial,
        alloc,
        index(at)?,
        w.parse::<u64>()?,
        count.parse::<u32>()?,
    )
}

fn put_all<T: Trial>(trial: &mut T, alloc: Global, words: &str) -> Result<(), Fail>
    requires { T.fits trial.old }
    ensures { T.fits trial.new }
{
    for word in words.split_whitespace() {
        put_told(trial, alloc, word)?;
    }
    Ok(())
}

/// What is read under a decided number. A refusal makes no call of the device, and leaves all words as they were.
fn recovers<T: Trial>(trial: &mut T, alloc: Global, d: &str, want: &str) -> Result<(), Fail>
    requires { T.fits trial.old }
    ensures { T.fits trial.new }
{
    answers(trial, alloc, "keep", "ok")?;
    let _before = trial.call(alloc, "calls", &[])?;
    let answer = trial.call(alloc, "state", &numbers(alloc, d)?)?;
    holds(answer.as_slice() == numbers(alloc, want)?.as_slice(), want)?;
    if answer.first().copied() == Some(0) {
        return Ok(());
    }
    answers(trial, alloc, "calls", "0")?;
    answers(trial, alloc, "differences", "0")
}

fn row_holds<T: Trial>(alloc: Global, base: &str, row: &str) -> Result<(), Fail> {
    let Some((words, rest)) = row.split_once('|') else {
        return Err(Fail::new(row));
    };
    let (d, want) = rest.split_once('|').unwrap_or((rest, ""));
    let Some(mut trial) = made_of::<T>(alloc, base, Vec::new(alloc))? else {
        return Err(Fail::new(base));
    };
    lines_hold(&mut trial, alloc, base)?;
    put_all(&mut trial, alloc, words)?;
    recovers(&mut trial, alloc, d, want)
}

/// Each row of a table, over what its first lines make.
pub fn rows_hold<T: Trial>(alloc: Global, base: &str, rows: &str) -> Result<(), Fail> {
    for row in rows.lines() {
        if !row.starts_with("# ") {
            row_holds::<T>(alloc, base, row)?;
        }
    }
    Ok(())
}
