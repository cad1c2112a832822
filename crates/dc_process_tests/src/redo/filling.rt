//! A half is filled by commits of lines, and the next commit begins the other one.

use crate::holding::holds;
use crate::vista::texts::field;
use crate::vista::trial::{Trial, answers, lines_hold, made_of};
use std::alloc::Global;
use std::test::Fail;

/// What is so before the last commit of a half, and behind it. Memory has 16384 words, so a half has 144880 bytes and a whole state 66272; a
/// record of 13 lines has 904, the eightieth ends at 138592 and leaves 6288, and the next one would leave 5384.
pub const FILLED: &str = "\
segment 1 0 16
from 2
until 82
bytes 138592 1 = 0
bytes 137688 20 = 1 0 0 0 128 3 0 0 5 0 0 0 81 0 0 0 13 0 0 0
bytes 144880 1 = 0
state 0 = ok 81 810 0 0 81 16 81 32 81 48 81 64 81 80 81 96 81 112 81 128 81 144 81 160 81 176 81 16383 7
whole 82
by 4
bytes 138592 1 = 0
bytes 0 1 = 1
bytes 144880 16 = 1 0 0 0 216 2 1 0 1 0 0 0 82 0 0 0
bytes 211152 1 = 0
fall = ok
state 0 = ok 82 820 0 0 82 16 82 32 82 48 82 64 82 80 82 96 82 112 82 128 82 144 82 160 82 176 82 16383 7
";

/// The same in the half that was begun: the other one is open then, and is closed first.
pub const AGAIN: &str = "\
from 83
until 163
bytes 283472 1 = 0
bytes 282568 20 = 1 0 0 0 128 3 0 0 5 0 0 0 162 0 0 0 13 0 0 0
whole 163
by 6
bytes 0 16 = 1 0 0 0 216 2 1 0 1 0 0 0 163 0 0 0
bytes 66272 1 = 0
fall = ok
state 0 = ok 163 1630 0 0 163 16 163 32 163 48 163 64 163 80 163 96 163 112 163 128 163 144 163 160 163 176 163 16383 7
calls = 1
";

/// A call that is done.
fn done<T: Trial>(trial: &mut T, alloc: Global, verb: &str, args: &[u64]) -> Result<(), Fail>
    requires { T.fits trial.old }
    ensures { T.fits trial.new }
{
    let got = trial.call(alloc, verb, args)?;
    holds(got.as_slice() == [0].as_slice(), verb)
}

/// Stores to a word of each of twelve lines.
fn store_twelve<T: Trial>(trial: &mut T, alloc: Global, number: u64) -> Result<(), Fail>
    requires { T.fits trial.old }
    ensures { T.fits trial.new }
{
    for k in 0..12 {
        done(trial, alloc, "store", &[16 * k, number, 0xffff_ffff])?;
    }
    Ok(())
}

/// A commit of these, by so many calls of the disk.
fn commit_twelve<T: Trial>(trial: &mut T, alloc: Global, number: u64, by: &str) -> Result<(), Fail>
    requires { T.fits trial.old }
    ensures { T.fits trial.new }
{
    let _before = trial.call(alloc, "calls", &[])?;
    store_twelve(trial, alloc, number)?;
    done(trial, alloc, "commit", &[number])?;
    answers(trial, alloc, "calls", by)
}

/// One for each number, each by four calls.
fn commit_each<T: Trial>(trial: &mut T, alloc: Global, from: u32, until: u32) -> Result<(), Fail>
    requires { T.fits trial.old }
    ensures { T.fits trial.new }
{
    for k in from..until {
        commit_twelve(trial, alloc, u64::from(k), "4")?;
    }
    Ok(())
}

/// Commits up to a number, and one that is a whole state; what the text says before it, and behind it.
fn half_fills<T: Trial>(trial: &mut T, alloc: Global, text: &str) -> Result<(), Fail>
    requires { T.fits trial.old }
    ensures { T.fits trial.new }
{
    let from = field(text, "from ")?.parse::<u32>()?;
    let until = field(text, "until ")?.parse::<u32>()?;
    let Some((before, behind)) = text.split_once("whole ") else {
        return Err(Fail::new(text));
    };
    commit_each(trial, alloc, from, until)?;
    lines_hold(trial, alloc, before)?;
    commit_twelve(trial, alloc, u64::from(until), field(text, "by ")?)?;
    lines_hold(trial, alloc, behind)
}

/// One half is filled, and then the other one.
pub fn fills<T: Trial>(alloc: Global, first: &str, second: &str) -> Result<(), Fail> {
    match made_of::<T>(alloc, first, Vec::new(alloc))? {
        Some(mut trial) => {
            half_fills(&mut trial, alloc, first)?;
            half_fills(&mut trial, alloc, second)
        }
        None => Err(Fail::new(first)),
    }
}
