//! Cases that are told as text: calls by name, each with its answer.

ghost use Rattle.std.specs.Prelude.{IfOk, IfSome};

use super::texts::{at, field, numbers, small};
use crate::holding::holds;
use dc_memmedia::ListedCall;
use std::alloc::Global;
use std::test::Fail;

/// A store on a device that is called by name.
pub trait Trial: Sized + Drop {
    /// What it says of itself is so.
    ghost fits: { Self → Type 0 };

    /// A store of so many pages for process `p` of `n`, or none where the device failed.
    fn made(
        alloc: Global,
        n: u32,
        p: u32,
        pages: u32,
        listed: Vec<ListedCall>,
    ) -> Result<Option<Self>, Fail>
        ensures { IfOk result (λ made. IfSome made fits) };

    /// The answer of a call.
    fn call(&mut self, alloc: Global, verb: &str, args: &[u64]) -> Result<Vec<u64>, Fail>
        requires { fits self.old }
        ensures { fits self.new };

    /// How many calls its device had.
    fn made_calls(&self) -> u64
        requires { fits self.now };
}

/// A store that is made as a case says in its line `segment n p pages`, or none where the device failed.
pub fn made_of<T: Trial>(
    alloc: Global,
    case: &str,
    listed: Vec<ListedCall>,
) -> Result<Option<T>, Fail>
    ensures { IfOk result (λ made. IfSome made T.fits) }
{
    let of = numbers(alloc, field(case, "segment ")?)?;
    T::made(
        alloc,
        small(at(&of, 0)),
        small(at(&of, 1)),
        small(at(&of, 2)),
        listed,
    )
}

/// The answer of a call that is told with its arguments.
pub fn answer_of<T: Trial>(trial: &mut T, alloc: Global, call: &str) -> Result<Vec<u64>, Fail>
    requires { T.fits trial.old }
    ensures { T.fits trial.new }
{
    let (verb, args) = call.split_once(' ').unwrap_or((call, ""));
    let args = numbers(alloc, args)?;
    trial.call(alloc, verb, &args)
}

/// A call answers these numbers.
pub fn answers<T: Trial>(trial: &mut T, alloc: Global, call: &str, want: &str) -> Result<(), Fail>
    requires { T.fits trial.old }
    ensures { T.fits trial.new }
{
    let got = answer_of(trial, alloc, call)?;
    is_list(alloc, &got, want, call)
}

fn is_list(alloc: Global, got: &[u64], want: &str, what: &str) -> Result<(), Fail> {
    let want = numbers(alloc, want)?;
    holds(got == want.as_slice(), what)
}

/// What begins a line of a case that tells no call.
const KEYS: [&str; 12] = [
    "segment ", "try ", "calls ", "under ", "half ", "old ", "new ", "from ", "until ", "by ",
    "image ", "stop ",
];

/// So many calls alike, each with this answer.
fn answer_times<T: Trial>(
    trial: &mut T,
    alloc: Global,
    call: &str,
    want: &str,
    count: u32,
) -> Result<(), Fail>
    requires { T.fits trial.old }
    ensures { T.fits trial.new }
{
    for k in 0..count {
        answers(trial, alloc, call, want)?;
    }
    Ok(())
}

/// Stores to each line of a page, and changes no word.
fn touch<T: Trial>(trial: &mut T, alloc: Global) -> Result<(), Fail>
    requires { T.fits trial.old }
    ensures { T.fits trial.new }
{
    for k in 0..64 {
        let answer = trial.call(alloc, "store", &[16 * k, 0, 0])?;
        holds(answer.as_slice() == [0].as_slice(), "a store")?;
    }
    Ok(())
}

/// A call answers these numbers; it may have `N times` before it. `touch` stores to each line of a page, and changes no word.
fn told_holds<T: Trial>(trial: &mut T, alloc: Global, call: &str, want: &str) -> Result<(), Fail>
    requires { T.fits trial.old }
    ensures { T.fits trial.new }
{
    if call == "touch" {
        return touch(trial, alloc);
    }
    match call.split_once(" times ") {
        Some((count, call)) => answer_times(trial, alloc, call, want, count.parse::<u32>()?),
        None => answers(trial, alloc, call, want),
    }
}

/// A line of a case: a call with its answer, or one that begins with a key.
fn line_holds<T: Trial>(trial: &mut T, alloc: Global, line: &str) -> Result<(), Fail>
    requires { T.fits trial.old }
    ensures { T.fits trial.new }
{
    match line.split_once(" = ") {
        Some((call, want)) => told_holds(trial, alloc, call, want),
        None => holds(KEYS.iter().any(|key| line.starts_with(*key)), line),
    }
}

/// A case without its first line, which is a title or tells the segment.
fn told(case: &str) -> &str {
    case.split_once('\n').unwrap_or(("", "no lines")).1
}

/// Each call of a case has its answer.
pub fn lines_hold<T: Trial>(trial: &mut T, alloc: Global, case: &str) -> Result<(), Fail>
    requires { T.fits trial.old }
    ensures { T.fits trial.new }
{
    for line in told(case).lines() {
        line_holds(trial, alloc, line)?;
    }
    Ok(())
}

fn case_holds<T: Trial>(alloc: Global, case: &str) -> Result<(), Fail> {
    match made_of::<T>(alloc, case, Vec::new(alloc))? {
        Some(mut trial) => lines_hold(&mut trial, alloc, case),
        None => Err(Fail::new(case)),
    }
}

/// Each case of a text holds.
pub fn cases_hold<T: Trial>(alloc: Global, text: &str) -> Result<(), Fail> {
    for case in text.split("# ") {
        if !case.is_empty() {
            case_holds::<T>(alloc, case)?;
        }
    }
    Ok(())
}
