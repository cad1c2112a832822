//! A call is refused at each call of the device in turn, and what is left stands for the state before it or the state after it.

ghost use Rattle.std.specs.Prelude.{IfOk, IfSome};

use super::texts::{at, field, numbers, small};
use super::trial::{Trial, answer_of, answers, lines_hold, made_of};
use crate::holding::holds;
use dc_media::{DeviceFault, Tear};
use dc_memmedia::ListedCall;
use std::alloc::Global;
use std::test::Fail;

/// How a call of the device is refused, by the answer and how much it keeps.
const REFUSALS: &str = "\
stopped 0
stopped 1
stopped 2
stopped 3
stopped 4
stopped 5
stopped 6
stopped 7
stopped 8
stopped 9
stopped 10
stopped 11
stopped 12
stopped 13
stopped 14
stopped 15
stopped 16
failed 0
failed 1
failed 7
failed 15
failed 16
";

/// A refusal of a call of the device of process 0.
fn refusal(alloc: Global, call: u64, how: &str) -> Result<ListedCall, Fail> {
    let how = numbers(alloc, how)?;
    let fault = if at(&how, 0) == 1 {
        DeviceFault::Stopped
    } else {
        DeviceFault::Failed
    };
    let keep = small(at(&how, 1));
    Ok(ListedCall {
        process: 0,
        call,
        fault,
        tear: Tear { keep, fill: None },
    })
}

/// A store that is as a case says before its call is tried.
pub fn begun<T: Trial>(alloc: Global, case: &str, listed: Vec<ListedCall>) -> Result<T, Fail>
    ensures { IfOk result T.fits }
{
    match made_of::<T>(alloc, case, listed)? {
        Some(mut trial) => {
            lines_hold(&mut trial, alloc, case)?;
            Ok(trial)
        }
        None => Err(Fail::new(case)),
    }
}

/// What is read under a decided number, or under the one that the store itself holds.
pub fn read<T: Trial>(trial: &mut T, alloc: Global, under: &str) -> Result<Vec<u64>, Fail>
    requires { T.fits trial.old }
    ensures { T.fits trial.new }
{
    if under != "itself" {
        return trial.call(alloc, "state", &numbers(alloc, under)?);
    }
    let d = trial.call(alloc, "decided", &[])?;
    trial.call(alloc, "state", &d)
}

/// After a fall it stands for a state, and so it does after stores that are not committed and another fall.
fn stands_for<T: Trial>(trial: &mut T, alloc: Global, case: &str, state: &str) -> Result<(), Fail>
    requires { T.fits trial.old }
    ensures { T.fits trial.new }
{
    let under = field(case, "under ")?;
    let want = numbers(alloc, state)?;
    answers(trial, alloc, "fall", "ok")?;
    let once = read(trial, alloc, under)?;
    answers(trial, alloc, "store 0 77 all", "ok")?;
    answers(trial, alloc, "store 1023 78 all", "ok")?;
    answers(trial, alloc, "fall", "ok")?;
    let again = read(trial, alloc, under)?;
    holds(once.as_slice() == want.as_slice(), case)?;
    holds(again.as_slice() == want.as_slice(), case)
}

/// The call is refused at this call of the device, and a state is left.
fn refused<T: Trial>(
    alloc: Global,
    case: &str,
    call: u64,
    how: &str,
    state: &str,
) -> Result<(), Fail> {
    let listed = refusal(alloc, call, how)?;
    let mut trial = begun::<T>(alloc, case, vec![in alloc; listed]?)?;
    let got = answer_of(&mut trial, alloc, field(case, "try ")?)?;
    holds(
        got.first().copied() == numbers(alloc, how)?.first().copied(),
        case,
    )?;
    stands_for(&mut trial, alloc, case, state)
}

/// In each way: the new state is left only where the last call of the device was done.
fn refused_each_way<T: Trial>(alloc: Global, case: &str, call: u64, last: u64) -> Result<(), Fail> {
    let (old, new) = (field(case, "old ")?, field(case, "new ")?);
    for how in REFUSALS.lines() {
        let done = call == last && !how.ends_with(" 0");
        refused::<T>(alloc, case, call, how, if done { new } else { old })?;
    }
    Ok(())
}

/// The first call of the device that is tried, and the last.
fn span<T: Trial>(alloc: Global, case: &str) -> Result<(u64, u64), Fail> {
    let mut trial = begun::<T>(alloc, case, Vec::new(alloc))?;
    let before = trial.made_calls();
    let got = answer_of(&mut trial, alloc, field(case, "try ")?)?;
    let after = trial.made_calls();
    holds(got.first().copied() == Some(0), case)?;
    stands_for(&mut trial, alloc, case, field(case, "new ")?)?;
    Ok((before, after))
}

fn case_holds<T: Trial>(alloc: Global, case: &str) -> Result<(), Fail> {
    let (before, after) = span::<T>(alloc, case)?;
    let calls = field(case, "calls ")?.parse::<u64>()?;
    holds(after.saturating_sub(before) == calls, case)?;
    for k in 0..calls {
        refused_each_way::<T>(alloc, case, before.saturating_add(k + 1), after)?;
    }
    Ok(())
}

/// Each case of a text holds.
pub fn stops_hold<T: Trial>(alloc: Global, text: &str) -> Result<(), Fail> {
    for case in text.split("# ") {
        if !case.is_empty() {
            case_holds::<T>(alloc, case)?;
        }
    }
    Ok(())
}

/// A making that is stopped gives a store that stands for the first state, to its handle and to one that is attached then; one that
/// fails gives none.
fn making_refused<T: Trial>(
    alloc: Global,
    case: &str,
    call: u64,
    how: &str,
    then: &str,
) -> Result<(), Fail> {
    let listed = refusal(alloc, call, how)?;
    let stopped = listed.fault == DeviceFault::Stopped;
    match made_of::<T>(alloc, case, vec![in alloc; listed]?)? {
        Some(mut trial) => {
            holds(stopped, case)?;
            answers(&mut trial, alloc, "ready", "0")?;
            answers(&mut trial, alloc, then, "ok")?;
            stands_for(&mut trial, alloc, case, field(case, "old ")?)
        }
        None => holds(!stopped, case),
    }
}

fn making_refused_each_way<T: Trial>(alloc: Global, case: &str, call: u64) -> Result<(), Fail> {
    making_refused::<T>(alloc, case, call, "stopped 0", "fall")?;
    making_refused::<T>(alloc, case, call, "stopped 1", "fall")?;
    making_refused::<T>(alloc, case, call, "stopped 0", "attach")?;
    making_refused::<T>(alloc, case, call, "stopped 1", "attach")?;
    making_refused::<T>(alloc, case, call, "failed 0", "fall")
}

/// So at each call of the device.
pub fn makings_hold<T: Trial>(alloc: Global, case: &str) -> Result<(), Fail> {
    let calls = field(case, "calls ")?.parse::<u64>()?;
    for k in 0..calls {
        making_refused_each_way::<T>(alloc, case, k.saturating_add(1))?;
    }
    Ok(())
}
