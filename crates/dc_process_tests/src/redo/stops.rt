//! A call is refused at each call of the disk in turn, in many ways, and what is left stands for the state before it or the state after it.

use crate::holding::holds;
use crate::vista::stops::{begun, read};
use crate::vista::texts::{field, numbers};
use crate::vista::trial::{Trial, answer_of, answers, made_of};
use dc_media::{DeviceFault, Tear};
use dc_memmedia::ListedCall;
use std::alloc::Global;
use std::test::Fail;

/// Fills with nothing, and with these.
const FILLS: [Option<u8>; 4] = [None, Some(0), Some(1), Some(255)];

/// How a call of the disk of process 0 is refused.
#[derive(Clone, Copy, Drop)]
struct Refusal {
    fault: DeviceFault,
    tear: Tear,
}

impl Refusal {
    /// At this call.
    fn at(self, call: u64) -> ListedCall {
        ListedCall {
            process: 0,
            call,
            fault: self.fault,
            tear: self.tear,
        }
    }

    /// What a call answers that is refused so.
    fn answer(self) -> u64 {
        if self.fault == DeviceFault::Stopped {
            1
        } else {
            2
        }
    }

    /// Whether a gate that was closed is open where the write that opens it is refused so.
    fn opens_by_write(self) -> bool {
        self.tear.keep > 0 || self.tear.fill == Some(1)
    }

    /// Whether it is where that is done, and the sync behind it is refused so.
    fn opens_by_sync(self) -> bool {
        match self.tear.fill {
            None => self.tear.keep > 0,
            Some(byte) => byte == 1,
        }
    }

    /// Whether the record of a call is there that is refused so many calls of the disk before its last.
    fn opens(self, left: u64) -> bool {
        match left {
            0 => self.opens_by_sync(),
            1 => self.opens_by_write(),
            _ => false,
        }
    }
}

/// Of a state that is told in numbers, its memory.
fn memory_in(state: &[u64]) -> &[u64] {
    let events = state.get(3).copied().unwrap_or(0).min(64) as usize;
    state.get(4 + 5 * events..).unwrap_or(&[])
}

/// A state that was committed anew under 4000: the number, its position, nothing logged, and the memory, whose last word is 78.
fn goes_on(alloc: Global, state: &[u64]) -> Result<Vec<u64>, Fail> {
    let mut want = Vec::new(alloc);
    want.extend_from_slice(&[0, 4000, 40000, 0])?;
    want.extend_from_slice(memory_in(state))?;
    let _seven = want.pop();
    want.push(78)?;
    Ok(want)
}

/// What is read after a fall.
fn read_again<T: Trial>(trial: &mut T, alloc: Global, under: &str) -> Result<Vec<u64>, Fail>
    requires { T.fits trial.old }
    ensures { T.fits trial.new }
{
    answers(trial, alloc, "fall", "ok")?;
    read(trial, alloc, under)
}

/// Whether it stands for a state, once and twice, and goes on from there.
fn stands_for<T: Trial>(
    trial: &mut T,
    alloc: Global,
    under: &str,
    want: &[u64],
) -> Result<bool, Fail>
    requires { T.fits trial.old }
    ensures { T.fits trial.new }
{
    let once = read_again(trial, alloc, under)?;
    let twice = read_again(trial, alloc, under)?;
    answers(trial, alloc, "store 1023 78 all", "ok")?;
    answers(trial, alloc, "commit 4000", "ok")?;
    let then = read_again(trial, alloc, under)?;
    let next = goes_on(alloc, want)?;
    Ok(once.as_slice() == want && twice.as_slice() == want && then.as_slice() == next.as_slice())
}

/// Whether the call is refused at this call of the disk, and a state is left.
fn is_refused<T: Trial>(
    alloc: Global,
    case: &str,
    call: u64,
    how: Refusal,
    state: &str,
) -> Result<bool, Fail> {
    let mut trial = begun::<T>(alloc, case, vec![in alloc; how.at(call)]?)?;
    let got = answer_of(&mut trial, alloc, field(case, "try ")?)?;
    let refused = got.first().copied() == Some(how.answer());
    let want = numbers(alloc, state)?;
    let stands = stands_for(&mut trial, alloc, field(case, "under ")?, &want)?;
    Ok(refused && stands)
}

/// It is, and the new state is left where the gate of its record is open.
fn refused<T: Trial>(
    alloc: Global,
    case: &str,
    call: u64,
    last: u64,
    how: Refusal,
) -> Result<(), Fail> {
    let done = how.opens(last.saturating_sub(call));
    let state = field(case, if done { "new " } else { "old " })?;
    if is_refused::<T>(alloc, case, call, how, state)? {
        return Ok(());
    }
    let (keep, fill) = (how.tear.keep, how.tear.fill);
    Err(Fail::new(format_args!("call {call} of {last} keeping {keep} filling {fill:?}: {case}")))
}

/// With each filling.
fn refused_filling<T: Trial>(
    alloc: Global,
    case: &str,
    call: u64,
    last: u64,
    fault: DeviceFault,
    keep: u32,
) -> Result<(), Fail> {
    for fill in FILLS {
        let tear = Tear { keep, fill };
        refused::<T>(alloc, case, call, last, Refusal { fault, tear })?;
    }
    Ok(())
}

/// Keeping nothing, a byte, about a half, and all.
fn refused_keeping<T: Trial>(
    alloc: Global,
    case: &str,
    call: u64,
    last: u64,
    fault: DeviceFault,
) -> Result<(), Fail> {
    let half = field(case, "half ")?.parse::<u32>()?;
    for keep in [0, 1, half, u32::MAX] {
        refused_filling::<T>(alloc, case, call, last, fault, keep)?;
    }
    Ok(())
}

/// The last call of the disk before what is tried, and the last of all.
fn span<T: Trial>(alloc: Global, case: &str) -> Result<(u64, u64), Fail> {
    let mut trial = begun::<T>(alloc, case, Vec::new(alloc))?;
    let before = trial.made_calls();
    let got = answer_of(&mut trial, alloc, field(case, "try ")?)?;
    let after = trial.made_calls();
    holds(got.first().copied() == Some(0), case)?;
    let want = numbers(alloc, field(case, "new ")?)?;
    let stands = stands_for(&mut trial, alloc, field(case, "under ")?, &want)?;
    holds(stands, case)?;
    Ok((before, after))
}

fn case_holds<T: Trial>(alloc: Global, case: &str) -> Result<(), Fail> {
    let (before, after) = span::<T>(alloc, case)?;
    let calls = field(case, "calls ")?.parse::<u64>()?;
    holds(after.saturating_sub(before) == calls, case)?;
    for k in 0..calls {
        let call = before.saturating_add(k + 1);
        refused_keeping::<T>(alloc, case, call, after, DeviceFault::Stopped)?;
        refused_keeping::<T>(alloc, case, call, after, DeviceFault::Failed)?;
    }
    Ok(())
}

/// Each case of a text holds.
pub fn stops_hold<T: Trial>(alloc: Global, text: &str) -> Result<(), Fail> {
    for case in text.split("# ") {
        if !case.is_empty() {
            case_holds::<T>(alloc, case)?;
        }
    }
    Ok(())
}

/// A making that is stopped gives a store that stands for the first state, to its handle and to one that is attached then.
fn making_stopped<T: Trial>(
    alloc: Global,
    case: &str,
    call: u64,
    tear: Tear,
    then: &str,
) -> Result<(), Fail> {
    let how = Refusal {
        fault: DeviceFault::Stopped,
        tear,
    };
    match made_of::<T>(alloc, case, vec![in alloc; how.at(call)]?)? {
        Some(mut trial) => {
            answers(&mut trial, alloc, "ready", "0")?;
            answers(&mut trial, alloc, then, "ok")?;
            let want = numbers(alloc, field(case, "old ")?)?;
            let stands = stands_for(&mut trial, alloc, field(case, "under ")?, &want)?;
            holds(stands, case)
        }
        None => Err(Fail::new(case)),
    }
}

/// One that fails gives none.
fn making_failed<T: Trial>(alloc: Global, case: &str, call: u64, tear: Tear) -> Result<(), Fail> {
    let how = Refusal {
        fault: DeviceFault::Failed,
        tear,
    };
    let made = made_of::<T>(alloc, case, vec![in alloc; how.at(call)]?)?;
    holds(made.is_none(), case)
}

fn making_filling<T: Trial>(alloc: Global, case: &str, call: u64, keep: u32) -> Result<(), Fail> {
    for fill in FILLS {
        let tear = Tear { keep, fill };
        making_stopped::<T>(alloc, case, call, tear, "fall")?;
        making_stopped::<T>(alloc, case, call, tear, "attach")?;
        making_failed::<T>(alloc, case, call, tear)?;
    }
    Ok(())
}

fn making_keeping<T: Trial>(alloc: Global, case: &str, call: u64) -> Result<(), Fail> {
    let half = field(case, "half ")?.parse::<u32>()?;
    for keep in [0, 1, half, u32::MAX] {
        making_filling::<T>(alloc, case, call, keep)?;
    }
    Ok(())
}

/// So at each call of the disk.
pub fn makings_hold<T: Trial>(alloc: Global, case: &str) -> Result<(), Fail> {
    let calls = field(case, "calls ")?.parse::<u64>()?;
    for k in 0..calls {
        making_keeping::<T>(alloc, case, k.saturating_add(1))?;
    }
    Ok(())
}
