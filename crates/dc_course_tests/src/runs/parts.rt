//! Runs on disks in two parts: the first is halted, and the second goes on from the disks that it left.

ghost use Rattle.std.specs.Prelude.{◌≡◌, ◌<◌, ◌≤◌, All, length, true};

use crate::runs::KEYS;
use crate::runs::runs::{output_of, scheduled};
use crate::runs::setting::schedule;
use crate::runs::walk::is_plain;
use dc_cases::{holds, is_read};
use dc_course::{Course, Setting};
use dc_disk::{go_on_disks, run_on_disks};
use dc_memmedia::{MemDisks, MemSink};
use dc_model::Entry;
use dc_reread::RereadFault;
use dc_world::Earlier;
use std::alloc::Global;
use std::test::Fail;

/// Whether an earlier part may have reported this, of a run of so many processes.
fn may_go_on(earlier: &Earlier, n: usize) -> bool
    ensures takers { result ≡ true → All (λ x. x.p < n) earlier.now.acts.now }
    ensures acts { result ≡ true → length earlier.now.acts.now ≤ earlier.now.entries }
    ensures lines { result ≡ true → earlier.now.lines ≤ earlier.now.entries }
{
    let few = earlier.acts.len() <= earlier.entries as usize && earlier.lines <= earlier.entries;
    few && earlier.acts.iter().all(|act| (act.p as usize) < n)
}

/// The first so many entries of a case, on these disks.
fn halted(
    alloc: Global,
    case: &str,
    entries: &[Entry],
    disks: &mut MemDisks,
    out: &mut MemSink,
) -> Result<Course, Fail> {
    let setting = Setting {
        scheduled: scheduled(alloc, case, entries)?,
        stops: Vec::new(alloc),
    };
    match run_on_disks(alloc, setting, false, disks, out) {
        Ok(course) => Ok(course),
        Err(fault) => Err(Fail::new(format_args!("{case}: {fault}"))),
    }
}

/// The case as it goes on from there, or why it does not.
fn gone_on(
    alloc: Global,
    case: &str,
    entries: &[Entry],
    earlier: &Earlier,
    disks: &mut MemDisks,
    out: &mut MemSink,
) -> Result<Result<Course, RereadFault>, Fail> {
    let scheduled = scheduled(alloc, case, entries)?;
    let taken = earlier.entries as usize <= scheduled.schedule.len();
    if !taken || !may_go_on(earlier, scheduled.setup.images.len()) {
        return Err(Fail::new("no earlier part"));
    }
    let stops = Vec::new(alloc);
    let setting = Setting { scheduled, stops };
    Ok(go_on_disks(alloc, setting, earlier, disks, out))
}

/// A case that is halted before an entry, and goes on: the lines of both parts together are those of one run.
fn in_parts(alloc: Global, case: &str, entries: &[Entry], at: usize) -> Result<(), Fail> {
    let Some(front) = entries.get(..at) else {
        return Err(Fail::new(case));
    };
    let mut disks = MemDisks::new(alloc, Vec::new(alloc))?;
    let mut out = output_of(alloc, case)?;
    let first = halted(alloc, case, front, &mut disks, &mut out)?;
    let earlier = Earlier {
        acts: first.acts.as_slice(),
        entries: at.min(1_000_000) as u32,
        lines: first.lines,
    };
    let Ok(course) = gone_on(alloc, case, entries, &earlier, &mut disks, &mut out)? else {
        return Err(Fail::new(case));
    };
    let rest = entries.len().saturating_sub(at);
    holds(
        course.marks.as_slice().len() == rest,
        case,
        "the count of the marks",
    )?;
    is_plain(alloc, case, course.acts.as_slice(), out.bytes())
}

/// The same, halted before each entry.
fn in_parts_at_each(alloc: Global, case: &str) -> Result<(), Fail> {
    let entries = schedule(alloc, case)?;
    for at in 0..entries.len() {
        in_parts(alloc, case, &entries, at)?;
    }
    Ok(())
}

/// What a case answers that is to go on behind five entries, on the disks of a run of them or on none, with the first so many of its acts.
fn answer(alloc: Global, case: &str, there: bool, count: usize) -> Result<String, Fail> {
    let entries = schedule(alloc, case)?;
    let Some(front) = entries.get(..5) else {
        return Err(Fail::new(case));
    };
    let mut disks = MemDisks::new(alloc, Vec::new(alloc))?;
    let mut out = output_of(alloc, case)?;
    let first = halted(alloc, case, front, &mut disks, &mut out)?;
    if !there {
        disks = MemDisks::new(alloc, Vec::new(alloc))?;
    }
    let earlier = Earlier {
        acts: first.acts.as_slice().get(..count).unwrap_or(&[]),
        entries: 5,
        lines: first.lines,
    };
    match gone_on(alloc, case, &entries, &earlier, &mut disks, &mut out)? {
        Ok(course) => Ok(format!(in alloc; "{} acts, {} lines", course.acts.len(), course.lines)?),
        Err(fault) => Ok(format!(in alloc; "{fault:?}")?),
    }
}

/// A guest that shows its text at its fourth event, halted behind its fifth entry.
const HALTED: &str = "halted\nschedule=10 x 0 0 0\n";

/// What is answered is this.
fn answers(alloc: Global, there: bool, count: usize, want: &str) -> Result<(), Fail> {
    let got = answer(alloc, HALTED, there, count)?;
    holds(got.as_str() == want, want, &got)
}

#[test]
fn disks_that_suit_and_disks_that_do_not(rt: HostRuntime) -> Result<(), Fail> {
    let alloc = rt.alloc();
    is_read(HALTED, KEYS)?;
    answers(alloc, true, 5, "7 acts, 3 lines")?;
    answers(alloc, true, 4, "7 acts, 3 lines")?;
    answers(alloc, true, 2, "Unsuited(0)")?;
    answers(alloc, false, 5, "Refused(0, Header)")
}

/// A run under a protocol, halted before each of its entries.
fn under(alloc: Global, protocol: &str) -> Result<(), Fail> {
    let case = format!(in alloc;
        "parts\nprotocol={protocol}\nguests=talker gossip teller\ninputs=/one two three/\nschedule={TURNS}\n"
    )?;
    is_read(&case, KEYS)?;
    in_parts_at_each(alloc, &case)
}

/// Turns of three processes, with stops and a failure of the power.
const TURNS: &str =
    "4 x 0 3 5, 5 x 1 4 6, 4 x 2 5 7, stop 1, 5 x 0 6 8, 5 x 1 7 9, power, 4 x 2 8 10, 4 x 0 9 11, 4 x 1 10 12";

#[test]
fn halted_before_each_entry(rt: HostRuntime) -> Result<(), Fail> {
    for protocol in "cand cpvs cbndvs cand-log cbndvs-log cpv-2pc cbndv-2pc".split_whitespace() {
        under(rt.alloc(), protocol)?;
    }
    Ok(())
}
