//! Long runs that a generator draws, with stops of all kinds: the acts are a run of the guests by themselves, and the lines are what
//! that shows, but for repeats.

use crate::runs::KEYS;
use crate::runs::runs::run_refused;
use crate::runs::setting::setup;
use dc_acts::line_of;
use dc_cases::{as_u32, as_usize, holds, is_read};
use dc_course::{Course, Ending};
use dc_media::{DeviceFault, Tear};
use dc_memmedia::ListedCall;
use dc_model::{Entry, Mark, Taken, Turn, Visible};
use dc_plain::Plain;
use std::alloc::Global;
use std::test::Fail;

/// How many entries a run has.
const ENTRIES: u32 = 2000;

/// How many stops are planned for each process.
const STOPS: u32 = 40;

/// A linear congruential generator.
#[derive(Clone, Copy, Drop)]
struct Draws {
    state: u64,
}

impl Draws {
    /// The next number.
    fn next(&mut self) -> u32 {
        self.state = self
            .state
            .wrapping_mul(6_364_136_223_846_793_005)
            .wrapping_add(1_442_695_040_888_963_407);
        (self.state >> 32) as u32
    }
}

/// One entry of three processes: every 40th stops one, and every 150th all of them.
fn entry(draws: &mut Draws, clock: u64) -> Entry {
    let a = draws.next();
    let word = draws.next();
    if a % 150 == 7 {
        return Entry::Power;
    }
    if a % 40 == 9 {
        return Entry::Stop(word % 3);
    }
    Entry::Turn(Turn {
        p: (a >> 8) % 3,
        word: word >> 8,
        clock,
    })
}

/// The schedule.
fn entries(alloc: Global, draws: &mut Draws) -> Result<Vec<Entry>, Fail> {
    let mut list = Vec::new(alloc);
    for t in 0..ENTRIES {
        list.push(entry(draws, u64::from(t)))?;
    }
    Ok(list)
}

/// Plans stops of a process, behind so many calls.
fn plan(
    list: &mut Vec<ListedCall>,
    draws: &mut Draws,
    process: u32,
    from: u64,
) -> Result<(), Fail> {
    let mut call = from;
    for _ in 0..STOPS {
        call = call.saturating_add(u64::from(draws.next() % 900));
        let tear = Tear {
            keep: draws.next() % 2,
            fill: None,
        };
        list.push(ListedCall {
            process,
            call,
            fault: DeviceFault::Stopped,
            tear,
        })?;
    }
    Ok(())
}

/// Lets the guests take the acts by themselves.
fn apply_all(plain: &mut Plain, acts: &[Taken]) -> Result<(), Fail> {
    for taken in acts {
        if taken.p as usize >= plain.count() || plain.visible_count(taken.p) == u32::MAX {
            return Err(Fail::new("a process"));
        }
        if plain.apply(taken.p, &taken.act).is_err() {
            return Err(Fail::new(format_args!("no act: {taken:?}")));
        }
    }
    Ok(())
}

/// The process of a line, and its number among the process's own.
fn numbered(line: &str) -> Result<(usize, u32), Fail> {
    let mut words = line.split_whitespace().skip(1);
    let (Some(p), Some(k)) = (words.next(), words.next()) else {
        return Err(Fail::new(line));
    };
    Ok((as_usize(p)?, as_u32(k)?))
}

/// Whether a line's number is new for its process, which is noted.
fn is_new(came: &mut [u32], line: &str) -> Result<bool, Fail> {
    let (p, k) = numbered(line)?;
    let Some(count) = came.get_mut(p) else {
        return Err(Fail::new(line));
    };
    if k < *count {
        return Ok(false);
    }
    *count = k.saturating_add(1);
    Ok(true)
}

/// A line is that of a visible record.
fn is_line(visible: Option<&Visible>, text: &str) -> Result<(), Fail> {
    let Some(visible) = visible else {
        return Err(Fail::new(text));
    };
    let line = line_of(visible);
    match line.as_slice().split_last() {
        Some((_, bytes)) => holds(bytes == text.as_bytes(), text, "another line"),
        None => Err(Fail::new(text)),
    }
}

/// The lines, but for repeats, are those of the visible records.
fn lines_are(out: &str, visibles: &[Visible]) -> Result<(), Fail> {
    let mut came = [0u32; 3];
    let mut index = 0usize;
    for line in out.lines() {
        if is_new(&mut came, line)? {
            is_line(visibles.get(index), line)?;
            index = index.saturating_add(1);
        }
    }
    holds(index == visibles.len(), out, "fewer lines")
}

/// A run came to what its acts lead the guests to by themselves.
pub fn is_plain(alloc: Global, case: &str, acts: &[Taken], out: &[u8]) -> Result<(), Fail> {
    let setup = setup(alloc, case)?;
    let mut plain = Plain::open(alloc, &setup.images, &setup.inputs)?;
    apply_all(&mut plain, acts)?;
    let Ok(out) = str::from_utf8(out) else {
        return Err(Fail::new(case));
    };
    lines_are(out, plain.visibles())
}

/// A run came to the end of its schedule, behind many stops.
fn is_stopped_often(case: &str, course: &Course) -> Result<(), Fail> {
    let stops = course
        .marks
        .as_slice()
        .iter()
        .filter(|mark| **mark == Mark::Stopped)
        .count();
    holds(course.ending == Ending::Unfinished, case, "a fault")?;
    holds(stops > 20, case, "few stops")
}

/// The case of a protocol.
fn case(alloc: Global, protocol: &str) -> Result<String, Fail> {
    Ok(format!(in alloc;
        "walk\nprotocol={protocol}\nguests=talker gossip teller\ninputs=/one two three four five six seven\n"
    )?)
}

/// A run that is drawn from a seed.
fn walked(alloc: Global, protocol: &str, seed: u64) -> Result<(), Fail> {
    let case = case(alloc, protocol)?;
    is_read(&case, KEYS)?;
    let mut draws = Draws { state: seed };
    let entries = entries(alloc, &mut draws)?;
    let opened = run_refused(alloc, &case, &[], &[])?;
    let mut refused = Vec::new(alloc);
    for p in 0..3 {
        plan(&mut refused, &mut draws, p, opened.keeps.calls(p))?;
    }
    let ran = run_refused(alloc, &case, &entries, &refused)?;
    let Ok(course) = &ran.answer else {
        return Err(Fail::new(protocol));
    };
    is_stopped_often(&case, course)?;
    is_plain(alloc, &case, course.acts.as_slice(), ran.out.bytes())
}

#[test]
fn walks(rt: HostRuntime) -> Result<(), Fail> {
    for protocol in "cand cpvs cbndvs cand-log cbndvs-log cpv-2pc cbndv-2pc".split_whitespace() {
        walked(rt.alloc(), protocol, 1)?;
        walked(rt.alloc(), protocol, 2)?;
    }
    Ok(())
}
