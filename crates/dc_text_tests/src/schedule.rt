ghost use Rattle.std.specs.Prelude.{◌<◌, ◌≤◌, IfOk};

use crate::holding::holds;
use dc_model::{Entry, Turn};
use dc_schedule::{
    ReadError, ScheduleFault, ScheduleKind, entry_line, generate, lines_read_back, read,
    read_turns, texts_are_written_once, turns_are_a_schedule,
};
use std::alloc::Global;
use std::test::Fail;

/// Texts of turns alone, each with a count of processes in front.
const TURNS: &str = "\
1:|\
1:0 0 0
|\
3:2 7 0
0 4294967295 0
1 0 18446744073709551615
|\
4294967295:4294967294 4294967295 18446744073709551615
|\
2:0 1 1152921504606846974
1 0 1152921504606846975
0 0 1152921504606846976
1 0 1152921504606846976
|\
2:1 10 20
0 0 20";

/// Texts with stops, each with a count of processes in front.
const STOPS: &str = "\
1:stop 0
|\
1:power
|\
8:7 1 2
stop 7
power
power
stop 0
0 3 2
|\
4294967295:stop 4294967294
|\
2:power
stop 1";

/// Texts that are refused wherever they are read: processes, faulty line, kind and text.
const REFUSED: &str = "\
1:2:clock fell:0 0 5
0 0 4
|\
1:1:process:1 0 0|\
1:1:form:0 0|\
1:1:form:stop|\
1:1:form:power 0|\
1:1:form:Power|\
1:1:form: power|\
1:1:form:power |\
1:1:form:powers|\
1:1:form:stop  0|\
1:1:form:stop 00|\
1:1:form:stop +0|\
1:1:form:stop 0 0|\
1:1:form:Stop 0|\
1:1:form:0 4294967296 0|\
1:1:form:0 0 18446744073709551616|\
1:1:process:1000000000000000000000000 0 0|\
1:1:form:
|\
1:2:form:0 0 0

0 0 0
|\
1:1:form:0 0 0 |\
1:1:form: 0 0 0|\
1:1:form:0 0 0 0|\
1:1:form:00 0 0|\
1:1:form:0 01 0|\
1:1:form:0 0 -1|\
1:1:form:1 0 x|\
1:1:form:00 0 0
|\
1:1:form:0 01 0
|\
1:1:form:0 0 01
|\
1:1:form:0 0 0 
|\
1:1:form:0 0\t0
|\
1:1:form:0 4294967296 0
|\
1:1:form:0 0 18446744073709551616
|\
1:1:process:1 0 0
|\
1:2:clock fell:0 0 1152921504606846976
0 0 1152921504606846975
|\
1:2:process:0 0 5
1 0 4|\
2:3:clock fell:1 0 5
0 0 5
1 0 4
x";

/// The same of texts that are refused so where stops are allowed.
const REFUSED_WITH_STOPS: &str = "\
1:1:process:stop 1|\
1:1:process:stop 1000000000000000000000000|\
1:3:clock fell:0 0 5
stop 0
0 0 4
|\
1:3:clock fell:0 0 5
power
0 0 4
|\
3:2:process:stop 2
stop 3
|\
1:2:form:power
power 0
";

/// The same where they are not.
const REFUSED_WITHOUT_STOPS: &str = "\
1:1:form:stop 0|\
1:1:form:stop 1|\
1:1:form:power|\
1:2:form:0 0 5
stop 0
0 0 4
|\
2:3:form:0 0 0
1 0 0
power";

/// Drawn schedules: seed, turns, processes and text.
const DRAWN: &str = "\
0:0:3:|\
0:1:3:1 436792849 0
|\
0:1:4294967295:335903614 436792849 0
|\
0:3:3:1 436792849 0
2 1723210473 10
1 2408873782 20
|\
1:1:4294967295:1817669548 2187888307 0
|\
200:2:8:2 2763533474 0
stop 3
|\
451:2:8:4 4201829242 0
power
|\
18446744073709551615:2:8:1 2980664687 0
3 1802035205 10
";

/// What stands before the next colon, and what follows it.
fn split<'a>(case: &'a str) -> Result<(&'a str, &'a str), Fail> {
    let Some(parts) = case.split_once(':') else {
        return Err(Fail::new(case));
    };
    Ok(parts)
}

/// A count of processes that is not 0.
fn count(text: &str) -> Result<u32, Fail>
    ensures { IfOk result (λ n. 0 < n) }
{
    let n = text.parse::<u32>()?;
    if n == 0 {
        return Err(Fail::new("no process"));
    }
    Ok(n)
}

/// The text of entries, line by line.
fn written(alloc: Global, entries: &[Entry]) -> Result<Vec<u8>, Fail> {
    let mut text = Vec::new(alloc);
    for entry in entries {
        let mut room = [0; 64];
        let length = entry_line(entry, &mut room);
        text.extend_from_slice(&room[..length])?;
    }
    Ok(text)
}

/// Fails where the entries are not those of the text, whose last line feed may be missing.
fn is_text_of(alloc: Global, entries: &[Entry], text: &str) -> Result<(), Fail> {
    let again = written(alloc, entries)?;
    let whole = again.as_slice();
    let short = whole.strip_suffix(b"\n").unwrap_or(whole);
    holds(whole == text.as_bytes() || short == text.as_bytes(), text)
}

fn reads(alloc: Global, stops: bool, text: &[u8], n: u32) -> Result<Vec<Entry>, ReadError>
    requires { 0 < n }
{
    if stops {
        read(alloc, text, n)
    } else {
        read_turns(alloc, text, n)
    }
}

fn is_read(alloc: Global, stops: bool, case: &str) -> Result<(), Fail> {
    let (n, text) = split(case)?;
    let Ok(entries) = reads(alloc, stops, text.as_bytes(), count(n)?) else {
        return Err(Fail::new(case));
    };
    is_text_of(alloc, &entries, text)
}

#[test]
fn a_schedule_is_read_and_written_again(rt: HostRuntime) -> Result<(), Fail> {
    for case in TURNS.split('|') {
        is_read(rt.alloc(), true, case)?;
        is_read(rt.alloc(), false, case)?;
    }
    for case in STOPS.split('|') {
        is_read(rt.alloc(), true, case)?;
    }
    Ok(())
}

fn is_fault(found: Result<Vec<Entry>, ReadError>, line: u32, kind: &str) -> bool {
    match found {
        Err(ReadError::Refused(fault)) => fault.line == line && fault.kind.text() == kind,
        Err(ReadError::Memory) => false,
        Ok(_) => false,
    }
}

fn is_refused(alloc: Global, stops: bool, case: &str) -> Result<(), Fail> {
    let (n, rest) = split(case)?;
    let (line, rest) = split(rest)?;
    let (kind, text) = split(rest)?;
    let found = reads(alloc, stops, text.as_bytes(), count(n)?);
    holds(is_fault(found, line.parse::<u32>()?, kind), case)
}

#[test]
fn the_first_faulty_line_is_told(rt: HostRuntime) -> Result<(), Fail> {
    for case in REFUSED.split('|') {
        is_refused(rt.alloc(), true, case)?;
        is_refused(rt.alloc(), false, case)?;
    }
    for case in REFUSED_WITH_STOPS.split('|') {
        is_refused(rt.alloc(), true, case)?;
    }
    for case in REFUSED_WITHOUT_STOPS.split('|') {
        is_refused(rt.alloc(), false, case)?;
    }
    Ok(())
}

/// A million lines, each the turn of process 0, and a line that is no entry.
fn million_and_one(alloc: Global) -> Result<Vec<u8>, Fail> {
    let mut text = Vec::new(alloc);
    for _ in 0..1_000_000u32 {
        text.extend_from_slice(b"0 0 0\n")?;
    }
    text.push(b'x')?;
    Ok(text)
}

#[test]
fn a_million_lines_are_the_most(rt: HostRuntime) -> Result<(), Fail> {
    let text = million_and_one(rt.alloc())?;
    let Some((_, million)) = text.split_last() else {
        return Err(Fail::new("no text"));
    };
    let Ok(entries) = read(rt.alloc(), million, 1) else {
        return Err(Fail::new("a million lines"));
    };
    holds(entries.len() == 1_000_000, "their entries")?;
    let found = read(rt.alloc(), &text, 1);
    holds(is_fault(found, 1_000_001, "too many"), "a line more")
}

fn is_drawn(alloc: Global, case: &str) -> Result<(), Fail> {
    let (seed, rest) = split(case)?;
    let (turns, rest) = split(rest)?;
    let (n, text) = split(rest)?;
    let turns = turns.parse::<u32>()?;
    if turns > 1_000_000 {
        return Err(Fail::new(case));
    }
    let entries = generate(alloc, seed.parse::<u64>()?, turns, count(n)?)?;
    is_text_of(alloc, &entries, text)
}

#[test]
fn a_seed_gives_its_schedule(rt: HostRuntime) -> Result<(), Fail> {
    for case in DRAWN.split('|') {
        is_drawn(rt.alloc(), case)?;
    }
    Ok(())
}

fn has_line(entry: &Entry, line: &[u8]) -> Result<(), Fail> {
    let mut room = [b'x'; 64];
    let length = entry_line(entry, &mut room);
    holds(room.starts_with(line), "the line")?;
    holds(length == line.len(), "its length")
}

#[test]
fn an_entry_is_a_line() -> Result<(), Fail> {
    let widest = Turn {
        p: 4_294_967_295,
        word: 4_294_967_295,
        clock: 18_446_744_073_709_551_615,
    };
    let line = b"4294967295 4294967295 18446744073709551615\n";
    holds(line.len() == 43, "the widest line")?;
    has_line(&Entry::Turn(widest), line)?;
    has_line(
        &Entry::Turn(Turn {
            p: 1,
            word: 2,
            clock: 3,
        }),
        b"1 2 3\n",
    )?;
    has_line(&Entry::Stop(4_294_967_295), b"stop 4294967295\n")?;
    has_line(&Entry::Power, b"power\n")
}

fn is_told(alloc: Global, error: ReadError, text: &str) -> Result<(), Fail> {
    let told = format!(in alloc; "{error}")?;
    holds(told.as_str() == text, text)
}

#[test]
fn an_error_says_what_is_wrong(rt: HostRuntime) -> Result<(), Fail> {
    is_told(rt.alloc(), ReadError::Memory, "out of memory")?;
    let fault = ScheduleFault {
        line: 7,
        kind: ScheduleKind::ClockFell,
    };
    is_told(rt.alloc(), ReadError::Refused(fault), "line 7: clock fell")
}

#[test]
fn the_laws_are_called() {
    lines_read_back();
    texts_are_written_once();
    turns_are_a_schedule();
}
