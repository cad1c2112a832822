use crate::holding::holds;
use dc_acts::{Acts, cuts_are_of_one_process};
use dc_memmedia::MemSink;
use dc_model::{Act, Taken};
use dc_report::{Report, read_report, write_report};
use std::alloc::Global;
use std::test::Fail;

/// An act of each kind.
const ACTS: [Taken; 8] = [
    Taken {
        t: 0,
        p: 0,
        act: Act::Plain,
    },
    Taken {
        t: 10,
        p: 1,
        act: Act::Clock(18_446_744_073_709_551_615),
    },
    Taken {
        t: 20,
        p: 2,
        act: Act::Random(4_294_967_295),
    },
    Taken {
        t: 30,
        p: 3,
        act: Act::InputNone,
    },
    Taken {
        t: 40,
        p: 4,
        act: Act::InputNext,
    },
    Taken {
        t: 50,
        p: 5,
        act: Act::InputEnd,
    },
    Taken {
        t: 60,
        p: 6,
        act: Act::ReceiveNone,
    },
    Taken {
        t: 70,
        p: 7,
        act: Act::ReceiveFrom(3),
    },
];

/// Their report, of status 8 with 71 marked entries and two lines.
const REPORT: &str = "dc-report 1\n\
act 0 0 plain\n\
act 10 1 clock 18446744073709551615\n\
act 20 2 random 4294967295\n\
act 30 3 input none\n\
act 40 4 input next\n\
act 50 5 input end\n\
act 60 6 receive none\n\
act 70 7 receive from 3\n\
close 8 71 8 2\n";

/// What is said of a text behind the bar, read for three processes: `^` is the first line, `@` the lines of seven acts with the first
/// line before them, `~` a line feed.
const TEXTS: &str = "\
ok|@close 0 7 7 2~
line 9: cut|@
line 9: count|@close 0 7 6 2~
line 9: count|@close 0 7 8 2~
line 10: form|@close 0 7 7 2~act 7 0 plain~
line 10: form|@close 0 7 7 2~close 0 7 7 2~
line 10: form|@close 0 7 7 2~~
line 9: form|@close 0 7 7 2
ok|^close 0 0 0 0~
ok|^close 1 0 0 0~
ok|^close 7 0 0 0~
ok|^close 8 0 0 0~
ok|^close 12 0 0 0~
ok|^close 15 0 0 0~
line 2: form|^close 2 0 0 0~
line 2: form|^close 13 0 0 0~
line 2: form|^close 14 0 0 0~
line 2: form|^close 16 0 0 0~
line 2: form|^close 1000000000000000000000000 0 0 0~
line 1: cut|
line 2: cut|^
line 1: form|~
line 1: form|dc-report 1
line 1: form|dc-report 2~close 0 0 0 0~
line 1: form|dc-report 1 ~close 0 0 0 0~
line 1: form|DC-report 1~close 0 0 0 0~
line 2: form|^~
line 2: form|^act +1 0 plain~close 0 1 1 0~
line 2: form|^act 1 -0 plain~close 0 1 1 0~
line 2: form|^act 01 0 plain~close 0 1 1 0~
line 2: form|^act 1 00 plain~close 0 1 1 0~
line 2: form|^act 1  0 plain~close 0 1 1 0~
line 2: form|^act 1 0 plain ~close 0 1 1 0~
line 2: form|^Act 1 0 plain~close 0 1 1 0~
line 2: form|^act 1 0 Plain~close 0 1 1 0~
line 2: form|^act 1 0~close 0 1 1 0~
line 2: form|^act 1~close 0 1 1 0~
line 2: form|^act 1 0 input~close 0 1 1 0~
line 2: form|^act 1 0 receive to 1~close 0 1 1 0~
line 2: form|^act 1 0 receive from 1 1~close 0 1 1 0~
line 2: form|^act 1 0 receive from 01~close 0 1 1 0~
line 2: form|^act 1 0 clock 18446744073709551616~close 0 1 1 0~
ok|^act 1 0 clock 18446744073709551615~close 0 1 1 0~
line 2: form|^act 1 0 random 4294967296~close 0 1 1 0~
ok|^act 1 0 random 4294967295~close 0 1 1 0~
line 2: process|^act 1 3 plain~close 0 1 1 0~
line 2: process|^act 1 1000000000000000000000000 plain~close 0 1 1 0~
line 2: process|^act 1 0 receive from 3~close 0 1 1 0~
line 2: process|^act 1 0 receive from 1000000000000000000000000~close 0 1 1 0~
ok|^act 1 2 receive from 2~close 0 1 1 0~
line 2: process|^act 1000000 3 plain~close 0 1 1 0~
line 2: process|^act 1000000 0 receive from 3~close 0 1 1 0~
line 2: form|^act 1000000 3 none~close 0 1 1 0~
line 2: turn|^act 1000000 0 plain~close 0 1 1 0~
line 2: turn|^act 1000000000000000000000000 0 plain~close 0 1 1 0~
ok|^act 999999 0 plain~close 0 0 1 0~
line 3: turn|^act 5 0 plain~act 5 1 plain~close 0 6 2 0~
line 3: turn|^act 5 0 plain~act 4 1 plain~close 0 6 2 0~
line 3: turn|^act 5 0 plain~act 4 1 plain~close 0 6 9 0~
line 2: count|^close 0 1000001 0 0~
ok|^close 0 1000000 0 1000000~
line 2: count|^close 0 1 0 2~
line 2: count|^close 0 0 1 0~
line 2: count|^close 0 0 1000000000000000000000000 0~
line 2: count|^close 0 9 0 1000000000000000000000000~
ok|^act 0 0 plain~act 1 1 plain~act 4 2 plain~close 15 5 3 1~
line 5: count|^act 0 0 plain~act 1 1 plain~act 5 2 plain~close 15 5 3 1~
ok|^act 0 0 plain~act 1 1 plain~act 5 2 plain~close 15 6 3 1~
ok|^act 0 0 plain~act 1 1 plain~act 5 2 plain~close 7 5 3 1~
line 3: count|^act 0 0 plain~close 15 0 1 0~
ok|^act 999999 0 plain~close 15 1000000 1 0~
line 3: form|^act 5 0 plain~close 15 5 1 01~
line 2: form|^close 0 9 1 01~
line 2: form|^close 0 0 0~
line 2: form|^close 0 0 0 0 0~
line 2: form|^Close 0 0 0 0~";

/// The first line of a report, and the lines of seven acts.
const FIRST: &str = "dc-report 1~";

const SEVEN: &str =
    "act 0 0 plain~act 1 1 clock 5~act 2 2 random 9~act 3 0 input none~act 4 1 input next~act 5 2 receive none~act 6 0 receive from 1~";

/// The processes of acts, whose turns count from 0; a process and its reach; and the turns of the acts that a cut leaves.
const CUTS: &str = "\
0 0 0:
0 0 1:0
0 0 9:0
0 1 0:0
01020 0 1:013
01020 0 2:0123
01020 0 0:13
01020 1 0:0234
01020 7 0:01234
01020 9 0:01234
22222 2 3:012
0123456712345670 6 1:0123456789ABCEF";

/// A list of these acts.
fn listed(alloc: Global, taken: &[Taken]) -> Result<Acts, Fail> {
    let mut acts = Acts::new(alloc);
    for taken in taken {
        if taken.p >= 8 || acts.len() >= 100 || acts.reserve(1).is_err() {
            return Err(Fail::new("no room"));
        }
        acts.push(*taken);
    }
    Ok(acts)
}

/// The report that is written with so much room.
fn written(
    alloc: Global,
    room: usize,
    status: u32,
    entries: u32,
    acts: &Acts,
    lines: u32,
) -> Result<MemSink, Fail> {
    let mut sink = MemSink::new(alloc, room, Vec::new(alloc))?;
    let done = write_report(&mut sink, status, entries, acts, lines).is_ok();
    holds(
        done == (sink.bytes().len() < room),
        "a fault where the room is used up",
    )?;
    Ok(sink)
}

#[test]
fn a_report_has_a_line_for_each_act(rt: HostRuntime) -> Result<(), Fail> {
    let acts = listed(rt.alloc(), &ACTS)?;
    let sink = written(rt.alloc(), 1000, 8, 71, &acts, 2)?;
    holds(sink.bytes() == REPORT.as_bytes(), "the report")
}

#[test]
fn a_run_without_acts_has_its_first_and_its_last_line(rt: HostRuntime) -> Result<(), Fail> {
    let acts = Acts::new(rt.alloc());
    let sink = written(rt.alloc(), 1000, 1, 0, &acts, 0)?;
    holds(
        sink.bytes() == b"dc-report 1\nclose 1 0 0 0\n".as_slice(),
        "the report",
    )
}

#[test]
fn a_fault_leaves_a_front_of_the_report(rt: HostRuntime) -> Result<(), Fail> {
    let acts = listed(rt.alloc(), &ACTS)?;
    for room in 0..REPORT.len() {
        let sink = written(rt.alloc(), room, 8, 71, &acts, 2)?;
        holds(sink.bytes() == &REPORT.as_bytes()[..room], "a front")?;
    }
    Ok(())
}

/// What is said of a text.
fn said(alloc: Global, text: &[u8], n: u32) -> Result<String, Fail> {
    if n == 0 || n > 8 {
        return Err(Fail::new("a count of processes"));
    }
    match read_report(alloc, text, n) {
        Ok(_) => Ok(format!(in alloc; "ok")?),
        Err(error) => Ok(format!(in alloc; "{error}")?),
    }
}

/// A text of the cases written out.
fn put(to: &mut Vec<u8>, text: &str) -> Result<(), Fail> {
    for c in text.as_bytes() {
        to.push(if *c == b'~' { b'\n' } else { *c })?;
    }
    Ok(())
}

fn text_of(alloc: Global, case: &str) -> Result<Vec<u8>, Fail> {
    let mut text = Vec::new(alloc);
    if case.starts_with('^') || case.starts_with('@') {
        put(&mut text, FIRST)?;
    }
    if case.starts_with('@') {
        put(&mut text, SEVEN)?;
    }
    put(&mut text, case.trim_start_matches(['^', '@']))?;
    Ok(text)
}

#[test]
fn a_text_is_read_or_refused_at_its_first_faulty_line(rt: HostRuntime) -> Result<(), Fail> {
    for row in TEXTS.lines() {
        let Some((expected, case)) = row.split_once('|') else {
            return Err(Fail::new("a row without a bar"));
        };
        let text = text_of(rt.alloc(), case)?;
        holds(said(rt.alloc(), &text, 3)?.as_str() == expected, row)?;
    }
    Ok(())
}

/// Whether a report says this.
fn says(report: &Report, status: u32, entries: u32, acts: &[Taken], lines: u32) -> bool {
    report.status == status
        && report.entries == entries
        && report.lines == lines
        && report.acts.as_slice() == acts
}

#[test]
fn a_report_reads_back_and_writes_again(rt: HostRuntime) -> Result<(), Fail> {
    let Ok(report) = read_report(rt.alloc(), REPORT.as_bytes(), 8) else {
        return Err(Fail::new("it is refused"));
    };
    holds(says(&report, 8, 71, &ACTS, 2), "what it says")?;
    let sink = written(
        rt.alloc(),
        1000,
        report.status,
        report.entries,
        &report.acts,
        report.lines,
    )?;
    holds(sink.bytes() == REPORT.as_bytes(), "the same bytes")
}

/// What is said of a front of a report: it is cut off behind a line feed, and has a faulty line elsewhere.
fn of_front(alloc: Global, front: &[u8]) -> Result<String, Fail> {
    let lines = front.iter().filter(|c| **c == b'\n').count();
    let kind = if front.is_empty() || front.ends_with(b"\n") {
        "cut"
    } else {
        "form"
    };
    Ok(format!(in alloc; "line {}: {kind}", lines.saturating_add(1))?)
}

#[test]
fn each_front_of_a_report_is_refused_where_it_ends(rt: HostRuntime) -> Result<(), Fail> {
    for end in 0..REPORT.len() {
        let front = &REPORT.as_bytes()[..end];
        let expected = of_front(rt.alloc(), front)?;
        holds(
            said(rt.alloc(), front, 8)?.as_str() == expected.as_str(),
            expected.as_str(),
        )?;
    }
    Ok(())
}

#[test]
fn a_report_with_another_byte_is_refused(rt: HostRuntime) -> Result<(), Fail> {
    for i in 0..REPORT.len() {
        let mut text = Vec::from_slice(rt.alloc(), REPORT.as_bytes())?;
        let same = text[i] == b'x';
        text[i] = b'x';
        holds(
            (said(rt.alloc(), &text, 8)?.as_str() == "ok") == same,
            "a byte",
        )?;
    }
    Ok(())
}

/// An act of each process of a text.
fn of_processes(alloc: Global, processes: &str) -> Result<Acts, Fail> {
    let mut acts = Acts::new(alloc);
    for c in processes.as_bytes() {
        let p = u32::from(c.saturating_sub(b'0'));
        if p >= 8 || acts.len() >= 16 || acts.reserve(1).is_err() {
            return Err(Fail::new("no room"));
        }
        let t = acts.len();
        acts.push(Taken {
            t,
            p,
            act: Act::Plain,
        });
    }
    Ok(acts)
}

/// The turns of acts as digits.
fn turns_of(alloc: Global, acts: &Acts) -> Result<String, Fail> {
    let mut turns = String::new(alloc);
    for i in 0..acts.len() {
        turns.push_str(format!(in alloc; "{:X}", acts.at(i).t)?.as_str())?;
    }
    Ok(turns)
}

/// Whether each process has so many acts as the list has of it.
fn are_counted(acts: &Acts) -> bool {
    (0..9u32).all(|p| acts.count_of(p) as usize
        == acts.as_slice().iter().filter(|x| x.p == p).count())
}

/// What a cut leaves of the acts of a case.
fn cut_by(alloc: Global, case: &str) -> Result<Acts, Fail> {
    let Some((processes, cut)) = case.split_once(' ') else {
        return Err(Fail::new("a case without a process"));
    };
    let Some((p, reach)) = cut.split_once(' ') else {
        return Err(Fail::new("a case without a reach"));
    };
    let mut acts = of_processes(alloc, processes)?;
    acts.cut(p.parse::<u32>()?, reach.parse::<u32>()?);
    Ok(acts)
}

#[test]
fn a_cut_leaves_the_first_acts_of_one_process_and_all_of_the_others(
    rt: HostRuntime,
) -> Result<(), Fail> {
    for row in CUTS.lines() {
        let Some((case, expected)) = row.split_once(':') else {
            return Err(Fail::new("a row without a colon"));
        };
        let acts = cut_by(rt.alloc(), case)?;
        holds(turns_of(rt.alloc(), &acts)?.as_str() == expected, row)?;
        holds(are_counted(&acts), row)?;
    }
    cuts_are_of_one_process();
    Ok(())
}
