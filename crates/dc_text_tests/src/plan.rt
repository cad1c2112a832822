//! What a plan's text comes to. The rows of the tables are `keys|text|fault`: the plan below without the lines of the keys, and
//! with the text at its end, has that fault, or none. In the text `~` stands for a line feed.

use crate::holding::holds;
use dc_links::Message;
use dc_media::PlannedStop;
use dc_plan::{Command, Key, Medium, Plan, PlanError, PlanFault, ScheduleSource, read_plan};
use dc_protocols::Protocol;
use std::alloc::{AllocError, Global};
use std::test::Fail;

/// A plan that is read, key by key.
const LINES: [(&str, &str); 5] = [
    ("protocol", "protocol = 'cand'\n"),
    ("medium", "medium = 'rio'\n"),
    ("memory", "memory = 65536\n"),
    ("guests", "guests = ['a']\n"),
    ("schedule", "schedule = 's'\n"),
];

/// The plan without the lines of some keys, and with a text at its end.
fn changed(alloc: Global, removed: &str, added: &str) -> Result<String, AllocError> {
    let mut text = String::new(alloc);
    for (key, line) in &LINES {
        if !removed.contains(*key) {
            text.push_str(line)?;
        }
    }
    text.push_str(added)?;
    Ok(text)
}

/// So many copies of a text, between two others.
fn repeated(
    alloc: Global,
    front: &str,
    text: &str,
    count: u32,
    back: &str,
) -> Result<String, AllocError> {
    let mut whole = String::from_str(alloc, front)?;
    for _ in 0..count {
        whole.push_str(text)?;
    }
    whole.push_str(back)?;
    Ok(whole)
}

/// The text of what is wrong with a plan for a command, empty where nothing is.
fn said(alloc: Global, bytes: &[u8], command: Command) -> Result<String, Fail> {
    match read_plan(alloc, bytes, command) {
        Ok(_) => Ok(String::new(alloc)),
        Err(PlanError::Refused(fault)) => Ok(format!(in alloc; "{fault}")?),
        Err(PlanError::Memory) => Err(Fail::new("out of memory")),
    }
}

/// Fails where another fault is told than this one, or none.
fn is_told(alloc: Global, bytes: &[u8], fault: &str, what: &str) -> Result<(), Fail> {
    is_told_by(alloc, bytes, Command::Run, fault, what)
}

/// The same of a plan that a command reads.
fn is_told_by(
    alloc: Global,
    bytes: &[u8],
    command: Command,
    fault: &str,
    what: &str,
) -> Result<(), Fail> {
    let told = said(alloc, bytes, command)?;
    holds(told.as_str() == fault, what)
}

fn row_holds(alloc: Global, command: Command, row: &str) -> Result<(), Fail> {
    let Some((removed, rest)) = row.split_once('|') else {
        return Err(Fail::new("a row without a text"));
    };
    let Some((added, fault)) = rest.split_once('|') else {
        return Err(Fail::new("a row without a fault"));
    };
    let added = added.replace(alloc, "~", "\n")?;
    let text = changed(alloc, removed, added.as_str())?;
    is_told_by(alloc, text.as_bytes(), command, fault, row)
}

fn each_row(alloc: Global, rows: &str) -> Result<(), Fail> {
    each_row_for(alloc, Command::Run, rows)
}

fn each_row_for(alloc: Global, command: Command, rows: &str) -> Result<(), Fail> {
    for row in rows.lines() {
        row_holds(alloc, command, row)?;
    }
    Ok(())
}

/// Plans that are read.
const READ: &str = "\
||
protocol|protocol = 'cpvs'|
protocol|protocol = 'cbndvs'|
protocol|protocol = 'cand-log'|
protocol|protocol = 'cbndvs-log'|
protocol|protocol = 'cpv-2pc'|
protocol|protocol = 'cbndv-2pc'|
memory|memory = 69632|
memory|memory = 1048576|
memory|memory = 65_536|
memory|memory = 0x10000|
memory|\"memory\" = 65536|
memory|'memory' = +65536 # bytes|
guests|guests = [~  'b', # one~]|
guests|guests = ['']|
guests|guests = ['a', 'a']~inputs = [['00'], []]|
guests|guests = ['1', '2', '3', '4', '5', '6', '7', '8']|
schedule|schedule = \"\\u0073\"|
|\r~# CR LF\r~inputs = [[]]\r~|
|inputs = [['']]|
|inputs = [['00ff', 'abcdef0123456789']]|
|inputs = [['0123456789abcdef0123456789abcdef0123456789abcdef0123456789abcdef0123456789abcdef0123456789abcdef0123456789abcdef0123456789abcdef']]|
|inputs = [[]]~stop = []|
guests memory|memory = 131072~guests = ['a']|
protocol|protocol = '''~cand'''|
medium|medium = 'disk'|
medium|medium = 'disk'~halt = 0|
medium|medium = 'disk'~halt = 1000000|
medium|halt = 1~medium = 'disk'~stop = []|
";

#[test]
fn plans_are_read(rt: HostRuntime) -> Result<(), Fail> {
    each_row(rt.alloc(), READ)
}

/// What a plan may not say where its run leaves a journal, each at its key and behind the other faults there.
const JOURNALS: &str = "\
||
|stop = []|
medium|medium = 'disk'|
schedule|seed = 1|range seed
schedule|seed = 1~turns = 3|range seed
schedule|seed = 'one'|kind seed
schedule||missing schedule
|seed = 1|range seed
|stop = [{turn = 1, process = 0, call = 1, keep = 0}]|range stop
|stop = [{turn = 1, process = 0, call = 1}]|missing stop
|stop = [{turn = 1, process = 0, call = 1, keep = 'all'}]|kind stop
medium|medium = 'disk'~halt = 5~stop = [{turn = 1, process = 0, call = 1, keep = 0}]|range stop
medium|medium = 'disk'~halt = 0|range halt
medium|medium = 'disk'~halt = 5|range halt
medium|medium = 'disk'~halt = 1000001|range halt
medium|medium = 'disk'~halt = 'five'|kind halt
|halt = 5|range halt
memory|seed = 1|missing memory
";

#[test]
fn a_journal_forbids_at_its_key(rt: HostRuntime) -> Result<(), Fail> {
    each_row_for(rt.alloc(), Command::Journal, JOURNALS)
}

/// What a plan may not say where its run goes on.
const RESUMES: &str = "\
||range medium
memory||range medium
protocol||missing protocol
medium|medium = 1|kind medium
medium|medium = 'tape'|range medium
medium|medium = 'disk'|
medium|medium = 'disk'~halt = 5|
medium memory|medium = 'disk'|missing memory
";

#[test]
fn a_run_goes_on_from_a_disk_alone(rt: HostRuntime) -> Result<(), Fail> {
    each_row_for(rt.alloc(), Command::Resume, RESUMES)
}

/// No plans, for a text that is none or a key that none has.
const KEYS: &str = "\
|memory = 65536|text
|inputs|text
|inputs = [[]|text
|seed = 9223372036854775808|text
|colour = 1~colour = 2|text
|colour = 1|unknown
|Seed = 1|unknown
|'' = 1|unknown
protocol|protocol.name = 'cand'~memo = 1|unknown
protocol|memo = 1|unknown
|[[stop]]~turns = 1|unknown
medium|medium = 'disk'~[[stop]]~halt = 1|unknown
|Halt = 1|unknown
|stop = [1, {}, {turn = 1, halt = 1}]|unknown
";

#[test]
fn unknown_keys_come_first(rt: HostRuntime) -> Result<(), Fail> {
    each_row(rt.alloc(), KEYS)
}

/// No plans, for their protocol or medium.
const PROTOCOLS: &str = "\
protocol||missing protocol
protocol medium||missing protocol
protocol|protocol = 1|kind protocol
protocol|protocol = ['cand']|kind protocol
protocol|protocol = 'CAND'|range protocol
protocol|protocol = ''|range protocol
protocol medium|protocol = 'cpv'|range protocol
medium||missing medium
medium|medium = true|kind medium
medium|medium = 'tape'|range medium
medium memory|medium = 'tape'|range medium
";

#[test]
fn protocols_and_media_are_named(rt: HostRuntime) -> Result<(), Fail> {
    each_row(rt.alloc(), PROTOCOLS)
}

/// No plans, for their memory.
const MEMORY: &str = "\
memory||missing memory
memory|memory = 65536.0|kind memory
memory|memory = 1.5|kind memory
memory|memory = '65536'|kind memory
memory|memory = 1979-05-27|kind memory
memory|memory = 65537|range memory
memory|memory = 61440|range memory
memory|memory = 1052672|range memory
memory|memory = 4295032832|range memory
memory|memory = 0|range memory
memory|memory = -1|range memory
memory|memory = -65536|range memory
memory guests|memory = 0|range memory
";

#[test]
fn memory_has_pages(rt: HostRuntime) -> Result<(), Fail> {
    each_row(rt.alloc(), MEMORY)
}

/// No plans, for their guests.
const GUESTS: &str = "\
guests||missing guests
guests|guests = 'a'|kind guests
guests|guests = [1]|kind guests
guests|guests = ['a', 'b', 1]|kind guests
guests|guests = ['1', '2', '3', '4', '5', '6', '7', '8', '9']|too many guests
guests|guests = []|range guests
guests|guests = []~inputs = 1|range guests
guests|guests = ['a', 'b']~inputs = [[]]|range inputs
";

#[test]
fn guests_are_named(rt: HostRuntime) -> Result<(), Fail> {
    each_row(rt.alloc(), GUESTS)
}

/// No plans, for their inputs.
const INPUTS: &str = "\
|inputs = '6f6b'|kind inputs
|inputs = ['6f6b']|kind inputs
|inputs = [[1]]|kind inputs
|inputs = [['6F'], [], 1]|kind inputs
|inputs = []|range inputs
|inputs = [[], []]|range inputs
|inputs = [['6F']]|range inputs
|inputs = [['00', '0']]|range inputs
|inputs = [['0g']]|range inputs
|inputs = [['0123456789abcdef0123456789abcdef0123456789abcdef0123456789abcdef0123456789abcdef0123456789abcdef0123456789abcdef0123456789abcdef00']]|range inputs
schedule|inputs = [[], []]|range inputs
";

#[test]
fn inputs_are_hexadecimal(rt: HostRuntime) -> Result<(), Fail> {
    each_row(rt.alloc(), INPUTS)
}

/// No plans, for their schedule, seed or turns.
const TURNS: &str = "\
schedule||missing schedule
schedule|turns = 1|missing schedule
schedule|schedule = 1|kind schedule
schedule|schedule = ['s']~seed = 'x'|kind schedule
schedule|seed = 'x'~turns = 1|kind seed
schedule|seed = -1~turns = 'x'|range seed
schedule|seed = 0|missing turns
schedule|seed = 0~stop = 1|missing turns
schedule|seed = 0~turns = 'x'|kind turns
schedule|seed = 0~turns = 1000001|range turns
schedule|seed = 0~turns = -1|range turns
schedule|seed = 0~turns = 0~stop = 1|kind stop
|seed = 1.0|kind seed
|seed = 1|range seed
|seed = 1~turns = 'x'|range seed
|turns = 'x'|kind turns
|turns = 1|range turns
|turns = 1000001|range turns
|turns = -1|range turns
|turns = 1~stop = 1|range turns
";

#[test]
fn turns_have_one_source(rt: HostRuntime) -> Result<(), Fail> {
    each_row(rt.alloc(), TURNS)
}

/// No plans, for their stops.
const STOPS: &str = "\
|stop = 1|kind stop
|stop = {}|kind stop
|[stop]~turn = 1~colour = 1|kind stop
|stop = [1]|kind stop
|stop = [[]]|kind stop
|stop = [{}]|missing stop
|stop = [1, {}]|missing stop
|stop = [{turn = 'x', process = 0, call = 1}]|missing stop
|stop = [{process = 0, call = 1, keep = 0}]|missing stop
|stop = [{turn = 0, call = 1, keep = 0}]|missing stop
|[[stop]]~turn = 0~process = 0~keep = 0|missing stop
|stop = [{turn = 'x', process = 0, call = 1, keep = 0}, {turn = 0, process = 0, keep = 0}]|missing stop
|stop = [{turn = -1, process = 0, call = 1, keep = 0}, {turn = 'x', process = 0, call = 1, keep = 0}]|kind stop
|stop = [{turn = 0, process = 0, call = 1, keep = 0, fill = '0'}]|kind stop
|stop = [{turn = 1000000, process = 0, call = 1, keep = 0}]|range stop
|stop = [{turn = 0, process = 1, call = 1, keep = 0}]|range stop
|stop = [{turn = 0, process = 0, call = 0, keep = 0}]|range stop
|stop = [{turn = 0, process = 0, call = 1, keep = 4000000001}]|range stop
|stop = [{turn = 0, process = 0, call = 1, keep = 0, fill = 0}]|range stop
medium|medium = 'disk'~stop = [{turn = 0, process = 0, call = 1, keep = 0, fill = 256}]|range stop
medium|medium = 'disk'~stop = [{turn = 0, process = 0, call = 1, keep = 0, fill = -1}]|range stop
|[[stop]]~turn = 0~process = 0~call = 4000000001~keep = 0|range stop
|[[stop]]~turn = 0~process = 0~call = 1~keep = -1|range stop
guests|guests = ['1', '2', '3', '4', '5', '6', '7', '8']~stop = [{turn = 0, process = 8, call = 1, keep = 0}]|range stop
";

#[test]
fn stops_are_whole(rt: HostRuntime) -> Result<(), Fail> {
    each_row(rt.alloc(), STOPS)
}

/// No plans, for where they halt.
const HALTS: &str = "\
medium|medium = 'disk'~halt = '5'|kind halt
medium|medium = 'disk'~halt = 5.0|kind halt
medium|medium = 'disk'~halt = [5]|kind halt
medium|medium = 'disk'~halt = 1000001|range halt
medium|medium = 'disk'~halt = 4294967296|range halt
medium|medium = 'disk'~halt = -1|range halt
|halt = '5'|kind halt
|halt = 5|range halt
|halt = 0|range halt
|halt = 1000001|range halt
schedule|halt = '5'|missing schedule
|turns = 1~halt = '5'|range turns
medium|medium = 'disk'~halt = 5~stop = [{}]|missing stop
medium|medium = 'disk'~halt = '5'~stop = 1|kind stop
medium|medium = 'disk'~halt = -1~stop = [{turn = 1000000, process = 0, call = 1, keep = 0}]|range stop
medium|medium = 'disk'~halt = -1~stop = [{turn = 0, process = 0, call = 1, keep = 0}]|range halt
";

#[test]
fn halts_are_entries_on_disks(rt: HostRuntime) -> Result<(), Fail> {
    each_row(rt.alloc(), HALTS)
}

fn has_values(plan: &Plan) -> Result<(), Fail> {
    holds(plan.protocol == Protocol::Cbndvs, "protocol")?;
    holds(plan.medium == Medium::Rio, "medium")?;
    holds(plan.memory == 1048576, "memory")?;
    holds(plan.stops.is_empty(), "stops")?;
    holds(plan.halt.is_none(), "halt")
}

fn has_guest(guests: &[String]) -> Result<(), Fail> {
    match guests {
        [guest] => holds(guest.as_str() == "ping", "guest"),
        _ => Err(Fail::new("guests")),
    }
}

/// Whether the one guest has this input.
fn is_input(inputs: &[Vec<Message>], want: &[&[u8]]) -> Result<(), Fail> {
    match inputs {
        [input] => are_records(input, want),
        _ => Err(Fail::new("inputs")),
    }
}

fn are_records(records: &[Message], want: &[&[u8]]) -> Result<(), Fail> {
    holds(records.len() == want.len(), "how many records")?;
    for (record, bytes) in records.iter().zip(want.iter()) {
        holds(record.as_slice() == *bytes, "record")?;
    }
    Ok(())
}

#[test]
fn a_plan_says_its_values(rt: HostRuntime) -> Result<(), Fail> {
    let text =
        "protocol = \"cbndvs\"\nmedium = \"rio\"\nmemory = 1048576\nguests = [\"ping\"]\ninputs = [[\"6f6b\", \"\"]]\nschedule = \"turns\"\n";
    let plan = read_plan(rt.alloc(), text.as_bytes(), Command::Run)?;
    has_values(&plan)?;
    is_source(rt.alloc(), &plan.schedule, "file=turns")?;
    has_guest(&plan.guests)?;
    is_input(&plan.inputs, &[b"ok".as_slice(), b"".as_slice()])
}

#[test]
fn a_guest_without_inputs_has_no_records(rt: HostRuntime) -> Result<(), Fail> {
    let text = changed(rt.alloc(), "", "")?;
    let plan = read_plan(rt.alloc(), text.as_bytes(), Command::Run)?;
    is_input(&plan.inputs, &[])
}

#[test]
fn no_document_is_no_plan(rt: HostRuntime) -> Result<(), Fail> {
    let alloc = rt.alloc();
    is_told(alloc, b"protocol = '\xff'", "text", "no UTF-8")?;
    is_told(alloc, b"protocol", "text", "a key alone")?;
    is_told(alloc, b"", "missing protocol", "nothing")?;
    is_told(alloc, b"# nothing\r\n", "missing protocol", "a comment")
}

/// A value of so many members has this fault.
fn counted(
    alloc: Global,
    front: &str,
    text: &str,
    count: u32,
    back: &str,
    fault: &str,
) -> Result<(), Fail> {
    let value = repeated(alloc, front, text, count, back)?;
    let plan = changed(alloc, "", value.as_str())?;
    is_told(alloc, plan.as_bytes(), fault, front)
}

#[test]
fn members_are_counted(rt: HostRuntime) -> Result<(), Fail> {
    let alloc = rt.alloc();
    counted(alloc, "inputs = [[", "'',", 10_000, "]]", "")?;
    counted(
        alloc,
        "inputs = [[], [",
        "'x',",
        10_001,
        "]]",
        "too many inputs",
    )?;
    let stop = "{turn = -1, process = 0, call = 1, keep = 0},";
    counted(alloc, "stop = [", stop, 1_000, "]", "range stop")?;
    counted(alloc, "stop = [", stop, 1_001, "]", "too many stop")?;
    counted(alloc, "stop = [1,", stop, 1_001, "]", "kind stop")?;
    counted(alloc, "stop = [1, {},", stop, 1_001, "]", "missing stop")?;
    let stop = "{turn = 0, process = 0, call = 1, keep = 0},";
    counted(alloc, "stop = [", stop, 1_000, "]", "")
}

/// What a source says, as text.
fn source_text(alloc: Global, source: &ScheduleSource) -> Result<String, AllocError> {
    match source {
        ScheduleSource::File(name) => format!(in alloc; "file={}", name.as_str()),
        ScheduleSource::Seed(seed) => format!(in alloc; "seed {} {}", seed.start, seed.turns),
    }
}

fn is_source(alloc: Global, source: &ScheduleSource, want: &str) -> Result<(), Fail> {
    let told = source_text(alloc, source)?;
    holds(told.as_str() == want, want)
}

/// What a stop says, as text: its turn, process and call, what it keeps and what it fills.
fn stop_text(alloc: Global, stop: &PlannedStop) -> Result<String, AllocError> {
    let mut text = format!(in alloc;
        "{} {} {} {}",
        stop.turn, stop.process, stop.call, stop.tear.keep
    )?;
    if let Some(byte) = stop.tear.fill {
        text.push_str(" ")?;
        text.push_str(format!(in alloc; "{byte}")?.as_str())?;
    }
    Ok(text)
}

/// What a plan says of its schedule, its stops and where it halts, as text.
fn plan_text(alloc: Global, plan: &Plan) -> Result<String, AllocError> {
    let mut text = source_text(alloc, &plan.schedule)?;
    for stop in &plan.stops {
        text.push_str("; ")?;
        text.push_str(stop_text(alloc, stop)?.as_str())?;
    }
    if let Some(entry) = plan.halt {
        let halt = format!(in alloc; "; halt {entry}")?;
        text.push_str(halt.as_str())?;
    }
    Ok(text)
}

/// Plans with what they say of their schedule, their stops and where they halt.
const SAID: &str = "\
schedule|schedule = ''|file=
schedule|seed = 0~turns = 0|seed 0 0
schedule|turns = 3~seed = 7|seed 7 3
schedule|seed = 9223372036854775807~turns = 1000000|seed 9223372036854775807 1000000
|stop = []|file=s
|[[stop]]~turn = 0~process = 0~call = 1~keep = 0|file=s; 0 0 1 0
medium|medium = 'disk'~stop = [{turn = 1, process = 0, call = 2, keep = 3, fill = 255}, {turn = 1, process = 0, call = 2, keep = 3}]|file=s; 1 0 2 3 255; 1 0 2 3
medium|medium = 'disk'~halt = 0|file=s; halt 0
medium|medium = 'disk'~halt = 1000000~stop = [{turn = 1, process = 0, call = 2, keep = 3}]|file=s; 1 0 2 3; halt 1000000
guests schedule|guests = ['1', '2', '3', '4', '5', '6', '7', '8']~seed = 7~turns = 3~stop = [{turn = 999999, process = 7, call = 4000000000, keep = 4000000000}, {keep = 4, call = 3, process = 2, turn = 1}]|seed 7 3; 999999 7 4000000000 4000000000; 1 2 3 4
";

fn plan_says(alloc: Global, row: &str) -> Result<(), Fail> {
    let Some((removed, rest)) = row.split_once('|') else {
        return Err(Fail::new("a row without a plan"));
    };
    let Some((added, want)) = rest.split_once('|') else {
        return Err(Fail::new("a row without a text"));
    };
    let added = added.replace(alloc, "~", "\n")?;
    let text = changed(alloc, removed, added.as_str())?;
    let plan = read_plan(alloc, text.as_bytes(), Command::Run)?;
    let told = plan_text(alloc, &plan)?;
    holds(told.as_str() == want, row)
}

#[test]
fn a_plan_says_its_schedule_its_stops_and_its_halt(rt: HostRuntime) -> Result<(), Fail> {
    for row in SAID.lines() {
        plan_says(rt.alloc(), row)?;
    }
    Ok(())
}

fn has_text(alloc: Global, fault: PlanFault, text: &str) -> Result<(), Fail> {
    let told = format!(in alloc; "{fault}")?;
    holds(told.as_str() == text, text)
}

#[test]
fn a_fault_names_its_key(rt: HostRuntime) -> Result<(), Fail> {
    let texts = [
        (PlanFault::Text, "text"),
        (PlanFault::Unknown, "unknown"),
        (PlanFault::Missing(Key::Protocol), "missing protocol"),
        (PlanFault::Kind(Key::Medium), "kind medium"),
        (PlanFault::TooMany(Key::Guests), "too many guests"),
        (PlanFault::Range(Key::Memory), "range memory"),
        (PlanFault::Range(Key::Inputs), "range inputs"),
        (PlanFault::Missing(Key::Schedule), "missing schedule"),
        (PlanFault::Kind(Key::Seed), "kind seed"),
        (PlanFault::Missing(Key::Turns), "missing turns"),
        (PlanFault::TooMany(Key::Stop), "too many stop"),
        (PlanFault::Range(Key::Halt), "range halt"),
    ];
    for (fault, text) in texts {
        has_text(rt.alloc(), fault, text)?;
    }
    Ok(())
}
