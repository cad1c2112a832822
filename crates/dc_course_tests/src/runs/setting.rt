//! What a case begins with: its guests, their inputs, and its schedule.

ghost use Rattle.std.specs.Prelude.{◌≡◌, ◌<◌, All, IfOk, false, true};
ghost use Rattle.dc_elf.specs.Loaded.{CanStart};
ghost use Rattle.dc_protocols.specs.Rules.{is_causal};
ghost use Rattle.dc_world.specs.Worlds.{IsOfProcesses};

use crate::runs::guests::images;
use crate::runs::lists::{at, small};
use dc_cases::{as_u32, holds, numbers, value};
use dc_links::Message;
use dc_model::{Entry, Turn};
use dc_protocols::Protocol;
use dc_world::Setup;
use std::alloc::Global;
use std::test::Fail;

/// The protocol of a name.
fn protocol(name: &str) -> Result<Protocol, Fail>
    ensures { IfOk result (λ protocol. is_causal protocol ≡ false) }
{
    match name {
        "cand" => Ok(Protocol::Cand),
        "cand-log" => Ok(Protocol::CandLog),
        "cpvs" => Ok(Protocol::Cpvs),
        "cbndvs" => Ok(Protocol::Cbndvs),
        "cbndvs-log" => Ok(Protocol::CbndvsLog),
        "cpv-2pc" => Ok(Protocol::Cpv2pc),
        "cbndv-2pc" => Ok(Protocol::Cbndv2pc),
        _ => Err(Fail::new(name)),
    }
}

/// The records of one guest.
fn records(alloc: Global, text: &str) -> Result<Vec<Message>, Fail> {
    let mut list = Vec::new(alloc);
    for word in text.split_whitespace() {
        if word.len() > 64 {
            return Err(Fail::new(word));
        }
        list.push(Message::new(word.as_bytes()))?;
    }
    Ok(list)
}

/// The records of so many guests, with `/` between those of two.
fn inputs(alloc: Global, text: &str, n: usize) -> Result<Vec<Vec<Message>>, Fail> {
    let mut list = Vec::new(alloc);
    for part in text.split("/") {
        list.push(records(alloc, part)?)?;
    }
    for _ in list.len()..n {
        list.push(Vec::new(alloc))?;
    }
    Ok(list)
}

/// What the world of a case begins with.
pub fn setup(alloc: Global, case: &str) -> Result<Setup, Fail>
    ensures seven { IfOk result (λ setup. is_causal setup.protocol ≡ false) }
    ensures start { IfOk result (λ setup. All CanStart setup.images.items) }
{
    let protocol = protocol(value(case, "protocol", "cpvs"))?;
    let images = images(alloc, value(case, "guests", "hi"))?;
    let inputs = inputs(alloc, value(case, "inputs", ""), images.len())?;
    if images.is_empty() || images.len() > 8 || inputs.len() != images.len() {
        return Err(Fail::new(case));
    }
    Ok(Setup {
        protocol,
        images,
        inputs,
    })
}

/// The entry of a schedule's line.
fn entry(alloc: Global, line: &str) -> Result<Entry, Fail> {
    if line == "power" {
        return Ok(Entry::Power);
    }
    if let Some(p) = line.strip_prefix("stop ") {
        return Ok(Entry::Stop(as_u32(p)?));
    }
    let words = numbers(alloc, line)?;
    holds(words.len() == 3, line, "an entry")?;
    Ok(Entry::Turn(Turn {
        p: small(&words, 0),
        word: small(&words, 1),
        clock: at(&words, 2),
    }))
}

/// Adds an entry so many times.
fn add(list: &mut Vec<Entry>, entry: Entry, times: u32) -> Result<(), Fail> {
    for _ in 0..times {
        list.push(entry)?;
    }
    Ok(())
}

/// The schedule of a case: entries with `, ` between two, each perhaps so many times, as `4 x 0 0 0`.
pub fn schedule(alloc: Global, case: &str) -> Result<Vec<Entry>, Fail> {
    let mut list = Vec::new(alloc);
    for part in value(case, "schedule", "").split(", ") {
        if part.is_empty() {
            return Ok(list);
        }
        let (times, line) = part.split_once(" x ").unwrap_or(("1", part));
        add(&mut list, entry(alloc, line)?, as_u32(times)?)?;
    }
    Ok(list)
}

/// Whether an entry names one of so many processes, where it names one.
fn names(entry: &Entry, n: usize) -> bool
    ensures { result ≡ true → IsOfProcesses n entry.now }
{
    match *entry {
        Entry::Turn(turn) => (turn.p as usize) < n,
        Entry::Stop(p) => (p as usize) < n,
        Entry::Power => true,
    }
}

/// Whether each entry does.
pub fn may_run(entries: &[Entry], n: usize) -> bool
    ensures { result ≡ true → All (IsOfProcesses n) entries.now }
{
    entries.iter().all(|entry| names(entry, n))
}
