//! The calls of a segment by their names.

ghost use Rattle.std.specs.Prelude.{◌≡◌};

use super::rig::Rig;
use super::texts::{at, small};
use super::trial::Trial;
use dc_kernel::{LogRecord, Reply};
use dc_links::Message;
use std::alloc::Global;
use std::test::Fail;

/// What bodies of events begin with.
const BODY: [u8; 64] = [
    1, 2, 3, 4, 5, 6, 7, 8, 9, 10, 11, 12, 13, 14, 15, 16, 17, 18, 19, 20, 21, 22, 23, 24, 25, 26,
    27, 28, 29, 30, 31, 32, 33, 34, 35, 36, 37, 38, 39, 40, 41, 42, 43, 44, 45, 46, 47, 48, 49, 50,
    51, 52, 53, 54, 55, 56, 57, 58, 59, 60, 61, 62, 63, 64,
];

/// What an event was told, by the numbers of its call and its answer, its sender and its body.
fn reply(call: u64, code: u64, sender: u32, body: Message) -> Option<Reply> {
    match (call, code) {
        (3, 0) => Some(Reply::InputNone),
        (3, 1) => Some(Reply::InputNext(body)),
        (3, 2) => Some(Reply::InputEnd),
        (7, 0) => Some(Reply::ReceiveNone),
        (7, 1) => Some(Reply::ReceiveFrom(sender, body)),
        _ => None,
    }
}

/// What an event was told: its call, answer and sender, and how many bytes its body has, behind its position.
pub fn told_in(args: &[u64]) -> Result<Reply, Fail> {
    let length = (at(args, 4) as usize).min(64);
    let body = Message::new(&BODY[..length]);
    match reply(at(args, 1), at(args, 2), small(at(args, 3)), body) {
        Some(told) => Ok(told),
        None => Err(Fail::new("an event")),
    }
}

/// The event of a number that the last recovery read, as it was told.
fn read_event(rig: &Rig, alloc: Global, k: u64) -> Result<Vec<u64>, Fail> {
    let Some(rec) = rig.saved.log.get(k as usize) else {
        return Err(Fail::new("no such event"));
    };
    let mut list = Vec::new(alloc);
    tell(rec, &mut list)?;
    Ok(list)
}

/// The numbers of its call and its answer, its sender and how many bytes its body has.
fn numbers_of(told: &Reply) -> [u64; 4] {
    match told {
        Reply::InputNone => [3, 0, 0, 0],
        Reply::InputNext(body) => [3, 1, 0, body_length(body)],
        Reply::InputEnd => [3, 2, 0, 0],
        Reply::ReceiveNone => [7, 0, 0, 0],
        Reply::ReceiveFrom(sender, body) => [7, 1, u64::from(*sender), body_length(body)],
    }
}

/// Tells an event: its position, call, answer and sender, and how many bytes its body has.
pub fn tell(rec: &LogRecord, list: &mut Vec<u64>) -> Result<(), Fail> {
    list.push(u64::from(rec.position))?;
    list.extend_from_slice(&numbers_of(&rec.told))?;
    Ok(())
}

/// How many bytes a body has, or 99 where they are not those of an event that is told so.
fn body_length(body: &Message) -> u64 {
    let bytes = body.as_slice();
    if bytes == &BODY[..bytes.len()] {
        bytes.len() as u64
    } else {
        99
    }
}

/// What a recovery reads: the number of the commit, its position, and how many events were logged since.
fn recover(rig: &mut Rig, alloc: Global, d: u32) -> Result<Vec<u64>, Fail>
    requires { ⟦<Rig as Trial>⟧.fits rig.old }
    ensures { ⟦<Rig as Trial>⟧.fits rig.new }
{
    let answer = rig.recover(d);
    let mut list = Vec::new(alloc);
    list.push(answer)?;
    if answer == 0 {
        list.push(u64::from(rig.saved.kernel.commit()))?;
        list.push(u64::from(rig.saved.position))?;
        list.push(rig.saved.log.len() as u64)?;
    }
    Ok(list)
}

/// The events of the last recovery.
fn log_of(rig: &Rig, list: &mut Vec<u64>) -> Result<(), Fail> {
    for rec in rig.saved.log.as_slice() {
        tell(rec, list)?;
    }
    Ok(())
}

/// Each word of memory that is not 0, with its index before it.
fn memory_of(rig: &Rig, list: &mut Vec<u64>) -> Result<(), Fail>
    requires { ⟦<Rig as Trial>⟧.fits rig.now }
{
    for i in 0..rig.size {
        let w = rig.word(i)?;
        if w != 0 {
            list.push(u64::from(i))?;
            list.push(w)?;
        }
    }
    Ok(())
}

fn memory(rig: &Rig, alloc: Global) -> Result<Vec<u64>, Fail>
    requires { ⟦<Rig as Trial>⟧.fits rig.now }
{
    let mut list = Vec::new(alloc);
    memory_of(rig, &mut list)?;
    Ok(list)
}

/// What a recovery reads, and behind it the events and the memory.
fn state(rig: &mut Rig, alloc: Global, d: u32) -> Result<Vec<u64>, Fail>
    requires { ⟦<Rig as Trial>⟧.fits rig.old }
    ensures { ⟦<Rig as Trial>⟧.fits rig.new }
{
    let mut list = recover(rig, alloc, d)?;
    if rig.ready {
        log_of(rig, &mut list)?;
        memory_of(rig, &mut list)?;
    }
    Ok(list)
}

/// Keeps a copy of all words of the device.
fn keep(rig: &mut Rig, alloc: Global) -> Result<u64, Fail>
    requires { ⟦<Rig as Trial>⟧.fits rig.old }
    ensures { ⟦<Rig as Trial>⟧.fits rig.new }
{
    let mut kept = Vec::new(alloc);
    for i in 0..rig.words() {
        kept.push(small(rig.get(i)?))?;
    }
    rig.kept = kept;
    Ok(0)
}

/// How many words of the device are not those of the copy.
fn differences(rig: &Rig) -> Result<u64, Fail>
    requires { ⟦<Rig as Trial>⟧.fits rig.now }
{
    let mut count: u64 = 0;
    for i in 0..rig.words() {
        if rig.kept.get(i as usize).copied().map(u64::from) != Some(rig.get(i)?) {
            count = count.saturating_add(1);
        }
    }
    Ok(count)
}

/// How many calls the device had since that was last asked.
fn calls(rig: &mut Rig) -> u64
    requires { ⟦<Rig as Trial>⟧.fits rig.old }
    ensures { ⟦<Rig as Trial>⟧.fits rig.new }
{
    let calls = rig.dev.calls(rig.p);
    let since = calls.saturating_sub(rig.asked);
    rig.asked = calls;
    since
}

fn fall(rig: &mut Rig) -> u64
    requires { ⟦<Rig as Trial>⟧.fits rig.old }
    ensures { ⟦<Rig as Trial>⟧.fits rig.new }
{
    rig.fall();
    0
}

/// The answer of a call that answers one number.
fn one(rig: &mut Rig, alloc: Global, verb: &str, args: &[u64]) -> Result<u64, Fail>
    requires { ⟦<Rig as Trial>⟧.fits rig.old }
    ensures { ⟦<Rig as Trial>⟧.fits rig.new }
{
    let (a, b, c) = (small(at(args, 0)), small(at(args, 1)), small(at(args, 2)));
    match verb {
        "load" => rig.word(a),
        "store" => rig.set(a, b, c),
        "commit" => rig.commit(alloc, a),
        "log" => rig.log(a, told_in(args)?),
        "prepare" => rig.prepare(alloc, a),
        "decide" => rig.decide(a),
        "finish" => rig.finish(),
        "decided" => Ok(u64::from(rig.decided()?.number)),
        "fall" => Ok(fall(rig)),
        _ => other(rig, alloc, verb, args),
    }
}

/// The answer of a call that looks at the device.
fn other(rig: &mut Rig, alloc: Global, verb: &str, args: &[u64]) -> Result<u64, Fail>
    requires { ⟦<Rig as Trial>⟧.fits rig.old }
    ensures { ⟦<Rig as Trial>⟧.fits rig.new }
{
    let (a, b) = (small(at(args, 0)), small(at(args, 1)));
    match verb {
        "get" => rig.get(a),
        "put" => rig.put(a, b),
        "calls" => Ok(calls(rig)),
        "ready" => Ok(u64::from(rig.ready)),
        "words" => Ok(u64::from(rig.words())),
        "keep" => keep(rig, alloc),
        "differences" => differences(rig),
        "attach" => rig.attach(alloc),
        _ => Err(Fail::new(verb)),
    }
}

/// The answer of a call.
pub fn call(rig: &mut Rig, alloc: Global, verb: &str, args: &[u64]) -> Result<Vec<u64>, Fail>
    requires { ⟦<Rig as Trial>⟧.fits rig.old }
    ensures { ⟦<Rig as Trial>⟧.fits rig.new }
{
    match verb {
        "recover" => recover(rig, alloc, small(at(args, 0))),
        "state" => state(rig, alloc, small(at(args, 0))),
        "memory" => memory(rig, alloc),
        "event" => read_event(rig, alloc, at(args, 0)),
        _ => Ok(vec![in alloc; one(rig, alloc, verb, args)?]?),
    }
}
