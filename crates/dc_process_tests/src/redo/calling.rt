//! The calls of a redo log by their names.

ghost use Rattle.std.specs.Prelude.{◌≡◌};

use super::rig::Rig;
use crate::vista::calling::{tell, told_in};
use crate::vista::texts::{at, small};
use crate::vista::trial::Trial;
use std::alloc::Global;
use std::test::Fail;

/// What a recovery reads: the number of the commit, its position, and how many events were logged since.
fn recover(rig: &mut Rig, alloc: Global, d: u32) -> Result<Vec<u64>, Fail>
    requires { ⟦<Rig as Trial>⟧.fits rig.old }
    ensures { ⟦<Rig as Trial>⟧.fits rig.new }
{
    let answer = rig.recover(d);
    let mut list = Vec::new(alloc);
    list.push(answer)?;
    if answer == 0 {
        list.push(u64::from(rig.saved.kernel.commit()))?;
        list.push(u64::from(rig.saved.position))?;
        list.push(rig.saved.log.len() as u64)?;
    }
    Ok(list)
}

/// The events of the last recovery.
fn log_of(rig: &Rig, list: &mut Vec<u64>) -> Result<(), Fail> {
    for rec in rig.saved.log.as_slice() {
        tell(rec, list)?;
    }
    Ok(())
}

/// Each word of memory that is not 0, with its index before it.
fn memory_of(rig: &Rig, list: &mut Vec<u64>) -> Result<(), Fail>
    requires { ⟦<Rig as Trial>⟧.fits rig.now }
{
    for i in 0..rig.size {
        let w = rig.word(i)?;
        if w != 0 {
            list.push(u64::from(i))?;
            list.push(w)?;
        }
    }
    Ok(())
}

fn memory(rig: &Rig, alloc: Global) -> Result<Vec<u64>, Fail>
    requires { ⟦<Rig as Trial>⟧.fits rig.now }
{
    let mut list = Vec::new(alloc);
    memory_of(rig, &mut list)?;
    Ok(list)
}

/// What a recovery reads, and behind it the events and the memory.
fn state(rig: &mut Rig, alloc: Global, d: u32) -> Result<Vec<u64>, Fail>
    requires { ⟦<Rig as Trial>⟧.fits rig.old }
    ensures { ⟦<Rig as Trial>⟧.fits rig.new }
{
    let mut list = recover(rig, alloc, d)?;
    if rig.ready {
        log_of(rig, &mut list)?;
        memory_of(rig, &mut list)?;
    }
    Ok(list)
}

/// How many calls the disk had since that was last asked.
fn calls(rig: &mut Rig) -> u64
    requires { ⟦<Rig as Trial>⟧.fits rig.old }
    ensures { ⟦<Rig as Trial>⟧.fits rig.new }
{
    let calls = rig.dev.calls(rig.p);
    let since = calls.saturating_sub(rig.asked);
    rig.asked = calls;
    since
}

fn fall(rig: &mut Rig) -> u64
    requires { ⟦<Rig as Trial>⟧.fits rig.old }
    ensures { ⟦<Rig as Trial>⟧.fits rig.new }
{
    rig.fall();
    0
}

/// Keeps a copy of all bytes of the disk.
fn keep(rig: &mut Rig, alloc: Global) -> Result<u64, Fail>
    requires { ⟦<Rig as Trial>⟧.fits rig.old }
    ensures { ⟦<Rig as Trial>⟧.fits rig.new }
{
    let bytes = rig.bytes(alloc)?;
    rig.kept = bytes;
    Ok(0)
}

/// Whether the bytes of the disk are not those of the copy.
fn changed(rig: &mut Rig, alloc: Global) -> Result<u64, Fail>
    requires { ⟦<Rig as Trial>⟧.fits rig.old }
    ensures { ⟦<Rig as Trial>⟧.fits rig.new }
{
    let bytes = rig.bytes(alloc)?;
    Ok(u64::from(bytes.as_slice() != rig.kept.as_slice()))
}

/// Bytes of the disk from an offset on.
fn bytes(rig: &mut Rig, alloc: Global, from: u64, count: u64) -> Result<Vec<u64>, Fail>
    requires { ⟦<Rig as Trial>⟧.fits rig.old }
    ensures { ⟦<Rig as Trial>⟧.fits rig.new }
{
    let bytes = rig.bytes(alloc)?;
    let mut list = Vec::new(alloc);
    for k in 0..count {
        match bytes.get(from.saturating_add(k) as usize) {
            Some(byte) => list.push(u64::from(*byte))?,
            None => return Err(Fail::new("a byte past the end")),
        }
    }
    Ok(list)
}

/// The answer of a call that answers one number.
fn one(rig: &mut Rig, alloc: Global, verb: &str, args: &[u64]) -> Result<u64, Fail>
    requires { ⟦<Rig as Trial>⟧.fits rig.old }
    ensures { ⟦<Rig as Trial>⟧.fits rig.new }
{
    let (a, b, c) = (small(at(args, 0)), small(at(args, 1)), small(at(args, 2)));
    match verb {
        "load" => rig.word(a),
        "store" => rig.set(a, b, c),
        "commit" => rig.commit(alloc, a),
        "log" => rig.log(a, told_in(args)?),
        "prepare" => rig.prepare(alloc, a),
        "decide" => rig.decide(a),
        "finish" => rig.finish(),
        "decided" => Ok(u64::from(rig.decided()?.number)),
        "steady" => Ok(u64::from(rig.decided()?.is_steady)),
        "fall" => Ok(fall(rig)),
        _ => other(rig, alloc, verb, args),
    }
}

/// The answer of a call that looks at the disk, or at the handle.
fn other(rig: &mut Rig, alloc: Global, verb: &str, args: &[u64]) -> Result<u64, Fail>
    requires { ⟦<Rig as Trial>⟧.fits rig.old }
    ensures { ⟦<Rig as Trial>⟧.fits rig.new }
{
    match verb {
        "calls" => Ok(calls(rig)),
        "ready" => Ok(u64::from(rig.ready)),
        "size" => Ok(rig.disk_size()),
        "keep" => keep(rig, alloc),
        "changed" => changed(rig, alloc),
        "attach" => rig.attach(alloc),
        "blank" => rig.blank(alloc, at(args, 0)),
        _ => Err(Fail::new(verb)),
    }
}

/// The answer of a call.
pub fn call(rig: &mut Rig, alloc: Global, verb: &str, args: &[u64]) -> Result<Vec<u64>, Fail>
    requires { ⟦<Rig as Trial>⟧.fits rig.old }
    ensures { ⟦<Rig as Trial>⟧.fits rig.new }
{
    match verb {
        "recover" => recover(rig, alloc, small(at(args, 0))),
        "state" => state(rig, alloc, small(at(args, 0))),
        "memory" => memory(rig, alloc),
        "bytes" => bytes(rig, alloc, at(args, 0), at(args, 1)),
        _ => Ok(vec![in alloc; one(rig, alloc, verb, args)?]?),
    }
}
