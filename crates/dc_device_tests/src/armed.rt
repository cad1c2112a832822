//! Armed devices, by calls and answers that are told as text.

mod cases;
mod fakes;
mod lent;

use crate::calling::{Rig, at, byte, bytes, cases_hold, code, settings, small, words};
use cases::{DISKS, WORDS};
use dc_armed::Armed;
use dc_media::{DeviceFault, Disks, Keeps, MakeFault, PlannedStop, Tear};
use fakes::{FakeDisk, FakeWords};
use std::alloc::Global;
use std::test::Fail;

fn made_code(answer: Result<(), MakeFault>) -> u64 {
    match answer {
        Ok(()) => 0,
        Err(MakeFault::Memory) => 3,
        Err(MakeFault::Failed) => 2,
    }
}

fn planned(args: &[u64]) -> PlannedStop {
    let keep = small(at(args, 3));
    let fill = args.get(4).map(|n| byte(*n));
    PlannedStop {
        turn: small(at(args, 0)),
        process: small(at(args, 1)),
        call: small(at(args, 2)),
        tear: Tear { keep, fill },
    }
}

/// The planned stops of a case.
fn stops_in(alloc: Global, lines: &str) -> Result<Vec<PlannedStop>, Fail> {
    let mut stops = Vec::new(alloc);
    for args in settings(alloc, lines, "stop ")?.as_slice() {
        stops.push(planned(args))?;
    }
    Ok(stops)
}

/// What the device of a case refuses its first call with.
fn refusal_in(lines: &str) -> Option<DeviceFault> {
    if lines.starts_with("refusal stopped") {
        return Some(DeviceFault::Stopped);
    }
    if lines.starts_with("refusal failed") {
        return Some(DeviceFault::Failed);
    }
    None
}

fn write_at(disk: &mut Armed<FakeDisk>, p: u32, at: u64, piece: &[u8]) -> u64 {
    if at <= 200 && piece.len() as u64 <= 200 - at {
        return code(disk.write(p, at, piece));
    }
    9
}

/// The bytes at an offset, or the refusal.
fn bytes_at(
    disk: &mut Armed<FakeDisk>,
    alloc: Global,
    p: u32,
    at: u64,
    count: usize,
) -> Result<Vec<u64>, Fail> {
    let mut list = Vec::new(alloc);
    let mut room = vec![in alloc; 0; count.min(200)]?;
    if at > 200 - room.len() as u64 {
        return Ok(list);
    }
    match disk.read(p, at, &mut room) {
        Ok(()) => {
            for byte in room.as_slice() {
                list.push(u64::from(*byte))?;
            }
        }
        Err(fault) => list.push(code(Err(fault)))?,
    }
    Ok(list)
}

impl Rig for Armed<FakeDisk> {
    fn new(alloc: Global, lines: &str) -> Result<Armed<FakeDisk>, Fail> {
        let mut armed = Armed::new(FakeDisk::new(refusal_in(lines)), stops_in(alloc, lines)?);
        armed.at_turn(0);
        Ok(armed)
    }

    fn call(&mut self, alloc: Global, verb: &str, args: &[u64]) -> Result<Vec<u64>, Fail> {
        let p = small(at(args, 0));
        match verb {
            "write" => {
                let piece = bytes(alloc, args.get(2..).unwrap_or(&[]))?;
                Ok(vec![in alloc; write_at(self, p, at(args, 1), &piece)]?)
            }
            "read" => bytes_at(self, alloc, p, at(args, 1), at(args, 2) as usize),
            "sync" => Ok(vec![in alloc; code(self.sync(p))]?),
            "syncs" => Ok(vec![in alloc; u64::from(self.device().syncs)]?),
            "size" => Ok(vec![in alloc; self.size(p)]?),
            "format" => Ok(vec![in alloc; made_code(self.format(alloc, 0, at(args, 0)))]?),
            "calls" => Ok(vec![in alloc; self.calls(p)]?),
            _ => Err(Fail::new(verb)),
        }
    }
}

fn store_at(stores: &mut Armed<FakeWords>, p: u32, i: u32, w: u32) -> u64 {
    if i < 40 {
        return code(stores.store(p, i, w));
    }
    9
}

fn words_at(stores: &mut Armed<FakeWords>, p: u32, i: u32, row: &[u32]) -> u64 {
    if i < 40 && row.len() <= 40 - i as usize {
        return code(stores.store_words(p, i, row));
    }
    9
}

fn word_at(stores: &Armed<FakeWords>, p: u32, i: u32) -> u64 {
    if i < 40 {
        return u64::from(stores.load(p, i));
    }
    9
}

fn copy_at(stores: &mut Armed<FakeWords>, p: u32, from: u32, to: u32) -> u64 {
    if from <= 4 && to >= 20 && to <= 24 {
        return code(stores.copy_line(p, from, to));
    }
    9
}

impl Rig for Armed<FakeWords> {
    fn new(alloc: Global, lines: &str) -> Result<Armed<FakeWords>, Fail> {
        let mut armed = Armed::new(FakeWords::new(), stops_in(alloc, lines)?);
        armed.at_turn(0);
        Ok(armed)
    }

    fn call(&mut self, alloc: Global, verb: &str, args: &[u64]) -> Result<Vec<u64>, Fail> {
        let (p, i, w) = (small(at(args, 0)), small(at(args, 1)), small(at(args, 2)));
        match verb {
            "store" => Ok(vec![in alloc; store_at(self, p, i, w)]?),
            "words" => {
                let row = words(alloc, args.get(2..).unwrap_or(&[]))?;
                Ok(vec![in alloc; words_at(self, p, i, &row)]?)
            }
            "load" => Ok(vec![in alloc; word_at(self, p, i)]?),
            "copy" => Ok(vec![in alloc; copy_at(self, p, i, w)]?),
            "lines" => Ok(vec![in alloc; u64::from(self.device().lines)]?),
            "rows" => Ok(vec![in alloc; u64::from(self.device().rows)]?),
            "format" => Ok(vec![in alloc; made_code(self.format(alloc, 0, p))]?),
            "calls" => Ok(vec![in alloc; self.calls(p)]?),
            "turn" => {
                self.at_turn(p);
                Ok(vec![in alloc; 0]?)
            }
            _ => Err(Fail::new(verb)),
        }
    }
}

#[test]
fn disks_stop_as_planned(rt: HostRuntime) -> Result<(), Fail> {
    cases_hold::<Armed<FakeDisk>>(rt.alloc(), DISKS)
}

#[test]
fn words_stop_as_planned(rt: HostRuntime) -> Result<(), Fail> {
    cases_hold::<Armed<FakeWords>>(rt.alloc(), WORDS)
}
