//! Stores and disks in memory, by calls and answers that are told as text.

ghost use Rattle.std.specs.Prelude.{◌≡◌, ◌<◌, ℕ, length};
ghost use Rattle.dc_memmedia.specs.Keeps.{words_of};

mod cases;
mod others;

use crate::calling::{Rig, at, byte, bytes, cases_hold, code, settings, small, words};
use cases::{DISKS, STORES};
use dc_media::{DeviceFault, Disks, Keeps, Tear};
use dc_memmedia::{ListedCall, MemDisks, MemKeeps};
use std::alloc::Global;
use std::test::Fail;

fn listed_call(args: &[u64]) -> ListedCall {
    let fault = if at(args, 2) == 1 {
        DeviceFault::Stopped
    } else {
        DeviceFault::Failed
    };
    let keep = small(at(args, 3));
    let fill = args.get(4).map(|n| byte(*n));
    ListedCall {
        process: small(at(args, 0)),
        call: at(args, 1),
        fault,
        tear: Tear { keep, fill },
    }
}

/// The listed calls of a case.
fn listed_in(alloc: Global, lines: &str) -> Result<Vec<ListedCall>, Fail> {
    let mut listed = Vec::new(alloc);
    for args in settings(alloc, lines, "listed ")?.as_slice() {
        listed.push(listed_call(args))?;
    }
    Ok(listed)
}

/// Stores of 40 words for the first two processes.
#[derive(Drop)]
struct StoreRig {
    stores: MemKeeps,
    ghost forty: { (q : ℕ) → q < 2 → length (words_of stores q) ≡ 40 },
}

impl StoreRig {
    fn store(&mut self, p: u32, i: u32, w: u32) -> u64 {
        if p < 2 && i < 40 {
            return code(self.stores.store(p, i, w));
        }
        9
    }

    fn words(&mut self, p: u32, i: u32, row: &[u32]) -> u64 {
        if p < 2 && i <= 40 && row.len() <= (40 - i) as usize {
            return code(self.stores.store_words(p, i, row));
        }
        9
    }

    fn load(&self, p: u32, i: u32) -> u64 {
        if p < 2 && i < 40 {
            return u64::from(self.stores.load(p, i));
        }
        9
    }

    fn copy(&mut self, p: u32, from: u32, to: u32) -> u64 {
        if p < 2 && from <= 4 && to >= 20 && to <= 24 {
            return code(self.stores.copy_line(p, from, to));
        }
        if p < 2 && from == to && to <= 24 {
            return code(self.stores.copy_line(p, from, to));
        }
        9
    }

    fn format(&mut self, alloc: Global, p: u32) -> u64 {
        if p < 2 && self.stores.format(alloc, p, 40).is_ok() {
            return 0;
        }
        9
    }
}

impl Rig for StoreRig {
    fn new(alloc: Global, lines: &str) -> Result<StoreRig, Fail> {
        let mut stores = MemKeeps::new(alloc, listed_in(alloc, lines)?)?;
        stores.format(alloc, 0, 40)?;
        stores.format(alloc, 1, 40)?;
        Ok(StoreRig { stores })
    }

    fn call(&mut self, alloc: Global, verb: &str, args: &[u64]) -> Result<Vec<u64>, Fail> {
        let (p, i, w) = (small(at(args, 0)), small(at(args, 1)), small(at(args, 2)));
        match verb {
            "store" => Ok(vec![in alloc; self.store(p, i, w)]?),
            "words" => {
                let row = words(alloc, args.get(2..).unwrap_or(&[]))?;
                Ok(vec![in alloc; self.words(p, i, &row)]?)
            }
            "load" => Ok(vec![in alloc; self.load(p, i)]?),
            "copy" => Ok(vec![in alloc; self.copy(p, i, w)]?),
            "format" => Ok(vec![in alloc; self.format(alloc, p)]?),
            "calls" => Ok(vec![in alloc; self.stores.calls(p)]?),
            "refused" => Ok(vec![in alloc; self.stores.stops(p), self.stores.faults(p)]?),
            _ => Err(Fail::new(verb)),
        }
    }
}

/// Disks, of which process 0 has one of six bytes.
#[derive(Drop)]
struct DiskRig {
    disks: MemDisks,
}

impl DiskRig {
    fn write(&mut self, at: u64, piece: &[u8]) -> u64 {
        if self.disks.size(0) == 6 && at <= 6 && piece.len() as u64 <= 6 - at {
            return code(self.disks.write(0, at, piece));
        }
        9
    }

    /// The bytes that it has.
    fn read(&mut self, alloc: Global) -> Result<Vec<u64>, Fail> {
        let mut room = [0; 6];
        if self.disks.size(0) == 6 {
            self.disks.read(0, 0, &mut room)?;
        }
        let mut list = Vec::new(alloc);
        for byte in room {
            list.push(u64::from(byte))?;
        }
        Ok(list)
    }
}

impl Rig for DiskRig {
    fn new(alloc: Global, lines: &str) -> Result<DiskRig, Fail> {
        let mut disks = MemDisks::new(alloc, listed_in(alloc, lines)?)?;
        disks.format(alloc, 0, 6)?;
        disks.write(0, 0, &[1, 2, 3, 4, 5, 6])?;
        disks.sync(0)?;
        Ok(DiskRig { disks })
    }

    fn call(&mut self, alloc: Global, verb: &str, args: &[u64]) -> Result<Vec<u64>, Fail> {
        let p = small(at(args, 0));
        match verb {
            "write" => {
                let piece = bytes(alloc, args.get(1..).unwrap_or(&[]))?;
                Ok(vec![in alloc; self.write(at(args, 0), &piece)]?)
            }
            "read" => self.read(alloc),
            "sync" => Ok(vec![in alloc; code(self.disks.sync(0))]?),
            "calls" => Ok(vec![in alloc; self.disks.calls(p)]?),
            "size" => Ok(vec![in alloc; self.disks.size(p)]?),
            "refused" => Ok(vec![in alloc; self.disks.stops(p), self.disks.faults(p)]?),
            _ => Err(Fail::new(verb)),
        }
    }
}

#[test]
fn stores_do_as_told(rt: HostRuntime) -> Result<(), Fail> {
    cases_hold::<StoreRig>(rt.alloc(), STORES)
}

#[test]
fn disks_do_as_told(rt: HostRuntime) -> Result<(), Fail> {
    cases_hold::<DiskRig>(rt.alloc(), DISKS)
}
