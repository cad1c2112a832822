//! What calls of a segment cost, to be measured from outside: `load COUNT`, `vector COUNT`, `commit LINES COUNT`, over a memory of
//! 1 MiB; the same of a redo log over a memory of so many pages: `redo-load COUNT`, `redo-commit LINES COUNT PAGES`, and its recoveries
//! behind a commit that fills most of a half, `redo-recover PAGES COUNT`; turns of a process over a segment: `computing COUNT`, `showing COUNT`, beside `stores COUNT` of the device alone; and entries
//! of a world of so many processes: `entries COUNT PROCESSES` of guests that compute, `idle COUNT PROCESSES` of guests that end at once.
//! Prints where the loads led, the number of the last commit, or how many calls of the device were made, and ends with status 1
//! where that is none.
#![tactic(auto)]

mod turns;
mod work;
mod worlds;

ghost use Rattle.std.specs.Prelude.{◌<◌, ◌≤◌, ◌-◌, ◌^◌};

use dc_limits::{ENTRIES, PROCESSES};
use dc_media::STORES;
use dc_memmedia::{MemDisks, MemKeeps};
use dc_protocols::Protocol;
use dc_redo::Redo;
use dc_vista::Segment;
use std::alloc::Global;
use std::process::ExitCode;
use std::{env, io};

/// 1 MiB in pages of 1024 words.
const PAGES: u32 = 256;

/// The lines of the memory.
const LINES: u32 = 16_384;

/// The most commits of one call.
const COMMITS: u32 = 1_000_000_000;

fn number(words: &[String], at: usize, most: u32) -> u32
    ensures { result ≤ most }
{
    match words.get(at) {
        Some(word) => word.parse::<u32>().unwrap_or(0).min(most),
        None => 0,
    }
}

/// Takes turns of a process, runs entries of a world, or makes stores of the device alone: how many calls of the first device were made.
fn calls_of(alloc: Global, keeps: &mut MemKeeps, what: &str, p: u32, count: u32) -> Option<u64>
    requires few { count < 2 ^ 32 - 1 }
    requires process { p < STORES }
{
    if what == "computing" {
        turns::turns::<Segment<MemKeeps>>(alloc, keeps, Protocol::Cpvs, &turns::COMPUTING, count)?;
    } else if what == "showing" {
        turns::turns::<Segment<MemKeeps>>(alloc, keeps, Protocol::Cpvs, &turns::SHOWING, count)?;
    } else if what == "entries" {
        let (n, count) = (p.clamp(1, PROCESSES as u32), count.min(ENTRIES));
        worlds::entries::<Segment<MemKeeps>>(alloc, keeps, &turns::COMPUTING, n, count)?;
        return Some(keeps.calls(0));
    } else if what == "idle" {
        let (n, count) = (p.clamp(1, PROCESSES as u32), count.min(ENTRIES));
        worlds::entries::<Segment<MemKeeps>>(alloc, keeps, &worlds::ENDING, n, count)?;
        return Some(keeps.calls(0));
    } else if what == "stores" {
        turns::stores(alloc, keeps, p, count)?;
    } else {
        return None;
    }
    Some(keeps.calls(p))
}

/// Where loads lead, or the number of the last commit.
fn led(alloc: Global, keeps: &mut MemKeeps, what: &str, words: &[String]) -> Option<u32> {
    if what == "load" {
        return work::load::<Segment<MemKeeps>>(alloc, keeps, PAGES, number(words, 2, u32::MAX));
    }
    if what == "vector" {
        return work::read(alloc, PAGES, number(words, 2, u32::MAX));
    }
    if what != "commit" {
        return None;
    }
    let lines = number(words, 2, LINES);
    work::commit_often::<Segment<MemKeeps>>(alloc, keeps, PAGES, lines, number(words, 3, COMMITS))
}

/// The same of a redo log, or the number of the state that its last recovery found.
fn led_redo(alloc: Global, disks: &mut MemDisks, what: &str, words: &[String]) -> Option<u32> {
    if what == "redo-load" {
        return work::load::<Redo<MemDisks>>(alloc, disks, PAGES, number(words, 2, u32::MAX));
    }
    if what == "redo-recover" {
        let (pages, count) = (number(words, 2, PAGES), number(words, 3, COMMITS));
        return work::recover_often::<Redo<MemDisks>>(alloc, disks, pages, 48 * pages, count);
    }
    if what != "redo-commit" {
        return None;
    }
    let pages = number(words, 4, PAGES);
    let lines = number(words, 2, LINES).min(64 * pages);
    work::commit_often::<Redo<MemDisks>>(alloc, disks, pages, lines, number(words, 3, COMMITS))
}

fn measured(alloc: Global, words: &[String]) -> Option<u64> {
    let mut keeps = MemKeeps::new(alloc, Vec::new(alloc)).ok()?;
    let what = words.get(1)?;
    if what.starts_with("redo-") {
        let mut disks = MemDisks::new(alloc, Vec::new(alloc)).ok()?;
        let found = led_redo(alloc, &mut disks, what.as_str(), words)?;
        return Some(u64::from(found));
    }
    match led(alloc, &mut keeps, what.as_str(), words) {
        Some(sum) => Some(u64::from(sum)),
        None => calls_of(
            alloc,
            &mut keeps,
            what.as_str(),
            number(words, 3, STORES - 1),
            number(words, 2, COMMITS),
        ),
    }
}

fn main(rt: HostRuntime) -> io::Result<ExitCode> {
    let words: Vec<String> = env::args(&rt)?.collect(rt.alloc())?;
    match measured(rt.alloc(), &words) {
        Some(sum) => {
            println!(rt; "{sum}")?;
            Ok(ExitCode::SUCCESS)
        }
        None => Ok(ExitCode::FAILURE),
    }
}
