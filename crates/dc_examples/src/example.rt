//! An example in C, and a run of it.

use dc_memmedia::{MemLibrary, MemSink};
use dc_trial::{Devices, called};
use std::alloc::Global;
use std::fs;

/// The folder of an example's plan, guests and lines; the files of its guests; and the lines of its schedule, which come so often.
pub struct Example {
    pub folder: &'static str,
    guests: &'static [&'static str],
    entries: &'static str,
    times: usize,
}

/// The examples, with schedules as long as those beside their sources.
pub const EXAMPLES: [Example; 3] = [
    Example {
        folder: "primes",
        guests: &["guest.elf"],
        entries: "0 1 0\n",
        times: 130_000,
    },
    Example {
        folder: "statistics",
        guests: &["guest.elf"],
        entries: "0 1 0\n",
        times: 180_000,
    },
    Example {
        folder: "talk",
        guests: &["asker.elf", "factors.elf"],
        entries: "0 1 0\n1 3 0\n",
        times: 20_000,
    },
];

impl Example {
    /// The bytes of a file of the example.
    fn file(&self, rt: &HostRuntime, name: &str) -> Option<Vec<u8>> {
        let path = format!(in rt.alloc(); "{}/{name}", self.folder).ok()?;
        fs::read(rt, &path).ok()
    }

    /// Its plan, its guests and its schedule by their names.
    fn library(&self, rt: &HostRuntime) -> Option<MemLibrary> {
        let mut library = MemLibrary::new(rt.alloc(), Vec::new(rt.alloc()));
        let plan = self.file(rt, "plan.toml")?;
        library
            .add(String::from_str(rt.alloc(), "plan.toml").ok()?, plan)
            .ok()?;
        for guest in self.guests {
            let name = String::from_str(rt.alloc(), guest).ok()?;
            library.add(name, self.file(rt, guest)?).ok()?;
        }
        let schedule = self.entries.repeat(rt.alloc(), self.times).ok()?;
        let name = String::from_str(rt.alloc(), "schedule").ok()?;
        library.add(name, schedule.into_bytes()).ok()?;
        Some(library)
    }

    /// Whether a run of it is done and shows its lines; none where a file or memory is wanting.
    pub fn shows_its_lines(&self, rt: &HostRuntime) -> Option<bool> {
        let lines = self.file(rt, "lines")?;
        let mut library = self.library(rt)?;
        shows(rt.alloc(), &mut library, &lines)
    }
}

/// The words of the command that runs a plan.
fn words(alloc: Global) -> Option<Vec<String>> {
    let mut list = Vec::new(alloc);
    for word in ["dc", "run", "plan.toml"] {
        list.push(String::from_str(alloc, word).ok()?).ok()?;
    }
    Some(list)
}

/// Whether a run over these files is done and shows these lines.
fn shows(alloc: Global, library: &mut MemLibrary, lines: &[u8]) -> Option<bool> {
    let mut on = Devices::new(alloc).ok()?;
    let mut out = MemSink::new(alloc, 1_000_000, Vec::new(alloc)).ok()?;
    let mut report = MemSink::new(alloc, 10_000_000, Vec::new(alloc)).ok()?;
    let words = words(alloc)?;
    let came = called(alloc, &words, library, &mut on, &mut out, &mut report).ok()?;
    Some(came.status == 0 && out.bytes() == lines)
}
