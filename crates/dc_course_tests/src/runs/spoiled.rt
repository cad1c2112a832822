//! A store whose first word another hand changed.

ghost use Rattle.std.specs.Prelude.{None};

use crate::runs::runs::{Ran, output_of, scheduled};
use dc_course::Setting;
use dc_media::{DeviceFault, Keeps, MakeFault};
use dc_memmedia::MemKeeps;
use dc_model::Entry;
use dc_rio::run_on_memory;
use std::alloc::Global;
use std::test::Fail;

/// Stores that tell nothing, and whose first words read as 7, whatever was stored there.
#[derive(Drop)]
struct Spoiled<K: Drop> {
    keeps: K,
}

impl<K: Keeps + Drop> Keeps for Spoiled<K> {
    ghost told = { λ s p. None };

    ghost extent = { λ s. K.extent s.keeps };

    ghost stops = { λ s. K.stops s.keeps };

    ghost faults = { λ s. K.faults s.keeps };

    ghost calls = { λ s. K.calls s.keeps };

    ghost continues = { λ s t. K.continues s.keeps t.keeps };

    ghost told_extent = { λ s p. tt };

    ghost extent_fits = { λ s. K.extent_fits s.keeps };

    ghost continues_self = { λ s. K.continues_self s.keeps };

    ghost continues_on = { λ s t u first then. K.continues_on s.keeps t.keeps u.keeps first then };

    fn format(&mut self, alloc: Global, p: u32, words: u32) -> Result<(), MakeFault> {
        self.keeps.format(alloc, p, words)
    }

    fn load(&self, p: u32, i: u32) -> u32 {
        if i == 0 {
            return 7;
        }
        self.keeps.load(p, i)
    }

    fn store(&mut self, p: u32, i: u32, w: u32) -> Result<(), DeviceFault> {
        self.keeps.store(p, i, w)
    }

    fn store_words(&mut self, p: u32, i: u32, words: &[u32]) -> Result<(), DeviceFault> {
        self.keeps.store_words(p, i, words)
    }

    fn copy_line(&mut self, p: u32, from: u32, to: u32) -> Result<(), DeviceFault> {
        self.keeps.copy_line(p, from, to)
    }
}

/// The run of a case through these entries, over memory that is so.
pub fn run_spoiled(alloc: Global, case: &str, entries: &[Entry]) -> Result<Ran, Fail> {
    let setting = Setting {
        scheduled: scheduled(alloc, case, entries)?,
        stops: Vec::new(alloc),
    };
    let mut out = output_of(alloc, case)?;
    let mut dev = Spoiled {
        keeps: MemKeeps::new(alloc, Vec::new(alloc))?,
    };
    let answer = run_on_memory(alloc, setting, false, &mut dev, &mut out);
    let Spoiled { keeps } = dev;
    Ok(Ran { answer, keeps, out })
}
