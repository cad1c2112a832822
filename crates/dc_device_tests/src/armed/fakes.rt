//! Devices that tell nothing.
ghost use Rattle.std.specs.Prelude.{◌-◌, ◌^◌, ◌≡◌, ◌≤◌, ◌<◌, ◌+◌, ◌⊎◌, length, None};
ghost use Rattle.std.proofs.Common.{lit<};

use dc_media::{DeviceFault, Disks, Keeps, MakeFault};
use std::alloc::Global;

/// One disk for all processes, whose next call is refused if it is to be.
#[derive(Drop)]
pub struct FakeDisk {
    pub bytes: [u8; 200],
    pub refusal: Option<DeviceFault>,
    pub syncs: u32,
}

impl FakeDisk {
    pub fn new(refusal: Option<DeviceFault>) -> FakeDisk {
        FakeDisk {
            bytes: [0; 200],
            refusal,
            syncs: 0,
        }
    }

    fn refused(&mut self) -> Result<(), DeviceFault> {
        match self.refusal.take() {
            Some(fault) => Err(fault),
            None => Ok(()),
        }
    }
}

impl Disks for FakeDisk {
    ghost told = { λ s p. None };

    ghost extent = { λ s p. 200 };

    ghost stops = { λ s p. 2 ^ 64 - 1 };

    ghost faults = { λ s p. 2 ^ 64 - 1 };

    ghost calls = { λ s p. 2 ^ 64 - 1 };

    ghost continues = { λ s t. Unit {0} };

    ghost told_extent = { λ s p. tt };

    ghost extent_fits = { λ s p. lit< tt };

    ghost continues_self = { λ s. tt };

    ghost continues_on = { λ s t u first then. tt };

    fn format(&mut self, _alloc: Global, _p: u32, bytes: u64) -> Result<(), MakeFault> {
        if bytes != 200 {
            return Err(MakeFault::Memory);
        }
        self.bytes = [0; 200];
        Ok(())
    }

    fn size(&self, _p: u32) -> u64 {
        200
    }

    fn read(&mut self, _p: u32, at: u64, to: &mut [u8]) -> Result<(), DeviceFault> {
        self.refused()?;
        let at = at as usize;
        to.copy_from_slice(&self.bytes[at..at + to.len()]);
        Ok(())
    }

    fn write(&mut self, _p: u32, at: u64, from: &[u8]) -> Result<(), DeviceFault> {
        self.refused()?;
        let at = at as usize;
        self.bytes[at..at + from.len()].copy_from_slice(from);
        Ok(())
    }

    fn sync(&mut self, _p: u32) -> Result<(), DeviceFault> {
        self.refused()?;
        self.syncs = self.syncs.saturating_add(1);
        Ok(())
    }
}

/// Forty words for all processes, which count the lines and the rows that are made by one call.
#[derive(Drop)]
pub struct FakeWords {
    pub words: [u32; 40],
    pub lines: u32,
    pub rows: u32,
}

impl FakeWords {
    pub fn new() -> FakeWords {
        FakeWords {
            words: [5; 40],
            lines: 0,
            rows: 0,
        }
    }
}

impl Keeps for FakeWords {
    ghost told = { λ s p. None };

    ghost extent = { λ s p. 40 };

    ghost stops = { λ s p. 2 ^ 64 - 1 };

    ghost faults = { λ s p. 2 ^ 64 - 1 };

    ghost calls = { λ s p. 2 ^ 64 - 1 };

    ghost continues = { λ s t. Unit {0} };

    ghost told_extent = { λ s p. tt };

    ghost extent_fits = { λ s p. lit< tt };

    ghost continues_self = { λ s. tt };

    ghost continues_on = { λ s t u first then. tt };

    fn format(&mut self, _alloc: Global, _p: u32, words: u32) -> Result<(), MakeFault> {
        if words != 40 {
            return Err(MakeFault::Memory);
        }
        self.words = [0; 40];
        Ok(())
    }

    fn load(&self, _p: u32, i: u32) -> u32 {
        self.words[i as usize]
    }

    fn store(&mut self, _p: u32, i: u32, w: u32) -> Result<(), DeviceFault> {
        self.words[i as usize] = w;
        Ok(())
    }

    #[tactic(auto, using(dc_media::proofs::Storing::counted_at_most))]
    fn store_words(&mut self, _p: u32, i: u32, words: &[u32]) -> Result<(), DeviceFault> {
        self.rows = self.rows.saturating_add(1);
        let at = i as usize;
        self.words[at..at + words.len()].copy_from_slice(words);
        Ok(())
    }

    fn copy_line(&mut self, _p: u32, from: u32, to: u32) -> Result<(), DeviceFault> {
        self.lines = self.lines.saturating_add(1);
        for k in 0..16usize {
            self.words[to as usize + k] = self.words[from as usize + k];
        }
        Ok(())
    }
}
