//! The words of a segment's memory, and those of the device below it, as they are.

ghost use Rattle.std.specs.Prelude.{◌≡◌, ◌⊎◌, ◌<◌, ◌≤◌, true};

use super::rig::Rig;
use super::trial::Trial;
use dc_checkpoint::Checkpoint;
use dc_media::Keeps;
use dc_memmedia::MemKeeps;
use std::test::Fail;

impl Rig {
    /// A word of memory.
    pub fn word(&self, i: u32) -> Result<u64, Fail>
        requires { ⟦<Rig as Trial>⟧.fits self.now }
    {
        if i < self.size && (self.ready || self.prepared) {
            return Ok(u64::from(self.load(i)));
        }
        Err(Fail::new("a load"))
    }

    fn load(&self, i: u32) -> u32
        requires fits { ⟦<Rig as Trial>⟧.fits self.now }
        requires at { i < self.now.size }
        requires awake { (self.now.ready ≡ true) ⊎ (self.now.prepared ≡ true) }
    {
        self.store.load(&self.dev, i)
    }

    /// How many words the device has.
    pub fn words(&self) -> u32
        requires { ⟦<Rig as Trial>⟧.fits self.now }
        ensures { result ≤ ⟦<MemKeeps as Keeps>⟧.extent self.now.dev self.now.p }
    {
        let body = self.size + 41 + 139 * self.n;
        1424 + 33 * ((body + 15) / 16)
    }

    /// A word of the device.
    pub fn get(&self, i: u32) -> Result<u64, Fail>
        requires { ⟦<Rig as Trial>⟧.fits self.now }
    {
        if i < self.words() {
            return Ok(u64::from(self.dev.load(self.p, i)));
        }
        Err(Fail::new("a word past the end"))
    }

    /// Writes a word of the device. A recovery is owed then.
    pub fn put(&mut self, i: u32, w: u32) -> Result<u64, Fail>
        requires { ⟦<Rig as Trial>⟧.fits self.old }
        ensures { ⟦<Rig as Trial>⟧.fits self.new }
    {
        if i >= self.words() {
            return Err(Fail::new("a word past the end"));
        }
        self.ready = false;
        self.prepared = false;
        self.dev.store(self.p, i, w)?;
        Ok(0)
    }
}
