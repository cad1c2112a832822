//! A redo log on a disk in memory, whose calls are made where they may be.

ghost use Rattle.std.specs.Prelude.{◌≡◌, ◌⊎◌, ◌<◌, ◌≤◌, ◌*◌, IfOk, IfSome, false, true, vec_capacity};

use super::calling;
use crate::vista::inputs::{memory, saved, text};
use crate::vista::texts::code;
use crate::vista::trial::Trial;
use dc_checkpoint::{Checkpoint, Decided};
use dc_kernel::{LogRecord, Reply, Saved};
use dc_media::{Disks, MakeFault};
use dc_memmedia::{ListedCall, MemDisks};
use dc_redo::Redo;
use std::alloc::Global;
use std::test::Fail;

/// A redo log of process `p` of `n`, its disk, and what may be called next.
#[derive(Drop)]
pub struct Rig {
    pub store: Redo<MemDisks>,
    pub dev: MemDisks,
    pub n: u32,
    pub p: u32,
    /// The pages of its memory.
    pub pages: u32,
    /// The words of its memory.
    pub size: u32,
    /// The number of the commit that it goes on from, or that is prepared.
    pub number: u32,
    /// How many events were logged since.
    pub logged: u32,
    /// It may go on.
    pub ready: bool,
    /// A commit is prepared.
    pub prepared: bool,
    /// Its number may be decided.
    pub decidable: bool,
    /// What the last recovery read.
    pub saved: Saved,
    /// How many calls the disk had when that was last asked.
    pub asked: u64,
    /// The bytes of the disk when they were last kept.
    pub kept: Vec<u8>,
    ghost few: { n ≤ 8 },
    ghost paged: { (1 ≤ pages) × (pages ≤ 256) },
    ghost sized: { size ≡ 1024 * pages },
    ghost one_of: { p < n },
    ghost whole: { saved.kernel.n ≡ n },
    ghost own: { saved.kernel.p ≡ p },
    ghost room: { 64 ≤ vec_capacity saved.log },
}

impl Trial for Rig {
    ghost fits = { λ r.
        (⟦<Redo<MemDisks> as Checkpoint>⟧.lent r.store r.dev)
        × (⟦<Redo<MemDisks> as Checkpoint>⟧.index r.store ≡ r.p)
        × (⟦<Redo<MemDisks> as Checkpoint>⟧.size r.store ≡ r.size)
        × (⟦<Redo<MemDisks> as Checkpoint>⟧.form r.store ≡ record { n = r.n; p = r.p })
        × (r.ready ≡ true → ⟦<Redo<MemDisks> as Checkpoint>⟧.ready r.store r.dev)
        × (r.ready ≡ true → ⟦<Redo<MemDisks> as Checkpoint>⟧.number r.store ≡ r.number)
        × (r.ready ≡ true → ⟦<Redo<MemDisks> as Checkpoint>⟧.logged r.store ≡ r.logged)
        × (r.prepared ≡ true → ⟦<Redo<MemDisks> as Checkpoint>⟧.prepared r.store r.dev r.number)
        × (r.decidable ≡ true → ⟦<Redo<MemDisks> as Checkpoint>⟧.decidable r.store r.dev r.number) };

    fn made(
        alloc: Global,
        n: u32,
        p: u32,
        pages: u32,
        listed: Vec<ListedCall>,
    ) -> Result<Option<Rig>, Fail> {
        Rig::new(alloc, n, p, pages, listed)
    }

    fn call(&mut self, alloc: Global, verb: &str, args: &[u64]) -> Result<Vec<u64>, Fail> {
        calling::call(self, alloc, verb, args)
    }

    fn made_calls(&self) -> u64 {
        self.dev.calls(self.p)
    }
}

impl Rig {
    /// No call but a recovery may come next.
    fn owe(&mut self)
        requires { ⟦<Rig as Trial>⟧.fits self.old }
        ensures fits { ⟦<Rig as Trial>⟧.fits self.new }
        ensures none { (self.new.ready ≡ false) × (self.new.prepared ≡ false) × (self.new.decidable ≡ false) }
    {
        self.ready = false;
        self.prepared = false;
        self.decidable = false;
    }

    /// A word of memory.
    pub fn word(&self, i: u32) -> Result<u64, Fail>
        requires { ⟦<Rig as Trial>⟧.fits self.now }
    {
        if i < self.size && (self.ready || self.prepared) {
            return Ok(u64::from(self.load(i)));
        }
        Err(Fail::new("a load"))
    }

    fn load(&self, i: u32) -> u32
        requires fits { ⟦<Rig as Trial>⟧.fits self.now }
        requires at { i < self.now.size }
        requires awake { (self.now.ready ≡ true) ⊎ (self.now.prepared ≡ true) }
    {
        self.store.load(&self.dev, i)
    }

    /// Sets bits of a word of memory.
    pub fn set(&mut self, i: u32, w: u32, mask: u32) -> Result<u64, Fail>
        requires { ⟦<Rig as Trial>⟧.fits self.old }
        ensures { ⟦<Rig as Trial>⟧.fits self.new }
    {
        if !self.ready || i >= self.size {
            return Err(Fail::new("a store"));
        }
        self.prepared = false;
        self.decidable = false;
        match self.store.store(&mut self.dev, i, w, mask) {
            Ok(()) => Ok(0),
            Err(fault) => {
                self.ready = false;
                Ok(code(fault))
            }
        }
    }

    /// Commits under a number.
    pub fn commit(&mut self, alloc: Global, number: u32) -> Result<u64, Fail>
        requires { ⟦<Rig as Trial>⟧.fits self.old }
        ensures { ⟦<Rig as Trial>⟧.fits self.new }
    {
        if !self.ready || number <= self.number {
            return Err(Fail::new("a commit"));
        }
        let text = text(alloc, self.n, self.p, number)?;
        self.prepared = false;
        self.decidable = false;
        match self.store.commit(&mut self.dev, &text) {
            Ok(()) => {
                self.number = number;
                self.logged = 0;
                Ok(0)
            }
            Err(fault) => {
                self.ready = false;
                Ok(code(fault))
            }
        }
    }

    /// Logs an event of its first process, at this position and told this.
    pub fn log(&mut self, position: u32, told: Reply) -> Result<u64, Fail>
        requires { ⟦<Rig as Trial>⟧.fits self.old }
        ensures { ⟦<Rig as Trial>⟧.fits self.new }
    {
        if !self.ready || self.logged >= 64 {
            return Err(Fail::new("a log"));
        }
        if let Reply::ReceiveFrom(sender, _) = told {
            if sender >= self.n {
                return Err(Fail::new("an event"));
            }
        }
        self.prepared = false;
        self.decidable = false;
        let rec = LogRecord { position, told };
        match self.store.append_log(&mut self.dev, &rec) {
            Ok(()) => {
                self.logged += 1;
                Ok(0)
            }
            Err(fault) => {
                self.ready = false;
                Ok(code(fault))
            }
        }
    }

    /// Prepares a commit under a number.
    pub fn prepare(&mut self, alloc: Global, g: u32) -> Result<u64, Fail>
        requires { ⟦<Rig as Trial>⟧.fits self.old }
        ensures { ⟦<Rig as Trial>⟧.fits self.new }
    {
        if !self.ready || g <= self.number {
            return Err(Fail::new("a prepare"));
        }
        let text = text(alloc, self.n, self.p, g)?;
        self.ready = false;
        self.prepared = false;
        self.decidable = false;
        match self.store.prepare(&mut self.dev, &text, g) {
            Ok(()) => {
                self.number = g;
                self.prepared = true;
                self.decidable = true;
                Ok(0)
            }
            Err(fault) => Ok(code(fault)),
        }
    }

    /// Decides on the number of what is prepared.
    pub fn decide(&mut self, g: u32) -> Result<u64, Fail>
        requires { ⟦<Rig as Trial>⟧.fits self.old }
        ensures { ⟦<Rig as Trial>⟧.fits self.new }
    {
        if self.p != 0 {
            return Err(Fail::new("another process"));
        }
        if !self.prepared || !self.decidable || self.number != g {
            return Err(Fail::new("a decision"));
        }
        self.ready = false;
        self.decidable = false;
        match self.store.decide(&mut self.dev, g) {
            Ok(()) => Ok(0),
            Err(fault) => {
                self.prepared = false;
                Ok(code(fault))
            }
        }
    }

    /// Finishes what is prepared.
    pub fn finish(&mut self) -> Result<u64, Fail>
        requires { ⟦<Rig as Trial>⟧.fits self.old }
        ensures { ⟦<Rig as Trial>⟧.fits self.new }
    {
        if !self.prepared {
            return Err(Fail::new("a finish"));
        }
        self.prepared = false;
        self.ready = false;
        self.decidable = false;
        match self.store.finish(&mut self.dev, self.number) {
            Ok(()) => {
                self.logged = 0;
                self.ready = true;
                Ok(0)
            }
            Err(fault) => Ok(code(fault)),
        }
    }

    /// What the store says of decisions.
    pub fn decided(&mut self) -> Result<Decided, Fail>
        requires { ⟦<Rig as Trial>⟧.fits self.old }
        ensures { ⟦<Rig as Trial>⟧.fits self.new }
    {
        if self.p != 0 {
            return Err(Fail::new("another process"));
        }
        match self.store.decided(&mut self.dev) {
            Ok(decided) => Ok(decided),
            Err(_fault) => {
                self.ready = false;
                self.prepared = false;
                self.decidable = false;
                Err(Fail::new("no decided number"))
            }
        }
    }

    /// Loses what is volatile.
    pub fn fall(&mut self)
        requires { ⟦<Rig as Trial>⟧.fits self.old }
        ensures { ⟦<Rig as Trial>⟧.fits self.new }
    {
        self.ready = false;
        self.prepared = false;
        self.decidable = false;
        self.store.fall();
    }

    /// Goes on with a new handle over the store that is there.
    pub fn attach(&mut self, alloc: Global) -> Result<u64, Fail>
        requires { ⟦<Rig as Trial>⟧.fits self.old }
        ensures { ⟦<Rig as Trial>⟧.fits self.new }
    {
        let memory = memory(alloc, self.pages)?;
        let text = text(alloc, self.n, self.p, 1)?;
        self.store = Redo::attach(alloc, &self.dev, self.p, memory, text)?;
        self.ready = false;
        self.prepared = false;
        self.decidable = false;
        Ok(0)
    }

    /// Reads what the store stands for under a decided number.
    pub fn recover(&mut self, d: u32) -> u64
        requires { ⟦<Rig as Trial>⟧.fits self.old }
        ensures { ⟦<Rig as Trial>⟧.fits self.new }
    {
        self.prepared = false;
        self.ready = false;
        self.decidable = false;
        match self.store.recover(&mut self.dev, d, &mut self.saved) {
            Ok(()) => {
                self.number = self.saved.kernel.commit();
                self.logged = self.saved.log.len() as u32;
                self.ready = true;
                0
            }
            Err(fault) => code(fault),
        }
    }
}

impl Rig {
    /// A redo log that is made with commit number 1, or none where the disk failed.
    pub fn new(
        alloc: Global,
        n: u32,
        p: u32,
        pages: u32,
        listed: Vec<ListedCall>,
    ) -> Result<Option<Rig>, Fail>
        ensures { IfOk result (λ made. IfSome made ⟦<Rig as Trial>⟧.fits) }
    {
        if n > 8 || p >= n || pages == 0 || pages > 256 {
            return Err(Fail::new("no redo log"));
        }
        let memory = memory(alloc, pages)?;
        let text = text(alloc, n, p, 1)?;
        let saved = saved(alloc, n, p)?;
        let mut dev = MemDisks::new(alloc, listed)?;
        match Redo::format(alloc, &mut dev, p, memory, text) {
            Ok((store, stopped)) => Ok(Some(Rig {
                store,
                dev,
                n,
                p,
                pages,
                size: 1024 * pages,
                number: 1,
                logged: 0,
                ready: !stopped,
                prepared: false,
                decidable: false,
                saved,
                asked: 0,
                kept: Vec::new(alloc),
            })),
            Err(MakeFault::Failed) => Ok(None),
            Err(MakeFault::Memory) => Err(Fail::new("no memory")),
        }
    }
}

impl Rig {
    /// Makes the disk again, of so many zeros.
    pub fn blank(&mut self, alloc: Global, bytes: u64) -> Result<u64, Fail>
        requires { ⟦<Rig as Trial>⟧.fits self.old }
        ensures { ⟦<Rig as Trial>⟧.fits self.new }
    {
        self.owe();
        match self.dev.format(alloc, self.p, bytes) {
            Ok(()) => Ok(0),
            Err(_fault) => Err(Fail::new("no disk")),
        }
    }

    /// How many bytes the disk has.
    pub fn disk_size(&self) -> u64 {
        self.dev.size(self.p)
    }

    /// The bytes of the disk.
    pub fn bytes(&mut self, alloc: Global) -> Result<Vec<u8>, Fail>
        requires { ⟦<Rig as Trial>⟧.fits self.old }
        ensures { ⟦<Rig as Trial>⟧.fits self.new }
    {
        let size = self.dev.size(self.p);
        let mut room = vec![in alloc; 0; size as usize]?;
        self.dev.read(self.p, 0, &mut room)?;
        Ok(room)
    }

    /// Writes the first bytes of the disk.
    pub fn put(&mut self, image: &[u8]) -> Result<(), Fail>
        requires { ⟦<Rig as Trial>⟧.fits self.old }
        ensures { ⟦<Rig as Trial>⟧.fits self.new }
    {
        self.owe();
        if image.len() as u64 > self.dev.size(self.p) {
            return Err(Fail::new("more bytes than the disk has"));
        }
        self.dev.write(self.p, 0, image)?;
        Ok(())
    }
}
