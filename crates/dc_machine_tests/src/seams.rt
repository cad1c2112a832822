//! What a step over a store to which a device is lent tells of both: a turn that knows nothing of the machine but its clauses.

ghost use Rattle.std.specs.Prelude.{◌≡◌, ◌<◌, ◌≤◌, ◌*◌, ◌⊎◌, ℕ, List, Option, length, IfErr, IfSome, OnOk, OnErr, slice_index, slice_set};
ghost use Rattle.dc_media.specs.Told.{Becomes};
ghost use Rattle.dc_words.specs.Words.{masked};

use dc_isa::Regs;
use dc_rv32::{Bus, Stepped, step};

/// A store of a memory, to whose calls a device is lent.
trait Store {
    type Device;

    type Fault;

    /// The words of the memory, where they are told.
    ghost contents: { Self → Self.Device → Option (List ℕ) };

    /// How many words there are.
    ghost size: { Self → ℕ };

    /// The store may be called.
    ghost ready: { Self → Self.Device → Type 0 };

    /// What an image of it may stand for.
    ghost leaves: { Self → Self.Device → ℕ → Type 0 };

    /// How many of its calls were stopped.
    ghost stops: { Self.Device → ℕ };

    fn load(&self, dev: &Self::Device, i: u32) -> u32
        requires at { i < size self.now }
        requires ready { ready self.now dev.now }
        ensures { IfSome (contents self.now dev.now) (λ words. result ≡ slice_index words i) };

    fn store(
        &mut self,
        dev: &mut Self::Device,
        i: u32,
        w: u32,
        mask: u32,
    ) -> Result<(), Self::Fault>
        requires at { i < size self.old }
        requires ready { ready self.old dev.old }
        ensures stored { OnOk result (Becomes (contents self.old dev.old) (contents self.new dev.new)
            (λ before after. after ≡ slice_set before i (masked (slice_index before i) w mask))) }
        ensures size { size self.new ≡ size self.old }
        ensures ready { OnOk result (ready self.new dev.new) }
        ensures leaves { (s : ℕ) → leaves self.new dev.new s → leaves self.old dev.old s }
        ensures calm { OnOk result (stops dev.new ≡ stops dev.old) }
        ensures later { stops dev.old ≤ stops dev.new };

    /// A memory that is told has its size.
    ghost told_long: { (s : Self) (dev : Self.Device) → IfSome (contents s dev) (λ words. length words ≡ size s) };
}

/// The memory of a store with its device, both lent.
#[derive(Drop)]
struct Lent<'a, S: Store> {
    store: &'a mut S,
    dev: &'a mut S::Device,
    size: u32,
}

impl<S: Store> Bus for Lent<'_, S> {
    type Stop = S::Fault;

    ghost told = { λ b. S.contents b.store.now b.dev.now };

    ghost count = { λ b. S.size b.store.now };

    ghost live = { λ b. S.ready b.store.now b.dev.now × (b.size ≡ 4 * S.size b.store.now) };

    ghost made = { λ a i b. (a.store.ghost_name ≡ b.store.ghost_name) × (a.dev.ghost_name ≡ b.dev.ghost_name)
        × (S.stops b.dev.now ≡ S.stops a.dev.now) × ((s : ℕ) → S.leaves b.store.now b.dev.now s → S.leaves a.store.now a.dev.now s) };

    ghost refused = { λ a i b why. (a.store.ghost_name ≡ b.store.ghost_name) × (a.dev.ghost_name ≡ b.dev.ghost_name)
        × (S.stops a.dev.now ≤ S.stops b.dev.now) × ((s : ℕ) → S.leaves b.store.now b.dev.now s → S.leaves a.store.now a.dev.now s) };

    ghost told_long = { λ b live. S.told_long b.store.now b.dev.now };

    fn size(&self) -> u32 {
        self.size
    }

    fn load(&self, i: u32) -> u32 {
        self.store.load(&*self.dev, i)
    }

    fn store(&mut self, i: u32, w: u32, mask: u32) -> Result<(), S::Fault> {
        self.store.store(&mut *self.dev, i, w, mask)
    }
}

/// A step of a process over its store: nothing is left that was not there, and a step that goes well counts no stop.
fn turn<S: Store>(
    regs: &mut Regs,
    store: &mut S,
    dev: &mut S::Device,
    size: u32,
) -> Result<Stepped, S::Fault>
    requires size { size ≡ 4 * S.size store.old }
    requires ready { S.ready store.old dev.old }
    ensures leaves { (s : ℕ) → S.leaves store.new dev.new s → S.leaves store.old dev.old s }
    ensures calm { OnOk result (S.stops dev.new ≡ S.stops dev.old) }
    ensures kept { OnErr result (regs.new ≡ regs.old) }
{
    let mut memory = Lent { store, dev, size };
    step(regs, &mut memory)
}
