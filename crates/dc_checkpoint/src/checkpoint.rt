ghost use Rattle.std.specs.Prelude.{All, ◌≡◌, ◌≢◌, ◌⊎◌, ◌<◌, ◌≤◌, ◌+◌, ◌*◌, ℕ, List, Option, Ok, Err, false, true, length, IfOk, IfSome, IsErrOf, IsSome, OnOk, slice_index, slice_set, vec_capacity};
ghost use Rattle.dc_media.specs.Told.{Becomes};
ghost use Rattle.dc_kernel.specs.Records.{IsRecord};
ghost use Rattle.dc_words.specs.Words.{masked};
ghost use Rattle.dc_checkpoint.specs.Calls.{AddsNothing, AreAll, AreAmong, AreBelow, AreFrom, AreNoHigher, FallsStore, IsCall, IsHandle, IsMaking, IsSameStore, IsUnrefused, KeepsNumbers, Narrows, Touches, always, device, handle, on, showing};
ghost use Rattle.dc_checkpoint.specs.States.{Form, Gives, IsFit, IsForm, IsLogged, IsRead, IsSaved, IsText, Reading, State, form_in, number_in, unlogged};

use crate::{CheckFault, StoreFault};
use dc_kernel::{LogRecord, Saved};
use dc_limits::LOGGED_EVENTS;
use dc_media::{MakeFault, STORES};
use std::alloc::{AllocError, Global};

/// What the store of process 0 says of decisions.
#[derive(Clone, Copy)]
pub struct Decided {
    /// The decided number; 0 where nothing was decided.
    pub number: u32,
    /// Whether it is steady: one that only `decide` and `commit` may change. A number that a recovery may lose is not.
    pub is_steady: bool,
}

/// A recoverable store of one process's state: its memory in words, the text of its kernel, and the events that were logged since
/// its last commit. It lies on a device that is lent to each call.
///
/// After a stop the device holds one of several images. What an image stands for depends on the *decided number*, which the store
/// of process 0 holds: it is a state, or the refusal that a recovery under that number would answer. Where the device does not
/// tell its content, nothing is said of images.
///
/// After a call that was stopped, failed or refused, after `fall`, and after a `format` that was stopped, only `decided`, `recover`
/// and `fall` may be called until a `recover` is Ok; between an Ok `prepare` and its `finish` only `load`, `decide` and `decided`
/// besides. All room is taken by `format` and `attach`; no other call takes memory.
///
/// The protocols that decide when a process commits, and two-phase commit, are those of Lowell and Chen, *Discount Checking*
/// (1998) and *Exploring failure transparency and the limits of generic recovery* (2000).
pub trait Checkpoint: Sized {
    /// What the store lies on.
    type Device;

    /// The number of its device.
    ghost index: { Self → ℕ };

    /// How many words its memory has.
    ghost size: { Self → ℕ };

    /// Whose it is.
    ghost form: { Self → Form };

    /// The state that it stands for where it was never made: the one with which its handle was made.
    ghost first: { Self → State };

    /// The number of its last commit.
    ghost number: { Self → ℕ };

    /// How many events were logged since.
    ghost logged: { Self → ℕ };

    /// Of decided numbers below this one nothing is said.
    ghost floor: { Self → ℕ };

    /// The device of this number has a store for a memory of so many words and a process, or may have one, as a handle over it needs it.
    ghost fits: { Self.Device → ℕ → ℕ → Form → Type 0 };

    /// What the handle needs of the lent device at each call.
    ghost lent: { Self → Self.Device → Type 0 };

    /// The handle may go on: the device is as its last call left it, nothing is prepared, and no recovery is owed.
    ghost ready: { Self → Self.Device → Type 0 };

    /// A state is prepared under this number, and not finished.
    ghost prepared: { Self → Self.Device → ℕ → Type 0 };

    /// It may decide on this number.
    ghost decidable: { Self → Self.Device → ℕ → Type 0 };

    /// It may log an event beside what was decided since its last state.
    ghost loggable: { Self → Type 0 };

    /// The decided number is one that only `decide` and `commit` may change.
    ghost steady: { Self → Self.Device → Type 0 };

    /// A steady decided number is steady still once what was prepared is finished under this number.
    ghost outlasts: { Self → Self.Device → ℕ → Type 0 };

    /// What an image of the store may stand for, under a decided number.
    ghost leaves: { Self → Self.Device → ℕ → Reading → Type 0 };

    /// The decided number that an image may hold.
    ghost numbers: { Self → Self.Device → ℕ → Type 0 };

    /// The memory as it is now, where it is told.
    ghost contents: { Self → Self.Device → Option (List ℕ) };

    /// The content of the device of this number is told.
    ghost told: { Self.Device → ℕ → Type 0 };

    /// How many calls of it were stopped.
    ghost stops: { Self.Device → ℕ → ℕ };

    /// How many calls of it failed.
    ghost faults: { Self.Device → ℕ → ℕ };

    /// The device of this number is as it was.
    ghost untouched: { Self.Device → Self.Device → ℕ → Type 0 };

    /// Whether the second is a later state of the first: what was lent to it stays lent to it.
    ghost continues: { Self.Device → Self.Device → Type 0 };

    /// Makes the device's store and writes the first state. The second value says whether the making was stopped; the handle is
    /// handed out all the same, and owes a recovery then.
    fn format(
        alloc: Global,
        dev: &mut Self::Device,
        p: u32,
        memory: Vec<u32>,
        kernel: Vec<u32>,
    ) -> Result<(Self, bool), MakeFault>
        requires index { p < STORES }
        requires form { IsForm (form_in kernel.items) }
        requires process { (form_in kernel.items).p ≡ p }
        requires text { IsText (form_in kernel.items) kernel.items }
        requires number { 1 ≤ number_in kernel.items }
        requires pages { (pages : ℕ) × (length memory.items ≡ 1024 * pages) × (pages ≤ 256) }
        ensures handle { IfOk result (λ made. IsHandle (showing (device told stops faults untouched continues) (handle index size form first floor) lent leaves numbers steady) p memory.items kernel.items made.0 dev.new) }
        ensures ready { IfOk result (λ made. made.1 ≡ false → ready made.0 dev.new) }
        ensures memory { IfOk result (λ made. made.1 ≡ false → IfSome (contents made.0 dev.new) (λ words. words ≡ memory.items)) }
        ensures number { IfOk result (λ made. made.1 ≡ false → (number made.0 ≡ number_in kernel.items) × (logged made.0 ≡ 0)) }
        ensures stands { IfOk result (λ made. (d : ℕ) (reading : Reading) → leaves made.0 dev.new d reading → reading ≡ Ok (unlogged memory.items kernel.items)) }
        ensures numbers { IfOk result (λ made. AreAll 0 (numbers made.0 dev.new)) }
        ensures steady { IfOk result (λ made. steady made.0 dev.new) }
        ensures counts { IsMaking (device told stops faults untouched continues) p dev.old dev.new result }
        ensures others { (q : ℕ) → q ≢ p → untouched dev.old dev.new q }
        ensures continues { continues dev.old dev.new };

    /// A handle over the store that is there, whoever made it. It makes no call of the device; a recovery is owed.
    fn attach(
        alloc: Global,
        dev: &Self::Device,
        p: u32,
        memory: Vec<u32>,
        kernel: Vec<u32>,
    ) -> Result<Self, AllocError>
        requires index { p < STORES }
        requires form { IsForm (form_in kernel.items) }
        requires process { (form_in kernel.items).p ≡ p }
        requires text { IsText (form_in kernel.items) kernel.items }
        requires number { 1 ≤ number_in kernel.items }
        requires pages { (pages : ℕ) × (length memory.items ≡ 1024 * pages) × (pages ≤ 256) }
        requires there { fits dev.now p (length memory.items) (form_in kernel.items) }
        ensures handle { IfOk result (λ c. IsHandle (showing (device told stops faults untouched continues) (handle index size form first floor) lent leaves numbers steady) p memory.items kernel.items c dev.now) };

    /// The memory's word at an index.
    fn load(&self, dev: &Self::Device, i: u32) -> u32
        requires at { i < size self.now }
        requires lent { lent self.now dev.now }
        requires awake { ready self.now dev.now ⊎ ((g : ℕ) × prepared self.now dev.now g) }
        ensures { IfSome (contents self.now dev.now) (λ words. result ≡ slice_index words i) };

    /// Sets the bits of a word of memory that the mask has. Each image stands for what one stood for.
    fn store(&mut self, dev: &mut Self::Device, i: u32, w: u32, mask: u32) -> Result<(), CheckFault>
        requires at { i < size self.old }
        requires lent { lent self.old dev.old }
        requires ready { ready self.old dev.old }
        ensures call { IsCall (showing (device told stops faults untouched continues) (handle index size form first floor) lent leaves numbers steady) (on self.old dev.old) (on self.new dev.new) result }
        ensures adds_nothing { AddsNothing (showing (device told stops faults untouched continues) (handle index size form first floor) lent leaves numbers steady) (on self.old dev.old) (on self.new dev.new) }
        ensures ready { OnOk result (ready self.new dev.new) }
        ensures memory { OnOk result (Becomes (contents self.old dev.old) (contents self.new dev.new) (λ before after. after ≡ slice_set before i (masked (slice_index before i) w mask))) }
        ensures number { OnOk result ((number self.new ≡ number self.old) × (logged self.new ≡ logged self.old)) };

    /// Commits the memory as it is now, with this text of the kernel and nothing logged. Refused, each image stands for the old
    /// state or the new one.
    fn commit(&mut self, dev: &mut Self::Device, kernel: &[u32]) -> Result<(), CheckFault>
        requires lent { lent self.old dev.old }
        requires ready { ready self.old dev.old }
        requires text { IsText (form self.old) kernel.now }
        requires number { number self.old < number_in kernel.now }
        ensures call { IsCall (showing (device told stops faults untouched continues) (handle index size form first floor) lent leaves numbers steady) (on self.old dev.old) (on self.new dev.new) result }
        ensures ready { OnOk result (ready self.new dev.new) }
        ensures memory { OnOk result (Becomes (contents self.old dev.old) (contents self.new dev.new) (λ before after. after ≡ before)) }
        ensures number { OnOk result ((number self.new ≡ number_in kernel.now) × (logged self.new ≡ 0)) }
        ensures stands { OnOk result ((d : ℕ) (reading : Reading) → floor self.old ≤ d → leaves self.new dev.new d reading → IsSaved (contents self.old dev.old) kernel.now reading) }
        ensures between { (d : ℕ) (reading : Reading) → floor self.old ≤ d → leaves self.new dev.new d reading → leaves self.old dev.old d reading ⊎ IsSaved (contents self.old dev.old) kernel.now reading };

    /// Logs an event. Refused, each image stands for the state without it or with it.
    fn append_log(&mut self, dev: &mut Self::Device, rec: &LogRecord) -> Result<(), CheckFault>
        requires lent { lent self.old dev.old }
        requires ready { ready self.old dev.old }
        requires record { IsRecord (form self.old).n rec.now }
        requires room { logged self.old < LOGGED_EVENTS }
        requires decisions { loggable self.old }
        ensures call { IsCall (showing (device told stops faults untouched continues) (handle index size form first floor) lent leaves numbers steady) (on self.old dev.old) (on self.new dev.new) result }
        ensures decided_stays { KeepsNumbers (showing (device told stops faults untouched continues) (handle index size form first floor) lent leaves numbers steady) always (on self.old dev.old) (on self.new dev.new) }
        ensures ready { OnOk result (ready self.new dev.new) }
        ensures memory { OnOk result (Becomes (contents self.old dev.old) (contents self.new dev.new) (λ before after. after ≡ before)) }
        ensures number { OnOk result ((number self.new ≡ number self.old) × (logged self.new ≡ logged self.old + 1)) }
        ensures stands { OnOk result ((d : ℕ) (reading : Reading) → floor self.old ≤ d → leaves self.new dev.new d reading → IsLogged (leaves self.old dev.old d) rec.now reading) }
        ensures between { (d : ℕ) (reading : Reading) → floor self.old ≤ d → leaves self.new dev.new d reading → leaves self.old dev.old d reading ⊎ IsLogged (leaves self.old dev.old d) rec.now reading };

    /// Prepares the memory as it is now, with this text of the kernel and nothing logged, under the number `g`: it counts once `g`
    /// is decided. Refused, the old state still counts under each number below.
    fn prepare(&mut self, dev: &mut Self::Device, kernel: &[u32], g: u32) -> Result<(), CheckFault>
        requires lent { lent self.old dev.old }
        requires ready { ready self.old dev.old }
        requires text { IsText (form self.old) kernel.now }
        requires number { (number self.old < g) × (number_in kernel.now ≡ g) }
        ensures call { IsCall (showing (device told stops faults untouched continues) (handle index size form first floor) lent leaves numbers steady) (on self.old dev.old) (on self.new dev.new) result }
        ensures decided_stays { KeepsNumbers (showing (device told stops faults untouched continues) (handle index size form first floor) lent leaves numbers steady) (AreBelow g) (on self.old dev.old) (on self.new dev.new) }
        ensures prepared { OnOk result (prepared self.new dev.new g) }
        ensures decidable { OnOk result (decidable self.new dev.new g) }
        ensures memory { OnOk result (Becomes (contents self.old dev.old) (contents self.new dev.new) (λ before after. after ≡ before)) }
        ensures old_state { (d : ℕ) (reading : Reading) → floor self.old ≤ d → d < g → leaves self.new dev.new d reading → leaves self.old dev.old d reading }
        ensures new_state { OnOk result ((d : ℕ) (reading : Reading) → g ≤ d → leaves self.new dev.new d reading → IsSaved (contents self.old dev.old) kernel.now reading) };

    /// Decides on the number `g`, in the store of process 0. Refused, the decided number of each image is an old one or `g`.
    fn decide(&mut self, dev: &mut Self::Device, g: u32) -> Result<(), CheckFault>
        requires first { (form self.old).p ≡ 0 }
        requires lent { lent self.old dev.old }
        requires awake { ready self.old dev.old ⊎ prepared self.old dev.old g }
        requires decidable { decidable self.old dev.old g }
        ensures touches { Touches (showing (device told stops faults untouched continues) (handle index size form first floor) lent leaves numbers steady) (on self.old dev.old) (on self.new dev.new) result }
        ensures awake { OnOk result ((ready self.old dev.old → ready self.new dev.new) × (prepared self.old dev.old g → prepared self.new dev.new g)) }
        ensures memory { OnOk result (Becomes (contents self.old dev.old) (contents self.new dev.new) (λ before after. after ≡ before)) }
        ensures number { OnOk result ((number self.new ≡ number self.old) × (logged self.new ≡ logged self.old)) }
        ensures floor { floor self.new ≤ floor self.old }
        ensures stands { Narrows (floor self.old) (leaves self.old dev.old) (leaves self.new dev.new) }
        ensures steady { steady self.old dev.old → AreBelow g (numbers self.old dev.old) → steady self.new dev.new }
        ensures decided { OnOk result (AreBelow g (numbers self.old dev.old) → AreAll g (numbers self.new dev.new)) }
        ensures between { (e : ℕ) → numbers self.new dev.new e → numbers self.old dev.old e ⊎ (e ≡ g) }
        ensures unrefused { IsUnrefused result };

    /// Goes on from the state that was prepared under `g`, once that is decided.
    fn finish(&mut self, dev: &mut Self::Device, g: u32) -> Result<(), CheckFault>
        requires lent { lent self.old dev.old }
        requires prepared { prepared self.old dev.old g }
        ensures touches { Touches (showing (device told stops faults untouched continues) (handle index size form first floor) lent leaves numbers steady) (on self.old dev.old) (on self.new dev.new) result }
        ensures ready { OnOk result (ready self.new dev.new) }
        ensures memory { OnOk result (Becomes (contents self.old dev.old) (contents self.new dev.new) (λ before after. after ≡ before)) }
        ensures number { OnOk result ((number self.new ≡ g) × (logged self.new ≡ 0)) }
        ensures floor { OnOk result (floor self.new ≤ g) }
        ensures stands { Narrows g (leaves self.old dev.old) (leaves self.new dev.new) }
        ensures numbers { AreAmong (numbers self.old dev.old) (numbers self.new dev.new) }
        ensures steady { steady self.old dev.old → outlasts self.old dev.old g → steady self.new dev.new }
        ensures unrefused { IsUnrefused result };

    /// The decided number that the store of process 0 holds, the same in each image from now on; 0 where nothing was decided. It says
    /// whether that number is steady too.
    fn decided(&mut self, dev: &mut Self::Device) -> Result<Decided, CheckFault>
        requires first { (form self.old).p ≡ 0 }
        requires lent { lent self.old dev.old }
        ensures touches { Touches (showing (device told stops faults untouched continues) (handle index size form first floor) lent leaves numbers steady) (on self.old dev.old) (on self.new dev.new) result }
        ensures awake { OnOk result ((ready self.old dev.old → ready self.new dev.new) × ((g : ℕ) → prepared self.old dev.old g → prepared self.new dev.new g) × ((g : ℕ) → decidable self.old dev.old g → decidable self.new dev.new g)) }
        ensures memory { OnOk result (Becomes (contents self.old dev.old) (contents self.new dev.new) (λ before after. after ≡ before)) }
        ensures number { OnOk result ((number self.new ≡ number self.old) × (logged self.new ≡ logged self.old)) }
        ensures floor { floor self.new ≤ floor self.old }
        ensures decided { IfOk result (λ d. AreAll d.number (numbers self.new dev.new)) }
        ensures is_steady { IfOk result (λ d. d.is_steady ≡ true → steady self.new dev.new) }
        ensures unsteady { IfOk result (λ d. d.is_steady ≡ false → told dev.new (index self.new) → ¬ steady self.new dev.new) }
        ensures stands { Narrows 0 (leaves self.old dev.old) (leaves self.new dev.new) }
        ensures steady { steady self.old dev.old → steady self.new dev.new }
        ensures numbers { AreAmong (numbers self.old dev.old) (numbers self.new dev.new) }
        ensures unrefused { IsUnrefused result };

    /// Reads what the store stands for under a decided number, and leaves it standing for that, whatever the device holds and
    /// whoever wrote it. Where its content is no checkpoint it says why: exactly what the store stands for.
    fn recover(
        &mut self,
        dev: &mut Self::Device,
        decided: u32,
        saved: &mut Saved,
    ) -> Result<(), CheckFault>
        requires lent { lent self.old dev.old }
        requires fit { IsFit (form self.old) saved.old }
        ensures touches { Touches (showing (device told stops faults untouched continues) (handle index size form first floor) lent leaves numbers steady) (on self.old dev.old) (on self.new dev.new) result }
        ensures decided_stays { KeepsNumbers (showing (device told stops faults untouched continues) (handle index size form first floor) lent leaves numbers steady) (AreAll decided) (on self.old dev.old) (on self.new dev.new) }
        ensures fit { IsFit (form self.old) saved.new }
        ensures ready { OnOk result (ready self.new dev.new × (floor self.new ≤ decided)) }
        ensures gives { OnOk result ((reading : Reading) → leaves self.new dev.new decided reading → Gives (contents self.new dev.new) saved.new reading) }
        ensures read { OnOk result (IsRead (form self.old) saved.new) }
        ensures number { OnOk result ((number self.new ≡ saved.new.kernel.commit) × (logged self.new ≡ length saved.new.log.items)) }
        ensures stands { (reading : Reading) → leaves self.new dev.new decided reading → leaves self.old dev.old decided reading }
        ensures refused { (fault : StoreFault) → IsErrOf result (CheckFault.Refused fault) → (reading : Reading) → leaves self.new dev.new decided reading → reading ≡ Err fault }
        ensures no_higher { AreNoHigher (numbers self.old dev.old) (numbers self.new dev.new) };

    /// Drops what is volatile. It makes no call of the device, and a recovery is owed.
    fn fall(&mut self)
        ensures falls { FallsStore (showing (device told stops faults untouched continues) (handle index size form first floor) lent leaves numbers steady) self.old self.new };

    /// A ready store may log: it decided once at most since its last state.
    ghost may_log: { (c : Self) (dev : Self.Device) → ready c dev → loggable c };

    /// A decided number that is none, or at least the one under which a state is finished, outlasts that.
    ghost from_outlasts: { (c : Self) (dev : Self.Device) (g : ℕ) → AreFrom g (numbers c dev) → outlasts c dev g };

    /// A ready store stands for the same under each decided number from its floor on.
    ghost none_waits: { (c : Self) (dev : Self.Device) → ready c dev → (d e : ℕ) (reading : Reading) → floor c ≤ d → floor c ≤ e → leaves c dev d reading → leaves c dev e reading };

    /// A told store stands for something under each decided number.
    ghost some_reading: { (c : Self) (dev : Self.Device) → told dev (index c) → (d : ℕ) → (reading : Reading) × leaves c dev d reading };

    /// It has a decided number.
    ghost some_number: { (c : Self) (dev : Self.Device) → told dev (index c) → (e : ℕ) × numbers c dev e };

    /// The memory's length is the store's size.
    ghost contents_long: { (c : Self) (dev : Self.Device) → lent c dev → IfSome (contents c dev) (λ words. length words ≡ size c) };

    /// The memory is told only where the device is.
    ghost contents_told: { (c : Self) (dev : Self.Device) → IsSome (contents c dev) → told dev (index c) };

    /// A ready store on a told device tells its memory.
    ghost told_contents: { (c : Self) (dev : Self.Device) → ready c dev → told dev (index c) → IsSome (contents c dev) };

    /// Two handles over one store stand for the same.
    ghost leaves_alike: { (c e : Self) (dev : Self.Device) → IsSameStore (showing (device told stops faults untouched continues) (handle index size form first floor) lent leaves numbers steady) c e → (d : ℕ) (reading : Reading) → leaves c dev d reading → leaves e dev d reading };

    /// And they have the same decided numbers.
    ghost numbers_alike: { (c e : Self) (dev : Self.Device) → IsSameStore (showing (device told stops faults untouched continues) (handle index size form first floor) lent leaves numbers steady) c e → (d : ℕ) → numbers c dev d → numbers e dev d };

    /// What one was lent another may be.
    ghost lent_fits: { (c : Self) (dev : Self.Device) → lent c dev → fits dev (index c) (size c) (form c) };

    /// A device is as it was where nothing was called.
    ghost untouched_self: { (dev : Self.Device) (q : ℕ) → untouched dev dev q };

    /// It is as it was where it stayed so twice.
    ghost untouched_on: { (old between new : Self.Device) (q : ℕ) → untouched old between q → untouched between new q → untouched old new q };

    /// What is as it was, was as it is.
    ghost untouched_back: { (old new : Self.Device) (q : ℕ) → untouched old new q → untouched new old q };

    /// An untouched device tells on what it told.
    ghost told_still: { (old new : Self.Device) (q : ℕ) → untouched old new q → told old q → told new q };

    /// Its counts stay.
    ghost counts_same: { (old new : Self.Device) (q : ℕ) → untouched old new q → (stops new q ≡ stops old q) × (faults new q ≡ faults old q) };

    /// A handle over it has what it needs.
    ghost lent_still: { (c : Self) (old new : Self.Device) → untouched old new (index c) → lent c old → lent c new };

    /// It may go on.
    ghost ready_still: { (c : Self) (old new : Self.Device) → untouched old new (index c) → ready c old → ready c new };

    /// What was prepared is.
    ghost prepared_still: { (c : Self) (old new : Self.Device) (g : ℕ) → untouched old new (index c) → prepared c old g → prepared c new g };

    /// What could be decided can be.
    ghost decidable_still: { (c : Self) (old new : Self.Device) (g : ℕ) → untouched old new (index c) → decidable c old g → decidable c new g };

    /// The decided number is still one that only `decide` and `commit` may change.
    ghost steady_still: { (c : Self) (old new : Self.Device) → untouched old new (index c) → steady c old → steady c new };

    /// The store stands for what it stood for.
    ghost leaves_still: { (c : Self) (old new : Self.Device) (d : ℕ) (reading : Reading) → untouched old new (index c) → leaves c old d reading → leaves c new d reading };

    /// Its decided number is what it was.
    ghost numbers_still: { (c : Self) (old new : Self.Device) (e : ℕ) → untouched old new (index c) → numbers c old e → numbers c new e };

    /// Its memory is what it was.
    ghost contents_still: { (c : Self) (old new : Self.Device) → untouched old new (index c) → contents c new ≡ contents c old };

    /// A device continues itself.
    ghost continues_self: { (dev : Self.Device) → continues dev dev };

    /// What continues a later state continues the first.
    ghost continues_on: { (old between new : Self.Device) → continues old between → continues between new → continues old new };
}
