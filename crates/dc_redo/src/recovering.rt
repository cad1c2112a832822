//! Recovers: closes the gates of records that wait, and goes on from what counts.

ghost use Rattle.std.specs.Prelude.{All, ◌≡◌, ◌≢◌, ◌⊎◌, ◌+◌, ◌*◌, ◌≤◌, ◌<◌, ◌^◌, ◌++◌, [], ◌∷◌, ℕ, Bool, List, Ok, Err, OnOk, IfOk, IfSome, IsErrOf, IsSome, length, map, replicate, take, true, false, vec_capacity};
ghost use Rattle.dc_kernel.specs.Kernels.{IsKernel};
ghost use Rattle.dc_kernel.specs.Records.{IsRecord, record_in};
ghost use Rattle.dc_kernel.specs.Texts.{text_of};
ghost use Rattle.dc_checkpoint.specs.declared.faults.CheckFault.TheVariants as check;
ghost use Rattle.dc_checkpoint.specs.declared.faults.StoreFault.{StoreFault};
ghost use Rattle.dc_media.specs.Devices.{of_disks};
ghost use Rattle.dc_media.specs.Told.{Becomes, IsSameStore};
ghost use Rattle.dc_checkpoint.specs.Calls.{IsCounted};
ghost use Rattle.dc_checkpoint.specs.States.{number_in};
ghost use Rattle.dc_media.specs.Calls.{IsCall};
ghost use Rattle.dc_redo.specs.Calls.{stores_on};
ghost use Rattle.dc_redo.specs.Entries.{body_of};
ghost use Rattle.dc_redo.specs.Frames.{is_open, records_of};
ghost use Rattle.dc_redo.specs.Handles.{IsLarge, known_of, shape_of};
ghost use Rattle.dc_redo.specs.Images.{EachImage, IsSynced};
ghost use Rattle.dc_redo.specs.Likes.{AreLike, IsCounting, IsEmpty, IsFresh, IsClosing, with_closed};
ghost use Rattle.dc_redo.specs.Shapes.{half_bytes, lines_of, whole_bytes};
ghost use Rattle.dc_redo.specs.Standing.{memory_in, reading, text_in};
ghost use Rattle.dc_redo.specs.Whole.{HasRoom, IsAtRest, IsLog, IsReady, known_state};

use crate::faults::check_fault;
use crate::frame::Frame;
use crate::kinds::{Choice, choose, gate_at, is_full};
use crate::marks::Marks;
use crate::sizes::whole_bytes;
use crate::writing::{add, close};
use dc_checkpoint::{CheckFault, StoreFault};
use dc_kernel::{COMMIT_AT, Saved};
use dc_limits::LOGGED_EVENTS;
use dc_media::{DeviceFault, Disks};

/// What is to be done before a handle may go on from a disk's bytes.
#[derive(Clone, Copy)]
pub struct Gates {
    /// The gate of the half at 0 that is to be closed, where there is one.
    pub low: Option<u64>,
    /// That of the other half.
    pub high: Option<u64>,
    /// Whether a half counts; else the first state is to be written.
    pub counts: bool,
}

/// Closes a gate, where there is one.
fn close_gate<D: Disks>(dev: &mut D, p: u32, gate: Option<u64>) -> Result<(), DeviceFault>
    requires room { IfSome gate (λ at. at + 1 ≤ D.extent dev.old p) }
    ensures done { OnOk result ((x : List ℕ) → IsSynced x (D.told dev.old p) → IsSynced (with_closed gate x) (D.told dev.new p)) }
    ensures images { (x : List ℕ) → IsSynced x (D.told dev.old p) → EachImage (D.told dev.new p) (IsClosing gate x) }
    ensures told { Becomes (D.told dev.old p) (D.told dev.new p) (λ b a. Unit {0}) }
    ensures call { IsCall (of_disks D.Disks) p dev.old dev.new result }
{
    match gate {
        None => Ok(()),
        Some(at) => close(dev, p, at),
    }
}

/// Closes two gates, one after the other.
fn close_gates<D: Disks>(
    dev: &mut D,
    p: u32,
    low: Option<u64>,
    high: Option<u64>,
) -> Result<(), DeviceFault>
    requires low { IfSome low (λ at. at + 1 ≤ D.extent dev.old p) }
    requires high { IfSome high (λ at. at + 1 ≤ D.extent dev.old p) }
    ensures done { OnOk result ((x : List ℕ) → IsSynced x (D.told dev.old p) → IsSynced (with_closed high (with_closed low x)) (D.told dev.new p)) }
    ensures like { (x : List ℕ) → IsSynced x (D.told dev.old p) → EachImage (D.told dev.new p) (λ c. IsClosing low x c ⊎ IsClosing high (with_closed low x) c) }
    ensures told { Becomes (D.told dev.old p) (D.told dev.new p) (λ b a. Unit {0}) }
    ensures call { IsCall (of_disks D.Disks) p dev.old dev.new result }
{
    close_gate(dev, p, low)?;
    close_gate(dev, p, high)
}

impl Frame {
    /// Writes the first state in the half at 0, where no record stands.
    pub fn begin<D: Disks>(
        &self,
        dev: &mut D,
        piece: &mut [u8],
        body: &[u32],
    ) -> Result<(), DeviceFault>
        requires piece { length piece.old ≡ 2 * self.now.half }
        requires body { body.now ≡ body_of (shape_of self.now) self.now.memory.items self.now.kernel.items }
        requires large { IsLarge D.Disks self.now dev.old }
        ensures long { length piece.new ≡ length piece.old }
        ensures images { (x others : List ℕ) → IsLog (half_bytes (shape_of self.now)) 0 [] others x → records_of others ≡ [] → IsSynced x (D.told dev.old self.now.index)
            → EachImage (D.told dev.new self.now.index) (IsFresh (shape_of self.now) x) }
        ensures ready { OnOk result ((x others : List ℕ) (touched : List Bool) → length touched ≡ lines_of (shape_of self.now) → IsLog (half_bytes (shape_of self.now)) 0 [] others x → records_of others ≡ [] → is_open others ≡ false → IsSynced x (D.told dev.old self.now.index)
            → IsReady (shape_of self.now) (known_state 0 0 (whole_bytes (shape_of self.now)) (number_in self.now.kernel.items) false body.now touched) (D.told dev.new self.now.index)) }
        ensures told { Becomes (D.told dev.old self.now.index) (D.told dev.new self.now.index) (λ b a. Unit {0}) }
        ensures call { IsCall (of_disks D.Disks) self.now.index dev.old dev.new result }
    {
        let number = self.kernel[COMMIT_AT];
        let end = self.put_whole(body, piece, number, false);
        add(dev, self.index, u64::from(self.half), 0, 0, &piece[..end])
    }

    /// Goes on from the first state.
    pub fn begun(&self, marks: &mut Marks)
        requires body { length marks.old.body.items ≡ 16 * self.now.lines }
        ensures known { known_of marks.new ≡ known_state 0 0 (whole_bytes (shape_of self.now)) (number_in self.now.kernel.items) false (body_of (shape_of self.now) self.now.memory.items self.now.kernel.items) marks.new.touched.flags.items }
        ensures long { (length marks.new.body.items ≡ length marks.old.body.items) × (length marks.new.touched.flags.items ≡ length marks.old.touched.flags.items) }
        ensures marks_stay { marks.new.touched ≡ marks.old.touched }
        ensures roomy { HasRoom (shape_of self.now) (known_of marks.new) }
    {
        self.fill(&self.memory, &self.kernel, &mut marks.body);
        marks.at = 0;
        marks.floor = 0;
        marks.end = whole_bytes(self.size, self.kernel_words);
        marks.number = self.kernel[COMMIT_AT];
        marks.logged = 0;
        marks.decided = 0;
        marks.full = false;
    }

    /// Reads what a disk's bytes stand for under a decided number, and says which gates are to be closed before the handle may go on.
    fn weigh(
        &self,
        d: u32,
        marks: &mut Marks,
        piece: &[u8],
        words: &mut [u32],
        saved: &mut Saved,
    ) -> Result<Gates, StoreFault>
        requires piece { length piece.now ≡ 2 * self.now.half }
        requires words { self.now.half ≤ 4 * length words.old }
        requires body { length marks.old.body.items ≡ 16 * self.now.lines }
        requires marked { length marks.old.touched.flags.items ≡ self.now.lines }
        requires floor { marks.old.floor ≤ d }
        requires process { (saved.old.kernel.n ≡ self.now.n) × (saved.old.kernel.p ≡ self.now.p) }
        requires room { LOGGED_EVENTS ≤ vec_capacity saved.old.log }
        ensures floor { marks.new.floor ≤ d }
        ensures refused { (fault : StoreFault) → result ≡ Err fault → reading (shape_of self.now) d piece.now ≡ Err fault }
        ensures counting { IfOk result (λ gates. gates.counts ≡ true → (is : IsCounting (shape_of self.now) d gates.low gates.high (known_of marks.new) piece.now)
            × (saved.new.log.items ≡ map record_in is.contents.log) × (text_in (shape_of self.now) is.contents.body ≡ text_of saved.new.kernel)) }
        ensures number { IfOk result (λ gates. gates.counts ≡ true → (marks.new.number ≡ saved.new.kernel.commit) × (marks.new.logged ≡ length saved.new.log.items)) }
        ensures kernel { IfOk result (λ gates. gates.counts ≡ true → IsKernel self.now.n self.now.p saved.new.kernel) }
        ensures records { IfOk result (λ gates. gates.counts ≡ true → All (IsRecord self.now.n) saved.new.log.items) }
        ensures log { IfOk result (λ gates. gates.counts ≡ true → (length saved.new.log.items ≤ LOGGED_EVENTS) × (saved.new.position ≡ saved.new.kernel.position)) }
        ensures empty { IfOk result (λ gates. gates.counts ≡ false → IsEmpty (shape_of self.now) d gates.low gates.high piece.now) }
        ensures marks_stay { marks.new.touched ≡ marks.old.touched }
        ensures within { IfOk result (λ gates. IfSome gates.low (λ at. at + 1 ≤ 2 * self.now.half) × IfSome gates.high (λ at. at + 1 ≤ 2 * self.now.half)) }
        ensures long { (length words.new ≡ length words.old) × (length marks.new.body.items ≡ length marks.old.body.items) × (length marks.new.touched.flags.items ≡ length marks.old.touched.flags.items) }
        ensures process { (saved.new.kernel.n ≡ saved.old.kernel.n) × (saved.new.kernel.p ≡ saved.old.kernel.p) }
        ensures room { LOGGED_EVENTS ≤ vec_capacity saved.new.log }
    {
        let (low, high) = piece.split_at(self.half as usize);
        let first = self.begin_of(d, low, words);
        let second = self.begin_of(d, high, words);
        match choose(first, second) {
            Choice::Clash => Err(StoreFault::Record(0)),
            Choice::Low => match self.take_up(d, 0, low, marks, words, saved) {
                Err(fault) => Err(fault),
                Ok(gate) => {
                    marks.full = is_full(second);
                    Ok(Gates {
                        low: gate,
                        high: gate_at(self.half, second),
                        counts: true,
                    })
                }
            },
            Choice::High => match self.take_up(d, self.half, high, marks, words, saved) {
                Err(fault) => Err(fault),
                Ok(gate) => {
                    marks.full = is_full(first);
                    Ok(Gates {
                        low: gate_at(0, first),
                        high: gate,
                        counts: true,
                    })
                }
            },
            Choice::Neither => Ok(Gates {
                low: gate_at(0, first),
                high: gate_at(self.half, second),
                counts: false,
            }),
        }
    }

    /// Hands out the first state.
    fn give_first(&self, saved: &mut Saved)
        requires process { (saved.old.kernel.n ≡ self.now.n) × (saved.old.kernel.p ≡ self.now.p) }
        requires room { LOGGED_EVENTS ≤ vec_capacity saved.old.log }
        ensures process { (saved.new.kernel.n ≡ saved.old.kernel.n) × (saved.new.kernel.p ≡ saved.old.kernel.p) }
        ensures room { LOGGED_EVENTS ≤ vec_capacity saved.new.log }
        ensures text { self.now.kernel.items ≡ text_of saved.new.kernel }
        ensures number { number_in self.now.kernel.items ≡ saved.new.kernel.commit }
        ensures kernel { IsKernel self.now.n self.now.p saved.new.kernel }
        ensures log { (saved.new.log.items ≡ []) × (saved.new.position ≡ saved.new.kernel.position) }
    {
        let _done = saved.kernel.decode(&self.kernel);
        saved.log.clear();
        saved.position = saved.kernel.position();
    }

    /// Reads what the disk stands for under a decided number, closes the gates of what waits, and goes on from there. No line is marked then,
    /// nor where it is refused.
    pub fn recover<D: Disks>(
        &self,
        dev: &mut D,
        d: u32,
        marks: &mut Marks,
        piece: &mut [u8],
        words: &mut [u32],
        saved: &mut Saved,
    ) -> Result<(), CheckFault>
        requires piece { length piece.old ≡ 2 * self.now.half }
        requires words { self.now.half ≤ 4 * length words.old }
        requires body { length marks.old.body.items ≡ 16 * self.now.lines }
        requires marked { length marks.old.touched.flags.items ≡ self.now.lines }
        requires process { (saved.old.kernel.n ≡ self.now.n) × (saved.old.kernel.p ≡ self.now.p) }
        requires room { LOGGED_EVENTS ≤ vec_capacity saved.old.log }
        ensures like { AreLike (shape_of self.now) d (D.told dev.old self.now.index) (D.told dev.new self.now.index) }
        ensures large { OnOk result (IsLarge D.Disks self.now dev.new) }
        ensures roomy { OnOk result (HasRoom (shape_of self.now) (known_of marks.new)) }
        ensures ready { OnOk result (IsReady (shape_of self.now) (known_of marks.new) (D.told dev.new self.now.index)) }
        ensures gives { OnOk result (IsAtRest (λ x. reading (shape_of self.now) d x ≡ Ok (record { memory = memory_in (shape_of self.now) marks.new.body.items; kernel = text_of saved.new.kernel; log = saved.new.log.items })) (D.told dev.new self.now.index)) }
        ensures floor { marks.new.floor ≤ d }
        ensures unmarked { marks.new.touched.flags.items ≡ replicate self.now.lines false }
        ensures number { OnOk result ((marks.new.number ≡ saved.new.kernel.commit) × (marks.new.logged ≡ length saved.new.log.items)) }
        ensures kernel { OnOk result (IsKernel self.now.n self.now.p saved.new.kernel) }
        ensures records { OnOk result (All (IsRecord self.now.n) saved.new.log.items) }
        ensures log { OnOk result ((length saved.new.log.items ≤ LOGGED_EVENTS) × (saved.new.position ≡ saved.new.kernel.position)) }
        ensures refused { (fault : StoreFault) → IsErrOf result (check.Refused fault) → IsAtRest (λ x. reading (shape_of self.now) d x ≡ Err fault) (D.told dev.new self.now.index) }
        ensures long { (length piece.new ≡ length piece.old) × (length words.new ≡ length words.old) × (length marks.new.body.items ≡ length marks.old.body.items) × (length marks.new.touched.flags.items ≡ length marks.old.touched.flags.items) }
        ensures process { (saved.new.kernel.n ≡ saved.old.kernel.n) × (saved.new.kernel.p ≡ saved.old.kernel.p) }
        ensures room { LOGGED_EVENTS ≤ vec_capacity saved.new.log }
        ensures counts { IsCounted (stores_on D.Disks) self.now.index dev.old dev.new result }
        ensures others { (q : ℕ) → q ≢ self.now.index → IsSameStore (of_disks D.Disks) dev.old dev.new q }
        ensures continues { D.continues dev.old dev.new }
    {
        marks.forget();
        match self.fetch(dev, piece) {
            Err(fault) => return Err(check_fault(fault)),
            Ok(false) => return Err(CheckFault::Refused(StoreFault::Header)),
            Ok(true) => {}
        }
        let gates = match self.weigh(d, marks, piece, words, saved) {
            Err(fault) => return Err(CheckFault::Refused(fault)),
            Ok(gates) => gates,
        };
        if let Err(fault) = close_gates(dev, self.index, gates.low, gates.high) {
            return Err(check_fault(fault));
        }
        if gates.counts {
            return Ok(());
        }
        self.begun(marks);
        self.give_first(saved);
        if let Err(fault) = self.begin(dev, piece, &marks.body) {
            return Err(check_fault(fault));
        }
        Ok(())
    }
}
