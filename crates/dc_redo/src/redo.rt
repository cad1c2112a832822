ghost use Rattle.std.specs.Prelude.{◌≡◌, ◌+◌, ◌*◌, ◌/◌, ◌≤◌, ℕ, List, length, IfOk, IfSome, IsSome, Ok, OnOk, false, replicate};
ghost use Rattle.std.proofs.Common.{sym};
ghost use Rattle.dc_media.specs.Devices.{of_disks};
ghost use Rattle.dc_media.specs.Told.{IsSameStore};
ghost use Rattle.dc_words.specs.Words.{masked};
ghost use Rattle.dc_checkpoint.specs.Calls.{AreFrom};
ghost use Rattle.dc_checkpoint.specs.States.{IsForm, IsText, form_in, number_in};
ghost use Rattle.dc_media.specs.Disk.{blank};
ghost use Rattle.dc_media.specs.Calls.{IsCall};
ghost use Rattle.dc_redo.specs.Entries.{body_of};
ghost use Rattle.dc_redo.specs.Images.{EachImage};
ghost use Rattle.dc_redo.specs.Likes.{IsFresh};
ghost use Rattle.dc_redo.specs.Handles.{IsLarge, IsSteadyFrom, known_of, memory_of, shape_of};
ghost use Rattle.dc_redo.specs.Laws.{memory_long, memory_still, memory_told, fits_in, large_still, leaves_alike, numbers_alike, same_back, same_on, same_self, unwaited_reading, some_number, some_reading, still, told_memory};
ghost use Rattle.dc_redo.specs.Shapes.{half_bytes, lines_of, whole_bytes};
ghost use Rattle.dc_redo.specs.Standing.{Numbers, StandsFor};
ghost use Rattle.dc_redo.specs.Whole.{HasRoom, IsAtRest, IsPrepared, IsReady, known_state};

use crate::faults::checked;
use crate::frame::Frame;
use crate::marks::Marks;
use dc_checkpoint::{CheckFault, Checkpoint, Decided, StoreFault};
use dc_kernel::{LogRecord, Saved};
use dc_media::{DeviceFault, Disks, MakeFault};
use std::alloc::{AllocError, Global};
use std::marker::PhantomData;

/// A redo log on a disk, as a store of one process's state.
///
/// The memory is the host's own. A disk has two halves of records; the half whose first state has the greater number counts: that state,
/// with the lines of each later commit laid over it, and the events that were logged since the last one. A record is written behind a
/// gate that is closed, and counts once the gate is open, so a stop leaves it there or not. Where a half is full the whole state begins
/// the other one. A prepared state counts once its number is decided.
#[derive(Drop)]
pub struct Redo<D: Disks> {
    frame: Frame,
    marks: Marks,
    piece: Vec<u8>,
    words: Vec<u32>,
    entry: Vec<u32>,
    device: PhantomData<D>,
    ghost long: { length marks.body.items ≡ 16 * frame.lines },
    ghost marked: { length marks.touched.flags.items ≡ frame.lines },
    ghost room: { length piece.items ≡ 2 * frame.half },
    ghost record_room: { length words.items ≡ 1 + frame.event_words },
    ghost entry_room: { 4 * length entry.items ≡ frame.half },
}

impl<D: Disks> Redo<D> {
    /// A handle with this first state. It makes no call of the device, and owes a recovery.
    fn new(
        alloc: Global,
        index: u32,
        memory: Vec<u32>,
        kernel: Vec<u32>,
    ) -> Result<Redo<D>, AllocError>
        requires form { IsForm (form_in kernel.items) }
        requires text { IsText (form_in kernel.items) kernel.items }
        requires number { 1 ≤ number_in kernel.items }
        requires pages { (pages : ℕ) × (length memory.items ≡ 1024 * pages) × (pages ≤ 256) }
        ensures same { IfOk result (λ s. (s.frame.index ≡ index) × (s.frame.size ≡ length memory.items) × ((shape_of s.frame).form ≡ form_in kernel.items)) }
        ensures first { IfOk result (λ s. (s.frame.memory ≡ memory) × (s.frame.kernel ≡ kernel)) }
        ensures floor { IfOk result (λ s. s.marks.floor ≡ 0) }
        ensures unmarked { IfOk result (λ s. s.marks.touched.flags.items ≡ replicate s.frame.lines false) }
    {
        let frame = Frame::new(index, memory, kernel);
        let marks = Marks::new(alloc, frame.lines)?;
        let piece = vec![in alloc; 0; 2 * frame.half as usize]?;
        let words = vec![in alloc; 0; 1 + frame.event_words as usize]?;
        let entry = vec![in alloc; 0; frame.half as usize / 4]?;
        Ok(Redo {
            frame,
            marks,
            piece,
            words,
            entry,
            device: PhantomData,
        })
    }
}

impl<D: Disks> Redo<D> {
    /// Writes the first state on a disk of zeros, and goes on from it.
    fn start(&mut self, dev: &mut D) -> Result<(), DeviceFault>
        requires large { D.extent dev.old self.old.frame.index ≡ 2 * self.old.frame.half }
        requires blank { IfSome (D.told dev.old self.old.frame.index) (λ disk. disk ≡ blank (2 * self.old.frame.half)) }
        ensures same { self.new.frame ≡ self.old.frame }
        ensures known { known_of self.new.marks ≡ known_state 0 0 (whole_bytes (shape_of self.old.frame)) (number_in self.old.frame.kernel.items) false (body_of (shape_of self.old.frame) self.old.frame.memory.items self.old.frame.kernel.items) self.new.marks.touched.flags.items }
        ensures marks_stay { self.new.marks.touched ≡ self.old.marks.touched }
        ensures roomy { HasRoom (shape_of self.old.frame) (known_of self.new.marks) }
        ensures images { (x : List ℕ) × EachImage (D.told dev.new self.old.frame.index) (IsFresh (shape_of self.old.frame) x) }
        ensures ready { OnOk result (IsReady (shape_of self.old.frame) (known_of self.new.marks) (D.told dev.new self.old.frame.index)) }
        ensures call { IsCall (of_disks D.Disks) self.old.frame.index dev.old dev.new result }
    {
        self.frame.begun(&mut self.marks);
        self.frame.begin(dev, &mut self.piece, &self.marks.body)
    }
}

/// A word whose bits of the mask are another's.
fn masked(old: u32, w: u32, mask: u32) -> u32
    ensures { result ≡ masked old w mask }
{
    (old & !mask) | (w & mask)
}

impl<D: Disks> Checkpoint for Redo<D> {
    type Device = D;

    ghost index = { λ s. s.frame.index };

    ghost size = { λ s. s.frame.size };

    ghost form = { λ s. (shape_of s.frame).form };

    ghost first = { λ s. (shape_of s.frame).first };

    ghost number = { λ s. s.marks.number };

    ghost logged = { λ s. s.marks.logged };

    ghost floor = { λ s. s.marks.floor };

    ghost fits = { λ dev p m form. Unit {0} };

    ghost lent = { λ s dev. Unit {0} };

    ghost ready = { λ s dev. IsLarge D.Disks s.frame dev × HasRoom (shape_of s.frame) (known_of s.marks) × IsReady (shape_of s.frame) (known_of s.marks) (D.told dev s.frame.index) };

    ghost prepared = { λ s dev g. IsLarge D.Disks s.frame dev × HasRoom (shape_of s.frame) (known_of s.marks) × ((s.marks.number ≡ g) × (s.marks.logged ≡ 0)) × IsAtRest (IsPrepared (shape_of s.frame) (known_of s.marks) g) (D.told dev s.frame.index) };

    ghost decidable = { λ s dev g. (s.marks.decided ≡ 0) × (s.marks.floor ≤ g) };

    ghost loggable = { λ s. Unit {0} };

    ghost steady = { λ s dev. IsSteadyFrom (shape_of s.frame) s.marks.floor (D.told dev s.frame.index) };

    ghost outlasts = { λ s dev g. AreFrom g (Numbers (shape_of s.frame) (D.told dev s.frame.index)) };

    ghost leaves = { λ s dev d r. StandsFor (shape_of s.frame) (D.told dev s.frame.index) d r };

    ghost numbers = { λ s dev e. Numbers (shape_of s.frame) (D.told dev s.frame.index) e };

    ghost contents = { λ s dev. memory_of s.frame.size s.marks.body.items (D.told dev s.frame.index) };

    ghost told = { λ dev q. IsSome (D.told dev q) };

    ghost stops = { D.stops };

    ghost faults = { D.faults };

    ghost untouched = { λ old new q. IsSameStore (of_disks D.Disks) old new q };

    ghost continues = { D.continues };

    fn format(
        alloc: Global,
        dev: &mut D,
        p: u32,
        memory: Vec<u32>,
        kernel: Vec<u32>,
    ) -> Result<(Self, bool), MakeFault> {
        let Ok(mut redo) = Redo::new(alloc, p, memory, kernel) else {
            return Err(MakeFault::Memory);
        };
        dev.format(alloc, p, 2 * u64::from(redo.frame.half))?;
        match redo.start(dev) {
            Ok(()) => Ok((redo, false)),
            Err(DeviceFault::Stopped) => Ok((redo, true)),
            Err(DeviceFault::Failed) => Err(MakeFault::Failed),
        }
    }

    fn attach(
        alloc: Global,
        _dev: &D,
        p: u32,
        memory: Vec<u32>,
        kernel: Vec<u32>,
    ) -> Result<Self, AllocError> {
        Redo::new(alloc, p, memory, kernel)
    }

    fn load(&self, dev: &D, i: u32) -> u32 {
        self.marks.body[i as usize]
    }

    fn store(&mut self, dev: &mut D, i: u32, w: u32, mask: u32) -> Result<(), CheckFault> {
        let old = self.marks.body[i as usize];
        self.marks.store(i, masked(old, w, mask));
        Ok(())
    }

    fn commit(&mut self, dev: &mut D, kernel: &[u32]) -> Result<(), CheckFault> {
        checked(
            self.frame
                .save(dev, &mut self.marks, &mut self.piece, kernel, false),
        )
    }

    fn append_log(&mut self, dev: &mut D, rec: &LogRecord) -> Result<(), CheckFault> {
        checked(self.frame.append(dev, &mut self.marks, &mut self.piece, &mut self.words, rec))
    }

    fn prepare(&mut self, dev: &mut D, kernel: &[u32], _g: u32) -> Result<(), CheckFault> {
        checked(
            self.frame
                .save(dev, &mut self.marks, &mut self.piece, kernel, true),
        )
    }

    fn decide(&mut self, dev: &mut D, g: u32) -> Result<(), CheckFault> {
        checked(self.frame.decide(dev, &mut self.marks, &mut self.piece, g))
    }

    fn finish(&mut self, dev: &mut D, g: u32) -> Result<(), CheckFault> {
        self.marks.floor = g;
        Ok(())
    }

    fn decided(&mut self, dev: &mut D) -> Result<Decided, CheckFault> {
        checked(
            self.frame
                .decided(dev, self.marks.floor, &mut self.piece, &mut self.entry),
        )
    }

    fn recover(&mut self, dev: &mut D, decided: u32, saved: &mut Saved) -> Result<(), CheckFault> {
        self.frame.recover(
            dev,
            decided,
            &mut self.marks,
            &mut self.piece,
            &mut self.entry,
            saved,
        )
    }

    fn fall(&mut self) {
        self.marks.number = 0;
    }

    ghost may_log = { λ s dev ready. tt };

    ghost from_outlasts = { λ s dev g from. from };

    ghost none_waits = { λ s dev ready d e r low high. unwaited_reading (shape_of s.frame) (known_of s.marks) _ ready.2 d e r low high };

    ghost some_reading = { λ s dev told. some_reading (shape_of s.frame) (D.told dev s.frame.index) told };

    ghost some_number = { λ s dev told. some_number (shape_of s.frame) (D.told dev s.frame.index) told };

    ghost contents_long = { λ s dev lent. memory_long s.frame.size s.marks.body.items (D.told dev s.frame.index) (fits_in s.frame s.marks.body.items s.long) };

    ghost contents_told = { λ s dev is. memory_told s.frame.size s.marks.body.items (D.told dev s.frame.index) is };

    ghost told_contents = { λ s dev ready told. told_memory s.frame.size s.marks.body.items (D.told dev s.frame.index) told };

    ghost leaves_alike = { λ c e dev same d r left. leaves_alike c.frame e.frame (D.told dev) (sym same.index_same) (sym same.size_same) (sym same.form_same) (sym same.first_same) d r left };

    ghost numbers_alike = { λ c e dev same d is. numbers_alike c.frame e.frame (D.told dev) (sym same.index_same) (sym same.size_same) (sym same.form_same) d is };

    ghost lent_fits = { λ s dev is. is };

    ghost untouched_self = { λ dev q. same_self dev q };

    ghost untouched_on = { λ old mid new q a b. same_on old mid new q a b };

    ghost untouched_back = { λ old new q a. same_back old new q a };

    ghost told_still = { λ old new q a is. still (λ told. IsSome told) _ _ a.told_same is };

    ghost counts_same = { λ old new q a. (a.stops_same, a.faults_same) };

    ghost lent_still = { λ s old new a is. is };

    ghost ready_still = { λ s old new a is. (large_still (shape_of s.frame) _ _ a.extent_same is.0, is.1, still (λ told. IsReady (shape_of s.frame) (known_of s.marks) told) _ _ a.told_same is.2) };

    ghost prepared_still = { λ s old new g a is. (large_still (shape_of s.frame) _ _ a.extent_same is.0, is.1, is.2, still (λ told. IsAtRest (IsPrepared (shape_of s.frame) (known_of s.marks) g) told) _ _ a.told_same is.3) };

    ghost decidable_still = { λ s old new g a is. is };

    ghost steady_still = { λ s old new a is. still (λ told. IsSteadyFrom (shape_of s.frame) s.marks.floor told) _ _ a.told_same is };

    ghost leaves_still = { λ s old new d r a is. still (λ told. StandsFor (shape_of s.frame) told d r) _ _ a.told_same is };

    ghost numbers_still = { λ s old new e a is. still (λ told. Numbers (shape_of s.frame) told e) _ _ a.told_same is };

    ghost contents_still = { λ s old new a. memory_still s.frame.size s.marks.body.items _ _ a.told_same };

    ghost continues_self = { λ dev. D.continues_self dev };

    ghost continues_on = { λ old mid new a b. D.continues_on old mid new a b };
}
