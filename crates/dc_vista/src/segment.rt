ghost use Rattle.std.specs.Prelude.{◌≡◌, ◌+◌, ◌*◌, ◌/◌, ◌≤◌, ℕ, length, IfOk, IfSome, IsSome, Ok};
ghost use Rattle.std.proofs.Common.{◌∙◌, sym};
ghost use Rattle.dc_kernel.specs.Layout.{kernel_words};
ghost use Rattle.dc_media.specs.Devices.{of_words};
ghost use Rattle.dc_media.specs.Told.{IsSameStore};
ghost use Rattle.dc_words.specs.Words.{masked};
ghost use Rattle.dc_checkpoint.specs.States.{IsForm, IsText, form_in, number_in};
ghost use Rattle.dc_vista.specs.Faults.{checked};
ghost use Rattle.dc_vista.specs.Handles.{Fits, IsLent, seen, shape_of, since_of};
ghost use Rattle.dc_vista.specs.Laws.{fits_in, leaves_alike, lent_fits, memory_long, memory_still, memory_told, numbers_alike, same_back, same_on, same_self, unwaited_reading, some_number, some_reading, still, told_memory};
ghost use Rattle.dc_vista.specs.Parts.{parts};
ghost use Rattle.dc_vista.specs.Standing.{Numbers, StandsFor, memory_of};
ghost use Rattle.dc_vista.specs.Whole.{IsPreparedAs, IsReady, untouched};

use crate::frame::Frame;
use crate::marks::Marks;
use crate::words::{Word, get, segment_words};
use dc_checkpoint::{CheckFault, Checkpoint, Decided, StoreFault};
use dc_kernel::{COMMIT_AT, LogRecord, N_AT, P_AT, Saved};
use dc_media::{DeviceFault, Keeps, MakeFault};
use std::alloc::{AllocError, Global};
use std::marker::PhantomData;

/// The words of a line.
const LINE_WORDS: u32 = 16;

/// A recoverable segment of words, as a store of one process's state.
///
/// Its words are a header of 16, the memory and the text of the kernel in lines of 16, 64 slots of 22 for logged events, a number for
/// each undo line, and as many undo lines as there are lines. The first store to a line since the last commit copies it to an undo line:
/// the line's number, the copy, and then the count of undo lines. A commit writes the text of the kernel by such stores and sets the
/// count to 0; a prepared commit sets a number in place of that, and counts once that number is decided.
#[derive(Drop)]
pub struct Segment<K: Keeps> {
    frame: Frame,
    marks: Marks,
    text: Vec<u32>,
    device: PhantomData<K>,
    ghost marked: { length marks.touched.items ≡ frame.lines },
    ghost room: { length text.items ≡ kernel_words frame.n },
}

/// A device's answer as a store's.
fn checked(done: Result<(), DeviceFault>) -> Result<(), CheckFault>
    ensures { result ≡ checked done }
{
    match done {
        Ok(()) => Ok(()),
        Err(DeviceFault::Stopped) => Err(CheckFault::Stopped),
        Err(DeviceFault::Failed) => Err(CheckFault::Failed),
    }
}

/// A word whose bits of the mask are another's.
fn masked(old: u32, w: u32, mask: u32) -> u32
    ensures { result ≡ masked old w mask }
{
    (old & !mask) | (w & mask)
}

impl<K: Keeps> Segment<K> {
    /// A handle with this first state. It makes no call of the device.
    fn new(
        alloc: Global,
        index: u32,
        memory: Vec<u32>,
        kernel: Vec<u32>,
    ) -> Result<Segment<K>, AllocError>
        requires form { IsForm (form_in kernel.items) }
        requires text { IsText (form_in kernel.items) kernel.items }
        requires number { 1 ≤ number_in kernel.items }
        requires pages { (pages : ℕ) × (length memory.items ≡ 1024 * pages) × (pages ≤ 256) }
        ensures same { IfOk result (λ s. (s.frame.index ≡ index) × (s.frame.size ≡ length memory.items) × ((shape_of s.frame).form ≡ form_in kernel.items)) }
        ensures n { IfOk result (λ s. s.frame.n ≡ (form_in kernel.items).n) }
        ensures first { IfOk result (λ s. (s.frame.memory ≡ memory) × (s.frame.kernel ≡ kernel)) }
        ensures none { IfOk result (λ s. since_of s.marks ≡ untouched (number_in kernel.items) 0 s.frame.lines) }
    {
        let size = memory.len() as u32;
        let lines = (size + kernel.len() as u32 + LINE_WORDS - 1) / LINE_WORDS;
        let n = kernel[N_AT];
        let p = kernel[P_AT];
        let number = kernel[COMMIT_AT];
        let marks = Marks::new(alloc, lines, number)?;
        let text = vec![in alloc; 0; kernel.len()]?;
        Ok(Segment {
            frame: Frame {
                index,
                size,
                n,
                p,
                lines,
                memory,
                kernel,
            },
            marks,
            text,
            device: PhantomData,
        })
    }
}

impl<K: Keeps> Checkpoint for Segment<K> {
    type Device = K;

    ghost index = { λ s. s.frame.index };

    ghost size = { λ s. s.frame.size };

    ghost form = { λ s. (shape_of s.frame).form };

    ghost first = { λ s. (shape_of s.frame).first };

    ghost number = { λ s. s.marks.number };

    ghost logged = { λ s. s.marks.logged };

    ghost floor = { λ s. 0 };

    ghost fits = { λ dev p size form. Fits (K.extent dev p) size form.n };

    ghost lent = { λ s dev. IsLent K.Keeps s.frame dev };

    ghost ready = { λ s dev. IsReady (shape_of s.frame) (since_of s.marks) (seen K.Keeps s.frame dev) };

    ghost prepared = { λ s dev g. IfSome (seen K.Keeps s.frame dev) (IsPreparedAs (shape_of s.frame) g) };

    ghost decidable = { λ s dev g. Unit {0} };

    ghost loggable = { λ s. Unit {0} };

    ghost steady = { λ s dev. Unit {0} };

    ghost outlasts = { λ s dev g. Unit {0} };

    ghost leaves = { λ s dev d r. StandsFor (shape_of s.frame) (seen K.Keeps s.frame dev) d r };

    ghost numbers = { λ s dev e. Numbers (seen K.Keeps s.frame dev) e };

    ghost contents = { λ s dev. memory_of s.frame.size (seen K.Keeps s.frame dev) };

    ghost told = { λ dev q. IsSome (K.told dev q) };

    ghost stops = { K.stops };

    ghost faults = { K.faults };

    ghost untouched = { λ old new q. IsSameStore (of_words K.Keeps) old new q };

    ghost continues = { K.continues };

    fn format(
        alloc: Global,
        dev: &mut K,
        p: u32,
        memory: Vec<u32>,
        kernel: Vec<u32>,
    ) -> Result<(Self, bool), MakeFault> {
        let Ok(segment) = Segment::new(alloc, p, memory, kernel) else {
            return Err(MakeFault::Memory);
        };
        dev.format(alloc, p, segment_words(segment.frame.lines))?;
        match segment.frame.make(dev) {
            Ok(()) => Ok((segment, false)),
            Err(DeviceFault::Stopped) => Ok((segment, true)),
            Err(DeviceFault::Failed) => Err(MakeFault::Failed),
        }
    }

    fn attach(
        alloc: Global,
        _dev: &K,
        p: u32,
        memory: Vec<u32>,
        kernel: Vec<u32>,
    ) -> Result<Self, AllocError> {
        Segment::new(alloc, p, memory, kernel)
    }

    fn load(&self, dev: &K, i: u32) -> u32 {
        get(dev, self.frame.index, self.frame.lines, Word::Body(i))
    }

    fn store(&mut self, dev: &mut K, i: u32, w: u32, mask: u32) -> Result<(), CheckFault> {
        let old = get(dev, self.frame.index, self.frame.lines, Word::Body(i));
        checked(
            self.frame
                .store(dev, &mut self.marks, i, masked(old, w, mask)),
        )
    }

    fn commit(&mut self, dev: &mut K, kernel: &[u32]) -> Result<(), CheckFault> {
        checked(self.frame.commit(dev, &mut self.marks, kernel))
    }

    fn append_log(&mut self, dev: &mut K, rec: &LogRecord) -> Result<(), CheckFault> {
        checked(self.frame.append(dev, &mut self.marks, rec))
    }

    fn prepare(&mut self, dev: &mut K, kernel: &[u32], g: u32) -> Result<(), CheckFault> {
        checked(self.frame.prepare(dev, &mut self.marks, kernel, g))
    }

    fn decide(&mut self, dev: &mut K, g: u32) -> Result<(), CheckFault> {
        checked(self.frame.decide(dev, &self.marks, g))
    }

    fn finish(&mut self, dev: &mut K, g: u32) -> Result<(), CheckFault> {
        checked(self.frame.finish(dev, &mut self.marks, g))
    }

    fn decided(&mut self, dev: &mut K) -> Result<Decided, CheckFault> {
        if get(dev, self.frame.index, self.frame.lines, Word::Ready) == 0 {
            return Ok(Decided {
                number: 0,
                is_steady: true,
            });
        }
        let number = get(dev, self.frame.index, self.frame.lines, Word::Decided);
        Ok(Decided {
            number,
            is_steady: true,
        })
    }

    fn recover(&mut self, dev: &mut K, decided: u32, saved: &mut Saved) -> Result<(), CheckFault> {
        if get(dev, self.frame.index, self.frame.lines, Word::Ready) == 0 {
            if let Err(_fault) = saved.kernel.decode(&self.frame.kernel) {
                return Err(CheckFault::Refused(StoreFault::Kernel));
            }
            saved.log.clear();
            saved.position = saved.kernel.position();
            return checked(self.frame.renew(dev, &mut self.marks));
        }
        match self.frame.inspect(dev, decided, &mut self.text, saved) {
            Ok(count) => {
                let number = saved.kernel.commit();
                let logged = saved.log.len() as u32;
                checked(
                    self.frame
                        .resume(dev, &mut self.marks, count, decided, number, logged),
                )
            }
            Err(fault) => Err(CheckFault::Refused(fault)),
        }
    }

    fn fall(&mut self) {
        // No commit has number 0; a recovery tells the one that it goes on from.
        self.marks.restart(0, 0);
    }

    ghost may_log = { λ s dev ready. tt };

    ghost from_outlasts = { λ s dev g from. tt };

    ghost none_waits = { λ s dev ready d e r low high. unwaited_reading (shape_of s.frame) (since_of s.marks) _ ready d e r };

    ghost some_reading = { λ s dev told. some_reading (shape_of s.frame) s.frame.lines (K.told dev s.frame.index) told };

    ghost some_number = { λ s dev told. some_number s.frame.lines (K.told dev s.frame.index) told };

    ghost contents_long = { λ s dev lent. memory_long s.frame.size s.frame.lines (K.extent dev s.frame.index) (K.told dev s.frame.index) (fits_in s.frame) lent (K.told_extent dev s.frame.index) };

    ghost contents_told = { λ s dev is. memory_told s.frame.size s.frame.lines (K.told dev s.frame.index) is };

    ghost told_contents = { λ s dev ready told. told_memory s.frame.size s.frame.lines (K.told dev s.frame.index) told };

    ghost leaves_alike = { λ c e dev same d r left. leaves_alike c.frame e.frame (K.told dev) (sym same.index_same) (sym same.size_same) (sym same.form_same) (sym same.first_same) d r left };

    ghost numbers_alike = { λ c e dev same d is. numbers_alike c.frame e.frame (K.told dev) (sym same.index_same) (sym same.size_same) (sym same.form_same) d is };

    ghost lent_fits = { λ s dev is. lent_fits s.frame (K.extent dev s.frame.index) is };

    ghost untouched_self = { λ dev q. same_self dev q };

    ghost untouched_on = { λ old mid new q a b. same_on old mid new q a b };

    ghost untouched_back = { λ old new q a. same_back old new q a };

    ghost told_still = { λ old new q a is. still (λ told. IsSome told) _ _ a.told_same is };

    ghost counts_same = { λ old new q a. (a.stops_same, a.faults_same) };

    ghost lent_still = { λ s old new a is. a.extent_same ∙ is };

    ghost ready_still = { λ s old new a is. still (λ told. IsReady (shape_of s.frame) (since_of s.marks) (parts s.frame.lines told)) _ _ a.told_same is };

    ghost prepared_still = { λ s old new g a is. still (λ told. IfSome (parts s.frame.lines told) (IsPreparedAs (shape_of s.frame) g)) _ _ a.told_same is };

    ghost decidable_still = { λ s old new g a is. is };

    ghost steady_still = { λ s old new a is. is };

    ghost leaves_still = { λ s old new d r a is. still (λ told. StandsFor (shape_of s.frame) (parts s.frame.lines told) d r) _ _ a.told_same is };

    ghost numbers_still = { λ s old new e a is. still (λ told. Numbers (parts s.frame.lines told) e) _ _ a.told_same is };

    ghost contents_still = { λ s old new a. memory_still s.frame.size s.frame.lines _ _ a.told_same };

    ghost continues_self = { λ dev. K.continues_self dev };

    ghost continues_on = { λ old mid new a b. K.continues_on old mid new a b };
}
