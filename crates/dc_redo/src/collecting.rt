//! Reads the records of a half one after the other.

ghost use Rattle.std.specs.Prelude.{All, ◌≡◌, ◌≢◌, ◌⊎◌, ◌+◌, ◌*◌, ◌≤◌, ◌<◌, ℕ, [], List, Err, IfOk, IfSome, None, Some, false, length, map, min, slice_index, true, vec_capacity};
ghost use Rattle.dc_kernel.specs.Records.{IsRecord};
ghost use Rattle.dc_redo.specs.Codes.{BeginsSo, EndsSo, IsCollecting, IsWhole, kind_of, seen};
ghost use Rattle.dc_redo.specs.Entries.{entry_of};
ghost use Rattle.dc_redo.specs.Frames.{is_open, records_of};
ghost use Rattle.dc_kernel.specs.Faults.{kernel_fault};
ghost use Rattle.dc_kernel.specs.Kernels.{IsKernel};
ghost use Rattle.dc_kernel.specs.Texts.{text_of};
ghost use Rattle.dc_kernel.specs.declared.faults.KernelFault.{KernelFault};
ghost use Rattle.dc_checkpoint.specs.declared.faults.StoreFault.{StoreFault};
ghost use Rattle.dc_redo.specs.Handles.{known_of, shape_of};
ghost use Rattle.dc_redo.specs.Up.{IsUp};
ghost use Rattle.dc_redo.specs.Standing.{begun, half_reading, text_in};
ghost use Rattle.dc_redo.specs.Tallies.{Contents, with_entry};
ghost use Rattle.dc_redo.specs.Tallies.Status.{Going};
ghost use Rattle.dc_redo.specs.declared.kinds.Kind.TheVariants as kinds;
ghost use Rattle.dc_redo.specs.declared.kinds.Step.TheVariants as steps;

use crate::encoding::OPEN;
use crate::frame::Frame;
use crate::kinds::{Begin, Counted, NONE, Step};
use crate::marks::Marks;
use dc_checkpoint::StoreFault;
use dc_kernel::{LogRecord, Saved};
use dc_limits::LOGGED_EVENTS;

impl Frame {
    /// How a half begins.
    pub fn begin_of(&self, d: u32, half: &[u8], words: &mut [u32]) -> Begin
        requires half { length half.now ≡ self.now.half }
        requires words { self.now.half ≤ 4 * length words.old }
        ensures begins { BeginsSo (shape_of self.now) d half.now result }
        ensures long { length words.new ≡ length words.old }
    {
        if half[0] != OPEN {
            return Begin::Empty;
        }
        let mut t = NONE;
        let (step, _kind, _many) = self.step(d, half, words, &mut t);
        match step {
            Step::Counts => Begin::Counts(t.number),
            Step::Waits => Begin::Waits,
            Step::Breaks => Begin::Broken,
        }
    }

    /// Takes the records of a half that count, and what they leave: memory and text in lines, and the log.
    pub fn collect(
        &self,
        d: u32,
        half: &[u8],
        words: &mut [u32],
        body: &mut [u32],
        log: &mut Vec<LogRecord>,
    ) -> (Counted, Step)
        requires half { length half.now ≡ self.now.half }
        requires words { self.now.half ≤ 4 * length words.old }
        requires body { length body.old ≡ 16 * self.now.lines }
        requires room { LOGGED_EVENTS ≤ vec_capacity log.old }
        requires counts { (begun (shape_of self.now) d (records_of half.now)).status ≡ Going }
        ensures collected { (rest : List ℕ) × IsCollecting (shape_of self.now) d half.now result.0 rest body.new log.new.items × EndsSo (shape_of self.now) d (seen result.0) rest result.1 }
        ensures some { result.0.count ≢ 0 }
        ensures records { All (IsRecord self.now.n) log.new.items }
        ensures long { (length words.new ≡ length words.old) × (length body.new ≡ length body.old) }
        ensures room { LOGGED_EVENTS ≤ vec_capacity log.new }
    {
        log.clear();
        let mut t = NONE;
        let mut rest = half;
        'records: while rest[0] == OPEN {
            let before = t.at;
            let (step, kind, many) = self.step(d, rest, words, &mut t);
            match step {
                Step::Counts => {}
                _ => return (t, step),
            }
            self.lay(kind, &words[..many], body, log);
            rest = rest.split_at((t.at - before) as usize).1;
        }
        (t, Step::Counts)
    }

    /// Reads the kernel's text in a body: whether nothing is wrong with it.
    fn give(&self, body: &[u32], saved: &mut Saved) -> bool
        requires body { length body.now ≡ 16 * self.now.lines }
        requires process { (saved.old.kernel.n ≡ self.now.n) × (saved.old.kernel.p ≡ self.now.p) }
        ensures wrong { result ≡ false → (f : KernelFault) × (kernel_fault self.now.n self.now.p (text_in (shape_of self.now) body.now) ≡ Some f) }
        ensures right { result ≡ true → kernel_fault self.now.n self.now.p (text_in (shape_of self.now) body.now) ≡ None }
        ensures kernel { result ≡ true → IsKernel self.now.n self.now.p saved.new.kernel × (text_in (shape_of self.now) body.now ≡ text_of saved.new.kernel) × (saved.new.position ≡ saved.new.kernel.position) }
        ensures process { (saved.new.kernel.n ≡ saved.old.kernel.n) × (saved.new.kernel.p ≡ saved.old.kernel.p) }
        ensures log { saved.new.log ≡ saved.old.log }
    {
        let size = self.size as usize;
        let (_memory, rest) = body.split_at(size);
        let (text, _pad) = rest.split_at(self.kernel_words as usize);
        match saved.kernel.decode(text) {
            Err(_) => false,
            Ok(()) => {
                saved.position = saved.kernel.position();
                true
            }
        }
    }

    /// Goes on from a half that counts, and says which gate of it is to be closed.
    pub fn take_up(
        &self,
        d: u32,
        at: u32,
        half: &[u8],
        marks: &mut Marks,
        words: &mut [u32],
        saved: &mut Saved,
    ) -> Result<Option<u64>, StoreFault>
        requires half { length half.now ≡ self.now.half }
        requires words { self.now.half ≤ 4 * length words.old }
        requires body { length marks.old.body.items ≡ 16 * self.now.lines }
        requires marked { length marks.old.touched.flags.items ≡ self.now.lines }
        requires process { (saved.old.kernel.n ≡ self.now.n) × (saved.old.kernel.p ≡ self.now.p) }
        requires room { LOGGED_EVENTS ≤ vec_capacity saved.old.log }
        requires counts { (begun (shape_of self.now) d (records_of half.now)).status ≡ Going }
        requires index { at ≤ self.now.half }
        requires floor { marks.old.floor ≤ d }
        ensures floor { marks.new.floor ≤ d }
        ensures refused { (fault : StoreFault) → result ≡ Err fault → half_reading (shape_of self.now) d (records_of half.now) ≡ Err fault }
        ensures up { IfOk result (λ gate. IsUp (shape_of self.now) d at half.now gate (known_of marks.new) saved.new) }
        ensures records { IfOk result (λ gate. All (IsRecord self.now.n) saved.new.log.items) }
        ensures full { marks.new.full ≡ marks.old.full }
        ensures marks_stay { marks.new.touched ≡ marks.old.touched }
        ensures within { IfOk result (λ gate. IfSome gate (λ g. g + 8 ≤ at + self.now.half)) }
        ensures long { (length words.new ≡ length words.old) × (length marks.new.body.items ≡ length marks.old.body.items) × (length marks.new.touched.flags.items ≡ length marks.old.touched.flags.items) }
        ensures process { (saved.new.kernel.n ≡ saved.old.kernel.n) × (saved.new.kernel.p ≡ saved.old.kernel.p) }
        ensures room { LOGGED_EVENTS ≤ vec_capacity saved.new.log }
    {
        let (t, end) = self.collect(d, half, words, &mut marks.body, &mut saved.log);
        if let Step::Breaks = end {
            return Err(StoreFault::Record(t.count));
        }
        if !self.give(&marks.body, saved) {
            return Err(StoreFault::Kernel);
        }
        marks.at = at;
        marks.floor = least(d, t.number);
        marks.end = t.at;
        marks.number = t.number;
        marks.logged = t.logged;
        marks.decided = t.decided;
        if let Step::Waits = end {
            return Ok(Some(u64::from(at) + u64::from(t.at)));
        }
        Ok(None)
    }
}

/// The lesser of two numbers.
fn least(a: u32, b: u32) -> u32
    ensures { result ≡ min a b }
{
    if a < b { a } else { b }
}
