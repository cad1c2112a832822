//! Logs an event.

ghost use Rattle.std.specs.Prelude.{◌≡◌, ◌⊎◌, ◌+◌, ◌*◌, ◌≤◌, ◌<◌, ℕ, OnOk, length, take};
ghost use Rattle.dc_media.specs.Told.{Becomes};
ghost use Rattle.dc_kernel.specs.Records.{IsRecord};
ghost use Rattle.dc_checkpoint.specs.States.{IsLogged, Reading};
ghost use Rattle.dc_media.specs.Calls.{IsCall};
ghost use Rattle.dc_media.specs.Devices.{of_disks};
ghost use Rattle.dc_redo.specs.Gathered.{IsEventPiece};
ghost use Rattle.dc_redo.specs.Handles.{IsLarge, IsSteady, known_of, shape_of};
ghost use Rattle.dc_redo.specs.Shapes.{event_bytes};
ghost use Rattle.dc_redo.specs.Standing.{Numbers, StandsFor};
ghost use Rattle.dc_redo.specs.Whole.{HasRoom, IsReady};

use crate::encoding::{BODY_AT, EVENT, put_words, seal};
use crate::frame::Frame;
use crate::marks::Marks;
use crate::writing::add;
use dc_kernel::LogRecord;
use dc_limits::LOGGED_EVENTS;
use dc_media::{DeviceFault, Disks};

impl Frame {
    /// Makes the record of an event.
    fn put_event(&self, piece: &mut [u8], words: &mut [u32], rec: &LogRecord) -> usize
        requires record { IsRecord self.now.n rec.now }
        requires piece { length piece.old ≡ 2 * self.now.half }
        requires words { length words.old ≡ 1 + self.now.event_words }
        ensures long { (length piece.new ≡ length piece.old) × (length words.new ≡ length words.old) }
        ensures end { result ≡ event_bytes (shape_of self.now) }
        ensures made { IsEventPiece (shape_of self.now) rec.now (take result piece.new) }
    {
        words[0] = EVENT;
        rec.encode(&mut words[1..]);
        let end = put_words(piece, BODY_AT, words);
        seal(piece, end)
    }

    /// Logs an event.
    pub fn append<D: Disks>(
        &self,
        dev: &mut D,
        marks: &mut Marks,
        piece: &mut [u8],
        words: &mut [u32],
        rec: &LogRecord,
    ) -> Result<(), DeviceFault>
        requires record { IsRecord self.now.n rec.now }
        requires room { marks.old.logged < LOGGED_EVENTS }
        requires piece { length piece.old ≡ 2 * self.now.half }
        requires words { length words.old ≡ 1 + self.now.event_words }
        requires large { IsLarge D.Disks self.now dev.old }
        requires roomy { HasRoom (shape_of self.now) (known_of marks.old) }
        requires ready { IsReady (shape_of self.now) (known_of marks.old) (D.told dev.old self.now.index) }
        ensures ready { OnOk result (IsReady (shape_of self.now) (known_of marks.new) (D.told dev.new self.now.index)) }
        ensures roomy { OnOk result (HasRoom (shape_of self.now) (known_of marks.new)) }
        ensures number { OnOk result ((marks.new.number ≡ marks.old.number) × (marks.new.logged ≡ marks.old.logged + 1)) }
        ensures same { (marks.new.floor ≡ marks.old.floor) × (marks.new.body ≡ marks.old.body) × (marks.new.touched ≡ marks.old.touched) }
        ensures stands { OnOk result ((d : ℕ) (r : Reading) → marks.old.floor ≤ d → StandsFor (shape_of self.now) (D.told dev.new self.now.index) d r → IsLogged (StandsFor (shape_of self.now) (D.told dev.old self.now.index) d) rec.now r) }
        ensures between { (d : ℕ) (r : Reading) → marks.old.floor ≤ d → StandsFor (shape_of self.now) (D.told dev.new self.now.index) d r
            → StandsFor (shape_of self.now) (D.told dev.old self.now.index) d r ⊎ IsLogged (StandsFor (shape_of self.now) (D.told dev.old self.now.index) d) rec.now r }
        ensures steady { IsSteady (shape_of self.now) (D.told dev.old self.now.index) → IsSteady (shape_of self.now) (D.told dev.new self.now.index) }
        ensures told { Becomes (D.told dev.old self.now.index) (D.told dev.new self.now.index) (λ b a. Unit {0}) }
        ensures numbers { (e : ℕ) → Numbers (shape_of self.now) (D.told dev.new self.now.index) e → Numbers (shape_of self.now) (D.told dev.old self.now.index) e }
        ensures long { (length piece.new ≡ length piece.old) × (length words.new ≡ length words.old) }
        ensures call { IsCall (of_disks D.Disks) self.now.index dev.old dev.new result }
    {
        let end = self.put_event(piece, words, rec);
        add(
            dev,
            self.index,
            self.half as u64,
            marks.at as u64,
            marks.end as u64,
            &piece[..end],
        )?;
        marks.end += end as u32;
        marks.logged += 1;
        Ok(())
    }
}
