//! What the body of a record says.

ghost use Rattle.std.specs.Prelude.{◌≡◌, ◌≢◌, ◌+◌, ◌-◌, ◌*◌, ◌/◌, ◌==◌, ◌&&◌, ◌||◌, ◌≤◌, ◌<◌, ℕ, not, false, true, nat_le, nat_lt, None, Some, if◌then◌else◌, length, take, drop, slice_index};
ghost use Rattle.dc_kernel.specs.Faults.{is_zero};
ghost use Rattle.dc_kernel.specs.Layout.{commit_at};
ghost use Rattle.dc_words.specs.Words.{word_at, words_in};
ghost use Rattle.dc_redo.specs.Codes.{Stepped, kind_of, seen};
ghost use Rattle.dc_redo.specs.Frames.{body_at, is_framed};
ghost use Rattle.dc_redo.specs.Scans.{first_of};
ghost use Rattle.dc_redo.specs.Tallies.{next};
ghost use Rattle.dc_redo.specs.declared.kinds.Step.TheVariants as step;
ghost use Rattle.dc_redo.specs.Entries.{entry_in, entry_of, is_padded, lines_entry, lines_in, rise, tells, whole_in};
ghost use Rattle.dc_redo.specs.Entries.Entry.{Decision, Logged};
ghost use Rattle.dc_kernel.specs.Records.{is_record};
ghost use Rattle.dc_redo.specs.Handles.{shape_of};
ghost use Rattle.dc_redo.specs.Shapes.{lines_of};
ghost use Rattle.dc_redo.specs.Tested.{test_lines};
ghost use Rattle.dc_redo.specs.declared.kinds.Kind.TheVariants as kind;

use crate::encoding::{DECISION, EVENT, LINES, PREPARED_LINES, PREPARED_WHOLE, WHOLE};
use crate::frame::Frame;
use crate::kinds::{Counted, Kind, Step};
use dc_kernel::{COMMIT_AT, LogRecord};
use dc_limits::LOGGED_EVENTS;
use dc_words::words_of;

fn is_zero(words: &[u32]) -> bool
    ensures { result ≡ is_zero words.now }
{
    words.iter().all(|word| *word == 0)
}

impl Frame {
    /// A whole state.
    fn whole_kind(&self, words: &[u32], prepared: bool) -> Kind
        ensures { result ≡ kind_of (whole_in (shape_of self.now) prepared words.now) }
    {
        if words.len() != 2 + self.kernel_words as usize + self.size as usize {
            return Kind::Other;
        }
        let text = &words[2..2 + self.kernel_words as usize];
        if text[COMMIT_AT] != words[1] {
            return Kind::Other;
        }
        Kind::Whole(prepared, words[1])
    }

    /// Whether the pad is zero, where a line holds it.
    fn is_pad(&self, at: u32, line: &[u32]) -> bool
        requires long { length line.now ≡ 16 }
        requires low { at < self.now.lines }
        ensures { result ≡ (not (at + 1 == lines_of (shape_of self.now)) || is_zero (drop (self.now.size + self.now.kernel_words - 16 * at) line.now)) }
    {
        if at + 1 != self.lines {
            return true;
        }
        is_zero(&line[(self.size + self.kernel_words - 16 * at) as usize..])
    }

    /// Whether a line may stand behind those before it.
    fn may_follow(&self, from: u32, line: &[u32]) -> bool
        requires long { length line.now ≡ 17 }
        ensures { result ≡ (nat_le from (slice_index line.now 0) && (nat_lt (slice_index line.now 0) (lines_of (shape_of self.now)) && (not (slice_index line.now 0 + 1 == lines_of (shape_of self.now)) || is_zero (drop (self.now.size + self.now.kernel_words - 16 * slice_index line.now 0) (drop 1 line.now))))) }
    {
        let at = line[0];
        if at < from {
            return false;
        }
        if at >= self.lines {
            return false;
        }
        self.is_pad(at, &line[1..])
    }

    /// Whether the number was told, or is told by a line.
    fn tells(&self, told: bool, number: u32, line: &[u32]) -> bool
        requires long { length line.now ≡ 17 }
        ensures { result ≡ (told || (slice_index line.now 0 == self.now.size / 16 && slice_index (drop 1 line.now) commit_at == number)) }
    {
        if told {
            return true;
        }
        let words = &line[1..];
        line[0] == self.size / 16 && words[COMMIT_AT] == number
    }

    /// Whether lines rise, tell the number, and have a pad of zeros.
    fn are_lines(&self, number: u32, count: u32, words: &[u32]) -> bool
        requires long { length words.now ≡ 17 * count }
        ensures { result ≡ test_lines (shape_of self.now) number 0 false count words.now }
    {
        let mut rest = words;
        let mut from = 0;
        let mut told = false;
        for _ in 0..count {
            let (line, others) = rest.split_at(17);
            if !self.may_follow(from, line) {
                return false;
            }
            told = self.tells(told, number, line);
            from = line[0] + 1;
            rest = others;
        }
        told
    }

    /// Lines of a state.
    fn lines_kind(&self, words: &[u32], prepared: bool) -> Kind
        ensures { result ≡ kind_of (lines_entry (shape_of self.now) prepared (slice_index words.now 1) words.now (lines_in (slice_index words.now 2) (drop 3 words.now))) }
    {
        if words.len() < 3 {
            return Kind::Other;
        }
        let count = words[2];
        if words.len() as u64 != 3 + 17 * u64::from(count) {
            return Kind::Other;
        }
        if !self.are_lines(words[1], count, &words[3..]) {
            return Kind::Other;
        }
        Kind::Lines(prepared, words[1])
    }

    /// A decision.
    fn decision_kind(words: &[u32]) -> Kind
        ensures { result ≡ kind_of (if length words.now == 2 then Some (Decision (slice_index words.now 1)) else None) }
    {
        if words.len() != 2 {
            return Kind::Other;
        }
        Kind::Decision(words[1])
    }

    /// An event that was logged.
    fn event_kind(&self, words: &[u32]) -> Kind
        ensures { result ≡ kind_of (if (length words.now == 1 + self.now.event_words) && is_record self.now.n (drop 1 words.now) then Some (Logged (drop 1 words.now)) else None) }
    {
        if words.len() != 1 + self.event_words as usize {
            return Kind::Other;
        }
        match LogRecord::decode(self.n, &words[1..]) {
            None => Kind::Other,
            Some(_) => Kind::Event,
        }
    }

    /// What words say.
    fn kind_of_words(&self, words: &[u32]) -> Kind
        ensures { result ≡ kind_of (entry_of (shape_of self.now) (slice_index words.now 0) words.now) }
    {
        if words.is_empty() {
            return Kind::Other;
        }
        match words[0] {
            WHOLE => self.whole_kind(words, false),
            PREPARED_WHOLE => self.whole_kind(words, true),
            DECISION => Frame::decision_kind(words),
            EVENT => self.event_kind(words),
            LINES => self.lines_kind(words, false),
            PREPARED_LINES => self.lines_kind(words, true),
            _ => Kind::Other,
        }
    }

    /// What a body says, and its words, of which there are so many.
    pub fn kind_in(&self, body: &[u8], words: &mut [u32]) -> (Kind, usize)
        requires room { length body.now ≤ 4 * length words.old }
        ensures kind { result.0 ≡ kind_of (entry_in (shape_of self.now) body.now) }
        ensures count { result.1 ≤ length words.old }
        ensures words { result.0 ≢ kind.Other → take result.1 words.new ≡ words_in body.now }
        ensures long { length words.new ≡ length words.old }
    {
        if body.len() % 4 != 0 {
            return (Kind::Other, 0);
        }
        let count = body.len() / 4;
        words_of(body, &mut words[..count]);
        (self.kind_of_words(&words[..count]), count)
    }

    /// How many bytes the body of a record has, where it has a frame.
    fn body_of(rest: &[u8]) -> Option<u32>
        requires some { 8 ≤ length rest.now }
        ensures { result ≡ (if is_framed rest.now then Some (word_at rest.now 4) else None) }
    {
        if rest[1] != 0 {
            return None;
        }
        if rest[2] != 0 {
            return None;
        }
        if rest[3] != 0 {
            return None;
        }
        let mut word = [0; 1];
        words_of(&rest[4..8], &mut word);
        let count = word[0];
        if 16 + u64::from(count) > rest.len() as u64 {
            return None;
        }
        Some(count)
    }

    /// The next record: what it makes of those before it, what it says, and how many words it has.
    pub fn step(
        &self,
        d: u32,
        rest: &[u8],
        words: &mut [u32],
        t: &mut Counted,
    ) -> (Step, Kind, usize)
        requires some { 8 ≤ length rest.now }
        requires room { t.old.at + length rest.now ≡ self.now.half }
        requires words { self.now.half ≤ 4 * length words.old }
        requires few { t.old.count ≤ t.old.at }
        requires low { t.old.logged ≤ LOGGED_EVENTS }
        requires once { t.old.decided ≤ 1 }
        ensures stepped { Stepped (next (shape_of self.now) d (seen t.old) (first_of rest.now)) t.old t.new result.0 }
        ensures framed { result.0 ≡ step.Counts → is_framed rest.now ≡ true }
        ensures moved { result.0 ≡ step.Counts → (t.new.at ≡ t.old.at + (8 + word_at rest.now 4)) × (t.new.count ≡ t.old.count + 1) }
        ensures bounds { (t.new.logged ≤ LOGGED_EVENTS) × (t.new.decided ≤ 1) }
        ensures event { result.0 ≡ step.Counts → result.1 ≡ kind.Event → (t.new.logged ≡ t.old.logged + 1) × (t.old.count ≢ 0) }
        ensures says { result.0 ≡ step.Counts → result.1 ≢ kind.Other }
        ensures kind { result.0 ≡ step.Counts → result.1 ≡ kind_of (entry_in (shape_of self.now) (body_at rest.now)) }
        ensures words { result.0 ≡ step.Counts → take result.2 words.new ≡ words_in (body_at rest.now) }
        ensures count { result.2 ≤ length words.old }
        ensures long { length words.new ≡ length words.old }
    {
        let Some(count) = Frame::body_of(rest) else {
            return (Step::Breaks, Kind::Other, 0);
        };
        let (kind, many) = self.kind_in(&rest[8..8 + count as usize], words);
        (self.take(d, kind, 8 + count, t), kind, many)
    }
}
