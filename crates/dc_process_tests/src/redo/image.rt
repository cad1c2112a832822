//! The bytes of a disk for one process and a memory of a page, as a text says them.
//!
//! A word of the text moves to an offset, or lays something there and moves behind it: `low` and `high` are where the halves begin, `at-N` is
//! byte `N`; `.N` is a byte, `N` a word, `N*C` so many words alike; `(` opens a record, with its gate, three zeros and the room of a length,
//! and `)` sets the length and closes the next gate. `text-K` is the text of the kernel of commit `K`, `memory` the memory, `head-K` the line
//! that tells the commit `K`, `whole-K` the record of a whole state and `prepared-K` of one that is prepared; `lines-K-C` is a record of `C`
//! lines, of which all but the last are zeros, and `events-C` are so many records of an event.

use crate::vista::texts::small;
use std::alloc::Global;
use std::test::Fail;

/// The bytes of a half: 8 for each of 1024 words of memory and 180 of a kernel's text, and 12368.
pub const HALF: usize = 22000;

/// The bytes of a disk, the offset where the next ones go, and that of the record that was opened last.
#[derive(Drop)]
pub struct Image {
    pub bytes: Vec<u8>,
    at: usize,
    from: usize,
}

impl Image {
    fn new(alloc: Global) -> Result<Image, Fail> {
        Ok(Image {
            bytes: vec![in alloc; 0; 2 * HALF]?,
            at: 0,
            from: 0,
        })
    }

    fn byte(&mut self, b: u8) {
        if let Some(slot) = self.bytes.get_mut(self.at) {
            *slot = b;
        }
        self.at = self.at.saturating_add(1);
    }

    fn word(&mut self, w: u32) {
        for b in w.to_le_bytes() {
            self.byte(b);
        }
    }

    fn words(&mut self, w: u32, count: u32) {
        for _ in 0..count {
            self.word(w);
        }
    }

    /// A gate that is open, three zeros, and the room of a length.
    fn open(&mut self) {
        self.from = self.at;
        self.word(1);
        self.word(0);
    }

    /// The length of the record, and the next gate, closed.
    fn close(&mut self) {
        let end = self.at;
        let count = end.saturating_sub(self.from).saturating_sub(8);
        self.at = self.from.saturating_add(4);
        self.word(small(count as u64));
        self.at = end;
        self.byte(0);
        self.at = end;
    }

    /// What of a kernel's text of one process tells its commit: ten events for each.
    fn front(&mut self, number: u32) {
        self.words(1, 2);
        self.words(0, 3);
        self.word(number);
        self.word(number.saturating_mul(10));
    }

    fn text(&mut self, number: u32) {
        self.front(number);
        self.words(0, 173);
    }

    fn memory(&mut self) {
        self.words(0, 1023);
        self.word(7);
    }

    /// The first line of the text, which is the line behind those of the memory.
    fn head(&mut self, number: u32) {
        self.word(64);
        self.front(number);
        self.words(0, 9);
    }

    fn whole(&mut self, kind: u32, number: u32) {
        self.open();
        self.word(kind);
        self.word(number);
        self.text(number);
        self.memory();
        self.close();
    }

    /// The lines of zeros before the last one.
    fn zeros(&mut self, count: u32) {
        for line in 0..count {
            self.word(line);
            self.words(0, 16);
        }
    }

    fn lines(&mut self, number: u32, count: u32) {
        self.open();
        self.word(5);
        self.word(number);
        self.word(count);
        self.zeros(count.saturating_sub(1));
        self.head(number);
        self.close();
    }

    /// An event at this position: an input that was asked for, and was not there.
    fn event(&mut self, position: u32) {
        self.open();
        self.word(4);
        self.word(position);
        self.word(3);
        self.words(0, 19);
        self.close();
    }

    fn events(&mut self, count: u32) {
        for k in 0..count {
            self.event(k.saturating_add(1));
        }
    }

    /// A word of the text that has a number behind its name.
    fn lay_named(&mut self, name: &str, number: u32) -> Result<(), Fail> {
        match name {
            "at" => self.at = number as usize,
            "text" => self.text(number),
            "head" => self.head(number),
            "whole" => self.whole(1, number),
            "prepared" => self.whole(2, number),
            "events" => self.events(number),
            _ => return Err(Fail::new(name)),
        }
        Ok(())
    }

    /// One that has more than one.
    fn lay_numbered(&mut self, name: &str, rest: &str) -> Result<(), Fail> {
        match rest.split_once('-') {
            Some((number, count)) if name == "lines" => {
                self.lines(number.parse::<u32>()?, count.parse::<u32>()?);
                Ok(())
            }
            _ => self.lay_named(name, rest.parse::<u32>()?),
        }
    }

    /// One that is a byte, or words.
    fn lay_plain(&mut self, told: &str) -> Result<(), Fail> {
        if let Some(byte) = told.strip_prefix(".") {
            self.byte(byte.parse::<u8>()?);
            return Ok(());
        }
        let (w, count) = told.split_once('*').unwrap_or((told, "1"));
        self.words(w.parse::<u32>()?, count.parse::<u32>()?);
        Ok(())
    }

    fn lay(&mut self, told: &str) -> Result<(), Fail> {
        match told {
            "low" => self.at = 0,
            "high" => self.at = HALF,
            "(" => self.open(),
            ")" => self.close(),
            "memory" => self.memory(),
            _ => {
                return match told.split_once('-') {
                    Some((name, rest)) => self.lay_numbered(name, rest),
                    None => self.lay_plain(told),
                };
            }
        }
        Ok(())
    }
}

/// What a text says, over zeros.
pub fn image_of(alloc: Global, text: &str) -> Result<Image, Fail> {
    let mut image = Image::new(alloc)?;
    for told in text.split_whitespace() {
        image.lay(told)?;
    }
    Ok(image)
}
