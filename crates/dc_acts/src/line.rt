ghost use Rattle.std.specs.Prelude.{◌≡◌, ◌≤◌, ◌+◌, ◌++◌, ◌*◌, [], length, decimal};
ghost use Rattle.dc_acts.specs.Lines.{hex_text, hex_word, numbered, visible_line};
ghost use Rattle.dc_words.specs.Hex.{hex_of};

use dc_model::{Body, Visible};
use dc_words::hex_line;
use itoa::Buffer;
use std::marker::Model;

/// The most bytes of a line: an output's name, two numbers, 256 bytes in hexadecimal, and the blanks between them.
const LINE_ROOM: usize = 640;

/// A line under construction. It takes no memory, and is seen as its bytes.
#[derive(Drop)]
pub struct Line {
    bytes: [u8; LINE_ROOM],
    len: usize,
}

impl Model for Line {
    ghost use Rattle.std.specs.Prelude.{ℕ, List, take, ◌≤◌};

    ghost Value = { List ℕ };

    ghost view = { λ l. take l.len l.bytes };

    ghost invariant = { λ l. l.len ≤ 640 };
}

impl Line {
    /// An empty line.
    pub fn new() -> Line
        ensures text { result ≡ [] }
        ensures length { length result ≡ 0 }
    {
        Line {
            bytes: [0; LINE_ROOM],
            len: 0,
        }
    }

    /// Takes all its bytes away.
    pub fn clear(&mut self)
        ensures text { self.new ≡ [] }
        ensures length { length self.new ≡ 0 }
    {
        self.len = 0;
    }

    /// Adds bytes.
    pub fn push(&mut self, text: &[u8])
        requires { length self.old + length text.now ≤ 640 }
        ensures text { self.new ≡ self.old ++ text.now }
        ensures length { length self.new ≡ length self.old + length text.now }
    {
        self.bytes[self.len..self.len + text.len()].copy_from_slice(text);
        self.len += text.len();
    }

    /// Adds a number in decimal.
    pub fn push_number(&mut self, number: u64)
        requires { length self.old + 20 ≤ 640 }
        ensures text { self.new ≡ self.old ++ decimal number }
        ensures length { length self.new ≤ length self.old + 20 }
    {
        let mut buffer = Buffer::new();
        self.push(buffer.format(number).as_bytes());
    }

    /// Adds bytes in hexadecimal, `-` where there are none.
    fn push_hex(&mut self, bytes: &[u8])
        requires { length self.old + 2 * length bytes.now + 1 ≤ 640 }
        ensures text { self.new ≡ self.old ++ hex_text bytes.now }
        ensures length { length self.new ≤ length self.old + 2 * length bytes.now + 1 }
    {
        if bytes.is_empty() {
            self.push(b"-");
        } else {
            self.push_hex_bytes(bytes);
        }
    }

    /// Adds two hexadecimal digits for each byte.
    fn push_hex_bytes(&mut self, bytes: &[u8])
        requires { length self.old + 2 * length bytes.now ≤ 640 }
        ensures text { self.new ≡ self.old ++ hex_of bytes.now }
        ensures length { length self.new ≡ length self.old + 2 * length bytes.now }
    {
        let end = self.len + 2 * bytes.len();
        hex_line(bytes, &mut self.bytes[self.len..end]);
        self.len = end;
    }

    /// Adds a word as eight hexadecimal digits.
    fn push_hex_word(&mut self, word: u32)
        requires { length self.old + 8 ≤ 640 }
        ensures text { self.new ≡ self.old ++ hex_word word }
        ensures length { length self.new ≡ length self.old + 8 }
    {
        self.push_hex_bytes(&word.to_be_bytes());
    }

    /// The bytes.
    pub fn as_slice(&self) -> &[u8]
        ensures { result.now ≡ self.now }
    {
        &self.bytes[..self.len]
    }
}

/// A line that begins with a name, a process and a number.
fn begun(name: &[u8], p: u32, k: u32) -> Line
    requires { length name.now ≤ 5 }
    ensures text { result ≡ numbered name.now p k }
    ensures length { length result ≤ 47 }
{
    let mut line = Line::new();
    line.push(name);
    line.push_number(u64::from(p));
    line.push(b" ");
    line.push_number(u64::from(k));
    line.push(b" ");
    line
}

/// The line of a visible record, with its line feed.
pub fn line_of(visible: &Visible) -> Line
    ensures { result ≡ visible_line visible.now }
{
    match &visible.body {
        Body::Out(text) => {
            let mut line = begun(b"out ", visible.p, visible.k);
            line.push_hex(text.as_slice());
            line.push(b"\n");
            line
        }
        Body::End(code) => {
            let mut line = begun(b"end ", visible.p, visible.k);
            line.push_number(u64::from(*code));
            line.push(b"\n");
            line
        }
        Body::Trap(cause, pc) => {
            let mut line = begun(b"trap ", visible.p, visible.k);
            line.push_number(u64::from(*cause));
            line.push(b" ");
            line.push_hex_word(*pc);
            line.push(b"\n");
            line
        }
    }
}
