ghost use Rattle.std.specs.Prelude.{◌<◌};

use crate::pairs::{Event, Message, past_of, received, sent};
use std::alloc::Global;
use std::test::Fail;

/// Numbers that look random (a linear congruence).
#[derive(Drop)]
pub struct Draws {
    state: u64,
}

impl Draws {
    pub fn new(seed: u64) -> Draws {
        Draws { state: seed }
    }

    /// The next number below this one.
    pub fn below(&mut self, count: u32) -> u32
        requires { 0 < count }
    {
        self.state = self
            .state
            .wrapping_mul(6_364_136_223_846_793_005)
            .wrapping_add(1_442_695_040_888_963_407);
        let high = (self.state >> 32) as u32;
        high % count
    }
}

/// A journal that is being drawn, its text and its lines.
#[derive(Drop)]
pub struct Journal {
    pub causal: bool,
    pub text: String,
    pub lines: Vec<Event>,
    next_line: u32,
    next_bit: u64,
}

impl Journal {
    /// A journal of four processes, with its heading.
    pub fn new(alloc: Global, causal: bool) -> Result<Journal, Fail> {
        let form = if causal { "causal" } else { "plain" };
        let text = format!(in alloc; "dc-journal 1 4 {form}\n")?;
        Ok(Journal {
            causal,
            text,
            lines: Vec::new(alloc),
            next_line: 2,
            next_bit: 1,
        })
    }

    /// An event of no kind, of the processes with these bits, that comes next.
    fn blank(&self, of: u64) -> Event {
        Event {
            line: self.next_line,
            bit: self.next_bit,
            of,
            is_commit: false,
            is_chance: false,
            is_firm: false,
            sends: None,
            receives: None,
            past: 0,
        }
    }

    fn add(&mut self, event: Event, text: &str) -> Result<(), Fail> {
        let mut event = event;
        event.past = past_of(self.causal, &self.lines, &event);
        self.lines.push(event)?;
        self.text.push_str(text)?;
        self.next_line = self.next_line.wrapping_add(1);
        self.next_bit = self.next_bit.wrapping_mul(2);
        Ok(())
    }
}

/// The bit of a process.
fn bit_of(p: u32) -> u64 {
    match p {
        0 => 1,
        1 => 2,
        2 => 4,
        _ => 8,
    }
}

/// Another process, by a number below 3.
fn other_than(p: u32, draw: u32) -> u32 {
    let next = p.wrapping_add(1).wrapping_add(draw);
    next % 4
}

fn tell(alloc: Global, journal: &mut Journal, p: u32, logged: bool) -> Result<(), Fail> {
    let mut event = journal.blank(bit_of(p));
    event.is_chance = !logged;
    let kind = if logged { "logged" } else { "nd" };
    let text = format!(in alloc; "e {p} {kind}\n")?;
    journal.add(event, text.as_str())
}

fn show(alloc: Global, journal: &mut Journal, p: u32) -> Result<(), Fail> {
    let mut event = journal.blank(bit_of(p));
    event.is_firm = true;
    let text = format!(in alloc; "e {p} visible\n")?;
    journal.add(event, text.as_str())
}

fn send(alloc: Global, journal: &mut Journal, from: u32, to: u32) -> Result<(), Fail> {
    let number = sent(&journal.lines, from, to);
    let mut event = journal.blank(bit_of(from));
    event.sends = Some(Message { from, to, number });
    let text = format!(in alloc; "e {from} send {to} {number}\n")?;
    journal.add(event, text.as_str())
}

/// The receipt of the next message, if one is on its way.
fn receive(
    alloc: Global,
    journal: &mut Journal,
    from: u32,
    to: u32,
    logged: bool,
) -> Result<(), Fail> {
    let number = received(&journal.lines, from, to);
    if number >= sent(&journal.lines, from, to) {
        return Ok(());
    }
    let mut event = journal.blank(bit_of(to));
    event.receives = Some(Message { from, to, number });
    event.is_chance = !logged;
    let kind = if logged { "logged" } else { "nd" };
    let text = format!(in alloc; "e {to} receive {from} {number} {kind}\n")?;
    journal.add(event, text.as_str())
}

/// The commits of four processes, each with the bits of its members.
fn members_of(draw: u32) -> (u64, &'static str) {
    match draw {
        0 => (1, "commit 0\n"),
        1 => (2, "commit 1\n"),
        2 => (4, "commit 2\n"),
        3 => (8, "commit 3\n"),
        4 => (3, "commit 0,1\n"),
        5 => (10, "commit 1,3\n"),
        6 => (13, "commit 0,2,3\n"),
        _ => (15, "commit 0,1,2,3\n"),
    }
}

fn commit(journal: &mut Journal, draw: u32) -> Result<(), Fail> {
    let (of, text) = members_of(draw);
    let mut event = journal.blank(of);
    event.is_commit = true;
    event.is_firm = true;
    journal.add(event, text)
}

/// A line more. The journal is the more careful the greater `care` is: what is told is logged, and commits come often.
fn draw_line(
    alloc: Global,
    draws: &mut Draws,
    journal: &mut Journal,
    care: u32,
) -> Result<(), Fail> {
    let p = draws.below(4);
    let q = other_than(p, draws.below(3));
    let logged = draws.below(12) < care;
    match draws.below(12) {
        0 | 1 => tell(alloc, journal, p, logged),
        2 => show(alloc, journal, p),
        3 | 4 | 5 => send(alloc, journal, p, q),
        6 | 7 | 8 => receive(alloc, journal, q, p, logged),
        _ => commit(journal, draws.below(8)),
    }
}

/// A journal of at most 60 lines between its heading and its end.
pub fn draw(alloc: Global, draws: &mut Draws, causal: bool, care: u32) -> Result<Journal, Fail> {
    let mut journal = Journal::new(alloc, causal)?;
    for _ in 0..draws.below(61) {
        draw_line(alloc, draws, &mut journal, care)?;
    }
    journal.text.push_str("end\n")?;
    Ok(journal)
}
