//! Happens before and Save-work, by all pairs of lines.

/// A message, by its sender, its receiver and its number.
#[derive(Clone, Copy)]
pub struct Message {
    pub from: u32,
    pub to: u32,
    pub number: u32,
}

/// A line of a journal that was drawn: its number in the text, a bit of its own, the bits of its processes, what it is, and the bits of the
/// lines that happen before it.
#[derive(Clone, Copy)]
pub struct Event {
    pub line: u32,
    pub bit: u64,
    pub of: u64,
    pub is_commit: bool,
    pub is_chance: bool,
    pub is_firm: bool,
    pub sends: Option<Message>,
    pub receives: Option<Message>,
    pub past: u64,
}

fn share(one: u64, other: u64) -> bool {
    one & other != 0
}

fn is_same(one: Message, other: Message) -> bool {
    one.from == other.from && one.to == other.to && one.number == other.number
}

/// Whether the message that one line sends is the one that another receives.
fn is_passed(sends: Option<Message>, receives: Option<Message>) -> bool {
    match sends {
        None => false,
        Some(sent) => match receives {
            None => false,
            Some(received) => is_same(sent, received),
        },
    }
}

/// 1 for a message of one process to another, else 0.
fn one_from(message: Option<Message>, from: u32, to: u32) -> u32 {
    match message {
        None => 0,
        Some(message) => u32::from(message.from == from && message.to == to),
    }
}

/// How many messages one process has sent to another.
pub fn sent(lines: &[Event], from: u32, to: u32) -> u32 {
    let mut count: u32 = 0;
    for line in lines {
        count = count.wrapping_add(one_from(line.sends, from, to));
    }
    count
}

/// How many messages of one process another has received.
pub fn received(lines: &[Event], from: u32, to: u32) -> u32 {
    let mut count: u32 = 0;
    for line in lines {
        count = count.wrapping_add(one_from(line.receives, from, to));
    }
    count
}

/// Whether an earlier line leads to a later one: by a process of both, by a message, or both being commits of a causal journal.
fn leads(causal: bool, earlier: &Event, later: &Event) -> bool {
    share(earlier.of, later.of)
        || is_passed(earlier.sends, later.receives)
        || (causal && earlier.is_commit && later.is_commit)
}

/// The bits of the lines that happen before a line that comes next.
pub fn past_of(causal: bool, lines: &[Event], next: &Event) -> u64 {
    let mut past = 0;
    for line in lines {
        if leads(causal, line, next) {
            past |= line.past | line.bit;
        }
    }
    past
}

/// Whether a commit saves a chance from a firm line.
fn saves(commit: &Event, chance: &Event, firm: &Event) -> bool {
    commit.is_commit
        && share(commit.of, chance.of)
        && commit.bit > chance.bit
        && (commit.bit == firm.bit || share(commit.bit, firm.past))
}

fn is_saved(lines: &[Event], chance: &Event, firm: &Event) -> bool {
    for commit in lines {
        if saves(commit, chance, firm) {
            return true;
        }
    }
    false
}

/// The first chance that happens before a line and is not saved from there.
fn first_unsaved(lines: &[Event], firm: &Event) -> Option<u32> {
    for chance in lines {
        if chance.is_chance && share(chance.bit, firm.past) && !is_saved(lines, chance, firm) {
            return Some(chance.line);
        }
    }
    None
}

/// The first firm line before which something is unsaved, behind the first chance that is.
pub fn first_failure(lines: &[Event]) -> Option<(u32, u32)> {
    for firm in lines {
        if firm.is_firm {
            if let Some(chance) = first_unsaved(lines, firm) {
                return Some((chance, firm.line));
            }
        }
    }
    None
}

/// How many lines are events.
pub fn events(lines: &[Event]) -> u32 {
    let mut count: u32 = 0;
    for line in lines {
        if !line.is_commit {
            count = count.wrapping_add(1);
        }
    }
    count
}
