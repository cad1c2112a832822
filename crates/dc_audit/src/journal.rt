ghost use Rattle.std.specs.Prelude.{◌≡◌, ◌<◌, ◌==◌};
ghost use Rattle.dc_audit.specs.Journals as journal;

/// What an event of a process is to the others.
#[derive(Clone, Copy, Debug, PartialEq, Eq)]
pub enum Deed {
    /// The process was told something that could have come otherwise, and that no log has.
    Chance,
    /// It was told something that its log has: that was logged there, or came from there.
    Logged,
    /// It showed something to users.
    Visible,
    /// It sent a message to this process, under this number. Messages from one process to another are numbered from 0.
    Sends(u32, u32),
    /// It received the message of this process with this number, and whether that was logged.
    Receives(u32, u32, bool),
}

/// A line of a journal. Processes are numbered from 0, and there are at most sixteen.
#[derive(Clone, Copy, Debug, PartialEq, Eq)]
pub enum Line {
    /// An event of this process.
    Does(u32, Deed),
    /// A commit of all processes that are marked here, one event of each.
    Commits([bool; 16]),
}

/// Whether a line stands in the order of process `p`: as its event, or as a commit in which it takes part.
pub fn is_of(p: usize, line: &Line) -> bool
    requires { p < 16 }
    ensures { result ≡ journal.is_of p line.now }
{
    match *line {
        Line::Does(q, _) => q as usize == p,
        Line::Commits(members) => members[p],
    }
}

/// Whether a line is a commit.
pub fn is_commit(line: &Line) -> bool
    ensures { result ≡ journal.is_commit line.now }
{
    match *line {
        Line::Does(_, _) => false,
        Line::Commits(_) => true,
    }
}

/// Whether a line is a chance: an event whose process was told something that could have come otherwise, and that no log has.
pub fn is_chance(line: &Line) -> bool
    ensures { result ≡ journal.is_chance line.now }
{
    match *line {
        Line::Does(_, Deed::Chance) => true,
        Line::Does(_, Deed::Receives(_, _, logged)) => !logged,
        Line::Does(_, _) => false,
        Line::Commits(_) => false,
    }
}

/// Whether a line is firm: nothing unsaved may happen before it.
pub fn is_firm(line: &Line) -> bool
    ensures { result ≡ journal.is_firm line.now }
{
    match *line {
        Line::Does(_, Deed::Visible) => true,
        Line::Does(_, _) => false,
        Line::Commits(_) => true,
    }
}
