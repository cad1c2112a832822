ghost use Rattle.std.specs.Prelude.{◌≡◌, ◌<◌, ◌≤◌, ◌-◌, ◌^◌, ℕ, length};
ghost use Rattle.dc_audit.specs.Journals.{IsOfSixteen};
ghost use Rattle.dc_audit.specs.Clocks.{Gathers, IsFirstOpen, known_at, view};
ghost use Rattle.dc_audit.specs.Clocks as vectors;

use crate::journal::{Line, is_chance, is_commit, is_of};

/// What is known of one process: its lines before `end`. Of the chances among them each before `clear` has a commit of the process
/// behind it; where `clear` is below `end`, the line at `clear` is the first chance that has none.
#[derive(Clone, Copy, Debug, PartialEq, Eq)]
pub struct Known {
    pub end: u32,
    pub clear: u32,
}

/// What is known of each process.
pub type Clock = [Known; 16];

/// No lines.
pub const NOTHING: Known = Known { end: 0, clear: 0 };

/// Of what two clocks know of one process, what the one knows that knows more.
fn later(a: Known, b: Known) -> Known
    ensures { result ≡ vectors.later a b }
{
    if a.end < b.end { b } else { a }
}

/// Lets a clock know what another knows too.
pub fn join(clock: &mut Clock, other: &Clock)
    ensures { (p : ℕ) → view clock.new p ≡ vectors.later (view clock.old p) (view other.now p) }
{
    for p in 0..16 {
        clock[p] = later(clock[p], other[p]);
    }
}

/// Before which line of a process all its chances are saved, once line `index`, which is its own, has come.
fn clear_after(line: &Line, index: u32, known: Known) -> u32
    requires { index < 2 ^ 32 - 1 }
    ensures { result ≡ (vectors.raised index line.now known).clear }
{
    if is_commit(line) {
        return index + 1;
    }
    if known.clear < known.end {
        return known.clear;
    }
    if is_chance(line) { index } else { index + 1 }
}

/// Makes of a clock that knows what happens before line `index` the clock of the line.
pub fn raise(clock: &mut Clock, line: &Line, index: u32)
    requires sixteen { IsOfSixteen line.now }
    requires few { index < 2 ^ 32 - 1 }
    ensures { (p : ℕ) → view clock.new p ≡ known_at index line.now (view clock.old) p }
{
    for p in 0..16 {
        if is_of(p, line) {
            clock[p] = Known {
                end: index + 1,
                clear: clear_after(line, index, clock[p]),
            };
        }
    }
}

/// The clock of what happens before a commit of these members: all that they know, and what `start` knows.
pub fn gather(start: &Clock, clocks: &[Clock], members: &[bool; 16]) -> Clock
    requires { length clocks.now ≡ 16 }
    ensures { Gathers 16 clocks.now members.now start.now result }
{
    let mut past = *start;
    for p in 0..16 {
        if members[p] {
            join(&mut past, &clocks[p]);
        }
    }
    past
}

/// The earlier of two lines, the first of which may be missing.
fn lesser(first: Option<u32>, line: u32) -> u32
    ensures { result ≡ vectors.lesser first line }
{
    match first {
        Some(first) if first < line => first,
        _ => line,
    }
}

/// The earliest chance that a clock knows and that no commit of its process has saved, if there is one.
pub fn first_open(clock: &Clock) -> Option<u32>
    ensures { IsFirstOpen 16 (view clock.now) result }
{
    let mut first = None;
    for p in 0..16 {
        let known = clock[p];
        if known.clear < known.end {
            first = Some(lesser(first, known.clear));
        }
    }
    first
}
