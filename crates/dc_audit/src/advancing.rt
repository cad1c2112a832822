ghost use Rattle.std.specs.Prelude.{◌≡◌, ◌<◌, ◌-◌, ◌^◌, ℕ, true, false, IfOk, None, length, if◌then◌else◌};
ghost use Rattle.dc_audit.specs.Journals.{IsOfSixteen, is_commit};
ghost use Rattle.dc_audit.specs.Clocks.{Advances, IsDue, IsNoted, IsTo, JudgesNext, KnowsEvent, KnowsPast, ledger, links_sent, links_taken, nothing, view, way};
ghost use Rattle.dc_audit.specs.declared.journal.Line.TheVariants.{Does};

use crate::clock::{Clock, NOTHING, first_open, gather, join, raise};
use crate::failure::Failure;
use crate::journal::{Deed, Line, is_commit, is_firm, is_of};
use crate::link::Link;
use std::alloc::AllocError;

/// What a commit knows before its members are asked: in a causal journal what the last commit knew.
fn start(causal: bool, last: &Clock) -> Clock
    ensures known { causal ≡ true → result ≡ last.now }
    ensures nothing { causal ≡ false → (p : ℕ) → view result p ≡ nothing }
{
    if causal { *last } else { [NOTHING; 16] }
}

/// The clock of what happens before an event of `p`. A message that the event receives is taken off its way.
fn past_event(clocks: &[Clock], links: &mut [Link], p: u32, deed: Deed) -> Clock
    requires wide { length clocks.now ≡ 16 }
    requires linked { length links.old ≡ 256 }
    requires sixteen { p < 16 }
    requires due { IsDue links.old (Does p deed) }
    requires few { (p q : ℕ) → (way links.old p q).taken < 2 ^ 32 - 1 }
    ensures clock { KnowsEvent clocks.now links.old (Does p deed) result }
    ensures links { links.new ≡ links_taken (Does p deed) links.old }
{
    match deed {
        Deed::Receives(s, _, _) => {
            let mut past = clocks[p as usize];
            let carried = links[16 * s as usize + p as usize].take();
            join(&mut past, &carried);
            past
        }
        Deed::Chance => clocks[p as usize],
        Deed::Logged => clocks[p as usize],
        Deed::Visible => clocks[p as usize],
        Deed::Sends(_, _) => clocks[p as usize],
    }
}

/// The clock of what happens before a line. A message that the line receives is taken off its way.
fn past(causal: bool, clocks: &[Clock], links: &mut [Link], last: &Clock, line: &Line) -> Clock
    requires wide { length clocks.now ≡ 16 }
    requires linked { length links.old ≡ 256 }
    requires sixteen { IsOfSixteen line.now }
    requires due { IsDue links.old line.now }
    requires few { (p q : ℕ) → (way links.old p q).taken < 2 ^ 32 - 1 }
    ensures clock { KnowsPast causal clocks.now links.old last.now line.now result }
    ensures links { links.new ≡ links_taken line.now links.old }
{
    match *line {
        Line::Does(p, deed) => past_event(clocks, links, p, deed),
        Line::Commits(members) => gather(&start(causal, last), clocks, &members),
    }
}

/// Gives the line's clock to each process of the line.
fn note(clocks: &mut [Clock], line: &Line, clock: &Clock)
    requires wide { length clocks.old ≡ 16 }
    requires sixteen { IsOfSixteen line.now }
    ensures { IsNoted line.now clock.now clocks.old clocks.new }
{
    for p in 0..16 {
        if is_of(p, line) {
            clocks[p] = *clock;
        }
    }
}

/// Gives the line's clock to the message that the line sends, if it sends one.
fn send(links: &mut [Link], line: &Line, clock: &Clock) -> Result<(), AllocError>
    requires linked { length links.old ≡ 256 }
    requires sixteen { IsOfSixteen line.now }
    requires to { IsTo line.now }
    ensures { IfOk result (λ _. links.new ≡ links_sent line.now clock.now links.old) }
{
    if let Line::Does(p, Deed::Sends(q, _)) = *line {
        return links[16 * p as usize + q as usize].send(clock);
    }
    Ok(())
}

/// Where Save-work fails at a line, if it did not fail before it: at the earliest chance that is unsaved there.
fn newly(line: &Line, clock: &Clock, index: u32) -> Option<Failure>
    ensures { JudgesNext index line.now clock.now None result }
{
    if !is_firm(line) {
        return None;
    }
    match first_open(clock) {
        Some(event) => Some(Failure { event, line: index }),
        None => None,
    }
}

/// Where Save-work fails first up to a line, by where it failed first before it.
pub fn judged(failure: Option<Failure>, line: &Line, clock: &Clock, index: u32) -> Option<Failure>
    ensures { JudgesNext index line.now clock.now failure result }
{
    match failure {
        Some(failure) => Some(failure),
        None => newly(line, clock, index),
    }
}

/// Keeps the line's clock as that of the last commit, if the line is one.
fn decide(last: &mut Clock, line: &Line, clock: &Clock)
    ensures { last.new ≡ (if is_commit line.now then clock.now else last.old) }
{
    if is_commit(line) {
        *last = *clock;
    }
}

/// Carries the clocks of processes, messages and last commit over line `index`, and answers the line's clock.
pub fn advance(
    causal: bool,
    index: u32,
    clocks: &mut [Clock],
    links: &mut [Link],
    last: &mut Clock,
    line: &Line,
) -> Result<Clock, AllocError>
    requires wide { length clocks.old ≡ 16 }
    requires linked { length links.old ≡ 256 }
    requires sixteen { IsOfSixteen line.now }
    requires to { IsTo line.now }
    requires due { IsDue links.old line.now }
    requires few { (p q : ℕ) → (way links.old p q).taken < 2 ^ 32 - 1 }
    requires lines { index < 2 ^ 32 - 1 }
    ensures clocks { IfOk result (λ clock. Advances causal index line.now (ledger clocks.old links.old last.old) (ledger clocks.new links.new last.new) clock) }
    ensures links { IfOk result (λ clock. links.new ≡ links_sent line.now clock (links_taken line.now links.old)) }
    ensures wide { IfOk result (λ clock. length clock ≡ 16) }
{
    let mut clock = past(causal, clocks, links, last, line);
    raise(&mut clock, line, index);
    note(clocks, line, &clock);
    send(links, line, &clock)?;
    decide(last, line, &clock);
    Ok(clock)
}
