ghost use Rattle.std.specs.Prelude.{◌≡◌, ◌<◌, ◌≤◌, ◌-◌, ◌^◌, [], ℕ, Some, None, IfOk, length, replicate};
ghost use Rattle.dc_audit.specs.Journals.{IsOfSixteen, Judged};
ghost use Rattle.dc_audit.specs.Clocks.{IsDue, IsTo, ledger, no_way, nothing, way};
ghost use Rattle.dc_audit.specs.Keeping.{IsJournal, KeepsOver};

use crate::advancing::{advance, judged};
use crate::clock::{Clock, NOTHING};
use crate::failure::Failure;
use crate::journal::Line;
use crate::link::Link;
use std::alloc::{AllocError, Global};

/// Judges line `index` of a journal: carries the clocks over it, and notes where Save-work fails first.
pub fn judge_line(
    causal: bool,
    index: u32,
    clocks: &mut [Clock],
    links: &mut [Link],
    last: &mut Clock,
    failure: &mut Option<Failure>,
    line: &Line,
) -> Result<(), AllocError>
    requires wide { length clocks.old ≡ 16 }
    requires linked { length links.old ≡ 256 }
    requires sixteen { IsOfSixteen line.now }
    requires to { IsTo line.now }
    requires due { IsDue links.old line.now }
    requires few { (p q : ℕ) → (way links.old p q).taken < 2 ^ 32 - 1 }
    requires lines { index < 2 ^ 32 - 1 }
    ensures { IfOk result (λ _. KeepsOver causal index line.now (ledger clocks.old links.old last.old) failure.old (ledger clocks.new links.new last.new) failure.new) }
{
    let clock = advance(causal, index, clocks, links, last, line)?;
    *failure = judged(*failure, line, &clock, index);
    Ok(())
}

/// Clocks that know nothing, one for each of sixteen processes.
pub fn no_clocks() -> [Clock; 16]
    ensures { result ≡ replicate 16 (replicate 16 nothing) }
{
    [[NOTHING; 16]; 16]
}

/// No messages on their way, from each of sixteen processes to each.
pub fn no_links(alloc: Global) -> Result<Vec<Link>, AllocError>
    ensures { IfOk result (λ links. links.items ≡ replicate 256 no_way) }
{
    let mut links = Vec::with_capacity(alloc, 256)?;
    for _ in 0..256_usize {
        links.push(Link::new(alloc))?;
    }
    Ok(links)
}

/// Judges lines one after the other, from clocks that know nothing.
fn judge_lines(
    causal: bool,
    clocks: &mut [Clock],
    links: &mut [Link],
    lines: &[Line],
) -> Result<Option<Failure>, AllocError>
    requires clocks { clocks.old ≡ replicate 16 (replicate 16 nothing) }
    requires links { links.old ≡ replicate 256 no_way }
    requires journal { IsJournal 16 lines.now }
    requires few { length lines.now ≤ 4000000 }
    ensures { IfOk result (λ failure. Judged causal lines.now failure) }
{
    let mut last = [NOTHING; 16];
    let mut failure = None;
    for i in 0..lines.len() {
        judge_line(
            causal,
            i as u32,
            clocks,
            links,
            &mut last,
            &mut failure,
            &lines[i],
        )?;
    }
    Ok(failure)
}

/// Audits lines of at most sixteen processes that are a journal, as the text of one is: none where they have Save-work, else where it fails
/// first. In a `causal` journal each commit happens before the commits after it. An error is want of memory for the messages on their way,
/// 128 bytes for each.
pub fn audit_lines(
    alloc: Global,
    causal: bool,
    lines: &[Line],
) -> Result<Option<Failure>, AllocError>
    requires journal { IsJournal 16 lines.now }
    requires few { length lines.now ≤ 4000000 }
    ensures { IfOk result (λ failure. Judged causal lines.now failure) }
{
    let mut clocks = no_clocks();
    let mut links = no_links(alloc)?;
    judge_lines(causal, &mut clocks, &mut links, lines)
}
