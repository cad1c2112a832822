ghost use Rattle.std.specs.Prelude.{◌≡◌, ◌<◌, ◌-◌, ◌^◌, All, IfOk, length, map};
ghost use Rattle.dc_check.specs.Findings.{finding_of, seen_finding};
ghost use Rattle.dc_check.specs.Played.{first_stray, played};
ghost use Rattle.dc_guest.specs.Guest.{guests_of};
ghost use Rattle.dc_elf.specs.Loaded.{CanStart, seen_image};
ghost use Rattle.dc_words.specs.Lists.{lists_of};

use crate::comparing::{Unlike, compare_lines};
use crate::finding::Finding;
use crate::playing::{NotPlayed, play};
use dc_elf::Image;
use dc_links::Message;
use dc_model::{Entry, Taken};
use std::alloc::{AllocError, Global};

/// Checks an output against the acts of a report: whether each act was drawn at its turn of the schedule and applies to these guests
/// with these inputs, and whether the output's lines, dropping those whose process and number came before, are those of the visible
/// records that the acts lead to, where a line that came before equals the first. The acts decide before the lines.
pub fn check(
    alloc: Global,
    images: &[Image],
    inputs: &[Vec<Message>],
    schedule: &[Entry],
    acts: &[Taken],
    out: &[u8],
) -> Result<Finding, AllocError>
    requires images { length images.now < 2 ^ 32 - 1 }
    requires good { All CanStart images.now }
    requires processes { All (λ x. x.p < length images.now) acts.now }
    requires few { length acts.now < 2 ^ 32 - 1 }
    ensures { IfOk result (λ finding. seen_finding finding ≡ finding_of (guests_of (map seen_image images.now) (lists_of inputs.now)) schedule.now acts.now out.now) }
{
    let lines = match play(alloc, images, inputs, schedule, acts) {
        Ok(lines) => lines,
        Err(NotPlayed::At(position)) => return Ok(Finding::NotARun(position)),
        Err(NotPlayed::Memory) => return Err(AllocError),
    };
    match compare_lines(alloc, &lines.text, out) {
        Ok(()) => Ok(Finding::Passes(lines.count)),
        Err(Unlike::Differs(difference)) => Ok(Finding::Differs(difference)),
        Err(Unlike::Memory) => Err(AllocError),
    }
}

/// The position of the first act, from 0 on, that was not drawn at its turn of the schedule or does not apply to these guests with
/// these inputs; none where the acts are a failure-free run.
pub fn first_stray(
    alloc: Global,
    images: &[Image],
    inputs: &[Vec<Message>],
    schedule: &[Entry],
    acts: &[Taken],
) -> Result<Option<u32>, AllocError>
    requires images { length images.now < 2 ^ 32 - 1 }
    requires good { All CanStart images.now }
    requires processes { All (λ x. x.p < length images.now) acts.now }
    requires few { length acts.now < 2 ^ 32 - 1 }
    ensures { IfOk result (λ stray. stray ≡ first_stray (played (guests_of (map seen_image images.now) (lists_of inputs.now)) schedule.now acts.now)) }
{
    match play(alloc, images, inputs, schedule, acts) {
        Ok(_lines) => Ok(None),
        Err(NotPlayed::At(position)) => Ok(Some(position)),
        Err(NotPlayed::Memory) => Err(AllocError),
    }
}
