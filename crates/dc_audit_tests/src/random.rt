use crate::drawing::{Draws, Journal, draw};
use crate::holding::holds;
use crate::pairs::{events, first_failure};
use dc_audit::{Verdict, audit};
use std::alloc::Global;
use std::test::Fail;

/// How many journals were found to have Save-work, and how many not.
#[derive(Drop)]
struct Found {
    saved: u32,
    not_saved: u32,
}

fn is_judged(alloc: Global, journal: &Journal, found: &mut Found) -> Result<(), Fail> {
    let text = journal.text.as_str();
    let want = match first_failure(&journal.lines) {
        None => Verdict::Saved(events(&journal.lines)),
        Some((e, x)) => Verdict::NotSaved(e, x),
    };
    match want {
        Verdict::Saved(_) => found.saved = found.saved.wrapping_add(1),
        Verdict::NotSaved(_, _) => found.not_saved = found.not_saved.wrapping_add(1),
    }
    holds(audit(alloc, text.as_bytes()) == Ok(want), text)
}

fn are_judged(alloc: Global, seed: u64, causal: bool) -> Result<(), Fail> {
    let mut draws = Draws::new(seed);
    let mut found = Found {
        saved: 0,
        not_saved: 0,
    };
    for care in 0..13 {
        for _ in 0..12 {
            let journal = draw(alloc, &mut draws, causal, care)?;
            is_judged(alloc, &journal, &mut found)?;
        }
    }
    holds(found.saved > 20, "too few have Save-work")?;
    holds(found.not_saved > 20, "too few have no Save-work")
}

#[test]
fn plain_journals_are_judged_by_all_pairs(rt: HostRuntime) -> Result<(), Fail> {
    are_judged(rt.alloc(), 1, false)
}

#[test]
fn causal_journals_are_judged_by_all_pairs(rt: HostRuntime) -> Result<(), Fail> {
    are_judged(rt.alloc(), 2, true)
}
