//! Contents that nobody wrote so, and what a recovery makes of them.

ghost use Rattle.std.specs.Prelude.{IfOk};

use super::image::image_of;
use super::rig::Rig;
use crate::holding::holds;
use crate::vista::texts::{at, field, numbers, small};
use crate::vista::trial::{Trial, answer_of, answers, lines_hold};
use dc_media::{DeviceFault, Tear};
use dc_memmedia::ListedCall;
use std::alloc::Global;
use std::test::Fail;

/// A redo log of one process and a page, over such a disk, some of whose calls are refused.
fn over(alloc: Global, image: &str, listed: Vec<ListedCall>) -> Result<Rig, Fail>
    ensures { IfOk result ⟦<Rig as Trial>⟧.fits }
{
    let image = image_of(alloc, image)?;
    match Rig::new(alloc, 1, 0, 1, listed)? {
        Some(mut rig) => {
            rig.put(&image.bytes)?;
            Ok(rig)
        }
        None => Err(Fail::new("no redo log")),
    }
}

/// A call answers this.
fn is_answer(rig: &mut Rig, alloc: Global, call: &str, want: &str, row: &str) -> Result<(), Fail>
    requires { ⟦<Rig as Trial>⟧.fits rig.old }
    ensures { ⟦<Rig as Trial>⟧.fits rig.new }
{
    let got = answer_of(rig, alloc, call)?;
    holds(got.as_slice() == numbers(alloc, want)?.as_slice(), row)
}

/// So does the call of a row, by so many calls of the disk. A refusal changes no byte.
fn answers_by(rig: &mut Rig, alloc: Global, told: &str, row: &str) -> Result<(), Fail>
    requires { ⟦<Rig as Trial>⟧.fits rig.old }
    ensures { ⟦<Rig as Trial>⟧.fits rig.new }
{
    let (call, rest) = told.split_once('|').unwrap_or((told, ""));
    let (want, calls) = rest.split_once('|').unwrap_or((rest, ""));
    answers(rig, alloc, "keep", "ok")?;
    let _before = rig.call(alloc, "calls", &[])?;
    is_answer(rig, alloc, call, want, row)?;
    is_answer(rig, alloc, "calls", calls, row)?;
    if rig.ready || call == "decided" || call == "steady" {
        return Ok(());
    }
    is_answer(rig, alloc, "changed", "0", row)
}

/// A row: what is on the disk, a call, its answer, and how many calls of the disk it makes.
fn row_holds(alloc: Global, row: &str) -> Result<(), Fail> {
    let (image, told) = row.split_once('|').unwrap_or((row, ""));
    let mut rig = over(alloc, image, Vec::new(alloc))?;
    answers_by(&mut rig, alloc, told, row)
}

/// Each row of a table.
pub fn rows_hold(alloc: Global, rows: &str) -> Result<(), Fail> {
    for row in rows.lines() {
        if !row.starts_with("# ") {
            row_holds(alloc, row)?;
        }
    }
    Ok(())
}

/// The stop of a case: the call of the disk, and how much it keeps.
fn stop_of(alloc: Global, case: &str) -> Result<ListedCall, Fail> {
    let how = numbers(alloc, field(case, "stop ")?)?;
    let keep = small(at(&how, 1));
    Ok(ListedCall {
        process: 0,
        call: at(&how, 0),
        fault: DeviceFault::Stopped,
        tear: Tear { keep, fill: None },
    })
}

/// A case: what is on the disk, a stop, and calls with their answers.
fn closing_holds(alloc: Global, case: &str) -> Result<(), Fail> {
    let listed = vec![in alloc; stop_of(alloc, case)?]?;
    let mut rig = over(alloc, field(case, "image ")?, listed)?;
    lines_hold(&mut rig, alloc, case)
}

/// Each case of a text.
pub fn closings_hold(alloc: Global, text: &str) -> Result<(), Fail> {
    for case in text.split("# ") {
        if !case.is_empty() {
            closing_holds(alloc, case)?;
        }
    }
    Ok(())
}
