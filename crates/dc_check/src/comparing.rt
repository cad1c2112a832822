ghost use Rattle.std.specs.Prelude.{◌≡◌, ◌<◌, ◌+◌, ◌-◌, ◌^◌, ◌∷◌, [], IfOk, List, ℕ, None, OnOk, Option, Some, drop, length, slice_get, suc};
ghost use Rattle.dc_check.specs.Compared.{IfDiffers, IsThat, found};
ghost use Rattle.dc_check.specs.Differences.{Difference as Differences, at_last, difference_from, difference_of, missing, noted, unlike};
ghost use Rattle.dc_words.specs.Texts.{lines_of};

use crate::finding::Difference;
use crate::records::numbers_in;
use crate::seen::FirstLines;
use dc_words::{first_field, first_line};
use std::alloc::{AllocError, Global};

/// Why a comparison ended.
#[derive(Drop)]
pub enum Unlike {
    /// A line differs.
    Differs(Difference),
    /// There was no memory for it.
    Memory,
}

/// Copies of a line and of what is wanted there.
fn copies(alloc: Global, line: u64, found: &[u8], wanted: &[u8]) -> Result<Difference, AllocError>
    ensures { IfOk result (λ d. (d.line ≡ line) × (d.found.items ≡ found.now) × (d.wanted.items ≡ wanted.now)) }
{
    Ok(Difference {
        line,
        found: found.to_vec(alloc)?,
        wanted: wanted.to_vec(alloc)?,
    })
}

/// That a line differs from what is wanted there.
fn differs(alloc: Global, line: u64, found: &[u8], wanted: &[u8]) -> Unlike
    ensures { IsThat result (record { line = line; found = found.now; wanted = wanted.now }) }
{
    match copies(alloc, line, found, wanted) {
        Ok(difference) => Unlike::Differs(difference),
        Err(_) => Unlike::Memory,
    }
}

/// Compares a line with the one that is wanted there.
fn compare(alloc: Global, number: u64, line: &[u8], wanted: &[u8]) -> Result<(), Unlike>
    ensures like { OnOk result (unlike number line.now (Some wanted.now) ≡ None) }
    ensures differs { IfDiffers result (unlike number line.now (Some wanted.now)) }
{
    if line == wanted {
        Ok(())
    } else {
        Err(differs(alloc, number, line, wanted))
    }
}

/// Compares a line with the first that is wanted still, and gives the text of the others.
fn next<'a>(alloc: Global, number: u64, wanted: &'a [u8], line: &[u8]) -> Result<&'a [u8], Unlike>
    ensures like { OnOk result (unlike number line.now (slice_get (lines_of wanted.now) 0) ≡ None) }
    ensures others { IfOk result (λ more. lines_of more.now ≡ drop 1 (lines_of wanted.now)) }
    ensures differs { IfDiffers result (unlike number line.now (slice_get (lines_of wanted.now) 0)) }
{
    if wanted.is_empty() {
        return Err(differs(alloc, number, line, b""));
    }
    let (text, more) = first_line(wanted);
    compare(alloc, number, line, text)?;
    Ok(more)
}

/// The end of the output: no line is wanted any more.
fn finished(alloc: Global, number: u64, wanted: &[u8]) -> Result<(), Unlike>
    ensures like { OnOk result (missing number (lines_of wanted.now) ≡ None) }
    ensures differs { IfDiffers result (missing number (lines_of wanted.now)) }
{
    if wanted.is_empty() {
        return Ok(());
    }
    let (text, _) = first_line(wanted);
    Err(differs(alloc, number, b"", text))
}

/// What stands behind the last line feed of the output.
fn last(alloc: Global, number: u64, wanted: &[u8], line: &[u8]) -> Result<(), Unlike>
    requires { number < 2 ^ 64 - 1 }
    ensures like { OnOk result (at_last number (lines_of wanted.now) line.now ≡ None) }
    ensures differs { IfDiffers result (at_last number (lines_of wanted.now) line.now) }
{
    if line.is_empty() {
        return finished(alloc, number, wanted);
    }
    let more = next(alloc, number, wanted, line)?;
    finished(alloc, number + 1, more)
}

/// Keeps the line of these numbers.
fn keep<'a>(first: &mut FirstLines<'a>, numbers: &'a [u8], line: &'a [u8]) -> Result<(), Unlike>
    ensures kept { OnOk result (found first.new ≡ noted (Some numbers.now) line.now (found first.old)) }
    ensures memory { (told : Option Differences) → IfDiffers result told }
{
    match first.note(numbers, line) {
        Ok(()) => Ok(()),
        Err(_) => Err(Unlike::Memory),
    }
}

/// Compares a line with the first one of its process and number, or else with the first that is wanted still; gives the text of
/// those that are wanted then.
fn compare_line<'a>(
    alloc: Global,
    first: &mut FirstLines<'a>,
    number: u64,
    wanted: &'a [u8],
    line: &'a [u8],
) -> Result<&'a [u8], Unlike>
    ensures goes_on { IfOk result (λ more. (part : List ℕ) (parts : List (List ℕ)) →
        difference_from number (found first.old) (lines_of wanted.now) (line.now ∷ part ∷ parts)
        ≡ difference_from (suc number) (found first.new) (lines_of more.now) (part ∷ parts)) }
    ensures differs { (part : List ℕ) (parts : List (List ℕ)) → IfDiffers result (difference_from number (found first.old) (lines_of wanted.now) (line.now ∷ part ∷ parts)) }
{
    let Some(numbers) = numbers_in(line) else {
        return next(alloc, number, wanted, line);
    };
    if let Some(earlier) = first.find(numbers) {
        compare(alloc, number, line, earlier)?;
        return Ok(wanted);
    }
    let more = next(alloc, number, wanted, line)?;
    keep(first, numbers, line)?;
    Ok(more)
}

/// Compares an output with the text of the lines that a run shows, where a line may repeat an earlier one of its process and number.
pub fn compare_lines(alloc: Global, text: &[u8], out: &[u8]) -> Result<(), Unlike>
    ensures like { OnOk result (difference_of text.now out.now ≡ None) }
    ensures differs { IfDiffers result (difference_of text.now out.now) }
{
    let mut first = FirstLines::new(alloc);
    let mut number: u64 = 1;
    let mut wanted = text;
    let mut rest = out;
    while let Some((line, after)) = first_field(b'\n', rest) {
        wanted = compare_line(alloc, &mut first, number, wanted, line)?;
        number += 1;
        rest = after;
    }
    last(alloc, number, wanted, rest)
}
