//! Journals that are read here, line by line, and written again.

ghost use Rattle.std.specs.Prelude.{◌≡◌, ◌≤◌, ◌<◌, IfOk, length};
ghost use Rattle.std.specs.List.{All};
ghost use Rattle.dc_audit.specs.Journals.{IsOfSixteen};

use crate::cases::SAVED_OR_NOT;
use crate::holding::holds;
use crate::journals::{text_of, told};
use dc_audit::{Deed, Line};
use dc_journal::write_journal;
use dc_memmedia::MemSink;
use dc_words::read_number;
use std::alloc::Global;
use std::test::Fail;

/// The first word of a text, and those behind it.
fn word(text: &str) -> (&str, &str) {
    text.split_once(' ').unwrap_or((text, ""))
}

/// A number.
fn number(text: &str) -> Result<u32, Fail> {
    match read_number(text.as_bytes(), u64::from(u32::MAX)) {
        Ok(number) => Ok(number as u32),
        Err(_) => Err(Fail::new(text)),
    }
}

/// The number of a process.
fn process(text: &str) -> Result<u32, Fail>
    ensures { IfOk result (λ p. p < 16) }
{
    match read_number(text.as_bytes(), 15) {
        Ok(number) => Ok(number as u32),
        Err(_) => Err(Fail::new(text)),
    }
}

fn send(words: &str) -> Result<Deed, Fail> {
    let (to, k) = word(words);
    let to = number(to)?;
    let k = number(k)?;
    Ok(Deed::Sends(to, k))
}

fn receipt(words: &str) -> Result<Deed, Fail> {
    let (from, words) = word(words);
    let (k, how) = word(words);
    let from = number(from)?;
    let k = number(k)?;
    Ok(Deed::Receives(from, k, how == "logged"))
}

fn deed(text: &str) -> Result<Deed, Fail> {
    let (name, words) = word(text);
    if name == "send" {
        return send(words);
    }
    if name == "receive" {
        return receipt(words);
    }
    if name == "visible" {
        return Ok(Deed::Visible);
    }
    Ok(if name == "logged" {
        Deed::Logged
    } else {
        Deed::Chance
    })
}

/// Marks those that a list names.
fn mark(members: &mut [bool], list: &str) -> Result<(), Fail>
    requires { length members.old ≡ 16 }
    ensures { length members.new ≡ 16 }
{
    for part in list.split(",") {
        let p = process(part)?;
        members[p as usize] = true;
    }
    Ok(())
}

fn commit(list: &str) -> Result<Line, Fail>
    ensures { IfOk result IsOfSixteen }
{
    let mut members = [false; 16];
    mark(&mut members, list)?;
    Ok(Line::Commits(members))
}

fn event(text: &str) -> Result<Line, Fail>
    ensures { IfOk result IsOfSixteen }
{
    let (p, did) = word(text);
    let p = process(p)?;
    let deed = deed(did)?;
    Ok(Line::Does(p, deed))
}

fn line(text: &str) -> Result<Line, Fail>
    ensures { IfOk result IsOfSixteen }
{
    let (name, words) = word(text);
    if name == "commit" {
        return commit(words);
    }
    event(words)
}

/// The lines of a journal, up to its end.
fn lines(alloc: Global, text: &str) -> Result<Vec<Line>, Fail>
    ensures { IfOk result (λ lines. All IsOfSixteen lines.items) }
{
    let mut lines = Vec::new(alloc);
    for text in text.split("~") {
        if text == "end" {
            return Ok(lines);
        }
        let line = line(text)?;
        lines.push(line)?;
    }
    Err(Fail::new(text))
}

/// The heading's number of processes, and whether it is causal.
fn heading(text: &str) -> Result<(u32, bool), Fail> {
    let Some(words) = text.strip_prefix("dc-journal 1 ") else {
        return Err(Fail::new(text));
    };
    let (n, form) = word(words);
    let n = number(n)?;
    Ok((n, form == "causal"))
}

/// Writes a journal, with its end or without.
fn write(alloc: Global, case: &str, whole: bool) -> Result<MemSink, Fail> {
    let Some((first, rest)) = case.split_once("~") else {
        return Err(Fail::new(case));
    };
    let (n, causal) = heading(first)?;
    let lines = lines(alloc, rest)?;
    let mut sink = MemSink::new(alloc, 4096, Vec::new(alloc))?;
    match write_journal(&mut sink, n, causal, &lines, whole) {
        Ok(()) => Ok(sink),
        Err(_) => Err(Fail::new(case)),
    }
}

/// What is written is the text that the lines were read from, and is judged as that was.
fn comes_back(alloc: Global, row: &str) -> Result<(), Fail> {
    let Some((want, case)) = row.split_once("=") else {
        return Err(Fail::new(row));
    };
    let sink = write(alloc, case, true)?;
    let text = text_of(alloc, case)?;
    holds(sink.bytes() == text.as_slice(), row)?;
    let told = told(alloc, sink.bytes())?;
    holds(told.as_str() == want, row)
}

/// Without its end it is all but the last line.
fn is_cut(alloc: Global, row: &str) -> Result<(), Fail> {
    let Some((_, case)) = row.split_once("=") else {
        return Err(Fail::new(row));
    };
    let sink = write(alloc, case, false)?;
    let Some(front) = case.strip_suffix("end~") else {
        return Err(Fail::new(row));
    };
    let text = text_of(alloc, front)?;
    holds(sink.bytes() == text.as_slice(), row)
}

#[test]
fn journals_come_back_as_they_were(rt: HostRuntime) -> Result<(), Fail> {
    for row in SAVED_OR_NOT.lines() {
        comes_back(rt.alloc(), row)?;
    }
    Ok(())
}

#[test]
fn journals_may_lack_their_end(rt: HostRuntime) -> Result<(), Fail> {
    for row in SAVED_OR_NOT.lines() {
        is_cut(rt.alloc(), row)?;
    }
    Ok(())
}
