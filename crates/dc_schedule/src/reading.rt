ghost use Rattle.std.specs.Prelude.{◌≡◌, ◌≤◌, ◌<◌, ◌⊎◌, ◌++◌, ◌∷◌, ℕ, suc, [], All, Err, IfOk, IfSome, IsErrOf, length, if◌then◌else◌};
ghost use Rattle.dc_limits.specs.declared.bounds.TheConstants.{ENTRIES};
ghost use Rattle.dc_model.specs.declared.entry.Entry.TheVariants as entries;
ghost use Rattle.dc_words.specs.Texts.{lines_of};
ghost use Rattle.dc_schedule.specs.Entries.{IsEntry, IsSchedule, IsTurn, clock_after, entry_text, schedule_text};
ghost use Rattle.dc_schedule.specs.Schedules.{Reads, entry_of, power_of, schedule_from, schedule_of, stop_of, turn_of, turns_of, with_front};
ghost use Rattle.dc_schedule.specs.declared.fault.ScheduleKind.{ScheduleKind as Kinds};
ghost use Rattle.dc_schedule.specs.declared.fault.ScheduleKind.TheVariants.{Form};

use crate::{ReadError, ScheduleFault, ScheduleKind};
use dc_limits::ENTRIES;
use dc_model::{Entry, Turn};
use dc_words::{NumberFault, first_field, first_line, first_number, read_number};
use std::alloc::Global;

/// A turn of a process below `n`, where the clock stood at `last`.
fn turn(n: u32, last: u64, p: &[u8], word: &[u8], clock: &[u8]) -> Result<Entry, ScheduleKind>
    requires { 0 < n }
    ensures { result ≡ turn_of n last p.now word.now clock.now }
{
    let Ok(word) = read_number(word, u64::from(u32::MAX)) else {
        return Err(ScheduleKind::Form);
    };
    let Ok(clock) = read_number(clock, u64::MAX) else {
        return Err(ScheduleKind::Form);
    };
    match read_number(p, u64::from(n - 1)) {
        Err(NumberFault::NotNumber) => Err(ScheduleKind::Form),
        Err(NumberFault::Range) => Err(ScheduleKind::Process),
        Ok(_) if clock < last => Err(ScheduleKind::ClockFell),
        Ok(p) => Ok(Entry::Turn(Turn {
            p: p as u32,
            word: word as u32,
            clock,
        })),
    }
}

/// A stop of a process below `n`, by the two fields of its line.
fn stop(n: u32, name: &[u8], p: &[u8]) -> Result<Entry, ScheduleKind>
    requires { 0 < n }
    ensures { result ≡ stop_of n name.now p.now }
{
    if name != b"stop".as_slice() {
        return Err(ScheduleKind::Form);
    }
    match read_number(p, u64::from(n - 1)) {
        Err(NumberFault::NotNumber) => Err(ScheduleKind::Form),
        Err(NumberFault::Range) => Err(ScheduleKind::Process),
        Ok(p) => Ok(Entry::Stop(p as u32)),
    }
}

/// A failure of the power, by the one field of its line.
fn power(name: &[u8]) -> Result<Entry, ScheduleKind>
    ensures { result ≡ power_of name.now }
{
    if name == b"power".as_slice() {
        Ok(Entry::Power)
    } else {
        Err(ScheduleKind::Form)
    }
}

/// The entry of a line, where the clock stood at `last`.
fn entry(stops: bool, n: u32, last: u64, line: &[u8]) -> Result<Entry, ScheduleKind>
    requires { 0 < n }
    ensures { result ≡ entry_of stops n last line.now }
{
    let Some((first, rest)) = first_field(b' ', line) else {
        return if stops {
            power(line)
        } else {
            Err(ScheduleKind::Form)
        };
    };
    let Some((second, third)) = first_field(b' ', rest) else {
        return if stops {
            stop(n, first, rest)
        } else {
            Err(ScheduleKind::Form)
        };
    };
    // A third field in which a blank stands is no number.
    turn(n, last, first, second, third)
}

/// The greatest clock that is read with its line in one pass.
const QUICK_CLOCK: u64 = (1 << 60) - 1;

/// The turn that a text begins with, and what follows its line, where the line is whole and the turn may come. It is read in one pass.
fn first_turn(n: u32, last: u64, text: &[u8]) -> Option<(Turn, &[u8])>
    requires { 0 < n }
    ensures { IfSome result (λ x. (text.now ≡ entry_text (entries.Turn x.0) ++ x.1.now) × IsEntry n last (entries.Turn x.0)) }
{
    let (p, rest) = first_number(b' ', u64::from(n - 1), text)?;
    let (word, rest) = first_number(b' ', u64::from(u32::MAX), rest)?;
    let (clock, rest) = first_number(b'\n', QUICK_CLOCK, rest)?;
    if clock < last {
        return None;
    }
    let turn = Turn {
        p: p as u32,
        word: word as u32,
        clock,
    };
    Some((turn, rest))
}

/// The entry of the first line of a text that is not empty, and what follows the line.
fn first_entry(stops: bool, n: u32, last: u64, text: &[u8]) -> Result<(Entry, &[u8]), ScheduleKind>
    requires some { 0 < n }
    requires line { 0 < length text.now }
    ensures read { IfOk result (λ x. (number : ℕ) → number ≤ ENTRIES
        → schedule_from stops n number last (lines_of text.now) ≡ with_front x.0 (schedule_from stops n (suc number) (clock_after last x.0) (lines_of x.1.now))) }
    ensures shorter { IfOk result (λ x. length x.1.now < length text.now) }
    ensures refused { (kind : Kinds) → IsErrOf result kind → (number : ℕ) → number ≤ ENTRIES → schedule_from stops n number last (lines_of text.now) ≡ Err (record { line = number; kind = kind }) }
{
    if let Some((turn, rest)) = first_turn(n, last, text) {
        return Ok((Entry::Turn(turn), rest));
    }
    let (line, rest) = first_line(text);
    match entry(stops, n, last, line) {
        Ok(entry) => Ok((entry, rest)),
        Err(kind) => Err(kind),
    }
}

/// The clock after an entry, where it stood at `last`.
fn clock_after(last: u64, entry: &Entry) -> u64
    ensures { result ≡ clock_after last entry.now }
{
    match *entry {
        Entry::Turn(turn) => turn.clock,
        Entry::Stop(_) => last,
        Entry::Power => last,
    }
}

/// The entries of a text, where stops are allowed or not.
fn read_entries(alloc: Global, stops: bool, text: &[u8], n: u32) -> Result<Vec<Entry>, ReadError>
    requires { 0 < n }
    ensures { Reads result (schedule_from stops n 1 0 (lines_of text.now)) }
{
    let mut entries = Vec::new(alloc);
    let mut line: u32 = 1;
    let mut last: u64 = 0;
    let mut rest = text;
    while !rest.is_empty() {
        if line > ENTRIES {
            let kind = ScheduleKind::TooMany;
            return Err(ReadError::Refused(ScheduleFault { line, kind }));
        }
        match first_entry(stops, n, last, rest) {
            Err(kind) => return Err(ReadError::Refused(ScheduleFault { line, kind })),
            Ok((entry, after)) => {
                last = clock_after(last, &entry);
                if entries.push(entry).is_err() {
                    return Err(ReadError::Memory);
                }
                rest = after;
            }
        }
        line += 1;
    }
    Ok(entries)
}

/// The schedule of a text, among `n` processes; its first faulty line decides. The last line feed may be missing.
pub fn read(alloc: Global, text: &[u8], n: u32) -> Result<Vec<Entry>, ReadError>
    requires { 0 < n }
    ensures exact { Reads result (schedule_of n text.now) }
    ensures schedule { IfOk result (λ entries. IsSchedule n entries.items) }
    ensures written { IfOk result (λ entries. (text.now ≡ schedule_text entries.items)
        ⊎ (text.now ++ 10 ∷ [] ≡ schedule_text entries.items)) }
{
    read_entries(alloc, true, text, n)
}

/// The same where a line that stops a process is a fault of form, and so is a failure of the power.
pub fn read_turns(alloc: Global, text: &[u8], n: u32) -> Result<Vec<Entry>, ReadError>
    requires { 0 < n }
    ensures exact { Reads result (turns_of n text.now) }
    ensures turns { IfOk result (λ entries. All (IsTurn n) entries.items) }
    ensures few { IfOk result (λ entries. length entries.items ≤ ENTRIES) }
    ensures schedule { IfOk result (λ entries. IsSchedule n entries.items) }
    ensures written { IfOk result (λ entries. (text.now ≡ schedule_text entries.items)
        ⊎ (text.now ++ 10 ∷ [] ≡ schedule_text entries.items)) }
{
    read_entries(alloc, false, text, n)
}
