ghost use Rattle.std.specs.Prelude.{◌≡◌, ◌≤◌, ◌<◌, ◌^◌, ◌++◌, ◌∷◌, ℕ, IfSome, List, codes, decimal, length, true};
ghost use Rattle.dc_limits.specs.declared.bounds.TheConstants.{ENTRIES};
ghost use Rattle.dc_model.specs.declared.act.Taken.{Taken};
ghost use Rattle.dc_model.specs.declared.act.Act.TheVariants.{Clock, Plain, Random};
ghost use Rattle.dc_words.specs.Texts.{fields_of};
ghost use Rattle.dc_report.specs.Reports.{act_text};
ghost use Rattle.dc_report.specs.Reading.{act_by, act_by_one, act_by_three, act_by_two, bounded, input_by, is_past, is_status, line_by};
ghost use Rattle.dc_report.specs.Parts.{act_fields, admitted_act, below, close_fields, closes, line_read, received_from, sent_by, status_of, summed, tallied, weighed};

use crate::ReportKind;
use dc_limits::ENTRIES;
use dc_model::{Act, Taken};
use dc_words::{NumberFault, first_field, first_number, read_number};

/// What the last line of a report says, besides the count of its acts.
#[derive(Clone, Copy, Debug, PartialEq, Eq)]
pub struct Closing {
    pub status: u32,
    pub entries: u32,
    pub lines: u32,
}

/// A line of a report behind its first.
#[derive(Clone, Copy, Debug, PartialEq, Eq)]
pub enum ReportLine {
    /// An act.
    Act(Taken),
    /// The last line.
    Close(Closing),
}

/// A number; none where it is not below the bound.
fn number(text: &[u8], bound: u32) -> Result<Option<u32>, ReportKind>
    requires { 0 < bound }
    ensures { result ≡ below bound text.now }
{
    match read_number(text, u64::from(bound - 1)) {
        Ok(value) => Ok(Some(value as u32)),
        Err(NumberFault::Range) => Ok(None),
        Err(NumberFault::NotNumber) => Err(ReportKind::Form),
    }
}

/// An act by one field.
fn act_of_one(name: &[u8]) -> Result<Option<Act>, ReportKind>
    ensures { (n : ℕ) → result ≡ sent_by n (act_by_one name.now) }
{
    if name == b"plain".as_slice() {
        return Ok(Some(Act::Plain));
    }
    Err(ReportKind::Form)
}

/// The clock, below 2^64.
fn clock(what: &[u8]) -> Result<Option<Act>, ReportKind>
    ensures { (n : ℕ) → result ≡ sent_by n (bounded Clock (2 ^ 64) what.now) }
{
    match read_number(what, u64::MAX) {
        Ok(value) => Ok(Some(Act::Clock(value))),
        Err(_) => Err(ReportKind::Form),
    }
}

/// A random word, below 2^32.
fn random(what: &[u8]) -> Result<Option<Act>, ReportKind>
    ensures { (n : ℕ) → result ≡ sent_by n (bounded Random (2 ^ 32) what.now) }
{
    match read_number(what, u64::from(u32::MAX)) {
        Ok(value) => Ok(Some(Act::Random(value as u32))),
        Err(_) => Err(ReportKind::Form),
    }
}

/// What a guest was told of its input.
fn input(what: &[u8]) -> Result<Option<Act>, ReportKind>
    ensures { (n : ℕ) → result ≡ sent_by n (input_by what.now) }
{
    if what == b"none".as_slice() {
        return Ok(Some(Act::InputNone));
    }
    if what == b"next".as_slice() {
        return Ok(Some(Act::InputNext));
    }
    if what == b"end".as_slice() {
        return Ok(Some(Act::InputEnd));
    }
    Err(ReportKind::Form)
}

/// An act by two fields.
fn act_of_two(name: &[u8], what: &[u8]) -> Result<Option<Act>, ReportKind>
    ensures { (n : ℕ) → result ≡ sent_by n (act_by_two name.now what.now) }
{
    if name == b"clock".as_slice() {
        return clock(what);
    }
    if name == b"random".as_slice() {
        return random(what);
    }
    if name == b"input".as_slice() {
        return input(what);
    }
    if name == b"receive".as_slice() && what == b"none".as_slice() {
        return Ok(Some(Act::ReceiveNone));
    }
    Err(ReportKind::Form)
}

/// A message of a process; none where there is no such process.
fn received(n: u32, sender: &[u8]) -> Result<Option<Act>, ReportKind>
    requires { 0 < n }
    ensures { result ≡ sent_by n (received_from sender.now) }
{
    match number(sender, n)? {
        Some(sender) => Ok(Some(Act::ReceiveFrom(sender))),
        None => Ok(None),
    }
}

/// An act by three fields.
fn act_of_three(n: u32, name: &[u8], from: &[u8], sender: &[u8]) -> Result<Option<Act>, ReportKind>
    requires { 0 < n }
    ensures { result ≡ sent_by n (act_by_three name.now from.now sender.now) }
{
    if name == b"receive".as_slice() && from == b"from".as_slice() {
        return received(n, sender);
    }
    Err(ReportKind::Form)
}

/// An act by its fields; none where its sender is no process.
fn act(n: u32, told: &[u8]) -> Result<Option<Act>, ReportKind>
    requires { 0 < n }
    ensures { result ≡ sent_by n (act_by (fields_of 32 told.now)) }
{
    let Some((name, what)) = first_field(b' ', told) else {
        return act_of_one(told);
    };
    let Some((from, sender)) = first_field(b' ', what) else {
        return act_of_two(name, what);
    };
    match first_field(b' ', sender) {
        Some(_) => Err(ReportKind::Form),
        None => act_of_three(n, name, from, sender),
    }
}

/// An act of a process that is there, from one that is there, at a turn from `next` on.
fn admit(
    next: u32,
    turn: Option<u32>,
    process: Option<u32>,
    act: Option<Act>,
) -> Result<Taken, ReportKind>
    ensures { result ≡ admitted_act next turn process act }
{
    let Some(p) = process else {
        return Err(ReportKind::Process);
    };
    let Some(act) = act else {
        return Err(ReportKind::Process);
    };
    match turn {
        Some(t) if next <= t => Ok(Taken { t, p, act }),
        _ => Err(ReportKind::Turn),
    }
}

/// The act of a line by its parts.
fn weigh(n: u32, next: u32, t: &[u8], p: &[u8], told: &[u8]) -> Result<Taken, ReportKind>
    requires { 0 < n }
    ensures { result ≡ weighed n next t.now p.now (act_by (fields_of 32 told.now)) }
{
    let turn = number(t, ENTRIES)?;
    let process = number(p, n)?;
    let act = act(n, told)?;
    admit(next, turn, process, act)
}

/// The act of a line, behind its name.
fn act_line(n: u32, next: u32, fields: &[u8]) -> Result<Taken, ReportKind>
    requires { 0 < n }
    ensures { result ≡ act_fields n next (fields_of 32 fields.now) }
{
    let Some((t, rest)) = first_field(b' ', fields) else {
        return Err(ReportKind::Form);
    };
    let Some((p, told)) = first_field(b' ', rest) else {
        return Err(ReportKind::Form);
    };
    weigh(n, next, t, p, told)
}

/// The status of a run that was opened.
fn status(text: &[u8]) -> Result<u32, ReportKind>
    ensures { result ≡ status_of text.now }
{
    match number(text, 16)? {
        Some(status) if is_status(status) => Ok(status),
        _ => Err(ReportKind::Form),
    }
}

/// Whether a run that was opened may end with that status.
fn is_status(status: u32) -> bool
    ensures { result ≡ is_status status }
{
    status == 0 || status == 1 || status == 7 || status == 8 || status == 12 || status == 15
}

/// Whether a halted run, of status 15, took all entries up to the last act's turn: those below `next`.
fn is_past(status: u32, next: u32, entries: u32) -> bool
    ensures { result ≡ is_past status next entries }
{
    status != 15 || next <= entries
}

/// The last line of so many acts with turns below `next`, by its counts.
fn tally(
    status: u32,
    next: u32,
    acts: u32,
    entries: Option<u32>,
    count: Option<u32>,
    lines: Option<u32>,
) -> Result<Closing, ReportKind>
    ensures { result ≡ tallied status next acts entries count lines }
{
    let Some(entries) = entries else {
        return Err(ReportKind::Count);
    };
    let Some(count) = count else {
        return Err(ReportKind::Count);
    };
    let Some(lines) = lines else {
        return Err(ReportKind::Count);
    };
    if count == acts && lines <= entries && is_past(status, next, entries) {
        return Ok(Closing {
            status,
            entries,
            lines,
        });
    }
    Err(ReportKind::Count)
}

/// The last line of so many acts with turns below `next`, by its fields.
fn sum(
    next: u32,
    acts: u32,
    first: &[u8],
    entries: &[u8],
    count: &[u8],
    lines: &[u8],
) -> Result<Closing, ReportKind>
    ensures { result ≡ summed next acts first.now entries.now count.now lines.now }
{
    let status = status(first)?;
    let entries = number(entries, ENTRIES + 1)?;
    let count = number(count, ENTRIES + 1)?;
    let lines = number(lines, ENTRIES + 1)?;
    tally(status, next, acts, entries, count, lines)
}

/// The last line of so many acts with turns below `next`, behind its name.
fn close_line(next: u32, acts: u32, fields: &[u8]) -> Result<Closing, ReportKind>
    requires { acts ≤ ENTRIES }
    ensures { (list : List Taken) → length list ≡ acts → closes list result ≡ close_fields next list (fields_of 32 fields.now) }
{
    let Some((status, rest)) = first_field(b' ', fields) else {
        return Err(ReportKind::Form);
    };
    let Some((entries, rest)) = first_field(b' ', rest) else {
        return Err(ReportKind::Form);
    };
    let Some((count, lines)) = first_field(b' ', rest) else {
        return Err(ReportKind::Form);
    };
    match first_field(b' ', lines) {
        Some(_) => Err(ReportKind::Form),
        None => sum(next, acts, status, entries, count, lines),
    }
}

/// What stands behind the name in the line of an act, where a line begins with it.
fn behind_name(line: &[u8]) -> Option<&[u8]>
    ensures { IfSome result (λ fields. line.now ≡ codes "act " ++ fields.now) }
{
    match line {
        [b'a', b'c', b't', b' ', fields @ ..] => Some(fields),
        _ => None,
    }
}

/// Whether this is what a plain act told.
fn is_plain(told: &[u8]) -> bool
    ensures { result ≡ true → told.now ≡ act_text Plain }
{
    matches!(told, [b'p', b'l', b'a', b'i', b'n'])
}

/// The act of a line, where it is a plain one that may come. It is read in one pass, since most acts of most runs are such.
fn plain_act(n: u32, next: u32, line: &[u8]) -> Option<Taken>
    requires { 0 < n }
    ensures text { IfSome result (λ x. line.now ≡ codes "act " ++ (decimal x.t ++ 32 ∷ (decimal x.p ++ 32 ∷ act_text x.act))) }
    ensures fits { IfSome result (λ x. (x.act ≡ Plain) × (x.p < n) × (next ≤ x.t) × (x.t < ENTRIES)) }
{
    let fields = behind_name(line)?;
    let (t, fields) = first_number(b' ', u64::from(ENTRIES - 1), fields)?;
    let (p, told) = first_number(b' ', u64::from(n - 1), fields)?;
    let t = t as u32;
    if t < next || !is_plain(told) {
        return None;
    }
    let p = p as u32;
    let act = Act::Plain;
    Some(Taken { t, p, act })
}

/// A line of a report of `n` processes, behind so many acts with turns below `next`.
pub fn read_line(n: u32, next: u32, acts: u32, line: &[u8]) -> Result<ReportLine, ReportKind>
    requires some { 0 < n }
    requires few { acts ≤ ENTRIES }
    ensures { (list : List Taken) → length list ≡ acts → line_read list result ≡ line_by n next list (fields_of 32 line.now) }
{
    if let Some(taken) = plain_act(n, next, line) {
        return Ok(ReportLine::Act(taken));
    }
    let Some((name, fields)) = first_field(b' ', line) else {
        return Err(ReportKind::Form);
    };
    if name == b"close".as_slice() {
        return Ok(ReportLine::Close(close_line(next, acts, fields)?));
    }
    if name == b"act".as_slice() {
        return Ok(ReportLine::Act(act_line(n, next, fields)?));
    }
    Err(ReportKind::Form)
}
