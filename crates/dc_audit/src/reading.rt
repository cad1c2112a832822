ghost use Rattle.std.specs.Prelude.{◌≡◌, ◌<◌, ◌≤◌, ◌^◌, ◌∷◌, ℕ, [], Some, Err, IfOk, IfSome, length, codes, bytes_eq, if◌then◌else◌};
ghost use Rattle.dc_words.specs.Texts.{fields_of};
ghost use Rattle.dc_audit.specs.Clocks.{sent_on, way};
ghost use Rattle.dc_audit.specs.Reading.{Checks, SaysSixteen, ReadsLine, kept};
ghost use Rattle.dc_audit.specs.declared.fault.AuditKind.TheVariants.{Form};
ghost use Rattle.dc_audit.specs.declared.said.Said.TheVariants.{Says};
ghost use Rattle.dc_audit.specs.declared.journal.Line.TheVariants.{Does};
ghost use Rattle.dc_audit.specs.declared.journal.Deed.TheVariants.{Receives, Sends};
ghost use Rattle.dc_audit.specs.Reading as reading;

use crate::fault::AuditKind;
use crate::fields::{capped, read_deed};
use crate::journal::{Deed, Line};
use crate::link::Link;
use crate::members::commit;
use crate::said::Said;
use dc_words::first_field;

/// An event, by its process and what that did.
fn read_event(p: &[u8], did: &[u8]) -> Result<Said, AuditKind>
    ensures exact { result ≡ reading.event_of (reading.capped p.now) (reading.deed_of (fields_of 32 did.now)) }
    ensures long { IfOk result SaysSixteen }
{
    let Some(p) = capped(p) else {
        return Err(AuditKind::Form);
    };
    let Some(deed) = read_deed(did) else {
        return Err(AuditKind::Form);
    };
    Ok(Said::Says(Line::Does(p, deed)))
}

/// The same, of a line whose first field is to say that it is an event.
fn read_event_line(name: &[u8], p: &[u8], did: &[u8]) -> Result<Said, AuditKind>
    ensures exact { result ≡ (if bytes_eq name.now (codes "e") then reading.event_of (reading.capped p.now) (reading.deed_of (fields_of 32 did.now)) else Err Form) }
    ensures long { IfOk result SaysSixteen }
{
    if name == b"e".as_slice() {
        return read_event(p, did);
    }
    Err(AuditKind::Form)
}

/// What the text of a line says, if it has the form of one.
fn read_line(n: u32, text: &[u8]) -> Result<Said, AuditKind>
    requires { n ≤ 16 }
    ensures exact { result ≡ reading.said_by n (fields_of 32 text.now) }
    ensures long { IfOk result SaysSixteen }
{
    let Some((name, rest)) = first_field(b' ', text) else {
        return if text == b"end".as_slice() {
            Ok(Said::End)
        } else {
            Err(AuditKind::Form)
        };
    };
    let Some((p, did)) = first_field(b' ', rest) else {
        return if name == b"commit".as_slice() {
            commit(n, rest)
        } else {
            Err(AuditKind::Form)
        };
    };
    read_event_line(name, p, did)
}

/// Whether these are two processes below `n`, and not the same.
fn are_two(n: u32, p: u32, q: u32) -> bool
    ensures { result ≡ reading.are_two n p q }
{
    p < n && q < n && q != p
}

/// What is wrong with the sending of message `k` from `p` to `q`.
fn check_sent(n: u32, links: &[Link], p: u32, q: u32, k: u32) -> Result<(), AuditKind>
    requires linked { length links.now ≡ 256 }
    requires few { n ≤ 16 }
    requires counts { (p q : ℕ) → sent_on (way links.now p q) < 2 ^ 32 }
    ensures { Checks n links.now (Says (Does p (Sends q k))) (kept (Says (Does p (Sends q k))) result) }
{
    if !are_two(n, p, q) {
        return Err(AuditKind::Process);
    }
    if k != links[16 * p as usize + q as usize].sent() {
        return Err(AuditKind::Number);
    }
    Ok(())
}

/// What is wrong with the receipt of message `k` of `s` by `p`.
fn check_received(
    n: u32,
    links: &[Link],
    p: u32,
    s: u32,
    k: u32,
    logged: bool,
) -> Result<(), AuditKind>
    requires linked { length links.now ≡ 256 }
    requires few { n ≤ 16 }
    requires counts { (p q : ℕ) → sent_on (way links.now p q) < 2 ^ 32 }
    ensures { Checks n links.now (Says (Does p (Receives s k logged))) (kept (Says (Does p (Receives s k logged))) result) }
{
    if !are_two(n, p, s) {
        return Err(AuditKind::Process);
    }
    let link = &links[16 * s as usize + p as usize];
    if k != link.taken() || k >= link.sent() {
        return Err(AuditKind::Unsent);
    }
    Ok(())
}

/// What is wrong with an event that concerns no other process.
fn check_alone(n: u32, p: u32) -> Result<(), AuditKind>
    ensures { result ≡ reading.alone n p }
{
    if p < n {
        Ok(())
    } else {
        Err(AuditKind::Process)
    }
}

/// What is wrong with an event, where those messages are on their way.
fn check_event(n: u32, links: &[Link], p: u32, deed: Deed) -> Result<(), AuditKind>
    requires linked { length links.now ≡ 256 }
    requires few { n ≤ 16 }
    requires counts { (p q : ℕ) → sent_on (way links.now p q) < 2 ^ 32 }
    ensures { Checks n links.now (Says (Does p deed)) (kept (Says (Does p deed)) result) }
{
    match deed {
        Deed::Sends(q, k) => check_sent(n, links, p, q, k),
        Deed::Receives(s, k, logged) => check_received(n, links, p, s, k, logged),
        Deed::Chance => check_alone(n, p),
        Deed::Logged => check_alone(n, p),
        Deed::Visible => check_alone(n, p),
    }
}

/// What is wrong with a line, beside its form, where those messages are on their way.
fn check(n: u32, links: &[Link], line: &Line) -> Result<(), AuditKind>
    requires linked { length links.now ≡ 256 }
    requires few { n ≤ 16 }
    requires counts { (p q : ℕ) → sent_on (way links.now p q) < 2 ^ 32 }
    ensures { Checks n links.now (Says line.now) (kept (Says line.now) result) }
{
    match *line {
        Line::Does(p, deed) => check_event(n, links, p, deed),
        Line::Commits(_) => Ok(()),
    }
}

/// The next line of a journal by its text, where the lines before it left those messages on their way.
pub fn next_line(n: u32, links: &[Link], text: &[u8]) -> Result<Said, AuditKind>
    requires linked { length links.now ≡ 256 }
    requires few { n ≤ 16 }
    requires counts { (p q : ℕ) → sent_on (way links.now p q) < 2 ^ 32 }
    ensures exact { ReadsLine n links.now text.now result }
    ensures long { IfOk result SaysSixteen }
{
    match read_line(n, text) {
        Err(kind) => Err(kind),
        Ok(Said::End) => Ok(Said::End),
        Ok(Said::Says(line)) => match check(n, links, &line) {
            Ok(()) => Ok(Said::Says(line)),
            Err(kind) => Err(kind),
        },
    }
}

/// The form of a journal, by its count of processes and the last field of its heading: `true` for causal.
fn heading_of(n: u32, form: &[u8]) -> Option<(u32, bool)>
    ensures exact { result ≡ reading.heading_of (Some n) form.now }
    ensures small { IfSome result (λ h. h.0 ≤ 16) }
{
    if n == 0 || n >= 17 {
        return None;
    }
    if form == b"plain".as_slice() {
        return Some((n, false));
    }
    if form == b"causal".as_slice() {
        return Some((n, true));
    }
    None
}

/// The same, by all four fields of the heading.
fn heading_by(name: &[u8], version: &[u8], n: &[u8], form: &[u8]) -> Option<(u32, bool)>
    ensures exact { result ≡ reading.heading_by (name.now ∷ version.now ∷ n.now ∷ form.now ∷ []) }
    ensures small { IfSome result (λ h. h.0 ≤ 16) }
{
    if name != b"dc-journal".as_slice() {
        return None;
    }
    if version != b"1".as_slice() {
        return None;
    }
    heading_of(capped(n)?, form)
}

/// How many processes a journal has and whether it is causal, by its heading.
pub fn heading(text: &[u8]) -> Option<(u32, bool)>
    ensures exact { result ≡ reading.heading_by (fields_of 32 text.now) }
    ensures small { IfSome result (λ h. h.0 ≤ 16) }
{
    let (name, rest) = first_field(b' ', text)?;
    let (version, rest) = first_field(b' ', rest)?;
    let (n, form) = first_field(b' ', rest)?;
    match first_field(b' ', form) {
        Some(_) => None,
        None => heading_by(name, version, n, form),
    }
}
