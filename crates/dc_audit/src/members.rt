ghost use Rattle.std.specs.Prelude.{◌≡◌, ◌≤◌, ℕ, [], Some, IfOk};
ghost use Rattle.dc_words.specs.Texts.{fields_of};
ghost use Rattle.dc_audit.specs.Reading.{Marks, SaysSixteen, commit_left, commit_of, listed, rising};

use crate::fault::AuditKind;
use crate::fields::capped;
use crate::journal::Line;
use crate::said::Said;
use dc_words::first_field;

/// Marks the process that a part of a list names, and answers the least that may come next; none where the part is no number, or does not
/// rise. Of a process that is not below `n` it only notes that there was one.
fn mark(n: u32, low: u64, part: &[u8], members: &mut [bool; 16], outside: &mut bool) -> Option<u64>
    requires { n ≤ 16 }
    ensures { Marks n low part.now (listed members.old outside.old) result (listed members.new outside.new) }
{
    let p = capped(part)?;
    if u64::from(p) < low {
        return None;
    }
    if p >= n {
        *outside = true;
        return Some(u64::from(p) + 1);
    }
    members[p as usize] = true;
    Some(u64::from(p) + 1)
}

/// The commit of these members, unless a process was named that is not there.
fn commit_with(members: [bool; 16], outside: bool) -> Result<Said, AuditKind>
    ensures exact { (n : ℕ) → result ≡ commit_left n members outside (Some []) }
    ensures long { IfOk result SaysSixteen }
{
    if outside {
        return Err(AuditKind::Process);
    }
    Ok(Said::Says(Line::Commits(members)))
}

/// The commit of processes below `n`, by the text of their list.
pub fn commit(n: u32, list: &[u8]) -> Result<Said, AuditKind>
    requires { n ≤ 16 }
    ensures exact { result ≡ commit_of n (rising 0 (fields_of 44 list.now)) }
    ensures long { IfOk result SaysSixteen }
{
    let mut members = [false; 16];
    let mut outside = false;
    let mut low: u64 = 0;
    let mut rest = list;
    while let Some((part, after)) = first_field(b',', rest) {
        let Some(next) = mark(n, low, part, &mut members, &mut outside) else {
            return Err(AuditKind::Form);
        };
        low = next;
        rest = after;
    }
    match mark(n, low, rest, &mut members, &mut outside) {
        None => Err(AuditKind::Form),
        Some(_) => commit_with(members, outside),
    }
}
