//! The commits of a turn.

ghost use Rattle.std.specs.Prelude.{◌≡◌, ◌<◌, ◌≤◌, ◌+◌, ◌++◌, false, if◌then◌else◌, length, true};
ghost use Rattle.dc_deeds.specs.Events.{marked_lines, members_of};

use dc_acts::Reserved;
use dc_audit::Line;
use dc_protocols::{Protocol, is_joint};

/// Who commits with process `p` of `n`: all where all commit together, else `p` alone.
pub fn members_with(protocol: Protocol, n: u32, p: u32) -> [bool; 16]
    ensures members { result ≡ members_of protocol n p }
    ensures long { length result ≡ 16 }
{
    let all = is_joint(protocol);
    let mut members = [false; 16];
    for q in 0..16u32 {
        members[q as usize] = (all || p == q) && q < n;
    }
    members
}

/// Adds a commit of these where it is due.
pub fn leave_commit(due: bool, members: &[bool; 16], lines: &mut Reserved<Line>)
    requires room { due ≡ true → length lines.old.items < lines.old.room }
    ensures lines { lines.new.items ≡ lines.old.items ++ marked_lines due members.now }
    ensures room { lines.old.room ≤ lines.new.room }
    ensures count { length lines.new.items ≡ length lines.old.items + (if due then 1 else 0) }
{
    if due {
        lines.push(Line::Commits(*members));
    }
}
