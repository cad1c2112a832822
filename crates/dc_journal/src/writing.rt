ghost use Rattle.std.specs.Prelude.{◌≡◌, ◌≤◌, ◌<◌, ◌+◌, ◌++◌, ◌∷◌, ◌||◌, [], codes, decimal, length, if◌then◌else◌};
ghost use Rattle.std.specs.List.{All, flat_map};
ghost use Rattle.dc_audit.specs.Journals.{IsOfSixteen};
ghost use Rattle.dc_report.specs.declared.writing.TheConstants.{FULL};
ghost use Rattle.dc_media.specs.Causes.{HasCause};
ghost use Rattle.dc_media.specs.Sinks.{TakesWhole};
ghost use Rattle.dc_media.specs.Told.{TellsOn};
ghost use Rattle.dc_journal.specs.Pieces.{last_text, next_text};
ghost use Rattle.dc_journal.specs.Texts.{deed_text, heading_text, journal_text, line_text, logging_text, members_text, whole_text};

use dc_acts::Line as Text;
use dc_audit::{Deed, Line};
use dc_media::{Sink, SinkFailed, write_whole};
use dc_report::{FULL, make_room};

/// Adds a number behind its name.
fn push_named(text: &mut Text, name: &[u8], number: u64)
    requires text { length text.old ≤ 600 }
    requires name { length name.now ≤ 13 }
    ensures text { text.new ≡ text.old ++ (name.now ++ decimal number) }
    ensures length { length text.new ≤ length text.old + 33 }
{
    text.push(name);
    text.push_number(number);
}

/// Adds a number and a blank behind it.
fn push_spaced(text: &mut Text, number: u64)
    requires { length text.old ≤ 600 }
    ensures text { text.new ≡ text.old ++ (decimal number ++ codes " ") }
    ensures length { length text.new ≤ length text.old + 21 }
{
    text.push_number(number);
    text.push(b" ");
}

/// Adds a message that was sent.
fn push_send(text: &mut Text, to: u64, number: u64)
    requires { length text.old ≤ 540 }
    ensures text { text.new ≡ text.old ++ (codes "send " ++ decimal to ++ codes " " ++ decimal number) }
    ensures length { length text.new ≤ length text.old + 70 }
{
    text.push(b"send ");
    push_spaced(text, to);
    text.push_number(number);
}

/// Adds whether a log has what was received.
fn push_logging(text: &mut Text, logged: bool)
    requires { length text.old ≤ 600 }
    ensures text { text.new ≡ text.old ++ logging_text logged }
    ensures length { length text.new ≤ length text.old + 6 }
{
    if logged {
        text.push(b"logged");
        return;
    }
    text.push(b"nd");
}

/// Adds a message that was received.
fn push_receipt(text: &mut Text, from: u64, number: u64, logged: bool)
    requires { length text.old ≤ 540 }
    ensures text { text.new ≡ text.old ++ (codes "receive " ++ decimal from ++ codes " " ++ decimal number ++ codes " " ++ logging_text logged) }
    ensures length { length text.new ≤ length text.old + 70 }
{
    text.push(b"receive ");
    push_spaced(text, from);
    push_spaced(text, number);
    push_logging(text, logged);
}

/// Adds what a process did.
fn push_deed(text: &mut Text, deed: Deed)
    requires { length text.old ≤ 540 }
    ensures text { text.new ≡ text.old ++ deed_text deed }
    ensures length { length text.new ≤ length text.old + 70 }
{
    match deed {
        Deed::Chance => text.push(b"nd"),
        Deed::Logged => text.push(b"logged"),
        Deed::Visible => text.push(b"visible"),
        Deed::Sends(q, k) => push_send(text, u64::from(q), u64::from(k)),
        Deed::Receives(s, k, logged) => push_receipt(text, u64::from(s), u64::from(k), logged),
    }
}

/// Adds the number of a process.
fn push_process(text: &mut Text, p: u64)
    requires process { p < 16 }
    requires text { length text.old ≤ 620 }
    ensures text { text.new ≡ text.old ++ decimal p }
    ensures length { length text.new ≤ length text.old + 2 }
{
    text.push_number(p);
}

/// Adds a process of a list, with a comma before it where it is not the first.
fn push_member(text: &mut Text, later: bool, p: u64)
    requires process { p < 16 }
    requires text { length text.old ≤ 600 }
    ensures text { text.new ≡ text.old ++ next_text later p }
    ensures length { length text.new ≤ length text.old + 3 }
{
    if later {
        text.push(b",");
    }
    push_process(text, p);
}

/// Adds a process where it is marked, and answers whether there is one now.
fn push_marked(text: &mut Text, later: bool, marked: bool, p: u64) -> bool
    requires process { p < 16 }
    requires text { length text.old ≤ 600 }
    ensures text { text.new ≡ text.old ++ (if marked then next_text later p else []) }
    ensures length { length text.new ≤ length text.old + 3 }
    ensures later { result ≡ (later || marked) }
{
    if marked {
        push_member(text, later, p);
        return true;
    }
    later
}

/// Adds the processes that are marked.
fn push_members(text: &mut Text, members: &[bool])
    requires members { length members.now ≤ 16 }
    requires text { length text.old ≤ 520 }
    ensures text { text.new ≡ text.old ++ members_text members.now }
    ensures length { length text.new ≤ length text.old + 48 }
{
    let mut later = false;
    for p in 0..members.len() {
        later = push_marked(text, later, members[p], p as u64);
    }
}

/// Adds a line.
fn push_line(text: &mut Text, line: &Line)
    requires line { IsOfSixteen line.now }
    requires text { length text.old ≤ FULL }
    ensures { text.new ≡ text.old ++ line_text line.now }
{
    match *line {
        Line::Does(p, deed) => push_event(text, u64::from(p), deed),
        Line::Commits(members) => push_commit(text, &members),
    }
}

/// Adds an event of a process.
fn push_event(text: &mut Text, p: u64, deed: Deed)
    requires { length text.old ≤ FULL }
    ensures { text.new ≡ text.old ++ (codes "e " ++ decimal p ++ codes " " ++ deed_text deed ++ 10 ∷ []) }
{
    text.push(b"e ");
    push_spaced(text, p);
    push_deed(text, deed);
    text.push(b"\n");
}

/// Adds a commit.
fn push_commit(text: &mut Text, members: &[bool])
    requires members { length members.now ≤ 16 }
    requires text { length text.old ≤ FULL }
    ensures { text.new ≡ text.old ++ (codes "commit " ++ members_text members.now ++ 10 ∷ []) }
{
    text.push(b"commit ");
    push_members(text, members);
    text.push(b"\n");
}

/// The form of a journal, with a blank before it and its line feed.
fn form(causal: bool) -> &'static [u8]
    ensures form { result.now ≡ (if causal then codes " causal" else codes " plain") ++ 10 ∷ [] }
    ensures length { length result.now ≤ 8 }
{
    if causal {
        return b" causal\n";
    }
    b" plain\n"
}

/// The first line.
fn heading(n: u32, causal: bool) -> Text
    ensures { result ≡ heading_text n causal }
{
    let mut text = Text::new();
    push_named(&mut text, b"dc-journal 1 ", u64::from(n));
    text.push(form(causal));
    text
}

/// The last line, where there is one.
fn last_line(whole: bool) -> &'static [u8]
    ensures { result.now ≡ last_text whole }
{
    if whole {
        return b"end\n";
    }
    b""
}

fn write_lines<R: Sink>(to: &mut R, lines: &[Line]) -> Result<(), SinkFailed>
    requires { All IsOfSixteen lines.now }
    ensures held { TakesWhole (flat_map line_text lines.now) result (R.held to.old) (R.held to.new) }
    ensures tells { TellsOn 0 (R.faults to.new) (R.held to.old) (R.held to.new) }
    ensures cause { HasCause (R.faults to.old) (R.faults to.new) result }
{
    let mut text = Text::new();
    for line in lines {
        make_room(to, &mut text)?;
        push_line(&mut text, line);
    }
    write_whole(to, text.as_slice())
}

/// Writes the journal of so many processes; where `whole`, with its last line `end`. A fault leaves a front of it written.
pub fn write_journal<R: Sink>(
    to: &mut R,
    n: u32,
    causal: bool,
    lines: &[Line],
    whole: bool,
) -> Result<(), SinkFailed>
    requires { All IsOfSixteen lines.now }
    ensures held { TakesWhole (if whole then whole_text n causal lines.now else journal_text n causal lines.now) result (R.held to.old) (R.held to.new) }
    ensures tells { TellsOn 0 (R.faults to.new) (R.held to.old) (R.held to.new) }
    ensures cause { HasCause (R.faults to.old) (R.faults to.new) result }
{
    write_whole(to, heading(n, causal).as_slice())?;
    write_lines(to, lines)?;
    write_whole(to, last_line(whole))
}
