ghost use Rattle.std.specs.Prelude.{◌≡◌, ◌<◌, ◌==◌, IfSome, length, option_map};
ghost use Rattle.std.specs.List.{list_all, list_any, position};
ghost use Rattle.dc_asm.specs.Source.{bare, cut_at, defined, ended_by, is_blank, is_first, is_further, is_high, is_name, operands_of, line_parts, without_blanks, without_end, without_front};

use dc_words::find;

fn is_blank(c: u8) -> bool
    ensures { result ≡ is_blank c }
{
    c == b' ' || c == b'\t'
}

fn without_front(text: &[u8]) -> &[u8]
    ensures { result.now ≡ without_front text.now }
{
    let mut rest = text;
    while let [c, after @ ..] = rest {
        if !is_blank(*c) {
            return rest;
        }
        rest = after;
    }
    rest
}

fn without_end(text: &[u8]) -> &[u8]
    ensures { result.now ≡ without_end text.now }
{
    let mut end = text.len();
    while end > 0 {
        if !is_blank(text[end - 1]) {
            return &text[..end];
        }
        end -= 1;
    }
    &text[..end]
}

/// A text without the blanks at both ends.
#[tactic(auto, unfolding(crate::specs::Source::without_blanks))]
pub fn without_blanks(text: &[u8]) -> &[u8]
    ensures { result.now ≡ without_blanks text.now }
{
    without_end(without_front(text))
}

/// What stands before the first such byte, and what follows it.
#[tactic(auto, unfolding(crate::specs::Source::cut_at))]
pub fn cut_at(stop: u8, text: &[u8]) -> Option<(&[u8], &[u8])>
    ensures { option_map (λ x. (x.0.now, x.1.now)) result ≡ cut_at stop text.now }
{
    let end = find(stop, text)?;
    Some((&text[..end], &text[end + 1..]))
}

/// A line without its comment and the blanks at its ends.
#[tactic(auto, unfolding(crate::specs::Source::bare))]
pub fn bare(line: &[u8]) -> &[u8]
    ensures { result.now ≡ bare line.now }
{
    match cut_at(b'#', line) {
        Some((code, _)) => without_blanks(code),
        None => without_blanks(line),
    }
}

/// What stands before such a byte at the end.
#[tactic(auto, unfolding(crate::specs::Source::ended_by))]
pub fn ended_by(stop: u8, text: &[u8]) -> Option<&[u8]>
    ensures { option_map (λ x. x.now) result ≡ ended_by stop text.now }
{
    if text.is_empty() {
        return None;
    }
    let last = text.len() - 1;
    if text[last] != stop {
        return None;
    }
    Some(&text[..last])
}

fn is_first(c: u8) -> bool
    ensures { result ≡ is_first c }
{
    c >= b'a' && c <= b'z' || (c >= b'A' && c <= b'Z' || c == b'_')
}

fn is_further(c: u8) -> bool
    ensures { result ≡ is_further c }
{
    is_first(c) || c >= b'0' && c <= b'9'
}

fn are_further(text: &[u8]) -> bool
    ensures { result ≡ list_all is_further text.now }
{
    text.iter().all(|c| is_further(*c))
}

/// A letter or `_`, then letters, digits and `_`, at most 31 in all.
#[tactic(auto, unfolding(crate::specs::Source::is_name))]
pub fn is_name(text: &[u8]) -> bool
    ensures { result ≡ is_name text.now }
{
    match text {
        [] => false,
        [c, rest @ ..] => is_first(*c) && (are_further(rest) && rest.len() < 31),
    }
}

/// The name that a bare line defines.
#[tactic(auto, unfolding(crate::specs::Source::defined))]
pub fn defined(line: &[u8]) -> Option<&[u8]>
    ensures { option_map (λ x. x.now) result ≡ defined line.now }
{
    let name = ended_by(b':', line)?;
    if is_name(name) { Some(name) } else { None }
}

/// Whether a byte stands in a bare line that stands in no instruction.
pub fn has_high(line: &[u8]) -> bool
    ensures { result ≡ list_any is_high line.now }
{
    line.iter().any(|c| *c > 126)
}

/// The mnemonic of a bare line, and the text of its operands.
#[tactic(auto, unfolding(crate::specs::Source::line_parts))]
pub fn line_parts(line: &[u8]) -> (&[u8], &[u8])
    ensures { (result.0.now, result.1.now) ≡ line_parts line.now }
{
    match cut_at(b' ', line) {
        Some(parts) => parts,
        None => (line, &line[line.len()..]),
    }
}
