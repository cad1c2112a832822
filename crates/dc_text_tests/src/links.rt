ghost use Rattle.std.specs.Prelude.{◌≡◌, ◌<◌, length};

use crate::holding::holds;
use dc_links::{Links, Message};
use std::test::Fail;

/// Keeps a message of these bytes.
fn keep(links: &mut Links, q: u32, bytes: &[u8]) -> Result<(), Fail>
    requires { q < length links.old }
    ensures { length links.new ≡ length links.old }
{
    if bytes.len() > 64 || links.is_full(q) || links.sent(q) == u32::MAX {
        return Err(Fail::new("no room"));
    }
    links.keep(q, &Message::new(bytes));
    Ok(())
}

/// Keeps a message of each of these bytes.
fn keep_each(links: &mut Links, q: u32, bytes: &[u8]) -> Result<(), Fail>
    requires { q < length links.old }
    ensures { length links.new ≡ length links.old }
{
    for byte in bytes {
        keep(links, q, &[*byte])?;
    }
    Ok(())
}

/// Whether the message of this number is kept, with these bytes.
fn has(links: &Links, q: u32, number: u32, bytes: &[u8]) -> Result<(), Fail>
    requires { q < length links.now }
{
    match links.next_for(q, number) {
        Some(message) => holds(message.as_slice() == bytes, "another message"),
        None => Err(Fail::new("no message")),
    }
}

/// Whether no message of this number is kept.
fn lacks(links: &Links, q: u32, number: u32) -> Result<(), Fail>
    requires { q < length links.now }
{
    holds(links.next_for(q, number).is_none(), "a message")
}

/// Whether so many were sent, and so many of them are kept.
fn counts(links: &Links, q: u32, sent: u32, kept: u32) -> Result<(), Fail>
    requires { q < length links.now }
{
    holds(links.sent(q) == sent, "how many were sent")?;
    holds(links.kept_count(q) == kept, "how many are kept")
}

fn is_full(links: &Links, q: u32, full: bool) -> Result<(), Fail>
    requires { q < length links.now }
{
    holds(links.is_full(q) == full, "full")
}

/// Whether a message is these bytes, with zeros after them up to 64.
fn is_message(message: &Message, bytes: &[u8]) -> Result<(), Fail> {
    holds(message.as_slice() == bytes, "the bytes")?;
    holds(message.as_padded().len() == 64, "the room")?;
    match message.as_padded().strip_prefix(bytes) {
        Some(rest) => holds(rest.iter().all(|byte| *byte == 0), "the zeros"),
        None => Err(Fail::new("the bytes in their room")),
    }
}

#[test]
fn a_message_is_its_bytes_and_zeros_after_them() -> Result<(), Fail> {
    is_message(&Message::new(&[]), &[])?;
    is_message(&Message::new(b"abc"), b"abc")?;
    is_message(&Message::new(&[7; 64]), &[7; 64])
}

#[test]
fn messages_differ_by_their_bytes() -> Result<(), Fail> {
    let full = Message::new(&[7; 64]);
    let copy = full;
    holds(copy == full, "a copy")?;
    holds(copy != Message::new(b"abc"), "other bytes")?;
    holds(Message::new(b"a") != Message::new(b"a\0"), "a zero more")
}

fn is_unused(links: &Links, q: u32) -> Result<(), Fail>
    requires { q < length links.now }
{
    lacks(links, q, 0)?;
    is_full(links, q, false)?;
    counts(links, q, 0, 0)?;
    holds(links.kept(q, 0).is_none(), "a first message")
}

#[test]
fn nothing_is_sent_at_first(rt: HostRuntime) -> Result<(), Fail> {
    let links = Links::new(rt.alloc(), 2)?;
    is_unused(&links, 0)?;
    is_unused(&links, 1)?;
    let _one = Links::new(rt.alloc(), 1)?;
    let _eight = Links::new(rt.alloc(), 8)?;
    Ok(())
}

fn fill(links: &mut Links) -> Result<(), Fail>
    requires { length links.old ≡ 2 }
    ensures { length links.new ≡ 2 }
{
    keep_each(links, 0, &[10, 11, 12, 13, 14, 15, 16])?;
    is_full(links, 0, false)?;
    keep(links, 0, &[])?;
    is_full(links, 0, true)
}

fn has_eight(links: &Links) -> Result<(), Fail>
    requires { length links.now ≡ 2 }
{
    has(links, 0, 0, &[10])?;
    has(links, 0, 6, &[16])?;
    has(links, 0, 7, &[])?;
    lacks(links, 0, 8)?;
    is_full(links, 1, false)?;
    lacks(links, 1, 0)
}

#[test]
fn eight_are_kept_for_each_receiver(rt: HostRuntime) -> Result<(), Fail> {
    let mut links = Links::new(rt.alloc(), 2)?;
    fill(&mut links)?;
    has_eight(&links)?;
    keep(&mut links, 1, &[9; 64])?;
    has(&links, 1, 0, &[9; 64])?;
    counts(&links, 0, 8, 8)?;
    counts(&links, 1, 1, 1)
}

/// Eight messages, of which the first five are dropped.
fn drop_five(links: &mut Links) -> Result<(), Fail>
    requires { length links.old ≡ 2 }
    ensures { length links.new ≡ 2 }
{
    keep_each(links, 0, &[0, 1, 2, 3, 4, 5, 6, 7])?;
    links.trim(0, 1);
    lacks(links, 0, 0)?;
    has(links, 0, 1, &[1])?;
    links.trim(0, 5);
    links.trim(0, 3);
    counts(links, 0, 8, 3)
}

/// Five messages more.
fn go_on(links: &mut Links) -> Result<(), Fail>
    requires { length links.old ≡ 2 }
    ensures { length links.new ≡ 2 }
{
    keep_each(links, 0, &[8, 9, 10, 11, 12])?;
    is_full(links, 0, true)?;
    lacks(links, 0, 4)?;
    has(links, 0, 5, &[5])?;
    has(links, 0, 8, &[8])?;
    has(links, 0, 12, &[12])?;
    lacks(links, 0, 13)
}

/// All are dropped, and one is sent.
fn drop_all(links: &mut Links) -> Result<(), Fail>
    requires { length links.old ≡ 2 }
    ensures { length links.new ≡ 2 }
{
    links.trim(0, u32::MAX);
    counts(links, 0, 13, 0)?;
    lacks(links, 0, 12)?;
    keep(links, 0, b"next")?;
    has(links, 0, 13, b"next")
}

#[test]
fn numbers_go_on_round_the_ring(rt: HostRuntime) -> Result<(), Fail> {
    let mut links = Links::new(rt.alloc(), 2)?;
    keep(&mut links, 1, b"other")?;
    drop_five(&mut links)?;
    go_on(&mut links)?;
    drop_all(&mut links)?;
    has(&links, 1, 0, b"other")?;
    counts(&links, 1, 1, 1)
}

fn restart(links: &mut Links) -> Result<(), Fail>
    requires { length links.old ≡ 2 }
    ensures { length links.new ≡ 2 }
{
    links.restart(0, 41);
    counts(links, 0, 41, 0)?;
    lacks(links, 0, 7)?;
    lacks(links, 0, 41)?;
    keep(links, 0, b"next")?;
    has(links, 0, 41, b"next")
}

#[test]
fn a_link_restarts_at_a_number(rt: HostRuntime) -> Result<(), Fail> {
    let mut links = Links::new(rt.alloc(), 2)?;
    keep_each(&mut links, 0, &[0, 1, 2, 3, 4, 5, 6, 7])?;
    keep(&mut links, 1, b"other")?;
    restart(&mut links)?;
    has(&links, 1, 0, b"other")?;
    counts(&links, 1, 1, 1)
}
