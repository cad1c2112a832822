ghost use Rattle.std.specs.Prelude.{◌≡◌, ◌≤◌, ◌<◌, IfOk, length};
ghost use Rattle.dc_elf.specs.Loaded.{CanStart};

use dc_elf::Image;
use dc_links::Message;
use dc_model::{Act, Body, Visible};
use dc_plain::{ApplyFault, Plain};
use dc_words::bytes_of;
use std::alloc::{AllocError, Global};
use std::test::Fail;

/// Sends the two bytes at 64 to guest 1 and ends with the answer.
const SENDER: [u32; 7] = [
    0x0060_0893,
    0x0010_0513,
    0x0400_0593,
    0x0020_0613,
    0x0000_0073,
    0x0010_0893,
    0x0000_0073,
];

/// Receives at 128, shows as many bytes from there as it is told, and ends with the answer.
const RECEIVER: [u32; 10] = [
    0x0070_0893,
    0x0800_0513,
    0x0400_0593,
    0x0000_0073,
    0x0005_0593,
    0x0800_0513,
    0x0020_0893,
    0x0000_0073,
    0x0010_0893,
    0x0000_0073,
];

/// Asks for an input at 128 and ends with the answer.
const READER: [u32; 6] = [
    0x0030_0893,
    0x0800_0513,
    0x0400_0593,
    0x0000_0073,
    0x0010_0893,
    0x0000_0073,
];

/// Asks for the clock, a random word, its own number and call 9, and runs into a word that codes nothing.
const ASKER: [u32; 9] = [
    0x0040_0893,
    0x0000_0073,
    0x0050_0893,
    0x0000_0073,
    0x0080_0893,
    0x0000_0073,
    0x0090_0893,
    0x0000_0073,
    0x0000_0000,
];

/// A guest of these words from address 0, with two bytes at 64.
fn image(alloc: Global, words: &[u32]) -> Result<Image, AllocError>
    requires { length words.now ≤ 16 }
    ensures { IfOk result CanStart }
{
    let mut memory = vec![in alloc; 0; 256]?;
    bytes_of(words, &mut memory[..4 * words.len()]);
    memory[64..66].copy_from_slice(b"hi");
    Ok(Image { memory, entry: 0 })
}

/// What a letter says that a process is told: `.` nothing, `c` and `C` the clock at 1 and at its last value, `r` and `R` a random
/// word of 1 and the last one, `i` nothing yet, `n` its next input, `e` the end of its inputs, `m` no message, and a digit the message of
/// that process.
fn act_of(letter: u8) -> Option<Act> {
    match letter {
        b'.' => Some(Act::Plain),
        b'c' => Some(Act::Clock(1)),
        b'C' => Some(Act::Clock(u64::MAX)),
        b'r' => Some(Act::Random(1)),
        b'R' => Some(Act::Random(u32::MAX)),
        b'i' => Some(Act::InputNone),
        b'n' => Some(Act::InputNext),
        b'e' => Some(Act::InputEnd),
        b'm' => Some(Act::ReceiveNone),
        b'0'..=b'9' => Some(Act::ReceiveFrom(u32::from(letter - b'0'))),
        _ => None,
    }
}

/// Gives a process an act: whether it was applied.
fn applies(plain: &mut Plain, p: u32, act: &Act) -> Option<bool>
    requires { p < length plain.old.processes }
    ensures { length plain.new.processes ≡ length plain.old.processes }
{
    if plain.visible_count(p) == u32::MAX {
        return None;
    }
    match plain.apply(p, act) {
        Ok(_) => Some(true),
        Err(ApplyFault::Illegal) => Some(false),
        Err(ApplyFault::Memory) => None,
    }
}

/// Gives process `p` acts, each of which is applied or not.
fn tries(plain: &mut Plain, p: u32, acts: &str, applied: bool) -> Result<(), Fail>
    requires { p < length plain.old.processes }
    ensures { length plain.new.processes ≡ length plain.old.processes }
{
    for letter in acts.as_bytes() {
        let Some(act) = act_of(*letter) else {
            return Err(Fail::new("no act"));
        };
        if applies(plain, p, &act) != Some(applied) {
            return Err(Fail::new(acts));
        }
    }
    Ok(())
}

/// Plays guests: each word names a process and acts that it takes, or that it refuses where `-` stands before them.
fn plays(plain: &mut Plain, moves: &str) -> Result<(), Fail> {
    for word in moves.split_whitespace() {
        let Some((p, acts)) = word.split_once(':') else {
            return Err(Fail::new("no process"));
        };
        let p = p.parse::<u32>()?;
        if p as usize >= plain.count() {
            return Err(Fail::new("no such process"));
        }
        match acts.strip_prefix('-') {
            Some(refused) => tries(plain, p, refused, false)?,
            None => tries(plain, p, acts, true)?,
        }
    }
    Ok(())
}

/// The record at an index shows these bytes, as the k-th of process p.
fn shows(plain: &Plain, at: usize, p: u32, k: u32, bytes: &[u8]) -> Result<(), Fail> {
    match plain.visibles().get(at) {
        Some(
            Visible {
                p: process,
                k: number,
                body: Body::Out(text),
            },
        ) if *process == p && *number == k && text.as_slice() == bytes => Ok(()),
        _ => Err(Fail::new("another record")),
    }
}

/// The record at an index is the end of process p, as its k-th, with this code.
fn ends(plain: &Plain, at: usize, p: u32, k: u32, code: u32) -> Result<(), Fail> {
    match plain.visibles().get(at) {
        Some(
            Visible {
                p: process,
                k: number,
                body: Body::End(told),
            },
        ) if *process == p && *number == k && *told == code => Ok(()),
        _ => Err(Fail::new("another end")),
    }
}

/// The record at an index is a trap of process p, its first, of this cause at this pc.
fn traps(plain: &Plain, at: usize, p: u32, cause: u32, pc: u32) -> Result<(), Fail> {
    match plain.visibles().get(at) {
        Some(
            Visible {
                p: process,
                k: 0,
                body: Body::Trap(why, at_pc),
            },
        ) if *process == p && *why == cause && *at_pc == pc => Ok(()),
        _ => Err(Fail::new("another trap")),
    }
}

/// So many records are shown.
fn shows_all(plain: &Plain, count: usize) -> Result<(), Fail> {
    if plain.visibles().len() == count {
        Ok(())
    } else {
        Err(Fail::new("more records, or fewer"))
    }
}

#[test]
fn a_message_goes_from_guest_to_guest(rt: HostRuntime) -> Result<(), Fail> {
    let images = [image(rt.alloc(), &SENDER)?, image(rt.alloc(), &RECEIVER)?];
    let mut plain = Plain::open(rt.alloc(), &images, &[])?;
    plays(
        &mut plain,
        "1:... 1:-012 0:..... 1:-12 1:0 1:...... 0:.. 0:-.c 1:-.m",
    )?;
    shows(&plain, 0, 1, 0, b"hi")?;
    ends(&plain, 1, 1, 1, 2)?;
    ends(&plain, 2, 0, 0, 2)?;
    shows_all(&plain, 3)
}

#[test]
fn each_message_is_received_once(rt: HostRuntime) -> Result<(), Fail> {
    let images = [image(rt.alloc(), &SENDER)?, image(rt.alloc(), &READER)?];
    let mut plain = Plain::open(rt.alloc(), &images, &[])?;
    plays(&mut plain, "0:..... 1:... 1:-0m 1:i 1:..")?;
    ends(&plain, 0, 1, 0, 4294967295)?;
    shows_all(&plain, 1)
}

#[test]
fn an_input_is_taken_where_one_is_left(rt: HostRuntime) -> Result<(), Fail> {
    let images = [image(rt.alloc(), &READER)?, image(rt.alloc(), &READER)?];
    let mut some = Vec::new(rt.alloc());
    some.push(Message::new(b"abc"))?;
    let inputs = [some, Vec::new(rt.alloc())];
    let mut plain = Plain::open(rt.alloc(), &images, &inputs)?;
    plays(&mut plain, "0:... 1:... 0:-e.r 1:-n 0:n.. 1:e..")?;
    ends(&plain, 0, 0, 0, 3)?;
    ends(&plain, 1, 1, 0, 4294967294)?;
    shows_all(&plain, 2)
}

#[test]
fn an_act_answers_events_of_its_kind(rt: HostRuntime) -> Result<(), Fail> {
    let images = [image(rt.alloc(), &ASKER)?];
    let mut plain = Plain::open(rt.alloc(), &images, &[])?;
    plays(
        &mut plain,
        "0:-crinem0 0:. 0:-.ri 0:C. 0:-.cm 0:R 0:.... 0:-crinem0 0:. 0:-.",
    )?;
    traps(&plain, 0, 0, 2, 32)?;
    shows_all(&plain, 1)
}
