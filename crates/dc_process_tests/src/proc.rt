//! A process under each protocol, stopped at each call of its store's device.

ghost use Rattle.std.specs.Prelude.{◌≡◌, ◌*◌, ◌<◌, ◌≤◌, IfOk, IfSome, length};
ghost use Rattle.dc_elf.specs.Loaded.{CanStart};
ghost use Rattle.dc_proc.specs.Ups.{IsFit};

mod messages;
mod setting;

use dc_acts::Acts;
use dc_calls::Call;
use dc_checkpoint::Checkpoint;
use dc_elf::Image;
use dc_guest::Answer;
use dc_links::Message;
use dc_media::{DeviceFault, Tear};
use dc_memmedia::{ListedCall, MemKeeps};
use dc_model::{Act, Body, Taken, Visible};
use dc_plain::Plain;
use dc_proc::{Answered, Down, Up, processes_stand};
use dc_protocols::Protocol;
use dc_vista::Segment;
use dc_words::bytes_of;
use setting::begin;
use std::alloc::{AllocError, Global};
use std::test::Fail;

/// Asks for the clock, an input of up to 64 bytes to 1040, and a random word, stores what it was told from 1024 on, shows 16 bytes
/// from there, and begins again.
const ASKER: [u32; 16] = [
    0x0040_0893,
    0x0000_0073,
    0x40a0_2023,
    0x0030_0893,
    0x4100_0513,
    0x0400_0593,
    0x0000_0073,
    0x40a0_2223,
    0x0050_0893,
    0x0000_0073,
    0x0020_0893,
    0x4000_0513,
    0x0100_0593,
    0x0000_0073,
    0x0000_0013,
    0xfc5f_f06f,
];

/// Asks for input over and over.
const POLLER: [u32; 5] = [
    0x0030_0893,
    0x2000_0513,
    0x0400_0593,
    0x0000_0073,
    0xff5f_f06f,
];

/// The inputs of the guest.
const INPUTS: [&[u8]; 2] = [b"one", b"four"];

/// A run so far: the acts, one past the last of them that was shown, and what was shown without repeats.
#[derive(Drop)]
struct Course {
    acts: Acts,
    exposed: u32,
    lines: Vec<Visible>,
}

/// The input of a number.
fn input(index: u32) -> Answer {
    match INPUTS.get(index as usize) {
        Some(bytes) if bytes.len() <= 64 => Answer::InputNext(Message::new(bytes)),
        _ => Answer::InputEnd,
    }
}

/// An act as it is answered again.
fn again(act: &Act, index: u32) -> Option<Answer> {
    match *act {
        Act::Plain => Some(Answer::Plain),
        Act::Clock(clock) => Some(Answer::Clock(clock)),
        Act::Random(word) => Some(Answer::Random(word)),
        Act::InputNone => Some(Answer::InputNone),
        Act::InputNext => Some(input(index)),
        Act::InputEnd => Some(Answer::InputEnd),
        Act::ReceiveNone | Act::ReceiveFrom(_) => None,
    }
}

/// What a new call is answered at a turn.
fn drawn(call: Option<Call>, t: u32, index: u32) -> Answer {
    match call {
        Some(Call::Clock) => Answer::Clock(u64::from(t)),
        Some(Call::Random) => Answer::Random(t),
        Some(Call::Input(_, _)) if t % 3 == 0 => Answer::InputNone,
        Some(Call::Input(_, _)) => input(index),
        _ => Answer::Plain,
    }
}

/// The answer of the next event: the act that is there, or a new one.
fn answer<C: Checkpoint>(up: &Up, store: &C, dev: &C::Device, t: u32, acts: &Acts) -> Option<Answer>
    requires fit { IsFit C.Checkpoint up.now store.now dev.now }
{
    let inputs_taken = up.kernel().inputs_taken();
    let at = up.kernel().position();
    if at < acts.len() {
        return again(&acts.at(at).act, inputs_taken);
    }
    Some(drawn(up.next_call(store, dev), t, inputs_taken))
}

/// Whether two records show the same.
fn is_same(one: &Body, other: &Body) -> bool {
    match (one, other) {
        (Body::Out(one), Body::Out(other)) => one.as_slice() == other.as_slice(),
        (Body::End(one), Body::End(other)) => one == other,
        (Body::Trap(one, at), Body::Trap(other, pc)) => one == other && at == pc,
        _ => false,
    }
}

impl Course {
    /// Nothing yet.
    fn new(alloc: Global) -> Course {
        Course {
            acts: Acts::new(alloc),
            exposed: 0,
            lines: Vec::new(alloc),
        }
    }

    /// Notes what was shown: the next record, or one that was shown before.
    fn note(&mut self, shown: Option<Visible>, position: u32) -> Option<()> {
        let Some(shown) = shown else {
            return Some(());
        };
        self.exposed = self.exposed.max(position);
        if let Some(line) = self.lines.get(shown.k as usize) {
            return is_same(&line.body, &shown.body).then_some(());
        }
        if shown.p != 0 || shown.k as usize != self.lines.len() {
            return None;
        }
        self.lines.push(shown).ok()
    }
}

/// Recovers: the acts that were not exposed and are not saved are gone.
fn rise<C: Checkpoint>(
    down: Down,
    store: &mut C,
    dev: &mut C::Device,
    course: &mut Course,
) -> Option<Up>
    requires lent { C.lent store.old dev.old }
    requires of { (down.n ≡ (C.form store.old).n) × (down.p ≡ (C.form store.old).p) }
    requires sized { down.size ≡ 4 * C.size store.old }
    ensures fit { IfSome result (λ up. IsFit C.Checkpoint up store.new dev.new) }
{
    let Ok(up) = down.recover(store, dev) else {
        return None;
    };
    let reach = up.kernel().position().max(up.log_end()).max(course.exposed);
    course.acts.cut(0, reach);
    Some(up)
}

/// Takes a turn, and recovers where it was stopped.
fn step<C: Checkpoint>(
    up: Up,
    store: &mut C,
    dev: &mut C::Device,
    t: u32,
    course: &mut Course,
) -> Option<Up>
    requires fit { IsFit C.Checkpoint up store.old dev.old }
    ensures fit { IfSome result (λ up. IsFit C.Checkpoint up store.new dev.new) }
{
    let answer = answer(&up, store, dev, t, &course.acts)?;
    if up.has_ended() || !up.has_counts_for(1) || up.kernel().commit() > 1000 {
        return None;
    }
    if up.is_full(store, dev) || !up.may_take(&answer, store, dev) {
        return None;
    }
    if matches!(answer, Answer::ReceiveFrom(_, _)) || course.acts.len() > 100_000 {
        return None;
    }
    course.acts.reserve(1).ok()?;
    let mut up = up;
    let mut shown = None;
    match up.turn(
        store,
        dev,
        &Answered { t, answer },
        &mut course.acts,
        &mut shown,
    ) {
        Ok(_) => {
            course.note(shown, up.kernel().position())?;
            Some(up)
        }
        Err(_fault) => {
            let down = up.fall(store);
            rise(down, store, dev, course)
        }
    }
}

/// So many turns of a guest of these words.
fn play<C: Checkpoint + Drop>(
    alloc: Global,
    dev: &mut C::Device,
    protocol: Protocol,
    words: &[u32],
    turns: u32,
) -> Option<Course>
    requires short { length words.now ≤ 64 }
{
    let (mut up, mut store) = begin::<C>(alloc, dev, protocol, 1, 0, words)?;
    let mut course = Course::new(alloc);
    for t in 0..turns {
        up = step(up, &mut store, dev, t, &mut course)?;
    }
    Some(course)
}

/// So many turns of a guest of these words, a stop behind them, and the recovery: the position, and how many acts are left.
fn play_and_fall<C: Checkpoint + Drop>(
    alloc: Global,
    dev: &mut C::Device,
    protocol: Protocol,
    words: &[u32],
    turns: u32,
) -> Option<(u32, u32)>
    requires short { length words.now ≤ 64 }
{
    let (mut up, mut store) = begin::<C>(alloc, dev, protocol, 1, 0, words)?;
    let mut course = Course::new(alloc);
    for t in 0..turns {
        up = step(up, &mut store, dev, t, &mut course)?;
    }
    let down = up.fall(&mut store);
    let up = rise(down, &mut store, dev, &mut course)?;
    Some((up.kernel().position(), course.acts.len()))
}

/// A guest of these words.
fn image(alloc: Global, words: &[u32]) -> Result<Image, AllocError>
    requires { length words.now ≤ 64 }
    ensures { IfOk result CanStart }
{
    let mut memory = vec![in alloc; 0; 4096]?;
    bytes_of(words, &mut memory[..4 * words.len()]);
    Ok(Image { memory, entry: 0 })
}

/// The inputs, as the plain guest takes them.
fn inputs(alloc: Global) -> Result<Vec<Message>, AllocError> {
    let mut messages = Vec::new(alloc);
    for bytes in INPUTS {
        if bytes.len() <= 64 {
            messages.push(Message::new(bytes))?;
        }
    }
    Ok(messages)
}

/// Lets the plain guest take the acts.
fn apply_all(plain: &mut Plain, acts: &[Taken]) -> Result<(), Fail>
    requires { 0 < length plain.old.processes }
{
    for taken in acts {
        if plain.visible_count(0) == u32::MAX {
            return Err(Fail::new("too many records"));
        }
        if plain.apply(0, &taken.act).is_err() {
            return Err(Fail::new("no act of the guest"));
        }
    }
    Ok(())
}

/// The acts are a run of the guest by itself, and what was shown without repeats is what that shows.
fn is_plain(alloc: Global, words: &[u32], course: &Course) -> Result<(), Fail>
    requires { length words.now ≤ 64 }
{
    let images = [image(alloc, words)?];
    let given = [inputs(alloc)?];
    let mut plain = Plain::open(alloc, &images, &given)?;
    apply_all(&mut plain, course.acts.as_slice())?;
    let shown = plain.visibles();
    if shown.len() != course.lines.len() {
        return Err(Fail::new("more records, or fewer"));
    }
    for (one, other) in shown.iter().zip(course.lines.iter()) {
        if !is_same(&one.body, &other.body) {
            return Err(Fail::new("another record"));
        }
    }
    Ok(())
}

/// A run of 48 turns of which a call is stopped, if one is; how many calls it made.
fn stopped(
    alloc: Global,
    protocol: Protocol,
    turns: u32,
    stop: Option<(u64, u32)>,
) -> Result<u64, Fail> {
    let mut listed = Vec::new(alloc);
    if let Some((call, keep)) = stop {
        listed.push(ListedCall {
            process: 0,
            call,
            fault: DeviceFault::Stopped,
            tear: Tear { keep, fill: None },
        })?;
    }
    let mut keeps = MemKeeps::new(alloc, listed)?;
    let Some(course) = play::<Segment<MemKeeps>>(alloc, &mut keeps, protocol, &ASKER, turns) else {
        return Err(Fail::new("no run"));
    };
    is_plain(alloc, &ASKER, &course)?;
    Ok(keeps.calls(0))
}

/// A stop at each call of the turns.
fn stopped_everywhere(alloc: Global, protocol: Protocol) -> Result<(), Fail> {
    let opening = stopped(alloc, protocol, 0, None)?;
    let all = stopped(alloc, protocol, 48, None)?;
    for call in opening..all {
        stopped(alloc, protocol, 48, Some((call.saturating_add(1), 0)))?;
        stopped(alloc, protocol, 48, Some((call.saturating_add(1), 1)))?;
    }
    Ok(())
}

#[test]
fn a_process_under_each_protocol_comes_back(rt: HostRuntime) -> Result<(), Fail> {
    for protocol in [
        Protocol::Cand,
        Protocol::CandLog,
        Protocol::Cpvs,
        Protocol::Cbndvs,
        Protocol::CbndvsLog,
        Protocol::Cpv2pc,
        Protocol::Cbndv2pc,
    ] {
        stopped_everywhere(rt.alloc(), protocol)?;
    }
    Ok(())
}

/// A stop after so many turns of the poller: where it comes back, and how many acts are left.
fn comes_back(alloc: Global, turns: u32, expected: (u32, u32)) -> Result<(), Fail> {
    let mut keeps = MemKeeps::new(alloc, Vec::new(alloc))?;
    match play_and_fall::<Segment<MemKeeps>>(alloc, &mut keeps, Protocol::CandLog, &POLLER, turns) {
        Some(back) if back == expected => Ok(()),
        _ => Err(Fail::new("another position")),
    }
}

#[test]
fn a_commit_comes_before_the_record_that_a_log_has_no_room_for(
    rt: HostRuntime,
) -> Result<(), Fail> {
    comes_back(rt.alloc(), 260, (259, 260))?;
    comes_back(rt.alloc(), 259, (0, 256))
}

#[test]
fn the_laws_are_there(_rt: HostRuntime) -> Result<(), Fail> {
    processes_stand();
    Ok(())
}
