//! Messages: when receipts are committed, what a full link keeps, and what becomes of a number that is sent again.

ghost use Rattle.std.specs.Prelude.{◌≡◌, ◌<◌, ◌≤◌, ◌+◌, IfSome, length};
ghost use Rattle.dc_proc.specs.Ups.{IsFit};

use super::setting::begin;
use dc_acts::Acts;
use dc_calls::Call;
use dc_checkpoint::Checkpoint;
use dc_guest::Answer;
use dc_links::Message;
use dc_memmedia::MemKeeps;
use dc_proc::{Answered, Up};
use dc_protocols::Protocol;
use dc_vista::Segment;
use std::alloc::Global;
use std::test::Fail;

/// Receives up to 64 bytes to 512, over and over.
const RECEIVER: [u32; 5] = [
    0x0070_0893,
    0x2000_0513,
    0x0400_0593,
    0x0000_0073,
    0xff5f_f06f,
];

/// Sends 4 bytes from 1024 on to process 1, over and over.
const SENDER: [u32; 6] = [
    0x0060_0893,
    0x4000_0593,
    0x0040_0613,
    0x0010_0513,
    0x0000_0073,
    0xff9f_f06f,
];

/// The turns that a test gives a process at most.
const TURNS: u32 = 200;

/// Takes a turn; a request for a message is answered by one of process 0.
fn step<C: Checkpoint>(
    up: &mut Up,
    store: &mut C,
    dev: &mut C::Device,
    t: u32,
    acts: &mut Acts,
) -> Option<()>
    requires fit { IsFit C.Checkpoint up.old store.old dev.old }
    requires room { length acts.old.items < acts.old.room }
    requires few { length acts.old.items ≤ t }
    requires turns { t < 10000 }
    ensures fit { IfSome result (λ x. IsFit C.Checkpoint up.new store.new dev.new) }
    ensures room { acts.old.room ≤ acts.new.room }
    ensures grown { length acts.new.items ≤ length acts.old.items + 1 }
{
    let mut answer = Answer::Plain;
    if let Some(Call::Receive(_, _)) = up.next_call(store, dev) {
        if up.kernel().p() == 0 || up.kernel().n() == 0 {
            return None;
        }
        answer = Answer::ReceiveFrom(0, Message::new(b"hi"));
    }
    if up.has_ended() || !up.has_counts_for(1) || up.is_full(store, dev) {
        return None;
    }
    if !up.may_take(&answer, store, dev) {
        return None;
    }
    match up.turn(store, dev, &Answered { t, answer }, acts, &mut None) {
        Ok(_) => Some(()),
        Err(_) => None,
    }
}

/// Room for the acts of all turns.
fn acts(alloc: Global) -> Option<Acts>
    ensures none { IfSome result (λ acts. length acts.items ≡ 0) }
    ensures room { IfSome result (λ acts. 1000 ≤ acts.room) }
{
    let mut acts = Acts::new(alloc);
    acts.reserve(1000).ok()?;
    Some(acts)
}

/// After so many receipts: the number of the last commit, and how many of them it has.
fn after_receipts<C: Checkpoint + Drop>(
    alloc: Global,
    dev: &mut C::Device,
    receipts: u32,
) -> Option<(u32, u32)> {
    let (mut up, mut store) = begin::<C>(alloc, dev, Protocol::Cbndvs, 2, 1, &RECEIVER)?;
    let mut acts = acts(alloc)?;
    for t in 0..TURNS {
        if up.kernel().n() == 0 {
            return None;
        }
        if up.kernel().received(0) == receipts {
            return Some((up.kernel().commit(), up.committed_receipts(0)));
        }
        step(&mut up, &mut store, dev, t, &mut acts)?;
    }
    None
}

#[test]
fn the_eighth_receipt_is_followed_by_a_commit(rt: HostRuntime) -> Result<(), Fail> {
    for (receipts, expected) in [
        (1, (1, 0)),
        (7, (1, 0)),
        (8, (2, 8)),
        (9, (2, 8)),
        (15, (2, 8)),
        (16, (3, 16)),
    ] {
        let mut keeps = MemKeeps::new(rt.alloc(), Vec::new(rt.alloc()))?;
        match after_receipts::<Segment<MemKeeps>>(rt.alloc(), &mut keeps, receipts) {
            Some(is) if is == expected => {}
            _ => return Err(Fail::new("another commit")),
        }
    }
    Ok(())
}

/// Sends until the link is full, or so much was sent: how much was sent, and how much of it is kept.
fn send<C: Checkpoint>(
    up: &mut Up,
    store: &mut C,
    dev: &mut C::Device,
    acts: &mut Acts,
    upto: u32,
) -> Option<(u32, u32)>
    requires fit { IsFit C.Checkpoint up.old store.old dev.old }
    requires room { length acts.old.items + 200 ≤ acts.old.room }
    requires few { length acts.old.items ≤ 1000 }
    ensures fit { IfSome result (λ x. IsFit C.Checkpoint up.new store.new dev.new) }
    ensures room { acts.old.room ≤ acts.new.room }
    ensures grown { length acts.new.items ≤ length acts.old.items + 200 }
{
    for t in 0..TURNS {
        if up.kernel().n() != 2 {
            return None;
        }
        let sent = up.kernel().links().sent(1);
        if up.is_full(store, dev) || sent == upto {
            return Some((sent, up.kernel().links().kept_count(1)));
        }
        step(up, store, dev, 1000 + t, acts)?;
    }
    None
}

/// Falls, and comes back at its last commit.
fn come_back<C: Checkpoint>(up: Up, store: &mut C, dev: &mut C::Device) -> Option<Up>
    requires fit { IsFit C.Checkpoint up store.old dev.old }
    ensures fit { IfSome result (λ up. IsFit C.Checkpoint up store.new dev.new) }
{
    let down = up.fall(store);
    match down.recover(store, dev) {
        Ok(up) => Some(up),
        Err(_) => None,
    }
}

/// What was sent and what is kept: once the link is full, full again after three messages are known to be committed, and after a
/// recovery and four messages more.
fn kept<C: Checkpoint + Drop>(alloc: Global, dev: &mut C::Device) -> Option<[(u32, u32); 3]> {
    let (mut up, mut store) = begin::<C>(alloc, dev, Protocol::Cbndvs, 2, 0, &SENDER)?;
    let mut acts = acts(alloc)?;
    let full = send(&mut up, &mut store, dev, &mut acts, 100)?;
    if up.kernel().n() != 2 {
        return None;
    }
    up.learn(1, 3);
    let again = send(&mut up, &mut store, dev, &mut acts, 100)?;
    up = come_back(up, &mut store, dev)?;
    if up.kernel().n() != 2 {
        return None;
    }
    up.learn(1, 3);
    let back = send(&mut up, &mut store, dev, &mut acts, 4)?;
    Some([full, again, back])
}

#[test]
fn a_number_that_is_sent_again_is_kept_again(rt: HostRuntime) -> Result<(), Fail> {
    let mut keeps = MemKeeps::new(rt.alloc(), Vec::new(rt.alloc()))?;
    match kept::<Segment<MemKeeps>>(rt.alloc(), &mut keeps) {
        Some(is) if is == [(8, 8), (11, 8), (4, 1)] => Ok(()),
        _ => Err(Fail::new("other messages")),
    }
}
