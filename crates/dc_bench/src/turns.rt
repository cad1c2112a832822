//! Turns of one process over its store: of a guest that computes, and of one that shows. Beside them the stores of words that the
//! device of such a process takes, made by a plain loop.

ghost use Rattle.std.specs.Prelude.{◌≡◌, ◌<◌, ◌≤◌, ◌+◌, ◌-◌, ◌*◌, ◌^◌, IfSome, OnOk, length};
ghost use Rattle.dc_checkpoint.specs.Handles.{IsSame};
ghost use Rattle.dc_proc.specs.Events.{HasCountsFor};
ghost use Rattle.dc_proc.specs.Ups.{IsFit};

use crate::work::{first, made};
use dc_acts::Acts;
use dc_checkpoint::{CheckFault, Checkpoint};
use dc_guest::Answer;
use dc_media::{Keeps, STORES};
use dc_proc::{Answered, Up};
use dc_protocols::Protocol;
use std::alloc::Global;

/// A guest that counts, mixes, stores a word and begins again.
pub const COMPUTING: [u32; 4] = [0x0012_8293, 0x0053_4333, 0x2060_2023, 0xff5f_f06f];

/// A guest that shows 16 bytes over and over.
pub const SHOWING: [u32; 4] = [0x0020_0893, 0x0100_0593, 0x0000_0073, 0xffdf_f06f];

/// Writes the words of a guest from the beginning of the memory on.
fn write<C: Checkpoint>(
    store: &mut C,
    dev: &mut C::Device,
    words: &[u32; 4],
) -> Result<(), CheckFault>
    requires size { 4 ≤ C.size store.old }
    requires lent { C.lent store.old dev.old }
    requires ready { C.ready store.old dev.old }
    ensures same { IsSame C.Checkpoint store.old store.new }
    ensures lent { C.lent store.new dev.new }
    ensures ready { OnOk result (C.ready store.new dev.new) }
    ensures number { OnOk result ((C.number store.new ≡ C.number store.old) × (C.logged store.new ≡ C.logged store.old)) }
{
    store.store(dev, 0, words[0], u32::MAX)?;
    store.store(dev, 1, words[1], u32::MAX)?;
    store.store(dev, 2, words[2], u32::MAX)?;
    store.store(dev, 3, words[3], u32::MAX)
}

/// A process at these words, and its store.
fn begin<C: Checkpoint + Drop>(
    alloc: Global,
    dev: &mut C::Device,
    protocol: Protocol,
    words: &[u32; 4],
) -> Option<(Up, C)>
    ensures fit { IfSome result (λ begun. IsFit C.Checkpoint begun.0 begun.1 dev.new) }
{
    let Ok((kernel, _text)) = first(alloc) else {
        return None;
    };
    let mut store = made::<C>(alloc, dev, &kernel, 16)?;
    if write(&mut store, dev, words).is_err() {
        return None;
    }
    match Up::new(alloc, protocol, 65_536, kernel) {
        Ok(up) => Some((up, store)),
        Err(_) => None,
    }
}

/// A turn of a guest that asks for nothing.
fn turn<C: Checkpoint>(
    up: &mut Up,
    store: &mut C,
    dev: &mut C::Device,
    t: u32,
    acts: &mut Acts,
) -> Option<()>
    requires fit { IsFit C.Checkpoint up.old store.old dev.old }
    requires room { length acts.old.items < acts.old.room }
    requires few { length acts.old.items ≤ t }
    requires turns { t < 2 ^ 32 - 1 }
    ensures fit { IfSome result (λ x. IsFit C.Checkpoint up.new store.new dev.new) }
    ensures room { acts.old.room ≤ acts.new.room }
    ensures grown { length acts.new.items ≤ length acts.old.items + 1 }
{
    if up.has_ended() || !up.has_counts_for(1) || up.is_full(store, dev) {
        return None;
    }
    if !up.may_take(&Answer::Plain, store, dev) {
        return None;
    }
    let answered = Answered {
        t,
        answer: Answer::Plain,
    };
    match up.turn(store, dev, &answered, acts, &mut None) {
        Ok(_) => Some(()),
        Err(_) => None,
    }
}

/// Takes so many turns.
pub fn turns<C: Checkpoint + Drop>(
    alloc: Global,
    dev: &mut C::Device,
    protocol: Protocol,
    words: &[u32; 4],
    count: u32,
) -> Option<()>
    requires few { count < 2 ^ 32 - 1 }
{
    let (mut up, mut store) = begin::<C>(alloc, dev, protocol, words)?;
    let mut acts = Acts::new(alloc);
    if acts.reserve(count as usize).is_err() {
        return None;
    }
    for t in 0..count {
        turn(&mut up, &mut store, dev, t, &mut acts)?;
    }
    Some(())
}

/// Makes so many stores of words over a store of 4096 words, one after the other.
pub fn stores<K: Keeps>(alloc: Global, keeps: &mut K, p: u32, count: u32) -> Option<()>
    requires { p < STORES }
{
    if keeps.format(alloc, p, 4096).is_err() {
        return None;
    }
    for i in 0..count {
        if keeps.store(p, i % 4096, i).is_err() {
            return None;
        }
    }
    Some(())
}
