ghost use Rattle.std.specs.Prelude.{◌≡◌, ◌<◌, ◌^◌, ◌+◌, ◌-◌, ◌++◌, [], Err, List, ℕ, All, OnOk, None, Some, length, map, nat_le, slice_get, ◌&&◌};
ghost use Rattle.dc_acts.specs.Lines.{text_of};
ghost use Rattle.dc_elf.specs.Images.{Image as Images};
ghost use Rattle.dc_guest.specs.Guest.{Guest, guests_of};
ghost use Rattle.dc_model.specs.Drawn.{draws, may_answer};
ghost use Rattle.dc_model.specs.FailureFree.{FailureFree, apply};
ghost use Rattle.dc_model.specs.declared.visible.Visible.{Visible as Records};
ghost use Rattle.dc_elf.specs.Loaded.{CanStart, seen_image};
ghost use Rattle.dc_words.specs.Lists.{lists_of};
ghost use Rattle.dc_plain.specs.Playing.{world_in};
ghost use Rattle.dc_check.specs.Played.{Plays, Stands, played};

use dc_acts::line_of;
use dc_elf::Image;
use dc_links::Message;
use dc_model::{Act, Entry, Taken, Visible};
use dc_plain::{ApplyFault, Plain};
use std::alloc::{AllocError, Global};

/// The lines of visible records, and how many they are.
#[derive(Drop)]
pub struct Lines {
    pub text: Vec<u8>,
    pub count: u32,
}

/// Why acts were not played.
#[derive(Clone, Copy, Debug, PartialEq, Eq)]
pub enum NotPlayed {
    /// The act at that position, from 0 on, was not drawn at its turn or does not apply.
    At(u32),
    /// There was no memory for it.
    Memory,
}

/// Whether a turn's word and clock may answer so, among `n` processes.
fn may_answer(n: u32, word: u32, clock: u64, act: &Act) -> bool
    requires { n < 2 ^ 32 - 1 }
    ensures { result ≡ may_answer n word clock act.now }
{
    match *act {
        Act::Plain | Act::ReceiveNone => true,
        Act::Clock(v) => v == clock,
        Act::Random(v) => v == word,
        Act::InputNone => word % 2 == 0,
        Act::InputNext | Act::InputEnd => word % 2 == 1,
        Act::ReceiveFrom(s) => s == word % (n + 1),
    }
}

/// Whether the entry at the act's turn is a turn of its process that may answer so.
fn draws(n: u32, schedule: &[Entry], taken: &Taken) -> bool
    requires { n < 2 ^ 32 - 1 }
    ensures { result ≡ draws n (slice_get schedule.now taken.now.t) taken.now }
{
    match schedule.get(taken.t as usize) {
        Some(Entry::Turn(turn)) => {
            turn.p == taken.p && may_answer(n, turn.word, turn.clock, &taken.act)
        }
        _ => false,
    }
}

/// Whether an act was drawn at its turn, which is not below `next`.
fn is_drawn(n: u32, schedule: &[Entry], next: u64, taken: &Taken) -> bool
    requires { n < 2 ^ 32 - 1 }
    ensures { result ≡ nat_le next taken.now.t && draws n (slice_get schedule.now taken.now.t) taken.now }
{
    next <= u64::from(taken.t) && draws(n, schedule, taken)
}

/// Adds the lines of records.
fn add_lines(lines: &mut Lines, visibles: &[Visible]) -> Result<(), AllocError>
    requires { lines.old.count + length visibles.now < 2 ^ 32 }
    ensures text { OnOk result (lines.new.text.items ≡ lines.old.text.items ++ text_of visibles.now) }
    ensures count { OnOk result (lines.new.count ≡ lines.old.count + length visibles.now) }
{
    let mut rest = visibles;
    while let [visible, after @ ..] = rest {
        lines.text.extend_from_slice(line_of(visible).as_slice())?;
        lines.count += 1;
        rest = after;
    }
    Ok(())
}

/// Plays an act, and adds the line of what it shows.
fn take(plain: &mut Plain, lines: &mut Lines, taken: &Taken) -> Result<(), ApplyFault>
    requires process { taken.now.p < length plain.old.processes }
    requires bare { plain.old.visibles ≡ [] }
    requires few { ((world_in plain.old).procs taken.now.p).visible < 2 ^ 32 - 1 }
    requires lines { lines.old.count < 2 ^ 32 - 1 }
    ensures applied { OnOk result ((images : List Images) (w : FailureFree Guest) → Stands plain.old lines.old w →
        (v : FailureFree Guest) × (apply (guests_of images plain.old.inputs) w taken.now.p taken.now.act ≡ Some v) × Stands plain.new lines.new v) }
    ensures illegal { result ≡ Err ApplyFault.Illegal → (images : List Images) (w : FailureFree Guest) → Stands plain.old lines.old w →
        apply (guests_of images plain.old.inputs) w taken.now.p taken.now.act ≡ None }
    ensures count { length plain.new.processes ≡ length plain.old.processes }
    ensures inputs { plain.new.inputs ≡ plain.old.inputs }
{
    match plain.apply(taken.p, &taken.act) {
        Ok(_) => {}
        Err(fault) => return Err(fault),
    }
    let Ok(()) = add_lines(lines, plain.visibles()) else {
        return Err(ApplyFault::Memory);
    };
    plain.forget_visibles();
    Ok(())
}

/// Plays acts: the lines of the world that they lead to, or the first act that leads nowhere.
pub fn play(
    alloc: Global,
    images: &[Image],
    inputs: &[Vec<Message>],
    schedule: &[Entry],
    acts: &[Taken],
) -> Result<Lines, NotPlayed>
    requires images { length images.now < 2 ^ 32 - 1 }
    requires good { All CanStart images.now }
    requires processes { All (λ x. x.p < length images.now) acts.now }
    requires few { length acts.now < 2 ^ 32 - 1 }
    ensures { Plays result (played (guests_of (map seen_image images.now) (lists_of inputs.now)) schedule.now acts.now) }
{
    let Ok(mut plain) = Plain::open(alloc, images, inputs) else {
        return Err(NotPlayed::Memory);
    };
    let mut lines = Lines {
        text: Vec::new(alloc),
        count: 0,
    };
    let count = images.len() as u32;
    let mut next: u64 = 0;
    let mut position: u32 = 0;
    let mut rest = acts;
    while let [taken, after @ ..] = rest {
        if !is_drawn(count, schedule, next, taken) {
            return Err(NotPlayed::At(position));
        }
        match take(&mut plain, &mut lines, taken) {
            Ok(()) => {}
            Err(ApplyFault::Illegal) => return Err(NotPlayed::At(position)),
            Err(ApplyFault::Memory) => return Err(NotPlayed::Memory),
        }
        next = u64::from(taken.t) + 1;
        position += 1;
        rest = after;
    }
    Ok(lines)
}
