//! The lines of the next turn of a process.

ghost use Rattle.std.specs.Prelude.{◌≡◌, ◌<◌, ◌≤◌, ◌+◌, ◌++◌, List, Some, false, length, slice_get, take, true};
ghost use Rattle.std.specs.List.{All};
ghost use Rattle.dc_audit.specs.Journals.{IsOfSixteen};
ghost use Rattle.dc_deeds.specs.Deeds.{Leaves};
ghost use Rattle.dc_deeds.specs.Events.{HasReceiver, deed_lines, have_unlogged, lines_by};
ghost use Rattle.dc_proc.specs.Ups.{IsFit, IsWhole};
ghost use Rattle.dc_proc.specs.declared.up.Up.{Up as Ups};
ghost use Rattle.dc_processes.specs.Answers.{HasCallRoom};
ghost use Rattle.dc_processes.specs.Processes.{IsWell};
ghost use Rattle.dc_processes.specs.Slots.{is_up, slot_at};
ghost use Rattle.dc_processes.specs.Stages.{stage_of};
ghost use Rattle.dc_processes.specs.declared.slot.Slot.TheVariants as slots;

use crate::marking::{leave_commit, members_with};
use crate::telling::{event_deed, is_chance};
use dc_acts::Reserved;
use dc_audit::{Deed, Line};
use dc_calls::Call;
use dc_checkpoint::Checkpoint;
use dc_model::Turn;
use dc_proc::Up;
use dc_processes::{Processes, Slot};
use dc_protocols::Rule;

/// Whether any process that is up had an unlogged nondeterministic event since its last commit.
fn any_unlogged(processes: &Processes) -> bool
    ensures { result ≡ have_unlogged processes.now.slots.items }
{
    processes
        .slots
        .iter()
        .any(|slot| matches!(slot, Some(Slot::Up(up)) if up.unlogged()))
}

/// Whether a call is a send for whose receiver as many messages are kept as there may be.
fn is_blocked(up: &Up, call: Option<Call>) -> bool
    requires whole { IsWhole up.now }
    requires receiver { HasReceiver up.now.kernel call }
    ensures blocked { result ≡ true → HasCallRoom up.now.kernel call → ⊥ }
    ensures room { result ≡ false → HasCallRoom up.now.kernel call }
{
    match call {
        Some(Call::Send(q, _, _)) => up.kernel().links().is_full(q),
        _ => false,
    }
}

/// Adds the line of an event of process `p`, if it has one.
fn leave_event(p: u32, deed: Option<Deed>, lines: &mut Reserved<Line>)
    requires room { length lines.old.items < lines.old.room }
    ensures lines { lines.new.items ≡ lines.old.items ++ deed_lines p deed }
    ensures room { lines.old.room ≤ lines.new.room }
    ensures count { length lines.new.items ≤ length lines.old.items + 1 }
{
    if let Some(deed) = deed {
        lines.push(Line::Does(p, deed));
    }
}

/// Adds the lines of a turn of process `p`: a commit of these before its event, the event, a commit after it, each where there is one.
fn leave_turn(
    p: u32,
    members: &[bool; 16],
    asked: Rule,
    deed: Option<Deed>,
    lines: &mut Reserved<Line>,
)
    requires once { asked.before ≡ true → asked.after ≡ false }
    requires sixteen { (p < 16) × (length members.now ≡ 16) }
    requires room { length lines.old.items + 2 ≤ lines.old.room }
    ensures lines { lines.new.items ≡ lines.old.items ++ lines_by p members.now asked deed }
    ensures room { lines.old.room ≤ lines.new.room }
    ensures count { length lines.new.items ≤ length lines.old.items + 2 }
    ensures sixteen { All IsOfSixteen lines.old.items → All IsOfSixteen lines.new.items }
{
    leave_commit(asked.before, members, lines);
    leave_event(p, deed, lines);
    leave_commit(asked.after, members, lines);
}

/// Adds what the next turn of a process that is up leaves.
fn leave_up<C: Checkpoint>(
    processes: &Processes,
    turn: &Turn,
    up: &Up,
    store: &C,
    dev: &C::Device,
    lines: &mut Reserved<Line>,
)
    requires well { IsWell processes.now }
    requires process { turn.now.p < length processes.now.slots.items }
    requires there { slot_at processes.now.slots.items turn.now.p ≡ Some (slots.Up up.now) }
    requires fit { IsFit C.Checkpoint up.now store.now dev.now }
    requires room { length lines.old.items + 2 ≤ lines.old.room }
    ensures room { lines.old.room ≤ lines.new.room }
    ensures more { length lines.new.items ≤ length lines.old.items + 2 }
    ensures kept { take (length lines.old.items) lines.new.items ≡ lines.old.items }
    ensures sixteen { All IsOfSixteen lines.old.items → All IsOfSixteen lines.new.items }
    ensures left { (stores : List C) → slice_get stores turn.now.p ≡ Some store.now → C.index store.now ≡ turn.now.p → Leaves C.Checkpoint (stage_of stores dev.now processes.now) turn.now lines.old.items lines.new.items }
{
    if up.has_ended() {
        return;
    }
    let call = up.next_call(store, dev);
    if is_blocked(up, call) {
        return;
    }
    let answer = processes.answer(up, call, turn);
    let kind = up.next_kind(store, dev);
    let asked = up.asked(kind, &answer, any_unlogged(processes));
    let chance = is_chance(up, kind, &answer, asked.log);
    let deed = event_deed(up, kind, call, &answer, chance);
    let members = members_with(processes.protocol, processes.count(), turn.p);
    leave_turn(turn.p, &members, asked, deed, lines);
}

/// Adds to a journal what the next turn of a process leaves in it where nothing stops it, told before the turn is taken: at most two
/// lines, a commit before or after the event and the event itself, each where there is one. A process that is down, that has ended or
/// whose link is full leaves nothing.
pub fn leave_lines<C: Checkpoint>(
    processes: &Processes,
    turn: &Turn,
    stores: &[C],
    dev: &C::Device,
    lines: &mut Reserved<Line>,
)
    requires well { IsWell processes.now }
    requires process { turn.now.p < length processes.now.slots.items }
    requires stores { length stores.now ≡ length processes.now.slots.items }
    requires index { (c : C) → slice_get stores.now turn.now.p ≡ Some c → C.index c ≡ turn.now.p }
    requires fit { (c : C) (u : Ups) → slice_get stores.now turn.now.p ≡ Some c → slot_at processes.now.slots.items turn.now.p ≡ Some (slots.Up u) → IsFit C.Checkpoint u c dev.now }
    requires room { length lines.old.items + 2 ≤ lines.old.room }
    ensures room { lines.old.room ≤ lines.new.room }
    ensures more { length lines.new.items ≤ length lines.old.items + 2 }
    ensures kept { take (length lines.old.items) lines.new.items ≡ lines.old.items }
    ensures sixteen { All IsOfSixteen lines.old.items → All IsOfSixteen lines.new.items }
    ensures down { is_up (slot_at processes.now.slots.items turn.now.p) ≡ false → lines.new.items ≡ lines.old.items }
    ensures left { Leaves C.Checkpoint (stage_of stores.now dev.now processes.now) turn.now lines.old.items lines.new.items }
{
    let Some(up) = processes.up(turn.p) else {
        return;
    };
    leave_up(processes, turn, up, &stores[turn.p as usize], dev, lines);
}
