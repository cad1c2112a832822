//! A turn of a process.

ghost use Rattle.std.specs.Prelude.{◌≡◌, ◌≢◌, ◌<◌, ◌≤◌, ◌+◌, ◌-◌, ◌^◌, ℕ, None, Some, IfOk, IfSome, IsErrOf, OnErr, false, true, length, slice_set};
ghost use Rattle.dc_checkpoint.specs.Calls.{IsUnrefused, Touches, on};
ghost use Rattle.dc_checkpoint.specs.Handles.{showing_of};
ghost use Rattle.dc_checkpoint.specs.declared.faults.StoreFault as faults;
ghost use Rattle.dc_model.specs.declared.entry.Entry.TheVariants as entries;
ghost use Rattle.dc_model.specs.declared.mark.Mark.TheVariants as marks;
ghost use Rattle.dc_protocols.specs.Rules.{is_joint};
ghost use Rattle.dc_processes.specs.Processes.{Hears, IsWell};
ghost use Rattle.dc_processes.specs.Slots.{is_up, slot_at};
ghost use Rattle.dc_processes.specs.Stages.{IsHandled, stage_of};
ghost use Rattle.dc_processes.specs.Turns.{GoesOn, HasNoRun, IsRefused, WithStores, later, lines_of};

use crate::recovering::recover;
use crate::taking::take;
use dc_checkpoint::{CheckFault, Checkpoint};
use dc_limits::ENTRIES;
use dc_model::{Mark, Turn, Visible};
use dc_processes::{Processes, Slot, next_call};

/// A turn of a process that is up: what it did, and what it showed. Refused, the process is down.
fn turn_up<C: Checkpoint>(
    processes: &mut Processes,
    turn: &Turn,
    store: &mut C,
    dev: &mut C::Device,
    shown: &mut Option<Visible>,
) -> Result<Mark, CheckFault>
    requires well { IsWell processes.old }
    requires alone { is_joint processes.old.protocol ≡ false }
    requires process { turn.now.p < length processes.old.slots.items }
    requires up { is_up (slot_at processes.old.slots.items turn.now.p) ≡ true }
    requires handled { IsHandled C.Checkpoint processes.old.left store.old dev.old (slot_at processes.old.slots.items turn.now.p) }
    requires left { 0 < processes.old.left }
    requires acts { (length processes.old.acts.items < processes.old.acts.room) × (length processes.old.acts.items < 2 ^ 32 - 1) }
    requires nothing { shown.old ≡ None }
    ensures well { IsWell processes.new }
    ensures rest { processes.new ≡ record processes.old { slots = processes.new.slots; acts = processes.new.acts; exposed = processes.new.exposed } }
    ensures long { length processes.new.slots.items ≡ length processes.old.slots.items }
    ensures room { processes.old.acts.room ≤ processes.new.acts.room }
    ensures grown { length processes.new.acts.items ≤ length processes.old.acts.items + 1 }
    ensures others { (q : ℕ) → q ≢ turn.now.p → Hears turn.now.p (slot_at processes.old.slots.items q) (slot_at processes.new.slots.items q) }
    ensures handled { IsHandled C.Checkpoint (processes.old.left - 1) store.new dev.new (slot_at processes.new.slots.items turn.now.p) }
    ensures call { Touches (showing_of C.Checkpoint) (on store.old dev.old) (on store.new dev.new) result }
    ensures unrefused { IsUnrefused result }
    ensures whole { IfOk result (λ mark. mark ≡ marks.Stopped → ⊥) }
    ensures shows { IfOk result (λ mark. IfSome shown.new (λ visible. mark ≡ marks.Showed visible.k)) }
    ensures unshown { OnErr result (shown.new ≡ None) }
    ensures turned { IfOk result (λ mark. WithStores C.Checkpoint turn.now.p store.old (λ stores. GoesOn C.Checkpoint (stage_of stores dev.old processes.old)
        (later (length (lines_of shown.new)) (stage_of (slice_set stores turn.now.p store.new) dev.new processes.new)) (entries.Turn turn.now) mark shown.new)) }
    ensures stopped { OnErr result (WithStores C.Checkpoint turn.now.p store.old (λ stores. GoesOn C.Checkpoint (stage_of stores dev.old processes.old)
        (later 0 (stage_of (slice_set stores turn.now.p store.new) dev.new processes.new)) (entries.Turn turn.now) marks.Stopped None)) }
{
    let Some(up) = processes.up(turn.p) else {
        unreachable!()
    };
    match next_call(up, store, dev) {
        Ok(call) => {
            let answer = processes.answer(up, call, turn);
            take(processes, turn.p, call, &answer, store, dev, shown)
        }
        Err(idle) => Ok(Mark::Idle(idle)),
    }
}

/// A turn of a process: it takes its next event, or recovers where it is down. What it shows is handed on.
pub fn turn_alone<C: Checkpoint>(
    processes: &mut Processes,
    turn: &Turn,
    store: &mut C,
    dev: &mut C::Device,
    shown: &mut Option<Visible>,
) -> Result<Mark, CheckFault>
    requires well { IsWell processes.old }
    requires alone { is_joint processes.old.protocol ≡ false }
    requires process { turn.now.p < length processes.old.slots.items }
    requires handled { IsHandled C.Checkpoint processes.old.left store.old dev.old (slot_at processes.old.slots.items turn.now.p) }
    requires form { ((C.form store.old).n ≡ length processes.old.slots.items) × ((C.form store.old).p ≡ turn.now.p) }
    requires left { 0 < processes.old.left }
    requires room { length processes.old.acts.items + processes.old.left ≤ processes.old.acts.room }
    requires few { (length processes.old.acts.items ≤ processes.old.entries) × (processes.old.entries + processes.old.left ≤ ENTRIES) }
    requires nothing { shown.old ≡ None }
    ensures well { IsWell processes.new }
    ensures rest { processes.new ≡ record processes.old { slots = processes.new.slots; acts = processes.new.acts; exposed = processes.new.exposed } }
    ensures long { length processes.new.slots.items ≡ length processes.old.slots.items }
    ensures room { processes.old.acts.room ≤ processes.new.acts.room }
    ensures grown { length processes.new.acts.items ≤ length processes.old.acts.items + 1 }
    ensures others { (q : ℕ) → q ≢ turn.now.p → Hears turn.now.p (slot_at processes.old.slots.items q) (slot_at processes.new.slots.items q) }
    ensures handled { IsHandled C.Checkpoint (processes.old.left - 1) store.new dev.new (slot_at processes.new.slots.items turn.now.p) }
    ensures call { Touches (showing_of C.Checkpoint) (on store.old dev.old) (on store.new dev.new) result }
    ensures whole { IfOk result (λ mark. mark ≡ marks.Stopped → ⊥) }
    ensures shows { IfOk result (λ mark. IfSome shown.new (λ visible. mark ≡ marks.Showed visible.k)) }
    ensures unshown { OnErr result (shown.new ≡ None) }
    ensures content { (fault : faults.StoreFault) → IsErrOf result (CheckFault.Refused fault) → IsRefused C.Checkpoint processes.old.left 0 store.new dev.new fault }
    ensures refused { (fault : faults.StoreFault) → IsErrOf result (CheckFault.Refused fault) → WithStores C.Checkpoint turn.now.p store.old (λ stores. HasNoRun C.Checkpoint (stage_of stores dev.old processes.old)
        (later 0 (stage_of (slice_set stores turn.now.p store.new) dev.new processes.new))) }
    ensures turned { IfOk result (λ mark. WithStores C.Checkpoint turn.now.p store.old (λ stores. GoesOn C.Checkpoint (stage_of stores dev.old processes.old)
        (later (length (lines_of shown.new)) (stage_of (slice_set stores turn.now.p store.new) dev.new processes.new)) (entries.Turn turn.now) mark shown.new)) }
    ensures stopped { OnErr result (WithStores C.Checkpoint turn.now.p store.old (λ stores. GoesOn C.Checkpoint (stage_of stores dev.old processes.old)
        (later 0 (stage_of (slice_set stores turn.now.p store.new) dev.new processes.new)) (entries.Turn turn.now) marks.Stopped None)) }
{
    if processes.is_up(turn.p) {
        return turn_up(processes, turn, store, dev, shown);
    }
    match processes.slots[turn.p as usize].take() {
        Some(Slot::Down(down)) => recover(processes, turn, down, store, dev),
        _ => unreachable!(),
    }
}
