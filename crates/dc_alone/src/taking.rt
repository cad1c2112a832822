//! A process that is up takes its next event, in its slot.

ghost use Rattle.std.specs.Prelude.{◌≡◌, ◌≢◌, ◌<◌, ◌≤◌, ◌+◌, ◌-◌, ◌^◌, ℕ, None, Some, IfOk, OnErr, OnOk, true, length, slice_index, slice_set};
ghost use Rattle.dc_checkpoint.specs.Calls.{FallsStore, IsUnrefused, Touches, on};
ghost use Rattle.dc_checkpoint.specs.Handles.{showing_of};
ghost use Rattle.dc_guest.specs.Answers.{answer_of, may_answer};
ghost use Rattle.dc_model.specs.Guests.Answer.{Plain};
ghost use Rattle.dc_processes.specs.Answers.{IsSentTo, exposed_by, kind_by};
ghost use Rattle.dc_processes.specs.Processes.{Hears, IsWell, Learns};
ghost use Rattle.dc_processes.specs.Slots.{Falls, based_in, held_in, slot_at};
ghost use Rattle.dc_processes.specs.Stages.{IsHandled, stage_of};
ghost use Rattle.dc_processes.specs.Taking.{HasNext, Shows};
ghost use Rattle.dc_processes.specs.Turns.{Fell, Went, WithStores, later, lines_of};
ghost use Rattle.dc_processes.specs.declared.slot.Slot.TheVariants as slots;

use dc_calls::Call;
use dc_checkpoint::{CheckFault, Checkpoint};
use dc_guest::Answer;
use dc_model::{Mark, Visible};
use dc_proc::Answered;
use dc_processes::{Processes, take_in};

/// Whether others hold a process to an event: it shows something, or it sends where each process recovers by itself.
fn is_exposed(call: Option<Call>, shown: &Option<Visible>) -> bool
    ensures { result ≡ exposed_by call shown.now }
{
    shown.is_some() || matches!(call, Some(Call::Send(_, _, _)))
}

/// Where the last commit of a process is another than that of this number, the others learn how much of theirs it had received by then.
fn tell(processes: &mut Processes, p: u32, commit: u32)
    requires well { IsWell processes.old }
    requires process { p < length processes.old.slots.items }
    ensures quiet { (held_in (slot_at processes.old.slots.items p)).kernel.commit ≡ commit → processes.new ≡ processes.old }
    ensures learns { ((held_in (slot_at processes.old.slots.items p)).kernel.commit ≡ commit → ⊥) → (q : ℕ) → q < length processes.old.slots.items
        → Learns p (slice_index (based_in (slot_at processes.old.slots.items p)) q) (slot_at processes.old.slots.items q) (slot_at processes.new.slots.items q) }
    ensures rest { processes.new ≡ record processes.old { slots = processes.new.slots } }
    ensures long { length processes.new.slots.items ≡ length processes.old.slots.items }
    ensures well { IsWell processes.new }
{
    if processes.commit_of(p) != commit {
        processes.learn_of(p);
    }
}

/// What is left of a process whose turn was refused: it is down, and the others know what it had committed by then.
fn fall<C: Checkpoint>(processes: &mut Processes, p: u32, store: &mut C)
    requires well { IsWell processes.old }
    requires process { p < length processes.old.slots.items }
    ensures falls { Falls (slot_at processes.old.slots.items p) (slot_at processes.new.slots.items p) }
    ensures learns { (q : ℕ) → q < length processes.old.slots.items → q ≢ p → Learns p (slice_index (based_in (slot_at processes.old.slots.items p)) q) (slot_at processes.old.slots.items q) (slot_at processes.new.slots.items q) }
    ensures rest { processes.new ≡ record processes.old { slots = processes.new.slots } }
    ensures long { length processes.new.slots.items ≡ length processes.old.slots.items }
    ensures well { IsWell processes.new }
    ensures store { FallsStore (showing_of C.Checkpoint) store.old store.new }
{
    processes.stop(p, store);
    processes.learn_of(p);
}

/// Process `p`, which is up and goes on, takes its next event: what it shows is handed on. Refused, it is down.
pub fn take<C: Checkpoint>(
    processes: &mut Processes,
    p: u32,
    call: Option<Call>,
    answer: &Answer,
    store: &mut C,
    dev: &mut C::Device,
    shown: &mut Option<Visible>,
) -> Result<Mark, CheckFault>
    requires well { IsWell processes.old }
    requires process { p < length processes.old.slots.items }
    requires next { HasNext C.Checkpoint processes.old.left store.old dev.old (slot_at processes.old.slots.items p) call }
    requires left { 0 < processes.old.left }
    requires acts { (length processes.old.acts.items < processes.old.acts.room) × (length processes.old.acts.items < 2 ^ 32 - 1) }
    requires kind { may_answer (answer_of answer.now) (kind_by call) ≡ true }
    requires plain { call ≡ None → answer_of answer.now ≡ Plain }
    requires sender { IsSentTo (length processes.old.slots.items) p (answer_of answer.now) }
    requires nothing { shown.old ≡ None }
    ensures well { IsWell processes.new }
    ensures rest { processes.new ≡ record processes.old { slots = processes.new.slots; acts = processes.new.acts; exposed = processes.new.exposed } }
    ensures long { length processes.new.slots.items ≡ length processes.old.slots.items }
    ensures room { processes.old.acts.room ≤ processes.new.acts.room }
    ensures grown { length processes.new.acts.items ≤ length processes.old.acts.items + 1 }
    ensures others { (q : ℕ) → q ≢ p → Hears p (slot_at processes.old.slots.items q) (slot_at processes.new.slots.items q) }
    ensures handled { IsHandled C.Checkpoint (processes.old.left - 1) store.new dev.new (slot_at processes.new.slots.items p) }
    ensures call { Touches (showing_of C.Checkpoint) (on store.old dev.old) (on store.new dev.new) result }
    ensures unrefused { IsUnrefused result }
    ensures ready { OnOk result (C.ready store.new dev.new) }
    ensures unshown { OnErr result (shown.new ≡ None) }
    ensures showed { IfOk result (λ mark. Shows C.Checkpoint store.old dev.old (slot_at processes.old.slots.items p) p mark shown.new) }
    ensures went { OnOk result (WithStores C.Checkpoint p store.old (λ stores. Went C.Checkpoint (stage_of stores dev.old processes.old)
        (later (length (lines_of shown.new)) (stage_of (slice_set stores p store.new) dev.new processes.new)) p (answer_of answer.now))) }
    ensures fell { OnErr result (WithStores C.Checkpoint p store.old (λ stores. Fell C.Checkpoint (stage_of stores dev.old processes.old)
        (later 0 (stage_of (slice_set stores p store.new) dev.new processes.new)) p (answer_of answer.now))) }
{
    let acts = processes.acts.count_of(p);
    let commit = processes.commit_of(p);
    let answered = Answered {
        t: processes.entries,
        answer: *answer,
    };
    let slot = &mut processes.slots[p as usize];
    match take_in(slot, store, dev, &answered, &mut processes.acts, shown) {
        Ok(mark) => {
            processes.note_exposed(p, acts, is_exposed(call, shown));
            tell(processes, p, commit);
            Ok(mark)
        }
        Err(fault) => {
            fall(processes, p, store);
            Err(fault)
        }
    }
}
