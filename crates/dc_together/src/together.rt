//! A turn where all processes commit, fall and recover together.

ghost use Rattle.std.specs.Prelude.{◌≡◌, ◌<◌, ◌≤◌, ◌+◌, ◌*◌, ◌-◌, ◌^◌, ℕ, IfOk, IfSome, IsErrOf, None, OnErr, OnOk, Some, if◌then◌else◌, length, true, false};
ghost use Rattle.dc_checkpoint.specs.Handles.{IsSame};
ghost use Rattle.dc_checkpoint.specs.declared.faults.StoreFault as faults;
ghost use Rattle.dc_guest.specs.Answers.{answer_of, may_answer};
ghost use Rattle.dc_model.specs.Guests.Answer.{Plain};
ghost use Rattle.dc_model.specs.declared.entry.Entry.TheVariants as entries;
ghost use Rattle.dc_model.specs.declared.mark.Mark.TheVariants as marks;
ghost use Rattle.dc_proc.specs.Turns.{IsShown};
ghost use Rattle.dc_protocols.specs.Rules.{is_joint};
ghost use Rattle.dc_twophase.specs.Commits.{IsSameMemory};
ghost use Rattle.dc_twophase.specs.Counts.{IsJoint, IsUnrefused};
ghost use Rattle.dc_twophase.specs.Stores.{At, EachPair, IsNoIndex};
ghost use Rattle.dc_twophase.specs.declared.faults.JointFault.TheVariants as joint;
ghost use Rattle.dc_processes.specs.Answers.{IsSentTo, kind_by};
ghost use Rattle.dc_together.specs.Joints.{AreDown, AreFit, AllBelong, AreReady, GoesAlike, HaveCounts, IsRoomFor, have_unlogged};
ghost use Rattle.dc_processes.specs.Processes.{IsWell};
ghost use Rattle.dc_processes.specs.Slots.{is_up, slot_at};
ghost use Rattle.dc_processes.specs.Stages.{stage_of};
ghost use Rattle.dc_processes.specs.Taking.{MakesCall, MayTake, ShowsNext};
ghost use Rattle.dc_together.specs.Together.{Breaks, Happens, IsAskedAt, Makes, ShowsTold, after_event, all_torn, commit_core};
ghost use Rattle.dc_processes.specs.Turns.{FellTogether, GoesOn, HasNoRun, RefusesOne, WentTogether, later, lines_of};

use crate::committing::commit_together;
use crate::rejoining::recover_together;
use dc_calls::Call;
use dc_checkpoint::Checkpoint;
use dc_guest::Answer;
use dc_limits::ENTRIES;
use dc_model::{Mark, Turn, Visible};
use dc_proc::Answered;
use dc_processes::{Processes, Slot, next_call, take_in};
use dc_protocols::Rule;
use dc_twophase::{JointFault, joint_fault};

/// Whether any process had an unlogged nondeterministic event since the last commit of all.
fn any_unlogged(processes: &Processes) -> bool
    ensures { result ≡ have_unlogged processes.now.slots.items }
{
    processes
        .slots
        .iter()
        .any(|slot| matches!(slot, Some(Slot::Up(up)) if up.unlogged()))
}

/// What the protocol asks of all at the next event of process `p`, which is up and goes on, with this answer.
fn asked<C: Checkpoint>(
    processes: &Processes,
    p: u32,
    stores: &[C],
    dev: &C::Device,
    answer: &Answer,
) -> Rule
    requires well { IsWell processes.now }
    requires process { p < length processes.now.slots.items }
    requires stores { length stores.now ≡ length processes.now.slots.items }
    requires belongs { AllBelong C.Checkpoint (length processes.now.slots.items) stores.now }
    requires next { At p stores.now (λ c. (call : _) × MakesCall C.Checkpoint c dev.now (slot_at processes.now.slots.items p) call) }
    requires sender { IsSentTo (length processes.now.slots.items) p (answer_of answer.now) }
    ensures asked { IsAskedAt C.Checkpoint p (answer_of answer.now) (stage_of stores.now dev.now processes.now) result }
    ensures once { is_joint processes.now.protocol ≡ true → result.before ≡ true → result.after ≡ false }
{
    match processes.up(p) {
        Some(up) => {
            let kind = up.next_kind(&stores[p as usize], dev);
            up.asked(kind, answer, any_unlogged(processes))
        }
        None => unreachable!(),
    }
}

/// Commits all processes together where it is due. Refused, all are down.
fn commit_if<C: Checkpoint>(
    processes: &mut Processes,
    due: bool,
    stores: &mut [C],
    dev: &mut C::Device,
) -> Result<(), JointFault>
    requires well { IsWell processes.old }
    requires together { is_joint processes.old.protocol ≡ true }
    requires stores { length stores.old ≡ length processes.old.slots.items }
    requires belongs { AllBelong C.Checkpoint (length processes.old.slots.items) stores.old }
    requires fit { AreFit C.Checkpoint stores.old dev.old processes.old.slots.items }
    requires counts { due ≡ true → HaveCounts 1 processes.old.slots.items }
    requires room { IsRoomFor C.Checkpoint stores.old (length processes.old.slots.items) processes.old.joint }
    requires left { 0 < processes.old.left }
    ensures well { IsWell processes.new }
    ensures rest { processes.new ≡ record processes.old { slots = processes.new.slots; joint = processes.new.joint } }
    ensures long { length processes.new.slots.items ≡ length processes.old.slots.items }
    ensures stores { EachPair stores.old stores.new (λ i. IsSame C.Checkpoint) }
    ensures as_many { length stores.new ≡ length stores.old }
    ensures room { IsRoomFor C.Checkpoint stores.new (length processes.old.slots.items) processes.new.joint }
    ensures fit { OnOk result (AreFit C.Checkpoint stores.new dev.new processes.new.slots.items) }
    ensures counts { OnOk result ((m : ℕ) → HaveCounts (m + (if due then 1 else 0)) processes.old.slots.items → HaveCounts m processes.new.slots.items) }
    ensures memory { OnOk result (EachPair stores.old stores.new (λ i. IsSameMemory C.Checkpoint dev.old dev.new)) }
    ensures alike { OnOk result ((p : ℕ) → p < length processes.old.slots.items → GoesAlike (slot_at processes.old.slots.items p) (slot_at processes.new.slots.items p)) }
    ensures down { OnErr result (AreDown C.Checkpoint stores.new dev.new processes.new.slots.items) }
    ensures due { OnErr result (due ≡ true) }
    ensures joint { IsJoint C.Checkpoint stores.old dev.old dev.new result }
    ensures unrefused { IsUnrefused result }
    ensures others { (q : ℕ) → IsNoIndex C.Checkpoint stores.old q → C.untouched dev.old dev.new q }
    ensures continues { C.continues dev.old dev.new }
    ensures goes { OnOk result (Makes C.Checkpoint (commit_core due) (stage_of stores.old dev.old processes.old) (stage_of stores.new dev.new processes.new)) }
    ensures torn { OnErr result (HaveCounts (2 * processes.old.left - 1) processes.old.slots.items → Makes C.Checkpoint all_torn (stage_of stores.old dev.old processes.old) (later 0 (stage_of stores.new dev.new processes.new))) }
{
    if due {
        return commit_together(processes, stores, dev);
    }
    Ok(())
}

/// Process `p` takes its next event: what it shows is handed on. Refused, all are down.
fn take_event<C: Checkpoint>(
    processes: &mut Processes,
    p: u32,
    answer: &Answer,
    stores: &mut [C],
    dev: &mut C::Device,
    shown: &mut Option<Visible>,
) -> Result<Mark, JointFault>
    requires well { IsWell processes.old }
    requires together { is_joint processes.old.protocol ≡ true }
    requires process { p < length processes.old.slots.items }
    requires stores { length stores.old ≡ length processes.old.slots.items }
    requires belongs { AllBelong C.Checkpoint (length processes.old.slots.items) stores.old }
    requires fit { AreFit C.Checkpoint stores.old dev.old processes.old.slots.items }
    requires may { At p stores.old (λ c. MayTake C.Checkpoint c dev.old (answer_of answer.now) (slot_at processes.old.slots.items p)) }
    requires acts { (length processes.old.acts.items < processes.old.acts.room) × (length processes.old.acts.items < 2 ^ 32 - 1) }
    requires left { 0 < processes.old.left }
    requires nothing { shown.old ≡ None }
    ensures well { IsWell processes.new }
    ensures rest { processes.new ≡ record processes.old { slots = processes.new.slots; acts = processes.new.acts; exposed = processes.new.exposed } }
    ensures long { length processes.new.slots.items ≡ length processes.old.slots.items }
    ensures acts_room { processes.old.acts.room ≤ processes.new.acts.room }
    ensures grown { length processes.new.acts.items ≤ length processes.old.acts.items + 1 }
    ensures stores { EachPair stores.old stores.new (λ i. IsSame C.Checkpoint) }
    ensures as_many { length stores.new ≡ length stores.old }
    ensures fit { OnOk result (AreFit C.Checkpoint stores.new dev.new processes.new.slots.items) }
    ensures counts { OnOk result ((m : ℕ) → HaveCounts (m + 1) processes.old.slots.items → HaveCounts m processes.new.slots.items) }
    ensures down { OnErr result (AreDown C.Checkpoint stores.new dev.new processes.new.slots.items) }
    ensures joint { IsJoint C.Checkpoint stores.old dev.old dev.new result }
    ensures unrefused { IsUnrefused result }
    ensures others { (q : ℕ) → IsNoIndex C.Checkpoint stores.old q → C.untouched dev.old dev.new q }
    ensures continues { C.continues dev.old dev.new }
    ensures showed { IfOk result (λ mark. IsShown p mark shown.new (λ done. At p stores.old (λ c. ShowsNext C.Checkpoint c dev.old (slot_at processes.old.slots.items p) done))) }
    ensures unshown { OnErr result (shown.new ≡ None) }
    ensures happens { OnOk result (Happens C.Checkpoint p (answer_of answer.now) (λ S c. after_event S processes.old.entries c p (answer_of answer.now)) (stage_of stores.old dev.old processes.old) (stage_of stores.new dev.new processes.new)) }
    ensures broken { OnErr result (HaveCounts (2 * processes.old.left - 1) processes.old.slots.items
        → Breaks C.Checkpoint p (answer_of answer.now) (stage_of stores.old dev.old processes.old) (later 0 (stage_of stores.new dev.new processes.new))) }
{
    let acts = processes.acts.count_of(p);
    let answered = Answered {
        t: processes.entries,
        answer: *answer,
    };
    let slot = &mut processes.slots[p as usize];
    let store = &mut stores[p as usize];
    match take_in(slot, store, dev, &answered, &mut processes.acts, shown) {
        Ok(mark) => {
            processes.note_exposed(p, acts, shown.is_some());
            Ok(mark)
        }
        Err(fault) => {
            processes.power(stores);
            Err(joint_fault(p, fault))
        }
    }
}

/// Process `p`, which is up and goes on, takes its next event, with the commits of all that are due before and after it: what it
/// shows is handed on. Refused, all are down.
fn take_together<C: Checkpoint>(
    processes: &mut Processes,
    p: u32,
    call: Option<Call>,
    answer: &Answer,
    stores: &mut [C],
    dev: &mut C::Device,
    shown: &mut Option<Visible>,
) -> Result<Mark, JointFault>
    requires well { IsWell processes.old }
    requires together { is_joint processes.old.protocol ≡ true }
    requires process { p < length processes.old.slots.items }
    requires stores { length stores.old ≡ length processes.old.slots.items }
    requires belongs { AllBelong C.Checkpoint (length processes.old.slots.items) stores.old }
    requires fit { AreFit C.Checkpoint stores.old dev.old processes.old.slots.items }
    requires counts { HaveCounts (2 * processes.old.left) processes.old.slots.items }
    requires room { IsRoomFor C.Checkpoint stores.old (length processes.old.slots.items) processes.old.joint }
    requires next { At p stores.old (λ c. MakesCall C.Checkpoint c dev.old (slot_at processes.old.slots.items p) call) }
    requires left { 0 < processes.old.left }
    requires acts { (length processes.old.acts.items < processes.old.acts.room) × (length processes.old.acts.items < 2 ^ 32 - 1) }
    requires kind { may_answer (answer_of answer.now) (kind_by call) ≡ true }
    requires plain { call ≡ None → answer_of answer.now ≡ Plain }
    requires sender { IsSentTo (length processes.old.slots.items) p (answer_of answer.now) }
    requires nothing { shown.old ≡ None }
    ensures well { IsWell processes.new }
    ensures rest { processes.new ≡ record processes.old { slots = processes.new.slots; acts = processes.new.acts; exposed = processes.new.exposed; joint = processes.new.joint } }
    ensures long { length processes.new.slots.items ≡ length processes.old.slots.items }
    ensures acts_room { processes.old.acts.room ≤ processes.new.acts.room }
    ensures grown { length processes.new.acts.items ≤ length processes.old.acts.items + 1 }
    ensures stores { EachPair stores.old stores.new (λ i. IsSame C.Checkpoint) }
    ensures as_many { length stores.new ≡ length stores.old }
    ensures room { IsRoomFor C.Checkpoint stores.new (length processes.old.slots.items) processes.new.joint }
    ensures fit { OnOk result (AreFit C.Checkpoint stores.new dev.new processes.new.slots.items × HaveCounts (2 * (processes.old.left - 1)) processes.new.slots.items) }
    ensures down { OnErr result (AreDown C.Checkpoint stores.new dev.new processes.new.slots.items) }
    ensures joint { IsJoint C.Checkpoint stores.old dev.old dev.new result }
    ensures unrefused { IsUnrefused result }
    ensures others { (q : ℕ) → IsNoIndex C.Checkpoint stores.old q → C.untouched dev.old dev.new q }
    ensures continues { C.continues dev.old dev.new }
    ensures unshown { OnErr result (shown.new ≡ None) }
    ensures showed { IfOk result (λ mark. ShowsTold C.Checkpoint (stage_of stores.old dev.old processes.old) p mark shown.new) }
    ensures went { OnOk result (WentTogether C.Checkpoint (stage_of stores.old dev.old processes.old) (later (length (lines_of shown.new)) (stage_of stores.new dev.new processes.new)) p (answer_of answer.now)) }
    ensures fell { OnErr result (FellTogether C.Checkpoint (stage_of stores.old dev.old processes.old) (later 0 (stage_of stores.new dev.new processes.new)) p (answer_of answer.now)) }
{
    let asked = asked(processes, p, stores, dev, answer);
    commit_if(processes, asked.before, stores, dev)?;
    let mark = take_event(processes, p, answer, stores, dev, shown)?;
    match commit_if(processes, asked.after, stores, dev) {
        Ok(()) => Ok(mark),
        Err(fault) => {
            *shown = None;
            Err(fault)
        }
    }
}

/// A turn of a process that is up where all commit together: what it did, and what it showed. Refused, all are down.
fn turn_all_up<C: Checkpoint>(
    processes: &mut Processes,
    turn: &Turn,
    stores: &mut [C],
    dev: &mut C::Device,
    shown: &mut Option<Visible>,
) -> Result<Mark, JointFault>
    requires well { IsWell processes.old }
    requires together { is_joint processes.old.protocol ≡ true }
    requires process { turn.now.p < length processes.old.slots.items }
    requires up { is_up (slot_at processes.old.slots.items turn.now.p) ≡ true }
    requires stores { length stores.old ≡ length processes.old.slots.items }
    requires belongs { AllBelong C.Checkpoint (length processes.old.slots.items) stores.old }
    requires fit { AreFit C.Checkpoint stores.old dev.old processes.old.slots.items }
    requires counts { HaveCounts (2 * processes.old.left) processes.old.slots.items }
    requires room { IsRoomFor C.Checkpoint stores.old (length processes.old.slots.items) processes.old.joint }
    requires left { 0 < processes.old.left }
    requires acts { (length processes.old.acts.items < processes.old.acts.room) × (length processes.old.acts.items < 2 ^ 32 - 1) }
    requires nothing { shown.old ≡ None }
    ensures well { IsWell processes.new }
    ensures rest { processes.new ≡ record processes.old { slots = processes.new.slots; acts = processes.new.acts; exposed = processes.new.exposed; joint = processes.new.joint } }
    ensures long { length processes.new.slots.items ≡ length processes.old.slots.items }
    ensures acts_room { processes.old.acts.room ≤ processes.new.acts.room }
    ensures grown { length processes.new.acts.items ≤ length processes.old.acts.items + 1 }
    ensures stores { EachPair stores.old stores.new (λ i. IsSame C.Checkpoint) }
    ensures as_many { length stores.new ≡ length stores.old }
    ensures ready { AreReady C.Checkpoint (processes.old.left - 1) stores.new dev.new processes.new.slots.items }
    ensures room { IsRoomFor C.Checkpoint stores.new (length processes.old.slots.items) processes.new.joint }
    ensures joint { IsJoint C.Checkpoint stores.old dev.old dev.new result }
    ensures others { (q : ℕ) → IsNoIndex C.Checkpoint stores.old q → C.untouched dev.old dev.new q }
    ensures continues { C.continues dev.old dev.new }
    ensures whole { IfOk result (λ mark. mark ≡ marks.Stopped → ⊥) }
    ensures shows { IfOk result (λ mark. IfSome shown.new (λ visible. mark ≡ marks.Showed visible.k)) }
    ensures unshown { OnErr result (shown.new ≡ None) }
    ensures unrefused { IsUnrefused result }
    ensures turned { IfOk result (λ mark. GoesOn C.Checkpoint (stage_of stores.old dev.old processes.old) (later (length (lines_of shown.new)) (stage_of stores.new dev.new processes.new)) (entries.Turn turn.now) mark shown.new) }
    ensures stopped { OnErr result (GoesOn C.Checkpoint (stage_of stores.old dev.old processes.old) (later 0 (stage_of stores.new dev.new processes.new)) (entries.Turn turn.now) marks.Stopped None) }
{
    let Some(up) = processes.up(turn.p) else {
        unreachable!()
    };
    match next_call(up, &stores[turn.p as usize], dev) {
        Ok(call) => {
            let answer = processes.answer(up, call, turn);
            take_together(processes, turn.p, call, &answer, stores, dev, shown)
        }
        Err(idle) => Ok(Mark::Idle(idle)),
    }
}

/// A turn of a process where all commit together: it takes its next event, or all recover where all are down. What it shows is
/// handed on.
pub fn turn_together<C: Checkpoint>(
    processes: &mut Processes,
    turn: &Turn,
    stores: &mut [C],
    dev: &mut C::Device,
    shown: &mut Option<Visible>,
) -> Result<Mark, JointFault>
    requires well { IsWell processes.old }
    requires together { is_joint processes.old.protocol ≡ true }
    requires process { turn.now.p < length processes.old.slots.items }
    requires stores { length stores.old ≡ length processes.old.slots.items }
    requires belongs { AllBelong C.Checkpoint (length processes.old.slots.items) stores.old }
    requires ready { AreReady C.Checkpoint processes.old.left stores.old dev.old processes.old.slots.items }
    requires room { IsRoomFor C.Checkpoint stores.old (length processes.old.slots.items) processes.old.joint }
    requires left { 0 < processes.old.left }
    requires acts { length processes.old.acts.items + processes.old.left ≤ processes.old.acts.room }
    requires few { (length processes.old.acts.items ≤ processes.old.entries) × (processes.old.entries + processes.old.left ≤ ENTRIES) }
    requires nothing { shown.old ≡ None }
    ensures well { IsWell processes.new }
    ensures rest { processes.new ≡ record processes.old { slots = processes.new.slots; acts = processes.new.acts; exposed = processes.new.exposed; joint = processes.new.joint } }
    ensures long { length processes.new.slots.items ≡ length processes.old.slots.items }
    ensures acts_room { processes.old.acts.room ≤ processes.new.acts.room }
    ensures grown { length processes.new.acts.items ≤ length processes.old.acts.items + 1 }
    ensures stores { EachPair stores.old stores.new (λ i. IsSame C.Checkpoint) }
    ensures as_many { length stores.new ≡ length stores.old }
    ensures ready { AreReady C.Checkpoint (processes.old.left - 1) stores.new dev.new processes.new.slots.items }
    ensures room { IsRoomFor C.Checkpoint stores.new (length processes.old.slots.items) processes.new.joint }
    ensures joint { IsJoint C.Checkpoint stores.old dev.old dev.new result }
    ensures others { (q : ℕ) → IsNoIndex C.Checkpoint stores.old q → C.untouched dev.old dev.new q }
    ensures continues { C.continues dev.old dev.new }
    ensures whole { IfOk result (λ mark. mark ≡ marks.Stopped → ⊥) }
    ensures shows { IfOk result (λ mark. IfSome shown.new (λ visible. mark ≡ marks.Showed visible.k)) }
    ensures unshown { OnErr result (shown.new ≡ None) }
    ensures content { (i : ℕ) (fault : faults.StoreFault) → IsErrOf result (joint.Refused i fault) → RefusesOne C.Checkpoint (stage_of stores.old dev.old processes.old) stores.new dev.new i fault }
    ensures refused { (i : ℕ) (fault : faults.StoreFault) → IsErrOf result (joint.Refused i fault) → HasNoRun C.Checkpoint (stage_of stores.old dev.old processes.old) (later 0 (stage_of stores.new dev.new processes.new)) }
    ensures turned { IfOk result (λ mark. GoesOn C.Checkpoint (stage_of stores.old dev.old processes.old) (later (length (lines_of shown.new)) (stage_of stores.new dev.new processes.new)) (entries.Turn turn.now) mark shown.new) }
    ensures stopped { OnErr result (GoesOn C.Checkpoint (stage_of stores.old dev.old processes.old) (later 0 (stage_of stores.new dev.new processes.new)) (entries.Turn turn.now) marks.Stopped None) }
{
    if processes.is_up(turn.p) {
        return turn_all_up(processes, turn, stores, dev, shown);
    }
    recover_together(processes, turn, stores, dev)
}
