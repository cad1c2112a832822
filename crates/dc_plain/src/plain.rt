ghost use Rattle.std.specs.Prelude.{◌≡◌, ◌↔◌, ◌<◌, ◌&&◌, ◌+◌, ◌-◌, ◌^◌, [], ℕ, List, Err, IfSome, false, None, Some, All, IfOk, OnErr, OnOk, length, map, slice_get};
ghost use Rattle.std.specs.Option.{option_map};
ghost use Rattle.dc_elf.specs.Images.{Image as Images};
ghost use Rattle.dc_guest.specs.Answers.{answer_of};
ghost use Rattle.dc_guest.specs.Guest.{coming, guests_of};
ghost use Rattle.dc_model.specs.Guests.{is_send, is_visible};
ghost use Rattle.dc_model.specs.FailureFree.{apply, happened, opened, answer_for};
ghost use Rattle.dc_elf.specs.Loaded.{CanStart, seen_image};
ghost use Rattle.dc_words.specs.Lists.{items_of, lists_of};
ghost use Rattle.dc_words.specs.Words.{bytes_in};
ghost use Rattle.dc_plain.specs.Playing.{AreAmong, Happens, IsWithin, answer_to, can_be, ending_of, ends_well, local_of, procs_of, regs_of, world_at, world_in};
ghost use Rattle.dc_model.specs.Process.{begun};
ghost use Rattle.dc_plain.specs.declared.process.Process.{Process as Processes};
ghost use Rattle.dc_model.specs.declared.visible.Visible.{Visible as Records};

use crate::applied::Applied;
use crate::process::Process;
use dc_elf::Image;
use dc_events::Next;
use dc_guest::Answer;
use dc_isa::Regs;
use dc_links::Message;
use dc_model::{Act, Visible};
use std::alloc::{AllocError, Global};
use std::marker::Model;

/// Why an act was not applied.
#[derive(Clone, Copy, Debug, PartialEq, Eq)]
pub enum ApplyFault {
    /// The process has ended, or the act does not fit what it does next.
    Illegal,
    /// There was no memory for what it shows or sends.
    Memory,
}

/// What others see of an event.
#[derive(Clone, Copy, Debug, PartialEq, Eq)]
struct Outputs {
    shows: bool,
    sends: bool,
}

/// The input that a process takes next, if there is one.
fn next_input(inputs: &[Vec<Message>], p: usize, inputs_taken: usize) -> Option<Message>
    ensures exact { result ≡ slice_get (items_of (slice_get inputs.now p)) inputs_taken }
    ensures few { IfSome result (λ message. inputs_taken + 1 < 2 ^ 64) }
{
    inputs.get(p)?.get(inputs_taken).copied()
}

/// The message of another process that a process receives next, if there is one.
fn next_message(processes: &[Process], from: usize, to: usize) -> Option<Message>
    requires receiver { to < length processes.now }
    requires each { AreAmong (length processes.now) processes.now }
    ensures exact { result ≡ slice_get ((procs_of processes.now from).sent to) ((procs_of processes.now to).received from) }
    ensures sender { IfSome result (λ message. from < length processes.now) }
    ensures few { IfSome result (λ message. (procs_of processes.now to).received from + 1 < 2 ^ 64) }
{
    let sent = processes.get(from)?.sent.get(to)?;
    sent.get(processes[to].received[from]).copied()
}

/// The answer that an act of a process gives, where it hands over what is there.
fn answer_for(processes: &[Process], inputs: &[Vec<Message>], p: u32, act: &Act) -> Option<Answer>
    requires process { p < length processes.now }
    requires each { AreAmong (length processes.now) processes.now }
    ensures within { (l : Processes) → slice_get processes.now p ≡ Some l → IfSome result (λ a. IsWithin l (answer_of a)) }
    ensures exact { (images : List Images) (visibles : List Records) →
        option_map answer_of result ≡ answer_for (guests_of images (lists_of inputs.now)) (world_at processes.now visibles) p act.now }
{
    let own = p as usize;
    match *act {
        Act::Plain => Some(Answer::Plain),
        Act::Clock(clock) => Some(Answer::Clock(clock)),
        Act::Random(word) => Some(Answer::Random(word)),
        Act::InputNone => Some(Answer::InputNone),
        Act::InputNext => {
            let message = next_input(inputs, own, processes[own].inputs_taken)?;
            Some(Answer::InputNext(message))
        }
        Act::InputEnd => Some(Answer::InputEnd),
        Act::ReceiveNone => Some(Answer::ReceiveNone),
        Act::ReceiveFrom(sender) if sender != p => {
            let message = next_message(processes, sender as usize, own)?;
            Some(Answer::ReceiveFrom(sender, message))
        }
        Act::ReceiveFrom(_) => None,
    }
}

/// Whether no input is left, where an answer says so.
fn ends_well(answer: &Answer, next: Option<Message>) -> bool
    ensures { result ≡ ends_well (answer_of answer.now) next }
{
    match answer {
        Answer::InputEnd => next.is_none(),
        _ => true,
    }
}

/// Whether what an act tells a process fits its next event, where this is its next input.
fn fits(process: &Process, next: Option<Message>, answer: &Answer) -> bool
    ensures { result ≡ can_be process.now.guest (answer_of answer.now) && ends_well (answer_of answer.now) next }
{
    process.may_be(answer) && ends_well(answer, next)
}

/// What an act of a process answers its next event, if it fits.
fn fitting(processes: &[Process], inputs: &[Vec<Message>], p: u32, act: &Act) -> Option<Answer>
    requires process { p < length processes.now }
    requires each { AreAmong (length processes.now) processes.now }
    ensures within { (l : Processes) → slice_get processes.now p ≡ Some l → IfSome result (λ a. IsWithin l (answer_of a)) }
    ensures live { (l : Processes) → slice_get processes.now p ≡ Some l → IfSome result (λ a. l.guest.ended ≡ false) }
    ensures exact { (images : List Images) (visibles : List Records) →
        option_map answer_of result ≡ answer_to (guests_of images (lists_of inputs.now)) (world_at processes.now visibles) p act.now }
{
    let answer = answer_for(processes, inputs, p, act)?;
    let process = &processes[p as usize];
    let next = next_input(inputs, p as usize, process.inputs_taken);
    if fits(process, next, &answer) {
        Some(answer)
    } else {
        None
    }
}

/// Takes the next event of a process with its answer, and says what others see of it. Where there is no memory for that nothing changes.
fn play(
    processes: &mut [Process],
    visibles: &mut Vec<Visible>,
    p: u32,
    answer: &Answer,
) -> Result<Outputs, AllocError>
    requires process { p < length processes.old }
    requires within { (l : Processes) → slice_get processes.old p ≡ Some l → IsWithin l (answer_of answer.now) }
    requires live { (l : Processes) → slice_get processes.old p ≡ Some l → l.guest.ended ≡ false }
    requires few { (procs_of processes.old p).visible < 2 ^ 32 - 1 }
    requires each { AreAmong (length processes.old) processes.old }
    ensures happened { OnOk result ((images : List Images) (inputs : List (List (List ℕ))) →
        world_at processes.new visibles.new.items
        ≡ happened (guests_of images inputs) (world_at processes.old visibles.old.items) p (answer_of answer.now)) }
    ensures shows { IfOk result (λ seen. seen.shows ≡ is_visible (coming (procs_of processes.old p).machine)) }
    ensures sends { IfOk result (λ seen. seen.sends ≡ is_send (coming (procs_of processes.old p).machine)) }
    ensures unchanged { OnErr result (world_at processes.new visibles.new.items ≡ world_at processes.old visibles.old.items) }
    ensures length { length processes.new ≡ length processes.old }
    ensures each { AreAmong (length processes.old) processes.new }
{
    visibles.reserve(1)?;
    let process = &mut processes[p as usize];
    let sends = process.reserve()?;
    let k = process.visible;
    match process.turn(answer) {
        Some(body) => {
            let _ = visibles.push(Visible { p, k, body });
            Ok(Outputs { shows: true, sends })
        }
        None => Ok(Outputs {
            shows: false,
            sends,
        }),
    }
}

/// Lets a process take its next event with this act, and says what the act was.
fn apply_to(
    processes: &mut [Process],
    inputs: &[Vec<Message>],
    visibles: &mut Vec<Visible>,
    p: u32,
    act: &Act,
) -> Result<Applied, ApplyFault>
    requires process { p < length processes.old }
    requires few { (procs_of processes.old p).visible < 2 ^ 32 - 1 }
    requires each { AreAmong (length processes.old) processes.old }
    ensures applied { OnOk result ((images : List Images) →
        apply (guests_of images (lists_of inputs.now)) (world_at processes.old visibles.old.items) p act.now
        ≡ Some (world_at processes.new visibles.new.items)) }
    ensures happens { IfOk result (λ applied. (images : List Images) →
        Happens (guests_of images (lists_of inputs.now)) (world_at processes.old visibles.old.items) p act.now applied (world_at processes.new visibles.new.items)) }
    ensures illegal { (images : List Images) →
        (result ≡ Err ApplyFault.Illegal)
        ↔ (apply (guests_of images (lists_of inputs.now)) (world_at processes.old visibles.old.items) p act.now ≡ None) }
    ensures unchanged { OnErr result (world_at processes.new visibles.new.items ≡ world_at processes.old visibles.old.items) }
    ensures length { length processes.new ≡ length processes.old }
    ensures each { AreAmong (length processes.old) processes.new }
{
    let Some(answer) = fitting(processes, inputs, p, act) else {
        return Err(ApplyFault::Illegal);
    };
    let Ok(seen) = play(processes, visibles, p, &answer) else {
        return Err(ApplyFault::Memory);
    };
    Ok(Applied {
        answer,
        shows: seen.shows,
        sends: seen.sends,
    })
}

/// Each process before its first act.
fn begin_each(alloc: Global, images: &[Image]) -> Result<Vec<Process>, AllocError>
    requires few { length images.now < 2 ^ 32 }
    requires good { All CanStart images.now }
    ensures begun { IfOk result (λ processes. (inputs : List (List (List ℕ))) (p : ℕ) →
        procs_of processes.items p ≡ begun (guests_of (map seen_image images.now) inputs) p) }
    ensures each { IfOk result (λ processes. AreAmong (length images.now) processes.items) }
    ensures length { IfOk result (λ processes. length processes.items ≡ length images.now) }
{
    let mut processes = Vec::with_capacity(alloc, images.len())?;
    for (p, image) in images.iter().enumerate() {
        processes.push(Process::new(alloc, p as u32, images.len() as u32, image)?)?;
    }
    Ok(processes)
}

/// A copy of the inputs of each process.
fn copied(alloc: Global, inputs: &[Vec<Message>]) -> Result<Vec<Vec<Message>>, AllocError>
    ensures { IfOk result (λ copies. lists_of copies.items ≡ lists_of inputs.now) }
{
    let mut copies = Vec::with_capacity(alloc, inputs.len())?;
    for records in inputs {
        copies.push(records.to_vec(alloc)?)?;
    }
    Ok(copies)
}

/// The failure-free run of some guests, by the acts that it is given: each process, and the visible records. Nothing in it
/// commits, logs, keeps or blocks.
#[derive(Drop)]
pub struct Plain {
    processes: Vec<Process>,
    inputs: Vec<Vec<Message>>,
    visibles: Vec<Visible>,
}

impl Model for Plain {
    ghost use Rattle.std.specs.Prelude.{length};
    ghost use Rattle.dc_plain.specs.Playing.{AreAmong, Played, played};

    ghost Value = { Played };

    ghost view = { λ w. played w.processes.items w.inputs.items w.visibles.items };

    ghost invariant = { λ w. AreAmong (length w.processes.items) w.processes.items };
}

impl Plain {
    /// The guests of these images before their first act, with these inputs of each.
    pub fn open(
        alloc: Global,
        images: &[Image],
        inputs: &[Vec<Message>],
    ) -> Result<Plain, AllocError>
        requires few { length images.now < 2 ^ 32 }
        requires good { All CanStart images.now }
        ensures world { IfOk result (λ w. world_in w ≡ opened (guests_of (map seen_image images.now) (lists_of inputs.now))) }
        ensures inputs { IfOk result (λ w. w.inputs ≡ lists_of inputs.now) }
        ensures count { IfOk result (λ w. length w.processes ≡ length images.now) }
    {
        Ok(Plain {
            processes: begin_each(alloc, images)?,
            inputs: copied(alloc, inputs)?,
            visibles: Vec::new(alloc),
        })
    }

    /// Lets process `p` take its next event with this act, and says what the act was. A fault changes nothing.
    pub fn apply(&mut self, p: u32, act: &Act) -> Result<Applied, ApplyFault>
        requires process { p < length self.old.processes }
        requires few { ((world_in self.old).procs p).visible < 2 ^ 32 - 1 }
        ensures applied { OnOk result ((images : List Images) →
            apply (guests_of images self.old.inputs) (world_in self.old) p act.now ≡ Some (world_in self.new)) }
        ensures happens { IfOk result (λ applied. (images : List Images) →
            Happens (guests_of images self.old.inputs) (world_in self.old) p act.now applied (world_in self.new)) }
        ensures illegal { (images : List Images) →
            (result ≡ Err ApplyFault.Illegal) ↔ (apply (guests_of images self.old.inputs) (world_in self.old) p act.now ≡ None) }
        ensures unchanged { OnErr result (world_in self.new ≡ world_in self.old) }
        ensures count { length self.new.processes ≡ length self.old.processes }
        ensures inputs { self.new.inputs ≡ self.old.inputs }
    {
        apply_to(
            &mut self.processes,
            &self.inputs,
            &mut self.visibles,
            p,
            act,
        )
    }

    /// How many processes there are.
    pub fn count(&self) -> usize
        ensures { result ≡ length self.now.processes }
    {
        self.processes.len()
    }

    /// Process `p`.
    fn process(&self, p: u32) -> &Process
        requires { p < length self.now.processes }
        ensures local { local_of result.now ≡ (world_in self.now).procs p }
        ensures count { result.now.guest.count ≡ length self.now.processes }
    {
        &self.processes[p as usize]
    }

    /// The registers of process `p`.
    pub fn regs(&self, p: u32) -> &Regs
        requires { p < length self.now.processes }
        ensures { result.now ≡ regs_of ((world_in self.now).procs p).machine }
    {
        self.process(p).guest.regs()
    }

    /// The words of its memory.
    pub fn words(&self, p: u32) -> &[u32]
        requires { p < length self.now.processes }
        ensures { bytes_in result.now ≡ ((world_in self.now).procs p).machine.machine.memory }
    {
        self.process(p).guest.words()
    }

    /// What it did last, where that ended it.
    pub fn ending(&self, p: u32) -> Option<Next>
        requires { p < length self.now.processes }
        ensures { result ≡ ending_of ((world_in self.now).procs p).machine }
    {
        self.process(p).guest.ending()
    }

    /// How many inputs it took.
    pub fn inputs_taken(&self, p: u32) -> usize
        requires { p < length self.now.processes }
        ensures { result ≡ ((world_in self.now).procs p).inputs_taken }
    {
        self.process(p).inputs_taken
    }

    /// How many messages of process `q` it received.
    pub fn received(&self, p: u32, q: u32) -> usize
        requires process { p < length self.now.processes }
        requires sender { q < length self.now.processes }
        ensures { result ≡ ((world_in self.now).procs p).received q }
    {
        self.process(p).received[q as usize]
    }

    /// The messages that it sent to process `q`, the first one first.
    pub fn sent(&self, p: u32, q: u32) -> &[Message]
        requires process { p < length self.now.processes }
        requires receiver { q < length self.now.processes }
        ensures { result.now ≡ ((world_in self.now).procs p).sent q }
    {
        &self.process(p).sent[q as usize]
    }

    /// How many visible records process `p` has shown.
    pub fn visible_count(&self, p: u32) -> u32
        requires { p < length self.now.processes }
        ensures { result ≡ ((world_in self.now).procs p).visible }
    {
        self.processes[p as usize].visible
    }

    /// The visible records so far, the first one first.
    pub fn visibles(&self) -> &[Visible]
        ensures { result.now ≡ self.now.visibles }
    {
        &self.visibles
    }

    /// Drops the visible records so far. The numbers of later records go on from theirs.
    pub fn forget_visibles(&mut self)
        ensures world { world_in self.new ≡ record (world_in self.old) { visibles = [] } }
        ensures count { length self.new.processes ≡ length self.old.processes }
        ensures inputs { self.new.inputs ≡ self.old.inputs }
    {
        self.visibles.clear();
    }
}
