//! How a process is played: by its answers, one after the other.

ghost use Rattle.std.specs.Prelude.{◌≡◌, ◌≤◌, ◌<◌, ◌+◌, ◌-◌, ◌*◌, ◌^◌, ℕ, List, [], false, Some, length, slice_get, slice_index, IfOk, OnOk};
ghost use Rattle.dc_elf.specs.Images.{Image as Images};
ghost use Rattle.dc_guest.specs.Answers.{answer_of};
ghost use Rattle.dc_guest.specs.Guest.{coming, guests_of};
ghost use Rattle.dc_elf.specs.Loaded.{CanStart, seen_image};
ghost use Rattle.dc_words.specs.Lists.{items_of};
ghost use Rattle.dc_plain.specs.Playing.{CanCount, CanTake, HasRoom, IsWithin, begun_at, body_of, can_be, local_of, sends_by};
ghost use Rattle.dc_model.specs.Guests.{is_send};
ghost use Rattle.dc_model.specs.Process.{moved, took_from, took_input};

use crate::hosted::HostedGuest;
use crate::process::Process;
use dc_calls::Call;
use dc_elf::Image;
use dc_events::{Kind, Next};
use dc_guest::{Answer, Effect};
use dc_links::Message;
use dc_model::Body;
use dc_words::to_words;
use std::alloc::{AllocError, Global};

/// Counts an input that was taken.
fn count_taken(inputs_taken: &mut usize, answer: &Answer)
    requires { CanTake inputs_taken.old (answer_of answer.now) }
    ensures { inputs_taken.new ≡ inputs_taken.old + took_input (answer_of answer.now) }
{
    if let Answer::InputNext(_) = *answer {
        *inputs_taken += 1;
    }
}

/// Counts a message that was received, by its sender.
fn count_received(received: &mut [usize], answer: &Answer)
    requires { CanCount received.old (answer_of answer.now) }
    ensures counted { (s : ℕ) → slice_index received.new s ≡ slice_index received.old s + took_from (answer_of answer.now) s }
    ensures each { length received.new ≡ length received.old }
{
    if let Answer::ReceiveFrom(sender, _) = *answer {
        received[sender as usize] += 1;
    }
}

/// A list without items for each of so many.
fn empty_lists(alloc: Global, count: u32) -> Result<Vec<Vec<Message>>, AllocError>
    ensures each { IfOk result (λ lists. length lists.items ≡ count) }
    ensures empty { IfOk result (λ lists. (q : ℕ) → items_of (slice_get lists.items q) ≡ []) }
{
    let mut lists = Vec::with_capacity(alloc, count as usize)?;
    for _ in 0..count {
        lists.push(Vec::new(alloc))?;
    }
    Ok(lists)
}

impl Process {
    /// Process `p` of `count` before its first act.
    pub fn new(alloc: Global, p: u32, count: u32, image: &Image) -> Result<Process, AllocError>
        requires { CanStart image.now }
        ensures begun { IfOk result (λ l. local_of l ≡ begun_at p count (seen_image image.now)) }
        ensures count { IfOk result (λ l. l.guest.count ≡ count) }
    {
        let words = to_words(alloc, &image.memory)?;
        Ok(Process {
            guest: HostedGuest::new(p, count, words, image.entry),
            inputs_taken: 0,
            received: vec![in alloc; 0; count as usize]?,
            sent: empty_lists(alloc, count)?,
            visible: 0,
        })
    }

    /// Whether its next event may be answered so, apart from what the answer hands over.
    pub fn may_be(&self, answer: &Answer) -> bool
        ensures { result ≡ can_be self.now.guest (answer_of answer.now) }
    {
        let kind = match self.guest.next_call() {
            Some(call) => Next::Call(call).kind(),
            None => Kind::Internal,
        };
        !self.guest.has_ended() && answer.may_answer(kind)
    }

    /// Makes room for the message that it sends next, if it sends one. It says whether it does.
    pub fn reserve(&mut self) -> Result<bool, AllocError>
        ensures same { local_of self.new ≡ local_of self.old }
        ensures received { self.new.received ≡ self.old.received }
        ensures room { OnOk result (HasRoom self.new) }
        ensures sends { IfOk result (λ sends. self.old.guest.ended ≡ false → sends ≡ is_send (coming self.old.guest)) }
    {
        match self.guest.next_call() {
            Some(Call::Send(to, _, _)) => {
                self.sent[to as usize].reserve(1)?;
                Ok(true)
            }
            _ => Ok(false),
        }
    }

    /// Takes its next event with this answer: what it shows, if anything.
    pub fn turn(&mut self, answer: &Answer) -> Option<Body>
        requires live { self.old.guest.ended ≡ false }
        requires room { HasRoom self.old }
        requires within { IsWithin self.old (answer_of answer.now) }
        requires visible { self.old.visible < 2 ^ 32 - 1 }
        ensures moved { (images : List Images) (inputs : List (List (List ℕ))) → local_of self.new ≡ moved (guests_of images inputs) (local_of self.old) (answer_of answer.now) }
        ensures shown { result ≡ body_of (coming self.old.guest) }
        ensures count { self.new.guest.count ≡ self.old.guest.count }
    {
        let effect = self.guest.turn(answer);
        count_taken(&mut self.inputs_taken, answer);
        count_received(&mut self.received, answer);
        match effect {
            Effect::Nothing => None,
            Effect::Shows(body) => {
                self.visible += 1;
                Some(body)
            }
            Effect::Sends(to, message) => {
                let _ = self.sent[to as usize].push(message);
                None
            }
        }
    }
}
