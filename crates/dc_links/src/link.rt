ghost use Rattle.std.specs.Prelude.{◌≡◌, ◌≢◌, ◌<◌, ◌≤◌, ◌-◌, ◌^◌, ◌↔◌, ℕ, Some, None, IfOk, IsTrue, length, option_copied, slice_get};
ghost use Rattle.dc_links.specs.Links.{unused, message_numbered, none_kept, with_sent, trimmed};

use crate::message::Message;
use circular_buffer::HeapCircularBuffer;
use dc_limits::KEPT_MESSAGES;
use std::alloc::{AllocError, Global};
use std::marker::Model;

/// What was sent to one receiver.
#[derive(Drop)]
pub struct Link {
    sent: u32,
    ring: HeapCircularBuffer<Message>,
}

impl Model for Link {
    ghost use Rattle.std.specs.Prelude.{◌≡◌, ◌≤◌, length};
    ghost use Rattle.dc_limits.specs.declared.sizes.TheConstants.{KEPT_MESSAGES};
    ghost use Rattle.dc_links.specs.Links as seen;

    ghost Value = { seen.Link };

    ghost view = { λ l. record { sent = l.sent; kept = l.ring.items } };

    ghost invariant = { λ l. (l.ring.capacity ≡ KEPT_MESSAGES) × (length l.ring.items ≤ KEPT_MESSAGES) × (length l.ring.items ≤ l.sent) };
}

impl Link {
    /// Nothing sent. The memory for all that is ever kept is taken here.
    pub fn new(alloc: Global) -> Result<Link, AllocError>
        ensures { IfOk result (λ l. l ≡ unused) }
    {
        Ok(Link {
            sent: 0,
            ring: HeapCircularBuffer::with_capacity(alloc, KEPT_MESSAGES)?,
        })
    }

    /// How many messages were ever sent.
    pub fn sent(&self) -> u32
        ensures sent { result ≡ self.now.sent }
        ensures kept { length self.now.kept ≤ result }
    {
        self.sent
    }

    /// How many of them are kept.
    pub fn kept_count(&self) -> u32
        ensures count { result ≡ length self.now.kept }
        ensures few { result ≤ KEPT_MESSAGES }
    {
        self.ring.len() as u32
    }

    /// Whether no other message can be kept.
    pub fn is_full(&self) -> bool
        ensures full { IsTrue result ↔ (length self.now.kept ≡ KEPT_MESSAGES) }
        ensures few { length self.now.kept ≤ KEPT_MESSAGES }
    {
        self.ring.is_full()
    }

    /// The kept message at an index, counted from the oldest.
    pub fn kept(&self, index: u32) -> Option<&Message>
        ensures { option_copied result ≡ slice_get self.now.kept index }
    {
        self.ring.get(index as usize)
    }

    /// The message of a number, where it is kept.
    pub fn next_for(&self, number: u32) -> Option<&Message>
        ensures { option_copied result ≡ message_numbered self.now number }
    {
        let first = self.sent - self.kept_count();
        if number < first {
            return None;
        }
        self.kept(number - first)
    }

    /// Sends one message more.
    pub fn keep(&mut self, message: &Message)
        requires room { length self.old.kept < KEPT_MESSAGES }
        requires sent { self.old.sent < 2 ^ 32 - 1 }
        ensures kept { self.new ≡ with_sent self.old message.now }
        ensures numbered { message_numbered self.new self.old.sent ≡ Some message.now }
        ensures before { (k : ℕ) → k ≢ self.old.sent → message_numbered self.new k ≡ message_numbered self.old k }
    {
        self.ring.push_back(*message);
        self.sent += 1;
    }

    /// Drops the messages numbered below `upto`. It takes time only for what it drops.
    pub fn trim(&mut self, upto: u32)
        ensures trimmed { self.new ≡ trimmed self.old upto }
        ensures dropped { (k : ℕ) → k < upto → message_numbered self.new k ≡ None }
        ensures left { (k : ℕ) → upto ≤ k → message_numbered self.new k ≡ message_numbered self.old k }
    {
        let kept = self.kept_count();
        let dropped = upto.saturating_sub(self.sent - kept);
        let left = kept.saturating_sub(dropped);
        self.ring.truncate_front(left as usize);
    }

    /// Forgets the kept messages, and sets how many were ever sent.
    pub fn restart(&mut self, sent: u32)
        ensures { self.new ≡ none_kept sent }
    {
        self.sent = sent;
        self.ring.clear();
    }
}
