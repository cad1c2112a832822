ghost use Rattle.std.specs.Prelude.{◌≡◌, ◌≢◌, ◌<◌, ◌≤◌, ◌+◌, ◌-◌, ◌^◌, ◌↔◌, ℕ, Some, None, IfOk, IsTrue, length, option_copied, slice_get, slice_set, replicate};
ghost use Rattle.dc_links.specs.Links.{unused, link_to, message_numbered, none_kept, with_sent, trimmed};

use crate::link::Link;
use crate::message::Message;
use dc_limits::{KEPT_MESSAGES, PROCESSES};
use std::alloc::{AllocError, Global};
use std::marker::Model;

/// The messages that a process has sent and still keeps, by receiver and number. It is seen as a list, a link for each
/// receiver.
#[derive(Drop)]
pub struct Links {
    links: Vec<Link>,
}

impl Model for Links {
    ghost use Rattle.std.specs.Prelude.{List};
    ghost use Rattle.dc_links.specs.Links as seen;

    ghost Value = { List seen.Link };

    ghost view = { λ l. l.links.items };
}

impl Links {
    /// Nothing sent to any of `n` receivers. All memory is taken here.
    pub fn new(alloc: Global, n: u32) -> Result<Links, AllocError>
        requires some { 1 ≤ n }
        requires few { n ≤ PROCESSES }
        ensures { IfOk result (λ l. l ≡ replicate n unused) }
    {
        let mut links = Vec::with_capacity(alloc, n as usize)?;
        for _ in 0..n {
            links.push(Link::new(alloc)?)?;
        }
        Ok(Links { links })
    }

    /// How many messages were ever sent to receiver `q`.
    pub fn sent(&self, q: u32) -> u32
        requires { q < length self.now }
        ensures sent { result ≡ (link_to self.now q).sent }
        ensures kept { length (link_to self.now q).kept ≤ result }
    {
        self.links[q as usize].sent()
    }

    /// How many of them are still kept.
    pub fn kept_count(&self, q: u32) -> u32
        requires { q < length self.now }
        ensures count { result ≡ length (link_to self.now q).kept }
        ensures few { result ≤ KEPT_MESSAGES }
    {
        self.links[q as usize].kept_count()
    }

    /// Whether no other message can be kept for receiver `q`.
    pub fn is_full(&self, q: u32) -> bool
        requires { q < length self.now }
        ensures full { IsTrue result ↔ (length (link_to self.now q).kept ≡ 8) }
        ensures few { length (link_to self.now q).kept ≤ KEPT_MESSAGES }
    {
        self.links[q as usize].is_full()
    }

    /// The message kept for receiver `q` at an index, counted from the oldest.
    pub fn kept(&self, q: u32, index: u32) -> Option<&Message>
        requires { q < length self.now }
        ensures { option_copied result ≡ slice_get (link_to self.now q).kept index }
    {
        self.links[q as usize].kept(index)
    }

    /// The message to receiver `q` of that number, where it is kept.
    pub fn next_for(&self, q: u32, number: u32) -> Option<&Message>
        requires { q < length self.now }
        ensures { option_copied result ≡ message_numbered (link_to self.now q) number }
    {
        self.links[q as usize].next_for(number)
    }

    /// Sends receiver `q` one message more.
    pub fn keep(&mut self, q: u32, message: &Message)
        requires receiver { q < length self.old }
        requires room { length (link_to self.old q).kept < KEPT_MESSAGES }
        requires sent { (link_to self.old q).sent < 2 ^ 32 - 1 }
        ensures kept { self.new ≡ slice_set self.old q (with_sent (link_to self.old q) message.now) }
        ensures receivers { length self.new ≡ length self.old }
        ensures others { (p : ℕ) → p ≢ q → link_to self.new p ≡ link_to self.old p }

        // The message has the next number, and each other number names what it named.
        ensures numbered { message_numbered (link_to self.new q) (link_to self.old q).sent ≡ Some message.now }
        ensures before { (k : ℕ) → k ≢ (link_to self.old q).sent → message_numbered (link_to self.new q) k ≡ message_numbered (link_to self.old q) k }
    {
        self.links[q as usize].keep(message);
    }

    /// Drops the messages to receiver `q` that are numbered below `upto`. It takes time only for what it drops.
    pub fn trim(&mut self, q: u32, upto: u32)
        requires { q < length self.old }
        ensures trimmed { self.new ≡ slice_set self.old q (trimmed (link_to self.old q) upto) }
        ensures receivers { length self.new ≡ length self.old }
        ensures others { (p : ℕ) → p ≢ q → link_to self.new p ≡ link_to self.old p }

        // None below is there, and each other number names what it named.
        ensures dropped { (k : ℕ) → k < upto → message_numbered (link_to self.new q) k ≡ None }
        ensures left { (k : ℕ) → upto ≤ k → message_numbered (link_to self.new q) k ≡ message_numbered (link_to self.old q) k }
    {
        self.links[q as usize].trim(upto);
    }

    /// Forgets what is kept for receiver `q`, and sets how many messages were ever sent to it. The room for messages stays.
    pub fn restart(&mut self, q: u32, sent: u32)
        requires { q < length self.old }
        ensures restarted { self.new ≡ slice_set self.old q (none_kept sent) }
        ensures receivers { length self.new ≡ length self.old }
        ensures others { (p : ℕ) → p ≢ q → link_to self.new p ≡ link_to self.old p }
    {
        self.links[q as usize].restart(sent);
    }
}
