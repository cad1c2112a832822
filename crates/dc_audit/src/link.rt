ghost use Rattle.std.specs.Prelude.{◌≡◌, ◌<◌, ◌-◌, ◌^◌, ◌+◌, [], IfOk, length, slice_index_or};
ghost use Rattle.dc_audit.specs.Clocks.{no_way, sent_on, with_sent, with_taken};

use crate::clock::{Clock, NOTHING};
use std::alloc::{AllocError, Global};
use std::collections::VecDeque;
use std::marker::Model;

/// The messages on their way from one process to another, by the clock of each one's sending, which takes 128 bytes; and how many were
/// received before them.
#[derive(Drop)]
pub struct Link {
    taken: u32,
    waiting: VecDeque<Clock>,
}

impl Model for Link {
    ghost use Rattle.dc_audit.specs.Clocks as vectors;

    ghost Value = { vectors.Way };

    ghost view = { λ l. record { taken = l.taken; waiting = l.waiting.items } };
}

impl Link {
    /// No messages yet.
    pub fn new(alloc: Global) -> Link
        ensures { result ≡ no_way }
    {
        Link {
            taken: 0,
            waiting: VecDeque::new(alloc),
        }
    }

    /// How many were received: the number of the next that can be.
    pub fn taken(&self) -> u32
        ensures { result ≡ self.now.taken }
    {
        self.taken
    }

    /// How many were sent: the number of the next.
    pub fn sent(&self) -> u32
        requires { sent_on self.now < 2 ^ 32 }
        ensures { result ≡ sent_on self.now }
    {
        self.taken + self.waiting.len() as u32
    }

    /// Sends one more, with this clock.
    pub fn send(&mut self, clock: &Clock) -> Result<(), AllocError>
        ensures { IfOk result (λ _. self.new ≡ with_sent clock.now self.old) }
    {
        self.waiting.push_back(*clock)?;
        Ok(())
    }

    /// Receives the first, and answers the clock of its sending.
    pub fn take(&mut self) -> Clock
        requires some { 0 < length self.old.waiting }
        requires few { self.old.taken < 2 ^ 32 - 1 }
        ensures taken { self.new ≡ with_taken self.old }
        ensures first { result ≡ slice_index_or self.old.waiting 0 [] }
    {
        self.taken += 1;
        match self.waiting.pop_front() {
            Some(clock) => clock,
            None => [NOTHING; 16],
        }
    }
}
