//! The processes of a world, and what it remembers of them.

ghost use Rattle.std.specs.Prelude.{◌≡◌, ◌≢◌, ◌<◌, ◌≤◌, ◌-◌, ◌^◌, ℕ, None, Some, false, IfSome, length, slice_index, slice_set};
ghost use Rattle.dc_processes.specs.Processes.{IsWell, Learns, LearnsBelow, counted};
ghost use Rattle.dc_processes.specs.Slots.{IsOf, based_in, have_ended, held_in, is_up, slot_at};

use crate::joint::Joint;
use crate::slot::Slot;
use dc_acts::Acts;
use dc_limits::PROCESSES;
use dc_links::Message;
use dc_proc::Up;
use dc_protocols::Protocol;

/// The processes, with all that they share.
#[derive(Drop)]
pub struct Processes {
    pub protocol: Protocol,
    /// Each is there between two calls; its slot is empty only while it recovers or falls.
    pub slots: Vec<Option<Slot>>,
    pub inputs: Vec<Vec<Message>>,
    pub acts: Acts,
    /// One past the position of the last exposed act of each process.
    pub exposed: Vec<u32>,
    /// How many whole lines were written.
    pub lines: u32,
    /// How many entries were run.
    pub entries: u32,
    /// How many more may be.
    pub left: u32,
    /// What commits and recoveries of all together write to.
    pub joint: Joint,
}

impl Processes {
    /// How many processes there are.
    pub fn count(&self) -> u32
        requires { length self.now.slots.items ≤ PROCESSES }
        ensures { result ≡ length self.now.slots.items }
    {
        self.slots.len() as u32
    }

    /// The process of a number, where it is up.
    pub fn up(&self, p: u32) -> Option<&Up>
        ensures none { result ≡ None → is_up (slot_at self.now.slots.items p) ≡ false }
        ensures up { IfSome result (λ u. slot_at self.now.slots.items p ≡ Some (Slot.Up u.now)) }
    {
        match self.slots.get(p as usize) {
            Some(Some(Slot::Up(up))) => Some(up),
            _ => None,
        }
    }

    /// Whether the process of a number is up.
    pub fn is_up(&self, p: u32) -> bool
        ensures { result ≡ is_up (slot_at self.now.slots.items p) }
    {
        self.up(p).is_some()
    }

    /// The number of the last commit of a process that is up; 0 for any other.
    pub fn commit_of(&self, p: u32) -> u32
        ensures { result ≡ (held_in (slot_at self.now.slots.items p)).kernel.commit }
    {
        match self.up(p) {
            Some(up) => up.kernel().commit(),
            None => 0,
        }
    }

    /// Puts a process in its slot.
    pub fn put(&mut self, p: u32, slot: Slot)
        requires well { IsWell self.old }
        requires process { p < length self.old.slots.items }
        requires of { IsOf self.old.protocol (length self.old.slots.items) p slot }
        ensures set { self.new.slots.items ≡ slice_set self.old.slots.items p (Some slot) }
        ensures there { slot_at self.new.slots.items p ≡ Some slot }
        ensures others { (q : ℕ) → q ≢ p → slot_at self.new.slots.items q ≡ slot_at self.old.slots.items q }
        ensures rest { self.new ≡ record self.old { slots = self.new.slots } }
        ensures long { length self.new.slots.items ≡ length self.old.slots.items }
        ensures well { IsWell self.new }
    {
        self.slots[p as usize] = Some(slot);
    }

    /// Whether every process is up and has ended.
    pub fn have_ended(&self) -> bool
        ensures { result ≡ have_ended self.now.slots.items }
    {
        self.slots.iter().all(|slot| matches!(slot, Some(Slot::Up(up)) if up.has_ended()))
    }

    /// An entry was run.
    pub fn count_entry(&mut self)
        requires left { 0 < self.old.left }
        requires few { self.old.entries < 2 ^ 32 - 1 }
        ensures { self.new ≡ counted self.old }
    {
        self.entries += 1;
        self.left -= 1;
    }

    /// The acts alone.
    pub fn into_acts(self) -> Acts
        ensures { result ≡ self.acts }
    {
        self.acts
    }

    /// How many messages of process `s` process `p` had received by its last commit.
    pub fn committed_receipts(&self, p: u32, s: u32) -> u32
        requires well { IsWell self.now }
        requires processes { (p < length self.now.slots.items) × (s < length self.now.slots.items) }
        ensures { result ≡ slice_index (based_in (slot_at self.now.slots.items p)) s }
    {
        match &self.slots[p as usize] {
            Some(Slot::Up(up)) => up.committed_receipts(s),
            Some(Slot::Down(down)) => down.committed_receipts(s),
            None => 0,
        }
    }

    /// Process `q`, where it is up, learns how many of its messages process `p` has committed.
    fn learn_one(&mut self, q: u32, p: u32)
        requires well { IsWell self.old }
        requires processes { (q < length self.old.slots.items) × (p < length self.old.slots.items) }
        ensures learns { Learns p (slice_index (based_in (slot_at self.old.slots.items p)) q) (slot_at self.old.slots.items q) (slot_at self.new.slots.items q) }
        ensures others { (r : ℕ) → r ≢ q → slot_at self.new.slots.items r ≡ slot_at self.old.slots.items r }
        ensures rest { self.new ≡ record self.old { slots = self.new.slots } }
        ensures long { length self.new.slots.items ≡ length self.old.slots.items }
        ensures well { IsWell self.new }
    {
        let upto = self.committed_receipts(p, q);
        if let Some(Slot::Up(up)) = &mut self.slots[q as usize] {
            up.learn(p, upto);
        }
    }

    /// Each process that is up learns how many of its messages process `p` has committed.
    pub fn learn_of(&mut self, p: u32)
        requires well { IsWell self.old }
        requires process { p < length self.old.slots.items }
        ensures learns { (q : ℕ) → q < length self.old.slots.items → Learns p (slice_index (based_in (slot_at self.old.slots.items p)) q) (slot_at self.old.slots.items q) (slot_at self.new.slots.items q) }
        ensures rest { self.new ≡ record self.old { slots = self.new.slots } }
        ensures long { length self.new.slots.items ≡ length self.old.slots.items }
        ensures well { IsWell self.new }
    {
        for q in 0..self.count() {
            self.learn_one(q, p);
        }
    }

    /// Process `p`, which is up, learns how many of its messages each other one has committed.
    pub fn learn_all(&mut self, p: u32)
        requires well { IsWell self.old }
        requires process { p < length self.old.slots.items }
        ensures learns { LearnsBelow (length self.old.slots.items) (λ q. slice_index (based_in (slot_at self.old.slots.items q)) p) (slot_at self.old.slots.items p) (slot_at self.new.slots.items p) }
        ensures others { (r : ℕ) → r ≢ p → slot_at self.new.slots.items r ≡ slot_at self.old.slots.items r }
        ensures rest { self.new ≡ record self.old { slots = self.new.slots } }
        ensures long { length self.new.slots.items ≡ length self.old.slots.items }
        ensures well { IsWell self.new }
    {
        for q in 0..self.count() {
            self.learn_one(p, q);
        }
    }

    /// Each process learns how many of its messages each one has committed. All are up.
    pub fn learn_each(&mut self)
        requires well { IsWell self.old }
        ensures learns { (p : ℕ) → p < length self.old.slots.items → LearnsBelow (length self.old.slots.items) (λ q. slice_index (based_in (slot_at self.old.slots.items q)) p) (slot_at self.old.slots.items p) (slot_at self.new.slots.items p) }
        ensures rest { self.new ≡ record self.old { slots = self.new.slots } }
        ensures long { length self.new.slots.items ≡ length self.old.slots.items }
        ensures well { IsWell self.new }
    {
        for p in 0..self.count() {
            self.learn_all(p);
        }
    }
}
