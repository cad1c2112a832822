ghost use Rattle.std.specs.Prelude.{◌≡◌, ◌≢◌, ◌<◌, ◌≤◌, ◌-◌, ◌^◌, ◌%◌, IfOk, length, replicate, slice_index, slice_set};
ghost use Rattle.dc_kernel.specs.Kernels.{IsStatus};
ghost use Rattle.dc_kernel.specs.Kernels as seen;
ghost use Rattle.dc_links.specs.Links.{link_to, trimmed, unused, with_sent};

use crate::status::Status;
use dc_isa::Regs;
use dc_limits::{KEPT_MESSAGES, PROCESSES};
use dc_links::{Links, Message};
use std::alloc::{AllocError, Global};
use std::marker::Model;

/// What of a process is saved beside its memory. Process `p` is one of `n`, which are numbered from 0.
#[derive(Drop)]
pub struct Kernel {
    pub(crate) n: u32,
    pub(crate) p: u32,
    pub(crate) status: Status,
    pub(crate) commit: u32,
    pub(crate) position: u32,
    pub(crate) visible: u32,
    pub(crate) inputs_taken: u32,
    pub(crate) regs: Regs,
    pub(crate) received: Vec<u32>,
    pub(crate) links: Links,
}

impl Model for Kernel {
    ghost use Rattle.dc_kernel.specs.Kernels as seen;

    ghost Value = { seen.Kernel };

    ghost view = { λ k. record {
      n = k.n;
      p = k.p;
      status = k.status;
      commit = k.commit;
      position = k.position;
      visible = k.visible;
      inputs_taken = k.inputs_taken;
      regs = k.regs;
      received = k.received.items;
      links = k.links;
    } };

    ghost invariant = { λ k. seen.IsProcess k.n k.p k.status k.regs k.received.items k.links };
}

impl Kernel {
    /// A process that is running and has done nothing. All memory is taken here.
    pub fn new(alloc: Global, n: u32, p: u32) -> Result<Kernel, AllocError>
        requires few { n ≤ PROCESSES }
        requires one_of { p < n }
        ensures { IfOk result (λ k. k ≡ seen.fresh n p) }
    {
        Ok(Kernel {
            n,
            p,
            status: Status::Running,
            commit: 0,
            position: 0,
            visible: 0,
            inputs_taken: 0,
            regs: Regs { x: [0; 32], pc: 0 },
            received: vec![in alloc; 0; n as usize]?,
            links: Links::new(alloc, n)?,
        })
    }

    /// How many processes there are.
    pub fn n(&self) -> u32
        ensures n { result ≡ self.now.n }
        ensures few { result ≤ PROCESSES }
        ensures one_of { self.now.p < result }
    {
        self.n
    }

    /// The process's own number.
    pub fn p(&self) -> u32
        ensures p { result ≡ self.now.p }
        ensures one_of { result < self.now.n }
    {
        self.p
    }

    /// How the process stands.
    pub fn status(&self) -> Status
        ensures status { result ≡ self.now.status }
        ensures cause { IsStatus result }
    {
        self.status
    }

    /// Nothing else changes.
    pub fn set_status(&mut self, status: Status)
        requires { IsStatus status }
        ensures { self.new ≡ record self.old { status = status } }
    {
        self.status = status;
    }

    /// The number of the commit that this is the state of. The first state has number 1, and 0 is before it.
    pub fn commit(&self) -> u32
        ensures { result ≡ self.now.commit }
    {
        self.commit
    }

    /// Nothing else changes.
    pub fn set_commit(&mut self, commit: u32)
        ensures { self.new ≡ record self.old { commit = commit } }
    {
        self.commit = commit;
    }

    /// How many events the process has taken since it began: an instruction, a call or a trap.
    pub fn position(&self) -> u32
        ensures { result ≡ self.now.position }
    {
        self.position
    }

    /// Nothing else changes.
    pub fn set_position(&mut self, position: u32)
        ensures { self.new ≡ record self.old { position = position } }
    {
        self.position = position;
    }

    /// How many records users have seen of the process.
    pub fn visible(&self) -> u32
        ensures { result ≡ self.now.visible }
    {
        self.visible
    }

    /// Nothing else changes.
    pub fn set_visible(&mut self, visible: u32)
        ensures { self.new ≡ record self.old { visible = visible } }
    {
        self.visible = visible;
    }

    /// How many records of its input the process has taken.
    pub fn inputs_taken(&self) -> u32
        ensures { result ≡ self.now.inputs_taken }
    {
        self.inputs_taken
    }

    /// Nothing else changes.
    pub fn set_inputs_taken(&mut self, inputs_taken: u32)
        ensures { self.new ≡ record self.old { inputs_taken = inputs_taken } }
    {
        self.inputs_taken = inputs_taken;
    }

    /// The registers, and the address of the next instruction.
    pub fn regs(&self) -> &Regs
        ensures regs { result.now ≡ self.now.regs }
        ensures zero { slice_index result.now.x 0 ≡ 0 }
        ensures aligned { result.now.pc % 4 ≡ 0 }
    {
        &self.regs
    }

    /// Nothing else changes. Register x0 is always 0, and an instruction stands at a multiple of 4 (RISC-V unprivileged manual, RV32I).
    pub fn set_regs(&mut self, regs: Regs)
        requires zero { slice_index regs.x 0 ≡ 0 }
        requires aligned { regs.pc % 4 ≡ 0 }
        ensures { self.new ≡ record self.old { regs = regs } }
    {
        self.regs = regs;
    }

    /// How many messages the process has received from `q`.
    pub fn received(&self, q: u32) -> u32
        requires { q < self.now.n }
        ensures received { result ≡ slice_index self.now.received q }
        ensures none { q ≡ self.now.p → result ≡ 0 }
    {
        self.received[q as usize]
    }

    /// Nothing else changes. A process receives nothing from itself.
    pub fn set_received(&mut self, q: u32, received: u32)
        requires other { q ≢ self.old.p }
        requires one_of { q < self.old.n }
        ensures { self.new ≡ record self.old { received = slice_set self.old.received q received } }
    {
        self.received[q as usize] = received;
    }

    /// What the process has sent, by receiver. Nothing is sent to itself.
    pub fn links(&self) -> &Links
        ensures links { result.now ≡ self.now.links }
        ensures receivers { length result.now ≡ self.now.n }
        ensures none { link_to result.now self.now.p ≡ unused }
    {
        &self.links
    }

    /// Sends process `q` one message more, which has room among those that are kept.
    pub fn keep(&mut self, q: u32, message: &Message)
        requires other { q ≢ self.old.p }
        requires one_of { q < self.old.n }
        requires room { length (link_to self.old.links q).kept < KEPT_MESSAGES }
        requires sent { (link_to self.old.links q).sent < 2 ^ 32 - 1 }
        ensures { self.new ≡ record self.old { links = slice_set self.old.links q (with_sent (link_to self.old.links q) message.now) } }
    {
        self.links.keep(q, message);
    }

    /// Drops the messages to process `q` that are numbered below `upto`. It takes time only for what it drops.
    pub fn trim(&mut self, q: u32, upto: u32)
        requires { q < self.old.n }
        ensures { self.new ≡ record self.old { links = slice_set self.old.links q (trimmed (link_to self.old.links q) upto) } }
    {
        self.links.trim(q, upto);
    }
}
