ghost use Rattle.std.specs.Prelude.{◌≡◌, ◌<◌, ◌≤◌, ◌*◌, None, length, slice_index};
ghost use Rattle.std.specs.List.{AllByRecursion};
ghost use Rattle.dc_kernel.specs.Faults.{kernel_fault};
ghost use Rattle.dc_kernel.specs.Kernels.{IsKernel, IsLink, IsMessage};
ghost use Rattle.dc_kernel.specs.Layout.{commit_at, entry_words, kernel_words, n_at, p_at, slot_count, slot_words};
ghost use Rattle.dc_kernel.specs.Texts.{entries_text, entry_text, header_text, slot_text, slots_text, status_code, status_word, text_of};
ghost use Rattle.dc_links.specs.Links.{link_to};

use crate::kernel::Kernel;
use crate::layout::{
    BYTES_AT, CODE_AT, COMMIT_AT, ENTRIES_AT, ENTRY_WORDS, INPUTS_TAKEN_AT, KEPT_AT, LENGTH_AT,
    N_AT, P_AT, PC_AT, POSITION_AT, RECEIVED_AT, REGISTERS_AT, SENT_AT, SLOT_WORDS, SLOTS_AT,
    STATUS_AT, VERSION, VERSION_AT, VISIBLE_AT,
};
use crate::status::Status;
use dc_limits::PROCESSES;
use dc_links::{Links, Message};
use dc_words::words_of;

fn status_word(status: Status) -> u32
    ensures { result ≡ status_word status }
{
    match status {
        Status::Running => 0,
        Status::Exited(_) => 1,
        Status::Trapped(_) => 2,
    }
}

fn status_code(status: Status) -> u32
    ensures { result ≡ status_code status }
{
    match status {
        Status::Running => 0,
        Status::Exited(code) => code,
        Status::Trapped(cause) => cause,
    }
}

/// Writes a message into its slot.
pub fn write_slot(message: &Message, slot: &mut [u32])
    requires { length slot.old ≡ slot_words }
    ensures text { slot.new ≡ slot_text message.now }
    ensures message { IsMessage message.now }
{
    let bytes = message.as_slice();
    slot[LENGTH_AT] = bytes.len() as u32;
    words_of(message.as_padded(), &mut slot[BYTES_AT..]);
}

/// Writes the messages that are kept for process `q`, and zeros into the slots that are left.
fn write_slots(links: &Links, q: u32, slots: &mut [u32])
    requires one_of { q < length links.now }
    requires few { length (link_to links.now q).kept ≤ slot_count }
    requires room { length slots.old ≡ slot_words * slot_count }
    ensures text { slots.new ≡ slots_text (link_to links.now q).kept }
    ensures messages { AllByRecursion IsMessage (link_to links.now q).kept }
{
    slots.fill(0);
    let mut j = 0;
    while let Some(message) = links.kept(q, j) {
        let at = j as usize * SLOT_WORDS;
        write_slot(message, &mut slots[at..at + SLOT_WORDS]);
        j += 1;
    }
}

/// Writes the entry of process `q`.
fn write_entry(received: u32, links: &Links, q: u32, entry: &mut [u32])
    requires one_of { q < length links.now }
    requires room { length entry.old ≡ entry_words }
    ensures text { entry.new ≡ entry_text received (link_to links.now q) }
    ensures link { IsLink (link_to links.now q) }
{
    entry[RECEIVED_AT] = received;
    entry[SENT_AT] = links.sent(q);
    entry[KEPT_AT] = links.kept_count(q);
    write_slots(links, q, &mut entry[SLOTS_AT..]);
}

/// Writes the entries of all processes.
fn write_entries(received: &[u32], links: &Links, entries: &mut [u32])
    requires few { length received.now ≤ PROCESSES }
    requires receivers { length links.now ≡ length received.now }
    requires room { length entries.old ≡ entry_words * length received.now }
    ensures text { entries.new ≡ entries_text received.now links.now }
    ensures links { AllByRecursion IsLink links.now }
{
    for (q, count) in received.iter().enumerate() {
        let at = q * ENTRY_WORDS;
        write_entry(*count, links, q as u32, &mut entries[at..at + ENTRY_WORDS]);
    }
}

impl Kernel {
    /// The words before the registers.
    fn header(&self) -> [u32; REGISTERS_AT]
        ensures { result ≡ header_text self.now }
    {
        let mut header = [0; REGISTERS_AT];
        header[VERSION_AT] = VERSION;
        header[N_AT] = self.n;
        header[P_AT] = self.p;
        header[STATUS_AT] = status_word(self.status);
        header[CODE_AT] = status_code(self.status);
        header[COMMIT_AT] = self.commit;
        header[POSITION_AT] = self.position;
        header[VISIBLE_AT] = self.visible;
        header[INPUTS_TAKEN_AT] = self.inputs_taken;
        header[PC_AT] = self.regs.pc;
        header
    }

    /// Writes the one text of the kernel.
    pub fn encode(&self, to: &mut [u32])
        requires { length to.old ≡ kernel_words self.now.n }
        ensures text { to.new ≡ text_of self.now }
        ensures kernel { IsKernel self.now.n self.now.p self.now }
        ensures commit { slice_index to.new commit_at ≡ self.now.commit }
        ensures process { (slice_index to.new n_at ≡ self.now.n) × (slice_index to.new p_at ≡ self.now.p) }
        ensures faultless { kernel_fault self.now.n self.now.p to.new ≡ None }
    {
        to[..REGISTERS_AT].copy_from_slice(&self.header());
        to[REGISTERS_AT..ENTRIES_AT].copy_from_slice(&self.regs.x[1..]);
        write_entries(&self.received, &self.links, &mut to[ENTRIES_AT..]);
    }
}
