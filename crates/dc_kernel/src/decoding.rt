ghost use Rattle.std.specs.Prelude.{◌≡◌, ◌<◌, ◌≤◌, ◌*◌, ◌∷◌, None, Ok, OnErr, OnOk, IsOk, drop, length, map, slice_index, slice_set, take, true};
ghost use Rattle.std.specs.List.{list_all};
ghost use Rattle.dc_kernel.specs.Faults.{kernel_fault, is_entry};
ghost use Rattle.dc_kernel.specs.Kernels.{IsKernel};
ghost use Rattle.dc_kernel.specs.Kernels as seen;
ghost use Rattle.dc_kernel.specs.Layout.{entries_at, entry_words, length_at, message_room, parts, slot_words};
ghost use Rattle.dc_kernel.specs.Readings.{kernel_in, link_in, message_in, received_in, regs_in, status_in, refusal};
ghost use Rattle.dc_kernel.specs.Texts.{text_of};

use crate::checking::{fault_in, slot_bytes};
use crate::faults::KernelFault;
use crate::kernel::Kernel;
use crate::layout::{
    CODE_AT, COMMIT_AT, ENTRIES_AT, ENTRY_WORDS, INPUTS_TAKEN_AT, KEPT_AT, LENGTH_AT, PC_AT,
    POSITION_AT, RECEIVED_AT, REGISTERS_AT, SENT_AT, SLOT_WORDS, SLOTS_AT, STATUS_AT, VISIBLE_AT,
};
use crate::status::Status;
use dc_isa::Regs;
use dc_limits::PROCESSES;
use dc_links::{Links, Message};

fn status_in(status: u32, code: u32) -> Status
    ensures { result ≡ status_in status code }
{
    match status {
        0 => Status::Running,
        1 => Status::Exited(code),
        _ => Status::Trapped(code),
    }
}

fn regs_in(words: &[u32]) -> Regs
    requires { entries_at ≤ length words.now }
    ensures { result ≡ regs_in words.now }
{
    let mut x = [0; 32];
    x[1..].copy_from_slice(&words[REGISTERS_AT..ENTRIES_AT]);
    Regs {
        x,
        pc: words[PC_AT],
    }
}

/// The message in a slot.
pub fn message_in(slot: &[u32]) -> Message
    requires long { length slot.now ≡ slot_words }
    requires short { slice_index slot.now length_at ≤ message_room }
    ensures { result ≡ message_in slot.now }
{
    Message::new(&slot_bytes(slot)[..slot[LENGTH_AT] as usize])
}

/// Sets what was sent to process `q` to what its entry says.
fn read_link(links: &mut Links, q: u32, entry: &[u32])
    requires one_of { q < length links.old }
    requires long { length entry.now ≡ entry_words }
    requires entry { is_entry entry.now ≡ true }
    ensures { links.new ≡ slice_set links.old q (link_in entry.now) }
{
    let kept = entry[KEPT_AT];
    links.restart(q, entry[SENT_AT] - kept);
    let mut rest = &entry[SLOTS_AT..];
    for _ in 0..kept {
        let (slot, others) = rest.split_at(SLOT_WORDS);
        links.keep(q, &message_in(slot));
        rest = others;
    }
}

/// Sets what was received from and sent to each process to what the entries say.
fn read_entries(received: &mut [u32], links: &mut Links, entries: &[u32])
    requires few { length received.old ≤ PROCESSES }
    requires receivers { length links.old ≡ length received.old }
    requires long { length entries.now ≡ entry_words * length received.old }
    requires entries { list_all is_entry (parts (length received.old) entry_words entries.now) ≡ true }
    ensures received { received.new ≡ map received_in (parts (length received.old) entry_words entries.now) }
    ensures links { links.new ≡ map link_in (parts (length received.old) entry_words entries.now) }
{
    let mut rest = entries;
    for q in 0..received.len() {
        let (entry, others) = rest.split_at(ENTRY_WORDS);
        received[q] = entry[RECEIVED_AT];
        read_link(links, q as u32, entry);
        rest = others;
    }
}

impl Kernel {
    /// Sets every value to what a text says.
    #[tactic(auto, unfolding(crate::specs::Faults::kernel_fault))]
    fn read(&mut self, words: &[u32])
        requires { kernel_fault self.old.n self.old.p words.now ≡ None }
        ensures { self.new ≡ kernel_in self.old.n self.old.p words.now }
    {
        self.status = status_in(words[STATUS_AT], words[CODE_AT]);
        self.commit = words[COMMIT_AT];
        self.position = words[POSITION_AT];
        self.visible = words[VISIBLE_AT];
        self.inputs_taken = words[INPUTS_TAKEN_AT];
        self.regs = regs_in(words);
        read_entries(&mut self.received, &mut self.links, &words[ENTRIES_AT..]);
    }

    /// Becomes the kernel that the words are the text of, where it is one of this process of so many. No memory is taken.
    pub fn decode(&mut self, words: &[u32]) -> Result<(), KernelFault>
        // What is read is written so, and what is written is read.
        ensures kernel { OnOk result (IsKernel self.old.n self.old.p self.new × (words.now ≡ text_of self.new)) }
        ensures only { (kernel : seen.Kernel) → IsKernel self.old.n self.old.p kernel → words.now ≡ text_of kernel → IsOk result × (self.new ≡ kernel) }
        // Which fault it is.
        ensures exact { refusal result ≡ kernel_fault self.old.n self.old.p words.now }
        ensures unchanged { OnErr result (self.new ≡ self.old) }
    {
        if let Some(fault) = fault_in(self.n, self.p, words) {
            return Err(fault);
        }
        self.read(words);
        Ok(())
    }
}
