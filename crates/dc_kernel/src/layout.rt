//! Where the values of a kernel's text stand, in words: version 1.

ghost use Rattle.std.specs.Prelude.{◌≡◌, ◌≤◌, ◌+◌, ◌*◌};
ghost use Rattle.dc_kernel.specs.Layout.{kernel_words};

use dc_limits::{KEPT_MESSAGES, MESSAGE_BYTES, PROCESSES};

/// The version of the text.
pub const VERSION: u32 = 1;

/// The version.
pub const VERSION_AT: usize = 0;

/// How many processes there are.
pub const N_AT: usize = 1;

/// The process's own number.
pub const P_AT: usize = 2;

/// How it stands: 0 running, 1 exited, 2 trapped.
pub const STATUS_AT: usize = 3;

/// The code of its exit or the cause of its trap.
pub const CODE_AT: usize = 4;

/// The number of the commit.
pub const COMMIT_AT: usize = 5;

/// How many events it has taken.
pub const POSITION_AT: usize = 6;

/// How many of its records were seen.
pub const VISIBLE_AT: usize = 7;

/// How many records of its input it has taken.
pub const INPUTS_TAKEN_AT: usize = 8;

/// The address of the next instruction, in bytes.
pub const PC_AT: usize = 9;

/// The registers x1 to x31.
pub const REGISTERS_AT: usize = 10;

/// How many registers there are behind x0.
pub const REGISTER_COUNT: usize = 31;

/// The entries, one for each process, from process 0 on.
pub const ENTRIES_AT: usize = REGISTERS_AT + REGISTER_COUNT;

/// Of an entry: how many messages were received from the process.
pub const RECEIVED_AT: usize = 0;

/// Of an entry: how many messages were sent to the process.
pub const SENT_AT: usize = 1;

/// Of an entry: how many of these are kept.
pub const KEPT_AT: usize = 2;

/// Of an entry: its slots.
pub const SLOTS_AT: usize = 3;

/// How many slots an entry has.
pub const SLOT_COUNT: usize = KEPT_MESSAGES;

/// Of a slot: how many bytes its message has.
pub const LENGTH_AT: usize = 0;

/// Of a slot: the bytes of its message, with zeros after them.
pub const BYTES_AT: usize = 1;

/// The words of a slot.
pub const SLOT_WORDS: usize = BYTES_AT + MESSAGE_BYTES / 4;

/// The words of an entry.
pub const ENTRY_WORDS: usize = SLOTS_AT + SLOT_COUNT * SLOT_WORDS;

/// How many words the text of a kernel of `n` processes has.
pub fn kernel_words(n: u32) -> usize
    requires { n ≤ PROCESSES }
    ensures { result ≡ kernel_words n }
{
    ENTRIES_AT + n as usize * ENTRY_WORDS
}
