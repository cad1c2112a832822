ghost use Rattle.std.specs.Prelude.{◌≡◌};
ghost use Rattle.dc_calls.specs.Calls.{Fits, call_of, is_within};

use dc_isa::Regs;
use dc_limits::{INPUT_BYTES, MESSAGE_BYTES};

/// What an `ecall` asks for. The call's number is in x17, its arguments are in x10, x11 and x12.
#[derive(Clone, Copy, Debug, PartialEq, Eq)]
pub enum Call {
    /// To end, with a code.
    Exit(u32),
    /// To show bytes of memory: the address of the first, and how many.
    Output(u32, u32),
    /// For the next record of the input: where to put it, and how much room there is.
    Input(u32, u32),
    /// For the clock.
    Clock,
    /// For a random word.
    Random,
    /// To send bytes of memory to a guest: its number, the address of the first byte, and how many.
    Send(u32, u32, u32),
    /// For the next message that came: where to put it, and how much room there is.
    Receive(u32, u32),
    /// For the guest's own number, and how many guests there are.
    Number,
    /// A call whose arguments are refused.
    BadArgument,
    /// A call of a number that is not known.
    Unknown,
}

/// The most bytes that one output shows.
const OUTPUT: u32 = 256;

/// The most bytes of a message, as a register counts them.
const MESSAGE: u32 = MESSAGE_BYTES as u32;

/// Whether bytes from an address on lie within a memory of this many bytes.
fn is_within(from: u32, count: u32, size: u32) -> bool
    ensures { result ≡ is_within from count size }
{
    u64::from(from) + u64::from(count) <= u64::from(size)
}

/// The call that the registers of guest `p` of `n` make, in a memory of this many bytes.
pub fn read_call(regs: &Regs, size: u32, p: u32, n: u32) -> Call
    ensures exact { result ≡ call_of regs.now.x size p n }
    ensures fits { Fits size p n result }
{
    let [first, second, third] = [regs.x[10], regs.x[11], regs.x[12]];
    match regs.x[17] {
        1 => Call::Exit(first),
        2 if second <= OUTPUT && is_within(first, second, size) => Call::Output(first, second),
        3 if second >= INPUT_BYTES && is_within(first, second, size) => Call::Input(first, second),
        4 => Call::Clock,
        5 => Call::Random,
        6 if first < n && first != p && third <= MESSAGE && is_within(second, third, size) => {
            Call::Send(first, second, third)
        }
        7 if second >= MESSAGE && is_within(first, second, size) => Call::Receive(first, second),
        8 => Call::Number,
        2 | 3 | 6 | 7 => Call::BadArgument,
        _ => Call::Unknown,
    }
}
