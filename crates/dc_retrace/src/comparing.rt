//! Whether a played process is what a kernel and the words of a memory say.

ghost use Rattle.std.specs.Prelude.{◌≡◌, ◌<◌, ℕ, Some, false, true, length, slice_get, slice_index};
ghost use Rattle.dc_links.specs.Links.{link_to};
ghost use Rattle.dc_plain.specs.Playing.{world_in};
ghost use Rattle.dc_proc.specs.Processes.{IsKernelAt, IsLinkOf};
ghost use Rattle.dc_retrace.specs.Read.{ends_so};
ghost use Rattle.dc_rv32.specs.Machine.{machine_of};
ghost use Rattle.dc_words.specs.Words.{bytes_in};

use dc_calls::Call;
use dc_events::Next;
use dc_isa::Regs;
use dc_kernel::{Kernel, Status};
use dc_links::{Links, Message};
use dc_plain::Plain;

/// Whether a status says how a guest ended, where this is what it did last.
fn ends_so(ending: Option<Next>, status: Status) -> bool
    ensures { result ≡ ends_so ending status }
{
    match (ending, status) {
        (None, Status::Running) => true,
        (Some(Next::Call(Call::Exit(code))), Status::Exited(said)) => code == said,
        (Some(Next::Trap(cause)), Status::Trapped(said)) => cause == said,
        _ => false,
    }
}

/// Whether the message that is kept for a receiver at an index is this one.
fn is_kept(links: &Links, q: u32, index: u32, message: &Message) -> bool
    requires { q < length links.now }
    ensures is { result ≡ true → slice_get (link_to links.now q).kept index ≡ Some message.now }
    ensures only { slice_get (link_to links.now q).kept index ≡ Some message.now → result ≡ true }
{
    match links.kept(q, index) {
        Some(kept) => kept.as_slice() == message.as_slice(),
        None => false,
    }
}

/// Whether messages that were sent end with those that are kept, and are as many as are said to be sent.
fn is_link_of(sent: &[Message], links: &Links, q: u32) -> bool
    requires { q < length links.now }
    ensures is { result ≡ true → IsLinkOf sent.now (link_to links.now q) }
    ensures only { IsLinkOf sent.now (link_to links.now q) → result ≡ true }
{
    let count = links.sent(q);
    if sent.len() != count as usize {
        return false;
    }
    let mut rest = &sent[(count - links.kept_count(q)) as usize..];
    let mut index = 0;
    while let [message, after @ ..] = rest {
        if !is_kept(links, q, index, message) {
            return false;
        }
        index += 1;
        rest = after;
    }
    true
}

/// Whether a process has sent what links say.
fn has_sent(plain: &Plain, p: u32, n: u32, links: &Links) -> bool
    requires process { p < length plain.now.processes }
    requires count { length plain.now.processes ≡ n }
    requires links { length links.now ≡ n }
    ensures is { result ≡ true → (q : ℕ) → q < n → IsLinkOf (((world_in plain.now).procs p).sent q) (link_to links.now q) }
    ensures only { ((q : ℕ) → q < n → IsLinkOf (((world_in plain.now).procs p).sent q) (link_to links.now q)) → result ≡ true }
{
    for q in 0..n {
        if !is_link_of(plain.sent(p, q), links, q) {
            return false;
        }
    }
    true
}

/// Whether it has received what a kernel says.
fn has_received(plain: &Plain, p: u32, kernel: &Kernel) -> bool
    requires process { p < length plain.now.processes }
    requires count { kernel.now.n ≡ length plain.now.processes }
    ensures is { result ≡ true → (s : ℕ) → s < kernel.now.n → slice_index kernel.now.received s ≡ ((world_in plain.now).procs p).received s }
    ensures only { ((s : ℕ) → s < kernel.now.n → slice_index kernel.now.received s ≡ ((world_in plain.now).procs p).received s) → result ≡ true }
{
    for s in 0..kernel.n() {
        if plain.received(p, s) != kernel.received(s) as usize {
            return false;
        }
    }
    true
}

/// Whether registers are those that are said.
fn has_regs(regs: &Regs, said: &Regs) -> bool
    ensures is { result ≡ true → regs.now ≡ said.now }
    ensures only { regs.now ≡ said.now → result ≡ true }
{
    regs.x.as_slice() == said.x.as_slice() && regs.pc == said.pc
}

/// Whether words are the same.
fn are_same(words: &[u32], said: &[u32]) -> bool
    ensures is { result ≡ true → words.now ≡ said.now }
    ensures only { words.now ≡ said.now → result ≡ true }
{
    words == said
}

/// Whether the words of a memory are those that are said; their bytes tell.
fn has_words(words: &[u32], said: &[u32]) -> bool
    ensures is { result ≡ true → words.now ≡ said.now }
    ensures only { bytes_in words.now ≡ bytes_in said.now → result ≡ true }
{
    are_same(words, said)
}

/// Whether its guest is where a kernel and the words of a memory say.
fn has_machine(plain: &Plain, p: u32, words: &[u32], kernel: &Kernel) -> bool
    requires process { p < length plain.now.processes }
    ensures is { result ≡ true → ((world_in plain.now).procs p).machine.machine ≡ machine_of kernel.now.regs words.now }
    ensures only { ((world_in plain.now).procs p).machine.machine ≡ machine_of kernel.now.regs words.now → result ≡ true }
{
    has_regs(plain.regs(p), kernel.regs()) && has_words(plain.words(p), words)
}

/// Whether it is what a kernel and the words of a memory say; of the kernel all but its position and the number of its commit.
pub(crate) fn is_at(plain: &Plain, p: u32, words: &[u32], kernel: &Kernel) -> bool
    requires process { p < length plain.now.processes }
    requires count { kernel.now.n ≡ length plain.now.processes }
    requires links { length kernel.now.links ≡ kernel.now.n }
    requires own { kernel.now.p ≡ p }
    ensures is { result ≡ true → ((world_in plain.now).procs p).machine.number ≡ p → ((world_in plain.now).procs p).machine.count ≡ kernel.now.n
        → IsKernelAt kernel.now.n p kernel.now.position ((world_in plain.now).procs p) words.now kernel.now }
    ensures only { IsKernelAt kernel.now.n p kernel.now.position ((world_in plain.now).procs p) words.now kernel.now → result ≡ true }
{
    has_machine(plain, p, words, kernel)
        && ends_so(plain.ending(p), kernel.status())
        && plain.visible_count(p) == kernel.visible()
        && plain.inputs_taken(p) == kernel.inputs_taken() as usize
        && has_received(plain, p, kernel)
        && has_sent(plain, p, kernel.n(), kernel.links())
}
