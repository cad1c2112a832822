//! Kernels and their texts. A text of words is given by those that are not 0, each as `index=word`, the word in hexadecimal.

ghost use Rattle.std.specs.Prelude.{◌≤◌, ◌<◌};

mod records;

use crate::holding::holds;
use dc_checkpoint::{CheckFault, StoreFault};
use dc_isa::Regs;
use dc_kernel::{Kernel, KernelFault, LogRecord, Reply, Saved, Status, kernel_words};
use dc_links::Message;
use std::alloc::{AllocError, Global};
use std::test::Fail;

/// Process 0 of 1, which exited with 7, at its third commit.
const ONE: &str = "\
0=1 1=1 3=1 4=7 5=3 6=3e8 7=2 8=5 9=104 10=80000001 11=80000002 12=80000003 13=80000004 14=80000005
15=80000006 16=80000007 17=80000008 18=80000009 19=8000000a 20=8000000b 21=8000000c 22=8000000d 23=8000000e
24=8000000f 25=80000010 26=80000011 27=80000012 28=80000013 29=80000014 30=80000015 31=80000016 32=80000017
33=80000018 34=80000019 35=8000001a 36=8000001b 37=8000001c 38=8000001d 39=8000001e 40=8000001f
";

/// Process 3 of 8, which trapped for the greatest cause. It keeps two messages for process 0 and one for process 7.
const EIGHT: &str = "\
0=1 1=8 2=3 3=2 4=7 5=ffffffff 6=4 7=5 8=6 9=fffffffc 40=ffffffff 41=a 42=2 43=2 44=5 45=6c6c6568 46=6f 180=b
181=1 319=c 320=2 597=e 598=4 736=f 737=5 875=10 876=6 1014=11 1015=ffffffff 1016=1 1017=40 1018=4030201
1019=8070605 1020=c0b0a09 1021=100f0e0d 1022=14131211 1023=18171615 1024=1c1b1a19 1025=201f1e1d 1026=24232221
1027=28272625 1028=2c2b2a29 1029=302f2e2d 1030=34333231 1031=38373635 1032=3c3b3a39 1033=403f3e3d
";

/// Process 0 of 2, which sent ten messages to process 1 and keeps the last eight of them.
const TWO: &str = "\
0=1 1=2 5=1 180=9 181=a 182=8 183=2 184=6602 200=2 201=6703 217=2 218=6804 234=2 235=6905 251=2 252=6a06 268=2
269=6b07 285=2 286=6c08 302=2 303=6d09
";

/// Process 0 of 2, which sent three empty messages to process 1 and keeps them.
const THREE: &str = "0=1 1=2 181=3 182=3";

/// What is wrong with the text of two where other words stand at some indexes: a version; another number of processes, another process;
/// more kept than there are slots, than were sent; a message of 65 bytes, bytes past a length; a slot that is not used; the process's own
/// entry; a status, a code, a cause and an address that are none.
const FAULTS: &str = "\
0=0|version
0=2 1=3 3=3|version
1=3|count
2=1 3=3|count
182=9|count
181=7|count
183=41|count
184=16602|count
199=80000000|count
182=7|count
182=7 302=0|count
41=1|count
42=1|count
42=1 43=1|count
179=1|count
3=3|status
3=3 4=1|status
4=1|status
3=2 4=8|status
9=2|status
3=1 9=1|status
";

/// The registers of that of one.
const X: [u32; 32] = [
    0,
    0x8000_0001,
    0x8000_0002,
    0x8000_0003,
    0x8000_0004,
    0x8000_0005,
    0x8000_0006,
    0x8000_0007,
    0x8000_0008,
    0x8000_0009,
    0x8000_000a,
    0x8000_000b,
    0x8000_000c,
    0x8000_000d,
    0x8000_000e,
    0x8000_000f,
    0x8000_0010,
    0x8000_0011,
    0x8000_0012,
    0x8000_0013,
    0x8000_0014,
    0x8000_0015,
    0x8000_0016,
    0x8000_0017,
    0x8000_0018,
    0x8000_0019,
    0x8000_001a,
    0x8000_001b,
    0x8000_001c,
    0x8000_001d,
    0x8000_001e,
    0x8000_001f,
];

/// The message that fills its slot.
const FULL: [u8; 64] = [
    1, 2, 3, 4, 5, 6, 7, 8, 9, 10, 11, 12, 13, 14, 15, 16, 17, 18, 19, 20, 21, 22, 23, 24, 25, 26,
    27, 28, 29, 30, 31, 32, 33, 34, 35, 36, 37, 38, 39, 40, 41, 42, 43, 44, 45, 46, 47, 48, 49, 50,
    51, 52, 53, 54, 55, 56, 57, 58, 59, 60, 61, 62, 63, 64,
];

fn word_of(digits: &str) -> Result<u32, Fail> {
    Ok(u32::from_str_radix(digits, 16)?)
}

fn set_word(words: &mut [u32], at: usize, word: u32) -> Result<(), Fail> {
    match words.get_mut(at) {
        Some(slot) => {
            *slot = word;
            Ok(())
        }
        None => Err(Fail::new("an index past the end")),
    }
}

fn set_from(words: &mut [u32], text: &str) -> Result<(), Fail> {
    let Some((at, word)) = text.split_once('=') else {
        return Err(Fail::new(text));
    };
    set_word(words, at.parse::<usize>()?, word_of(word)?)
}

fn set(words: &mut [u32], texts: &str) -> Result<(), Fail> {
    for text in texts.split_whitespace() {
        set_from(words, text)?;
    }
    Ok(())
}

/// As many words as a kernel of `n` has.
fn words(alloc: Global, n: u32, texts: &str) -> Result<Vec<u32>, Fail>
    requires { n ≤ 8 }
{
    let mut words = vec![in alloc; 0; kernel_words(n)]?;
    set(&mut words, texts)?;
    Ok(words)
}

fn encoded(alloc: Global, kernel: &Kernel) -> Result<Vec<u32>, AllocError> {
    let mut words = vec![in alloc; 9; kernel_words(kernel.n())]?;
    kernel.encode(&mut words);
    Ok(words)
}

/// Fails where the kernel has another text.
fn has_text(alloc: Global, kernel: &Kernel, texts: &str) -> Result<(), Fail> {
    let text = words(alloc, kernel.n(), texts)?;
    let written = encoded(alloc, kernel)?;
    holds(written.as_slice() == text.as_slice(), texts)
}

/// Decodes a text that has other words at some indexes. Fails where that answers another fault, or none.
fn answers(
    alloc: Global,
    kernel: &mut Kernel,
    text: &str,
    others: &str,
    fault: &str,
) -> Result<(), Fail> {
    let mut words = words(alloc, kernel.n(), text)?;
    set(&mut words, others)?;
    is_fault(alloc, kernel.decode(&words), fault)
}

/// Fails where another fault was answered, or none. An empty text stands for none.
fn is_fault(alloc: Global, answer: Result<(), KernelFault>, want: &str) -> Result<(), Fail> {
    match answer {
        Ok(()) => holds(want.is_empty(), want),
        Err(fault) => has_name(alloc, fault, want),
    }
}

fn has_name(alloc: Global, fault: KernelFault, want: &str) -> Result<(), Fail> {
    let told = format!(in alloc; "{fault}")?;
    holds(told.as_str() == want, want)
}

/// Keeps a message of these bytes for process 1.
fn keep(kernel: &mut Kernel, bytes: &[u8]) -> Result<(), Fail> {
    if bytes.len() > 64 || 1 >= kernel.n() || kernel.p() == 1 {
        return Err(Fail::new("no message"));
    }
    if kernel.links().kept_count(1) >= 8 || kernel.links().sent(1) == u32::MAX {
        return Err(Fail::new("no room"));
    }
    kernel.keep(1, &Message::new(bytes));
    Ok(())
}

fn trim(kernel: &mut Kernel, q: u32, upto: u32) -> Result<(), Fail> {
    if q >= kernel.n() {
        return Err(Fail::new("no receiver"));
    }
    kernel.trim(q, upto);
    Ok(())
}

/// Whether the message to process `q` of that number is kept, with these bytes.
fn has(kernel: &Kernel, q: u32, number: u32, bytes: &[u8]) -> bool {
    if q >= kernel.n() {
        return false;
    }
    match kernel.links().next_for(q, number) {
        Some(message) => message.as_slice() == bytes,
        None => false,
    }
}

/// How many messages were received from process `q`.
fn received(kernel: &Kernel, q: u32) -> Option<u32> {
    if q < kernel.n() {
        Some(kernel.received(q))
    } else {
        None
    }
}

#[test]
fn a_new_kernel_has_done_nothing(rt: HostRuntime) -> Result<(), Fail> {
    let kernel = Kernel::new(rt.alloc(), 1, 0)?;
    holds(kernel_words(1) == 180, "words of one")?;
    has_text(rt.alloc(), &kernel, "0=1 1=1")
}

fn set_counts(kernel: &mut Kernel) {
    kernel.set_commit(3);
    kernel.set_position(1000);
}

fn set_progress(kernel: &mut Kernel) {
    kernel.set_visible(2);
    kernel.set_inputs_taken(5);
}

fn become_one(kernel: &mut Kernel) {
    kernel.set_status(Status::Exited(7));
    set_counts(kernel);
    set_progress(kernel);
    kernel.set_regs(Regs { x: X, pc: 0x104 });
}

fn has_values_of_one(kernel: &Kernel) -> Result<(), Fail> {
    holds(kernel.status() == Status::Exited(7), "status")?;
    holds(kernel.commit() == 3, "commit")?;
    holds(kernel.position() == 1000, "position")?;
    holds(kernel.visible() == 2, "visible")?;
    holds(kernel.inputs_taken() == 5, "inputs taken")?;
    holds(*kernel.regs() == Regs { x: X, pc: 0x104 }, "registers")
}

#[test]
fn a_kernel_of_one_has_its_text(rt: HostRuntime) -> Result<(), Fail> {
    let mut kernel = Kernel::new(rt.alloc(), 1, 0)?;
    become_one(&mut kernel);
    has_text(rt.alloc(), &kernel, ONE)?;
    let mut other = Kernel::new(rt.alloc(), 1, 0)?;
    answers(rt.alloc(), &mut other, ONE, "", "")?;
    has_values_of_one(&other)?;
    has_text(rt.alloc(), &other, ONE)
}

fn has_values_of_eight(kernel: &Kernel) -> Result<(), Fail> {
    holds(kernel.n() == 8, "n")?;
    holds(kernel.p() == 3, "p")?;
    holds(kernel.status() == Status::Trapped(7), "status")?;
    holds(kernel.commit() == u32::MAX, "commit")?;
    holds(kernel.regs().pc == 0xffff_fffc, "pc")?;
    holds(kernel.regs().x[31] == u32::MAX, "x31")
}

fn has_messages_of_eight(kernel: &Kernel) -> Result<(), Fail> {
    holds(received(kernel, 2) == Some(12), "received from 2")?;
    holds(received(kernel, 3) == Some(0), "received from itself")?;
    holds(received(kernel, 7) == Some(17), "received from 7")?;
    holds(has(kernel, 0, 0, b"hello"), "first to 0")?;
    holds(has(kernel, 0, 1, b""), "second to 0")?;
    holds(has(kernel, 7, u32::MAX - 1, &FULL), "last to 7")
}

#[test]
fn a_kernel_of_eight_is_read_from_its_text(rt: HostRuntime) -> Result<(), Fail> {
    holds(kernel_words(8) == 1153, "words of eight")?;
    let mut kernel = Kernel::new(rt.alloc(), 8, 3)?;
    answers(rt.alloc(), &mut kernel, EIGHT, "", "")?;
    has_values_of_eight(&kernel)?;
    has_messages_of_eight(&kernel)?;
    has_text(rt.alloc(), &kernel, EIGHT)
}

/// Keeps the messages of these numbers for process 1.
fn keep_numbered(kernel: &mut Kernel, from: u8, end: u8) -> Result<(), Fail> {
    for k in from..end {
        keep(kernel, &[k, k.saturating_add(100)])?;
    }
    Ok(())
}

/// At its first commit, with nine messages received from process 1.
fn receive_nine(kernel: &mut Kernel) -> Result<(), Fail> {
    if kernel.n() <= 1 || kernel.p() == 1 {
        return Err(Fail::new("no sender"));
    }
    kernel.set_commit(1);
    kernel.set_received(1, 9);
    Ok(())
}

/// Sends process 1 ten messages, and drops two of them before the last two.
fn send_ten(kernel: &mut Kernel) -> Result<(), Fail> {
    keep_numbered(kernel, 0, 8)?;
    trim(kernel, 1, 2)?;
    keep_numbered(kernel, 8, 10)
}

fn keeps_the_last(kernel: &Kernel) -> Result<(), Fail> {
    holds(!has(kernel, 1, 1, &[1, 101]), "message 1")?;
    holds(has(kernel, 1, 2, &[2, 102]), "message 2")?;
    holds(has(kernel, 1, 9, &[9, 109]), "message 9")
}

#[test]
fn slots_hold_the_last_messages(rt: HostRuntime) -> Result<(), Fail> {
    let mut kernel = Kernel::new(rt.alloc(), 2, 0)?;
    receive_nine(&mut kernel)?;
    send_ten(&mut kernel)?;
    has_text(rt.alloc(), &kernel, TWO)
}

#[test]
fn the_last_messages_are_read(rt: HostRuntime) -> Result<(), Fail> {
    let mut kernel = Kernel::new(rt.alloc(), 2, 0)?;
    answers(rt.alloc(), &mut kernel, TWO, "", "")?;
    keeps_the_last(&kernel)
}

fn row_holds(alloc: Global, kernel: &mut Kernel, row: &str) -> Result<(), Fail> {
    let Some((others, fault)) = row.split_once('|') else {
        return Err(Fail::new(row));
    };
    answers(alloc, kernel, TWO, others, fault)
}

#[test]
fn the_first_fault_is_answered(rt: HostRuntime) -> Result<(), Fail> {
    let mut kernel = Kernel::new(rt.alloc(), 2, 0)?;
    for row in FAULTS.lines() {
        row_holds(rt.alloc(), &mut kernel, row)?;
    }
    // and the kernel is as new
    has_text(rt.alloc(), &kernel, "0=1 1=2")
}

#[test]
fn three_are_not_kept_of_two(rt: HostRuntime) -> Result<(), Fail> {
    let mut kernel = Kernel::new(rt.alloc(), 2, 0)?;
    answers(rt.alloc(), &mut kernel, THREE, "181=2", "count")?;
    answers(rt.alloc(), &mut kernel, THREE, "", "")?;
    holds(has(&kernel, 1, 2, b""), "message 2")
}

#[test]
fn an_exit_may_have_the_greatest_code(rt: HostRuntime) -> Result<(), Fail> {
    let mut kernel = Kernel::new(rt.alloc(), 2, 0)?;
    answers(rt.alloc(), &mut kernel, TWO, "3=1 4=ffffffff", "")?;
    holds(kernel.status() == Status::Exited(u32::MAX), "status")
}

fn decodes(alloc: Global, words: &[u32], fault: &str) -> Result<(), Fail> {
    let mut kernel = Kernel::new(alloc, 2, 0)?;
    is_fault(alloc, kernel.decode(words), fault)
}

#[test]
fn other_sizes_are_refused_first(rt: HostRuntime) -> Result<(), Fail> {
    let zeros = [0; 320];
    decodes(rt.alloc(), &[], "size")?;
    decodes(rt.alloc(), &zeros[..180], "size")?;
    decodes(rt.alloc(), &zeros[..318], "size")?;
    decodes(rt.alloc(), &zeros, "size")?;
    decodes(rt.alloc(), &zeros[..319], "version")
}

/// A checkpoint with one event, at position 1.
fn with_event(alloc: Global, told: Reply) -> Result<Saved, AllocError> {
    let mut saved = Saved::new(alloc, Kernel::new(alloc, 2, 1)?)?;
    saved.log.push(LogRecord { position: 1, told })?;
    Ok(saved)
}

fn is_empty(saved: &Saved) -> Result<(), Fail> {
    holds(saved.log.is_empty(), "an empty log")?;
    holds(saved.log.capacity() >= 64, "the room of the log")?;
    holds(saved.position == 0, "position")?;
    holds(saved.kernel.p() == 1, "p")
}

#[test]
fn a_checkpoint_has_room_for_its_log(rt: HostRuntime) -> Result<(), Fail> {
    let saved = Saved::new(rt.alloc(), Kernel::new(rt.alloc(), 2, 1)?)?;
    is_empty(&saved)
}

#[test]
fn a_log_has_its_record(rt: HostRuntime) -> Result<(), Fail> {
    let told = Reply::ReceiveFrom(4, Message::new(b"body"));
    let saved = with_event(rt.alloc(), told)?;
    match saved.log.first() {
        Some(rec) => holds(rec.position == 1 && rec.told == told, "the event"),
        None => Err(Fail::new("no event")),
    }
}

fn is_said(alloc: Global, fault: CheckFault, text: &str) -> Result<(), Fail> {
    let told = format!(in alloc; "{fault}")?;
    holds(told.as_str() == text, text)
}

#[test]
fn faults_of_checkpoints_have_their_texts(rt: HostRuntime) -> Result<(), Fail> {
    let record = CheckFault::Refused(StoreFault::Record(3));
    let kernel = CheckFault::Refused(StoreFault::Kernel);
    holds(record != kernel, "two faults")?;
    is_said(rt.alloc(), record, "refused: record 3")?;
    is_said(rt.alloc(), kernel, "refused: kernel")?;
    is_said(rt.alloc(), CheckFault::Stopped, "stopped")
}
