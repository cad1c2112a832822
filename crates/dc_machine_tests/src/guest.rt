ghost use Rattle.std.specs.Prelude.{Some, length, refl};

use crate::holding::holds;
use dc_calls::Call;
use dc_events::{Kind, Next};
use dc_guest::{Answer, Effect, Guest};
use dc_isa::Regs;
use dc_links::Message;
use dc_model::Body;
use dc_rv32::Bus;
use std::test::Fail;

/// A store was stopped.
#[derive(Debug, PartialEq, Drop)]
struct Stopped;

/// A memory of 64 words that stops so many stores first.
#[derive(Drop)]
struct Memory {
    words: [u32; 64],
    stops_to_come: u32,
}

impl Bus for Memory {
    type Stop = Stopped;

    ghost told = { λ m. Some m.words };

    ghost count = { λ m. length m.words };

    ghost live = { λ m. Unit {0} };

    ghost made = { λ m i n. Unit {0} };

    ghost refused = { λ m i n why. Unit {0} };

    ghost told_long = { λ m live. refl };

    fn size(&self) -> u32 {
        256
    }

    fn load(&self, i: u32) -> u32 {
        self.words[i as usize]
    }

    fn store(&mut self, i: u32, w: u32, mask: u32) -> Result<(), Stopped> {
        if self.stops_to_come > 0 {
            self.stops_to_come -= 1;
            return Err(Stopped);
        }
        let old = self.words[i as usize];
        self.words[i as usize] = (old & !mask) | (w & mask);
        Ok(())
    }
}

/// Asks for an input at 128, shows as many bytes from there as it is told, and ends with the answer.
const READER: [u32; 10] = [
    0x0030_0893,
    0x0800_0513,
    0x0400_0593,
    0x0000_0073,
    0x0005_0593,
    0x0800_0513,
    0x0020_0893,
    0x0000_0073,
    0x0010_0893,
    0x0000_0073,
];

/// Fails with the name of what does not hold.
/// A memory that begins with these words.
fn holding(words: &[u32]) -> Memory {
    let mut memory = Memory {
        words: [0; 64],
        stops_to_come: 0,
    };
    for (to, word) in memory.words.iter_mut().zip(words) {
        *to = *word;
    }
    memory
}

/// What a guest does next, where no store is stopped.
fn comes(guest: &mut Guest, memory: &mut Memory) -> Option<Next> {
    if guest.has_ended() {
        return None;
    }
    guest.next(memory).ok()
}

/// Lets a guest retire so many instructions.
fn retires(guest: &mut Guest, memory: &mut Memory, count: u32) -> Result<(), Fail> {
    for _ in 0..count {
        holds(
            comes(guest, memory) == Some(Next::Retire),
            "an instruction retires",
        )?;
    }
    Ok(())
}

/// What others see of the call or the trap that a guest takes next with an answer, where no store is stopped.
fn seen(guest: &mut Guest, memory: &mut Memory, answer: &Answer) -> Option<Effect> {
    if guest.has_ended() {
        return None;
    }
    match guest.next(memory) {
        Ok(Next::Retire) => None,
        Ok(next) => guest.take(memory, &next, answer).ok(),
        Err(Stopped) => None,
    }
}

/// Bytes are shown.
fn shows(effect: Option<Effect>, bytes: &[u8]) -> bool {
    match effect {
        Some(Effect::Shows(Body::Out(text))) => text.as_slice() == bytes,
        _ => false,
    }
}

#[test]
fn a_guest_reads_its_input_and_shows_it(_rt: HostRuntime) -> Result<(), Fail> {
    let mut memory = holding(&READER);
    let mut guest = Guest::new(0, 1, 256, 0);
    retires(&mut guest, &mut memory, 3)?;
    let asks = Some(Next::Call(Call::Input(128, 64)));
    holds(comes(&mut guest, &mut memory) == asks, "it asks")?;
    let input = Answer::InputNext(Message::new(b"hello"));
    memory.stops_to_come = 1;
    holds(seen(&mut guest, &mut memory, &input).is_none(), "a stop")?;
    holds(comes(&mut guest, &mut memory) == asks, "it asks again")?;
    let effect = seen(&mut guest, &mut memory, &input);
    holds(matches!(effect, Some(Effect::Nothing)), "it is given")?;
    retires(&mut guest, &mut memory, 3)?;
    let effect = seen(&mut guest, &mut memory, &Answer::Plain);
    holds(shows(effect, b"hello"), "it shows it")?;
    retires(&mut guest, &mut memory, 1)?;
    let call = guest.next_call(&memory);
    holds(call == Some(Call::Exit(5)), "it is to end")?;
    let effect = seen(&mut guest, &mut memory, &Answer::Plain);
    holds(
        matches!(effect, Some(Effect::Shows(Body::End(5)))),
        "it ends",
    )?;
    holds(guest.has_ended(), "it has ended")
}

#[test]
fn a_trap_waits_until_it_is_taken(_rt: HostRuntime) -> Result<(), Fail> {
    let mut memory = holding(&[]);
    let mut guest = Guest::new(0, 1, 256, 8);
    holds(
        comes(&mut guest, &mut memory) == Some(Next::Trap(2)),
        "it waits",
    )?;
    holds(!guest.has_ended(), "it has not ended")?;
    holds(guest.next_call(&memory).is_none(), "it is no call")?;
    let effect = seen(&mut guest, &mut memory, &Answer::Plain);
    holds(
        matches!(effect, Some(Effect::Shows(Body::Trap(2, 8)))),
        "it is shown",
    )?;
    holds(guest.has_ended(), "it has ended")
}

#[test]
fn a_stopped_instruction_is_run_again(_rt: HostRuntime) -> Result<(), Fail> {
    // sw x2, 64(x0)
    let mut memory = holding(&[0x0420_2023]);
    memory.stops_to_come = 1;
    let mut guest = Guest::new(0, 1, 256, 0);
    holds(comes(&mut guest, &mut memory).is_none(), "it is stopped")?;
    holds(memory.words[16] == 0, "nothing is stored")?;
    retires(&mut guest, &mut memory, 1)?;
    holds(memory.words[16] == 240, "it is stored")
}

#[test]
fn an_answer_is_of_its_kind(_rt: HostRuntime) -> Result<(), Fail> {
    let input = Answer::InputNext(Message::new(b""));
    holds(input.may_answer(Kind::Input), "an input")?;
    holds(!input.may_answer(Kind::Receive), "no message")?;
    holds(input.inputs() == 1, "one input")?;
    holds(input.act() == dc_model::Act::InputNext, "its act")
}

#[test]
fn a_guest_stands_where_its_registers_say(_rt: HostRuntime) -> Result<(), Fail> {
    let mut x = [0; 32];
    x[10] = 7;
    let guest = Guest::at(1, 2, Regs { x, pc: 8 }, true);
    let regs = guest.regs();
    if guest.has_ended() && regs.pc == 8 && regs.x[10] == 7 {
        Ok(())
    } else {
        Err(Fail::new("other registers"))
    }
}
