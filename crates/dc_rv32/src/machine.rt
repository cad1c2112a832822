ghost use Rattle.std.specs.Prelude.{◌≡◌, ◌≤◌, ◌<◌, ◌+◌, ◌*◌, ◌/◌, ◌%◌, ◌^◌, ℕ, List, None, length, IfErr, IfOk, IfSome, OnErr, OnOk, slice_index, true};
ghost use Rattle.dc_isa.specs.Fields.{extended};
ghost use Rattle.dc_isa.specs.Table.{Fits};
ghost use Rattle.dc_rv32.specs.Machine.{after_fetch, is_call, machine_of, meaning, stepped, written, IsCause, UnlessRetired, is_store, stores, stores_fetched};
ghost use Rattle.dc_media.specs.Told.{Becomes};
ghost use Rattle.dc_words.specs.Words.{bytes_in, word_at};
ghost use Rattle.dc_rv32.specs.Stores.{OnceAtMost};

use crate::Bus;
use crate::arithmetic::{of_immediate, of_registers, of_shift, of_upper, sign_extended};
use crate::branches::{branch, is_taken, jump};
use crate::bytes::word_from;
use crate::memory::{load, store};
use dc_isa::{Instr, Regs, decode, is_ecall, words_decode_by_the_table};

const NO_WORD: u32 = 1;

const ILLEGAL: u32 = 2;

const BREAKPOINT: u32 = 3;

/// What a step was. A call and a trap change nothing.
#[derive(Clone, Copy, Debug, PartialEq, Eq)]
pub enum Stepped {
    /// An instruction retired.
    Retired,
    /// The system is asked for what the registers say.
    Call,
    /// A trap of that cause: 0 a jump to no multiple of four, 1 no word at pc, 2 a word that codes no instruction,
    /// 3 EBREAK, 4 a misaligned load, 5 a load past the memory, 6 a misaligned store, 7 a store past the memory.
    Trap(u32),
}

/// Moves on to the next instruction.
pub fn advance(regs: &mut Regs) -> Stepped
    ensures retired { result ≡ Stepped.Retired }
    ensures moved { regs.new ≡ record regs.old { pc = (regs.old.pc + 4) % 2 ^ 32 } }
{
    regs.pc = regs.pc.wrapping_add(4);
    Stepped::Retired
}

/// Writes a register, where it is not x0, and moves on to the next instruction.
pub fn retire(regs: &mut Regs, rd: u32, w: u32) -> Stepped
    requires { rd < 2 ^ 5 }
    ensures retired { result ≡ Stepped.Retired }
    ensures x { regs.new.x ≡ written regs.old.x rd w }
    ensures pc { regs.new.pc ≡ (regs.old.pc + 4) % 2 ^ 32 }
    ensures zero { slice_index regs.old.x 0 ≡ 0 → slice_index regs.new.x 0 ≡ 0 }
{
    if rd != 0 {
        regs.x[rd as usize] = w;
    }
    advance(regs)
}

/// The sum of a register and a sign-extended immediate of 12 bits.
fn address(regs: &Regs, rs1: u32, imm: u32) -> u32
    requires register { rs1 < 2 ^ 5 }
    requires fits { imm < 2 ^ 12 }
    ensures { result ≡ (slice_index regs.now.x rs1 + extended 12 imm) % 2 ^ 32 }
{
    regs.x[rs1 as usize].wrapping_add(sign_extended(imm, 12))
}

/// Runs an instruction.
fn run<B: Bus>(regs: &mut Regs, bus: &mut B, instr: &Instr) -> Result<Stepped, B::Stop>
    requires fits { Fits instr.now }
    requires live { B.live bus.old }
    ensures meaning { IfOk result (λ s. Becomes (B.told bus.old) (B.told bus.new) (λ before after. (machine_of regs.new after, s) ≡ meaning instr.now (machine_of regs.old before))) }
    ensures was { IfOk result (λ s. IfSome (B.told bus.old) (λ words. s ≡ (meaning instr.now (machine_of regs.old words)).1)) }
    ensures count { B.count bus.new ≡ B.count bus.old }
    ensures live { OnOk result (B.live bus.new) }
    ensures once { OnOk result (OnceAtMost B.made bus.old bus.new) }
    ensures refused { IfErr result (λ why. (i : ℕ) × B.refused bus.old i bus.new why) }
    ensures reached { OnErr result (IfSome (B.told bus.old) (λ words. (meaning instr.now (machine_of regs.old words)).1 ≡ Stepped.Retired)) }
    ensures storing { OnErr result (is_store instr.now ≡ true) }
    ensures kept { OnErr result (regs.new ≡ regs.old) }
    ensures aligned { OnOk result (regs.old.pc % 4 ≡ 0 → regs.new.pc % 4 ≡ 0) }
    ensures zero { slice_index regs.old.x 0 ≡ 0 → slice_index regs.new.x 0 ≡ 0 }
    ensures cause { IfOk result IsCause }
    ensures unchanged { IfOk result (λ s. UnlessRetired s ((regs.new ≡ regs.old) × (bus.new ≡ bus.old))) }
{
    match *instr {
        Instr::Upper { op, rd, imm } => Ok(retire(regs, rd, of_upper(op, regs.pc, imm))),
        Instr::Jal { rd, imm } => {
            let target = regs.pc.wrapping_add(sign_extended(imm, 21));
            Ok(jump(regs, rd, target))
        }
        Instr::Jalr { rd, rs1, imm } => Ok(jump(regs, rd, address(regs, rs1, imm) & !1)),
        Instr::Branch { op, rs1, rs2, imm } => {
            let taken = is_taken(op, regs.x[rs1 as usize], regs.x[rs2 as usize]);
            let target = regs.pc.wrapping_add(sign_extended(imm, 13));
            Ok(branch(regs, taken, target))
        }
        Instr::Load { op, rd, rs1, imm } => Ok(load(regs, bus, op, rd, address(regs, rs1, imm))),
        Instr::Store { op, rs1, rs2, imm } => {
            let w = regs.x[rs2 as usize];
            store(regs, bus, op, address(regs, rs1, imm), w)
        }
        Instr::Immediate { op, rd, rs1, imm } => {
            let w = of_immediate(op, regs.x[rs1 as usize], sign_extended(imm, 12));
            Ok(retire(regs, rd, w))
        }
        Instr::Shift {
            op,
            rd,
            rs1,
            amount,
        } => {
            let w = of_shift(op, regs.x[rs1 as usize], amount);
            Ok(retire(regs, rd, w))
        }
        Instr::Register { op, rd, rs1, rs2 } => {
            let w = of_registers(op, regs.x[rs1 as usize], regs.x[rs2 as usize]);
            Ok(retire(regs, rd, w))
        }
        Instr::Fence { .. } => Ok(advance(regs)),
        Instr::Ecall => Ok(Stepped::Call),
        Instr::Ebreak => Ok(Stepped::Trap(BREAKPOINT)),
    }
}

/// The word at pc, if one lies there.
fn word_at_pc<B: Bus>(regs: &Regs, bus: &B) -> Option<u32>
    requires live { B.live bus.now }
    ensures some { IfSome result (λ word. (regs.now.pc + 4 ≤ 4 * B.count bus.now) × IfSome (B.told bus.now) (λ words. word ≡ word_at (bytes_in words) regs.now.pc)) }
    ensures none { result ≡ None → 4 * B.count bus.now < regs.now.pc + 4 }
{
    if u64::from(regs.pc) + 4 > u64::from(bus.size()) {
        return None;
    }
    Some(word_from(bus, regs.pc))
}

/// The instruction at pc, or the cause of the trap there.
fn fetch<B: Bus>(regs: &Regs, bus: &B) -> Result<Instr, u32>
    requires live { B.live bus.now }
    ensures fetched { IfSome (B.told bus.now) (λ words. stepped (machine_of regs.now words) ≡ after_fetch result (machine_of regs.now words)) }
    ensures stores { IfSome (B.told bus.now) (λ words. stores (machine_of regs.now words) ≡ stores_fetched result) }
    ensures fits { IfOk result Fits }
    ensures cause { IfErr result (λ cause. cause ≤ 7) }
{
    let Some(word) = word_at_pc(regs, bus) else {
        return Err(NO_WORD);
    };
    match decode(word) {
        Some(instr) => Ok(instr),
        None => Err(ILLEGAL),
    }
}

/// Whether the next step is a call. It looks at the word at pc and runs nothing.
pub fn is_call<B: Bus>(regs: &Regs, bus: &B) -> bool
    requires live { B.live bus.now }
    ensures { IfSome (B.told bus.now) (λ words. result ≡ is_call (stepped (machine_of regs.now words)).1) }
{
    // For the proof: of the words only that of ECALL is decoded to a call.
    words_decode_by_the_table();
    match word_at_pc(regs, bus) {
        Some(word) => is_ecall(word),
        None => false,
    }
}

/// One step of the machine. A pc that is a multiple of four stays one.
pub fn step<B: Bus>(regs: &mut Regs, bus: &mut B) -> Result<Stepped, B::Stop>
    requires live { B.live bus.old }
    ensures stepped { IfOk result (λ s. Becomes (B.told bus.old) (B.told bus.new) (λ before after. (machine_of regs.new after, s) ≡ stepped (machine_of regs.old before))) }
    ensures was { IfOk result (λ s. IfSome (B.told bus.old) (λ words. s ≡ (stepped (machine_of regs.old words)).1)) }
    ensures count { B.count bus.new ≡ B.count bus.old }
    ensures live { OnOk result (B.live bus.new) }
    ensures once { OnOk result (OnceAtMost B.made bus.old bus.new) }
    ensures refused { IfErr result (λ why. (i : ℕ) × B.refused bus.old i bus.new why) }
    ensures reached { OnErr result (IfSome (B.told bus.old) (λ words. (stepped (machine_of regs.old words)).1 ≡ Stepped.Retired)) }
    ensures storing { OnErr result (IfSome (B.told bus.old) (λ words. stores (machine_of regs.old words) ≡ true)) }
    ensures kept { OnErr result (regs.new ≡ regs.old) }
    ensures aligned { regs.old.pc % 4 ≡ 0 → regs.new.pc % 4 ≡ 0 }
    ensures zero { slice_index regs.old.x 0 ≡ 0 → slice_index regs.new.x 0 ≡ 0 }
    ensures cause { IfOk result IsCause }
    ensures unchanged { IfOk result (λ s. UnlessRetired s ((regs.new ≡ regs.old) × (bus.new ≡ bus.old))) }
{
    match fetch(regs, bus) {
        Ok(instr) => run(regs, bus, &instr),
        Err(cause) => Ok(Stepped::Trap(cause)),
    }
}
