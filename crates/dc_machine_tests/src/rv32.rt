ghost use Rattle.std.specs.Prelude.{◌≡◌, Some, length, refl};

use crate::holding::holds;
use dc_isa::Regs;
use dc_rv32::{Bus, Stepped, is_call, read_bytes, step, write_bytes};
use std::test::Fail;

/// A store that was stopped.
#[derive(Debug, PartialEq, Drop)]
struct Stopped;

/// A memory of four words that stops so many stores first.
#[derive(Debug, PartialEq, Drop)]
struct Memory {
    words: [u32; 4],
    stops_to_come: u32,
}

impl Bus for Memory {
    type Stop = Stopped;

    ghost told = { λ m. Some m.words };

    ghost count = { λ m. length m.words };

    ghost live = { λ m. Unit {0} };

    ghost made = { λ m i n. Unit {0} };

    ghost refused = { λ m i n why. Unit {0} };

    ghost told_long = { λ m live. refl };

    fn size(&self) -> u32 {
        16
    }

    fn load(&self, i: u32) -> u32 {
        self.words[i as usize]
    }

    fn store(&mut self, i: u32, w: u32, mask: u32) -> Result<(), Stopped> {
        if self.stops_to_come > 0 {
            self.stops_to_come -= 1;
            return Err(Stopped);
        }
        let old = self.words[i as usize];
        self.words[i as usize] = (old & !mask) | (w & mask);
        Ok(())
    }
}

/// Fails with the name of what does not hold.
/// A memory of those words that stops no store.
fn holding(words: [u32; 4]) -> Memory {
    Memory {
        words,
        stops_to_come: 0,
    }
}

/// Registers that are 0 but for x6 and x7.
fn start(x6: u32, x7: u32, pc: u32) -> Regs
    ensures { result.pc ≡ pc }
{
    let mut x = [0; 32];
    x[6] = x6;
    x[7] = x7;
    Regs { x, pc }
}

/// Those registers with another x5.
fn with_x5(x5: u32, x6: u32, x7: u32, pc: u32) -> Regs {
    let mut regs = start(x6, x7, pc);
    regs.x[5] = x5;
    regs
}

/// The registers after an instruction at 8 that retires. At 4 stand the bytes 01 ff 7f 80, at 12 ff 7f 00 00.
fn after(word: u32, x6: u32, x7: u32) -> Option<Regs> {
    let mut memory = holding([0, 0x807f_ff01, word, 0x0000_7fff]);
    let mut regs = start(x6, x7, 8);
    match step(&mut regs, &mut memory) {
        Ok(Stepped::Retired) => Some(regs),
        _ => None,
    }
}

/// The memory after an instruction at 0 that retires, with 0x11223344 in the other words.
fn stored(word: u32, x6: u32, x7: u32) -> Option<[u32; 4]> {
    let mut memory = holding([word, 0x1122_3344, 0x1122_3344, 0x1122_3344]);
    match step(&mut start(x6, x7, 0), &mut memory) {
        Ok(Stepped::Retired) => Some(memory.words),
        _ => None,
    }
}

/// The cause of the trap at an instruction at 0 that leaves the machine as it was.
fn cause(word: u32) -> Option<u32> {
    let mut memory = holding([word, 1, 2, 3]);
    let mut regs = start(0, 0, 0);
    match step(&mut regs, &mut memory) {
        Ok(Stepped::Trap(cause)) if regs == start(0, 0, 0) && memory.words == [word, 1, 2, 3] => {
            Some(cause)
        }
        _ => None,
    }
}

#[test]
fn instructions_run_in_turn(_rt: HostRuntime) -> Result<(), Fail> {
    // addi x6, x0, -1; addi x6, x6, 1; addi x0, x0, 2047; ecall
    let words = [0xfff0_0313, 0x0013_0313, 0x7ff0_0013, 0x0000_0073];
    let mut memory = holding(words);
    let mut regs = start(7, 0, 0);
    holds(
        step(&mut regs, &mut memory) == Ok(Stepped::Retired),
        "addi x6, x0, -1",
    )?;
    holds(
        regs == start(4294967295, 0, 4),
        "registers after addi x6, x0, -1",
    )?;
    holds(
        step(&mut regs, &mut memory) == Ok(Stepped::Retired),
        "addi x6, x6, 1",
    )?;
    holds(regs == start(0, 0, 8), "registers after addi x6, x6, 1")?;
    holds(
        step(&mut regs, &mut memory) == Ok(Stepped::Retired),
        "addi x0, x0, 2047",
    )?;
    holds(regs == start(0, 0, 12), "registers after addi x0, x0, 2047")?;
    holds(step(&mut regs, &mut memory) == Ok(Stepped::Call), "ecall")?;
    holds(regs == start(0, 0, 12), "registers at ecall")?;
    holds(memory.words == words, "memory at ecall")?;
    Ok(())
}

#[test]
fn sums_are_of_32_bits(_rt: HostRuntime) -> Result<(), Fail> {
    // addi x6, x6, 2047; addi x6, x6, -2048
    let mut memory = holding([0x7ff3_0313, 0x8003_0313, 0, 0]);
    for (name, index, before, after) in [
        ("0x7fffffff + 2047", 0, 0x7fff_ffff, 0x8000_07fe),
        ("0xffffff00 + 2047", 0, 0xffff_ff00, 0x0000_06ff),
        ("2048 - 2048", 1, 0x0000_0800, 0),
        ("0 - 2048", 1, 0, 0xffff_f800),
    ] {
        let mut regs = start(before, 0, 4 * index);
        holds(step(&mut regs, &mut memory) == Ok(Stepped::Retired), name)?;
        holds(regs == start(after, 0, 4 * index + 4), name)?;
    }
    Ok(())
}

#[test]
fn words_that_code_nothing_are_traps_of_cause_2(_rt: HostRuntime) -> Result<(), Fail> {
    let mut memory = holding([0, 0xffff_ffff, 0, 0xffff_ffff]);
    for (name, index) in [
        ("0 at 0", 0),
        ("0xffffffff at 4", 1),
        ("0 at 8", 2),
        ("0xffffffff at 12", 3),
    ] {
        let mut regs = start(5, 0, 4 * index);
        holds(step(&mut regs, &mut memory) == Ok(Stepped::Trap(2)), name)?;
        holds(regs == start(5, 0, 4 * index), name)?;
    }
    Ok(())
}

#[test]
fn the_sign_is_copied_from_above(_rt: HostRuntime) -> Result<(), Fail> {
    // lui x5, 524288; srai x10, x5, 31
    let mut memory = holding([0x8000_02b7, 0x41f2_d513, 0, 0]);
    let mut regs = start(0, 0, 0);
    holds(
        step(&mut regs, &mut memory) == Ok(Stepped::Retired),
        "lui x5, 524288",
    )?;
    holds(regs.x[5] == 0x8000_0000, "x5 after lui")?;
    holds(
        step(&mut regs, &mut memory) == Ok(Stepped::Retired),
        "srai x10, x5, 31",
    )?;
    holds(regs.x[10] == 0xffff_ffff, "x10 after srai")?;
    Ok(())
}

#[test]
fn operations_on_two_registers(_rt: HostRuntime) -> Result<(), Fail> {
    // each is `OP x5, x6, x7`
    for (name, word, x6, x7, x5) in [
        ("add", 0x0073_02b3, 0xffff_ffff, 2, 1),
        ("sub", 0x4073_02b3, 1, 2, 0xffff_ffff),
        ("sll", 0x0073_12b3, 0xffff_ffff, 36, 0xffff_fff0),
        ("slt", 0x0073_22b3, 0x7fff_ffff, 0x8000_0000, 0),
        ("slt", 0x0073_22b3, 0x8000_0000, 0x7fff_ffff, 1),
        ("slt", 0x0073_22b3, 0xffff_ffff, 0, 1),
        ("sltu", 0x0073_32b3, 0x7fff_ffff, 0x8000_0000, 1),
        ("sltu", 0x0073_32b3, 0x8000_0000, 0x7fff_ffff, 0),
        ("sltu", 0x0073_32b3, 0xffff_ffff, 0, 0),
        ("xor", 0x0073_42b3, 12, 10, 6),
        ("srl", 0x0073_52b3, 0x8000_0000, 36, 0x0800_0000),
        ("sra", 0x4073_52b3, 0x8000_0000, 36, 0xf800_0000),
        ("sra", 0x4073_52b3, 0x4000_0000, 33, 0x2000_0000),
        ("or", 0x0073_62b3, 12, 10, 14),
        ("and", 0x0073_72b3, 12, 10, 8),
    ] {
        holds(after(word, x6, x7) == Some(with_x5(x5, x6, x7, 12)), name)?;
    }
    Ok(())
}

#[test]
fn operations_on_an_immediate(_rt: HostRuntime) -> Result<(), Fail> {
    for (name, word, x6, x5) in [
        ("addi x5, x6, -1", 0xfff3_0293, 0, 0xffff_ffff),
        ("slti x5, x6, -1", 0xfff3_2293, 0x8000_0000, 1),
        ("slti x5, x6, -1", 0xfff3_2293, 0, 0),
        ("sltiu x5, x6, -1", 0xfff3_3293, 0, 1),
        ("sltiu x5, x6, -1", 0xfff3_3293, 0xffff_fffe, 1),
        ("sltiu x5, x6, -1", 0xfff3_3293, 0xffff_ffff, 0),
        ("xori x5, x6, -1", 0xfff3_4293, 0x0f0f_0f0f, 0xf0f0_f0f0),
        ("ori x5, x6, -256", 0xf003_6293, 0x12, 0xffff_ff12),
        ("andi x5, x6, -256", 0xf003_7293, 0x1234_5678, 0x1234_5600),
        ("slli x5, x6, 31", 0x01f3_1293, 3, 0x8000_0000),
        ("srli x5, x6, 31", 0x01f3_5293, 0x8000_0000, 1),
        ("srai x5, x6, 31", 0x41f3_5293, 0x8000_0000, 0xffff_ffff),
        ("srai x5, x6, 31", 0x41f3_5293, 0x7fff_ffff, 0),
        ("auipc x5, 1", 0x0000_1297, 0, 0x1008),
        ("auipc x5, 0xfffff", 0xffff_f297, 0, 0xffff_f008),
        ("fence", 0x0ff0_000f, 7, 0),
    ] {
        holds(after(word, x6, 0) == Some(with_x5(x5, x6, 0, 12)), name)?;
    }
    Ok(())
}

#[test]
fn loads_carry_the_sign(_rt: HostRuntime) -> Result<(), Fail> {
    for (name, word, x6, x5) in [
        ("lb x5, 0(x6)", 0x0003_0283, 4, 1),
        ("lb x5, 1(x6)", 0x0013_0283, 4, 0xffff_ffff),
        ("lb x5, 0(x6)", 0x0003_0283, 6, 0x7f),
        ("lb x5, 0(x6)", 0x0003_0283, 7, 0xffff_ff80),
        ("lbu x5, 0(x6)", 0x0003_4283, 4, 1),
        ("lbu x5, 0(x6)", 0x0003_4283, 5, 0xff),
        ("lbu x5, 0(x6)", 0x0003_4283, 6, 0x7f),
        ("lbu x5, 0(x6)", 0x0003_4283, 7, 0x80),
        ("lh x5, 0(x6)", 0x0003_1283, 4, 0xffff_ff01),
        ("lh x5, 0(x6)", 0x0003_1283, 6, 0xffff_807f),
        ("lh x5, 0(x6)", 0x0003_1283, 12, 0x7fff),
        ("lhu x5, 0(x6)", 0x0003_5283, 4, 0xff01),
        ("lhu x5, 0(x6)", 0x0003_5283, 6, 0x807f),
        ("lw x5, 0(x6)", 0x0003_2283, 4, 0x807f_ff01),
        ("lw x5, 0(x6)", 0x0003_2283, 12, 0x0000_7fff),
    ] {
        holds(after(word, x6, 0) == Some(with_x5(x5, x6, 0, 12)), name)?;
    }
    Ok(())
}

#[test]
fn stores_leave_the_other_bytes(_rt: HostRuntime) -> Result<(), Fail> {
    for (name, word, x6, changed) in [
        ("sb x7, 0(x6)", 0x0073_0023, 8, 0x1122_33dd),
        ("sb x7, 0(x6)", 0x0073_0023, 9, 0x1122_dd44),
        ("sb x7, 0(x6)", 0x0073_0023, 10, 0x11dd_3344),
        ("sb x7, 0(x6)", 0x0073_0023, 11, 0xdd22_3344),
        ("sh x7, 0(x6)", 0x0073_1023, 8, 0x1122_ccdd),
        ("sh x7, 0(x6)", 0x0073_1023, 10, 0xccdd_3344),
        ("sw x7, 0(x6)", 0x0073_2023, 8, 0xaabb_ccdd),
    ] {
        let words = [word, 0x1122_3344, changed, 0x1122_3344];
        holds(stored(word, x6, 0xaabb_ccdd) == Some(words), name)?;
    }
    Ok(())
}

#[test]
fn branches_go_where_they_are_taken(_rt: HostRuntime) -> Result<(), Fail> {
    for (name, word, x6, x7, pc) in [
        ("beq x6, x7, .+8", 0x0073_0463, 5, 5, 16),
        ("beq x6, x7, .+8", 0x0073_0463, 5, 6, 12),
        ("beq x6, x7, .-4", 0xfe73_0ee3, 5, 5, 4),
        ("bne x6, x7, .+8", 0x0073_1463, 5, 5, 12),
        ("bne x6, x7, .-8", 0xfe73_1ce3, 5, 6, 0),
        ("bne x6, x7, .+6", 0x0073_1363, 5, 5, 12),
        ("blt x6, x7, .+8", 0x0073_4463, 0xffff_ffff, 0, 16),
        ("blt x6, x7, .+8", 0x0073_4463, 0, 0xffff_ffff, 12),
        ("blt x6, x7, .+8", 0x0073_4463, 5, 5, 12),
        ("bge x6, x7, .+8", 0x0073_5463, 0xffff_ffff, 0, 12),
        ("bge x6, x7, .+8", 0x0073_5463, 5, 5, 16),
        ("bltu x6, x7, .+8", 0x0073_6463, 0xffff_ffff, 0, 12),
        ("bltu x6, x7, .+8", 0x0073_6463, 0, 0xffff_ffff, 16),
        ("bgeu x6, x7, .+8", 0x0073_7463, 0xffff_ffff, 0, 16),
        ("bgeu x6, x7, .+8", 0x0073_7463, 0, 0xffff_ffff, 12),
        ("bgeu x6, x7, .+8", 0x0073_7463, 5, 5, 16),
    ] {
        holds(after(word, x6, x7) == Some(start(x6, x7, pc)), name)?;
    }
    Ok(())
}

#[test]
fn jumps_link_to_the_address_after_them(_rt: HostRuntime) -> Result<(), Fail> {
    for (name, word, x6, x5, pc) in [
        ("jal x5, .+8", 0x0080_02ef, 0, 12, 16),
        ("jal x5, .-8", 0xff9f_f2ef, 0, 12, 0),
        ("jal x0, .-4", 0xffdf_f06f, 0, 0, 4),
        ("jalr x5, 1(x6)", 0x0013_02e7, 4, 12, 4),
        ("jalr x5, 3(x6)", 0x0033_02e7, 9, 12, 12),
        ("jalr x5, 1(x6)", 0x0013_02e7, 0xffff_ffff, 12, 0),
    ] {
        holds(after(word, x6, 0) == Some(with_x5(x5, x6, 0, pc)), name)?;
    }
    holds(
        after(0x0003_0367, 16, 0) == Some(start(12, 0, 16)),
        "jalr x6, 0(x6)",
    )?;
    Ok(())
}

#[test]
fn traps_leave_the_machine_as_it_was(_rt: HostRuntime) -> Result<(), Fail> {
    for (name, word, expected) in [
        ("jalr x5, 2(x6)", 0x0023_02e7, 0),
        ("jal x5, .+6", 0x0060_02ef, 0),
        ("beq x6, x7, .+6", 0x0073_0363, 0),
        ("ebreak", 0x0010_0073, 3),
        ("lw x5, 2(x0)", 0x0020_2283, 4),
        ("lw x5, -2(x0)", 0xffe0_2283, 4),
        ("lh x5, -1(x0)", 0xfff0_1283, 4),
        ("lw x5, -4(x0)", 0xffc0_2283, 5),
        ("lw x5, 16(x0)", 0x0100_2283, 5),
        ("sh x5, 1(x0)", 0x0050_10a3, 6),
        ("sh x5, -1(x0)", 0xfe50_1fa3, 6),
        ("sw x5, 2(x0)", 0x0050_2123, 6),
        ("sb x5, -1(x0)", 0xfe50_0fa3, 7),
        ("sw x5, -4(x0)", 0xfe50_2e23, 7),
    ] {
        holds(cause(word) == Some(expected), name)?;
    }
    Ok(())
}

#[test]
fn a_pc_outside_the_memory_is_a_trap_of_cause_1(_rt: HostRuntime) -> Result<(), Fail> {
    let mut memory = holding([0x0000_0013; 4]);
    for (name, index) in [
        ("pc 0x10", 4),
        ("pc 0x14", 5),
        ("pc 0x80000000", 0x2000_0000),
        ("pc 0xfffffffc", 0x3fff_ffff),
    ] {
        let mut regs = start(5, 0, 4 * index);
        holds(step(&mut regs, &mut memory) == Ok(Stepped::Trap(1)), name)?;
        holds(regs == start(5, 0, 4 * index), name)?;
    }
    Ok(())
}

#[test]
fn a_stopped_store_leaves_the_machine_as_it_was(_rt: HostRuntime) -> Result<(), Fail> {
    // sw x7, 0(x6)
    let words = [0x0073_2023, 0, 0, 0];
    let mut memory = Memory {
        words,
        stops_to_come: 1,
    };
    let mut regs = start(4, 9, 0);
    holds(
        step(&mut regs, &mut memory) == Err(Stopped),
        "the store stops",
    )?;
    holds(regs == start(4, 9, 0), "the registers of a stopped store")?;
    holds(memory.words == words, "the memory of a stopped store")?;
    Ok(())
}

#[test]
fn a_store_sets_the_bits_of_its_mask(_rt: HostRuntime) -> Result<(), Fail> {
    let mut memory = holding([0, 0, 0x1122_3344, 0]);
    holds(
        memory.store(2, 0xaabb_ccdd, 0x00ff_0000) == Ok(()),
        "a store under a mask",
    )?;
    holds(memory.load(2) == 0x11bb_3344, "the word under a mask")?;
    Ok(())
}

#[test]
fn bytes_are_read_from_any_address(_rt: HostRuntime) -> Result<(), Fail> {
    // The bytes 44 33 22 11, dd cc bb aa, 04 03 02 01, 00 00 00 80.
    let memory = holding([0x1122_3344, 0xaabb_ccdd, 0x0102_0304, 0x8000_0000]);
    let mut six = [0; 6];
    read_bytes(&memory, 3, &mut six);
    holds(
        six == [0x11, 0xdd, 0xcc, 0xbb, 0xaa, 0x04],
        "six bytes from 3",
    )?;
    let mut last = [7; 1];
    read_bytes(&memory, 15, &mut last);
    holds(last == [0x80], "the last byte")?;
    read_bytes(&memory, 16, &mut []);
    Ok(())
}

#[test]
fn bytes_are_written_to_any_address(_rt: HostRuntime) -> Result<(), Fail> {
    // The bytes 44 33 22 11, dd cc bb aa, 04 03 02 01, 00 00 00 80.
    let words = [0x1122_3344, 0xaabb_ccdd, 0x0102_0304, 0x8000_0000];
    let mut memory = holding(words);
    holds(
        write_bytes(&mut memory, 3, &[1, 2, 3, 4, 5, 6]) == Ok(()),
        "a write of six bytes to 3",
    )?;
    holds(
        memory.words == [0x0122_3344, 0x0504_0302, 0x0102_0306, 0x8000_0000],
        "the words after six bytes to 3",
    )?;
    holds(
        write_bytes(&mut memory, 13, &[7, 8]) == Ok(()),
        "a write of two bytes to 13",
    )?;
    holds(
        memory.words[3] == 0x8008_0700,
        "the last word after two bytes to 13",
    )?;
    holds(
        write_bytes(&mut memory, 16, &[]) == Ok(()),
        "a write of nothing",
    )?;
    holds(
        memory.words[3] == 0x8008_0700,
        "the last word after a write of nothing",
    )?;
    Ok(())
}

#[test]
fn a_stopped_write_says_so(_rt: HostRuntime) -> Result<(), Fail> {
    let mut memory = Memory {
        words: [0, 0, 0, 0],
        stops_to_come: 1,
    };
    holds(
        write_bytes(&mut memory, 0, &[1, 2, 3, 4, 5]) == Err(Stopped),
        "a write that stops",
    )?;
    Ok(())
}

#[test]
fn a_step_runs_the_word_at_any_pc(_rt: HostRuntime) -> Result<(), Fail> {
    // At 2, over two words of the memory: addi x5, x6, 1
    let mut memory = holding([0x0293_0000, 0x0000_0013, 0, 0]);
    let mut regs = start(7, 0, 2);
    holds(
        step(&mut regs, &mut memory) == Ok(Stepped::Retired),
        "addi x5, x6, 1 at 2",
    )?;
    holds(
        regs == with_x5(8, 7, 0, 6),
        "registers after addi x5, x6, 1 at 2",
    )?;
    Ok(())
}

#[test]
fn only_an_ecall_is_a_call(_rt: HostRuntime) -> Result<(), Fail> {
    let memory = holding([0x0000_0073, 0x0010_0073, 0x0013_0293, 0]);
    for (name, pc, want) in [
        ("ecall", 0, true),
        ("ebreak", 4, false),
        ("addi x5, x6, 1", 8, false),
        ("a word that codes nothing", 12, false),
        ("no word", 16, false),
    ] {
        holds(is_call(&start(0, 0, pc), &memory) == want, name)?;
    }
    Ok(())
}
