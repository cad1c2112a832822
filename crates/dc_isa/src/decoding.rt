ghost use Rattle.std.specs.Prelude.{◌≡◌, ◌↔◌, IfSome, true};
ghost use Rattle.dc_isa.specs.Fields.{field, jump_offset, branch_offset, store_immediate, fence_bits};
ghost use Rattle.dc_isa.specs.Table.{Codes, Fits, branch_funct3, immediate_funct3, load_funct3, register_funct3, shift_funct3, store_funct3, shift_funct7, register_funct7};
ghost use Rattle.dc_isa.specs.Decoded.{decoded, immediate_at, load_at, store_at, branch_at, shift_at, register_at, jump_register_row, branch_row, load_row, store_row, immediate_row, register_row, system_row, fence_row};
ghost use Rattle.dc_isa.specs.declared.instr.Instr.{Instr as Coded};
ghost use Rattle.dc_isa.specs.declared.instr.Instr.TheVariants.{Ecall};

use crate::{BranchOp, ImmediateOp, Instr, LoadOp, RegisterOp, ShiftOp, StoreOp, UpperOp};

/// The one word that codes ECALL.
const ECALL: u32 = 0x73;

/// The instruction that a word codes.
pub fn decode(word: u32) -> Option<Instr>
    ensures codes { (i : Coded) → (result ≡ Some i) ↔ Codes i word }
    ensures exact { result ≡ decoded word }
    ensures fits { IfSome result (λ i. Fits i) }
{
    instr_of(word)
}

/// The same, by the word's opcode.
fn instr_of(word: u32) -> Option<Instr>
    ensures exact { result ≡ decoded word }
    ensures found { IfSome result (λ i. Codes i word) }
    ensures fits { IfSome result (λ i. Fits i) }
{
    match word & 0x7f {
        0x37 => Some(Instr::Upper {
            op: UpperOp::Lui,
            rd: rd(word),
            imm: word >> 12,
        }),
        0x17 => Some(Instr::Upper {
            op: UpperOp::Auipc,
            rd: rd(word),
            imm: word >> 12,
        }),
        0x6f => Some(Instr::Jal {
            rd: rd(word),
            imm: jump_imm(word),
        }),
        0x67 => jump_register_instr(word),
        0x63 => branch_instr(word),
        0x03 => load_instr(word),
        0x23 => store_instr(word),
        0x13 => immediate_instr(word),
        0x33 => register_instr(word),
        0x73 => system_instr(word),
        0x0f => fence_instr(word),
        _ => None,
    }
}

/// Whether a word codes ECALL.
pub fn is_ecall(word: u32) -> bool
    ensures { (result ≡ true) ↔ Codes Ecall word }
{
    word == ECALL
}

/// JALR, of a word with its opcode.
fn jump_register_instr(word: u32) -> Option<Instr>
    requires { field word 0 7 ≡ 103 }
    ensures exact { result ≡ jump_register_row word }
    ensures found { IfSome result (λ i. Codes i word) }
    ensures fits { IfSome result (λ i. Fits i) }
{
    if funct3(word) != 0 {
        return None;
    }
    Some(Instr::Jalr {
        rd: rd(word),
        rs1: rs1(word),
        imm: word >> 20,
    })
}

/// The branch of a word with the opcode BRANCH.
fn branch_instr(word: u32) -> Option<Instr>
    requires { field word 0 7 ≡ 99 }
    ensures exact { result ≡ branch_row word }
    ensures found { IfSome result (λ i. Codes i word) }
    ensures fits { IfSome result (λ i. Fits i) }
{
    let op = branch_op(funct3(word))?;
    Some(Instr::Branch {
        op,
        rs1: rs1(word),
        rs2: rs2(word),
        imm: branch_imm(word),
    })
}

/// The load of a word with the opcode LOAD.
fn load_instr(word: u32) -> Option<Instr>
    requires { field word 0 7 ≡ 3 }
    ensures exact { result ≡ load_row word }
    ensures found { IfSome result (λ i. Codes i word) }
    ensures fits { IfSome result (λ i. Fits i) }
{
    let op = load_op(funct3(word))?;
    Some(Instr::Load {
        op,
        rd: rd(word),
        rs1: rs1(word),
        imm: word >> 20,
    })
}

/// The store of a word with the opcode STORE.
fn store_instr(word: u32) -> Option<Instr>
    requires { field word 0 7 ≡ 35 }
    ensures exact { result ≡ store_row word }
    ensures found { IfSome result (λ i. Codes i word) }
    ensures fits { IfSome result (λ i. Fits i) }
{
    let op = store_op(funct3(word))?;
    Some(Instr::Store {
        op,
        rs1: rs1(word),
        rs2: rs2(word),
        imm: store_imm(word),
    })
}

/// The operation on a register and an immediate of a word with the opcode OP-IMM, which shifts at funct3 1 and 5.
fn immediate_instr(word: u32) -> Option<Instr>
    requires { field word 0 7 ≡ 19 }
    ensures exact { result ≡ immediate_row word }
    ensures found { IfSome result (λ i. Codes i word) }
    ensures fits { IfSome result (λ i. Fits i) }
{
    let funct3 = funct3(word);
    match funct3 {
        1 | 5 => {
            let op = shift_op(funct3, word >> 25)?;
            Some(Instr::Shift {
                op,
                rd: rd(word),
                rs1: rs1(word),
                amount: rs2(word),
            })
        }
        _ => {
            let op = immediate_op(funct3)?;
            Some(Instr::Immediate {
                op,
                rd: rd(word),
                rs1: rs1(word),
                imm: word >> 20,
            })
        }
    }
}

/// The operation on two registers of a word with the opcode OP.
fn register_instr(word: u32) -> Option<Instr>
    requires { field word 0 7 ≡ 51 }
    ensures exact { result ≡ register_row word }
    ensures found { IfSome result (λ i. Codes i word) }
    ensures fits { IfSome result (λ i. Fits i) }
{
    let op = register_op(funct3(word), word >> 25)?;
    Some(Instr::Register {
        op,
        rd: rd(word),
        rs1: rs1(word),
        rs2: rs2(word),
    })
}

/// ECALL or EBREAK, each of which is one word with the opcode SYSTEM.
fn system_instr(word: u32) -> Option<Instr>
    requires { field word 0 7 ≡ 115 }
    ensures exact { result ≡ system_row word }
    ensures found { IfSome result (λ i. Codes i word) }
    ensures fits { IfSome result (λ i. Fits i) }
{
    match word {
        ECALL => Some(Instr::Ecall),
        0x10_0073 => Some(Instr::Ebreak),
        _ => None,
    }
}

/// FENCE, of a word with the opcode MISC-MEM: all bits but opcode and funct3 are kept.
fn fence_instr(word: u32) -> Option<Instr>
    requires { field word 0 7 ≡ 15 }
    ensures exact { result ≡ fence_row word }
    ensures found { IfSome result (λ i. Codes i word) }
    ensures fits { IfSome result (λ i. Fits i) }
{
    if funct3(word) != 0 {
        return None;
    }
    Some(Instr::Fence {
        bits: ((word >> 15) << 5) | rd(word),
    })
}

/// The operation of a funct3 among those on a register and an immediate, shifts left out.
fn immediate_op(funct3: u32) -> Option<ImmediateOp>
    ensures exact { result ≡ immediate_at funct3 }
    ensures found { IfSome result (λ op. immediate_funct3 op ≡ funct3) }
{
    match funct3 {
        0 => Some(ImmediateOp::Addi),
        2 => Some(ImmediateOp::Slti),
        3 => Some(ImmediateOp::Sltiu),
        4 => Some(ImmediateOp::Xori),
        6 => Some(ImmediateOp::Ori),
        7 => Some(ImmediateOp::Andi),
        _ => None,
    }
}

/// The operation of a funct3 among the loads.
fn load_op(funct3: u32) -> Option<LoadOp>
    ensures exact { result ≡ load_at funct3 }
    ensures found { IfSome result (λ op. load_funct3 op ≡ funct3) }
{
    match funct3 {
        0 => Some(LoadOp::Lb),
        1 => Some(LoadOp::Lh),
        2 => Some(LoadOp::Lw),
        4 => Some(LoadOp::Lbu),
        5 => Some(LoadOp::Lhu),
        _ => None,
    }
}

/// The operation of a funct3 among the stores.
fn store_op(funct3: u32) -> Option<StoreOp>
    ensures exact { result ≡ store_at funct3 }
    ensures found { IfSome result (λ op. store_funct3 op ≡ funct3) }
{
    match funct3 {
        0 => Some(StoreOp::Sb),
        1 => Some(StoreOp::Sh),
        2 => Some(StoreOp::Sw),
        _ => None,
    }
}

/// The operation of a funct3 among the branches.
fn branch_op(funct3: u32) -> Option<BranchOp>
    ensures exact { result ≡ branch_at funct3 }
    ensures found { IfSome result (λ op. branch_funct3 op ≡ funct3) }
{
    match funct3 {
        0 => Some(BranchOp::Beq),
        1 => Some(BranchOp::Bne),
        4 => Some(BranchOp::Blt),
        5 => Some(BranchOp::Bge),
        6 => Some(BranchOp::Bltu),
        7 => Some(BranchOp::Bgeu),
        _ => None,
    }
}

/// The operation of a funct3 and a funct7 among the shifts by an immediate.
fn shift_op(funct3: u32, funct7: u32) -> Option<ShiftOp>
    ensures exact { result ≡ shift_at funct3 funct7 }
    ensures found { IfSome result (λ op.
        (shift_funct3 op ≡ funct3) × (shift_funct7 op ≡ funct7)) }
{
    match (funct7, funct3) {
        (0, 1) => Some(ShiftOp::Slli),
        (0, 5) => Some(ShiftOp::Srli),
        (0x20, 5) => Some(ShiftOp::Srai),
        _ => None,
    }
}

/// The operation of a funct3 and a funct7 among those on two registers.
fn register_op(funct3: u32, funct7: u32) -> Option<RegisterOp>
    ensures exact { result ≡ register_at funct3 funct7 }
    ensures found { IfSome result (λ op.
        (register_funct3 op ≡ funct3) × (register_funct7 op ≡ funct7)) }
{
    match (funct7, funct3) {
        (0, 0) => Some(RegisterOp::Add),
        (0x20, 0) => Some(RegisterOp::Sub),
        (0, 1) => Some(RegisterOp::Sll),
        (0, 2) => Some(RegisterOp::Slt),
        (0, 3) => Some(RegisterOp::Sltu),
        (0, 4) => Some(RegisterOp::Xor),
        (0, 5) => Some(RegisterOp::Srl),
        (0x20, 5) => Some(RegisterOp::Sra),
        (0, 6) => Some(RegisterOp::Or),
        (0, 7) => Some(RegisterOp::And),
        _ => None,
    }
}

/// The register that is written.
fn rd(word: u32) -> u32
    ensures { result ≡ field word 7 5 }
{
    (word >> 7) & 0x1f
}

/// The first register that is read.
fn rs1(word: u32) -> u32
    ensures { result ≡ field word 15 5 }
{
    (word >> 15) & 0x1f
}

/// The second register that is read, and the amount of a shift by an immediate.
fn rs2(word: u32) -> u32
    ensures { result ≡ field word 20 5 }
{
    (word >> 20) & 0x1f
}

/// The bits that, with funct7 in some formats, tell the operations of an opcode apart.
fn funct3(word: u32) -> u32
    ensures { result ≡ field word 12 3 }
{
    (word >> 12) & 0x7
}

/// The offset of a jump, in the J format.
fn jump_imm(word: u32) -> u32
    ensures { result ≡ jump_offset word }
{
    (((word >> 21) & 0x3ff) << 1)
        | (((word >> 20) & 1) << 11)
        | (((word >> 12) & 0xff) << 12)
        | ((word >> 31) << 20)
}

/// The offset of a branch, in the B format.
fn branch_imm(word: u32) -> u32
    ensures { result ≡ branch_offset word }
{
    (((word >> 8) & 0xf) << 1)
        | (((word >> 25) & 0x3f) << 5)
        | (((word >> 7) & 1) << 11)
        | ((word >> 31) << 12)
}

/// The immediate of a store, in the S format.
fn store_imm(word: u32) -> u32
    ensures { result ≡ store_immediate word }
{
    ((word >> 25) << 5) | ((word >> 7) & 0x1f)
}
