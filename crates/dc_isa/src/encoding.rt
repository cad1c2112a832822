ghost use Rattle.std.specs.Prelude.{◌≡◌, ℕ, ◌<◌, ◌^◌, ◌%◌};
ghost use Rattle.dc_isa.specs.Formats.{IsU, IsI, IsR, IsS, IsB, IsJ, IsFence};
ghost use Rattle.dc_isa.specs.Table.{Codes, Fits, upper_opcode, load_funct3, branch_funct3, store_funct3, immediate_funct3, shift_funct3, shift_funct7, register_funct3, register_funct7};

use crate::{BranchOp, ImmediateOp, Instr, LoadOp, RegisterOp, ShiftOp, StoreOp, UpperOp};

/// The one word of an instruction.
pub fn encode(instr: &Instr) -> u32
    requires { Fits instr.now }
    ensures codes { Codes instr.now result }
    ensures only { (w : ℕ) → Codes instr.now w → w < 2 ^ 32 → w ≡ result }
{
    match *instr {
        Instr::Upper { op, rd, imm } => upper_word(upper_bits(op), rd, imm),
        Instr::Jal { rd, imm } => jump_word(0x6f, rd, imm),
        Instr::Jalr { rd, rs1, imm } => immediate_word(0x67, 0, rd, rs1, imm),
        Instr::Branch { op, rs1, rs2, imm } => branch_word(0x63, branch_bits(op), rs1, rs2, imm),
        Instr::Load { op, rd, rs1, imm } => immediate_word(0x03, load_bits(op), rd, rs1, imm),
        Instr::Store { op, rs1, rs2, imm } => store_word(0x23, store_bits(op), rs1, rs2, imm),
        Instr::Immediate { op, rd, rs1, imm } => immediate_word(
            0x13,
            immediate_bits(op),
            rd,
            rs1,
            imm,
        ),
        Instr::Shift {
            op,
            rd,
            rs1,
            amount,
        } => register_word(0x13, shift_bits(op), shift_high_bits(op), rd, rs1, amount),
        Instr::Register { op, rd, rs1, rs2 } => register_word(
            0x33,
            register_bits(op),
            register_high_bits(op),
            rd,
            rs1,
            rs2,
        ),
        Instr::Fence { bits } => fence_word(0x0f, bits),
        Instr::Ecall => 0x73,
        Instr::Ebreak => 0x10_0073,
    }
}

/// The word of the U format.
fn upper_word(opcode: u32, rd: u32, imm: u32) -> u32
    requires opcode { opcode < 2 ^ 7 }
    requires rd { rd < 2 ^ 5 }
    requires imm { imm < 2 ^ 20 }
    ensures codes { IsU result opcode rd imm }
    ensures only { (w : ℕ) → IsU w opcode rd imm → w < 2 ^ 32 → w ≡ result }
{
    opcode | (rd << 7) | (imm << 12)
}

/// The word of the J format.
fn jump_word(opcode: u32, rd: u32, imm: u32) -> u32
    requires opcode { opcode < 2 ^ 7 }
    requires rd { rd < 2 ^ 5 }
    requires imm { imm < 2 ^ 21 }
    requires even { imm % 2 ≡ 0 }
    ensures codes { IsJ result opcode rd imm }
    ensures only { (w : ℕ) → IsJ w opcode rd imm → w < 2 ^ 32 → w ≡ result }
{
    opcode
        | (rd << 7)
        | (((imm >> 12) & 0xff) << 12)
        | (((imm >> 11) & 1) << 20)
        | (((imm >> 1) & 0x3ff) << 21)
        | ((imm >> 20) << 31)
}

/// The word of the I format.
fn immediate_word(opcode: u32, funct3: u32, rd: u32, rs1: u32, imm: u32) -> u32
    requires opcode { opcode < 2 ^ 7 }
    requires funct3 { funct3 < 2 ^ 3 }
    requires rd { rd < 2 ^ 5 }
    requires rs1 { rs1 < 2 ^ 5 }
    requires imm { imm < 2 ^ 12 }
    ensures codes { IsI result opcode funct3 rd rs1 imm }
    ensures only { (w : ℕ) → IsI w opcode funct3 rd rs1 imm → w < 2 ^ 32 → w ≡ result }
{
    opcode | (rd << 7) | (funct3 << 12) | (rs1 << 15) | (imm << 20)
}

/// The word of the S format.
fn store_word(opcode: u32, funct3: u32, rs1: u32, rs2: u32, imm: u32) -> u32
    requires opcode { opcode < 2 ^ 7 }
    requires funct3 { funct3 < 2 ^ 3 }
    requires rs1 { rs1 < 2 ^ 5 }
    requires rs2 { rs2 < 2 ^ 5 }
    requires imm { imm < 2 ^ 12 }
    ensures codes { IsS result opcode funct3 rs1 rs2 imm }
    ensures only { (w : ℕ) → IsS w opcode funct3 rs1 rs2 imm → w < 2 ^ 32 → w ≡ result }
{
    opcode | ((imm & 0x1f) << 7) | (funct3 << 12) | (rs1 << 15) | (rs2 << 20) | ((imm >> 5) << 25)
}

/// The word of the B format.
fn branch_word(opcode: u32, funct3: u32, rs1: u32, rs2: u32, imm: u32) -> u32
    requires opcode { opcode < 2 ^ 7 }
    requires funct3 { funct3 < 2 ^ 3 }
    requires rs1 { rs1 < 2 ^ 5 }
    requires rs2 { rs2 < 2 ^ 5 }
    requires imm { imm < 2 ^ 13 }
    requires even { imm % 2 ≡ 0 }
    ensures codes { IsB result opcode funct3 rs1 rs2 imm }
    ensures only { (w : ℕ) → IsB w opcode funct3 rs1 rs2 imm → w < 2 ^ 32 → w ≡ result }
{
    opcode
        | (((imm >> 11) & 1) << 7)
        | (((imm >> 1) & 0xf) << 8)
        | (funct3 << 12)
        | (rs1 << 15)
        | (rs2 << 20)
        | (((imm >> 5) & 0x3f) << 25)
        | ((imm >> 12) << 31)
}

/// The word of the R format.
fn register_word(opcode: u32, funct3: u32, funct7: u32, rd: u32, rs1: u32, rs2: u32) -> u32
    requires opcode { opcode < 2 ^ 7 }
    requires funct3 { funct3 < 2 ^ 3 }
    requires funct7 { funct7 < 2 ^ 7 }
    requires rd { rd < 2 ^ 5 }
    requires rs1 { rs1 < 2 ^ 5 }
    requires rs2 { rs2 < 2 ^ 5 }
    ensures codes { IsR result opcode funct3 funct7 rd rs1 rs2 }
    ensures only { (w : ℕ) → IsR w opcode funct3 funct7 rd rs1 rs2 → w < 2 ^ 32 → w ≡ result }
{
    opcode | (rd << 7) | (funct3 << 12) | (rs1 << 15) | (rs2 << 20) | (funct7 << 25)
}

/// The word of FENCE's format.
fn fence_word(opcode: u32, bits: u32) -> u32
    requires opcode { opcode < 2 ^ 7 }
    requires bits { bits < 2 ^ 22 }
    ensures codes { IsFence result opcode 0 bits }
    ensures only { (w : ℕ) → IsFence w opcode 0 bits → w < 2 ^ 32 → w ≡ result }
{
    opcode | ((bits & 0x1f) << 7) | ((bits >> 5) << 15)
}

/// The opcode of an operation on the upper bits.
fn upper_bits(op: UpperOp) -> u32
    ensures value { result ≡ upper_opcode op }
    ensures small { result < 2 ^ 7 }
{
    match op {
        UpperOp::Lui => 0x37,
        UpperOp::Auipc => 0x17,
    }
}

/// The funct3 of a branch.
fn branch_bits(op: BranchOp) -> u32
    ensures value { result ≡ branch_funct3 op }
    ensures small { result < 2 ^ 3 }
{
    match op {
        BranchOp::Beq => 0,
        BranchOp::Bne => 1,
        BranchOp::Blt => 4,
        BranchOp::Bge => 5,
        BranchOp::Bltu => 6,
        BranchOp::Bgeu => 7,
    }
}

/// The funct3 of a load.
fn load_bits(op: LoadOp) -> u32
    ensures value { result ≡ load_funct3 op }
    ensures small { result < 2 ^ 3 }
{
    match op {
        LoadOp::Lb => 0,
        LoadOp::Lh => 1,
        LoadOp::Lw => 2,
        LoadOp::Lbu => 4,
        LoadOp::Lhu => 5,
    }
}

/// The funct3 of a store.
fn store_bits(op: StoreOp) -> u32
    ensures value { result ≡ store_funct3 op }
    ensures small { result < 2 ^ 3 }
{
    match op {
        StoreOp::Sb => 0,
        StoreOp::Sh => 1,
        StoreOp::Sw => 2,
    }
}

/// The funct3 of an operation on a register and an immediate.
fn immediate_bits(op: ImmediateOp) -> u32
    ensures value { result ≡ immediate_funct3 op }
    ensures small { result < 2 ^ 3 }
{
    match op {
        ImmediateOp::Addi => 0,
        ImmediateOp::Slti => 2,
        ImmediateOp::Sltiu => 3,
        ImmediateOp::Xori => 4,
        ImmediateOp::Ori => 6,
        ImmediateOp::Andi => 7,
    }
}

/// The funct3 of a shift by an immediate.
fn shift_bits(op: ShiftOp) -> u32
    ensures value { result ≡ shift_funct3 op }
    ensures small { result < 2 ^ 3 }
{
    match op {
        ShiftOp::Slli => 1,
        ShiftOp::Srli | ShiftOp::Srai => 5,
    }
}

/// The funct7 of a shift by an immediate.
fn shift_high_bits(op: ShiftOp) -> u32
    ensures value { result ≡ shift_funct7 op }
    ensures small { result < 2 ^ 7 }
{
    match op {
        ShiftOp::Slli | ShiftOp::Srli => 0,
        ShiftOp::Srai => 0x20,
    }
}

/// The funct3 of an operation on two registers.
fn register_bits(op: RegisterOp) -> u32
    ensures value { result ≡ register_funct3 op }
    ensures small { result < 2 ^ 3 }
{
    match op {
        RegisterOp::Add | RegisterOp::Sub => 0,
        RegisterOp::Sll => 1,
        RegisterOp::Slt => 2,
        RegisterOp::Sltu => 3,
        RegisterOp::Xor => 4,
        RegisterOp::Srl | RegisterOp::Sra => 5,
        RegisterOp::Or => 6,
        RegisterOp::And => 7,
    }
}

/// The funct7 of an operation on two registers.
fn register_high_bits(op: RegisterOp) -> u32
    ensures value { result ≡ register_funct7 op }
    ensures small { result < 2 ^ 7 }
{
    match op {
        RegisterOp::Sub | RegisterOp::Sra => 0x20,
        RegisterOp::Add
        | RegisterOp::Sll
        | RegisterOp::Slt
        | RegisterOp::Sltu
        | RegisterOp::Xor
        | RegisterOp::Srl
        | RegisterOp::Or
        | RegisterOp::And => 0,
    }
}
