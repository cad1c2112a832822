/// An operation on the upper 20 bits of a word.
#[derive(Clone, Copy, Debug, PartialEq, Eq)]
pub enum UpperOp {
    /// The immediate with twelve zeros below it.
    Lui,
    /// That, added to the address of the instruction itself.
    Auipc,
}

/// When a branch is taken.
#[derive(Clone, Copy, Debug, PartialEq, Eq)]
pub enum BranchOp {
    /// Where the registers are equal.
    Beq,
    /// Where they differ.
    Bne,
    /// Where the first is less, both signed.
    Blt,
    /// Where the first is not less, both signed.
    Bge,
    /// Where the first is less, both unsigned.
    Bltu,
    /// Where the first is not less, both unsigned.
    Bgeu,
}

/// What is loaded.
#[derive(Clone, Copy, Debug, PartialEq, Eq)]
pub enum LoadOp {
    /// A byte with its sign.
    Lb,
    /// A half of a word with its sign.
    Lh,
    /// A word.
    Lw,
    /// A byte without sign.
    Lbu,
    /// A half of a word without sign.
    Lhu,
}

/// What is stored.
#[derive(Clone, Copy, Debug, PartialEq, Eq)]
pub enum StoreOp {
    /// The lowest byte.
    Sb,
    /// The lower half.
    Sh,
    /// The word.
    Sw,
}

/// An operation on a register and an immediate.
#[derive(Clone, Copy, Debug, PartialEq, Eq)]
pub enum ImmediateOp {
    /// The sum.
    Addi,
    /// 1 where the register is less, both signed, else 0.
    Slti,
    /// 1 where the register is less, both unsigned, else 0.
    Sltiu,
    /// The bits that differ.
    Xori,
    /// The bits that are in either.
    Ori,
    /// The bits that are in both.
    Andi,
}

/// A shift of a register by an amount below 32.
#[derive(Clone, Copy, Debug, PartialEq, Eq)]
pub enum ShiftOp {
    /// To the left.
    Slli,
    /// To the right, zeros from above.
    Srli,
    /// To the right, copies of the sign from above.
    Srai,
}

/// An operation on two registers.
#[derive(Clone, Copy, Debug, PartialEq, Eq)]
pub enum RegisterOp {
    /// The sum.
    Add,
    /// The difference.
    Sub,
    /// The first shifted to the left by the low five bits of the second.
    Sll,
    /// 1 where the first is less, both signed, else 0.
    Slt,
    /// 1 where the first is less, both unsigned, else 0.
    Sltu,
    /// The bits that differ.
    Xor,
    /// The first shifted to the right by the low five bits of the second, zeros from above.
    Srl,
    /// The same with copies of the sign from above.
    Sra,
    /// The bits that are in either.
    Or,
    /// The bits that are in both.
    And,
}

/// An instruction by the fields of its format (RISC-V unprivileged manual, RV32I 2.1). Registers are numbers below 32;
/// an immediate is the number of its bits, not yet sign-extended.
#[derive(Clone, Copy, Debug, PartialEq, Eq)]
pub enum Instr {
    /// The U format: the upper 20 bits of an immediate.
    Upper {
        op: UpperOp,
        rd: u32,
        imm: u32,
    },
    /// JAL, the J format: an even offset of 21 bits.
    Jal {
        rd: u32,
        imm: u32,
    },
    /// JALR, in the I format.
    Jalr {
        rd: u32,
        rs1: u32,
        imm: u32,
    },
    /// The B format: an even offset of 13 bits.
    Branch {
        op: BranchOp,
        rs1: u32,
        rs2: u32,
        imm: u32,
    },
    /// A load, in the I format.
    Load {
        op: LoadOp,
        rd: u32,
        rs1: u32,
        imm: u32,
    },
    /// The S format: an immediate of 12 bits.
    Store {
        op: StoreOp,
        rs1: u32,
        rs2: u32,
        imm: u32,
    },
    /// The I format: an immediate of 12 bits.
    Immediate {
        op: ImmediateOp,
        rd: u32,
        rs1: u32,
        imm: u32,
    },
    /// A shift by an immediate: the I format with the fields of the R format.
    Shift {
        op: ShiftOp,
        rd: u32,
        rs1: u32,
        amount: u32,
    },
    /// The R format.
    Register {
        op: RegisterOp,
        rd: u32,
        rs1: u32,
        rs2: u32,
    },
    /// FENCE, which does nothing here. Its free bits are kept: those from 15 up, then the five from 7 on.
    Fence {
        bits: u32,
    },
    /// ECALL, which asks the system for what the registers say.
    Ecall,
    /// EBREAK, which traps.
    Ebreak,
}
