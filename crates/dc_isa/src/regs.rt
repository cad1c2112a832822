/// The registers x0 to x31 and the address of the next instruction. x0 is always 0.
#[derive(Clone, Copy, Debug, PartialEq, Eq)]
pub struct Regs {
    /// The registers, each a word (RISC-V unprivileged manual, RV32I 2.1).
    pub x: [u32; 32],
    /// The address of the next instruction, in bytes.
    pub pc: u32,
}
