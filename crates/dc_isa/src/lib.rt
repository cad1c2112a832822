//! The instructions of RV32I: which word codes which.
#![tactic(auto)]

mod decoding;
mod encoding;
mod instr;
mod laws;
mod regs;

pub use decoding::{decode, is_ecall};
pub use encoding::encode;
pub use instr::{BranchOp, ImmediateOp, Instr, LoadOp, RegisterOp, ShiftOp, StoreOp, UpperOp};
pub use laws::{no_two_instructions_code_one_word, words_decode_by_the_table};
pub use regs::Regs;
