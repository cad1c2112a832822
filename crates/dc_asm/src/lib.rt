//! An assembler: a source's lines to the ELF file of a guest, or the first faulty line.
#![tactic(auto)]

mod assembling;
mod elf;
mod faults;
mod forms;
mod laws;
mod names;
mod operands;
mod source;
mod table;

pub use assembling::assemble;
pub use faults::{AsmError, AsmFault, AsmKind};
pub use laws::{a_program_has_one_file, files_load};
