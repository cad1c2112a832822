ghost use Rattle.std.specs.Prelude.{◌≡◌};
ghost use Rattle.dc_asm.specs.Table.{branch_op, form_of, immediate_op, load_op, register_op, shift_op, single_form, store_op};

use dc_isa::{BranchOp, ImmediateOp, LoadOp, RegisterOp, ShiftOp, StoreOp, UpperOp};

/// How the operands of a mnemonic are read.
#[derive(Clone, Copy)]
pub enum Form {
    /// `REGISTER,REGISTER,REGISTER`
    Register(RegisterOp),
    /// `REGISTER,REGISTER,IMMEDIATE`
    Immediate(ImmediateOp),
    /// `REGISTER,REGISTER,AMOUNT`
    Shift(ShiftOp),
    /// `REGISTER,IMMEDIATE(REGISTER)`, of a load
    Load(LoadOp),
    /// `REGISTER,IMMEDIATE(REGISTER)`, of a store
    Store(StoreOp),
    /// `REGISTER,REGISTER,OFFSET`
    Branch(BranchOp),
    /// `REGISTER,IMMEDIATE(REGISTER)`, of JALR
    JumpRegister,
    /// `REGISTER,OFFSET`
    Jump,
    /// `REGISTER,NUMBER`
    Upper(UpperOp),
    /// `fence` alone
    Fence,
    /// `ecall` alone
    Ecall,
    /// `ebreak` alone
    Ebreak,
    /// `.word NUMBER`
    Word,
}

#[tactic(auto, unfolding(crate::specs::Table::register_op))]
fn register_op(text: &[u8]) -> Option<RegisterOp>
    ensures { result ≡ register_op text.now }
{
    if text == b"add".as_slice() {
        Some(RegisterOp::Add)
    } else if text == b"sub".as_slice() {
        Some(RegisterOp::Sub)
    } else if text == b"sll".as_slice() {
        Some(RegisterOp::Sll)
    } else if text == b"slt".as_slice() {
        Some(RegisterOp::Slt)
    } else if text == b"sltu".as_slice() {
        Some(RegisterOp::Sltu)
    } else if text == b"xor".as_slice() {
        Some(RegisterOp::Xor)
    } else if text == b"srl".as_slice() {
        Some(RegisterOp::Srl)
    } else if text == b"sra".as_slice() {
        Some(RegisterOp::Sra)
    } else if text == b"or".as_slice() {
        Some(RegisterOp::Or)
    } else if text == b"and".as_slice() {
        Some(RegisterOp::And)
    } else {
        None
    }
}

#[tactic(auto, unfolding(crate::specs::Table::immediate_op))]
fn immediate_op(text: &[u8]) -> Option<ImmediateOp>
    ensures { result ≡ immediate_op text.now }
{
    if text == b"addi".as_slice() {
        Some(ImmediateOp::Addi)
    } else if text == b"slti".as_slice() {
        Some(ImmediateOp::Slti)
    } else if text == b"sltiu".as_slice() {
        Some(ImmediateOp::Sltiu)
    } else if text == b"xori".as_slice() {
        Some(ImmediateOp::Xori)
    } else if text == b"ori".as_slice() {
        Some(ImmediateOp::Ori)
    } else if text == b"andi".as_slice() {
        Some(ImmediateOp::Andi)
    } else {
        None
    }
}

#[tactic(auto, unfolding(crate::specs::Table::shift_op))]
fn shift_op(text: &[u8]) -> Option<ShiftOp>
    ensures { result ≡ shift_op text.now }
{
    if text == b"slli".as_slice() {
        Some(ShiftOp::Slli)
    } else if text == b"srli".as_slice() {
        Some(ShiftOp::Srli)
    } else if text == b"srai".as_slice() {
        Some(ShiftOp::Srai)
    } else {
        None
    }
}

#[tactic(auto, unfolding(crate::specs::Table::load_op))]
fn load_op(text: &[u8]) -> Option<LoadOp>
    ensures { result ≡ load_op text.now }
{
    if text == b"lb".as_slice() {
        Some(LoadOp::Lb)
    } else if text == b"lh".as_slice() {
        Some(LoadOp::Lh)
    } else if text == b"lw".as_slice() {
        Some(LoadOp::Lw)
    } else if text == b"lbu".as_slice() {
        Some(LoadOp::Lbu)
    } else if text == b"lhu".as_slice() {
        Some(LoadOp::Lhu)
    } else {
        None
    }
}

#[tactic(auto, unfolding(crate::specs::Table::store_op))]
fn store_op(text: &[u8]) -> Option<StoreOp>
    ensures { result ≡ store_op text.now }
{
    if text == b"sb".as_slice() {
        Some(StoreOp::Sb)
    } else if text == b"sh".as_slice() {
        Some(StoreOp::Sh)
    } else if text == b"sw".as_slice() {
        Some(StoreOp::Sw)
    } else {
        None
    }
}

#[tactic(auto, unfolding(crate::specs::Table::branch_op))]
fn branch_op(text: &[u8]) -> Option<BranchOp>
    ensures { result ≡ branch_op text.now }
{
    if text == b"beq".as_slice() {
        Some(BranchOp::Beq)
    } else if text == b"bne".as_slice() {
        Some(BranchOp::Bne)
    } else if text == b"blt".as_slice() {
        Some(BranchOp::Blt)
    } else if text == b"bge".as_slice() {
        Some(BranchOp::Bge)
    } else if text == b"bltu".as_slice() {
        Some(BranchOp::Bltu)
    } else if text == b"bgeu".as_slice() {
        Some(BranchOp::Bgeu)
    } else {
        None
    }
}

/// The forms of one or two mnemonics.
#[tactic(auto, unfolding(crate::specs::Table::single_form))]
fn single_form(text: &[u8]) -> Option<Form>
    ensures { result ≡ single_form text.now }
{
    if text == b"jalr".as_slice() {
        Some(Form::JumpRegister)
    } else if text == b"jal".as_slice() {
        Some(Form::Jump)
    } else if text == b"lui".as_slice() {
        Some(Form::Upper(UpperOp::Lui))
    } else if text == b"auipc".as_slice() {
        Some(Form::Upper(UpperOp::Auipc))
    } else if text == b"fence".as_slice() {
        Some(Form::Fence)
    } else if text == b"ecall".as_slice() {
        Some(Form::Ecall)
    } else if text == b"ebreak".as_slice() {
        Some(Form::Ebreak)
    } else if text == b".word".as_slice() {
        Some(Form::Word)
    } else {
        None
    }
}

/// The form of a mnemonic.
#[tactic(auto, unfolding(crate::specs::Table::form_of))]
pub fn form_of(text: &[u8]) -> Option<Form>
    ensures { result ≡ form_of text.now }
{
    if let Some(op) = register_op(text) {
        return Some(Form::Register(op));
    }
    if let Some(op) = immediate_op(text) {
        return Some(Form::Immediate(op));
    }
    if let Some(op) = shift_op(text) {
        return Some(Form::Shift(op));
    }
    if let Some(op) = load_op(text) {
        return Some(Form::Load(op));
    }
    if let Some(op) = store_op(text) {
        return Some(Form::Store(op));
    }
    if let Some(op) = branch_op(text) {
        return Some(Form::Branch(op));
    }
    single_form(text)
}
