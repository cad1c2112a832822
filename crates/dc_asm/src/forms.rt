ghost use Rattle.std.specs.Prelude.{◌≡◌, ◌<◌, ◌^◌, IfOk};
ghost use Rattle.dc_asm.specs.Names.{found};
ghost use Rattle.dc_words.specs.Results.{seen};
ghost use Rattle.dc_asm.specs.Source.{operands_of};
ghost use Rattle.dc_asm.specs.Forms.{HasFields, IsWordOf, bare_form, based, branch_form, immediate_form, jump_form, jump_register_form, load_form, meaning, meant_by, one, register_form, shift_form, store_form, three, two, upper_form, word_form};

use crate::AsmKind;
use crate::names::Names;
use crate::operands::{immediate, indirect, offset, register, unsigned};
use crate::source::{has_high, line_parts, without_blanks};
use crate::table::{Form, form_of};
use dc_isa::{BranchOp, ImmediateOp, Instr, LoadOp, RegisterOp, ShiftOp, StoreOp, UpperOp, encode};
use dc_words::first_field;

/// What a line stands for.
#[derive(Clone, Copy)]
pub enum Meant {
    /// An instruction.
    Instruction(Instr),
    /// A word, as it is written.
    Raw(u32),
}

/// The only operand.
#[tactic(auto, unfolding(crate::specs::Forms::one))]
fn one(text: &[u8]) -> Result<&[u8], AsmKind>
    ensures { seen (λ x. x.now) result ≡ one (operands_of text.now) }
{
    if text.is_empty() {
        return Err(AsmKind::Word);
    }
    match first_field(b',', text) {
        Some(_) => Err(AsmKind::Word),
        None => Ok(without_blanks(text)),
    }
}

/// The only two operands.
#[tactic(auto, unfolding(crate::specs::Forms::two))]
fn two(text: &[u8]) -> Result<(&[u8], &[u8]), AsmKind>
    ensures { seen (λ x. (x.0.now, x.1.now)) result ≡ two (operands_of text.now) }
{
    let Some((first, rest)) = first_field(b',', text) else {
        return Err(AsmKind::Word);
    };
    match first_field(b',', rest) {
        Some(_) => Err(AsmKind::Word),
        None => Ok((without_blanks(first), without_blanks(rest))),
    }
}

/// The only three operands.
#[tactic(auto, unfolding(crate::specs::Forms::three))]
fn three(text: &[u8]) -> Result<(&[u8], &[u8], &[u8]), AsmKind>
    ensures { seen (λ x. (x.0.now, x.1.now, x.2.now)) result ≡ three (operands_of text.now) }
{
    let Some((first, rest)) = first_field(b',', text) else {
        return Err(AsmKind::Word);
    };
    let Some((second, rest)) = first_field(b',', rest) else {
        return Err(AsmKind::Word);
    };
    match first_field(b',', rest) {
        Some(_) => Err(AsmKind::Word),
        None => Ok((
            without_blanks(first),
            without_blanks(second),
            without_blanks(rest),
        )),
    }
}

/// A register, an immediate and a register: `REGISTER,IMMEDIATE(REGISTER)`.
#[tactic(auto, unfolding(crate::specs::Forms::based))]
fn based(text: &[u8]) -> Result<(&[u8], &[u8], &[u8]), AsmKind>
    ensures { seen (λ x. (x.0.now, x.1.now, x.2.now)) result ≡ based (operands_of text.now) }
{
    let (first, second) = two(text)?;
    match indirect(second) {
        Some((displacement, base)) => Ok((first, displacement, base)),
        None => Err(AsmKind::Word),
    }
}

#[tactic(auto, unfolding(crate::specs::Forms::register_form))]
fn register_form(op: RegisterOp, text: &[u8]) -> Result<Meant, AsmKind>
    ensures exact { result ≡ register_form op (operands_of text.now) }
    ensures fits { IfOk result HasFields }
{
    let (rd, rs1, rs2) = three(text)?;
    let rd = register(rd)?;
    let rs1 = register(rs1)?;
    let rs2 = register(rs2)?;
    Ok(Meant::Instruction(Instr::Register { op, rd, rs1, rs2 }))
}

#[tactic(auto, unfolding(crate::specs::Forms::immediate_form))]
fn immediate_form(names: &Names, op: ImmediateOp, text: &[u8]) -> Result<Meant, AsmKind>
    ensures exact { result ≡ immediate_form (found names.now) op (operands_of text.now) }
    ensures fits { IfOk result HasFields }
{
    let (rd, rs1, imm) = three(text)?;
    let rd = register(rd)?;
    let rs1 = register(rs1)?;
    let imm = immediate(names, imm)?;
    Ok(Meant::Instruction(Instr::Immediate { op, rd, rs1, imm }))
}

#[tactic(auto, unfolding(crate::specs::Forms::shift_form))]
fn shift_form(op: ShiftOp, text: &[u8]) -> Result<Meant, AsmKind>
    ensures exact { result ≡ shift_form op (operands_of text.now) }
    ensures fits { IfOk result HasFields }
{
    let (rd, rs1, amount) = three(text)?;
    let rd = register(rd)?;
    let rs1 = register(rs1)?;
    let amount = unsigned(31, amount)?;
    Ok(Meant::Instruction(Instr::Shift {
        op,
        rd,
        rs1,
        amount,
    }))
}

#[tactic(auto, unfolding(crate::specs::Forms::load_form))]
fn load_form(names: &Names, op: LoadOp, text: &[u8]) -> Result<Meant, AsmKind>
    ensures exact { result ≡ load_form (found names.now) op (operands_of text.now) }
    ensures fits { IfOk result HasFields }
{
    let (rd, imm, rs1) = based(text)?;
    let rd = register(rd)?;
    let rs1 = register(rs1)?;
    let imm = immediate(names, imm)?;
    Ok(Meant::Instruction(Instr::Load { op, rd, rs1, imm }))
}

#[tactic(auto, unfolding(crate::specs::Forms::jump_register_form))]
fn jump_register_form(names: &Names, text: &[u8]) -> Result<Meant, AsmKind>
    ensures exact { result ≡ jump_register_form (found names.now) (operands_of text.now) }
    ensures fits { IfOk result HasFields }
{
    let (rd, imm, rs1) = based(text)?;
    let rd = register(rd)?;
    let rs1 = register(rs1)?;
    let imm = immediate(names, imm)?;
    Ok(Meant::Instruction(Instr::Jalr { rd, rs1, imm }))
}

#[tactic(auto, unfolding(crate::specs::Forms::store_form))]
fn store_form(names: &Names, op: StoreOp, text: &[u8]) -> Result<Meant, AsmKind>
    ensures exact { result ≡ store_form (found names.now) op (operands_of text.now) }
    ensures fits { IfOk result HasFields }
{
    let (rs2, imm, rs1) = based(text)?;
    let rs2 = register(rs2)?;
    let rs1 = register(rs1)?;
    let imm = immediate(names, imm)?;
    Ok(Meant::Instruction(Instr::Store { op, rs1, rs2, imm }))
}

#[tactic(auto, unfolding(crate::specs::Forms::branch_form))]
fn branch_form(names: &Names, word: u64, op: BranchOp, text: &[u8]) -> Result<Meant, AsmKind>
    ensures exact { result ≡ branch_form (found names.now) word op (operands_of text.now) }
    ensures fits { IfOk result HasFields }
{
    let (rs1, rs2, to) = three(text)?;
    let rs1 = register(rs1)?;
    let rs2 = register(rs2)?;
    let imm = offset(0x1000, names, word, to)?;
    Ok(Meant::Instruction(Instr::Branch { op, rs1, rs2, imm }))
}

#[tactic(auto, unfolding(crate::specs::Forms::jump_form))]
fn jump_form(names: &Names, word: u64, text: &[u8]) -> Result<Meant, AsmKind>
    ensures exact { result ≡ jump_form (found names.now) word (operands_of text.now) }
    ensures fits { IfOk result HasFields }
{
    let (rd, to) = two(text)?;
    let rd = register(rd)?;
    let imm = offset(0x10_0000, names, word, to)?;
    Ok(Meant::Instruction(Instr::Jal { rd, imm }))
}

#[tactic(auto, unfolding(crate::specs::Forms::upper_form))]
fn upper_form(op: UpperOp, text: &[u8]) -> Result<Meant, AsmKind>
    ensures exact { result ≡ upper_form op (operands_of text.now) }
    ensures fits { IfOk result HasFields }
{
    let (rd, imm) = two(text)?;
    let rd = register(rd)?;
    let imm = unsigned(0xf_ffff, imm)?;
    Ok(Meant::Instruction(Instr::Upper { op, rd, imm }))
}

#[tactic(auto, unfolding(crate::specs::Forms::word_form))]
fn word_form(text: &[u8]) -> Result<Meant, AsmKind>
    ensures exact { result ≡ word_form (operands_of text.now) }
    ensures fits { IfOk result HasFields }
{
    let word = one(text)?;
    let word = unsigned(0xffff_ffff, word)?;
    Ok(Meant::Raw(word))
}

#[tactic(auto, unfolding(crate::specs::Forms::bare_form))]
fn bare_form(meant: Meant, text: &[u8]) -> Result<Meant, AsmKind>
    requires { HasFields meant }
    ensures exact { result ≡ bare_form meant (operands_of text.now) }
    ensures fits { IfOk result HasFields }
{
    if text.is_empty() {
        Ok(meant)
    } else {
        Err(AsmKind::Word)
    }
}

#[tactic(auto, unfolding(crate::specs::Forms::meant_by))]
fn meant_by(names: &Names, word: u64, form: Form, text: &[u8]) -> Result<Meant, AsmKind>
    ensures exact { result ≡ meant_by (found names.now) word form (operands_of text.now) }
    ensures fits { IfOk result HasFields }
{
    match form {
        Form::Register(op) => register_form(op, text),
        Form::Immediate(op) => immediate_form(names, op, text),
        Form::Shift(op) => shift_form(op, text),
        Form::Load(op) => load_form(names, op, text),
        Form::JumpRegister => jump_register_form(names, text),
        Form::Store(op) => store_form(names, op, text),
        Form::Branch(op) => branch_form(names, word, op, text),
        Form::Jump => jump_form(names, word, text),
        Form::Upper(op) => upper_form(op, text),
        Form::Word => word_form(text),
        Form::Fence => bare_form(Meant::Raw(0x0ff0_000f), text),
        Form::Ecall => bare_form(Meant::Instruction(Instr::Ecall), text),
        Form::Ebreak => bare_form(Meant::Instruction(Instr::Ebreak), text),
    }
}

/// What the bare line of a word stands for.
#[tactic(auto, unfolding(crate::specs::Forms::meaning))]
pub fn meaning(names: &Names, word: u64, line: &[u8]) -> Result<Meant, AsmKind>
    ensures exact { result ≡ meaning (found names.now) word line.now }
    ensures fits { IfOk result HasFields }
{
    if has_high(line) {
        return Err(AsmKind::Word);
    }
    let (mnemonic, operands) = line_parts(line);
    match form_of(mnemonic) {
        Some(form) => meant_by(names, word, form, operands),
        None => Err(AsmKind::Word),
    }
}

/// The word that codes it.
pub fn word_of(meant: &Meant) -> u32
    requires { HasFields meant.now }
    ensures { IsWordOf meant.now result }
{
    match meant {
        Meant::Instruction(instr) => encode(instr),
        Meant::Raw(word) => *word,
    }
}
