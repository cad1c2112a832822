ghost use Rattle.std.specs.Prelude.{◌≡◌, ◌≤◌, ◌<◌, ◌*◌, ◌^◌, ◌%◌, IfOk, option_map};
ghost use Rattle.dc_asm.specs.Names.{address, found};
ghost use Rattle.dc_asm.specs.Operands.{absolute, even, immediate, indirect, named, number, offset, register, relative, signed, size, unsigned};

use crate::AsmKind;
use crate::names::{Definition, Names};
use crate::source::{cut_at, ended_by, is_name};
use dc_words::read_number;

/// The number `plus - minus`.
#[derive(Clone, Copy)]
pub struct Value {
    /// What counts up.
    pub plus: u128,
    /// What counts down.
    pub minus: u128,
}

fn size(text: &[u8]) -> Option<u128>
    ensures { result ≡ size text.now }
{
    match read_number(text, 0xffff_ffff) {
        Ok(n) => Some(u128::from(n)),
        Err(_) => None,
    }
}

/// The number of a register.
#[tactic(auto, unfolding(crate::specs::Operands::register))]
pub fn register(text: &[u8]) -> Result<u32, AsmKind>
    ensures exact { result ≡ register text.now }
    ensures fits { IfOk result (λ n. n < 2 ^ 5) }
{
    let [b'x', digits @ ..] = text else {
        return Err(AsmKind::Register);
    };
    match read_number(digits, 31) {
        Ok(n) => Ok(n as u32),
        Err(_) => Err(AsmKind::Register),
    }
}

/// A number with its sign.
#[tactic(auto, unfolding(crate::specs::Operands::number))]
pub fn number(text: &[u8]) -> Option<Value>
    ensures { result ≡ number text.now }
{
    match text {
        [] => None,
        [b'-', digits @ ..] => Some(Value {
            plus: 0,
            minus: size(digits)?,
        }),
        [_, ..] => Some(Value {
            plus: size(text)?,
            minus: 0,
        }),
    }
}

/// The address of a word.
pub fn address(word: u64) -> u128
    ensures { result ≡ address word }
{
    1024 + 4 * u128::from(word)
}

/// The address of a name.
#[tactic(auto, unfolding(crate::specs::Operands::named))]
fn named(names: &Names, text: &[u8]) -> Result<Value, AsmKind>
    ensures { result ≡ named (found names.now) text.now }
{
    if !is_name(text) {
        return Err(AsmKind::Immediate);
    }
    match names.find(text) {
        Some(definition) => Ok(Value {
            plus: address(definition.word),
            minus: 0,
        }),
        None => Err(AsmKind::Label),
    }
}

/// A number, or the address of a name.
#[tactic(auto, unfolding(crate::specs::Operands::absolute))]
fn absolute(names: &Names, text: &[u8]) -> Result<Value, AsmKind>
    ensures { result ≡ absolute (found names.now) text.now }
{
    match number(text) {
        Some(value) => Ok(value),
        None => named(names, text),
    }
}

/// A number, or the way from a word to a name.
#[tactic(auto, unfolding(crate::specs::Operands::relative))]
fn relative(names: &Names, word: u64, text: &[u8]) -> Result<Value, AsmKind>
    ensures { result ≡ relative (found names.now) word text.now }
{
    match number(text) {
        Some(value) => Ok(value),
        None => {
            let target = named(names, text)?;
            Ok(Value {
                plus: target.plus,
                minus: address(word),
            })
        }
    }
}

/// A number from `-half` to `half - 1`, in two's complement.
#[tactic(auto, unfolding(crate::specs::Operands::signed))]
fn signed(half: u32, value: Value) -> Result<u32, AsmKind>
    requires { half ≤ 2 ^ 20 }
    ensures exact { result ≡ signed half value }
    ensures fits { IfOk result (λ bits. bits < 2 * half) }
{
    if value.minus <= value.plus {
        let size = value.plus - value.minus;
        if size < u128::from(half) {
            Ok(size as u32)
        } else {
            Err(AsmKind::Immediate)
        }
    } else {
        let size = value.minus - value.plus;
        if size <= u128::from(half) {
            Ok(2 * half - size as u32)
        } else {
            Err(AsmKind::Immediate)
        }
    }
}

/// An immediate of 12 bits.
#[tactic(auto, unfolding(crate::specs::Operands::immediate))]
pub fn immediate(names: &Names, text: &[u8]) -> Result<u32, AsmKind>
    ensures exact { result ≡ immediate (found names.now) text.now }
    ensures fits { IfOk result (λ bits. bits < 2 ^ 12) }
{
    signed(0x800, absolute(names, text)?)
}

/// An even number from `-half` to `half - 2`, in two's complement.
#[tactic(auto, unfolding(crate::specs::Operands::offset))]
pub fn offset(half: u32, names: &Names, word: u64, text: &[u8]) -> Result<u32, AsmKind>
    requires { half ≤ 2 ^ 20 }
    ensures exact { result ≡ offset half (found names.now) word text.now }
    ensures fits { IfOk result (λ bits. bits < 2 * half) }
    ensures even { IfOk result (λ bits. bits % 2 ≡ 0) }
{
    let value = relative(names, word, text)?;
    let bits = signed(half, value)?;
    if bits % 2 == 0 {
        Ok(bits)
    } else {
        Err(AsmKind::Immediate)
    }
}

/// A number from 0 up to a greatest one.
#[tactic(auto, unfolding(crate::specs::Operands::unsigned))]
pub fn unsigned(max: u32, text: &[u8]) -> Result<u32, AsmKind>
    ensures exact { result ≡ unsigned max text.now }
    ensures fits { IfOk result (λ n. n ≤ max) }
{
    match number(text) {
        Some(value) if value.minus == 0 && value.plus <= u128::from(max) => Ok(value.plus as u32),
        _ => Err(AsmKind::Immediate),
    }
}

/// The texts of `IMMEDIATE(REGISTER)`.
#[tactic(auto, unfolding(crate::specs::Operands::indirect))]
pub fn indirect(text: &[u8]) -> Option<(&[u8], &[u8])>
    ensures { option_map (λ x. (x.0.now, x.1.now)) result ≡ indirect text.now }
{
    let (displacement, behind) = cut_at(b'(', text)?;
    let base = ended_by(b')', behind)?;
    Some((displacement, base))
}
