ghost use Rattle.std.specs.Prelude.{◌≡◌, ◌≤◌, ◌<◌, ◌+◌, ◌++◌, IfErr, IfOk, IfSome, List, OnOk, length};
ghost use Rattle.std.specs.Option.{option_to_list};
ghost use Rattle.dc_asm.specs.declared.forms.Meant.{Meant as Means};
ghost use Rattle.dc_asm.specs.Names.{found};
ghost use Rattle.dc_asm.specs.Forms.{HasFields};
ghost use Rattle.dc_asm.specs.Program.{AreWordsOf, IsFileOf, Makes, count_of, line_meaning, program_from, program_of};
ghost use Rattle.dc_words.specs.Texts.{lines_of};

use crate::elf::elf_of;
use crate::forms::{Meant, meaning, word_of};
use crate::names::{Names, names_in};
use crate::source::{bare, defined};
use crate::{AsmError, AsmFault, AsmKind};
use dc_words::first_line;
use std::alloc::Global;

/// The most words of a source.
const WORDS: u64 = 16000;

/// The word of a bare line, none where it is empty or defines a name.
#[tactic(auto, unfolding(crate::specs::Program::line_meaning))]
fn line_meaning(
    names: &Names,
    number: u64,
    word: u64,
    line: &[u8],
) -> Result<Option<Meant>, AsmKind>
    ensures exact { result ≡ line_meaning (found names.now) number word line.now }
    ensures fits { IfOk result (λ meant. IfSome meant HasFields) }
    ensures few { IfOk result (λ meant. IfSome meant (λ _. word < 16000)) }
{
    if line.is_empty() {
        return Ok(None);
    }
    if let Some(name) = defined(line) {
        return match names.find(name) {
            Some(definition) if definition.line < number => Err(AsmKind::Twice),
            _ => Ok(None),
        };
    }
    let meant = meaning(names, word, line)?;
    if word < WORDS {
        Ok(Some(meant))
    } else {
        Err(AsmKind::TooLong)
    }
}

/// Puts the word of a line behind the others.
fn push_word(words: &mut Vec<u32>, meant: Option<Meant>) -> Result<(), AsmError>
    requires { IfSome meant HasFields }
    ensures words { OnOk result ((front : List Means) → AreWordsOf front words.old.items → AreWordsOf (front ++ option_to_list meant) words.new.items) }
    ensures count { OnOk result (length words.new.items ≡ length words.old.items + count_of meant) }
    ensures fails { IfErr result (λ e. e ≡ AsmError.Memory) }
{
    let Some(meant) = meant else {
        return Ok(());
    };
    if words.push(word_of(&meant)).is_err() {
        return Err(AsmError::Memory);
    }
    Ok(())
}

/// The words of a source.
fn words_of(alloc: Global, names: &Names, source: &[u8]) -> Result<Vec<u32>, AsmError>
    ensures words { Makes AreWordsOf result (program_from (found names.now) 1 0 (lines_of source.now)) }
    ensures few { IfOk result (λ words. length words.items ≤ 16000) }
{
    let mut words = Vec::new(alloc);
    let mut number: u64 = 1;
    let mut rest = source;
    while !rest.is_empty() {
        let (line, after) = first_line(rest);
        match line_meaning(names, number, words.len() as u64, bare(line)) {
            Err(kind) => {
                let line = number;
                return Err(AsmError::Refused(AsmFault { line, kind }));
            }
            Ok(meant) => push_word(&mut words, meant)?,
        }
        number += 1;
        rest = after;
    }
    Ok(words)
}

/// The ELF file of a source, or its first faulty line.
pub fn assemble(alloc: Global, source: &[u8]) -> Result<Vec<u8>, AsmError>
    ensures { Makes IsFileOf result (program_of source.now) }
{
    let Ok(names) = names_in(alloc, source) else {
        return Err(AsmError::Memory);
    };
    let words = words_of(alloc, &names, source)?;
    match elf_of(alloc, &words) {
        Ok(file) => Ok(file),
        Err(_) => Err(AsmError::Memory),
    }
}
