ghost use Rattle.std.specs.Prelude.{◌≡◌, IfOk};
ghost use Rattle.dc_command.specs.Meant.{is_nearly, meant_of, name_text, nearly_of};

use std::alloc::{AllocError, Global};
use strsim::osa_distance;

/// The name of a command.
#[derive(Clone, Copy, Debug, PartialEq, Eq)]
pub enum CommandName {
    Run,
    Check,
    Asm,
    Journal,
    Audit,
    Resume,
}

impl CommandName {
    /// The word that names it.
    pub fn text(self) -> &'static str
        ensures { result.now ≡ name_text self }
    {
        match self {
            CommandName::Run => "run",
            CommandName::Check => "check",
            CommandName::Asm => "asm",
            CommandName::Journal => "journal",
            CommandName::Audit => "audit",
            CommandName::Resume => "resume",
        }
    }
}

/// Whether a word is nearly that name.
fn is_nearly(alloc: Global, word: &str, name: &str) -> Result<bool, AllocError>
    ensures { IfOk result (λ nearly. nearly ≡ is_nearly word.now name.now) }
{
    let steps = osa_distance(alloc, word, name)?;
    Ok(0 < steps && steps <= word.len() / 3)
}

/// The command whose name a word nearly is.
fn nearly(alloc: Global, word: &str) -> Result<Option<CommandName>, AllocError>
    ensures { IfOk result (λ name. name ≡ nearly_of word.now) }
{
    if is_nearly(alloc, word, "run")? {
        return Ok(Some(CommandName::Run));
    }
    if is_nearly(alloc, word, "check")? {
        return Ok(Some(CommandName::Check));
    }
    if is_nearly(alloc, word, "asm")? {
        return Ok(Some(CommandName::Asm));
    }
    if is_nearly(alloc, word, "journal")? {
        return Ok(Some(CommandName::Journal));
    }
    if is_nearly(alloc, word, "audit")? {
        return Ok(Some(CommandName::Audit));
    }
    if is_nearly(alloc, word, "resume")? {
        return Ok(Some(CommandName::Resume));
    }
    Ok(None)
}

/// The command that words were probably meant as which are no command's: the one whose name the first word behind the program's is nearly, at most
/// a third of its bytes away (by optimal string alignment, where two that are swapped count once).
pub fn meant(alloc: Global, words: &[String]) -> Result<Option<CommandName>, AllocError>
    ensures { IfOk result (λ name. name ≡ meant_of words.now) }
{
    match words {
        [_, word, ..] => nearly(alloc, word.as_str()),
        _ => Ok(None),
    }
}
