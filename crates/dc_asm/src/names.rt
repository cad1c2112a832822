ghost use Rattle.std.specs.Prelude.{◌≡◌, ◌≤◌, ◌+◌, ◌∷◌, [], List, ℕ, IfOk, OnOk, None, length};
ghost use Rattle.dc_asm.specs.Source.{defined};
ghost use Rattle.dc_asm.specs.Names.{definition, found, first_of, definition_in, words_in_line};
ghost use Rattle.std.specs.Option.{option_or};

use crate::source::{bare, defined};
use dc_words::first_line;
use std::alloc::{AllocError, Global};
use std::collections::HashMap;

/// Where a name is defined: in that line, before that word.
#[derive(Clone, Copy)]
pub struct Definition {
    /// The number of the line, from 1 on.
    pub line: u64,
    /// How many words stand before it.
    pub word: u64,
}

/// The first definition of each name.
#[derive(Drop)]
pub struct Names<'a> {
    definitions: HashMap<&'a [u8], Definition>,
}

impl<'a> Names<'a> {
    fn new(alloc: Global) -> Self
        ensures { (name : List ℕ) → found result name ≡ None }
    {
        Names {
            definitions: HashMap::new(alloc),
        }
    }

    /// Where a name is defined first.
    pub fn find(&self, name: &[u8]) -> Option<Definition>
        ensures { result ≡ found self.now name.now }
    {
        self.definitions.get(name).copied()
    }

    /// Keeps a definition, unless the name has one.
    fn define(&mut self, name: &'a [u8], definition: Definition) -> Result<(), AllocError>
        ensures { OnOk result ((other : List ℕ) → found self.new other ≡ option_or (found self.old other) (first_of ((name.now, definition) ∷ []) other)) }
    {
        if self.find(name).is_some() {
            return Ok(());
        }
        self.definitions.insert(name, definition)?;
        Ok(())
    }
}

/// Keeps what a bare line of that number defines, behind so many words.
fn define_line<'a>(
    names: &mut Names<'a>,
    line: u64,
    word: u64,
    text: &'a [u8],
) -> Result<(), AllocError>
    ensures { OnOk result ((other : List ℕ) → found names.new other ≡ option_or (found names.old other) (first_of (definition line word (defined text.now)) other)) }
{
    match defined(text) {
        Some(name) => names.define(name, Definition { line, word }),
        None => Ok(()),
    }
}

/// How many words a bare line stands for.
#[tactic(auto, unfolding(crate::specs::Names::words_in_line))]
fn words_in_line(line: &[u8]) -> u64
    ensures exact { result ≡ words_in_line line.now }
    ensures few { result ≤ 1 }
{
    if line.is_empty() {
        return 0;
    }
    match defined(line) {
        Some(_) => 0,
        None => 1,
    }
}

/// The names that a source defines.
pub fn names_in(alloc: Global, source: &[u8]) -> Result<Names<'_>, AllocError>
    ensures { IfOk result (λ names. found names ≡ definition_in source.now) }
{
    let mut names = Names::new(alloc);
    let mut line: u64 = 1;
    let mut word: u64 = 0;
    let mut rest = source;
    while !rest.is_empty() {
        let (first, after) = first_line(rest);
        let text = bare(first);
        define_line(&mut names, line, word, text)?;
        line += 1;
        word += words_in_line(text);
        rest = after;
    }
    Ok(names)
}
