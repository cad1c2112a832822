ghost use Rattle.std.specs.Prelude.{◌≡◌, List, ℕ, IfSome, None, OnOk, Some};
ghost use Rattle.dc_check.specs.Differences.{noted};
ghost use Rattle.dc_check.specs.Compared.{found};

use std::alloc::{AllocError, Global};
use std::collections::HashMap;

/// The first line so far of each process and number.
#[derive(Drop)]
pub struct FirstLines<'a> {
    lines: HashMap<&'a [u8], &'a [u8]>,
}

impl<'a> FirstLines<'a> {
    /// No lines.
    pub fn new(alloc: Global) -> Self
        ensures { (numbers : List ℕ) → found result numbers ≡ None }
    {
        FirstLines {
            lines: HashMap::new(alloc),
        }
    }

    /// The first line of these numbers.
    pub fn find(&self, numbers: &[u8]) -> Option<&'a [u8]>
        ensures some { IfSome result (λ line. found self.now numbers.now ≡ Some line.now) }
        ensures none { result ≡ None → found self.now numbers.now ≡ None }
    {
        self.lines.get(numbers).copied()
    }

    /// Keeps the line of these numbers.
    pub fn note(&mut self, numbers: &'a [u8], line: &'a [u8]) -> Result<(), AllocError>
        ensures { OnOk result ((other : List ℕ) → found self.new other ≡ noted (Some numbers.now) line.now (found self.old) other) }
    {
        self.lines.insert(numbers, line)?;
        Ok(())
    }
}
