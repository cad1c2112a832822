//! The words of a command line.

use dc_cases::holds;
use dc_run::{Verdict, words_of};
use std::env::{Env, FillError};
use std::test::Fail;

/// A command line of these words.
#[derive(Drop)]
struct Given {
    words: &'static [&'static [u8]],
}

impl Env for Given {
    fn arg(&self, i: usize, buf: &mut [u8]) -> Result<usize, FillError> {
        let Some(word) = self.words.get(i) else {
            return Err(FillError::NotPresent);
        };
        let Some(room) = buf.get_mut(..word.len()) else {
            return Err(FillError::TooLong);
        };
        room.copy_from_slice(word);
        Ok(word.len())
    }

    fn var(&self, _name: &str, _buf: &mut [u8]) -> Result<usize, FillError> {
        Err(FillError::NotPresent)
    }

    fn var_at(&self, _i: usize, _buf: &mut [u8]) -> Result<usize, FillError> {
        Err(FillError::NotPresent)
    }
}

/// Whether this is the word at an offset.
fn is(words: &[String], at: usize, wanted: &str) -> bool {
    match words.get(at) {
        Some(word) => word.as_str() == wanted,
        None => false,
    }
}

#[test]
fn words_that_are_no_utf_8_are_usage(rt: HostRuntime) -> Result<(), Fail> {
    let given = Given {
        words: &[b"dc", b"run", b"\xff"],
    };
    let found = words_of(&(given, rt.alloc())).err();
    holds(found == Some(Verdict::Usage), "no UTF-8", "usage")
}

#[test]
fn other_words_come_as_they_are(rt: HostRuntime) -> Result<(), Fail> {
    let given = Given {
        words: &[b"dc", b"run", b"", b"\xc3\xa9"],
    };
    let Ok(words) = words_of(&(given, rt.alloc())) else {
        return Err(Fail::new("words"));
    };
    holds(words.len() == 4, "words", "as many")?;
    holds(is(&words, 1, "run"), "words", "the second")?;
    holds(is(&words, 2, ""), "words", "the third")?;
    holds(is(&words, 3, "é"), "words", "the fourth")
}
