//! Logged events and their texts. A text of words is given by those that are not 0, as in the tests of kernels.

use super::set;
use crate::holding::holds;
use dc_kernel::{LogRecord, RECORD_WORDS, Reply};
use dc_links::Message;
use std::test::Fail;

/// Of two processes: an input of two bytes, no input, the end of the input, a message from process 1 that fills its slot, none.
const TEXTS: &str = "\
0=7 1=3 2=1 4=2 5=6968
1=3
0=ffffffff 1=3 2=2
0=8 1=7 2=1 3=1 4=40 5=4030201 6=8070605 7=c0b0a09 8=100f0e0d 9=14131211 10=18171615 11=1c1b1a19 12=201f1e1d 13=24232221 14=28272625 15=2c2b2a29 16=302f2e2d 17=34333231 18=38373635 19=3c3b3a39 20=403f3e3d
1=7
";

/// No events: of another call, of none, with another answer, the end of messages, from a process that there is not, with a body of 65 bytes.
const NONE: &str = "\
1=4
0=1
1=3 2=3
1=7 2=2
1=7 3=2
1=3 4=41
";

/// What is behind the bytes of a body counts for nothing.
const BEHIND: &str = "1=3 2=1 4=1 5=ffffff61 20=ffffffff";

fn text_of(words: &str) -> Result<[u32; RECORD_WORDS], Fail> {
    let mut text = [0; RECORD_WORDS];
    set(&mut text, words)?;
    Ok(text)
}

/// The position of the event that a text tells, and what it was told.
fn decoded(words: &str) -> Result<Option<(u32, Reply)>, Fail> {
    match LogRecord::decode(2, &text_of(words)?) {
        Some(LogRecord { position, told }) => Ok(Some((position, told))),
        None => Ok(None),
    }
}

/// The event that a text tells, whose text is this one again.
fn there_and_back(words: &str) -> Result<(), Fail> {
    let Some((position, told)) = decoded(words)? else {
        return Err(Fail::new(words));
    };
    let rec = LogRecord { position, told };
    let mut text = [9; RECORD_WORDS];
    rec.encode(&mut text);
    holds(text == text_of(words)?, words)
}

#[test]
fn texts_are_read_as_written() -> Result<(), Fail> {
    for words in TEXTS.lines() {
        there_and_back(words)?;
    }
    Ok(())
}

#[test]
fn other_words_are_no_events() -> Result<(), Fail> {
    for words in NONE.lines() {
        holds(decoded(words)?.is_none(), words)?;
    }
    Ok(())
}

/// Whether a text tells an input at a position.
fn is_input(words: &str, at: u32, body: Message) -> Result<bool, Fail> {
    match decoded(words)? {
        Some((position, told)) => Ok(position == at && told == Reply::InputNext(body)),
        None => Err(Fail::new(words)),
    }
}

#[test]
fn an_input_is_told() -> Result<(), Fail> {
    holds(
        is_input("0=7 1=3 2=1 4=2 5=6968", 7, Message::new(b"hi"))?,
        "an input",
    )
}

#[test]
fn only_the_bytes_of_a_body_count() -> Result<(), Fail> {
    holds(is_input(BEHIND, 0, Message::new(b"a"))?, BEHIND)
}
