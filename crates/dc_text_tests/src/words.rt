ghost use Rattle.std.specs.Prelude.{◌<◌, length};

use crate::holding::holds;
use dc_words::{
    NotHex, NumberFault, bytes_of, first_field, first_line, first_number, hex_line, read_hex,
    read_number, words_of,
};
use std::alloc::Global;
use std::test::Fail;

/// Texts between bars that are not hexadecimal.
const NOT_HEX: &str = "6|6F|F6|0g|zz|0/|0:|`0| 00 |00 0|0x10|6f6";

/// Numbers, each with a greatest one.
const NUMBERS: &str = "\
0 0
9 9
10 4294967295
4294967295 4294967295
4294967296 18446744073709551615
18446744073709551615 18446744073709551615
";

/// Texts between bars that are no numbers.
const NOT_NUMBERS: &str = "|00|07|+1|-0| 1|1\n|1_000|0x1|1e3|/|:|99999999999999999999x";

/// Numbers that are over a greatest one.
const TOO_GREAT: &str = "\
1 0
10 9
4294967296 4294967295
18446744073709551616 18446744073709551615
340282366920938463463374607431768211457 18446744073709551615
";

/// Texts, each with the greatest number that may stand in front of a blank, and with what is read, if something is: the number, and what
/// stands behind the blank.
const FIRST_NUMBERS: &str = "\
0 |0|0|
0 0 104217|0|0|0 104217
104217 x|104217|104217|x
1152921504606846975  7|1152921504606846975|1152921504606846975| 7
|9
 1|9
1|9
0|9
00 |9
01 |9
0x |9
1x |9
+1 |9
/ |9
: |9
1 |0
8 |7
10 |9
1152921504606846976 |1152921504606846975
99999999999999999999 |1152921504606846975
";

#[test]
fn the_lowest_byte_of_a_word_is_first() -> Result<(), Fail> {
    let words = [0x0102_0304, 0x8000_0000, 0xffff_fffe];
    let bytes = [4, 3, 2, 1, 0, 0, 0, 0x80, 0xfe, 0xff, 0xff, 0xff];
    let mut read = [7; 3];
    words_of(&bytes, &mut read);
    holds(read == words, "the words")?;
    let mut written = [7; 12];
    bytes_of(&words, &mut written);
    holds(written == bytes, "the bytes")
}

#[test]
fn a_byte_has_two_small_digits() -> Result<(), Fail> {
    let mut text = [b'x'; 12];
    hex_line(&[0x00, 0x09, 0x0a, 0x5f, 0xa0, 0xff], &mut text);
    holds(
        text.as_slice() == b"00090a5fa0ff".as_slice(),
        "the hexadecimal text",
    )
}

/// Fails where the text is not that of these bytes, or more is written than they are.
fn reads_hex(text: &str, bytes: &[u8]) -> Result<(), Fail> {
    if text.len() > 16 {
        return Err(Fail::new(text));
    }
    let mut room = [7; 8];
    holds(
        read_hex(text.as_bytes(), &mut room) == Ok(bytes.len()),
        text,
    )?;
    holds(room.starts_with(bytes), text)?;
    holds(room[7] == 7, text)
}

#[test]
fn hexadecimal_texts_are_read() -> Result<(), Fail> {
    reads_hex("6f6b", b"ok")?;
    reads_hex("", b"")?;
    reads_hex("00090a5fa0ff", b"\x00\x09\x0a\x5f\xa0\xff")
}

fn is_no_hex(text: &str) -> Result<(), Fail> {
    if text.len() > 16 {
        return Err(Fail::new(text));
    }
    holds(read_hex(text.as_bytes(), &mut [0; 8]) == Err(NotHex), text)
}

#[test]
fn what_is_no_hexadecimal_text_is_refused() -> Result<(), Fail> {
    for text in NOT_HEX.split('|') {
        is_no_hex(text)?;
    }
    Ok(())
}

fn is_number(row: &str) -> Result<(), Fail> {
    let Some((text, max)) = row.split_once(' ') else {
        return Err(Fail::new(row));
    };
    let want = text.parse::<u64>()?;
    let read = read_number(text.as_bytes(), max.parse::<u64>()?);
    holds(read == Ok(want), row)
}

#[test]
fn numbers_are_read_up_to_the_greatest() -> Result<(), Fail> {
    for row in NUMBERS.lines() {
        is_number(row)?;
    }
    Ok(())
}

#[test]
fn what_is_no_number_is_refused() -> Result<(), Fail> {
    for text in NOT_NUMBERS.split('|') {
        holds(
            read_number(text.as_bytes(), 1000) == Err(NumberFault::NotNumber),
            text,
        )?;
    }
    Ok(())
}

fn is_first(row: &str) -> Result<(), Fail> {
    let Some((text, told)) = row.split_once('|') else {
        return Err(Fail::new(row));
    };
    let (max, told) = match told.split_once('|') {
        Some((max, told)) => (max, Some(told)),
        None => (told, None),
    };
    let max = max.parse::<u64>()?;
    if max >= 1 << 60 {
        return Err(Fail::new(row));
    }
    let read = first_number(b' ', max, text.as_bytes());
    let Some(told) = told else {
        return holds(read.is_none(), row);
    };
    has_read(read, told, row)
}

/// Fails where this is not what was read.
fn has_read(read: Option<(u64, &[u8])>, told: &str, row: &str) -> Result<(), Fail> {
    let Some((number, rest)) = told.split_once('|') else {
        return Err(Fail::new(row));
    };
    let Some((value, after)) = read else {
        return Err(Fail::new(row));
    };
    holds(value == number.parse::<u64>()?, row)?;
    holds(after == rest.as_bytes(), row)
}

#[test]
fn a_number_in_front_of_a_blank_is_read() -> Result<(), Fail> {
    for row in FIRST_NUMBERS.lines() {
        is_first(row)?;
    }
    Ok(())
}

fn is_too_great(row: &str) -> Result<(), Fail> {
    let Some((text, max)) = row.split_once(' ') else {
        return Err(Fail::new(row));
    };
    let read = read_number(text.as_bytes(), max.parse::<u64>()?);
    holds(read == Err(NumberFault::Range), row)
}

#[test]
fn what_is_over_the_greatest_is_out_of_range() -> Result<(), Fail> {
    for row in TOO_GREAT.lines() {
        is_too_great(row)?;
    }
    Ok(())
}

fn is_told(alloc: Global, fault: NumberFault, text: &str) -> Result<(), Fail> {
    let told = format!(in alloc; "{fault}")?;
    holds(told.as_str() == text, text)
}

#[test]
fn a_fault_says_what_is_wrong(rt: HostRuntime) -> Result<(), Fail> {
    is_told(rt.alloc(), NumberFault::NotNumber, "not a number")?;
    is_told(rt.alloc(), NumberFault::Range, "out of range")?;
    let hex = format!(in rt.alloc(); "{NotHex}")?;
    holds(hex.as_str() == "not hexadecimal", "no hexadecimal text")
}

fn has_first_line(text: &[u8], first: &[u8], rest: &[u8]) -> Result<(), Fail>
    requires { 0 < length text.now }
{
    let (line, after) = first_line(text);
    holds(line == first, "the first line")?;
    holds(after == rest, "what follows it")
}

#[test]
fn a_text_has_a_first_line() -> Result<(), Fail> {
    has_first_line(b"one\ntwo\n", b"one", b"two\n")?;
    has_first_line(b"one", b"one", b"")?;
    has_first_line(b"\n\n", b"", b"\n")
}

fn has_first_field(stop: u8, text: &[u8], first: &[u8], rest: &[u8]) -> Result<(), Fail> {
    holds(
        first_field(stop, text) == Some((first, rest)),
        "the first field",
    )
}

#[test]
fn a_field_ends_at_the_next_stop() -> Result<(), Fail> {
    has_first_field(b' ', b"1  2", b"1", b" 2")?;
    has_first_field(b',', b",x", b"", b"x")?;
    holds(first_field(b',', b"1 2").is_none(), "no field")
}
