//! What registers ask for. A row is `number x10 x11 x12 size p n|call`: of guest p of n, in a memory of that size.

use crate::holding::holds;
use dc_calls::{BAD_ARGUMENT, END_OF_INPUT, NOTHING_YET, Reply, UNKNOWN, answer, read_call};
use dc_isa::Regs;
use std::alloc::Global;
use std::test::Fail;

/// A guest ends with any code.
const ENDS: &str = "\
1 0 7 12 4096 0 1|Exit(0)
1 0 4294967295 12 0 7 8|Exit(0)
1 1 7 12 4096 0 1|Exit(1)
1 1 4294967295 12 0 7 8|Exit(1)
1 255 7 12 4096 0 1|Exit(255)
1 255 4294967295 12 0 7 8|Exit(255)
1 256 7 12 4096 0 1|Exit(256)
1 256 4294967295 12 0 7 8|Exit(256)
1 4294967295 7 12 4096 0 1|Exit(4294967295)
1 4294967295 4294967295 12 0 7 8|Exit(4294967295)
";

/// An output lies in memory and has at most 256 bytes.
const OUTPUTS: &str = "\
2 0 0 12 4096 0 1|Output(0, 0)
2 0 256 12 4096 0 1|Output(0, 256)
2 3840 256 12 4096 0 1|Output(3840, 256)
2 4095 1 12 4096 0 1|Output(4095, 1)
2 4096 0 12 4096 0 1|Output(4096, 0)
2 1023 3 12 4096 0 1|Output(1023, 3)
2 0 257 12 4096 0 1|BadArgument
2 3841 256 12 4096 0 1|BadArgument
2 4096 1 12 4096 0 1|BadArgument
2 4097 0 12 4096 0 1|BadArgument
2 4294967295 1 12 4096 0 1|BadArgument
2 1 4294967295 12 4096 0 1|BadArgument
";

/// Records and messages want room for 64 bytes.
const RECORDS: &str = "\
3 0 64 12 4096 0 1|Input(0, 64)
7 0 64 12 4096 0 1|Receive(0, 64)
3 4032 64 12 4096 0 1|Input(4032, 64)
7 4032 64 12 4096 0 1|Receive(4032, 64)
3 0 4096 12 4096 0 1|Input(0, 4096)
7 0 4096 12 4096 0 1|Receive(0, 4096)
3 1 4095 12 4096 0 1|Input(1, 4095)
7 1 4095 12 4096 0 1|Receive(1, 4095)
3 0 63 12 4096 0 1|BadArgument
7 0 63 12 4096 0 1|BadArgument
3 0 0 12 4096 0 1|BadArgument
7 0 0 12 4096 0 1|BadArgument
3 4033 64 12 4096 0 1|BadArgument
7 4033 64 12 4096 0 1|BadArgument
3 1 4096 12 4096 0 1|BadArgument
7 1 4096 12 4096 0 1|BadArgument
3 4294967295 64 12 4096 0 1|BadArgument
7 4294967295 64 12 4096 0 1|BadArgument
3 64 4294967295 12 4096 0 1|BadArgument
7 64 4294967295 12 4096 0 1|BadArgument
";

/// The clock, a random word and the number have no arguments.
const BARE: &str = "\
4 0 0 12 0 2 3|Clock
4 1 1 12 0 2 3|Clock
4 4294967295 4294967295 12 0 2 3|Clock
5 0 0 12 0 2 3|Random
5 1 1 12 0 2 3|Random
5 4294967295 4294967295 12 0 2 3|Random
8 0 0 12 0 2 3|Number
8 1 1 12 0 2 3|Number
8 4294967295 4294967295 12 0 2 3|Number
";

/// A message goes to another guest and has at most 64 bytes.
const SENDS: &str = "\
6 0 0 0 4096 2 3|Send(0, 0, 0)
6 1 4032 64 4096 2 3|Send(1, 4032, 64)
6 0 4096 0 4096 2 3|Send(0, 4096, 0)
6 1 4095 1 4096 2 3|Send(1, 4095, 1)
6 2 0 1 4096 2 3|BadArgument
6 3 0 1 4096 2 3|BadArgument
6 4294967295 0 1 4096 2 3|BadArgument
6 0 0 65 4096 2 3|BadArgument
6 0 4033 64 4096 2 3|BadArgument
6 1 4097 0 4096 2 3|BadArgument
6 1 4294967295 1 4096 2 3|BadArgument
6 1 1 4294967295 4096 2 3|BadArgument
";

/// Other numbers are unknown.
const UNKNOWNS: &str = "\
0 0 0 12 4096 0 1|Unknown
9 0 0 12 4096 0 1|Unknown
258 0 0 12 4096 0 1|Unknown
2147483649 0 0 12 4096 0 1|Unknown
4294967295 0 0 12 4096 0 1|Unknown
";

/// Registers whose x17, x10, x11 and x12 are these; each other one is its own number.
fn asking(number: u32, first: u32, second: u32, third: u32) -> Regs {
    Regs {
        x: [
            0, 1, 2, 3, 4, 5, 6, 7, 8, 9, first, second, third, 13, 14, 15, 16, number, 18, 19, 20,
            21, 22, 23, 24, 25, 26, 27, 28, 29, 30, 31,
        ],
        pc: 0xffff_fff8,
    }
}

/// The numbers of a row, with zeros where there are fewer.
fn numbers_of(text: &str) -> Result<[u32; 7], Fail> {
    let mut numbers = [0; 7];
    for (slot, digits) in numbers.iter_mut().zip(text.split_whitespace()) {
        *slot = digits.parse::<u32>()?;
    }
    Ok(numbers)
}

fn is_asked(alloc: Global, numbers: &[u32; 7], call: &str) -> Result<(), Fail> {
    let [number, first, second, third, size, p, n] = *numbers;
    let asked = read_call(&asking(number, first, second, third), size, p, n);
    let text = format!(in alloc; "{asked:?}")?;
    holds(text.as_str() == call, call)
}

fn row_holds(alloc: Global, row: &str) -> Result<(), Fail> {
    let Some((numbers, call)) = row.split_once('|') else {
        return Err(Fail::new(row));
    };
    is_asked(alloc, &numbers_of(numbers)?, call)
}

fn each_row(alloc: Global, rows: &str) -> Result<(), Fail> {
    for row in rows.lines() {
        row_holds(alloc, row)?;
    }
    Ok(())
}

#[test]
fn a_guest_ends_with_any_code(rt: HostRuntime) -> Result<(), Fail> {
    each_row(rt.alloc(), ENDS)
}

#[test]
fn an_output_lies_in_memory_and_has_at_most_256_bytes(rt: HostRuntime) -> Result<(), Fail> {
    each_row(rt.alloc(), OUTPUTS)
}

#[test]
fn records_and_messages_want_room_for_64_bytes(rt: HostRuntime) -> Result<(), Fail> {
    each_row(rt.alloc(), RECORDS)
}

#[test]
fn clock_random_word_and_number_have_no_arguments(rt: HostRuntime) -> Result<(), Fail> {
    each_row(rt.alloc(), BARE)
}

#[test]
fn a_message_goes_to_another_guest_and_has_at_most_64_bytes(rt: HostRuntime) -> Result<(), Fail> {
    each_row(rt.alloc(), SENDS)
}

#[test]
fn other_numbers_are_unknown(rt: HostRuntime) -> Result<(), Fail> {
    each_row(rt.alloc(), UNKNOWNS)
}

fn are(regs: &Regs, first: u32, second: u32, pc: u32) -> Result<(), Fail> {
    let want = asking(2, first, second, 12);
    holds(regs.x == want.x, "the registers")?;
    holds(regs.pc == pc, "the next instruction")
}

#[test]
fn an_answer_moves_on() -> Result<(), Fail> {
    let mut regs = asking(2, 100, 200, 12);
    answer(&mut regs, &Reply { x10: 5, x11: None });
    are(&regs, 5, 200, 0xffff_fffc)?;
    answer(
        &mut regs,
        &Reply {
            x10: 6,
            x11: Some(0),
        },
    );
    are(&regs, 6, 0, 0)
}

#[test]
fn results_are_negative_numbers() -> Result<(), Fail> {
    // -1, -2, -3 and -9 in 32 bits.
    holds(NOTHING_YET == 4294967295, "nothing yet")?;
    holds(END_OF_INPUT == 4294967294, "the end of the input")?;
    holds(BAD_ARGUMENT == 4294967293, "a bad argument")?;
    holds(UNKNOWN == 4294967287, "an unknown call")
}
