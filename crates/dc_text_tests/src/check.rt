//! Findings. A row is `finding|found|wanted|acts|output`. In it `~` stands for a line feed, `^` for the acts that most rows of a table
//! begin with, and `@` for 512 zeros. An act is `turn:process`, behind them a letter and its number where the process was told
//! something.

ghost use Rattle.std.specs.Prelude.{◌≡◌, ◌<◌, ◌≤◌, All, IfOk, length};
ghost use Rattle.dc_elf.specs.Loaded.{CanStart};

use crate::holding::holds;
use dc_check::{
    Finding, check, passing_acts_are_a_drawn_run, passing_outputs_thin_to_the_run,
    records_have_their_numbers,
};
use dc_elf::Image;
use dc_links::Message;
use dc_model::{Act, Entry, Taken};
use dc_schedule::read;
use dc_words::bytes_of;
use std::alloc::{AllocError, Global};
use std::test::Fail;

/// Shows `hi`, which stands behind its code, and ends with code 0.
const SHOWER: [u32; 8] = [
    0x0020_0893,
    0x41c0_0513,
    0x0020_0593,
    0x0000_0073,
    0x0010_0893,
    0x0000_0513,
    0x0000_0073,
    0x0000_6968,
];

/// Asks for the clock, a random word and an input at 128, and ends with the last answer.
const ASKER: [u32; 10] = [
    0x0040_0893,
    0x0000_0073,
    0x0050_0893,
    0x0000_0073,
    0x0030_0893,
    0x0800_0513,
    0x0400_0593,
    0x0000_0073,
    0x0010_0893,
    0x0000_0073,
];

/// Sends the two bytes at 64 to guest 1 and ends with the answer.
const SENDER: [u32; 7] = [
    0x0060_0893,
    0x0010_0513,
    0x0400_0593,
    0x0020_0613,
    0x0000_0073,
    0x0010_0893,
    0x0000_0073,
];

/// Receives at 128, shows as many bytes from there as it is told, and ends with the answer.
const RECEIVER: [u32; 10] = [
    0x0070_0893,
    0x0800_0513,
    0x0400_0593,
    0x0000_0073,
    0x0005_0593,
    0x0800_0513,
    0x0020_0893,
    0x0000_0073,
    0x0010_0893,
    0x0000_0073,
];

/// Ten entries of one process, the eighth a stop and the ninth a failure of the power.
const TEN: &str = "0 0 0~0 0 0~0 0 0~0 0 0~0 0 0~0 0 0~0 0 0~stop 0~power~0 0 0~";

/// All but the last act of a guest that shows `hi` and ends.
const SHOWN: &str = "0:0 1:0 2:0 3:0 4:0 5:0";

/// Outputs of it.
const OUTPUTS: &str = "\
passes 2|||^ 6:0|out 0 0 6869~end 0 1 0~
passes 2|||^ 6:0|out 0 0 6869~end 0 1 0
differs 1||out 0 0 6869|^ 6:0|
differs 2||end 0 1 0|^ 6:0|out 0 0 6869~
differs 2||end 0 1 0|^ 6:0|out 0 0 6869
differs 1|out 0 0 6868|out 0 0 6869|^ 6:0|out 0 0 6868~end 0 1 0~
differs 2|end 0 1 1|end 0 1 0|^ 6:0|out 0 0 6869~end 0 1 1~
differs 2|end 0 1 1|end 0 1 0|^ 6:0|out 0 0 6869~end 0 1 1
differs 1|end 0 1 0|out 0 0 6869|^ 6:0|end 0 1 0~out 0 0 6869~
differs 1||out 0 0 6869|^ 6:0|~out 0 0 6869~end 0 1 0~
differs 3|out 0 2 6869||^ 6:0|out 0 0 6869~end 0 1 0~out 0 2 6869~
differs 3|x||^ 6:0|out 0 0 6869~end 0 1 0~x
differs 3|||^ 6:0|out 0 0 6869~end 0 1 0~~
passes 2|||^ 6:0|out 0 0 6869~out 0 0 6869~end 0 1 0~
passes 2|||^ 6:0|out 0 0 6869~end 0 1 0~out 0 0 6869~end 0 1 0~end 0 1 0~out 0 0 6869~
passes 2|||^ 6:0|out 0 0 6869~out 0 0 6869~out 0 0 6869~end 0 1 0
differs 2|out 0 0 6868|out 0 0 6869|^ 6:0|out 0 0 6869~out 0 0 6868~end 0 1 0~
differs 3|out 0 0 6868|out 0 0 6869|^ 6:0|out 0 0 6869~end 0 1 0~out 0 0 6868~
differs 3|out 0 0 6868|out 0 0 6869|^ 6:0|out 0 0 6869~out 0 0 6869~out 0 0 6868~end 0 1 0~
differs 2|end 0 0 0|out 0 0 6869|^ 6:0|out 0 0 6869~end 0 0 0~
differs 3|trap 0 1 2 00000400|end 0 1 0|^ 6:0|out 0 0 6869~end 0 1 0~trap 0 1 2 00000400~
differs 3|end 0 1 0||^ 6:0|out 0 0 6869~end 0 1 0~end 0 1 0
differs 2|out 0 0 6869|end 0 1 0|^ 6:0|out 0 0 6869~out 0 0 6869";

/// Lines behind the first: a record's is compared with the first line of its numbers, any other with the next record's.
const LINES: &str = "\
differs 2|out 0 0 -|out 0 0 6869|^ 6:0|out 0 0 6869~out 0 0 -~
differs 2|out 0 0 @|out 0 0 6869|^ 6:0|out 0 0 6869~out 0 0 @~
differs 2|out 0 0 @00|end 0 1 0|^ 6:0|out 0 0 6869~out 0 0 @00~
differs 2|out 0 0 686|end 0 1 0|^ 6:0|out 0 0 6869~out 0 0 686~
differs 2|out 0 0 zz|end 0 1 0|^ 6:0|out 0 0 6869~out 0 0 zz~
differs 2|out 0 0 6A|end 0 1 0|^ 6:0|out 0 0 6869~out 0 0 6A~
differs 2|out 0 0 |end 0 1 0|^ 6:0|out 0 0 6869~out 0 0 ~
differs 2|out 0 0|end 0 1 0|^ 6:0|out 0 0 6869~out 0 0~
differs 2| out 0 0 6869|end 0 1 0|^ 6:0|out 0 0 6869~ out 0 0 6869~
differs 2|out 0 0 6869 |end 0 1 0|^ 6:0|out 0 0 6869~out 0 0 6869 ~
differs 2|out 00 0 6869|end 0 1 0|^ 6:0|out 0 0 6869~out 00 0 6869~
differs 2|out 0 00 6869|end 0 1 0|^ 6:0|out 0 0 6869~out 0 00 6869~
differs 2|Out 0 0 6869|end 0 1 0|^ 6:0|out 0 0 6869~Out 0 0 6869~
differs 2|out 0 4294967296 6869|end 0 1 0|^ 6:0|out 0 0 6869~out 0 4294967296 6869~
differs 2|end 0 0 4294967295|out 0 0 6869|^ 6:0|out 0 0 6869~end 0 0 4294967295~
differs 2|end 0 0 4294967296|end 0 1 0|^ 6:0|out 0 0 6869~end 0 0 4294967296~
differs 2|end 0 0 0 00000400|end 0 1 0|^ 6:0|out 0 0 6869~end 0 0 0 00000400~
differs 2|trap 0 0 2 00000400|out 0 0 6869|^ 6:0|out 0 0 6869~trap 0 0 2 00000400~
differs 2|trap 0 0 2 400|end 0 1 0|^ 6:0|out 0 0 6869~trap 0 0 2 400~
differs 2|trap 0 0 x 00000400|end 0 1 0|^ 6:0|out 0 0 6869~trap 0 0 x 00000400~
differs 2|trap 0 0 2|end 0 1 0|^ 6:0|out 0 0 6869~trap 0 0 2~
differs 2|trap 0 0 2 00000400 0|end 0 1 0|^ 6:0|out 0 0 6869~trap 0 0 2 00000400 0~";

/// Acts at turns that are there or not; they decide before the lines.
const TURNS: &str = "\
passes 0||||
differs 1|out 0 0 6869|||out 0 0 6869~
differs 1||||~
passes 0|||0:0 1:0 2:0|
passes 1|||0:0 1:0 2:0 3:0|out 0 0 6869~
passes 1|||^|out 0 0 6869~
differs 2|end 0 1 0||^|out 0 0 6869~end 0 1 0~
passes 2|||^ 9:0|out 0 0 6869~end 0 1 0~
not a run 6|||^ 7:0|out 0 0 6869~end 0 1 0~
not a run 6|||^ 8:0|out 0 0 6869~end 0 1 0~
not a run 6|||^ 10:0|out 0 0 6869~end 0 1 0~
not a run 6|||^ 4294967295:0|out 0 0 6869~end 0 1 0~
not a run 6|||^ 5:0|out 0 0 6869~end 0 1 0~
not a run 6|||^ 0:0|out 0 0 6869~end 0 1 0~
not a run 1|||1:0 0:0|
not a run 6|||^ 6:0:c:0|out 0 0 6869~end 0 1 0~
not a run 6|||^ 6:0:m|out 0 0 6869~end 0 1 0~
not a run 7|||^ 6:0 9:0|out 0 0 6869~end 0 1 0~
not a run 0|||0:0:r:0|x
not a run 0|||7:0|x~";

/// A word that codes nothing.
const TRAPS: &str = "\
passes 1|||0:0|trap 0 0 2 00000400~
passes 1|||0:0|trap 0 0 2 00000400~trap 0 0 2 00000400~
differs 1|trap 0 0 2 00000404|trap 0 0 2 00000400|0:0|trap 0 0 2 00000404~
differs 2|end 0 0 2|trap 0 0 2 00000400|0:0|trap 0 0 2 00000400~end 0 0 2~
not a run 1|||0:0 1:0|trap 0 0 2 00000400~";

/// Turns of one process whose words and clocks differ; the words of the eighth and the last are odd.
const ANSWERING: &str = "0 0 0~0 6 5~0 0 5~0 7 9~0 0 9~0 0 9~0 0 9~0 3 9~0 2 9~0 0 9~0 0 9~0 1 9~";

/// The acts of a guest that asks, up to its request for an input.
const ASKED: &str = "0:0 1:0:c:5 2:0 3:0:r:7 4:0 5:0 6:0";

/// What it was told, where it has the one input `abc`.
const ANSWERS: &str = "\
passes 1|||^ 7:0:n 8:0 9:0|end 0 0 3~
passes 1|||^ 8:0:i 9:0 10:0|end 0 0 4294967295~
passes 0|||^ 11:0:n|
differs 1|end 0 0 3||^ 7:0:n 8:0|end 0 0 3~
not a run 1|||0:0 1:0|
not a run 1|||0:0 1:0:c:6|
not a run 1|||0:0 1:0:c:0|
not a run 1|||0:0 1:0:r:6|
not a run 3|||0:0 1:0:c:5 2:0 3:0:r:9|
not a run 3|||0:0 1:0:c:5 2:0 3:0:r:0|
not a run 7|||^ 8:0:n 9:0 10:0|end 0 0 3~
not a run 7|||^ 8:0:e|
not a run 7|||^ 7:0:i|
not a run 7|||^ 7:0:e|
not a run 7|||^ 7:0|";

/// The same where it has no input.
const ANSWERS_WITHOUT_INPUT: &str = "\
passes 1|||^ 7:0:e 8:0 9:0|end 0 0 4294967294~
passes 1|||^ 8:0:i 9:0 10:0|end 0 0 4294967295~
not a run 7|||^ 7:0:n 8:0 9:0|end 0 0 3~";

/// Seven turns of process 0, then ten of process 1. Words of the twelfth, the thirteenth and others draw messages of process 0, itself
/// and none.
const TWO: &str =
    "0 0 0~0 0 0~0 0 0~0 0 0~0 0 0~0 0 0~0 0 0~1 0 0~1 0 0~1 0 0~1 3 0~1 1 0~1 2 0~1 0 0~1 0 0~1 0 0~1 0 0~1 0 0~1 0 0~";

/// All acts of a guest that sends, and those of another that receives, up to its request for a message.
const SENT: &str = "0:0 1:0 2:0 3:0 4:0 5:0 6:0 7:1 8:1 9:1";

/// What the other was told.
const MESSAGES: &str = "\
passes 3|||^ 10:1:f:0 13:1 14:1 15:1 16:1 17:1 18:1|end 0 0 2~out 1 0 6869~end 1 1 2~
passes 3|||^ 10:1:f:0 13:1 14:1 15:1 16:1 17:1 18:1|end 0 0 2~out 1 0 6869~end 0 0 2~end 1 1 2~out 1 0 6869~
differs 3|out 1 0 68|out 1 0 6869|^ 10:1:f:0 13:1 14:1 15:1 16:1 17:1 18:1|end 0 0 2~out 1 0 6869~out 1 0 68~end 1 1 2~
differs 1|out 1 0 6869|end 0 0 2|^ 10:1:f:0 13:1 14:1 15:1 16:1 17:1 18:1|out 1 0 6869~end 0 0 2~end 1 1 2~
differs 3||end 1 1 2|^ 10:1:f:0 13:1 14:1 15:1 16:1 17:1 18:1|end 0 0 2~out 1 0 6869~
passes 2|||^ 10:1:m 13:1 14:1 15:1 16:1 17:1 18:1|end 0 0 2~end 1 0 4294967293~
not a run 10|||^ 10:1:f:1|end 0 0 2~
not a run 10|||^ 11:1:f:0|end 0 0 2~
not a run 10|||^ 11:1:f:1|end 0 0 2~
not a run 10|||^ 12:1:f:2|end 0 0 2~
not a run 10|||^ 13:1:f:3|end 0 0 2~
not a run 3|||7:1 8:1 9:1 10:1:f:0|
not a run 10|||^ 10:0:f:0|end 0 0 2~
not a run 0|||0:1|
not a run 1|||0:0 1:1|
not a run 7|||0:0 1:0 2:0 3:0 4:0 5:0 6:0 7:0|end 0 0 2~";

/// Sends `hi`, which stands behind its code, to guest 1 and ends with code 0.
const SENDS_ONCE: [u32; 9] = [
    0x0060_0893,
    0x0010_0513,
    0x4200_0593,
    0x0020_0613,
    0x0000_0073,
    0x0010_0893,
    0x0000_0513,
    0x0000_0073,
    0x0000_6968,
];

/// Receives at 512 and shows what it received, again and again.
const SHOWS_MESSAGES: [u32; 10] = [
    0x0070_0893,
    0x2000_0513,
    0x0400_0593,
    0x0000_0073,
    0xfe05_48e3,
    0x0005_0593,
    0x2000_0513,
    0x0020_0893,
    0x0000_0073,
    0xfddf_f06f,
];

/// A run in which process 0 stopped after its message was sent and taken: it recovered and sent the message once more, without an act.
const STOPPED: &str =
    "0 0 0~0 0 0~0 0 0~0 0 0~0 0 0~1 0 0~1 0 0~1 0 0~1 0 0~stop 0~0 0 0~0 0 0~1 0 0~1 0 0~1 0 0~1 0 0~1 0 0~1 0 0~1 0 0~1 0 0~1 0 0~1 0 0~0 0 0~0 0 0~0 0 0~";

/// Its acts up to a second request for a message.
const TAKEN_ONCE: &str =
    "0:0 1:0 2:0 3:0 4:0 5:1 6:1 7:1 8:1:f:0 12:1 13:1 14:1 15:1 16:1 17:1 18:1 19:1 20:1";

/// A message that is sent again is taken once.
const TAKEN: &str = "\
passes 2|||^ 21:1:m 22:0 23:0 24:0|out 1 0 6869~end 0 0 0~
not a run 18|||^ 21:1:f:0 22:0 23:0 24:0|out 1 0 6869~end 0 0 0~";

/// A guest of these words from address 1024, with `hi` at 64.
fn image(alloc: Global, words: &[u32]) -> Result<Image, AllocError>
    requires { length words.now ≤ 16 }
    ensures { IfOk result CanStart }
{
    let mut memory = vec![in alloc; 0; 2048]?;
    bytes_of(words, &mut memory[1024..1024 + 4 * words.len()]);
    memory[64..66].copy_from_slice(b"hi");
    Ok(Image {
        memory,
        entry: 1024,
    })
}

/// What a letter says that a process was told: `.` nothing, `c` that clock, `r` that random word, `i` no input yet, `n` its next
/// input, `e` the end of its inputs, `m` no message yet, and `f` the next message of that process.
fn act_of(letter: u8, number: u64) -> Option<Act> {
    let word = (number % 4_294_967_296) as u32;
    match letter {
        b'.' => Some(Act::Plain),
        b'c' => Some(Act::Clock(number)),
        b'r' => Some(Act::Random(word)),
        b'i' => Some(Act::InputNone),
        b'n' => Some(Act::InputNext),
        b'e' => Some(Act::InputEnd),
        b'm' => Some(Act::ReceiveNone),
        b'f' => Some(Act::ReceiveFrom(word)),
        _ => None,
    }
}

/// A part of an act, or another text where it has none.
fn part<'a>(parts: &[&'a str], at: usize, other: &'a str) -> &'a str {
    match parts.get(at) {
        Some(part) => part,
        None => other,
    }
}

/// The act of a word.
fn taken(alloc: Global, word: &str) -> Result<Taken, Fail> {
    let parts = word.split(':').collect::<Vec<&str>>(alloc)?;
    let number = part(&parts, 3, "0").parse::<u64>()?;
    let [letter] = part(&parts, 2, ".").as_bytes() else {
        return Err(Fail::new(word));
    };
    let Some(act) = act_of(*letter, number) else {
        return Err(Fail::new(word));
    };
    Ok(Taken {
        t: part(&parts, 0, "").parse::<u32>()?,
        p: part(&parts, 1, "").parse::<u32>()?,
        act,
    })
}

/// The acts of words.
fn acts_of(alloc: Global, words: &str) -> Result<Vec<Taken>, Fail> {
    let mut acts = Vec::new(alloc);
    for word in words.split_whitespace() {
        acts.push(taken(alloc, word)?)?;
    }
    Ok(acts)
}

/// Checks an output.
fn found(
    alloc: Global,
    images: &[Image],
    inputs: &[Vec<Message>],
    schedule: &[Entry],
    acts: &str,
    out: &str,
) -> Result<Finding, Fail>
    requires few { length images.now ≤ 8 }
    requires good { All CanStart images.now }
{
    let acts = acts_of(alloc, acts)?;
    let count = images.len();
    if acts.len() > 1000 || !acts.iter().all(|taken| (taken.p as usize) < count) {
        return Err(Fail::new("acts"));
    }
    Ok(check(alloc, images, inputs, schedule, &acts, out.as_bytes())?)
}

/// A finding by its name and number.
fn named(alloc: Global, finding: &Finding) -> Result<String, Fail> {
    match finding {
        Finding::Passes(visibles) => Ok(format!(in alloc; "passes {visibles}")?),
        Finding::NotARun(act) => Ok(format!(in alloc; "not a run {act}")?),
        Finding::Differs(difference) => Ok(format!(in alloc; "differs {}", difference.line)?),
    }
}

/// Whether a finding tells of these texts, which are empty where no line differs.
fn tells(finding: &Finding, found: &str, wanted: &str) -> bool {
    match finding {
        Finding::Differs(difference) => {
            difference.found.as_slice() == found.as_bytes()
                && difference.wanted.as_slice() == wanted.as_bytes()
        }
        _ => found.is_empty() && wanted.is_empty(),
    }
}

/// A row written out.
fn expanded(alloc: Global, front: &str, row: &str) -> Result<String, AllocError> {
    let zeros = "0".repeat(alloc, 512)?;
    let row = row.replace(alloc, "^", front)?;
    let row = row.replace(alloc, "@", &zeros)?;
    row.replace(alloc, "~", "\n")
}

/// A row comes to its finding.
fn is_found(
    alloc: Global,
    images: &[Image],
    inputs: &[Vec<Message>],
    schedule: &[Entry],
    row: &str,
) -> Result<(), Fail>
    requires few { length images.now ≤ 8 }
    requires good { All CanStart images.now }
{
    let parts = row.split('|').collect::<Vec<&str>>(alloc)?;
    holds(parts.len() == 5, row)?;
    let finding = found(
        alloc,
        images,
        inputs,
        schedule,
        part(&parts, 3, ""),
        part(&parts, 4, ""),
    )?;
    let name = named(alloc, &finding)?;
    holds(name.as_str() == part(&parts, 0, ""), row)?;
    holds(
        tells(&finding, part(&parts, 1, ""), part(&parts, 2, "")),
        row,
    )
}

/// The entries of a schedule.
fn entries_of(alloc: Global, schedule: &str, n: usize) -> Result<Vec<Entry>, Fail>
    requires some { 0 < n }
    requires few { n ≤ 8 }
{
    let text = schedule.replace(alloc, "~", "\n")?;
    match read(alloc, text.as_bytes(), n as u32) {
        Ok(entries) => Ok(entries),
        Err(_) => Err(Fail::new(schedule)),
    }
}

/// Each row comes to its finding.
fn are_found(
    alloc: Global,
    images: &[Image],
    inputs: &[Vec<Message>],
    schedule: &str,
    front: &str,
    rows: &str,
) -> Result<(), Fail>
    requires some { 0 < length images.now }
    requires few { length images.now ≤ 8 }
    requires good { All CanStart images.now }
{
    let entries = entries_of(alloc, schedule, images.len())?;
    for row in rows.lines() {
        is_found(
            alloc,
            images,
            inputs,
            &entries,
            &expanded(alloc, front, row)?,
        )?;
    }
    Ok(())
}

#[test]
fn an_output_passes_or_differs_at_its_first_line(rt: HostRuntime) -> Result<(), Fail> {
    let images = [image(rt.alloc(), &SHOWER)?];
    are_found(rt.alloc(), &images, &[], TEN, SHOWN, OUTPUTS)?;
    are_found(rt.alloc(), &images, &[], TEN, SHOWN, LINES)?;
    are_found(rt.alloc(), &images, &[], TEN, SHOWN, TURNS)
}

#[test]
fn a_trap_is_a_record(rt: HostRuntime) -> Result<(), Fail> {
    let images = [image(rt.alloc(), &[0])?];
    are_found(rt.alloc(), &images, &[], TEN, SHOWN, TRAPS)
}

#[test]
fn a_turn_answers_what_is_asked(rt: HostRuntime) -> Result<(), Fail> {
    let images = [image(rt.alloc(), &ASKER)?];
    let mut some = Vec::new(rt.alloc());
    some.push(Message::new(b"abc"))?;
    are_found(rt.alloc(), &images, &[some], ANSWERING, ASKED, ANSWERS)?;
    are_found(
        rt.alloc(),
        &images,
        &[],
        ANSWERING,
        ASKED,
        ANSWERS_WITHOUT_INPUT,
    )
}

#[test]
fn a_turn_draws_who_is_heard(rt: HostRuntime) -> Result<(), Fail> {
    let images = [image(rt.alloc(), &SENDER)?, image(rt.alloc(), &RECEIVER)?];
    are_found(rt.alloc(), &images, &[], TWO, SENT, MESSAGES)
}

#[test]
fn laws_are_there() {
    passing_acts_are_a_drawn_run::<u32>();
    passing_outputs_thin_to_the_run();
    records_have_their_numbers();
}

#[test]
fn a_message_that_is_sent_again_is_taken_once(rt: HostRuntime) -> Result<(), Fail> {
    let images = [
        image(rt.alloc(), &SENDS_ONCE)?,
        image(rt.alloc(), &SHOWS_MESSAGES)?,
    ];
    are_found(rt.alloc(), &images, &[], STOPPED, TAKEN_ONCE, TAKEN)
}
