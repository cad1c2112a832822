//! The program: runs a command over real files and streams, or tells of itself.
#![tactic(auto)]

mod telling;
mod texts;
mod topic;

use dc_files::{FileDisks, FileLibrary, LateFile, StreamSink};
use dc_memmedia::MemKeeps;
use dc_run::{Outcome, Verdict, conclude, dc, words_of};
use std::alloc::{AllocError, Global};
use std::io::Write;
use std::process::ExitCode;
use std::rt::Files;
use telling::tell;
use topic::topic_of;

/// Whether the command that the words begin with calls disks: one that runs guests.
fn calls_disks(words: &[String]) -> bool {
    match words {
        [_, command, ..] => {
            command.as_str() == "run"
                || command.as_str() == "journal"
                || command.as_str() == "resume"
        }
        _ => false,
    }
}

/// The call, by itself: what stands in one function with it is checked beside all its clauses.
fn call<R: Files + AllocGlobal + Clone + Drop, W: Write + Drop>(
    alloc: Global,
    words: &[String],
    library: &mut FileLibrary<R>,
    keeps: &mut MemKeeps,
    disks: &mut FileDisks<R>,
    out: &mut StreamSink<W>,
    report: &mut StreamSink<LateFile<R>>,
) -> Outcome {
    dc(alloc, words, library, keeps, disks, out, report)
}

/// Carries out the command of these words over stores in memory and disks in files, with the report in the file `dc.report`. The files of
/// the disks are looked for where the command may call them.
fn carry_out<R: Files + AllocGlobal + Clone + Drop, W: Write + Drop>(
    rt: &R,
    words: &[String],
    out: W,
) -> Result<Outcome, AllocError> {
    let mut library = FileLibrary::new(rt.clone()?);
    let mut out = StreamSink::new(out);
    let mut report = StreamSink::new(LateFile::new(rt.clone()?, "dc.report"));
    let mut keeps = MemKeeps::new(rt.alloc(), Vec::new(rt.alloc()))?;
    let mut disks = FileDisks::new(rt.clone()?)?;
    if calls_disks(words) {
        disks.open();
    }
    Ok(call(
        rt.alloc(),
        words,
        &mut library,
        &mut keeps,
        &mut disks,
        &mut out,
        &mut report,
    ))
}

/// Does what the words ask: carries out their command, or tells of the program. None where it was told, since nothing is to be said of
/// that.
fn answer<R: Files + AllocGlobal + Clone + Drop, W: Write + Drop>(
    rt: &R,
    words: &[String],
    out: W,
) -> Option<Outcome> {
    let verdict = match topic_of(words) {
        Some(topic) => tell(rt, words, topic, &mut StreamSink::new(out)).err()?,
        None => match carry_out(rt, words, out) {
            Ok(outcome) => return Some(outcome),
            Err(AllocError) => Verdict::WantOfMemory,
        },
    };
    Some(Outcome::idle(rt.alloc(), verdict))
}

/// Does what its arguments ask, says the outcome on standard error and ends with its status.
fn main(rt: HostRuntime) -> ExitCode {
    let mut words = Vec::new(rt.alloc());
    let outcome = match words_of(&rt) {
        Ok(read) => {
            words = read;
            answer(&rt, &words, rt.stdout())
        }
        Err(verdict) => Some(Outcome::idle(rt.alloc(), verdict)),
    };
    let Some(outcome) = outcome else {
        return ExitCode::SUCCESS;
    };
    let mut error = StreamSink::new(rt.stderr());
    ExitCode::from(conclude(rt.alloc(), &words, &outcome, &mut error))
}
