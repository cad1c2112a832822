use crate::texts;
use crate::topic::Topic;
use dc_files::beside_program;
use dc_media::{Sink, SinkFailed, write_whole};
use dc_run::{Outlet, Verdict};
use std::alloc::AllocError;
use std::rt::Files;

/// What the program was called by, of the two names that it goes by.
fn name_of(words: &[String]) -> &'static str {
    match words.first() {
        Some(word) if word.as_str().ends_with("discount") => "discount",
        _ => "dc",
    }
}

/// What is to be told of a topic: of the version also which commit the program was built from and what proved it, as the file beside
/// it says.
fn told_of<R: Files + AllocGlobal>(
    rt: &R,
    topic: Topic,
    name: &str,
) -> Result<Vec<u8>, AllocError> {
    let mut told = topic.text().replace(rt.alloc(), "@", name)?.into_bytes();
    if topic == Topic::Version {
        match beside_program(rt, ".built") {
            Some(origin) => told.extend_from_slice(origin.as_slice())?,
            None => told.extend_from_slice(texts::UNTOLD.as_bytes())?,
        }
    }
    Ok(told)
}

/// Tells of that topic; the first of the words is what the program was called by. Else the verdict is want of memory, or that the output
/// failed.
pub fn tell<R: Files + AllocGlobal, S: Sink>(
    rt: &R,
    words: &[String],
    topic: Topic,
    to: &mut S,
) -> Result<(), Verdict> {
    match told_of(rt, topic, name_of(words)) {
        Ok(told) => match write_whole(to, told.as_slice()) {
            Ok(()) => Ok(()),
            Err(SinkFailed) => Err(Verdict::SinkFault(Outlet::Out)),
        },
        Err(AllocError) => Err(Verdict::WantOfMemory),
    }
}
