//! Runs the examples in C by the call of the program, over files that lie where it runs, and compares the lines of each with those that
//! its guests are to show. Prints for each whether they are the same, and ends with status 1 where one is not.
#![tactic(auto)]

mod example;

use example::{EXAMPLES, Example};
use std::io;
use std::process::ExitCode;

/// What came of an example, in a word.
fn word(rt: &HostRuntime, example: &Example) -> &'static str {
    match example.shows_its_lines(rt) {
        Some(true) => "same",
        Some(false) => "differs",
        None => "not run",
    }
}

fn main(rt: HostRuntime) -> io::Result<ExitCode> {
    let mut status = ExitCode::SUCCESS;
    for example in &EXAMPLES {
        let word = word(&rt, example);
        if word != "same" {
            status = ExitCode::FAILURE;
        }
        println!(rt; "{}: {word}", example.folder)?;
    }
    Ok(status)
}
