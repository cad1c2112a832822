//! The sink and the library in memory.

use crate::calling::holds;
use dc_media::{Fetch, Library, Sink, write_whole};
use dc_memmedia::{MemLibrary, MemSink};
use std::alloc::{AllocError, Global};
use std::test::Fail;

fn sink(alloc: Global, room: usize, failing: &[u64]) -> Result<MemSink, AllocError> {
    MemSink::new(alloc, room, failing.to_vec(alloc)?)
}

/// What a sink says to a piece, and what it then has.
fn takes(sink: &mut MemSink, piece: &str, count: Option<usize>, all: &str) -> Result<(), Fail> {
    holds(sink.write_some(piece.as_bytes()).ok() == count, piece)?;
    holds(sink.bytes() == all.as_bytes(), all)
}

#[test]
fn a_sink_takes_a_piece(rt: HostRuntime) -> Result<(), Fail> {
    let mut sink = sink(rt.alloc(), 100, &[])?;
    takes(&mut sink, "plan", Some(4), "plan")?;
    holds(write_whole(&mut sink, b" one").is_ok(), "whole")?;
    takes(&mut sink, "", Some(0), "plan one")
}

#[test]
fn a_sink_fails_at_a_listed_call(rt: HostRuntime) -> Result<(), Fail> {
    let mut sink = sink(rt.alloc(), 100, &[2])?;
    takes(&mut sink, "a", Some(1), "a")?;
    takes(&mut sink, "b", None, "a")?;
    takes(&mut sink, "c", Some(1), "ac")
}

#[test]
fn a_sink_fails_without_room(rt: HostRuntime) -> Result<(), Fail> {
    let mut sink = sink(rt.alloc(), 3, &[])?;
    takes(&mut sink, "plan", Some(3), "pla")?;
    takes(&mut sink, "n", None, "pla")?;
    takes(&mut sink, "", Some(0), "pla")
}

fn add(library: &mut MemLibrary, alloc: Global, name: &str, bytes: &str) -> Result<(), Fail> {
    let name = String::from_str(alloc, name)?;
    let bytes = bytes.as_bytes().to_vec(alloc)?;
    library.add(name, bytes)?;
    Ok(())
}

fn library(alloc: Global, failing: &[u64]) -> Result<MemLibrary, Fail> {
    let mut library = MemLibrary::new(alloc, failing.to_vec(alloc)?);
    add(&mut library, alloc, "plan", "one")?;
    add(&mut library, alloc, "image", "two")?;
    add(&mut library, alloc, "plan", "six")?;
    Ok(library)
}

fn gives(library: &mut MemLibrary, alloc: Global, name: &str, want: &str) -> Result<(), Fail> {
    let bytes = library.fetch(alloc, name)?;
    holds(bytes.as_slice() == want.as_bytes(), name)
}

fn refuses(library: &mut MemLibrary, alloc: Global, name: &str, fault: Fetch) -> Result<(), Fail> {
    holds(library.fetch(alloc, name).err() == Some(fault), name)
}

#[test]
fn a_library_gives_the_first_file_of_a_name(rt: HostRuntime) -> Result<(), Fail> {
    let mut library = library(rt.alloc(), &[])?;
    gives(&mut library, rt.alloc(), "plan", "one")?;
    gives(&mut library, rt.alloc(), "image", "two")
}

#[test]
fn a_library_fails_at_a_listed_call(rt: HostRuntime) -> Result<(), Fail> {
    let mut library = library(rt.alloc(), &[1, 2])?;
    refuses(&mut library, rt.alloc(), "none", Fetch::Missing)?;
    refuses(&mut library, rt.alloc(), "plan", Fetch::Failed)?;
    gives(&mut library, rt.alloc(), "plan", "one")
}
