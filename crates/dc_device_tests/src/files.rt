//! Files and streams of the host as disks, as a library and as sinks.

use crate::calling::holds;
use dc_files::{FileDisks, FileLibrary, LateFile, StreamSink, beside_program};
use dc_media::{DeviceFault, Disks, Fetch, Library, MakeFault, write_whole};
use std::io::Write;
use std::test::Fail;
use std::{fs, io};

#[test]
fn finds_the_program_itself(rt: HostRuntime) -> Result<(), Fail> {
    let program = beside_program(&rt, "");
    holds(
        program.is_some_and(|bytes| bytes.starts_with(b"\x7fELF")),
        "the program",
    )?;
    holds(beside_program(&rt, ".none").is_none(), "no such file")
}

#[test]
fn a_late_file_is_made_at_its_first_byte(rt: HostRuntime) -> Result<(), Fail> {
    let path = "late_file_test";
    let mut late = LateFile::new(rt.clone()?, path);
    holds(late.write(b"")? == 0, "nothing")?;
    holds(fs::read(&rt, path).is_err(), "no file yet")?;
    holds(late.write(b"first ")? == 6, "its first bytes")?;
    holds(late.write(b"next")? == 4, "more bytes")?;
    let found = fs::read(&rt, path)?;
    fs::remove_file(&rt, path)?;
    holds(found.as_slice() == b"first next".as_slice(), "the file")
}

#[test]
fn a_library_tells_apart_what_is_missing_and_what_fails(rt: HostRuntime) -> Result<(), Fail> {
    let path = "file_library_test";
    fs::write(&rt, path, b"plan")?;
    let mut library = FileLibrary::new(rt.clone()?);
    let found = library.fetch(rt.alloc(), path);
    fs::remove_file(&rt, path)?;
    holds(found?.as_slice() == b"plan".as_slice(), "the file")?;
    let missing = library.fetch(rt.alloc(), path).err();
    holds(missing == Some(Fetch::Missing), "missing")?;
    let failed = library.fetch(rt.alloc(), ".").err();
    holds(failed == Some(Fetch::Failed), "failed")
}

/// Takes two bytes a call, and fails at its second call.
#[derive(Drop)]
struct Halting {
    taken: Vec<u8>,
    calls: u8,
}

impl Write for Halting {
    fn write(&mut self, buf: &[u8]) -> io::Result<usize> {
        self.calls = self.calls.saturating_add(1);
        if self.calls == 2 {
            return Err(io::ErrorKind::Other.into());
        }
        let part = buf.len().min(2);
        self.taken.extend_from_slice(&buf[..part])?;
        Ok(part)
    }

    fn flush(&mut self) -> io::Result<()> {
        Ok(())
    }
}

/// Writes two pieces, in the first of which the stream fails.
fn write_both(to: &mut Halting) -> Result<(), Fail> {
    let mut sink = StreamSink::new(to);
    holds(write_whole(&mut sink, b"first").is_err(), "fails")?;
    holds(write_whole(&mut sink, b"next").is_ok(), "goes on")
}

#[test]
fn a_stream_fails_in_mid_stream(rt: HostRuntime) -> Result<(), Fail> {
    let taken = Vec::new(rt.alloc());
    let mut stream = Halting { taken, calls: 0 };
    write_both(&mut stream)?;
    let taken = stream.taken.as_slice();
    holds(taken == b"finext".as_slice(), "what was taken")
}

/// Makes a disk of eight bytes where there was none, and writes three of them.
fn write_disk(rt: &HostRuntime) -> Result<(), Fail> {
    let mut disks = FileDisks::new(rt.clone()?)?;
    disks.open();
    holds(disks.size(31) == 0, "no file, no bytes")?;
    disks.sync(31)?;
    disks.format(rt.alloc(), 31, 8)?;
    disks.write(31, 2, b"abc")?;
    disks.sync(31)?;
    Ok(())
}

/// The bytes of that disk, as disks that are made anew read them.
fn read_disk(rt: &HostRuntime) -> Result<[u8; 8], Fail> {
    let mut disks = FileDisks::new(rt.clone()?)?;
    holds(disks.size(31) == 0, "not looked for yet")?;
    disks.open();
    if disks.size(31) != 8 {
        return Err(Fail::new("as many bytes as were made"));
    }
    let mut found = [1; 8];
    disks.read(31, 0, &mut found)?;
    Ok(found)
}

#[test]
fn disks_give_back_what_was_written(rt: HostRuntime) -> Result<(), Fail> {
    write_disk(&rt)?;
    let found = read_disk(&rt)?;
    fs::remove_file(&rt, "dc.disk.31")?;
    holds(found.as_slice() == b"\0\0abc\0\0\0".as_slice(), "the bytes")
}

/// What is there and is no file is broken.
#[test]
fn disks_fail_on_what_is_no_file(rt: HostRuntime) -> Result<(), Fail> {
    let mut disks = FileDisks::new(rt.clone()?)?;
    fs::create_dir(&rt, "dc.disk.30")?;
    disks.open();
    let synced = disks.sync(30).err();
    let made = disks.format(rt.alloc(), 30, 8).err();
    fs::remove_dir(&rt, "dc.disk.30")?;
    holds(disks.size(30) == 0, "no bytes")?;
    holds(synced == Some(DeviceFault::Failed), "its sync fails")?;
    holds(made == Some(MakeFault::Failed), "and its making")
}
