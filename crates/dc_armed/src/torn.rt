ghost use Rattle.std.specs.Prelude.{◌+◌, ◌<◌, ◌≤◌, length};
ghost use Rattle.dc_media.specs.Tears.{left, torn};
ghost use Rattle.dc_media.specs.Devices.{of_disks, of_words};
ghost use Rattle.dc_media.specs.Stores.{AreSameOrApart};
ghost use Rattle.dc_armed.specs.Torn.{IsOverwrite, IsTornCopy, IsTornStore, at_once, in_parts, kept_words, torn_calls};

use dc_media::{DeviceFault, Disks, Keeps, Tear};

/// How many bytes are touched at once.
const PART: usize = 64;

/// Writes bytes of a disk, with no call where there are none.
fn write_part<D: Disks>(disks: &mut D, p: u32, at: u64, front: &[u8]) -> Result<(), DeviceFault>
    requires { at + length front.now ≤ D.extent disks.old p }
    ensures { IsOverwrite (of_disks D.Disks) p (record { at = at; count = length front.now; make = (λ old. front.now); calls = at_once (length front.now) }) result disks.old disks.new }
{
    if front.is_empty() {
        return Ok(());
    }
    disks.write(p, at, front)
}

/// Reads bytes of a disk and writes them back, so that they are pending.
fn write_back<D: Disks>(disks: &mut D, p: u32, at: u64, bytes: &mut [u8]) -> Result<(), DeviceFault>
    requires { at + length bytes.old ≤ D.extent disks.old p }
    ensures { IsOverwrite (of_disks D.Disks) p (record { at = at; count = length bytes.old; make = (λ old. old); calls = at_once (length bytes.old) }) result disks.old disks.new }
{
    let read = disks.read(p, at, bytes);
    let written = write_part(disks, p, at, bytes);
    read.and(written)
}

/// Makes a few bytes of a disk pending, which stay or are filled.
fn leave_part<D: Disks>(
    disks: &mut D,
    p: u32,
    at: u64,
    count: usize,
    fill: Option<u8>,
) -> Result<(), DeviceFault>
    requires few { count ≤ PART }
    requires fits { at + count ≤ D.extent disks.old p }
    ensures { IsOverwrite (of_disks D.Disks) p (record { at = at; count = count; make = left fill; calls = at_once count }) result disks.old disks.new }
{
    match fill {
        Some(byte) => {
            let bytes = [byte; PART];
            write_part(disks, p, at, &bytes[..count])
        }
        None => {
            let mut bytes = [0; PART];
            write_back(disks, p, at, &mut bytes[..count])
        }
    }
}

/// Makes bytes of a disk pending, which stay or are filled.
fn leave<D: Disks>(
    disks: &mut D,
    p: u32,
    at: u64,
    count: usize,
    fill: Option<u8>,
) -> Result<(), DeviceFault>
    requires { at + count ≤ D.extent disks.old p }
    ensures { IsOverwrite (of_disks D.Disks) p (record { at = at; count = count; make = left fill; calls = in_parts count }) result disks.old disks.new }
{
    let mut answer = Ok(());
    let mut done = 0;
    while done < count {
        let part = (count - done).min(PART);
        answer = answer.and(leave_part(disks, p, at + done as u64, part, fill));
        done += part;
    }
    answer
}

/// Makes a torn store: the word stays where nothing is kept, and is set otherwise.
#[cold]
pub(crate) fn torn_store<K: Keeps>(
    keeps: &mut K,
    tear: Tear,
    p: u32,
    i: u32,
    w: u32,
) -> Result<(), DeviceFault>
    requires { i < K.extent keeps.old p }
    ensures { IsTornStore (of_words K.Keeps) p (record { tear = tear; index = i; word = w }) result keeps.old keeps.new }
{
    if tear.keep == 0 {
        return Ok(());
    }
    keeps.store(p, i, w)
}

/// Copies the first words of a line one by one, until one is refused.
fn copy_words<K: Keeps>(
    keeps: &mut K,
    p: u32,
    from: u32,
    to: u32,
    count: u32,
) -> Result<(), DeviceFault>
    requires few { count < 16 }
    requires source { from + 16 ≤ K.extent keeps.old p }
    requires index { to + 16 ≤ K.extent keeps.old p }
    requires apart { AreSameOrApart from to }
    ensures { IsTornCopy (of_words K.Keeps) p (record { from = from; to = to; count = count }) result keeps.old keeps.new }
{
    for k in 0..count {
        let word = keeps.load(p, from + k);
        let done = keeps.store(p, to + k, word);
        if done.is_err() {
            return done;
        }
    }
    Ok(())
}

/// Copies what a torn call keeps of a line: all of it by one call, or its first words one by one.
#[cold]
pub(crate) fn torn_copy<K: Keeps>(
    keeps: &mut K,
    tear: Tear,
    p: u32,
    from: u32,
    to: u32,
) -> Result<(), DeviceFault>
    requires source { from + 16 ≤ K.extent keeps.old p }
    requires index { to + 16 ≤ K.extent keeps.old p }
    requires apart { AreSameOrApart from to }
    ensures { IsTornCopy (of_words K.Keeps) p (record { from = from; to = to; count = kept_words tear }) result keeps.old keeps.new }
{
    if tear.keep >= 16 {
        return keeps.copy_line(p, from, to);
    }
    copy_words(keeps, p, from, to, tear.keep)
}

/// Makes a torn write: all its bytes are pending, of which the first are new, and the others stay or are filled.
///
/// It goes on to the end also where the disk refuses a part, and answers the first refusal.
#[cold]
pub(crate) fn torn_write<D: Disks>(
    disks: &mut D,
    tear: Tear,
    p: u32,
    at: u64,
    from: &[u8],
) -> Result<(), DeviceFault>
    requires { at + length from.now ≤ D.extent disks.old p }
    ensures { IsOverwrite (of_disks D.Disks) p (record { at = at; count = length from.now; make = (λ old. torn tear old from.now); calls = torn_calls tear (length from.now) }) result disks.old disks.new }
{
    let keep = from.len().min(tear.keep as usize);
    let front = write_part(disks, p, at, &from[..keep]);
    let rest = leave(disks, p, at + keep as u64, from.len() - keep, tear.fill);
    front.and(rest)
}
