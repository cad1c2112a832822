//! Whether an armed device that is lent tells what became of it.
ghost use Rattle.std.specs.Prelude.{◌≤◌, ◌<◌, ◌+◌, length};
ghost use Rattle.dc_media.specs.Disk.{Writes};
ghost use Rattle.dc_media.specs.Stores.{SetsWord};

use super::fakes::{FakeDisk, FakeWords};
use dc_armed::Armed;
use dc_media::{DeviceFault, Disks, Keeps, PlannedStop};
use std::test::Fail;

/// A layer above, over any stores.
fn store_through<K: Keeps>(keeps: &mut K, p: u32, i: u32, w: u32) -> Result<(), DeviceFault>
    requires { i < K.extent keeps.old p }
    ensures word { SetsWord i w result (K.told keeps.old p) (K.told keeps.new p) }
    ensures continues { K.continues keeps.old keeps.new }
{
    keeps.store(p, i, w)
}

/// One store of it over armed stores that are lent: what was lent is told of.
fn stores_lent<K: Keeps>(
    keeps: &mut K,
    stops: Vec<PlannedStop>,
    p: u32,
    i: u32,
    w: u32,
) -> Result<(), DeviceFault>
    requires { i < K.extent keeps.old p }
    ensures { SetsWord i w result (K.told keeps.old p) (K.told keeps.new p) }
{
    let mut armed = Armed::new(keeps, stops);
    armed.at_turn(0);
    let result = store_through(&mut armed, p, i, w);
    let _back = armed.into_device();
    result
}

/// A layer above, over any disks.
fn write_through<D: Disks>(disks: &mut D, p: u32, at: u64, from: &[u8]) -> Result<(), DeviceFault>
    requires { at + length from.now ≤ D.extent disks.old p }
    ensures bytes { Writes at from.now result (D.told disks.old p) (D.told disks.new p) }
    ensures continues { D.continues disks.old disks.new }
{
    disks.write(p, at, from)
}

/// One write of it over armed disks that are lent.
fn writes_lent<D: Disks>(
    disks: &mut D,
    stops: Vec<PlannedStop>,
    p: u32,
    at: u64,
    from: &[u8],
) -> Result<(), DeviceFault>
    requires { at + length from.now ≤ D.extent disks.old p }
    ensures { Writes at from.now result (D.told disks.old p) (D.told disks.new p) }
{
    let mut armed = Armed::new(disks, stops);
    armed.at_turn(0);
    let result = write_through(&mut armed, p, at, from);
    let _back = armed.into_device();
    result
}

#[test]
fn a_lent_device_is_called(rt: HostRuntime) -> Result<(), Fail> {
    let mut words = FakeWords::new();
    stores_lent(&mut words, Vec::new(rt.alloc()), 0, 3, 8)?;
    let mut disk = FakeDisk::new(None);
    writes_lent(&mut disk, Vec::new(rt.alloc()), 0, 3, &[7])?;
    if words.words[3] == 8 && disk.bytes[3] == 7 {
        return Ok(());
    }
    Err(Fail::new("lent"))
}
