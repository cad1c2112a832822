//! Three processes on disks through joint commits that are stopped at each call of a disk.

ghost use Rattle.std.specs.Prelude.{◌≡◌, ◌<◌, ◌^◌, Some, length, slice_get, true};

use crate::twophase::joint;
use dc_media::{DeviceFault, Tear};
use dc_memmedia::{ListedCall, MemDisks};
use dc_redo::Redo;
use dc_twophase::JointFault;
use std::alloc::Global;
use std::test::Fail;

/// The calls of its disk that a store makes before the joint commit: those of its making.
const BEFORE: u64 = 4;

/// The calls of preparing.
const PREPARING: u64 = 4;

/// The calls of deciding, which is the last that the first process calls its disk for.
const DECIDING: u64 = 4;

/// A joint commit and a recovery on disks where these calls are listed.
fn joint_on(
    alloc: Global,
    listed: Vec<ListedCall>,
    members: &[bool],
    number: u32,
) -> Result<Option<(Result<(), JointFault>, bool)>, Fail>
    requires members { length members.now ≡ 3 }
    requires first { slice_get members.now 0 ≡ Some true }
{
    let mut disks = MemDisks::new(alloc, listed)?;
    Ok(joint::<Redo<MemDisks>>(alloc, &mut disks, members, number))
}

/// The number that those that take part have after a stop of process p at one of its calls, from 1 on: the new one where the gate of the
/// decision may be open.
fn number_after(p: u32, call: u64, tear: Tear) -> u32 {
    if p == 0 && call > PREPARING + 2 && tear.keep > 0 {
        2
    } else {
        1
    }
}

/// One stop, at one call of one process, where the first one takes part.
fn stopped(alloc: Global, others: (bool, bool), p: u32, call: u64, tear: Tear) -> Result<(), Fail>
    requires { call < 2 ^ 32 }
{
    let listed = ListedCall {
        process: p,
        call: BEFORE + call,
        fault: DeviceFault::Stopped,
        tear,
    };
    let number = number_after(p, call, tear);
    let members = [true, others.0, others.1];
    match joint_on(alloc, vec![in alloc; listed]?, &members, number)? {
        Some((Err(JointFault::Stopped(at)), true)) if at == p => Ok(()),
        _ => Err(Fail::new(format_args!("process {p} at call {call}, {tear:?}"))),
    }
}

/// In each way.
fn stopped_each_way(alloc: Global, others: (bool, bool), p: u32, call: u64) -> Result<(), Fail>
    requires { call < 2 ^ 32 }
{
    for keep in [0, 1, 100, u32::MAX] {
        stopped(alloc, others, p, call, Tear { keep, fill: None })?;
    }
    let fill = Some(255);
    stopped(alloc, others, p, call, Tear { keep: 0, fill })
}

/// Each of so many calls of one process.
fn stopped_everywhere(alloc: Global, others: (bool, bool), p: u32, calls: u64) -> Result<(), Fail>
    requires { calls < 2 ^ 16 }
{
    for call in 1..=calls {
        stopped_each_way(alloc, others, p, call)?;
    }
    Ok(())
}

/// Whether the second and the third take part, by the bits of a number.
fn others_of(bits: u32) -> (bool, bool) {
    (bits & 1 != 0, bits & 2 != 0)
}

/// Each call of each process that takes part.
fn each_stopped(alloc: Global, others: (bool, bool)) -> Result<(), Fail> {
    stopped_everywhere(alloc, others, 0, PREPARING + DECIDING)?;
    if others.0 {
        stopped_everywhere(alloc, others, 1, PREPARING)?;
    }
    if others.1 {
        stopped_everywhere(alloc, others, 2, PREPARING)?;
    }
    Ok(())
}

/// A commit of these that no stop comes in.
fn unstopped(alloc: Global, others: (bool, bool)) -> Result<(), Fail> {
    let members = [true, others.0, others.1];
    match joint_on(alloc, Vec::new(alloc), &members, 2)? {
        Some((Ok(()), true)) => Ok(()),
        _ => Err(Fail::new("a joint commit")),
    }
}

#[test]
fn all_or_none_wherever_one_is_stopped(rt: HostRuntime) -> Result<(), Fail> {
    for bits in 0..4 {
        each_stopped(rt.alloc(), others_of(bits))?;
    }
    Ok(())
}

#[test]
fn all_where_none_is_stopped(rt: HostRuntime) -> Result<(), Fail> {
    for bits in 0..4 {
        unstopped(rt.alloc(), others_of(bits))?;
    }
    Ok(())
}
