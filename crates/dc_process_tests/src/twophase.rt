//! Three processes through joint commits that are stopped at each call of a device.

ghost use Rattle.std.specs.Prelude.{◌≡◌, ◌≢◌, ◌∷◌, [], ◌++◌, ◌<◌, ◌≤◌, ◌*◌, ◌^◌, ℕ, None, IfOk, IfSome, length, slice_index, vec_capacity};
ghost use Rattle.dc_checkpoint.specs.States.{IsFit};
ghost use Rattle.dc_kernel.specs.Faults.{kernel_fault};
ghost use Rattle.dc_kernel.specs.Layout.{commit_at, kernel_words, n_at, p_at};
ghost use Rattle.dc_checkpoint.specs.Handles.{IsSame};
ghost use Rattle.dc_twophase.specs.Commits.{IsOther};
ghost use Rattle.dc_twophase.specs.Stores.{AreApart, AreOf, Each, EachPair};
ghost use Rattle.dc_process_tests.specs.Three.{AreFitThree, AreTexts};

use dc_checkpoint::{Checkpoint, Saved};
use dc_kernel::{Kernel, kernel_words};
use dc_media::{DeviceFault, Tear};
use dc_memmedia::{ListedCall, MemKeeps};
use dc_twophase::{JointFault, commit_all, commit_some, recover_all};
use dc_vista::Segment;
use std::alloc::{AllocError, Global};
use std::test::Fail;

/// The calls of its device that a store makes before the joint commit: its 4493 words, and a first store to a line.
const BEFORE: u64 = 4497;

/// The calls of preparing: 458 words of kernel, its 29 lines kept by three calls each, and the number.
const PREPARING: u64 = 546;

/// The calls of finishing.
const FINISHING: u64 = 2;

/// The text of a kernel of process p of three, of this commit.
fn text_of(alloc: Global, p: u32, commit: u32) -> Result<Vec<u32>, AllocError>
    requires { p < 3 }
    ensures fault { IfOk result (λ text. kernel_fault 3 p text.items ≡ None) }
    ensures process { IfOk result (λ text. (slice_index text.items n_at ≡ 3) × (slice_index text.items p_at ≡ p)) }
    ensures commit { IfOk result (λ text. slice_index text.items commit_at ≡ commit) }
    ensures long { IfOk result (λ text. length text.items ≡ 458) }
{
    let mut kernel = Kernel::new(alloc, 3, p)?;
    kernel.set_commit(commit);
    let mut text = vec![in alloc; 0; kernel_words(3)]?;
    kernel.encode(&mut text);
    Ok(text)
}

/// The store of process p of three, of its first commit, with so many pages of zeros, one word of which was stored to since.
fn open<C: Checkpoint + Drop>(alloc: Global, dev: &mut C::Device, p: u32, pages: u32) -> Option<C>
    requires one_of { p < 3 }
    requires pages { (1 ≤ pages) × (pages ≤ 256) }
    ensures lent { IfSome result (λ store. C.lent store dev.new) }
    ensures ready { IfSome result (λ store. C.ready store dev.new) }
    ensures index { IfSome result (λ store. C.index store ≡ p) }
    ensures process { IfSome result (λ store. ((C.form store).n ≡ 3) × ((C.form store).p ≡ p)) }
    ensures number { IfSome result (λ store. C.number store ≡ 1) }
    ensures others { (q : ℕ) → q ≢ p → C.untouched dev.old dev.new q }
{
    let Ok(text) = text_of(alloc, p, 1) else {
        return None;
    };
    let Ok(memory) = vec![in alloc; 0; (1024 * pages) as usize] else {
        return None;
    };
    match C::format(alloc, dev, p, memory, text) {
        Ok((mut store, false)) => match store.store(dev, 0, 7, u32::MAX) {
            Ok(()) => Some(store),
            Err(_fault) => None,
        },
        _ => None,
    }
}

/// A list of three.
fn listed<T: Drop>(alloc: Global, first: T, second: T, third: T) -> Option<Vec<T>>
    ensures { IfSome result (λ list. list.items ≡ first ∷ second ∷ third ∷ []) }
{
    let mut list = Vec::new(alloc);
    list.push(first).ok()?;
    list.push(second).ok()?;
    list.push(third).ok()?;
    Some(list)
}

/// The stores of three processes.
fn three<C: Checkpoint + Drop>(alloc: Global, dev: &mut C::Device, pages: u32) -> Option<Vec<C>>
    requires pages { (1 ≤ pages) × (pages ≤ 256) }
    ensures apart { IfSome result (λ stores. AreApart C.Checkpoint stores.items) }
    ensures forms { IfSome result (λ stores. AreOf C.Checkpoint stores.items) }
    ensures lent { IfSome result (λ stores. Each stores.items (λ i c. C.lent c dev.new)) }
    ensures ready { IfSome result (λ stores. Each stores.items (λ i c. C.ready c dev.new)) }
    ensures number { IfSome result (λ stores. Each stores.items (λ i c. C.number c < 2)) }
    ensures long { IfSome result (λ stores. length stores.items ≡ 3) }
{
    let first = open::<C>(alloc, dev, 0, pages)?;
    let second = open::<C>(alloc, dev, 1, pages)?;
    let third = open::<C>(alloc, dev, 2, pages)?;
    let stores = listed(alloc, first, second, third)?;
    Some(stores)
}

/// Three texts in a row.
fn joined(first: Vec<u32>, second: Vec<u32>, third: Vec<u32>) -> Result<Vec<u32>, AllocError>
    ensures { IfOk result (λ words. words.items ≡ first.items ++ second.items ++ third.items) }
{
    let mut words = first;
    words.extend_from_slice(&second)?;
    words.extend_from_slice(&third)?;
    Ok(words)
}

/// The texts of their kernels of the second commit, in a row.
fn words_of(alloc: Global) -> Result<Vec<u32>, AllocError>
    ensures texts { IfOk result (λ words. AreTexts words.items) }
{
    let first = text_of(alloc, 0, 2)?;
    let second = text_of(alloc, 1, 2)?;
    let third = text_of(alloc, 2, 2)?;
    joined(first, second, third)
}

/// What a recovery of a process is to fill.
fn empty(alloc: Global, p: u32) -> Option<Saved>
    requires { p < 3 }
    ensures fit { IfSome result (IsFit (record { n = 3; p = p })) }
{
    let Ok(kernel) = Kernel::new(alloc, 3, p) else {
        return None;
    };
    let Ok(saved) = Saved::new(alloc, kernel) else {
        return None;
    };
    Some(saved)
}

/// What a recovery of all is to fill.
fn three_empty(alloc: Global) -> Option<Vec<Saved>>
    ensures { IfSome result (λ saved. AreFitThree saved.items) }
{
    let first = empty(alloc, 0)?;
    let second = empty(alloc, 1)?;
    let third = empty(alloc, 2)?;
    let saved = listed(alloc, first, second, third)?;
    Some(saved)
}

/// A joint commit of those that take part; of all, by the call for all.
fn commit<C: Checkpoint>(
    stores: &mut [C],
    members: &[bool],
    dev: &mut C::Device,
    words: &[u32],
) -> Result<(), JointFault>
    requires three { length stores.old ≡ 3 }
    requires members { length members.now ≡ 3 }
    requires apart { AreApart C.Checkpoint stores.old }
    requires forms { AreOf C.Checkpoint stores.old }
    requires lent { Each stores.old (λ i c. C.lent c dev.old) }
    requires ready { Each stores.old (λ i c. C.ready c dev.old) }
    requires number { Each stores.old (λ i c. C.number c < 2) }
    requires decidable { IsOther members.now 0 → (c : C) (d : C.Device) → C.decidable c d 2 }
    requires texts { AreTexts words.now }
    ensures same { EachPair stores.old stores.new (λ i. IsSame C.Checkpoint) }
    ensures lent { Each stores.new (λ i c. C.lent c dev.new) }
{
    if members.iter().all(|member| *member) {
        return commit_all(stores, dev, words, 2);
    }
    commit_some(stores, members, dev, words, 2)
}

/// A joint commit and a recovery of all, if that went well: what the commit answered.
fn commit_and_recover<C: Checkpoint>(
    stores: &mut [C],
    members: &[bool],
    dev: &mut C::Device,
    words: &[u32],
    saved: &mut [Saved],
) -> Option<Result<(), JointFault>>
    requires three { length stores.old ≡ 3 }
    requires members { length members.now ≡ 3 }
    requires apart { AreApart C.Checkpoint stores.old }
    requires forms { AreOf C.Checkpoint stores.old }
    requires lent { Each stores.old (λ i c. C.lent c dev.old) }
    requires ready { Each stores.old (λ i c. C.ready c dev.old) }
    requires number { Each stores.old (λ i c. C.number c < 2) }
    requires decidable { IsOther members.now 0 → (c : C) (d : C.Device) → C.decidable c d 2 }
    requires texts { AreTexts words.now }
    requires fit { AreFitThree saved.old }
{
    let committed = commit(stores, members, dev, words);
    match recover_all(stores, dev, saved) {
        Ok(_decided) => Some(committed),
        Err(_fault) => None,
    }
}

/// Whether those that take part were recovered at a commit of this number, and the others at their first.
fn are_at(saved: &[Saved], members: &[bool], number: u32) -> bool {
    saved.iter().zip(members).all(|(one, member)| one.kernel.commit()
        == if *member { number } else { 1 })
}

/// The same for three processes, of which the first may decide where it takes no part; and whether those that take part are then at a commit of this number.
pub fn joint<C: Checkpoint + Drop>(
    alloc: Global,
    dev: &mut C::Device,
    members: &[bool],
    number: u32,
) -> Option<(Result<(), JointFault>, bool)>
    requires members { length members.now ≡ 3 }
    requires decidable { IsOther members.now 0 → (c : C) (d : C.Device) → C.decidable c d 2 }
{
    let Ok(words) = words_of(alloc) else {
        return None;
    };
    let mut saved = three_empty(alloc)?;
    let mut stores = three::<C>(alloc, dev, 1)?;
    let committed = commit_and_recover(&mut stores, members, dev, &words, &mut saved)?;
    Some((committed, are_at(&saved, members, number)))
}

/// The calls of process p in a commit of these.
fn calls_of(members: [bool; 3], p: u32) -> u64
    requires { p < 3 }
    ensures { result < 2 ^ 31 }
{
    let own = if members[p as usize] {
        PREPARING + FINISHING
    } else {
        0
    };
    if p == 0 { own + 1 } else { own }
}

/// The number that those that take part have after a stop of process p at one of its calls, from 1 on: the old one, or the new one
/// where the first process had decided, which it does once it is prepared if it takes part.
fn number_after(members: [bool; 3], p: u32, call: u64, keep: u32) -> u32 {
    let waits = if p == 0 && !members[0] { 0 } else { PREPARING };
    if call <= waits {
        return 1;
    }
    if p == 0 && call == waits + 1 && keep == 0 {
        return 1;
    }
    2
}

/// One stop, at one call of one process.
fn stopped(alloc: Global, members: [bool; 3], p: u32, call: u64, keep: u32) -> Result<(), Fail>
    requires { call < 2 ^ 32 }
{
    let mut listed = Vec::new(alloc);
    listed.push(ListedCall {
        process: p,
        call: BEFORE + call,
        fault: DeviceFault::Stopped,
        tear: Tear { keep, fill: None },
    })?;
    let mut keeps = MemKeeps::new(alloc, listed)?;
    let number = number_after(members, p, call, keep);
    match joint::<Segment<MemKeeps>>(alloc, &mut keeps, &members, number) {
        Some((Err(JointFault::Stopped(at)), true)) if at == p => Ok(()),
        _ => Err(Fail::new(format_args!("process {p} at call {call} keeping {keep}"))),
    }
}

/// Each call of one process, in a commit of these.
fn stopped_everywhere(alloc: Global, members: [bool; 3], p: u32) -> Result<(), Fail>
    requires { p < 3 }
{
    for call in 1..=calls_of(members, p) {
        stopped(alloc, members, p, call, 0)?;
        stopped(alloc, members, p, call, 1)?;
    }
    Ok(())
}

/// Those that take part, by the bits of a number.
fn members_of(bits: u32) -> [bool; 3] {
    [bits & 1 != 0, bits & 2 != 0, bits & 4 != 0]
}

/// So for each choice of those that take part.
fn each_choice(alloc: Global, p: u32) -> Result<(), Fail>
    requires { p < 3 }
{
    for bits in 0..8 {
        stopped_everywhere(alloc, members_of(bits), p)?;
    }
    Ok(())
}

/// A commit of these that no stop comes in.
fn unstopped(alloc: Global, members: [bool; 3]) -> Result<(), Fail> {
    let mut keeps = MemKeeps::new(alloc, Vec::new(alloc))?;
    match joint::<Segment<MemKeeps>>(alloc, &mut keeps, &members, 2) {
        Some((Ok(()), true)) => Ok(()),
        _ => Err(Fail::new("a joint commit")),
    }
}

#[test]
fn all_or_none_where_the_first_is_stopped(rt: HostRuntime) -> Result<(), Fail> {
    each_choice(rt.alloc(), 0)
}

#[test]
fn all_or_none_where_the_second_is_stopped(rt: HostRuntime) -> Result<(), Fail> {
    each_choice(rt.alloc(), 1)
}

#[test]
fn all_or_none_where_the_last_is_stopped(rt: HostRuntime) -> Result<(), Fail> {
    each_choice(rt.alloc(), 2)
}

#[test]
fn all_where_none_is_stopped(rt: HostRuntime) -> Result<(), Fail> {
    for bits in 0..8 {
        unstopped(rt.alloc(), members_of(bits))?;
    }
    Ok(())
}
