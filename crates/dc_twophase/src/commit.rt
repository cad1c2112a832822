ghost use Rattle.std.specs.Prelude.{true, false, ◌≡◌, ◌⊎◌, ◌<◌, ◌≤◌, ◌*◌, ◌/◌, ℕ, OnOk, length};
ghost use Rattle.dc_checkpoint.specs.Calls.{AreAll, AreBelow};
ghost use Rattle.dc_checkpoint.specs.Handles.{IsSame};
ghost use Rattle.dc_twophase.specs.Commits.{AllNew, AllNewOf, AllOld, HasRoom, IsAside, IsBeside, IsCommitted, IsDecided, IsDeciding, IsIdle, IsMember, IsOther, IsPrepared, IsSameMemory, IsUndecided};
ghost use Rattle.dc_twophase.specs.Counts.{IsJoint, IsUnrefused};
ghost use Rattle.dc_twophase.specs.Stores.{AreApart, AreCalls, AreOf, At, AtPair, Each, EachPair, CallsOne, IsNoIndex, Takes, on, text_at};

use crate::faults::{JointFault, joint_fault};
use dc_checkpoint::Checkpoint;
use dc_media::STORES;

/// Prepares the store of process p, with this text of its kernel.
fn prepare_one<C: Checkpoint>(
    stores: &mut [C],
    dev: &mut C::Device,
    text: &[u32],
    g: u32,
    p: usize,
) -> Result<(), JointFault>
    requires few { length stores.old ≤ STORES }
    requires process { p < length stores.old }
    requires lent { At p stores.old (λ c. C.lent c dev.old) }
    requires ready { At p stores.old (λ c. C.ready c dev.old) }
    requires number { At p stores.old (λ c. C.number c < g) }
    requires text { At p stores.old (Takes C.Checkpoint text.now g) }
    ensures call { CallsOne C.Checkpoint p (on stores.old dev.old) (on stores.new dev.new) }
    ensures undecided { AtPair p stores.old stores.new (IsUndecided C.Checkpoint g dev.old dev.new) }
    ensures prepared { OnOk result (AtPair p stores.old stores.new (IsPrepared C.Checkpoint text.now g dev.old dev.new)) }
    ensures joint { IsJoint C.Checkpoint stores.old dev.old dev.new result }
    ensures unrefused { IsUnrefused result }
{
    match stores[p].prepare(dev, text, g) {
        Ok(()) => Ok(()),
        Err(fault) => Err(joint_fault(p as u32, fault)),
    }
}

/// Finishes the commit in the store of process p.
fn finish_one<C: Checkpoint>(
    stores: &mut [C],
    dev: &mut C::Device,
    g: u32,
    p: usize,
) -> Result<(), JointFault>
    requires few { length stores.old ≤ STORES }
    requires process { p < length stores.old }
    requires lent { At p stores.old (λ c. C.lent c dev.old) }
    requires prepared { At p stores.old (λ c. C.prepared c dev.old g) }
    ensures call { CallsOne C.Checkpoint p (on stores.old dev.old) (on stores.new dev.new) }
    ensures decided { AtPair p stores.old stores.new (IsDecided C.Checkpoint g dev.old dev.new) }
    ensures committed { OnOk result (At p stores.new (IsCommitted C.Checkpoint g dev.new)) }
    ensures memory { OnOk result (AtPair p stores.old stores.new (IsSameMemory C.Checkpoint dev.old dev.new)) }
    ensures joint { IsJoint C.Checkpoint stores.old dev.old dev.new result }
    ensures unrefused { IsUnrefused result }
{
    match stores[p].finish(dev, g) {
        Ok(()) => Ok(()),
        Err(fault) => Err(joint_fault(p as u32, fault)),
    }
}

/// Prepares the store of process p, if it takes part.
fn prepare_if<C: Checkpoint>(
    stores: &mut [C],
    dev: &mut C::Device,
    text: &[u32],
    g: u32,
    p: usize,
    member: bool,
) -> Result<(), JointFault>
    requires few { length stores.old ≤ STORES }
    requires process { p < length stores.old }
    requires lent { At p stores.old (λ c. C.lent c dev.old) }
    requires ready { At p stores.old (λ c. C.ready c dev.old) }
    requires number { member ≡ true → At p stores.old (λ c. C.number c < g) }
    requires text { member ≡ true → At p stores.old (Takes C.Checkpoint text.now g) }
    ensures call { CallsOne C.Checkpoint p (on stores.old dev.old) (on stores.new dev.new) }
    ensures undecided { AtPair p stores.old stores.new (IsUndecided C.Checkpoint g dev.old dev.new) }
    ensures prepared { OnOk result (member ≡ true → AtPair p stores.old stores.new (IsPrepared C.Checkpoint text.now g dev.old dev.new)) }
    ensures idle { member ≡ false → AtPair p stores.old stores.new (IsIdle C.Checkpoint dev.old dev.new) }
    ensures joint { IsJoint C.Checkpoint stores.old dev.old dev.new result }
    ensures unrefused { IsUnrefused result }
{
    if member {
        return prepare_one(stores, dev, text, g, p);
    }
    Ok(())
}

/// Prepares each store that takes part, in order, with its text out of `words`.
fn prepare_some<C: Checkpoint>(
    stores: &mut [C],
    members: &[bool],
    dev: &mut C::Device,
    words: &[u32],
    size: usize,
    g: u32,
) -> Result<(), JointFault>
    requires few { length stores.old ≤ STORES }
    requires long { length words.now ≡ size * length stores.old }
    requires members { length members.now ≡ length stores.old }
    requires apart { AreApart C.Checkpoint stores.old }
    requires lent { Each stores.old (λ i c. C.lent c dev.old) }
    requires ready { Each stores.old (λ i c. C.ready c dev.old) }
    requires number { Each stores.old (λ i c. IsMember members.now i → C.number c < g) }
    requires texts { Each stores.old (λ i c. IsMember members.now i → Takes C.Checkpoint (text_at size words.now i) g c) }
    ensures undecided { EachPair stores.old stores.new (λ i. IsUndecided C.Checkpoint g dev.old dev.new) }
    ensures prepared { OnOk result (EachPair stores.old stores.new (λ i b c. IsMember members.now i → IsPrepared C.Checkpoint (text_at size words.now i) g dev.old dev.new b c)) }
    ensures idle { EachPair stores.old stores.new (λ i b c. IsOther members.now i → IsIdle C.Checkpoint dev.old dev.new b c) }
    ensures calls { AreCalls C.Checkpoint stores.old dev.old dev.new }
    ensures joint { IsJoint C.Checkpoint stores.old dev.old dev.new result }
    ensures unrefused { IsUnrefused result }
{
    for p in 0..stores.len() {
        let at = p * size;
        let member = members[p];
        prepare_if(stores, dev, &words[at..at + size], g, p, member)?;
    }
    Ok(())
}

/// The first store decides, whether it takes part or not.
fn decide_first<C: Checkpoint>(
    stores: &mut [C],
    dev: &mut C::Device,
    g: u32,
) -> Result<(), JointFault>
    requires some { 0 < length stores.old }
    requires first { At 0 stores.old (λ c. (C.form c).p ≡ 0) }
    requires lent { At 0 stores.old (λ c. C.lent c dev.old) }
    requires awake { At 0 stores.old (λ c. C.ready c dev.old ⊎ C.prepared c dev.old g) }
    requires decidable { At 0 stores.old (λ c. C.decidable c dev.old g) }
    ensures call { CallsOne C.Checkpoint 0 (on stores.old dev.old) (on stores.new dev.new) }
    ensures beside { AtPair 0 stores.old stores.new (IsBeside C.Checkpoint dev.old dev.new) }
    ensures deciding { AtPair 0 stores.old stores.new (IsDeciding C.Checkpoint g dev.old dev.new) }
    ensures decided { OnOk result (AtPair 0 stores.old stores.new (λ b c. AreBelow g (C.numbers b dev.old) → AreAll g (C.numbers c dev.new))) }
    ensures prepared { OnOk result (AtPair 0 stores.old stores.new (λ b c. C.prepared b dev.old g → C.prepared c dev.new g)) }
    ensures aside { OnOk result (AtPair 0 stores.old stores.new (IsAside C.Checkpoint dev.old dev.new)) }
    ensures memory { OnOk result (AtPair 0 stores.old stores.new (IsSameMemory C.Checkpoint dev.old dev.new)) }
    ensures joint { IsJoint C.Checkpoint stores.old dev.old dev.new result }
    ensures unrefused { IsUnrefused result }
{
    match stores[0].decide(dev, g) {
        Ok(()) => Ok(()),
        Err(fault) => Err(joint_fault(0, fault)),
    }
}

/// Finishes the commit in the store of process p, if it takes part.
fn finish_if<C: Checkpoint>(
    stores: &mut [C],
    dev: &mut C::Device,
    g: u32,
    p: usize,
    member: bool,
) -> Result<(), JointFault>
    requires few { length stores.old ≤ STORES }
    requires process { p < length stores.old }
    requires lent { At p stores.old (λ c. C.lent c dev.old) }
    requires prepared { member ≡ true → At p stores.old (λ c. C.prepared c dev.old g) }
    ensures call { CallsOne C.Checkpoint p (on stores.old dev.old) (on stores.new dev.new) }
    ensures decided { AtPair p stores.old stores.new (IsDecided C.Checkpoint g dev.old dev.new) }
    ensures committed { OnOk result (member ≡ true → At p stores.new (IsCommitted C.Checkpoint g dev.new)) }
    ensures memory { OnOk result (AtPair p stores.old stores.new (IsSameMemory C.Checkpoint dev.old dev.new)) }
    ensures idle { member ≡ false → AtPair p stores.old stores.new (IsIdle C.Checkpoint dev.old dev.new) }
    ensures joint { IsJoint C.Checkpoint stores.old dev.old dev.new result }
    ensures unrefused { IsUnrefused result }
{
    if member {
        return finish_one(stores, dev, g, p);
    }
    Ok(())
}

/// Finishes the commit in each store that takes part, in order.
fn finish_some<C: Checkpoint>(
    stores: &mut [C],
    members: &[bool],
    dev: &mut C::Device,
    g: u32,
) -> Result<(), JointFault>
    requires few { length stores.old ≤ STORES }
    requires members { length members.now ≡ length stores.old }
    requires apart { AreApart C.Checkpoint stores.old }
    requires lent { Each stores.old (λ i c. C.lent c dev.old) }
    requires prepared { Each stores.old (λ i c. IsMember members.now i → C.prepared c dev.old g) }
    ensures decided { EachPair stores.old stores.new (λ i. IsDecided C.Checkpoint g dev.old dev.new) }
    ensures committed { OnOk result (Each stores.new (λ i c. IsMember members.now i → IsCommitted C.Checkpoint g dev.new c)) }
    ensures memory { OnOk result (EachPair stores.old stores.new (λ i. IsSameMemory C.Checkpoint dev.old dev.new)) }
    ensures idle { EachPair stores.old stores.new (λ i b c. IsOther members.now i → IsIdle C.Checkpoint dev.old dev.new b c) }
    ensures calls { AreCalls C.Checkpoint stores.old dev.old dev.new }
    ensures joint { IsJoint C.Checkpoint stores.old dev.old dev.new result }
    ensures unrefused { IsUnrefused result }
{
    for p in 0..stores.len() {
        let member = members[p];
        finish_if(stores, dev, g, p, member)?;
    }
    Ok(())
}

/// Commits those stores together that take part, under the number `g`, each with its kernel's text out of `words`, where those of
/// all stand in a row: all of them or none. The other stores go on standing for what they stood for.
///
/// Each member is prepared, then the first store decides, a member or not, and then each member is finished. Refused, all members
/// stand for their old state or all for their new one, whichever images the devices hold; a recovery is owed then.
pub fn commit_some<C: Checkpoint>(
    stores: &mut [C],
    members: &[bool],
    dev: &mut C::Device,
    words: &[u32],
    g: u32,
) -> Result<(), JointFault>
    requires some { 0 < length stores.old }
    requires few { length stores.old ≤ STORES }
    requires members { length members.now ≡ length stores.old }
    requires long { length words.now ≡ length words.now / length stores.old * length stores.old }
    requires apart { AreApart C.Checkpoint stores.old }
    requires forms { AreOf C.Checkpoint stores.old }
    requires lent { Each stores.old (λ i c. C.lent c dev.old) }
    requires ready { Each stores.old (λ i c. C.ready c dev.old) }
    requires number { Each stores.old (λ i c. IsMember members.now i → C.number c < g) }
    requires texts { Each stores.old (λ i c. IsMember members.now i → Takes C.Checkpoint (text_at (length words.now / length stores.old) words.now i) g c) }
    requires decidable { IsOther members.now 0 → At 0 stores.old (λ c. C.decidable c dev.old g) }
    ensures same { EachPair stores.old stores.new (λ i. IsSame C.Checkpoint) }
    ensures lent { Each stores.new (λ i c. C.lent c dev.new) }
    ensures committed { OnOk result (Each stores.new (λ i c. IsMember members.now i → IsCommitted C.Checkpoint g dev.new c)) }
    ensures memory { OnOk result (EachPair stores.old stores.new (λ i. IsSameMemory C.Checkpoint dev.old dev.new)) }
    ensures decided { OnOk result (HasRoom C.Checkpoint g (on stores.old dev.old) → At 0 stores.new (λ c. AreAll g (C.numbers c dev.new))) }
    ensures stands { OnOk result (HasRoom C.Checkpoint g (on stores.old dev.old) → At 0 stores.new (λ c. (d : ℕ) → C.numbers c dev.new d
        → AllNewOf C.Checkpoint members.now (text_at (length words.now / length stores.old) words.now) (on stores.old dev.old) (on stores.new dev.new) d)) }
    ensures between { HasRoom C.Checkpoint g (on stores.old dev.old) → AtPair 0 stores.old stores.new (λ b c. (d : ℕ) → C.numbers c dev.new d
        → (C.numbers b dev.old d × AllOld C.Checkpoint (on stores.old dev.old) (on stores.new dev.new) d)
        ⊎ ((d ≡ g) × AllNewOf C.Checkpoint members.now (text_at (length words.now / length stores.old) words.now) (on stores.old dev.old) (on stores.new dev.new) d)) }
    ensures beside { EachPair stores.old stores.new (λ i b c. IsOther members.now i → IsBeside C.Checkpoint dev.old dev.new b c) }
    ensures aside { OnOk result (EachPair stores.old stores.new (λ i b c. IsOther members.now i → IsAside C.Checkpoint dev.old dev.new b c)) }
    ensures steady { HasRoom C.Checkpoint g (on stores.old dev.old) → At 0 stores.new (λ c. C.steady c dev.new) }
    ensures joint { IsJoint C.Checkpoint stores.old dev.old dev.new result }
    ensures unrefused { IsUnrefused result }
    ensures others { (q : ℕ) → IsNoIndex C.Checkpoint stores.old q → C.untouched dev.old dev.new q }
    ensures continues { C.continues dev.old dev.new }
{
    let size = words.len() / stores.len();
    prepare_some(stores, members, dev, words, size, g)?;
    decide_first(stores, dev, g)?;
    finish_some(stores, members, dev, g)
}

/// Commits all stores together under the number `g`, each with its kernel's text out of `words`, where those of all stand in a
/// row: all or none.
///
/// Each store is prepared, then the first one decides, and then each is finished. Refused, all stand for their old state or all
/// for their new one, whichever images the devices hold; a recovery is owed then.
pub fn commit_all<C: Checkpoint>(
    stores: &mut [C],
    dev: &mut C::Device,
    words: &[u32],
    g: u32,
) -> Result<(), JointFault>
    requires some { 0 < length stores.old }
    requires few { length stores.old ≤ STORES }
    requires long { length words.now ≡ length words.now / length stores.old * length stores.old }
    requires apart { AreApart C.Checkpoint stores.old }
    requires forms { AreOf C.Checkpoint stores.old }
    requires lent { Each stores.old (λ i c. C.lent c dev.old) }
    requires ready { Each stores.old (λ i c. C.ready c dev.old) }
    requires number { Each stores.old (λ i c. C.number c < g) }
    requires texts { Each stores.old (λ i. Takes C.Checkpoint (text_at (length words.now / length stores.old) words.now i) g) }
    ensures same { EachPair stores.old stores.new (λ i. IsSame C.Checkpoint) }
    ensures lent { Each stores.new (λ i c. C.lent c dev.new) }
    ensures committed { OnOk result (Each stores.new (λ i. IsCommitted C.Checkpoint g dev.new)) }
    ensures memory { OnOk result (EachPair stores.old stores.new (λ i. IsSameMemory C.Checkpoint dev.old dev.new)) }
    ensures decided { OnOk result (HasRoom C.Checkpoint g (on stores.old dev.old) → At 0 stores.new (λ c. AreAll g (C.numbers c dev.new))) }
    ensures stands { OnOk result (HasRoom C.Checkpoint g (on stores.old dev.old) → At 0 stores.new (λ c. (d : ℕ) → C.numbers c dev.new d
        → AllNew C.Checkpoint (text_at (length words.now / length stores.old) words.now) (on stores.old dev.old) (on stores.new dev.new) d)) }
    ensures between { HasRoom C.Checkpoint g (on stores.old dev.old) → AtPair 0 stores.old stores.new (λ b c. (d : ℕ) → C.numbers c dev.new d
        → (C.numbers b dev.old d × AllOld C.Checkpoint (on stores.old dev.old) (on stores.new dev.new) d)
        ⊎ ((d ≡ g) × AllNew C.Checkpoint (text_at (length words.now / length stores.old) words.now) (on stores.old dev.old) (on stores.new dev.new) d)) }
    ensures steady { HasRoom C.Checkpoint g (on stores.old dev.old) → At 0 stores.new (λ c. C.steady c dev.new) }
    ensures joint { IsJoint C.Checkpoint stores.old dev.old dev.new result }
    ensures unrefused { IsUnrefused result }
    ensures others { (q : ℕ) → IsNoIndex C.Checkpoint stores.old q → C.untouched dev.old dev.new q }
    ensures continues { C.continues dev.old dev.new }
{
    let all = [true; STORES as usize];
    commit_some(stores, &all[..stores.len()], dev, words, g)
}
