ghost use Rattle.std.specs.Prelude.{◌≡◌, ◌<◌, ◌≤◌, ℕ, ◌+◌, ◌-◌, ◌*◌, ◌/◌, ◌%◌, ◌^◌, length, nat_lt, take, slice_index, IfErr, IfOk, IfSome, OnErr, OnOk};
ghost use Rattle.dc_words.specs.Words.{bytes_in, half_at, word_at, word_bytes};
ghost use Rattle.dc_rv32.specs.Access.{load_width, loaded, store_width, stored};
ghost use Rattle.dc_rv32.specs.Machine.{machine_of, loading, storing, IsCause, UnlessRetired};
ghost use Rattle.dc_media.specs.Told.{Becomes};
ghost use Rattle.dc_rv32.specs.Stores.{OnceAtMost};
ghost use Rattle.dc_rv32.specs.Bytes.{with_bytes};

use crate::Bus;
use crate::arithmetic::sign_extended;
use crate::machine::{Stepped, advance, retire};
use dc_isa::{LoadOp, Regs, StoreOp};

const MISALIGNED_LOAD: u32 = 4;

const LOAD_FAULT: u32 = 5;

const MISALIGNED_STORE: u32 = 6;

const STORE_FAULT: u32 = 7;

/// How many bytes a load reads.
fn load_width(op: LoadOp) -> u32
    ensures width { result ≡ load_width op }
    ensures some { 0 < result }
{
    match op {
        LoadOp::Lb | LoadOp::Lbu => 1,
        LoadOp::Lh | LoadOp::Lhu => 2,
        LoadOp::Lw => 4,
    }
}

/// How many bytes a store writes.
fn store_width(op: StoreOp) -> u32
    ensures width { result ≡ store_width op }
    ensures some { 0 < result }
    ensures one_word { (a : ℕ) → a % result ≡ 0 → a % 4 + result ≤ 4 }
{
    match op {
        StoreOp::Sb => 1,
        StoreOp::Sh => 2,
        StoreOp::Sw => 4,
    }
}

/// The bits of the first bytes of a word, so many of them.
fn mask_of(width: u32) -> u32
    requires some { 0 < width }
    requires word { width ≤ 4 }
    ensures { result ≡ 2 ^ (8 * width) - 1 }
{
    match width {
        1 => 0xff,
        2 => 0xffff,
        3 => 0xff_ffff,
        _ => 0xffff_ffff,
    }
}

/// What the word at an address has from that address on.
#[tactic(auto, using(crate::proofs::Reading::byte_is, crate::proofs::Reading::half_is, crate::proofs::Reading::word_is))]
pub fn bits_at<B: Bus>(bus: &B, a: u32) -> u32
    requires at { a < 4 * B.count bus.now }
    requires live { B.live bus.now }
    ensures byte { IfSome (B.told bus.now) (λ words. result % 2 ^ 8 ≡ slice_index (bytes_in words) a) }
    ensures half { IfSome (B.told bus.now) (λ words. a % 2 ≡ 0 → result % 2 ^ 16 ≡ half_at (bytes_in words) a) }
    ensures word { IfSome (B.told bus.now) (λ words. a % 4 ≡ 0 → result ≡ word_at (bytes_in words) a) }
{
    bus.load(a / 4) >> (8 * (a % 4))
}

/// What a load reads at an address.
fn loaded<B: Bus>(bus: &B, op: LoadOp, a: u32) -> u32
    requires aligned { a % load_width op ≡ 0 }
    requires within { a < 4 * B.count bus.now }
    requires live { B.live bus.now }
    ensures { IfSome (B.told bus.now) (λ words. result ≡ loaded op (bytes_in words) a) }
{
    let bits = bits_at(bus, a);
    match op {
        LoadOp::Lb => sign_extended(bits & 0xff, 8),
        LoadOp::Lh => sign_extended(bits & 0xffff, 16),
        LoadOp::Lw => bits,
        LoadOp::Lbu => bits & 0xff,
        LoadOp::Lhu => bits & 0xffff,
    }
}

/// Stores the first bytes of a word at an address, so many of them, where they lie in one word.
#[tactic(auto, using(crate::proofs::Writing::after_store))]
pub fn put<B: Bus>(bus: &mut B, a: u32, w: u32, width: u32) -> Result<(), B::Stop>
    requires some { 0 < width }
    requires one_word { a % 4 + width ≤ 4 }
    requires within { a < 4 * B.count bus.old }
    requires live { B.live bus.old }
    ensures stored { OnOk result (Becomes (B.told bus.old) (B.told bus.new) (λ before after. bytes_in after ≡ with_bytes (bytes_in before) a (take width (word_bytes w)))) }
    ensures count { B.count bus.new ≡ B.count bus.old }
    ensures live { OnOk result (B.live bus.new) }
    ensures made { OnOk result (B.made bus.old (a / 4) bus.new) }
    ensures refused { IfErr result (λ why. B.refused bus.old (a / 4) bus.new why) }
{
    let shift = 8 * (a % 4);
    bus.store(a / 4, w << shift, mask_of(width) << shift)
}

/// Whether an access goes past the memory.
fn is_past<B: Bus>(bus: &B, a: u32, width: u32) -> bool
    requires { B.live bus.now }
    ensures { result ≡ nat_lt (4 * B.count bus.now) (a + width) }
{
    u64::from(a) + u64::from(width) > u64::from(bus.size())
}

/// Runs a load at an address.
#[tactic(auto, using(dc_words::proofs::Bytes::bytes_long))]
pub fn load<B: Bus>(regs: &mut Regs, bus: &B, op: LoadOp, rd: u32, a: u32) -> Stepped
    requires register { rd < 2 ^ 5 }
    requires live { B.live bus.now }
    ensures loaded { IfSome (B.told bus.now) (λ words. (machine_of regs.new words, result) ≡ loading (machine_of regs.old words) op rd a) }
    ensures zero { slice_index regs.old.x 0 ≡ 0 → slice_index regs.new.x 0 ≡ 0 }
    ensures aligned { regs.old.pc % 4 ≡ 0 → regs.new.pc % 4 ≡ 0 }
    ensures unchanged { UnlessRetired result (regs.new ≡ regs.old) }
    ensures cause { IsCause result }
{
    let width = load_width(op);
    if a % width != 0 {
        return Stepped::Trap(MISALIGNED_LOAD);
    }
    if is_past(bus, a, width) {
        return Stepped::Trap(LOAD_FAULT);
    }
    retire(regs, rd, loaded(bus, op, a))
}

/// Runs a store of a word at an address.
#[tactic(auto, using(dc_words::proofs::Bytes::bytes_long))]
pub fn store<B: Bus>(
    regs: &mut Regs,
    bus: &mut B,
    op: StoreOp,
    a: u32,
    w: u32,
) -> Result<Stepped, B::Stop>
    requires live { B.live bus.old }
    ensures stored { IfOk result (λ s. Becomes (B.told bus.old) (B.told bus.new) (λ before after. (machine_of regs.new after, s) ≡ storing (machine_of regs.old before) op a w)) }
    ensures was { IfOk result (λ s. IfSome (B.told bus.old) (λ words. s ≡ (storing (machine_of regs.old words) op a w).1)) }
    ensures count { B.count bus.new ≡ B.count bus.old }
    ensures live { OnOk result (B.live bus.new) }
    ensures once { OnOk result (OnceAtMost B.made bus.old bus.new) }
    ensures refused { IfErr result (λ why. (i : ℕ) × B.refused bus.old i bus.new why) }
    ensures reached { OnErr result (IfSome (B.told bus.old) (λ words. (storing (machine_of regs.old words) op a w).1 ≡ Stepped.Retired)) }
    ensures kept { OnErr result (regs.new ≡ regs.old) }
    ensures zero { slice_index regs.old.x 0 ≡ 0 → slice_index regs.new.x 0 ≡ 0 }
    ensures aligned { regs.old.pc % 4 ≡ 0 → regs.new.pc % 4 ≡ 0 }
    ensures cause { IfOk result IsCause }
    ensures unchanged { IfOk result (λ s. UnlessRetired s ((regs.new ≡ regs.old) × (bus.new ≡ bus.old))) }
{
    let width = store_width(op);
    if a % width != 0 {
        return Ok(Stepped::Trap(MISALIGNED_STORE));
    }
    if is_past(bus, a, width) {
        return Ok(Stepped::Trap(STORE_FAULT));
    }
    put(bus, a, w, width)?;
    Ok(advance(regs))
}
