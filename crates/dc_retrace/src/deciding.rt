//! Whether what the stores of processes stand for suits the acts of their run.

ghost use Rattle.std.specs.Prelude.{◌≡◌, ◌<◌, ◌≤◌, [], ℕ, List, None, Some, Vec, false, length, slice_get, slice_index, true};
ghost use Rattle.std.specs.declared.alloc.Global.{Global};
ghost use Rattle.dc_elf.specs.Images.{Image as Images};
ghost use Rattle.dc_links.specs.Links.{link_to, number_of_first};
ghost use Rattle.dc_model.specs.Guests.{Answer as Answers};
ghost use Rattle.dc_model.specs.Runs.{Given};
ghost use Rattle.dc_proc.specs.Carried.{system};
ghost use Rattle.dc_proc.specs.Processes.{Stored};
ghost use Rattle.dc_protocols.specs.Rules.{has_log, is_global, is_joint};
ghost use Rattle.dc_resume.specs.Suited.{AreSuited, IsFirstUnsuited, IsSuited};
ghost use Rattle.dc_retrace.specs.Deciding.{IsClosedBy, IsDecidedBy, IsSuitedAlone};
ghost use Rattle.dc_retrace.specs.Read.{AreReadOf, kernel_at, log_at, stored_in};
ghost use Rattle.dc_retrace.specs.Trails.{AreTrails, IsTrail};

use crate::trail::Trail;
use dc_kernel::{Kernel, LogRecord, Saved};
use dc_limits::{ENTRIES, PROCESSES};
use dc_protocols::{Protocol, is_global, is_joint};
use dc_resume::is_save;

/// Commits are numbered below this: the first is 1, and an entry makes no more than two.
const NUMBER_BOUND: u32 = 2 * ENTRIES;

/// Whether a protocol logs anything.
fn has_log(protocol: Protocol) -> bool
    ensures { result ≡ has_log protocol }
{
    matches!(protocol, Protocol::CandLog | Protocol::CbndvsLog)
}

/// The kernel that was read for a process.
fn kernel_at(saved: &[Saved], p: u32) -> &Kernel
    requires { p < length saved.now }
    ensures { result.now ≡ kernel_at saved.now p }
{
    &saved[p as usize].kernel
}

/// The log that was read for it.
fn log_at(saved: &[Saved], p: u32) -> &[LogRecord]
    requires { p < length saved.now }
    ensures { result.now ≡ log_at saved.now p }
{
    &saved[p as usize].log
}

/// Whether of the messages that a process keeps no more, the store of the receiver has received all.
fn keeps_enough(saved: &[Saved], p: u32) -> bool
    requires process { p < length saved.now }
    requires few { length saved.now ≤ PROCESSES }
    requires read { AreReadOf (length saved.now) saved.now }
    ensures is { result ≡ true → (q : ℕ) → q < length saved.now → number_of_first (link_to (kernel_at saved.now p).links q) ≤ slice_index (kernel_at saved.now q).received p }
    ensures only { result ≡ false → (q : ℕ) × (q < length saved.now) × (slice_index (kernel_at saved.now q).received p < number_of_first (link_to (kernel_at saved.now p).links q)) }
{
    let links = kernel_at(saved, p).links();
    for q in 0..saved.len() as u32 {
        if links.sent(q) - links.kept_count(q) > kernel_at(saved, q).received(p) {
            return false;
        }
    }
    true
}

/// Whether what a process received its senders are sure to have sent.
fn is_closed(saved: &[Saved], trails: &[Trail], p: u32) -> bool
    requires process { p < length saved.now }
    requires few { length saved.now ≤ PROCESSES }
    requires count { length trails.now ≡ length saved.now }
    requires read { AreReadOf (length saved.now) saved.now }
    ensures is { result ≡ true → IsClosedBy saved.now trails.now p }
    ensures only { IsClosedBy saved.now trails.now p → result ≡ true }
{
    for s in 0..saved.len() as u32 {
        if kernel_at(saved, p).received(s) as usize > trails[s as usize].sent[p as usize] {
            return false;
        }
    }
    true
}

/// The same, where all recover together.
fn is_covered(protocol: Protocol, saved: &[Saved], trails: &[Trail], p: u32) -> bool
    requires process { p < length saved.now }
    requires few { length saved.now ≤ PROCESSES }
    requires count { length trails.now ≡ length saved.now }
    requires read { AreReadOf (length saved.now) saved.now }
    ensures is { result ≡ true → is_joint protocol ≡ true → IsClosedBy saved.now trails.now p }
    ensures only { (is_joint protocol ≡ true → IsClosedBy saved.now trails.now p) → result ≡ true }
{
    !is_joint(protocol) || is_closed(saved, trails, p)
}

/// Whether a process has committed as often as process 0, where all commit together.
fn is_alike(protocol: Protocol, saved: &[Saved], p: u32) -> bool
    requires process { p < length saved.now }
    ensures is { result ≡ true → is_global protocol ≡ true → (kernel_at saved.now p).commit ≡ (kernel_at saved.now 0).commit }
    ensures only { (is_global protocol ≡ true → (kernel_at saved.now p).commit ≡ (kernel_at saved.now 0).commit) → result ≡ true }
{
    !is_global(protocol) || kernel_at(saved, p).commit() == kernel_at(saved, 0).commit()
}

/// Whether a number is not over the greatest commit number.
fn is_reached(saved: &[Saved], decided: u32) -> bool
    requires few { length saved.now ≤ PROCESSES }
    ensures is { result ≡ true → (q : ℕ) × (q < length saved.now) × (decided ≤ (kernel_at saved.now q).commit) }
    ensures only { result ≡ false → (q : ℕ) → q < length saved.now → (kernel_at saved.now q).commit < decided }
{
    for q in 0..saved.len() as u32 {
        if decided <= kernel_at(saved, q).commit() {
            return true;
        }
    }
    false
}

/// Whether the decided number is one to which a process has come.
fn is_decided(protocol: Protocol, saved: &[Saved], decided: u32) -> bool
    requires few { length saved.now ≤ PROCESSES }
    ensures is { result ≡ true → IsDecidedBy protocol decided saved.now }
    ensures only { IsDecidedBy protocol decided saved.now → result ≡ true }
{
    if is_joint(protocol) {
        return is_reached(saved, decided);
    }
    decided == 0
}

/// The same, of process 0, whose store holds that number.
fn may_decide(protocol: Protocol, saved: &[Saved], decided: u32, p: u32) -> bool
    requires few { length saved.now ≤ PROCESSES }
    ensures is { result ≡ true → p ≡ 0 → IsDecidedBy protocol decided saved.now }
    ensures only { (p ≡ 0 → IsDecidedBy protocol decided saved.now) → result ≡ true }
{
    p != 0 || is_decided(protocol, saved, decided)
}

/// Whether a log is one that there may be under a protocol.
fn may_log(protocol: Protocol, log: &[LogRecord]) -> bool
    ensures is { result ≡ true → has_log protocol ≡ false → log.now ≡ [] }
    ensures only { (has_log protocol ≡ false → log.now ≡ []) → result ≡ true }
{
    has_log(protocol) || log.is_empty()
}

/// Whether what a process's store stands for suits its acts, by its trail.
fn is_suited_alone(protocol: Protocol, saved: &[Saved], p: u32, trail: &Trail) -> bool
    requires process { p < length saved.now }
    requires few { length saved.now ≤ PROCESSES }
    requires read { AreReadOf (length saved.now) saved.now }
    ensures is { result ≡ true → (images : List Images) (inputs : List (List (List ℕ))) (answers : List Answers) (x : Stored) → length images ≡ length saved.now → x.kernel ≡ kernel_at saved.now p → x.log ≡ log_at saved.now p
        → IsTrail (system images inputs protocol) p answers x trail.now → IsSuitedAlone (system images inputs protocol) p answers x }
    ensures only { result ≡ false → (images : List Images) (inputs : List (List (List ℕ))) (answers : List Answers) (x : Stored) → length images ≡ length saved.now → x.kernel ≡ kernel_at saved.now p → x.log ≡ log_at saved.now p
        → IsTrail (system images inputs protocol) p answers x trail.now → IsSuitedAlone (system images inputs protocol) p answers x → ⊥ }
{
    let log = log_at(saved, p);
    if !trail.same {
        return false;
    }
    if !may_log(protocol, log) {
        return false;
    }
    is_save(
        kernel_at(saved, p).position(),
        trail.count,
        trail.exposed,
        saved.len() as u32,
        &trail.told,
        log,
    )
}

/// Whether it does, and goes with what the stores of the others stand for.
fn is_suited(protocol: Protocol, decided: u32, saved: &[Saved], trails: &[Trail], p: u32) -> bool
    requires process { p < length saved.now }
    requires few { length saved.now ≤ PROCESSES }
    requires count { length trails.now ≡ length saved.now }
    requires read { AreReadOf (length saved.now) saved.now }
    ensures is { result ≡ true → (images : List Images) (inputs : List (List (List ℕ))) (acts : List Given) (memories : List (Vec ℕ Global)) → length images ≡ length saved.now
        → AreTrails (system images inputs protocol) acts (stored_in memories saved.now) trails.now → IsSuited (system images inputs protocol) acts decided (stored_in memories saved.now) p }
    ensures only { result ≡ false → (images : List Images) (inputs : List (List (List ℕ))) (acts : List Given) (memories : List (Vec ℕ Global)) → length images ≡ length saved.now
        → AreTrails (system images inputs protocol) acts (stored_in memories saved.now) trails.now → IsSuited (system images inputs protocol) acts decided (stored_in memories saved.now) p → ⊥ }
{
    if !is_suited_alone(protocol, saved, p, &trails[p as usize]) {
        return false;
    }
    if !keeps_enough(saved, p) {
        return false;
    }
    if !is_covered(protocol, saved, trails, p) {
        return false;
    }
    if !is_alike(protocol, saved, p) {
        return false;
    }
    if kernel_at(saved, p).commit() >= NUMBER_BOUND {
        return false;
    }
    may_decide(protocol, saved, decided, p)
}

/// The first process whose store does not suit the acts whose trails these are, where `decided` is the decided number: none where all
/// do, and exactly then.
pub fn first_unsuited(
    protocol: Protocol,
    decided: u32,
    saved: &[Saved],
    trails: &[Trail],
) -> Option<u32>
    requires few { length saved.now ≤ PROCESSES }
    requires count { length trails.now ≡ length saved.now }
    requires read { AreReadOf (length saved.now) saved.now }
    ensures none { result ≡ None → (images : List Images) (inputs : List (List (List ℕ))) (acts : List Given) (memories : List (Vec ℕ Global)) → length images ≡ length saved.now
        → AreTrails (system images inputs protocol) acts (stored_in memories saved.now) trails.now → AreSuited (system images inputs protocol) acts decided (stored_in memories saved.now) }
    ensures first { (p : ℕ) → result ≡ Some p → (images : List Images) (inputs : List (List (List ℕ))) (acts : List Given) (memories : List (Vec ℕ Global)) → length images ≡ length saved.now
        → AreTrails (system images inputs protocol) acts (stored_in memories saved.now) trails.now → IsFirstUnsuited (system images inputs protocol) acts decided (stored_in memories saved.now) p }
{
    for p in 0..saved.len() as u32 {
        if !is_suited(protocol, decided, saved, trails, p) {
            return Some(p);
        }
    }
    None
}
