//! Whether what a process was told makes its log a save.

ghost use Rattle.std.specs.Prelude.{◌≡◌, ◌<◌, ◌≤◌, ◌+◌, [], ℕ, All, List, false, length, map, true};
ghost use Rattle.dc_guest.specs.Answers.{answer_of};
ghost use Rattle.dc_guest.specs.Guest.{Guest};
ghost use Rattle.dc_kernel.specs.Records.{IsRecord};
ghost use Rattle.dc_model.specs.Guests.{Answer as Answers};
ghost use Rattle.dc_proc.specs.Processes.{logged_of};
ghost use Rattle.dc_protocols.specs.Rules.{has_log};
ghost use Rattle.dc_recovery.specs.Saves.{Logged, log_end};
ghost use Rattle.dc_recovery.specs.Systems.{System};
ghost use Rattle.dc_resume.specs.Deciding.{BeginsSo, IsSaveOf, IsWalked, before, begins, handed, hands, receipts, replies, starts_from, tells, told_of};

use crate::told::Told;
use dc_guest::Answer;
use dc_kernel::{LogRecord, Reply};
use dc_limits::{KEPT_MESSAGES, LOGGED_EVENTS};

/// Whether a reply tells what an answer does.
fn replies(reply: &Reply, answer: &Answer) -> bool
    ensures { result ≡ replies reply.now (answer_of answer.now) }
{
    match (reply, answer) {
        (Reply::InputNone, Answer::InputNone) => true,
        (Reply::InputNext(body), Answer::InputNext(bytes)) => body.as_slice() == bytes.as_slice(),
        (Reply::InputEnd, Answer::InputEnd) => true,
        (Reply::ReceiveNone, Answer::ReceiveNone) => true,
        (Reply::ReceiveFrom(sender, body), Answer::ReceiveFrom(from, message)) => {
            sender == from && body.as_slice() == message.as_slice()
        }
        _ => false,
    }
}

/// Whether a log record tells what an act did.
fn tells(rec: &LogRecord, told: &Told) -> bool
    ensures { result ≡ tells rec.now told.now }
{
    rec.position == told.position && replies(&rec.told, &told.answer)
}

/// Whether the first thing told, if there is one, is not before a position.
fn starts_from(reach: u64, told: &[Told]) -> bool
    ensures { result ≡ starts_from reach told.now }
{
    match told {
        [first, ..] => u64::from(first.position) >= reach,
        [] => true,
    }
}

/// Whether what was told begins with a log, record by record, and goes on with nothing before a position.
fn begins_with(told: &[Told], log: &[LogRecord], reach: u64) -> bool
    ensures { result ≡ begins told.now log.now reach }
{
    let mut left = told;
    let mut records = log;
    while let [rec, more @ ..] = records {
        let [first, rest @ ..] = left else {
            return false;
        };
        if !tells(rec, first) {
            return false;
        }
        left = rest;
        records = more;
    }
    starts_from(reach, left)
}

/// Whether what was told of a process from its save on is the log of that save, and then nothing before a position: true exactly
/// where it is.
#[tactic(auto, using(crate::proofs::Records::begins_so, crate::proofs::Records::so_begins))]
pub fn is_log(told: &[Told], log: &[LogRecord], reach: u64) -> bool
    ensures is { result ≡ true → (rest : List Logged) × BeginsSo (map told_of told.now) log.now reach rest }
    ensures only { (rest : List Logged) → BeginsSo (map told_of told.now) log.now reach rest → result ≡ true }
{
    begins_with(told, log, reach)
}

/// Whether a reply hands over a message of process `q`.
fn hands(reply: &Reply, q: u32) -> bool
    ensures { result ≡ hands q reply.now }
{
    match *reply {
        Reply::ReceiveFrom(sender, _) => sender == q,
        _ => false,
    }
}

/// How many messages of process `q` the records before a position hand over.
fn receipts(log: &[LogRecord], q: u32, end: u64) -> usize
    requires few { length log.now ≤ LOGGED_EVENTS }
    ensures { result ≡ handed q end log.now }
{
    let mut count = 0;
    let mut records = log;
    while let [rec, more @ ..] = records {
        if u64::from(rec.position) < end && hands(&rec.told, q) {
            count += 1;
        }
        records = more;
    }
    count
}

/// Whether the records before a position hand over fewer messages of each of `n` processes than may be uncommitted: true exactly
/// where they do.
pub fn has_few(log: &[LogRecord], n: u32, end: u64) -> bool
    requires few { length log.now ≤ LOGGED_EVENTS }
    requires records { All (IsRecord n) log.now }
    ensures is { result ≡ true → (q : ℕ) → receipts q (before end (map logged_of log.now)) < KEPT_MESSAGES }
    ensures only { result ≡ false → (q : ℕ) × (KEPT_MESSAGES ≤ receipts q (before end (map logged_of log.now))) }
{
    for q in 0..n {
        if receipts(log, q, end) >= KEPT_MESSAGES {
            return false;
        }
    }
    true
}

/// One past a position.
fn past(position: u32) -> u64
    ensures { result ≡ position + 1 }
{
    u64::from(position) + 1
}

/// One past the last position of a log; 0 where it is empty.
pub fn log_end(log: &[LogRecord]) -> u64
    ensures { result ≡ log_end (map logged_of log.now) }
{
    let mut end = 0;
    let mut records = log;
    while let [rec, more @ ..] = records {
        end = end.max(past(rec.position));
        records = more;
    }
    end
}

/// Whether a position with a log is a save of one of `n` processes that took `count` acts, of which the last that is exposed for that
/// save stands right before `exposed`, and that was told this from the position on: true exactly where it is.
pub fn is_save(
    position: u32,
    count: u32,
    exposed: u32,
    n: u32,
    told: &[Told],
    log: &[LogRecord],
) -> bool
    requires few { length log.now ≤ LOGGED_EVENTS }
    requires records { All (IsRecord n) log.now }
    ensures is { result ≡ true → (S : System Guest) (p : ℕ) (answers : List Answers) → IsWalked S p answers position count exposed told.now
        → (has_log S.protocol ≡ false → log.now ≡ []) → IsSaveOf S p answers position log.now }
    ensures only { result ≡ false → (S : System Guest) (p : ℕ) (answers : List Answers) → IsWalked S p answers position count exposed told.now
        → IsSaveOf S p answers position log.now → ⊥ }
{
    let end = log_end(log);
    if position > count {
        return false;
    }
    if end > u64::from(count) {
        return false;
    }
    let reach = end.max(u64::from(position.max(exposed)));
    is_log(told, log, reach) && has_few(log, n, reach.saturating_sub(1))
}
