//! What the next event of a process is in a journal.

ghost use Rattle.std.specs.Prelude.{◌≡◌};
ghost use Rattle.dc_deeds.specs.Events.{HasReceiver, deed_by, receipt_by, replays_at, sent_by};
ghost use Rattle.dc_guest.specs.Answers.{answer_of};
ghost use Rattle.dc_proc.specs.Events.{IsSender};
ghost use Rattle.dc_proc.specs.Ups.{IsWhole};
ghost use Rattle.dc_recovery.specs.Parts.{sets_unlogged};
ghost use Rattle.dc_savework.specs.Journal as journal;

use dc_audit::Deed;
use dc_calls::Call;
use dc_events::Kind;
use dc_guest::Answer;
use dc_proc::Up;

/// Whether the answer to an event of this kind comes from the log.
fn replays(up: &Up, kind: Kind) -> bool
    ensures { result ≡ replays_at up.now kind }
{
    matches!(kind, Kind::Input | Kind::Receive) && up.unread().is_some()
}

/// Whether a process is told something that could have come otherwise, and that no log has.
pub fn is_chance(up: &Up, kind: Kind, answer: &Answer, log: bool) -> bool
    ensures { result ≡ sets_unlogged log (replays_at up.now kind) (answer_of answer.now) }
{
    match answer {
        Answer::Plain => false,
        _ => !log && !replays(up, kind),
    }
}

/// What a process was told, by whether no log has it.
fn told(chance: bool) -> Deed
    ensures { result ≡ journal.told chance }
{
    if chance { Deed::Chance } else { Deed::Logged }
}

/// What a request for a message comes to: the message that answers it, under its number, or that there is none yet.
fn receipt(up: &Up, answer: &Answer, chance: bool) -> Deed
    requires sender { IsSender up.now.kernel (answer_of answer.now) }
    ensures { result ≡ receipt_by up.now.kernel chance (answer_of answer.now) }
{
    match *answer {
        Answer::ReceiveFrom(sender, _) => {
            Deed::Receives(sender, up.kernel().received(sender), !chance)
        }
        _ => told(chance),
    }
}

/// The message that a call sends, under its number.
fn sent(up: &Up, call: Option<Call>) -> Option<Deed>
    requires whole { IsWhole up.now }
    requires receiver { HasReceiver up.now.kernel call }
    ensures { result ≡ sent_by up.now.kernel call }
{
    match call {
        Some(Call::Send(q, _, _)) => Some(Deed::Sends(q, up.kernel().links().sent(q))),
        _ => None,
    }
}

/// What the next event of a process is to the others, by its kind, its call and its answer; an internal one is nothing.
pub fn event_deed(
    up: &Up,
    kind: Kind,
    call: Option<Call>,
    answer: &Answer,
    chance: bool,
) -> Option<Deed>
    requires whole { IsWhole up.now }
    requires receiver { HasReceiver up.now.kernel call }
    requires sender { IsSender up.now.kernel (answer_of answer.now) }
    ensures { result ≡ deed_by up.now.kernel chance (answer_of answer.now) kind call }
{
    match kind {
        Kind::Internal => None,
        Kind::Clock | Kind::Random | Kind::Input => Some(told(chance)),
        Kind::Receive => Some(receipt(up, answer, chance)),
        Kind::Visible => Some(Deed::Visible),
        Kind::Send => sent(up, call),
    }
}
