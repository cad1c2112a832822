//! Which planned stops wait in a turn, and in which turn the next ones will.

ghost use Rattle.std.specs.Prelude.{◌≡◌, ◌+◌, List, ◌∷◌, ◌++◌, false, []};
ghost use Rattle.dc_armed.specs.Turns.{ComesNone, WaitFirst, WaitNone};
ghost use Rattle.dc_media.specs.declared.planned.PlannedStop.{PlannedStop};
ghost use Rattle.dc_armed.specs.Stops.{is_of, sooner_waiting};

use crate::stop::Waiting;
use dc_media::{PlannedStop, STORES};

/// No stop waits.
pub(crate) fn none_waiting() -> [Option<Waiting>; STORES as usize]
    ensures { WaitNone result }
{
    [None; STORES as usize]
}

/// Whether a stop comes in a turn: its calls and processes are numbered, and the turn is its own.
fn comes_in(turn: u32, stop: &PlannedStop) -> bool
    ensures { result ≡ is_of turn stop.now.process stop.now }
{
    stop.turn == turn && stop.process < STORES && stop.call > 0
}

/// The sooner of a stop that waits and one that is planned after it.
fn sooner(waiting: Option<Waiting>, stop: &PlannedStop) -> Waiting
    ensures { result ≡ sooner_waiting waiting stop.now }
{
    match waiting {
        Some(waiting) if waiting.calls <= stop.call => waiting,
        _ => Waiting {
            calls: stop.call,
            tear: stop.tear,
        },
    }
}

/// Lets a stop wait if it comes in a turn, and says whether it does.
fn arm_one(waiting: &mut [Option<Waiting>; STORES as usize], stop: &PlannedStop, turn: u32) -> bool
    ensures waits { (stops : List PlannedStop) → WaitFirst stops turn waiting.old → WaitFirst (stops ++ stop.now ∷ []) turn waiting.new }
    ensures none { result ≡ false → waiting.new ≡ waiting.old }
{
    if comes_in(turn, stop) {
        let index = stop.process as usize;
        waiting[index] = Some(sooner(waiting[index], stop));
        return true;
    }
    false
}

/// Lets the first stop of a turn wait for each process, and says whether there is any.
pub(crate) fn arm(
    waiting: &mut [Option<Waiting>; STORES as usize],
    stops: &[PlannedStop],
    turn: u32,
) -> bool
    requires { WaitNone waiting.old }
    ensures waits { WaitFirst stops.now turn waiting.new }
    ensures none { result ≡ false → WaitNone waiting.new }
{
    let mut armed = false;
    for stop in stops {
        armed |= arm_one(waiting, stop, turn);
    }
    armed
}

/// The sooner of a turn and that of a stop which is planned for a turn after this one.
fn sooner_turn(next: u64, stop: &PlannedStop, turn: u32) -> u64
    ensures { (stops : List PlannedStop) → ComesNone stops (turn + 1) next → ComesNone (stops ++ stop.now ∷ []) (turn + 1) result }
{
    if stop.turn > turn {
        return next.min(u64::from(stop.turn));
    }
    next
}

/// The first turn after this one for which a stop is planned, or one past the last turn.
pub(crate) fn next_turn(stops: &[PlannedStop], turn: u32) -> u64
    ensures { ComesNone stops.now (turn + 1) result }
{
    let mut next = 1 << 32;
    for stop in stops {
        next = sooner_turn(next, stop, turn);
    }
    next
}
