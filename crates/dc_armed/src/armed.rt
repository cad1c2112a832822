ghost use Rattle.std.specs.Prelude.{◌≡◌, ◌<◌, ℕ};
ghost use Rattle.dc_media.specs.Firsts.{IsFoundFirst};
ghost use Rattle.dc_armed.specs.Turns.{WaitFirst, WaitNone};
ghost use Rattle.dc_armed.specs.Stops.{calls_to, came_to, first_stop, is_of};

use crate::plan::StopPlan;
use dc_media::{PlannedStop, STORES};
use std::marker::Model;

/// A device of words or of disks, with stops that are planned for it.
///
/// In its turn a planned stop comes at the call of its number of its process's device. That call is torn and answers `Stopped`. Of
/// several stops for a turn and process the one at the lowest call comes, and of two at one call the first; no other comes, and none at
/// all once the process was stopped in the turn. Everything else is the device's own.
#[derive(Drop)]
pub struct Armed<D> {
    pub(crate) device: D,
    pub(crate) plan: StopPlan,
}

impl<D> Model for Armed<D> {
    ghost use Rattle.dc_armed.specs.Armed as seen;

    ghost Value = { seen.Armed D };

    ghost view = { λ a. record { device = a.device; plan = a.plan } };
}

impl<D> Armed<D> {
    /// A device with planned stops, of which none came. None waits until the first turn.
    pub fn new(device: D, stops: Vec<PlannedStop>) -> Armed<D>
        ensures device { result.device ≡ device }
        ensures stops { result.plan.stops ≡ stops.items }
        ensures waits { WaitNone result.plan.waiting }
        ensures came { (p : ℕ) → came_to result.plan p ≡ 0 }
        ensures calls { (p : ℕ) → p < STORES → calls_to result.plan p ≡ 0 }
    {
        Armed {
            device,
            plan: StopPlan::new(stops),
        }
    }

    /// Begins a turn: its calls are counted from here, and for each process the first of its stops waits.
    ///
    /// Turns without a planned stop cost little: of those in a row only the first looks through the plan.
    pub fn at_turn(&mut self, turn: u32)
        ensures device { self.new.device ≡ self.old.device }
        ensures waits { WaitFirst self.old.plan.stops turn self.new.plan.waiting }
        ensures first { (p : ℕ) → IsFoundFirst (is_of turn p) (λ stop. stop.call) self.old.plan.stops (first_stop self.old.plan.stops turn p) }
        ensures stops { self.new.plan.stops ≡ self.old.plan.stops }
        ensures came { self.new.plan.came ≡ self.old.plan.came }
        ensures calls { self.new.plan.calls ≡ self.old.plan.calls }
    {
        self.plan.at_turn(turn);
    }

    /// The device within.
    pub fn device(&self) -> &D
        ensures { result.now ≡ self.now.device }
    {
        &self.device
    }

    /// Gives the device back.
    pub fn into_device(self) -> D
        ensures { result ≡ self.device }
    {
        let Armed { device, plan: _ } = self;
        device
    }

    /// How many stores, or writes and syncs, a process made of the armed device. Past the last process the count stands at its last value.
    pub fn calls(&self, p: u32) -> u64
        ensures { result ≡ calls_to self.now.plan p }
    {
        self.plan.calls(p)
    }
}
