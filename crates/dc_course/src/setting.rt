//! What a run is given.

ghost use Rattle.std.specs.Prelude.{◌≡◌, ◌≤◌, All, false, length};
ghost use Rattle.dc_limits.specs.declared.bounds.TheConstants.{ENTRIES};
ghost use Rattle.dc_protocols.specs.Rules.{is_causal};
ghost use Rattle.dc_world.specs.Worlds.{IsOfProcesses, all_of_processes-prop};

use dc_media::PlannedStop;
use dc_model::Entry;
use dc_world::Setup;

/// What a world begins with, and a schedule of its processes, under one of the seven protocols.
#[derive(Drop)]
pub struct Scheduled {
    pub setup: Setup,
    pub schedule: Vec<Entry>,
    ghost seven: { is_causal setup.protocol ≡ false },
    ghost entries: { length schedule.items ≤ ENTRIES },
    ghost processes: { All (IsOfProcesses (length setup.images.items)) schedule.items } by { all_of_processes-prop (length setup.images.items) schedule.items },
}

/// What a run is given: its schedule with what its world begins with, and the stops that are planned.
#[derive(Drop)]
pub struct Setting {
    pub scheduled: Scheduled,
    pub stops: Vec<PlannedStop>,
}
