ghost use Rattle.std.specs.Prelude.{length};
ghost use Rattle.dc_schedule.specs.Entries.{IsSchedule};
ghost use Rattle.dc_run.specs.Single.{IsSchedule-prop};

use dc_command::Ledger;
use dc_course::Setting;
use dc_plan::Medium;

/// What a plan is opened to: what its run writes at its end, the medium of its stores, what the run is given, and the first entry that is not run, if it
/// is to be halted.
#[derive(Drop)]
pub struct OpenedRun {
    pub ledger: Ledger,
    pub medium: Medium,
    pub setting: Setting,
    pub halt: Option<u32>,
    ghost entries: { IsSchedule (length setting.scheduled.setup.images.items) setting.scheduled.schedule.items } by { IsSchedule-prop (length setting.scheduled.setup.images.items) setting.scheduled.schedule.items },
}
