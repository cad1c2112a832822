//! Where a run is halted.

ghost use Rattle.std.specs.Prelude.{◌≡◌};
ghost use Rattle.dc_run.specs.Opening.{entries_run, leaves_over};
ghost use Rattle.dc_run.specs.Resuming.{halt_behind};

use dc_course::{Scheduled, Setting};
use dc_model::Entry;

/// The entries that are run: all, or those before the halt.
fn entries_run(halt: Option<u32>, mut schedule: Vec<Entry>) -> Vec<Entry>
    ensures { result.items ≡ entries_run halt schedule.items }
{
    if let Some(halt) = halt {
        schedule.truncate(halt as usize);
    }
    schedule
}

/// The part of a setting that is run: all of it, or what stands before the halt.
pub fn part_run(halt: Option<u32>, setting: Setting) -> Setting
    ensures entries { result.scheduled.schedule.items ≡ entries_run halt setting.scheduled.schedule.items }
    ensures setup { result.scheduled.setup ≡ setting.scheduled.setup }
    ensures stops { result.stops ≡ setting.stops }
{
    let Setting { scheduled, stops } = setting;
    let Scheduled { setup, schedule } = scheduled;
    let schedule = entries_run(halt, schedule);
    Setting {
        scheduled: Scheduled { setup, schedule },
        stops,
    }
}

/// Whether a halt leaves entries over.
pub fn leaves_over(halt: Option<u32>, schedule: &[Entry]) -> bool
    ensures { result ≡ leaves_over halt schedule.now }
{
    match halt {
        Some(halt) => (halt as usize) < schedule.len(),
        None => false,
    }
}

/// The halt of a run that goes on behind so many entries: one that it came to has no effect.
pub fn halt_behind(entries: u32, halt: Option<u32>) -> Option<u32>
    ensures { result ≡ halt_behind entries halt }
{
    match halt {
        Some(halt) if entries < halt => Some(halt),
        _ => None,
    }
}
