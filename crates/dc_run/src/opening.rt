ghost use Rattle.std.specs.List.{AllByRecursion};
ghost use Rattle.std.specs.Prelude.{◌≡◌, false, [], Err, ◌≤◌, ◌<◌, ◌%◌, ◌^◌, ℕ, All, IsErrOf, IsSome, OnOk, Some, IfOk, length, map, string_bytes};
ghost use Rattle.dc_media.specs.Causes.{Rose};
ghost use Rattle.dc_elf.specs.Loaded.{seen_image};
ghost use Rattle.dc_plan.specs.Allowed.{IsAllowed, IsSourceAllowed, Suits, is_seed};
ghost use Rattle.dc_plan.specs.Plans.{InFile, plan_view, source_view};
ghost use Rattle.dc_plan.specs.declared.plan.Medium.TheVariants as Media;
ghost use Rattle.dc_schedule.specs.Entries.{IsSchedule};
ghost use Rattle.dc_shows.specs.Typed.{IsGivenRun, IsImage};
ghost use Rattle.dc_words.specs.Lists.{lists_of};
ghost use Rattle.dc_words.specs.Words.{AllBelow};
ghost use Rattle.dc_world.specs.Openable.{CanOpen};
ghost use Rattle.dc_command.specs.Command.{order_view};
ghost use Rattle.dc_recovery.specs.Unstopped.{AreTurns};
ghost use Rattle.dc_schedule.specs.Schedules.{Reads};
ghost use Rattle.dc_run.specs.Opening.{AsksAtPlan, AsksForGuest, AsksToRun, Files, IsSourceThere, command_of, entries_of, file_in, guest_in, halt_at, images_in, medium_at, opening_at_plan, opening_of, plan_for, schedule_in};
ghost use Rattle.dc_run.specs.Settings.{Agrees, LibraryKept, setting_of};
ghost use Rattle.dc_run.specs.declared.verdict.Which.{Which as Whose};

use crate::Which;
use crate::refusal::Refusal;
use crate::setting::OpenedRun;
use dc_command::{Ledger, Order};
use dc_course::{Scheduled, Setting};
use dc_elf::{Image, LoadFault, load};
use dc_limits::PROCESSES;
use dc_media::{Fetch, Library};
use dc_model::Entry;
use dc_plan::{Command, Plan, PlanError, ScheduleSource, read_plan};
use dc_schedule::{ReadError, generate, read, read_turns};
use dc_world::Setup;
use std::alloc::{AllocError, Global};

/// All the bytes of a file of the command.
pub fn fetch<L: Library>(
    alloc: Global,
    lib: &mut L,
    which: Which,
    name: &str,
) -> Result<Vec<u8>, Refusal>
    ensures told { (files : Files) → L.files lib.old ≡ Some files → Agrees (λ bytes. bytes.items) result (file_in files which name.now) }
    ensures which { (w : Whose) → IsErrOf result (Refusal.Library w) → w ≡ which }
    ensures there { (files : Files) (w : Whose) → L.files lib.old ≡ Some files → IsErrOf result (Refusal.Library w) → IsSome (files name.now) }
    ensures files { OnOk result (L.files lib.new ≡ L.files lib.old) }
    ensures fault { (w : Whose) → IsErrOf result (Refusal.Library w) → Rose (L.faults lib.old) (L.faults lib.new) }
    ensures library { LibraryKept (L.files lib.old) (L.files lib.new) (L.faults lib.old) (L.faults lib.new) }
{
    match lib.fetch(alloc, name) {
        Ok(bytes) => Ok(bytes),
        Err(Fetch::Missing) => Err(Refusal::Missing(which)),
        Err(Fetch::Failed) => Err(Refusal::Library(which)),
        Err(Fetch::Memory) => Err(Refusal::Memory),
    }
}

/// The command that reads a plan, by what its run writes at its end.
fn command_of(ledger: Ledger) -> Command
    ensures { result ≡ command_of ledger }
{
    match ledger {
        Ledger::Report => Command::Run,
        Ledger::Journal => Command::Journal,
        Ledger::Total => Command::Resume,
    }
}

/// The plan of an order.
fn plan_for<L: Library>(alloc: Global, lib: &mut L, order: &Order) -> Result<Plan, Refusal>
    ensures told { (files : Files) → L.files lib.old ≡ Some files → Agrees plan_view result (plan_for files (order_view order.now)) }
    ensures allowed { IfOk result (λ plan. IsAllowed (plan_view plan)) }
    ensures suits { IfOk result (λ plan. Suits (command_of order.now.ledger) (plan_view plan)) }
    ensures which { (w : Whose) → IsErrOf result (Refusal.Library w) → w ≡ Which.Plan }
    ensures there { (files : Files) (w : Whose) → L.files lib.old ≡ Some files → IsErrOf result (Refusal.Library w) → IsSome (files order.now.plan.now) }
    ensures files { OnOk result (L.files lib.new ≡ L.files lib.old) }
    ensures fault { (w : Whose) → IsErrOf result (Refusal.Library w) → Rose (L.faults lib.old) (L.faults lib.new) }
    ensures library { LibraryKept (L.files lib.old) (L.files lib.new) (L.faults lib.old) (L.faults lib.new) }
{
    let text = fetch(alloc, lib, Which::Plan, order.plan)?;
    match read_plan(alloc, &text, command_of(order.ledger)) {
        Ok(plan) => Ok(plan),
        Err(PlanError::Refused(fault)) => Err(Refusal::Plan(fault)),
        Err(PlanError::Memory) => Err(Refusal::Memory),
    }
}

/// How many bytes an image has. They are bytes, and its entry is a word.
fn typed(image: &Image) -> usize
    ensures entry { image.now.entry < 2 ^ 32 }
    ensures bytes { AllBelow (2 ^ 8) image.now.memory.items }
{
    let _entry = image.entry;
    let bytes = image.memory.as_slice();
    bytes.len()
}

/// The image of guest `p`, whose file has that name, in a memory of this size.
fn load_guest<L: Library>(
    alloc: Global,
    lib: &mut L,
    size: u32,
    p: u32,
    name: &str,
) -> Result<Image, Refusal>
    requires least { 65536 ≤ size }
    requires most { size ≤ 1048576 }
    requires pages { size % 4096 ≡ 0 }
    ensures told { (files : Files) → L.files lib.old ≡ Some files → Agrees seen_image result (guest_in files size p name.now) }
    ensures good { IfOk result CanOpen }
    ensures typed { IfOk result (λ image. IsImage (seen_image image)) }
    ensures which { (w : Whose) → IsErrOf result (Refusal.Library w) → w ≡ Which.Guest p }
    ensures there { (files : Files) (w : Whose) → L.files lib.old ≡ Some files → IsErrOf result (Refusal.Library w) → IsSome (files name.now) }
    ensures files { OnOk result (L.files lib.new ≡ L.files lib.old) }
    ensures fault { (w : Whose) → IsErrOf result (Refusal.Library w) → Rose (L.faults lib.old) (L.faults lib.new) }
    ensures library { LibraryKept (L.files lib.old) (L.files lib.new) (L.faults lib.old) (L.faults lib.new) }
{
    let file = fetch(alloc, lib, Which::Guest(p), name)?;
    match load(alloc, &file, size) {
        Ok(image) => {
            let _long = typed(&image);
            Ok(image)
        }
        Err(LoadFault::Refused(fault)) => Err(Refusal::Guest(p, fault)),
        Err(LoadFault::Memory) => Err(Refusal::Memory),
    }
}

/// The images of the guests, whose files have those names, each in a memory of this size.
fn load_guests<L: Library>(
    alloc: Global,
    lib: &mut L,
    size: u32,
    names: &[String],
) -> Result<Vec<Image>, Refusal>
    requires few { length names.now ≤ PROCESSES }
    requires least { 65536 ≤ size }
    requires most { size ≤ 1048576 }
    requires pages { size % 4096 ≡ 0 }
    ensures told { (files : Files) → L.files lib.old ≡ Some files → Agrees (λ images. map seen_image images.items) result (images_in files size 0 (map string_bytes names.now)) }
    ensures good { IfOk result (λ images. All CanOpen images.items) }
    ensures typed { IfOk result (λ images. AllByRecursion IsImage (map seen_image images.items)) }
    ensures count { IfOk result (λ images. length images.items ≡ length names.now) }
    ensures reached { (files : Files) (w : Whose) → L.files lib.old ≡ Some files → IsErrOf result (Refusal.Library w) →
        (q : ℕ) × (w ≡ Which.Guest q) × AsksForGuest files size (map string_bytes names.now) q }
    ensures files { OnOk result (L.files lib.new ≡ L.files lib.old) }
    ensures fault { (w : Whose) → IsErrOf result (Refusal.Library w) → Rose (L.faults lib.old) (L.faults lib.new) }
    ensures library { LibraryKept (L.files lib.old) (L.files lib.new) (L.faults lib.old) (L.faults lib.new) }
{
    let mut images = Vec::new(alloc);
    for name in names {
        let p = images.len() as u32;
        let image = load_guest(alloc, lib, size, p, name)?;
        if images.push(image).is_err() {
            return Err(Refusal::Memory);
        }
    }
    Ok(images)
}

/// The entries of a text, for `n` guests: of a run that is to leave its journal turns alone.
fn entries_in(alloc: Global, ledger: Ledger, n: u32, text: &[u8]) -> Result<Vec<Entry>, ReadError>
    requires { 0 < n }
    ensures exact { Reads result (entries_of ledger n text.now) }
    ensures schedule { IfOk result (λ entries. IsSchedule n entries.items) }
    ensures turns { IfOk result (λ entries. ledger ≡ Ledger.Journal → AreTurns entries.items) }
{
    match ledger {
        Ledger::Report => read(alloc, text, n),
        Ledger::Total => read(alloc, text, n),
        Ledger::Journal => read_turns(alloc, text, n),
    }
}

/// The schedule of the file of that name, for `n` guests.
fn schedule_at<L: Library>(
    alloc: Global,
    lib: &mut L,
    ledger: Ledger,
    n: u32,
    name: &str,
) -> Result<Vec<Entry>, Refusal>
    requires { 0 < n }
    ensures told { (files : Files) → L.files lib.old ≡ Some files → Agrees (λ entries. entries.items) result (schedule_in files ledger n (InFile name.now)) }
    ensures schedule { IfOk result (λ entries. IsSchedule n entries.items) }
    ensures turns { IfOk result (λ entries. ledger ≡ Ledger.Journal → AreTurns entries.items) }
    ensures which { (w : Whose) → IsErrOf result (Refusal.Library w) → w ≡ Which.Schedule }
    ensures there { (files : Files) (w : Whose) → L.files lib.old ≡ Some files → IsErrOf result (Refusal.Library w) → IsSome (files name.now) }
    ensures files { OnOk result (L.files lib.new ≡ L.files lib.old) }
    ensures fault { (w : Whose) → IsErrOf result (Refusal.Library w) → Rose (L.faults lib.old) (L.faults lib.new) }
    ensures library { LibraryKept (L.files lib.old) (L.files lib.new) (L.faults lib.old) (L.faults lib.new) }
{
    let text = fetch(alloc, lib, Which::Schedule, name)?;
    match entries_in(alloc, ledger, n, &text) {
        Ok(entries) => Ok(entries),
        Err(ReadError::Refused(fault)) => Err(Refusal::Schedule(fault)),
        Err(ReadError::Memory) => Err(Refusal::Memory),
    }
}

/// The schedule of a plan for `n` guests.
fn schedule_from<L: Library>(
    alloc: Global,
    lib: &mut L,
    ledger: Ledger,
    n: u32,
    source: &ScheduleSource,
) -> Result<Vec<Entry>, Refusal>
    requires some { 0 < n }
    requires allowed { IsSourceAllowed (source_view source.now) }
    ensures told { (files : Files) → L.files lib.old ≡ Some files → Agrees (λ entries. entries.items) result (schedule_in files ledger n (source_view source.now)) }
    ensures schedule { IfOk result (λ entries. IsSchedule n entries.items) }
    ensures turns { IfOk result (λ entries. ledger ≡ Ledger.Journal → is_seed (source_view source.now) ≡ false → AreTurns entries.items) }
    ensures which { (w : Whose) → IsErrOf result (Refusal.Library w) → w ≡ Which.Schedule }
    ensures there { (files : Files) (w : Whose) → L.files lib.old ≡ Some files → IsErrOf result (Refusal.Library w) → IsSourceThere files (source_view source.now) }
    ensures files { OnOk result (L.files lib.new ≡ L.files lib.old) }
    ensures fault { (w : Whose) → IsErrOf result (Refusal.Library w) → Rose (L.faults lib.old) (L.faults lib.new) }
    ensures library { LibraryKept (L.files lib.old) (L.files lib.new) (L.faults lib.old) (L.faults lib.new) }
{
    match source {
        ScheduleSource::File(name) => schedule_at(alloc, lib, ledger, n, name),
        ScheduleSource::Seed(seed) => match generate(alloc, seed.start, seed.turns, n) {
            Ok(entries) => Ok(entries),
            Err(AllocError) => Err(Refusal::Memory),
        },
    }
}

/// With the plan.
fn open_plan<L: Library>(
    alloc: Global,
    lib: &mut L,
    ledger: Ledger,
    plan: Plan,
) -> Result<OpenedRun, Refusal>
    requires { IsAllowed (plan_view plan) }
    ensures told { (files : Files) → L.files lib.old ≡ Some files → Agrees setting_of result (opening_at_plan files ledger (plan_view plan)) }
    ensures ledger { IfOk result (λ s. (s.ledger ≡ ledger) × (s.setting.stops ≡ plan.stops)) }
    ensures turns { IfOk result (λ s. ledger ≡ Ledger.Journal → is_seed (plan_view plan).schedule ≡ false → AreTurns s.setting.scheduled.schedule.items) }
    ensures medium { IfOk result (λ s. s.medium ≡ plan.medium) }
    ensures halt { IfOk result (λ s. s.halt ≡ plan.halt) }
    ensures given { IfOk result (λ s. IsGivenRun (map seen_image s.setting.scheduled.setup.images.items) (lists_of s.setting.scheduled.setup.inputs.items) s.setting.scheduled.schedule.items) }
    ensures reached { (files : Files) (w : Whose) → L.files lib.old ≡ Some files → IsErrOf result (Refusal.Library w) → AsksAtPlan files (plan_view plan) w }
    ensures files { OnOk result (L.files lib.new ≡ L.files lib.old) }
    ensures fault { (w : Whose) → IsErrOf result (Refusal.Library w) → Rose (L.faults lib.old) (L.faults lib.new) }
    ensures library { LibraryKept (L.files lib.old) (L.files lib.new) (L.faults lib.old) (L.faults lib.new) }
{
    let images = load_guests(alloc, lib, plan.memory, &plan.guests)?;
    let n = images.len() as u32;
    let schedule = schedule_from(alloc, lib, ledger, n, &plan.schedule)?;
    let setup = Setup {
        protocol: plan.protocol,
        images,
        inputs: plan.inputs,
    };
    let setting = Setting {
        scheduled: Scheduled { setup, schedule },
        stops: plan.stops,
    };
    Ok(OpenedRun {
        ledger,
        medium: plan.medium,
        setting,
        halt: plan.halt,
    })
}

/// What the files open the run of an order with, or the first refusal.
pub fn open<L: Library>(alloc: Global, order: &Order, lib: &mut L) -> Result<OpenedRun, Refusal>
    ensures told { (files : Files) → L.files lib.old ≡ Some files → Agrees setting_of result (opening_of files (order_view order.now)) }
    ensures medium { (files : Files) → L.files lib.old ≡ Some files → IfOk result (λ s. medium_at files (order_view order.now) ≡ s.medium) }
    ensures halt { (files : Files) → L.files lib.old ≡ Some files → IfOk result (λ s. halt_at files (order_view order.now) ≡ s.halt) }
    ensures disk { IfOk result (λ s. s.ledger ≡ Ledger.Total → s.medium ≡ Media.Disk) }
    ensures ledger { IfOk result (λ s. s.ledger ≡ order.now.ledger) }
    ensures turns { IfOk result (λ s. s.ledger ≡ Ledger.Journal → AreTurns s.setting.scheduled.schedule.items × (s.setting.stops.items ≡ [])) }
    ensures given { IfOk result (λ s. IsGivenRun (map seen_image s.setting.scheduled.setup.images.items) (lists_of s.setting.scheduled.setup.inputs.items) s.setting.scheduled.schedule.items) }
    ensures reached { (files : Files) (w : Whose) → L.files lib.old ≡ Some files → IsErrOf result (Refusal.Library w) → AsksToRun files (order_view order.now) w }
    ensures files { OnOk result (L.files lib.new ≡ L.files lib.old) }
    ensures fault { (w : Whose) → IsErrOf result (Refusal.Library w) → Rose (L.faults lib.old) (L.faults lib.new) }
    ensures library { LibraryKept (L.files lib.old) (L.files lib.new) (L.faults lib.old) (L.faults lib.new) }
{
    let plan = plan_for(alloc, lib, order)?;
    open_plan(alloc, lib, order.ledger, plan)
}
