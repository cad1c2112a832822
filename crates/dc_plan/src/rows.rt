//! The keys of a plan in their order: what each says, or its first fault.
ghost use Rattle.std.specs.Prelude.{◌≡◌, ◌≤◌, ◌&&◌, ◌==◌, Some, length, map, nat_le, option_map};
ghost use Rattle.std.specs.List.{list_all};
ghost use Rattle.toml.specs.View.{view, table_view};
ghost use Rattle.dc_plan.specs.Values.{is_array_of, is_text, items_in, text_in};
ghost use Rattle.dc_plan.specs.Plans.{guests_row, halt_row, has, inputs_row, inputs_said, medium_named, medium_row, memory_row, needed, protocol_named, protocol_row, schedule_row, seed_row, stops_row, turns_row};
ghost use Rattle.dc_plan.specs.Commands.{may_halt, runs_on};
ghost use Rattle.dc_plan.specs.Stops.{stop_of};
ghost use Rattle.dc_words.specs.Results.{seen};

use crate::command::{Command, takes};
use crate::fault::PlanFault;
use crate::inputs::{are_inputs_few, are_inputs_right, is_array_of_lists};
use crate::keys::{Key, at_key};
use crate::plan::Medium;
use crate::stops::{are_stops_complete, are_stops_right, is_array_of_stops};
use crate::values::{is_array_of_texts, items_in, text_in};
use dc_limits::{ENTRIES, PROCESSES};
use dc_protocols::Protocol;
use toml::{Table, Value};

/// The least and the most bytes of a guest's memory, and those of which it is a multiple.
const LEAST_MEMORY: u32 = 65_536;

const MOST_MEMORY: u32 = 1_048_576;

const PAGE: u32 = 4_096;

/// The most stops.
const MOST_STOPS: usize = 1_000;

/// The value at a key that a plan needs.
fn needed(key: Key, table: &Table) -> Result<&Value, PlanFault>
    ensures { seen (λ v. view v.now) result ≡ needed key (table_view table.now) }
{
    match at_key(key, table) {
        Some(value) => Ok(value),
        None => Err(PlanFault::Missing(key)),
    }
}

fn protocol_named(name: &str) -> Option<Protocol>
    ensures { result ≡ protocol_named name.now }
{
    if name == "cand" {
        Some(Protocol::Cand)
    } else if name == "cand-log" {
        Some(Protocol::CandLog)
    } else if name == "cpvs" {
        Some(Protocol::Cpvs)
    } else if name == "cbndvs" {
        Some(Protocol::Cbndvs)
    } else if name == "cbndvs-log" {
        Some(Protocol::CbndvsLog)
    } else if name == "cpv-2pc" {
        Some(Protocol::Cpv2pc)
    } else if name == "cbndv-2pc" {
        Some(Protocol::Cbndv2pc)
    } else {
        None
    }
}

fn medium_named(name: &str) -> Option<Medium>
    ensures { result ≡ medium_named name.now }
{
    if name == "rio" {
        Some(Medium::Rio)
    } else if name == "disk" {
        Some(Medium::Disk)
    } else {
        None
    }
}

/// The protocol.
pub fn protocol_in(table: &Table) -> Result<Protocol, PlanFault>
    ensures { result ≡ protocol_row (table_view table.now) }
{
    let value = needed(Key::Protocol, table)?;
    if !value.is_str() {
        return Err(PlanFault::Kind(Key::Protocol));
    }
    match protocol_named(text_in(value)) {
        Some(protocol) => Ok(protocol),
        None => Err(PlanFault::Range(Key::Protocol)),
    }
}

/// The medium, on which the command's run can be.
pub fn medium_in(by: Command, table: &Table) -> Result<Medium, PlanFault>
    ensures { result ≡ medium_row by (table_view table.now) }
{
    let value = needed(Key::Medium, table)?;
    if !value.is_str() {
        return Err(PlanFault::Kind(Key::Medium));
    }
    match medium_named(text_in(value)) {
        Some(medium) if runs_on(by, medium) => Ok(medium),
        _ => Err(PlanFault::Range(Key::Medium)),
    }
}

/// The size of each guest's memory.
pub fn memory_in(table: &Table) -> Result<u32, PlanFault>
    ensures { result ≡ memory_row (table_view table.now) }
{
    let value = needed(Key::Memory, table)?;
    let Some(number) = value.as_integer() else {
        return Err(PlanFault::Kind(Key::Memory));
    };
    match u32::try_from(number) {
        Ok(size) if LEAST_MEMORY <= size && size <= MOST_MEMORY && size % PAGE == 0 => Ok(size),
        _ => Err(PlanFault::Range(Key::Memory)),
    }
}

/// The files of the guests.
pub fn guests_in(table: &Table) -> Result<&[Value], PlanFault>
    ensures { seen (λ guests. map text_in (map view guests.now)) result ≡ guests_row (table_view table.now) }
{
    let value = needed(Key::Guests, table)?;
    if !is_array_of_texts(value) {
        return Err(PlanFault::Kind(Key::Guests));
    }
    let guests = items_in(value);
    if guests.len() > PROCESSES {
        return Err(PlanFault::TooMany(Key::Guests));
    }
    if guests.is_empty() {
        return Err(PlanFault::Range(Key::Guests));
    }
    Ok(guests)
}

/// The records of the guests, a list for each; none where the key is absent.
pub fn inputs_in(guests: usize, table: &Table) -> Result<Option<&[Value]>, PlanFault>
    ensures { seen (λ inputs. inputs_said guests (option_map (λ lists. map view lists.now) inputs)) result ≡ inputs_row guests (table_view table.now) }
{
    let Some(value) = at_key(Key::Inputs, table) else {
        return Ok(None);
    };
    if !is_array_of_lists(value) {
        return Err(PlanFault::Kind(Key::Inputs));
    }
    if !are_inputs_few(value) {
        return Err(PlanFault::TooMany(Key::Inputs));
    }
    if !are_inputs_right(guests, value) {
        return Err(PlanFault::Range(Key::Inputs));
    }
    Ok(Some(items_in(value)))
}

fn has(key: Key, table: &Table) -> bool
    ensures { result ≡ has key (table_view table.now) }
{
    at_key(key, table).is_some()
}

/// The file of the schedule.
pub fn schedule_in(table: &Table) -> Result<Option<&str>, PlanFault>
    ensures { seen (λ schedule. option_map (λ name. name.now) schedule) result ≡ schedule_row (table_view table.now) }
{
    let Some(value) = at_key(Key::Schedule, table) else {
        return if has(Key::Seed, table) {
            Ok(None)
        } else {
            Err(PlanFault::Missing(Key::Schedule))
        };
    };
    if value.is_str() {
        Ok(Some(text_in(value)))
    } else {
        Err(PlanFault::Kind(Key::Schedule))
    }
}

/// The seed.
pub fn seed_in(by: Command, table: &Table) -> Result<Option<u64>, PlanFault>
    ensures { result ≡ seed_row by (table_view table.now) }
{
    let Some(value) = at_key(Key::Seed, table) else {
        return Ok(None);
    };
    let Some(number) = value.as_integer() else {
        return Err(PlanFault::Kind(Key::Seed));
    };
    match u64::try_from(number) {
        Ok(seed) if takes(by, Key::Seed) && !has(Key::Schedule, table) => Ok(Some(seed)),
        _ => Err(PlanFault::Range(Key::Seed)),
    }
}

/// The count of turns that are drawn from the seed.
pub fn turns_in(table: &Table) -> Result<Option<u32>, PlanFault>
    ensures { result ≡ turns_row (table_view table.now) }
{
    let Some(value) = at_key(Key::Turns, table) else {
        return if has(Key::Seed, table) {
            Err(PlanFault::Missing(Key::Turns))
        } else {
            Ok(None)
        };
    };
    let Some(number) = value.as_integer() else {
        return Err(PlanFault::Kind(Key::Turns));
    };
    match u32::try_from(number) {
        Ok(turns) if turns <= ENTRIES && !has(Key::Schedule, table) => Ok(Some(turns)),
        _ => Err(PlanFault::Range(Key::Turns)),
    }
}

/// The tables of the stops.
pub fn stops_in(
    by: Command,
    medium: Medium,
    guests: usize,
    table: &Table,
) -> Result<&[Value], PlanFault>
    ensures { seen (λ stops. map stop_of (map view stops.now)) result ≡ stops_row by medium guests (table_view table.now) }
{
    let Some(value) = at_key(Key::Stop, table) else {
        return Ok(&[]);
    };
    if !are_stops_complete(value) {
        return Err(PlanFault::Missing(Key::Stop));
    }
    if !is_array_of_stops(value) {
        return Err(PlanFault::Kind(Key::Stop));
    }
    let stops = items_in(value);
    if stops.len() > MOST_STOPS {
        return Err(PlanFault::TooMany(Key::Stop));
    }
    if !takes(by, Key::Stop) && !stops.is_empty() {
        return Err(PlanFault::Range(Key::Stop));
    }
    if !are_stops_right(medium, guests, value) {
        return Err(PlanFault::Range(Key::Stop));
    }
    Ok(stops)
}

/// Whether a run may be halted on that medium: a disk keeps what it goes on from.
fn may_halt(medium: Medium) -> bool
    ensures { result ≡ may_halt medium }
{
    matches!(medium, Medium::Disk)
}

/// Whether a command's run can be on that medium.
fn runs_on(by: Command, medium: Medium) -> bool
    ensures { result ≡ runs_on by medium }
{
    by != Command::Resume || may_halt(medium)
}

/// The first entry that is not run.
pub fn halt_in(by: Command, medium: Medium, table: &Table) -> Result<Option<u32>, PlanFault>
    ensures { result ≡ halt_row by medium (table_view table.now) }
{
    let Some(value) = at_key(Key::Halt, table) else {
        return Ok(None);
    };
    let Some(number) = value.as_integer() else {
        return Err(PlanFault::Kind(Key::Halt));
    };
    match u32::try_from(number) {
        Ok(entry) if entry <= ENTRIES && may_halt(medium) && takes(by, Key::Halt) => Ok(Some(
            entry,
        )),
        _ => Err(PlanFault::Range(Key::Halt)),
    }
}
